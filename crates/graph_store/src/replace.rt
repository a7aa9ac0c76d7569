//! Rows put in the place of others: the users that are new are added first, since that alone takes memory; then
//! the rows are exchanged, and the users that are none now are taken out.
ghost use Rattle.std.specs.Prelude.{◌≡◌, ◌≢◌, ℕ, ◌<◌, ◌≤◌, true, false, All, Some, length, slice_get, slice_index_or, OnErr, OnOk};
ghost use Rattle.graph_store.specs.Rows.{has_member, has_node, AreMembersBelow, AreUsers, HasMembersBelow};
ghost use Rattle.graph_store.specs.Users.{users_at, AreClear, IsGraph};
ghost use Rattle.graph_store.specs.Replace.{count_of, is_changed_user, is_no_user, is_unmarked, nodes_of_changes, pair_of, without, Adds, AreForDifferentNodes, Drops, Marks, MayUse, Replaces};

use crate::Row;
use crate::packed::PackedRow;
use plan_base::NodeId;
use std::alloc::AllocError;
use std::mem::swap;

/// Whether the node is among the nodes.
fn has_node(nodes: &[NodeId], node: NodeId) -> bool
    ensures { result ≡ has_node nodes.now node.0 }
{
    nodes.iter().any(|m| m.0 == node.0)
}

/// Adds a user, where it isn't there already.
fn add_once(users: &mut Vec<NodeId>, user: NodeId) -> Result<(), AllocError>
    ensures others { (u : ℕ) → u ≢ user.0 → count_of users.new.items u ≡ count_of users.old.items u }
    ensures kept { count_of users.old.items user.0 ≤ count_of users.new.items user.0 }
    ensures once { count_of users.old.items user.0 ≤ 1 → count_of users.new.items user.0 ≤ 1 }
    ensures there { OnOk result (0 < count_of users.new.items user.0) }
{
    if !has_node(users, user) {
        users.push(user)?;
    }
    Ok(())
}

/// Adds a user to the lists of the members.
fn add_to_each(
    users: &mut [Vec<NodeId>],
    members: &[NodeId],
    user: NodeId,
) -> Result<(), AllocError>
    requires { All (λ m. m.0 < length users.old) members.now }
    ensures adds { Adds (pair_of user.0 (λ n. has_node members.now n)) users.old users.new }
    ensures there { OnOk result ((n : ℕ) → has_node members.now n ≡ true → 0 < count_of (users_at users.new n) user.0) }
{
    for m in members {
        let of = &mut users[m.0 as usize];
        add_once(of, user)?;
    }
    Ok(())
}

/// Adds a user to the lists of the members of its row.
fn add_to_row(users: &mut [Vec<NodeId>], row: &Row, user: NodeId) -> Result<(), AllocError>
    requires { HasMembersBelow (length users.old) row.now }
    ensures adds { Adds (pair_of user.0 (λ n. has_member row.now n)) users.old users.new }
    ensures there { OnOk result ((n : ℕ) → has_member row.now n ≡ true → 0 < count_of (users_at users.new n) user.0) }
{
    for group in row.groups.as_slice() {
        add_to_each(users, group.members.as_slice(), user)?;
    }
    Ok(())
}

/// Adds the nodes of the changes to the lists of the members of their rows.
pub fn add_all(users: &mut [Vec<NodeId>], changes: &[(NodeId, PackedRow)]) -> Result<(), AllocError>
    requires { All (λ c. HasMembersBelow (length users.old) c.1) changes.now }
    ensures adds { Adds (is_changed_user changes.now) users.old users.new }
    ensures there { OnOk result (All (λ c. (n : ℕ) → has_member c.1 n ≡ true → 0 < count_of (users_at users.new n) c.0.0) changes.now) }
{
    for change in changes {
        add_to_row(users, change.1.row(), change.0)?;
    }
    Ok(())
}

/// Marks the members, or takes their marks away.
fn mark_each(marks: &mut [bool], members: &[NodeId], mark: bool)
    requires { All (λ m. m.0 < length marks.old) members.now }
    ensures { Marks (λ n. has_node members.now n) mark marks.old marks.new }
{
    for m in members {
        marks[m.0 as usize] = mark;
    }
}

/// Marks the members of the row, or takes their marks away.
fn mark_row(marks: &mut [bool], row: &Row, mark: bool)
    requires { HasMembersBelow (length marks.old) row.now }
    ensures { Marks (λ n. has_member row.now n) mark marks.old marks.new }
{
    for group in row.groups.as_slice() {
        mark_each(marks, group.members.as_slice(), mark);
    }
}

/// Takes a user out.
fn drop_user(users: &mut Vec<NodeId>, user: NodeId)
    ensures { users.new.items ≡ without user.0 users.old.items }
{
    users.retain(|u| u.0 != user.0);
}

/// Takes a user out, if the list's node isn't marked.
fn drop_unless(users: &mut Vec<NodeId>, user: NodeId, is_marked: bool)
    ensures others { (u : ℕ) → u ≢ user.0 → count_of users.new.items u ≡ count_of users.old.items u }
    ensures kept { is_marked ≡ true → count_of users.new.items user.0 ≡ count_of users.old.items user.0 }
    ensures gone { is_marked ≡ false → count_of users.new.items user.0 ≡ 0 }
{
    if !is_marked {
        drop_user(users, user);
    }
}

/// Takes a user out of the lists of the members that aren't marked.
fn drop_from_each(users: &mut [Vec<NodeId>], marks: &[bool], members: &[NodeId], user: NodeId)
    requires members { All (λ m. m.0 < length users.old) members.now }
    requires marks { length marks.now ≡ length users.old }
    ensures drops { Drops (pair_of user.0 (is_unmarked marks.now (λ n. has_node members.now n))) users.old users.new }
    ensures gone { (n : ℕ) → has_node members.now n ≡ true → slice_index_or marks.now n false ≡ false → count_of (users_at users.new n) user.0 ≡ 0 }
{
    for m in members {
        let is_marked = marks[m.0 as usize];
        let of = &mut users[m.0 as usize];
        drop_unless(of, user, is_marked);
    }
}

/// Takes a user out of the lists of the members of a row that aren't marked.
fn drop_from_row(users: &mut [Vec<NodeId>], marks: &[bool], row: &Row, user: NodeId)
    requires members { HasMembersBelow (length users.old) row.now }
    requires marks { length marks.now ≡ length users.old }
    ensures drops { Drops (pair_of user.0 (is_unmarked marks.now (λ n. has_member row.now n))) users.old users.new }
    ensures gone { (n : ℕ) → has_member row.now n ≡ true → slice_index_or marks.now n false ≡ false → count_of (users_at users.new n) user.0 ≡ 0 }
{
    for group in row.groups.as_slice() {
        drop_from_each(users, marks, group.members.as_slice(), user);
    }
}

/// Takes the node of a change out of the lists of the members of its row that its row in the graph doesn't have.
fn tidy_change(
    users: &mut [Vec<NodeId>],
    marks: &mut [bool],
    rows: &[PackedRow],
    change: &(NodeId, PackedRow),
)
    requires users { length users.old ≡ length rows.now }
    requires marks { length marks.old ≡ length rows.now }
    requires clear { AreClear marks.old }
    requires node { change.now.0.0 < length rows.now }
    requires members { AreMembersBelow (length rows.now) rows.now }
    requires row { HasMembersBelow (length rows.now) change.now.1 }
    ensures clear { AreClear marks.new }
    ensures marks { length marks.new ≡ length rows.now }
    ensures drops { Drops (pair_of change.now.0.0 (is_no_user rows.now change.now)) users.old users.new }
    ensures gone { (n : ℕ) → n < length rows.now → is_no_user rows.now change.now n ≡ true → count_of (users_at users.new n) change.now.0.0 ≡ 0 }
{
    let kept = rows[change.0.0 as usize].row();
    mark_row(marks, kept, true);
    drop_from_row(users, marks, change.1.row(), change.0);
    mark_row(marks, kept, false);
}

/// Takes the nodes of the changes out of the lists where they are no users.
pub fn tidy(
    users: &mut [Vec<NodeId>],
    marks: &mut [bool],
    rows: &[PackedRow],
    changes: &[(NodeId, PackedRow)],
)
    requires users { MayUse rows.now (is_changed_user changes.now) users.old }
    requires marks { length marks.old ≡ length rows.now }
    requires clear { AreClear marks.old }
    requires nodes { All (λ c. c.0.0 < length rows.now) changes.now }
    requires members { AreMembersBelow (length rows.now) rows.now }
    requires rows { All (λ c. HasMembersBelow (length rows.now) c.1) changes.now }
    ensures clear { AreClear marks.new }
    ensures marks { length marks.new ≡ length rows.now }
    ensures as_long { length users.new ≡ length rows.now }
    ensures users { (node : ℕ) → node < length rows.now → AreUsers rows.now node (users_at users.new node) }
{
    for change in changes {
        tidy_change(users, marks, rows, change);
    }
}

/// Puts the rows of the changes in the place of those of their nodes, which the changes get.
pub fn exchange(rows: &mut [PackedRow], changes: &mut [(NodeId, PackedRow)])
    requires nodes { All (λ c. c.0.0 < length rows.old) changes.old }
    requires differ { AreForDifferentNodes changes.old }
    ensures put { Replaces changes.old rows.old rows.new }
    ensures back { Replaces changes.new rows.new rows.old }
    ensures nodes { nodes_of_changes changes.new ≡ nodes_of_changes changes.old }
{
    for i in 0..changes.len() {
        let change = &mut changes[i];
        swap(&mut rows[change.0.0 as usize], &mut change.1);
    }
}

/// Puts the rows of the changes in the place of those of their nodes, which the changes get, and keeps the lists.
pub fn replace_all(
    rows: &mut [PackedRow],
    users: &mut [Vec<NodeId>],
    marks: &mut [bool],
    changes: &mut [(NodeId, PackedRow)],
) -> Result<(), AllocError>
    requires graph { IsGraph rows.old users.old marks.old }
    requires nodes { All (λ c. c.0.0 < length rows.old) changes.old }
    requires differ { AreForDifferentNodes changes.old }
    requires members { All (λ c. HasMembersBelow (length rows.old) c.1) changes.old }
    ensures graph { IsGraph rows.new users.new marks.new }
    ensures put { OnOk result (Replaces changes.old rows.old rows.new) }
    ensures back { OnOk result (Replaces changes.new rows.new rows.old) }
    ensures nodes { OnOk result (nodes_of_changes changes.new ≡ nodes_of_changes changes.old) }
    ensures err { OnErr result (rows.new ≡ rows.old) }
{
    match add_all(users, changes) {
        Ok(()) => {
            exchange(rows, changes);
            tidy(users, marks, rows, changes);
            Ok(())
        }
        Err(error) => {
            tidy(users, marks, rows, changes);
            Err(error)
        }
    }
}
