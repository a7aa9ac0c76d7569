//! What nodes stand on: the members of their rows' groups by which they are reached.
ghost use Rattle.std.specs.Prelude.{◌≡◌, ◌<◌, ◌==◌, Some, All, length, slice_index, OnOk};
ghost use Rattle.graph_store.specs.Rows.{has_node, HasMembersBelow};
ghost use Rattle.milestone_masks.specs.Numbers.{group_at, nodes_at};
ghost use Rattle.milestone_masks.specs.Why.{is_support, is_support_in};
ghost use Rattle.milestone_masks.specs.Found.{stands_by, turn_of, AreSeen, Grows, IsFirstOf, IsLeastTurn};

use crate::found_list::FoundList;
use graph_store::{PackedRow, first_group};
use plan_base::NodeId;
use reach_ranks::Ranks;
use std::alloc::AllocError;

/// From this turn on there are only nodes without a rank.
const NO_TURN: u64 = 18_446_744_069_414_584_320;

/// Where a node comes among those that have a rank: a number that grows by rank, then by node. One without a rank comes past all others.
fn turn_of(ranks: &Ranks, node: NodeId) -> u64
    requires { node.0 < length ranks.now }
    ensures turn { result ≡ turn_of ranks.now node.0 }
    ensures few { slice_index ranks.now node.0 < 4294967296 }
    ensures small { node.0 < 4294967296 }
{
    u64::from(ranks.rank(node).wrapping_sub(1)) * 4_294_967_296 + u64::from(node.0)
}

/// The least of the members' turns.
fn least_turn(ranks: &Ranks, members: &[u32]) -> u64
    requires { All (λ m. m < length ranks.now) members.now }
    ensures { IsLeastTurn result ranks.now (nodes_at members.now) }
{
    let mut least = u64::MAX;
    for m in members {
        least = least.min(turn_of(ranks, NodeId(*m)));
    }
    least
}

/// The member that comes first among those that have a rank.
fn first_member(ranks: &Ranks, members: &[u32]) -> Option<NodeId>
    requires { All (λ m. m < length ranks.now) members.now }
    ensures { IsFirstOf result ranks.now (nodes_at members.now) }
{
    let least = least_turn(ranks, members);
    if least < NO_TURN {
        Some(NodeId((least % 4_294_967_296) as u32))
    } else {
        None
    }
}

/// Adds a node to those that were found, if it isn't among them.
pub fn note(found: &mut FoundList, seen: &mut [bool], node: NodeId) -> Result<(), AllocError>
    requires seen { AreSeen found.old seen.old }
    requires node { node.0 < length seen.old }
    ensures seen { OnOk result (AreSeen found.new seen.new) }
    ensures grows { OnOk result (Grows (λ n. node.0 == n) found.old found.new) }
{
    let is_new = !seen[node.0 as usize];
    found.add(node, is_new)?;
    seen[node.0 as usize] = true;
    Ok(())
}

/// Adds each of the nodes with these numbers.
fn note_each(found: &mut FoundList, seen: &mut [bool], nodes: &[u32]) -> Result<(), AllocError>
    requires seen { AreSeen found.old seen.old }
    requires nodes { All (λ m. m < length seen.old) nodes.now }
    ensures seen { OnOk result (AreSeen found.new seen.new) }
    ensures grows { OnOk result (Grows (λ n. has_node (nodes_at nodes.now) n) found.old found.new) }
{
    for m in nodes {
        note(found, seen, NodeId(*m))?;
    }
    Ok(())
}

/// Adds what the group of these members stands on.
fn note_group(
    found: &mut FoundList,
    seen: &mut [bool],
    ranks: &Ranks,
    all: bool,
    members: &[u32],
) -> Result<(), AllocError>
    requires seen { AreSeen found.old seen.old }
    requires ranks { length ranks.now ≡ length seen.old }
    requires members { All (λ m. m < length seen.old) members.now }
    ensures seen { OnOk result (AreSeen found.new seen.new) }
    ensures grows { OnOk result (Grows (is_support_in ranks.now (group_at all members.now)) found.old found.new) }
{
    if all {
        return note_each(found, seen, members);
    }
    match first_member(ranks, members) {
        Some(m) => note(found, seen, m),
        None => Ok(()),
    }
}

/// Adds what the row stands on. Only its list of numbers is read.
fn note_row(
    found: &mut FoundList,
    seen: &mut [bool],
    ranks: &Ranks,
    row: &PackedRow,
) -> Result<(), AllocError>
    requires seen { AreSeen found.old seen.old }
    requires ranks { length ranks.now ≡ length seen.old }
    requires members { HasMembersBelow (length seen.old) row.now }
    ensures seen { OnOk result (AreSeen found.new seen.new) }
    ensures grows { OnOk result (Grows (is_support ranks.now (Some row.now)) found.old found.new) }
{
    let mut rest = row.words();
    for k in 0..row.group_count() {
        let _place = k;
        let (all, members, behind) = first_group(rest);
        note_group(found, seen, ranks, all, members)?;
        rest = behind;
    }
    Ok(())
}

/// Adds what the node of a row stands on, if it isn't granted.
pub fn visit(
    found: &mut FoundList,
    seen: &mut [bool],
    ranks: &Ranks,
    granted: &[bool],
    node: NodeId,
    row: &PackedRow,
) -> Result<(), AllocError>
    requires seen { AreSeen found.old seen.old }
    requires ranks { length ranks.now ≡ length seen.old }
    requires granted { length granted.now ≡ length seen.old }
    requires node { node.0 < length seen.old }
    requires members { HasMembersBelow (length seen.old) row.now }
    ensures seen { OnOk result (AreSeen found.new seen.new) }
    ensures grows { OnOk result (Grows (stands_by (Some row.now) granted.now ranks.now node.0) found.old found.new) }
{
    if granted[node.0 as usize] {
        return Ok(());
    }
    note_row(found, seen, ranks, row)
}
