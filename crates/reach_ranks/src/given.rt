//! The rank that a node's row gives it.
ghost use Rattle.std.specs.Prelude.{◌≡◌, ℕ, ◌+◌, ◌-◌, ◌^◌, ◌<◌, ◌≤◌, Some, All, length};
ghost use Rattle.std.specs.List.{list_all, list_any};
ghost use Rattle.graph_store.specs.Rows.{HasMembersBelow};
ghost use Rattle.reach_ranks.specs.Rounds.{is_met, has_groups, world_under, IsWhole};
ghost use Rattle.reach_ranks.specs.Ranks.{is_one_to, within};
ghost use Rattle.reach_ranks.specs.Given.{given};

use crate::marks::{WorldMarks, is_barred};
use crate::order::{earlier, later, next_rank};
use graph_store::{PackedRow, Rows, first_group};
use plan_base::{NodeId, Steps};

/// One more than the rank of the last of the members with these numbers. Where a member has none the others aren't looked at.
fn all_rank(ranks: &[u32], members: &[u32]) -> u32
    requires { All (λ m. m < length ranks.now) members.now }
    ensures { (k : ℕ) → k < 2 ^ 32 - 1 → is_one_to (k + 1) result ≡ list_all (within ranks.now k) members.now }
{
    let mut rank = 1;
    for m in members {
        rank = later(rank, next_rank(ranks[*m as usize]));
        if rank == 0 {
            return 0;
        }
    }
    rank
}

/// One more than the rank of the first of the members with these numbers.
fn any_rank(ranks: &[u32], members: &[u32]) -> u32
    requires { All (λ m. m < length ranks.now) members.now }
    ensures { (k : ℕ) → k < 2 ^ 32 - 1 → is_one_to (k + 1) result ≡ list_any (within ranks.now k) members.now }
{
    let mut rank = 0;
    for m in members {
        rank = earlier(rank, next_rank(ranks[*m as usize]));
    }
    rank
}

/// One more than the least rank by which the group of the members with these numbers is satisfied.
fn group_rank(ranks: &[u32], all: bool, members: &[u32]) -> u32
    requires { All (λ m. m < length ranks.now) members.now }
    ensures { (k : ℕ) → k < 2 ^ 32 - 1 → is_one_to (k + 1) result ≡ is_met (within ranks.now k) all members.now }
{
    if all {
        all_rank(ranks, members)
    } else {
        any_rank(ranks, members)
    }
}

/// One more than the least rank by which each group of the row is satisfied. Where none does for a group the others aren't looked at. Only the
/// row's list of numbers is read.
fn row_rank(ranks: &[u32], row: &PackedRow) -> u32
    requires { HasMembersBelow (length ranks.now) row.now }
    ensures { (k : ℕ) → k < 2 ^ 32 - 1 → is_one_to (k + 1) result ≡ has_groups (within ranks.now k) (Some row.now) }
{
    let mut rank = 1;
    let mut rest = row.words();
    for g in 0..row.group_count() {
        let _group = g;
        let (all, members, behind) = first_group(rest);
        rank = later(rank, group_rank(ranks, all, members));
        if rank == 0 {
            return 0;
        }
        rest = behind;
    }
    rank
}

/// The rank that its row and marks give the node.
pub fn given_rank<R: Rows<L>, L>(
    ranks: &[u32],
    rows: &R,
    marks: WorldMarks<'_>,
    node: NodeId,
    steps: &mut Steps<L>,
) -> u32
    requires node { node.0 < length (R.rows rows.now) }
    requires ranks { length ranks.now ≡ length (R.rows rows.now) }
    requires marks { IsWhole (world_under (R.rows rows.now) marks) }
    ensures given { result ≡ given (world_under (R.rows rows.now) marks.entry) (2 ^ 32 - 1) ranks.now node.0 }
    ensures step { steps.new ≤ steps.old + 1 }
    ensures later { steps.old ≤ steps.new }
{
    let _count = rows.len();
    if is_barred(marks, node) {
        return 0;
    }
    if marks.granted[node.0 as usize] {
        return 1;
    }
    row_rank(ranks, rows.packed(node, steps))
}
