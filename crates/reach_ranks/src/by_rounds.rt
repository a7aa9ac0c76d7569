//! The ranks, computed from nothing, round by round, as the definition says it.
ghost use Rattle.std.specs.Prelude.{◌≡◌, ◌+◌, ◌<◌, ◌≤◌, false, length, IfOk};
ghost use Rattle.reach_ranks.specs.Rounds.{admits, world_under, IsWhole};
ghost use Rattle.reach_ranks.specs.Ranks.{within, AreRanks, AreRanksTo};

use crate::marks::{WorldMarks, is_barred};
use crate::ranks::Ranks;
use crate::satisfied::satisfies_row;
use graph_store::Rows;
use plan_base::{NoMemory, NodeId, Steps};
use std::alloc::Global;

/// Whether the node comes in after the nodes of rank 1 to `k`.
fn comes_in<R: Rows<L>, L>(
    ranks: &[u32],
    k: u32,
    rows: &R,
    marks: WorldMarks<'_>,
    node: NodeId,
    steps: &mut Steps<L>,
) -> bool
    requires node { node.0 < length (R.rows rows.now) }
    requires ranks { length ranks.now ≡ length (R.rows rows.now) }
    requires marks { IsWhole (world_under (R.rows rows.now) marks) }
    ensures comes { result ≡ admits (world_under (R.rows rows.now) marks.entry) (within ranks.now k) node.0 }
    ensures later { steps.old ≤ steps.new }
{
    let _count = rows.len();
    if is_barred(marks, node) {
        return false;
    }
    if marks.granted[node.0 as usize] {
        return true;
    }
    satisfies_row(ranks, k, rows.row(node, steps))
}

/// Goes from the ranks of `k` rounds to those of one round more, and tells whether it holds a new node.
fn add_round<R: Rows<L>, L>(
    ranks: &mut [u32],
    k: u32,
    rows: &R,
    marks: WorldMarks<'_>,
    steps: &mut Steps<L>,
) -> bool
    requires before { AreRanksTo (world_under (R.rows rows.now) marks) k ranks.old }
    requires marks { IsWhole (world_under (R.rows rows.now) marks) }
    requires round { k < length (R.rows rows.now) }
    ensures after { AreRanksTo (world_under (R.rows rows.now) marks.entry) (k + 1) ranks.new }
    ensures same { result ≡ false → ranks.new ≡ ranks.old }
    ensures later { steps.old ≤ steps.new }
{
    let mut grew = false;
    for n in 0..rows.len() {
        if ranks[n as usize] == 0 && comes_in(ranks, k, rows, marks, NodeId(n), steps) {
            ranks[n as usize] = k + 1;
            grew = true;
        }
    }
    grew
}

/// Goes from no rounds to all of them.
fn add_rounds<R: Rows<L>, L>(
    ranks: &mut [u32],
    rows: &R,
    marks: WorldMarks<'_>,
    steps: &mut Steps<L>,
)
    requires before { AreRanksTo (world_under (R.rows rows.now) marks) 0 ranks.old }
    requires marks { IsWhole (world_under (R.rows rows.now) marks) }
    ensures ranks { AreRanks (world_under (R.rows rows.now) marks.entry) ranks.new }
    ensures later { steps.old ≤ steps.new }
{
    for k in 0..rows.len() {
        if !add_round(ranks, k, rows, marks, steps) {
            return;
        }
    }
}

/// The rank of each node under the marks, round by round.
///
/// It says the same as [`ranks_afresh`](crate::ranks_afresh), which needs fewer steps.
///
/// # Errors
///
/// `NoMemory` where memory could not be had.
pub fn ranks_by_rounds<R: Rows<L>, L>(
    alloc: Global,
    rows: &R,
    marks: WorldMarks<'_>,
    steps: &mut Steps<L>,
) -> Result<Ranks, NoMemory>
    requires { IsWhole (world_under (R.rows rows.now) marks) }
    ensures ranks { IfOk result (λ ranks. AreRanks (world_under (R.rows rows.now) marks.entry) ranks) }
    ensures later { steps.old ≤ steps.new }
{
    let mut of = vec![in alloc; 0u32; rows.len() as usize]?;
    add_rounds(&mut of, rows, marks, steps);
    Ok(Ranks { of })
}
