//! Ranks repaired after a change.
ghost use Rattle.std.specs.Prelude.{◌≡◌, ◌+◌, ◌*◌, ◌<◌, ◌≤◌, None, All, length, replicate};
ghost use Rattle.reach_ranks.specs.Rounds.{world_under, IsWhole};
ghost use Rattle.reach_ranks.specs.Ranks.{AgreeBut, AreRanks};
ghost use Rattle.reach_ranks.specs.Given.{size_of};

use graph_store::Rows;
use index_heap::Heap;
use plan_base::{NodeId, Steps};
use reach_ranks::{Ranks, WorldMarks, refresh_all, settle};

/// Leaves the ranks of the rows and marks as they are now, after a change of the nodes' rows and marks.
pub fn repair<R: Rows<L>, L>(
    ranks: &mut Ranks,
    rows: &R,
    marks: WorldMarks<'_>,
    heap: &mut Heap,
    changed: &[NodeId],
    steps: &mut Steps<L>,
)
    requires marks { IsWhole (world_under (R.rows rows.now) marks) }
    requires heap { heap.old ≡ replicate (length (R.rows rows.now)) None }
    requires changed { All (λ n. n.0 < length (R.rows rows.now)) changed.now }
    requires agree { AgreeBut (world_under (R.rows rows.now) marks) changed.now ranks.old }
    ensures ranks { AreRanks (world_under (R.rows rows.now) marks.entry) ranks.new }
    ensures heap { heap.new ≡ heap.old }
    ensures steps { steps.new ≤ steps.old + 6 * size_of (R.rows rows.now) changed.now ranks.old ranks.new }
    ensures later { steps.old ≤ steps.new }
{
    let _count = rows.len();
    refresh_all(&ranks.of, rows, marks, heap, changed, steps);
    settle(&mut ranks.of, rows, marks, heap, steps);
}
