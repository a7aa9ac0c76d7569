//! Ranks of sixteen worlds repaired after a change.
ghost use Rattle.std.specs.Prelude.{◌≡◌, ℕ, ◌+◌, ◌*◌, ◌<◌, ◌≤◌, None, false, true, All, length, replicate, slice_index, slice_index_or};
ghost use Rattle.graph_store.specs.Rows.{has_node};
ghost use Rattle.reach_ranks.specs.Rounds.{IsWhole};
ghost use Rattle.reach_ranks.specs.Ranks.{AreRanks};
ghost use Rattle.reach_ranks.specs.Floors.{is_above};
ghost use Rattle.reach_incremental.specs.Lanes.{is_live, is_one, lane, worlds_under, base_of, AreLive, AgreeInLanes, AreLaneRanks, AreLanesAbove, AreSmall, IsLaneFloor};
ghost use Rattle.reach_incremental.specs.Keys.{lane_sizes};

use crate::lanes::{LaneMarks, Lanes};
use crate::visits::{refresh_all, settle_lanes};
use graph_store::Rows;
use index_heap::Heap;
use plan_base::{NodeId, Steps};

/// Which lanes have a node of their own.
fn live_lanes(extras: &[Option<NodeId>; 16]) -> [bool; 16]
    ensures { (l : ℕ) → l < 16 → slice_index_or result l false ≡ is_one (slice_index_or extras.now l None) }
{
    let mut live = [false; 16];
    for l in 0..16 {
        live[l] = extras[l].is_some();
    }
    live
}

/// Whether some lane has.
fn is_any_live(live: &[bool; 16]) -> bool
    ensures { (result ≡ false → (l : ℕ) → l < 16 → slice_index_or live.now l false ≡ false) × (result ≡ true → (l : ℕ) × (l < 16) × (slice_index_or live.now l false ≡ true)) }
{
    for l in 0..16 {
        if live[l] {
            return true;
        }
    }
    false
}

/// Whether the rank of a live lane is earlier than the floor.
fn is_below(live: bool, low: u32, rank: u32) -> bool
    ensures { result ≡ false → live ≡ true → is_above low rank ≡ true }
{
    live && rank != 0 && (low == 0 || rank < low)
}

/// Whether some live lane has a rank earlier than the floor.
fn is_any_below(live: &[bool; 16], low: u32, ranks: &Lanes) -> bool
    ensures { result ≡ false → (l : ℕ) → l < 16 → slice_index_or live.now l false ≡ true → is_above low (slice_index ranks.now l) ≡ true }
{
    let mut any = false;
    for l in 0..16 {
        any |= is_below(live[l], low, ranks[l]);
    }
    any
}

/// Whether no rank of these nodes in a live lane is earlier than the node's floor.
fn are_above(ranks: &[Lanes], live: &[bool; 16], floor: &[u32], nodes: &[NodeId]) -> bool
    requires nodes { All (λ n. n.0 < length ranks.now) nodes.now }
    requires floor { length floor.now ≡ length ranks.now }
    ensures { result ≡ true → (l : ℕ) → l < 16 → slice_index_or live.now l false ≡ true → (n : ℕ) → has_node nodes.now n ≡ true → is_above (slice_index floor.now n) (slice_index (lane l ranks.now) n) ≡ true }
{
    for node in nodes {
        let low = floor[node.0 as usize];
        if is_any_below(live, low, &ranks[node.0 as usize]) {
            return false;
        }
    }
    true
}

/// What `repair_lanes` does where some lane is live, with a floor below which no rank is.
fn repair_above<R: Rows<L>, L>(
    ranks: &mut [Lanes],
    floor: &[u32],
    rows: &R,
    marks: LaneMarks<'_>,
    live: &[bool; 16],
    heap: &mut Heap,
    changed: &[NodeId],
    steps: &mut Steps<L>,
)
    requires marks { IsWhole (base_of (worlds_under (R.rows rows.now) marks)) }
    requires ranks { length ranks.old ≡ length (R.rows rows.now) }
    requires small { AreSmall ranks.old }
    requires live { AreLive (worlds_under (R.rows rows.now) marks) live.now }
    requires some { (l : ℕ) × (l < 16) × (is_live (worlds_under (R.rows rows.now) marks) l ≡ true) }
    requires floor { IsLaneFloor (worlds_under (R.rows rows.now) marks) floor.now }
    requires above { AreLanesAbove (worlds_under (R.rows rows.now) marks) floor.now ranks.old }
    requires heap { heap.old ≡ replicate (length (R.rows rows.now)) None }
    requires changed { All (λ n. n.0 < length (R.rows rows.now)) changed.now }
    requires agree { AgreeInLanes (worlds_under (R.rows rows.now) marks) changed.now ranks.old }
    ensures ranks { AreLaneRanks (worlds_under (R.rows rows.now) marks.entry) ranks.new }
    ensures long { length ranks.new ≡ length (R.rows rows.now) }
    ensures small { AreSmall ranks.new }
    ensures heap { heap.new ≡ heap.old }
    ensures steps { steps.new ≤ steps.old + 6 * lane_sizes (worlds_under (R.rows rows.now) marks.entry) changed.now ranks.old ranks.new }
    ensures later { steps.old ≤ steps.new }
{
    let _count = rows.len();
    refresh_all(ranks, rows, marks, live, heap, changed, steps);
    settle_lanes(ranks, rows, marks, live, floor, heap, steps);
}

/// Leaves the ranks of each live lane's world, that in which the lane's node is barred as well, of the rows and marks as
/// they are now, after a change of the nodes' rows and marks. Of idle lanes, that have no node, nothing is said.
///
/// The floor is the ranks of the world in which none is barred as well.
pub fn repair_lanes<R: Rows<L>, L>(
    ranks: &mut [Lanes],
    floor: &[u32],
    rows: &R,
    marks: LaneMarks<'_>,
    heap: &mut Heap,
    changed: &[NodeId],
    steps: &mut Steps<L>,
)
    requires marks { IsWhole (base_of (worlds_under (R.rows rows.now) marks)) }
    requires ranks { length ranks.old ≡ length (R.rows rows.now) }
    requires small { AreSmall ranks.old }
    requires floor { AreRanks (base_of (worlds_under (R.rows rows.now) marks)) floor.now }
    requires heap { heap.old ≡ replicate (length (R.rows rows.now)) None }
    requires changed { All (λ n. n.0 < length (R.rows rows.now)) changed.now }
    requires agree { AgreeInLanes (worlds_under (R.rows rows.now) marks) changed.now ranks.old }
    ensures ranks { AreLaneRanks (worlds_under (R.rows rows.now) marks.entry) ranks.new }
    ensures long { length ranks.new ≡ length (R.rows rows.now) }
    ensures small { AreSmall ranks.new }
    ensures heap { heap.new ≡ heap.old }
    ensures steps { steps.new ≤ steps.old + 6 * lane_sizes (worlds_under (R.rows rows.now) marks.entry) changed.now ranks.old ranks.new }
    ensures later { steps.old ≤ steps.new }
{
    let _count = rows.len();
    let live = live_lanes(marks.extras);
    if !is_any_live(&live) {
        return;
    }
    if are_above(ranks, &live, floor, changed) {
        repair_above(ranks, floor, rows, marks, &live, heap, changed, steps);
    } else {
        repair_above(ranks, &[], rows, marks, &live, heap, changed, steps);
    }
}
