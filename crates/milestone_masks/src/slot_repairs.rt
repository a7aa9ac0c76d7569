//! Repairs of the ranks in all blocks.
ghost use Rattle.std.specs.Prelude.{◌≡◌, ℕ, ◌+◌, ◌*◌, ◌<◌, ◌≤◌, None, Some, All, length, map, replicate, slice_get};
ghost use Rattle.reach_ranks.specs.Rounds.{world_with, IsWhole};
ghost use Rattle.reach_ranks.specs.Ranks.{AgreeBut, AreRanks};
ghost use Rattle.reach_ranks.specs.Given.{sum_below};
ghost use Rattle.reach_incremental.specs.Lanes.{worlds_with, AgreeInLanes, AreLaneRanks, AreSmall};
ghost use Rattle.reach_incremental.specs.Keys.{lane_sizes};
ghost use Rattle.milestone_masks.specs.Worlds.{size_in_world};
ghost use Rattle.milestone_masks.specs.Held.{extras_of, milestones_in, rows_of, size_in_block, AreBlocks, AreRepaired, AreSlots};

use crate::blocks::Block;
use crate::slots::Slot;
use graph_store::Rows;
use index_heap::Heap;
use plan_base::{NodeId, Steps};
use reach_incremental::{LaneMarks, repair_lanes};
use reach_ranks::{Marks, Ranks};

/// Repairs the ranks of the worlds of one block.
fn repair_block<R: Rows<L>, L>(
    block: &mut Block,
    base: &Ranks,
    rows: &R,
    marks: Marks<'_>,
    heap: &mut Heap,
    changed: &[NodeId],
    steps: &mut Steps<L>,
)
    requires marks { IsWhole (world_with (R.rows rows.now) marks None) }
    requires long { length block.old.ranks.items ≡ length (R.rows rows.now) }
    requires small { AreSmall block.old.ranks.items }
    requires base { AreRanks (world_with (R.rows rows.now) marks None) base.now }
    requires heap { heap.old ≡ replicate (length (R.rows rows.now)) None }
    requires changed { All (λ n. n.0 < length (R.rows rows.now)) changed.now }
    requires agree { AgreeInLanes (worlds_with (R.rows rows.now) marks block.old.extras) changed.now block.old.ranks.items }
    ensures ranks { AreLaneRanks (worlds_with (R.rows rows.now) marks.entry block.new.extras) block.new.ranks.items }
    ensures extras { block.new.extras ≡ block.old.extras }
    ensures long { length block.new.ranks.items ≡ length (R.rows rows.now) }
    ensures small { AreSmall block.new.ranks.items }
    ensures heap { heap.new ≡ heap.old }
    ensures steps { steps.new ≤ steps.old
        + 6 * lane_sizes (worlds_with (R.rows rows.now) marks.entry block.old.extras) changed.now block.old.ranks.items block.new.ranks.items }
    ensures later { steps.old ≤ steps.new }
{
    repair_lanes(
        &mut block.ranks,
        base.as_slice(),
        rows,
        LaneMarks {
            barred: marks.barred,
            granted: marks.granted,
            extras: &block.extras,
        },
        heap,
        changed,
        steps,
    );
}

/// Repairs the ranks of each block.
fn repair_blocks<R: Rows<L>, L>(
    blocks: &mut [Block],
    base: &Ranks,
    rows: &R,
    marks: Marks<'_>,
    heap: &mut Heap,
    changed: &[NodeId],
    steps: &mut Steps<L>,
)
    requires marks { IsWhole (world_with (R.rows rows.now) marks None) }
    requires blocks { AreBlocks (length (R.rows rows.now)) blocks.old }
    requires base { AreRanks (world_with (R.rows rows.now) marks None) base.now }
    requires heap { heap.old ≡ replicate (length (R.rows rows.now)) None }
    requires changed { All (λ n. n.0 < length (R.rows rows.now)) changed.now }
    requires agree { (b : ℕ) → b < length blocks.old →
        AgreeInLanes (worlds_with (R.rows rows.now) marks (extras_of (slice_get blocks.old b))) changed.now (rows_of (slice_get blocks.old b)) }
    ensures repaired { AreRepaired (R.rows rows.now) marks.entry.barred.now marks.entry.granted.now (length blocks.old) blocks.old blocks.new }
    ensures heap { heap.new ≡ heap.old }
    ensures steps { steps.new ≤ steps.old
        + 6 * sum_below (size_in_block (R.rows rows.now) marks.entry.barred.now marks.entry.granted.now changed.now blocks.old blocks.new) (length blocks.old) }
    ensures later { steps.old ≤ steps.new }
{
    for b in 0..blocks.len() {
        let block = &mut blocks[b];
        repair_block(block, base, rows, marks, heap, changed, steps);
    }
}

/// Repairs the ranks of each milestone's world.
pub fn repair_slots<R: Rows<L>, L>(
    blocks: &mut [Block],
    slots: &[Slot],
    base: &Ranks,
    rows: &R,
    marks: Marks<'_>,
    heap: &mut Heap,
    changed: &[NodeId],
    steps: &mut Steps<L>,
)
    requires kept { AreSlots (length (R.rows rows.now)) blocks.old slots.now }
    requires marks { IsWhole (world_with (R.rows rows.now) marks None) }
    requires base { AreRanks (world_with (R.rows rows.now) marks None) base.now }
    requires heap { heap.old ≡ replicate (length (R.rows rows.now)) None }
    requires changed { All (λ n. n.0 < length (R.rows rows.now)) changed.now }
    requires agree { All (λ m. AgreeBut (world_with (R.rows rows.now) marks (Some m.node)) changed.now m.ranks) (milestones_in blocks.old slots.now) }
    ensures kept { AreSlots (length (R.rows rows.now)) blocks.new slots.now }
    ensures long { length blocks.new ≡ length blocks.old }
    ensures ranks { All (λ m. AreRanks (world_with (R.rows rows.now) marks.entry (Some m.node)) m.ranks) (milestones_in blocks.new slots.now) }
    ensures milestones { map (λ m. m.node) (milestones_in blocks.new slots.now) ≡ map (λ m. m.node) (milestones_in blocks.old slots.now) }
    ensures heap { heap.new ≡ heap.old }
    ensures steps { steps.new ≤ steps.old
        + 6 * sum_below (size_in_world (R.rows rows.now) changed.now (milestones_in blocks.old slots.now) (milestones_in blocks.new slots.now)) (length (milestones_in blocks.old slots.now)) }
    ensures later { steps.old ≤ steps.new }
{
    let _count = rows.len();
    repair_blocks(blocks, base, rows, marks, heap, changed, steps);
}
