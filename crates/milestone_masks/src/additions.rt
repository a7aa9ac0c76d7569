//! A milestone more, with the ranks of its world.
ghost use Rattle.std.specs.Prelude.{◌≡◌, ◌≢◌, ℕ, ◌+◌, ◌*◌, ◌<◌, ◌≤◌, ◌∷◌, List, None, Some, [], length, IfErr, OnErr, OnOk};
ghost use Rattle.reach_ranks.specs.Rounds.{world_with, IsWhole};
ghost use Rattle.reach_ranks.specs.Ranks.{AreRanks};
ghost use Rattle.reach_ranks.specs.Given.{size_of};
ghost use Rattle.milestone_masks.specs.Worlds.{AddAnswer, AddsWorld};
ghost use Rattle.milestone_masks.specs.Kept.{IsKept};

use crate::milestones::Milestones;
use crate::worlds::{MILESTONE_LIMIT, Milestone, MilestoneFault};
use graph_store::Rows;
use index_heap::Heap;
use plan_base::{NodeId, Steps};
use reach_incremental::repair;
use reach_ranks::{Marks, Ranks, WorldMarks};
use std::alloc::Global;

/// Adds a milestone with the ranks of its world.
pub fn add<R: Rows<L>, L>(
    heap: &mut Heap,
    base: &Ranks,
    milestones: &mut Milestones,
    alloc: Global,
    rows: &R,
    marks: Marks<'_>,
    node: NodeId,
    place: usize,
    steps: &mut Steps<L>,
) -> Result<(), MilestoneFault>
    requires kept { IsKept heap.old base.now milestones.old.nodes milestones.old.items }
    requires marks { IsWhole (world_with (R.rows rows.now) marks None) }
    requires base { AreRanks (world_with (R.rows rows.now) marks None) base.now }
    requires node { node.0 < length (R.rows rows.now) }
    requires place { place ≤ length milestones.old.items }
    ensures answer { AddAnswer result milestones.old.items node.0 }
    ensures added { OnOk result (AddsWorld (world_with (R.rows rows.now) marks.entry (Some node)) node place milestones.old.items milestones.new.items) }
    ensures heap { heap.new ≡ heap.old }
    ensures nodes { milestones.new.nodes ≡ milestones.old.nodes }
    ensures err { OnErr result (milestones.new.items ≡ milestones.old.items) }
    ensures no_step { IfErr result (λ fault. fault ≢ MilestoneFault.NoMemory → steps.new ≡ steps.old) }
    ensures steps { (ranks : List ℕ) → AreRanks (world_with (R.rows rows.now) marks.entry (Some node)) ranks
        → steps.new ≤ steps.old + 6 * size_of (R.rows rows.now) (node ∷ []) base.now ranks }
    ensures later { steps.old ≤ steps.new }
{
    if milestones.place_of(node).is_some() {
        return Err(MilestoneFault::Already);
    }
    if milestones.len() >= MILESTONE_LIMIT {
        return Err(MilestoneFault::Full);
    }
    let Ok(mut ranks) = base.copy(alloc) else {
        return Err(MilestoneFault::NoMemory);
    };
    let in_world = WorldMarks {
        barred: marks.barred,
        granted: marks.granted,
        extra: Some(node),
    };
    repair(&mut ranks, rows, in_world, heap, &[node], steps);
    let Ok(()) = milestones.insert(alloc, place, Milestone { node, ranks }) else {
        return Err(MilestoneFault::NoMemory);
    };
    Ok(())
}
