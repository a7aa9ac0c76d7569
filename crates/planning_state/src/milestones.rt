//! Entries that change the milestones.
ghost use Rattle.std.specs.Prelude.{◌≡◌, ◌≢◌, ◌+◌, ◌*◌, ◌∷◌, [], ◌<◌, ◌≤◌, List, None, Some, IfErr, IfOk, OnErr, OnOk, insert, length};
ghost use Rattle.plan_base.specs.Shape.{node_count};
ghost use Rattle.game_types.specs.Nodes.{shape_of};
ghost use Rattle.graph_store.specs.declared.Row.{Row};
ghost use Rattle.data_edit.specs.declared.books.Book.{Book as BookOf};
ghost use Rattle.depend_rows.specs.Rows.{rows_of};
ghost use Rattle.reach_ranks.specs.Given.{size_of};
ghost use Rattle.milestone_masks.specs.Worlds.{milestones_of, AddAnswer};
ghost use Rattle.plan_lines.specs.declared.change.Change.TheVariants.{Milestone as MilestoneLine, Unmilestone as UnmilestoneLine};
ghost use Rattle.edit_undo.specs.Edits.{apply_edits, IsFaultOf, Leads};
ghost use Rattle.production_table.specs.declared.tables.Table.{Table};
ghost use Rattle.planner_tables.specs.Effects.{AreSoundTables};
ghost use Rattle.state_changes.specs.Actions.{node_named};
ghost use Rattle.state_changes.specs.States.{milestone_place, state_of, AreSoundMilestones};
ghost use Rattle.state_changes.specs.Effects.{effect_of, is_entry};
ghost use Rattle.state_changes.specs.Undoing.{removed_at, LeadsBack};
ghost use Rattle.planning_state.specs.Work.{work_of_milestone};
ghost use Rattle.planning_state.specs.Worlds.{ranks_in, world_of, IsKept};

use data_edit::Book;
use edit_undo::EntryFault;
use graph_store::Rows;
use milestone_masks::{MilestoneFault, Worlds};
use plan_base::{NoMemory, NodeId, Steps};
use plan_lines::Object;
use reach_ranks::Marks;
use state_changes::{Refusal, Undo, entry_fault, milestone_fault, node_named, put};
use std::alloc::Global;

// Makes the node a milestone at a place in their order.
fn add_at<R: Rows<L>, L>(
    alloc: Global,
    book: &Book,
    graph: &R,
    worlds: &mut Worlds,
    node: NodeId,
    place: u32,
    steps: &mut Steps<L>,
) -> Result<(), MilestoneFault>
    requires kept { IsKept book.now (R.rows graph.now) worlds.old }
    requires node { node.0 < node_count (shape_of book.now.game) }
    requires place { place ≤ length (milestones_of worlds.old) }
    ensures answer { AddAnswer result worlds.old.milestones node.0 }
    ensures kept { IsKept book.now (R.rows graph.now) worlds.new }
    ensures added { OnOk result (milestones_of worlds.new ≡ insert (milestones_of worlds.old) place node) }
    ensures err { OnErr result (worlds.new ≡ worlds.old) }
    ensures no_step { IfErr result (λ fault. fault ≢ MilestoneFault.NoMemory → steps.new ≡ steps.old) }
    ensures steps { steps.new ≤ steps.old + 8 * size_of (rows_of book.now.game) (node ∷ []) (ranks_in (world_of book.now None)) (ranks_in (world_of book.now (Some node))) }
    ensures later { steps.old ≤ steps.new }
{
    let marks = Marks {
        barred: book.barred.as_slice(),
        granted: book.granted.as_slice(),
    };
    worlds.add_world(alloc, graph, marks, node, place, steps)
}

/// Makes the node that an object names the last milestone, and answers what takes that back.
///
/// # Errors
///
/// The refusal: nothing has the name, the node is a milestone, or there are 256. Or `NoMemory`.
pub fn add_milestone<R: Rows<L>, L>(
    alloc: Global,
    book: &Book,
    graph: &R,
    worlds: &mut Worlds,
    object: &Object,
    steps: &mut Steps<L>,
) -> Result<Vec<Undo>, EntryFault<Refusal>>
    requires kept { IsKept book.now (R.rows graph.now) worlds.old }
    ensures kept { IsKept book.now (R.rows graph.now) worlds.new }
    ensures ok { (tables : List Table) → AreSoundTables book.now.game tables → IfOk result (λ undos. Leads effect_of is_entry LeadsBack (state_of book.now (milestones_of worlds.old) tables) (MilestoneLine object.now ∷ []) undos.items (state_of book.now (milestones_of worlds.new) tables)) }
    ensures fault { (tables : List Table) → IfErr result (IsFaultOf (apply_edits effect_of (state_of book.now (milestones_of worlds.old) tables) (MilestoneLine object.now ∷ []))) }
    ensures err { OnErr result (milestones_of worlds.new ≡ milestones_of worlds.old) }
    ensures work { (tables : List Table) → OnOk result (steps.new ≤ steps.old + work_of_milestone (node_named book.now.game object.now) (state_of book.now (milestones_of worlds.old) tables) (state_of book.now (milestones_of worlds.new) tables)) }
    ensures no_work { IfErr result (λ fault. fault ≢ EntryFault.NoMemory → steps.new ≡ steps.old) }
    ensures later { steps.old ≤ steps.new }
{
    let node = match node_named(alloc, &book.game, object) {
        Ok(node) => node,
        Err(fault) => return Err(entry_fault(0, fault)),
    };
    let mut undos = Vec::new(alloc);
    if undos.reserve(1).is_err() {
        return Err(EntryFault::NoMemory);
    }
    let last = worlds.count();
    match add_at(alloc, book, graph, worlds, node, last, steps) {
        Ok(()) => {
            put(&mut undos, Undo::Added(node));
            Ok(undos)
        }
        Err(fault) => Err(entry_fault(0, milestone_fault(fault))),
    }
}

/// Makes the node that an object names no milestone any more, and answers what takes that back.
///
/// # Errors
///
/// The refusal: nothing has the name, or the node is no milestone. Or `NoMemory`.
pub fn take_milestone(
    alloc: Global,
    book: &Book,
    worlds: &mut Worlds,
    object: &Object,
) -> Result<Vec<Undo>, EntryFault<Refusal>>
    requires { (rows : List Row) × IsKept book.now rows worlds.old }
    ensures kept { (rows : List Row) → IsKept book.now rows worlds.old → IsKept book.now rows worlds.new }
    ensures ok { (tables : List Table) → AreSoundTables book.now.game tables → IfOk result (λ undos. Leads effect_of is_entry LeadsBack (state_of book.now (milestones_of worlds.old) tables) (UnmilestoneLine object.now ∷ []) undos.items (state_of book.now (milestones_of worlds.new) tables)) }
    ensures fault { (tables : List Table) → IfErr result (IsFaultOf (apply_edits effect_of (state_of book.now (milestones_of worlds.old) tables) (UnmilestoneLine object.now ∷ []))) }
    ensures err { OnErr result (milestones_of worlds.new ≡ milestones_of worlds.old) }
{
    let node = match node_named(alloc, &book.game, object) {
        Ok(node) => node,
        Err(fault) => return Err(entry_fault(0, fault)),
    };
    let mut undos = Vec::new(alloc);
    if undos.reserve(1).is_err() {
        return Err(EntryFault::NoMemory);
    }
    match worlds.drop_world(node) {
        Ok(place) => {
            put(&mut undos, Undo::Taken { node, place });
            Ok(undos)
        }
        Err(fault) => Err(entry_fault(0, milestone_fault(fault))),
    }
}

/// Makes the node no milestone any more, where it is one. It takes no memory.
pub fn drop_milestone(worlds: &mut Worlds, node: NodeId)
    ensures kept { (book : BookOf) (rows : List Row) → IsKept book rows worlds.old → IsKept book rows worlds.new }
    ensures milestones { milestones_of worlds.new ≡ removed_at (milestones_of worlds.old) (milestone_place (milestones_of worlds.old) node.0) }
{
    let _dropped = worlds.drop_world(node);
}

/// Makes the node a milestone again, at its place, where it is none and there is room.
///
/// # Errors
///
/// `NoMemory` where memory could not be had.
pub fn put_milestone<R: Rows<L>, L>(
    alloc: Global,
    book: &Book,
    graph: &R,
    worlds: &mut Worlds,
    node: NodeId,
    place: u32,
    steps: &mut Steps<L>,
) -> Result<(), NoMemory>
    requires kept { IsKept book.now (R.rows graph.now) worlds.old }
    requires node { node.0 < node_count (shape_of book.now.game) }
    requires place { place ≤ length (milestones_of worlds.old) }
    requires fits { AreSoundMilestones book.now (insert (milestones_of worlds.old) place node) }
    ensures kept { IsKept book.now (R.rows graph.now) worlds.new }
    ensures put { OnOk result (milestones_of worlds.new ≡ insert (milestones_of worlds.old) place node) }
    ensures err { OnErr result (milestones_of worlds.new ≡ milestones_of worlds.old) }
    ensures steps { steps.new ≤ steps.old + 8 * size_of (rows_of book.now.game) (node ∷ []) (ranks_in (world_of book.now None)) (ranks_in (world_of book.now (Some node))) }
    ensures later { steps.old ≤ steps.new }
{
    match add_at(alloc, book, graph, worlds, node, place, steps) {
        Ok(()) => Ok(()),
        Err(MilestoneFault::NoMemory) => Err(NoMemory),
        Err(MilestoneFault::Already) => unreachable!(),
        Err(MilestoneFault::Full) => unreachable!(),
        Err(MilestoneFault::NotOne) => unreachable!(),
    }
}
