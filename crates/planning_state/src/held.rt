//! Entries that change the book and the tables: all of their changes and one repair, or none.
ghost use Rattle.std.specs.Prelude.{◌≡◌, ◌≢◌, ℕ, ◌+◌, ◌*◌, ◌<◌, ◌≤◌, ◌^◌, true, false, All, List, IfErr, IfOk, OnErr, OnOk, length};
ghost use Rattle.std.specs.List.{list_all};
ghost use Rattle.game_types.specs.Nodes.{shape_of};
ghost use Rattle.game_types.specs.declared.games.Game.{Game as GameOf};
ghost use Rattle.data_edit.specs.declared.books.Book.{Book as BookOf};
ghost use Rattle.data_edit.specs.Books.{IsSoundBook};
ghost use Rattle.data_edit.specs.Names.{KeepsNames};
ghost use Rattle.depend_index.specs.Indexed.{IsIndex};
ghost use Rattle.depend_rows.specs.Rows.{rows_of};
ghost use Rattle.depend_rows.specs.Touched.{touched_by_all};
ghost use Rattle.milestone_masks.specs.Worlds.{milestones_of, size_of_all};
ghost use Rattle.edit_undo.specs.Edits.{apply_edits, IsEntry, IsFaultOf, Leads};
ghost use Rattle.production_table.specs.declared.tables.Table.{Table};
ghost use Rattle.planner_tables.specs.Effects.{AreSoundTables};
ghost use Rattle.state_changes.specs.Actions.{can_be_held};
ghost use Rattle.state_changes.specs.States.{state_of};
ghost use Rattle.state_changes.specs.Effects.{effect_of, is_entry};
ghost use Rattle.state_changes.specs.Undoing.{all_restored, all_tables_restored, LeadsBack};
ghost use Rattle.planning_state.specs.Work.{work_of_book};
ghost use Rattle.planning_state.specs.Worlds.{IsKept};
ghost use Rattle.state_changes.specs.Books.{is_of_mark};
ghost use Rattle.planning_state.specs.Books.{with_rows, ComesFrom, TakesBack};
ghost use Rattle.planning_state.specs.Remembered.{Remembers};

use crate::remembered::Remembered;
use crate::settling::settle;
use data_edit::{Book, Edit};
use depend_index::Index;
use depend_rows::touched_all;
use edit_undo::EntryFault;
use graph_store::ReplaceRows;
use milestone_masks::Worlds;
use plan_base::{NoMemory, NodeId, Steps};
use plan_lines::Change;
use production_table::Table as ProductionTable;
use state_changes::{Refusal, Undo, apply_changes, edits_named, restore_parts, take_all_back};
use std::alloc::Global;

// Whether the edit sets a mark.
fn is_of_mark(edit: &Edit) -> bool
    ensures { result ≡ is_of_mark edit.now }
{
    match edit {
        Edit::Forbid(_) | Edit::Permit(_) | Edit::Grant(_) | Edit::Revoke(_) => true,
        _ => false,
    }
}

// Whether each of the edits sets a mark.
fn are_of_marks(edits: &[Edit]) -> bool
    ensures { result ≡ list_all is_of_mark edits.now }
{
    edits.iter().all(|edit| is_of_mark(edit))
}

// Of the nodes that edits touch, those whose rows may be others: none where each of the edits sets a mark.
fn with_rows<'a>(edits: &[Edit], nodes: &'a [NodeId]) -> &'a [NodeId]
    ensures { result.now ≡ with_rows edits.now nodes.now }
{
    if are_of_marks(edits) {
        &nodes[..0]
    } else {
        nodes
    }
}

// Leaves the rows, the ranks and the index as the book is now, where they are those of a book from which these edits, or what takes
// them back, lead to it.
fn settle_edits<R: ReplaceRows<L>, L>(
    alloc: Global,
    book: &Book,
    index: &mut Index,
    graph: &mut R,
    worlds: &mut Worlds,
    remembered: &mut Remembered,
    edits: &[Edit],
    steps: &mut Steps<L>,
) -> Result<(), NoMemory>
    requires sound { IsSoundBook book.now }
    requires before { (before : BookOf) × IsKept before (R.rows graph.old) worlds.old × ComesFrom before edits.now book.now × IsIndex before.game index.old × Remembers before (R.rows graph.old) remembered.old }
    ensures index { OnOk result (IsIndex book.now.game index.new) }
    ensures still { (game : GameOf) → shape_of game ≡ shape_of book.now.game → IsIndex game index.old → IsIndex game index.new }
    ensures kept { OnOk result (IsKept book.now (R.rows graph.new) worlds.new) }
    ensures remembers { OnOk result (Remembers book.now (R.rows graph.new) remembered.new) }
    ensures milestones { milestones_of worlds.new ≡ milestones_of worlds.old }
    ensures err { OnErr result ((R.rows graph.new ≡ R.rows graph.old) × (worlds.new ≡ worlds.old) × (remembered.new ≡ remembered.old)) }
    ensures work { OnOk result (steps.new ≤ steps.old + 8 * size_of_all (rows_of book.now.game) (touched_by_all (shape_of book.now.game) edits.now) worlds.old worlds.new) }
    ensures later { steps.old ≤ steps.new }
{
    let shape = book.game.shape();
    let nodes = touched_all(alloc, edits, &shape)?;
    index.note(&shape, edits)?;
    let touched = nodes.as_slice();
    let others = with_rows(edits, touched);
    settle(
        alloc, book, index, graph, worlds, remembered, others, touched, steps,
    )
}

/// Applies changes of the book and the tables in order, all of them or none, and answers what takes them back.
///
/// # Errors
///
/// The place and the refusal of the first change that is refused, in no step. Or `NoMemory`.
pub fn apply_held<R: ReplaceRows<L>, L>(
    alloc: Global,
    book: &mut Book,
    tables: &mut Vec<ProductionTable>,
    index: &mut Index,
    graph: &mut R,
    worlds: &mut Worlds,
    remembered: &mut Remembered,
    changes: &[Change],
    steps: &mut Steps<L>,
) -> Result<Vec<Undo>, EntryFault<Refusal>>
    requires kept { IsKept book.old (R.rows graph.old) worlds.old }
    requires remembers { Remembers book.old (R.rows graph.old) remembered.old }
    requires tables { AreSoundTables book.old.game tables.old.items }
    requires index { IsIndex book.old.game index.old }
    requires entry { IsEntry is_entry changes.now }
    requires held { list_all can_be_held changes.now ≡ true }
    ensures kept { IsKept book.new (R.rows graph.new) worlds.new }
    ensures names { KeepsNames book.old.game book.new.game }
    ensures remembers { Remembers book.new (R.rows graph.new) remembered.new }
    ensures tables { AreSoundTables book.new.game tables.new.items }
    ensures index { IsIndex book.new.game index.new }
    ensures milestones { milestones_of worlds.new ≡ milestones_of worlds.old }
    ensures ok { IfOk result (λ undos. Leads effect_of is_entry LeadsBack (state_of book.old (milestones_of worlds.old) tables.old.items) changes.now undos.items (state_of book.new (milestones_of worlds.new) tables.new.items)) }
    ensures fault { IfErr result (IsFaultOf (apply_edits effect_of (state_of book.old (milestones_of worlds.old) tables.old.items) changes.now)) }
    ensures err { OnErr result ((book.new ≡ book.old) × (tables.new.items ≡ tables.old.items)) }
    ensures work { OnOk result (steps.new ≤ steps.old + work_of_book changes.now (state_of book.old (milestones_of worlds.old) tables.old.items) (state_of book.new (milestones_of worlds.new) tables.new.items)) }
    ensures no_work { IfErr result (λ fault. fault ≢ EntryFault.NoMemory → steps.new ≡ steps.old) }
    ensures later { steps.old ≤ steps.new }
{
    let (edits, undos) = apply_changes(alloc, book, tables, changes)?;
    match settle_edits(
        alloc,
        book,
        index,
        graph,
        worlds,
        remembered,
        edits.as_slice(),
        steps,
    ) {
        Ok(()) => Ok(undos),
        Err(_) => {
            take_all_back(alloc, book, tables, undos);
            Err(EntryFault::NoMemory)
        }
    }
}

/// Takes changes of the book and the tables back, all of them or none.
///
/// # Errors
///
/// `NoMemory` where memory could not be had.
pub fn restore_held<R: ReplaceRows<L>, L>(
    alloc: Global,
    book: &mut Book,
    tables: &mut Vec<ProductionTable>,
    index: &mut Index,
    graph: &mut R,
    worlds: &mut Worlds,
    remembered: &mut Remembered,
    changes: &[Change],
    undos: &[Undo],
    steps: &mut Steps<L>,
) -> Result<(), NoMemory>
    requires kept { IsKept book.old (R.rows graph.old) worlds.old }
    requires remembers { Remembers book.old (R.rows graph.old) remembered.old }
    requires tables { AreSoundTables book.old.game tables.old.items }
    requires index { IsIndex book.old.game index.old }
    requires leads { (before : BookOf) × (stood : List Table) × TakesBack book.old tables.old.items changes.now undos.now before stood }
    ensures kept { IsKept book.new (R.rows graph.new) worlds.new }
    ensures names { KeepsNames book.old.game book.new.game }
    ensures remembers { Remembers book.new (R.rows graph.new) remembered.new }
    ensures tables { AreSoundTables book.new.game tables.new.items }
    ensures index { IsIndex book.new.game index.new }
    ensures milestones { milestones_of worlds.new ≡ milestones_of worlds.old }
    ensures ok { OnOk result ((book.new ≡ all_restored undos.now book.old) × (tables.new.items ≡ all_tables_restored undos.now tables.old.items)) }
    ensures err { OnErr result ((book.new ≡ book.old) × (tables.new.items ≡ tables.old.items)) }
    ensures work { OnOk result (steps.new ≤ steps.old + work_of_book changes.now (state_of book.old (milestones_of worlds.old) tables.old.items) (state_of book.new (milestones_of worlds.new) tables.new.items)) }
    ensures later { steps.old ≤ steps.new }
{
    let edits = edits_named(alloc, &book.game, changes)?;
    let forward = restore_parts(alloc, book, tables, undos)?;
    match settle_edits(
        alloc,
        book,
        index,
        graph,
        worlds,
        remembered,
        edits.as_slice(),
        steps,
    ) {
        Ok(()) => Ok(()),
        Err(fault) => {
            take_all_back(alloc, book, tables, forward);
            Err(fault)
        }
    }
}
