//! The planning state, with the rows and the ranks of every world beside it.
ghost use Rattle.std.specs.Prelude.{◌≡◌, ◌+◌, ◌*◌, ◌<◌, ◌≤◌, [], Ok, IfOk, MatchResult};
ghost use Rattle.plan_base.specs.Shape.{node_count};
ghost use Rattle.graph_store.specs.Rows.{member_count};
ghost use Rattle.game_types.specs.Nodes.{shape_of};
ghost use Rattle.game_types.specs.Sound.{IsSound};
ghost use Rattle.data_edit.specs.Books.{IsSoundBook};
ghost use Rattle.depend_index.specs.Indexed.{IsIndex};
ghost use Rattle.depend_rows.specs.Rows.{rows_of};
ghost use Rattle.milestone_masks.specs.Worlds.{AreWorlds};
ghost use Rattle.plan_report.specs.LineStarts.{line_starts};
ghost use Rattle.planner_tables.specs.Effects.{AreSoundTables};
ghost use Rattle.state_changes.specs.States.{first_state, state_of, State};
ghost use Rattle.state_changes.specs.Effects.{effect_of, is_entry};
ghost use Rattle.state_changes.specs.Undoing.{LeadsBack};
ghost use Rattle.planning_state.specs.Work.{work_of};

mod questions;

use crate::loading::{Kept, kept_beside};
use crate::remembered::Remembered;
use crate::{
    add_milestone, apply_held, drop_milestone, put_milestone, restore_held, take_milestone,
};
use data_edit::Book;
use depend_index::Index;
use edit_undo::{Editable, EntryFault};
use game_types::Game;
use graph_store::Graph;
use milestone_masks::Worlds;
use plan_base::{NoMemory, Steps};
use plan_lines::Change;
use plan_report::LineStarts;
use production_table::Table;
use state_changes::{Back, Entry, Refusal, Undo, back_of, entry_of};
use std::alloc::Global;
use std::marker::Model;

/// Why there is no planner.
#[derive(Clone, Copy, Debug, PartialEq, Eq)]
pub enum LoadFault {
    /// The dependency rows of the game have more than 4,194,304 members.
    Members,
    /// Memory could not be had.
    NoMemory,
}

/// A planning state. It is seen as its book, its milestones and its tables; the rows of the game, the index that they are
/// put together from, the ranks of every world and the starts of the lines of its nodes, which these determine, are kept beside
/// them, and the ranks before the last change.
#[derive(Drop)]
pub struct Planning {
    alloc: Global,
    book: Book,
    tables: Vec<Table>,
    index: Index,
    graph: Graph,
    worlds: Worlds,
    remembered: Remembered,
    starts: LineStarts,
}

impl Model for Planning {
    ghost use Rattle.std.specs.Prelude.{◌≡◌};
    ghost use Rattle.state_changes.specs.States.{State, state_of};
    ghost use Rattle.milestone_masks.specs.Worlds.{milestones_of};
    ghost use Rattle.planning_state.specs.Worlds.{IsKept};
    ghost use Rattle.planner_tables.specs.Effects.{AreSoundTables};
    ghost use Rattle.depend_index.specs.Indexed.{IsIndex};

    ghost Value = { State };

    ghost view = { λ p. state_of p.book (milestones_of p.worlds) p.tables.items };

    ghost use Rattle.planning_state.specs.Remembered.{Remembers};
    ghost use Rattle.plan_report.specs.LineStarts.{line_starts};

    ghost invariant = { λ p. IsKept p.book p.graph p.worlds × AreSoundTables p.book.game p.tables.items × IsIndex p.book.game p.index × Remembers p.book p.graph p.remembered × (p.starts ≡ line_starts p.book.game) };
}

// A planning state with no milestones and no tables.
fn assemble(alloc: Global, book: Book, kept: Kept) -> Planning
    requires sound { IsSoundBook book }
    requires index { IsIndex book.game kept.index }
    requires rows { kept.graph ≡ rows_of book.game }
    requires none { kept.worlds.milestones ≡ [] }
    requires worlds { AreWorlds (rows_of book.game) book.barred book.granted kept.worlds }
    requires starts { kept.starts ≡ line_starts book.game }
    ensures { result ≡ state_of book [] [] }
{
    let Kept {
        index,
        graph,
        worlds,
        starts,
    } = kept;
    Planning {
        alloc,
        book,
        tables: Vec::new(alloc),
        index,
        graph,
        worlds,
        remembered: Remembered::none(),
        starts,
    }
}

// A planning state of a book, with no milestones and no tables.
fn of_book<L>(alloc: Global, book: Book, steps: &mut Steps<L>) -> Result<Planning, LoadFault>
    requires { IsSoundBook book }
    ensures planning { MatchResult result
        (λ planning. (planning ≡ state_of book [] []) × (member_count (rows_of book.game) ≤ 4_194_304))
        (λ fault. fault ≡ LoadFault.Members → 4_194_304 < member_count (rows_of book.game)) }
    ensures steps { IfOk result (λ _. steps.new ≤ steps.old + node_count (shape_of book.game) + 4 * (node_count (shape_of book.game) + member_count (rows_of book.game))) }
    ensures later { steps.old ≤ steps.new }
{
    let kept = kept_beside(alloc, &book, steps)?;
    Ok(assemble(alloc, book, kept))
}

impl Planning {
    /// The game with no marks and no milestones.
    ///
    /// # Errors
    ///
    /// `Members` exactly where the rows have more than 4,194,304 members; `NoMemory` where memory could not be had.
    pub fn make<L>(alloc: Global, game: Game, steps: &mut Steps<L>) -> Result<Planning, LoadFault>
        requires { IsSound game }
        ensures planning { MatchResult result
            (λ planning. (planning ≡ first_state game) × (member_count (rows_of game) ≤ 4_194_304))
            (λ fault. fault ≡ LoadFault.Members → 4_194_304 < member_count (rows_of game)) }
        ensures steps { IfOk result (λ _. steps.new ≤ steps.old + node_count (shape_of game) + 4 * (node_count (shape_of game) + member_count (rows_of game))) }
        ensures later { steps.old ≤ steps.new }
    {
        match Book::make(alloc, game) {
            Ok(book) => of_book(alloc, book, steps),
            Err(_) => Err(LoadFault::NoMemory),
        }
    }

    /// The game as it stands.
    pub fn game(&self) -> &Game
        ensures game { result.now ≡ self.now.book.game }
        ensures sound { IsSound result.now }
    {
        &self.book.game
    }

    /// The tables, in the order in which they were added.
    pub fn tables(&self) -> &[Table]
        ensures tables { result.now ≡ self.now.tables }
        ensures sound { AreSoundTables self.now.book.game result.now }
    {
        self.tables.as_slice()
    }

    /// The start of the line of each node. It is made once, where the game is loaded: no edit changes which things there are, or
    /// their names.
    pub fn line_starts(&self) -> &LineStarts
        ensures { result.now ≡ line_starts self.now.book.game }
    {
        &self.starts
    }
}

impl<L> Editable<L> for Planning {
    type Edit = Change;

    type Inverse = Undo;

    type Fault = Refusal;

    ghost State = { State };

    ghost state = { λ planning. planning };

    ghost effect = { effect_of };

    ghost takes = { is_entry };

    ghost leads_back = { LeadsBack };

    ghost work = { work_of };

    fn apply_all(
        &mut self,
        edits: &[Change],
        steps: &mut Steps<L>,
    ) -> Result<Vec<Undo>, EntryFault<Refusal>> {
        match entry_of(edits) {
            Entry::Add(object) => add_milestone(
                self.alloc,
                &self.book,
                &self.graph,
                &mut self.worlds,
                object,
                steps,
            ),
            Entry::Take(object) => {
                take_milestone(self.alloc, &self.book, &mut self.worlds, object)
            }
            Entry::Held => apply_held(
                self.alloc,
                &mut self.book,
                &mut self.tables,
                &mut self.index,
                &mut self.graph,
                &mut self.worlds,
                &mut self.remembered,
                edits,
                steps,
            ),
        }
    }

    fn restore_all(
        &mut self,
        edits: &[Change],
        inverses: &[Undo],
        steps: &mut Steps<L>,
    ) -> Result<(), NoMemory> {
        match back_of(inverses) {
            Back::Drops(node) => {
                drop_milestone(&mut self.worlds, node);
                Ok(())
            }
            Back::Puts { node, place } => put_milestone(
                self.alloc,
                &self.book,
                &self.graph,
                &mut self.worlds,
                node,
                place,
                steps,
            ),
            Back::Parts => restore_held(
                self.alloc,
                &mut self.book,
                &mut self.tables,
                &mut self.index,
                &mut self.graph,
                &mut self.worlds,
                &mut self.remembered,
                edits,
                inverses,
                steps,
            ),
        }
    }
}
