//! The planner: what each line of a script does, and its reply.
ghost use Rattle.std.specs.Prelude.{◌≡◌, ◌+◌, ◌*◌, ◌<◌, ◌≤◌, ◌∷◌, [], List, None, Some, false, MatchResult, IfNone, IfOk, IfSome, OnErr, option_map};
ghost use Rattle.plan_base.specs.Shape.{node_count};
ghost use Rattle.graph_store.specs.Rows.{member_count};
ghost use Rattle.game_types.specs.Nodes.{shape_of};
ghost use Rattle.game_types.specs.Sound.{IsSound};
ghost use Rattle.depend_rows.specs.Rows.{rows_of};
ghost use Rattle.plan_report.specs.LineStarts.{line_starts};
ghost use Rattle.state_changes.specs.States.{State};
ghost use Rattle.planner_tables.specs.Effects.{AreSoundTables};
ghost use Rattle.edit_undo.specs.Session.{last_of, redo_of, undo_of};
ghost use Rattle.edit_undo.specs.Kept.{session_of};
ghost use Rattle.planner_tables.specs.Questions.{linear_named};
ghost use Rattle.planner_core.specs.Replies.{reached_marks};
ghost use Rattle.planner_core.specs.Posing.{IsFormed, IsPosedTable};
ghost use Rattle.planner_core.specs.Lines.{entry_work, first_planned, is_free, is_refused, line_work, Does, IsFree, IsSessionOf, IsStep, Moves};

use crate::Posed;
use crate::batches::{done_reply, one};
use crate::questions::{mask_reply, milestones_reply, missing_reply, reach_reply, why_reply};
use crate::reached::{list_reply, reached_marks, summary_reply};
use crate::refusals::{refused, refused_as};
use edit_undo::{DoFault, History};
use game_types::Game;
use plan_base::{Denied, NoMemory, Steps, Text};
use plan_lines::{Change, Command, RefusalCode, Reply};
use plan_report::LineStarts;
use planner_tables::{linear_named, rate_reply, solve_reply};
use planning_state::{LoadFault, Planning, Undo};
use production_table::Table;
use std::alloc::Global;
use std::marker::Model;

/// A planning state with its history, an open batch where there is one, and whether it is quiet.
#[derive(Drop)]
pub struct Planner {
    pub(crate) alloc: Global,
    pub(crate) planning: Planning,
    pub(crate) history: History<Change, Undo>,
    pub(crate) batch: Option<Vec<(u32, Change)>>,
    pub(crate) quiet: bool,
}

impl Model for Planner {
    ghost use Rattle.std.specs.Prelude.{option_map};
    ghost use Rattle.planner_core.specs.Lines.{Planned, planned};

    ghost Value = { Planned };

    ghost use Rattle.planner_core.specs.Planners.{IsPlanner};

    ghost view = { λ p. planned p.planning p.history (option_map (λ held. held.items) p.batch) p.quiet };

    ghost invariant = { λ p. IsPlanner (planned p.planning p.history (option_map (λ held. held.items) p.batch) p.quiet) };
}

impl Planner {
    /// The planner of a game, with no marks, no milestones and nothing done.
    ///
    /// # Errors
    ///
    /// `Members` exactly where the rows have more than 4,194,304 members; `NoMemory` where memory could not be had.
    pub fn load<L>(alloc: Global, game: Game, steps: &mut Steps<L>) -> Result<Planner, LoadFault>
        requires { IsSound game }
        ensures planner { MatchResult result
            (λ planner. (planner ≡ first_planned game) × (member_count (rows_of game) ≤ 4_194_304))
            (λ fault. fault ≡ LoadFault.Members → 4_194_304 < member_count (rows_of game)) }
        ensures steps { IfOk result (λ _. steps.new ≤ steps.old + node_count (shape_of game) + 4 * (node_count (shape_of game) + member_count (rows_of game))) }
        ensures later { steps.old ≤ steps.new }
    {
        match Planning::make(alloc, game, steps) {
            Ok(planning) => Ok(Planner {
                alloc,
                planning,
                history: History::make(alloc),
                batch: None,
                quiet: false,
            }),
            Err(fault) => Err(fault),
        }
    }

    /// The game as the edits left it.
    pub fn game(&self) -> &Game
        ensures game { result.now ≡ self.now.state.book.game }
        ensures sound { IsSound result.now }
    {
        self.planning.game()
    }

    /// The start of the line of each node, which no edit changes.
    pub fn line_starts(&self) -> &LineStarts
        ensures { result.now ≡ line_starts self.now.state.book.game }
    {
        self.planning.line_starts()
    }

    /// The tables as the edits left them, in the order in which they were added.
    pub fn tables(&self) -> &[Table]
        ensures tables { result.now ≡ self.now.state.tables }
        ensures sound { AreSoundTables self.now.state.book.game result.now }
    {
        self.planning.tables()
    }

    /// Whether each node is reached, in node order. None just while a batch is open, in which nothing is told.
    ///
    /// # Errors
    ///
    /// `NoMemory` where memory could not be had.
    pub fn reached(&self) -> Result<Option<Vec<bool>>, NoMemory>
        ensures marks { IfOk result (λ told. IfSome told (λ marks. (self.now.batch ≡ None) × (marks.items ≡ reached_marks self.now.state.book))) }
        ensures none { IfOk result (λ told. IfNone told (is_free self.now.batch ≡ false)) }
    {
        if self.is_open() {
            return Ok(None);
        }
        let marks = reached_marks(self.alloc, &self.planning)?;
        Ok(Some(marks))
    }

    /// Every planner grew from a base: it keeps what leads from that base to its state, what leads back, and what can be done again.
    /// So no call has to be told so.
    pub fn grew_from_a_base(&self)
        ensures { (base : State) × IsSessionOf base self.now }
    {
        let _ = &self.history;
    }

    // Does a change as an entry by itself.
    fn do_one<L>(&mut self, change: Change, steps: &mut Steps<L>) -> Result<Reply, NoMemory>
        requires free { self.old.batch ≡ None }
        ensures reply { IfOk result (λ answer. Does self.old change self.new answer) }
        ensures history { (base : State) → IsSessionOf base self.old → IsSessionOf base self.new }
        ensures err { OnErr result (self.new ≡ self.old) }
        ensures work { IfOk result (λ answer. steps.new ≤ steps.old + entry_work (is_refused answer) self.old.state (change ∷ []) self.new.state) }
        ensures later { steps.old ≤ steps.new }
    {
        let edits = one(self.alloc, change)?;
        match self.history.doit(&mut self.planning, edits, steps) {
            Ok(()) => Ok(done_reply(self.quiet)),
            Err(DoFault::Refused(_, refusal)) => {
                Ok(refused(self.planning.game(), refusal, None))
            }
            Err(_) => Err(NoMemory),
        }
    }

    // Takes the last entry that is done back.
    fn undo<L>(&mut self, steps: &mut Steps<L>) -> Result<Reply, NoMemory>
        ensures reply { IfOk result (λ answer. Moves (session_of self.old.kept).done RefusalCode.H1 (undo_of (session_of self.old.kept)) self.old self.new answer) }
        ensures history { (base : State) → IsSessionOf base self.old → IsSessionOf base self.new }
        ensures err { OnErr result (self.new ≡ self.old) }
        ensures work { IfOk result (λ answer. steps.new ≤ steps.old + entry_work (is_refused answer) self.old.state (last_of (session_of self.old.kept).done) self.new.state) }
        ensures later { steps.old ≤ steps.new }
    {
        match self.history.undo(&mut self.planning, steps) {
            Ok(()) => Ok(done_reply(self.quiet)),
            Err(DoFault::NothingToUndo) => Ok(refused_as(RefusalCode::H1)),
            Err(_) => Err(NoMemory),
        }
    }

    // Does the last entry that is undone again.
    fn redo<L>(&mut self, steps: &mut Steps<L>) -> Result<Reply, NoMemory>
        ensures reply { IfOk result (λ answer. Moves (session_of self.old.kept).undone RefusalCode.H2 (redo_of (session_of self.old.kept)) self.old self.new answer) }
        ensures history { (base : State) → IsSessionOf base self.old → IsSessionOf base self.new }
        ensures err { OnErr result (self.new ≡ self.old) }
        ensures work { IfOk result (λ answer. steps.new ≤ steps.old + entry_work (is_refused answer) self.old.state (last_of (session_of self.old.kept).undone) self.new.state) }
        ensures later { steps.old ≤ steps.new }
    {
        match self.history.redo(&mut self.planning, steps) {
            Ok(()) => Ok(done_reply(self.quiet)),
            Err(DoFault::NothingToRedo) => Ok(refused_as(RefusalCode::H2)),
            Err(_) => Err(NoMemory),
        }
    }

    // A line where no batch is open.
    fn step_free<L>(&mut self, command: Command, steps: &mut Steps<L>) -> Result<Reply, NoMemory>
        requires free { self.old.batch ≡ None }
        ensures reply { IfOk result (λ answer. IsFree self.old command self.new answer) }
        ensures history { (base : State) → IsSessionOf base self.old → IsSessionOf base self.new }
        ensures err { OnErr result (self.new ≡ self.old) }
        ensures work { IfOk result (λ answer. steps.new ≤ steps.old + line_work command self.old self.new answer) }
        ensures later { steps.old ≤ steps.new }
    {
        match command {
            Command::Reach(object) => reach_reply(self.alloc, &self.planning, &object),
            Command::Why(object) => why_reply(self.alloc, &self.planning, &object, steps),
            Command::Missing(object) => missing_reply(self.alloc, &self.planning, &object, steps),
            Command::Mask(object) => mask_reply(self.alloc, &self.planning, &object),
            Command::List(kind) => list_reply(self.alloc, &self.planning, kind),
            Command::Milestones => milestones_reply(self.alloc, &self.planning),
            Command::Rate { table, label } => rate_reply(
                self.alloc,
                self.planning.game(),
                self.planning.tables(),
                &table,
                &label,
            ),
            Command::Solve { table, budget } => solve_reply(
                self.alloc,
                self.planning.game(),
                self.planning.tables(),
                &table,
                budget,
            ),
            Command::Quiet(on) => {
                self.quiet = on;
                Ok(Reply::Nothing)
            }
            Command::Undo => self.undo(steps),
            Command::Redo => self.redo(steps),
            Command::Batch => {
                self.batch = Some(Vec::new(self.alloc));
                Ok(done_reply(self.quiet))
            }
            Command::End => Ok(refused_as(RefusalCode::H4)),
            Command::Cancel => Ok(refused_as(RefusalCode::H4)),
            Command::Change(change) => self.do_one(change, steps),
            Command::Summary => Ok(summary_reply(
                &self.planning,
                self.history.done(),
                self.history.undone(),
            )),
        }
    }

    /// Carries a line's command out, and answers its reply.
    ///
    /// A refused line leaves all but a batch that it ends. What a change needs is had before anything changes.
    ///
    /// # Errors
    ///
    /// `NoMemory` where memory could not be had. Then all is as before.
    pub fn step<L>(
        &mut self,
        line: u32,
        command: Command,
        steps: &mut Steps<L>,
    ) -> Result<Reply, NoMemory>
        ensures reply { IfOk result (λ answer. IsStep line self.old command self.new answer) }
        ensures history { (base : State) → IsSessionOf base self.old → IsSessionOf base self.new }
        ensures err { OnErr result (self.new ≡ self.old) }
        ensures work { IfOk result (λ answer. steps.new ≤ steps.old + line_work command self.old self.new answer) }
        ensures later { steps.old ≤ steps.new }
    {
        if self.is_open() {
            self.step_open(line, command, steps)
        } else {
            self.step_free(command, steps)
        }
    }

    /// The linear form of the table of a name, or the reply that tells why it has none.
    pub(crate) fn pose_form(&self, table: &Text) -> Result<Posed, NoMemory>
        ensures posed { IfOk result (IsPosedTable self.now.state.book.game (linear_named self.now.state.book.game self.now.state.tables table.now)) }
        ensures formed { IfOk result IsFormed }
    {
        let game = self.planning.game();
        match linear_named(self.alloc, game, self.planning.tables(), table) {
            Ok(linear) => Ok(Posed::Linear(linear)),
            Err(Denied::Refused(refusal)) => {
                Ok(Posed::Reply(planner_tables::refused(game, refusal, None)))
            }
            Err(Denied::NoMemory) => Err(NoMemory),
        }
    }
}
