//! Lines of a script while a batch is open.

ghost use Rattle.std.specs.Prelude.{◌≡◌, ◌+◌, ◌<◌, ◌≤◌, List, None, Some, false, true, IfOk, OnErr, length, nat_lt};
ghost use Rattle.state_changes.specs.States.{State};
ghost use Rattle.plan_lines.specs.declared.command.Command.TheVariants as CommandLine;
ghost use Rattle.state_changes.specs.Actions.{can_be_held};
ghost use Rattle.planner_core.specs.Lines.{is_free, line_work, Ends, Held as HeldChange, Holds, HoldsChange, IsOpen, IsSessionOf};

use crate::batches::{copies, done_reply, hold_in, line_at, one};
use crate::planner::Planner;
use crate::refusals::{refused, refused_as};
use edit_undo::DoFault;
use plan_base::{NoMemory, Steps};
use plan_lines::{Change, Command, RefusalCode, Reply};
use planning_state::{Undo, can_be_held};

impl Planner {
    /// Whether a batch is open.
    pub(crate) fn is_open(&self) -> bool
        ensures free { result ≡ false → self.now.batch ≡ None }
        ensures open_ { result ≡ true → is_free self.now.batch ≡ false }
    {
        self.batch.is_some()
    }

    // Holds a change in the open batch.
    fn hold(&mut self, line: u32, change: Change) -> Result<Reply, NoMemory>
        ensures reply { IfOk result (λ answer. (held : List HeldChange) → self.old.batch ≡ Some held → HoldsChange line self.old held change (can_be_held change) self.new answer) }
        ensures state { (self.new.state ≡ self.old.state) × (self.new.kept ≡ self.old.kept) }
        ensures err { OnErr result (self.new ≡ self.old) }
    {
        if can_be_held(&change) {
            self.hold_one(line, change)
        } else {
            Ok(refused_as(RefusalCode::H3))
        }
    }

    // Holds a change that can be held in the open batch.
    fn hold_one(&mut self, line: u32, change: Change) -> Result<Reply, NoMemory>
        requires holdable { can_be_held change ≡ true }
        ensures reply { IfOk result (λ answer. (held : List HeldChange) → self.old.batch ≡ Some held → Holds line self.old held change (nat_lt (length held) 1_024) self.new answer) }
        ensures state { (self.new.state ≡ self.old.state) × (self.new.kept ≡ self.old.kept) }
        ensures err { OnErr result (self.new ≡ self.old) }
    {
        let quiet = self.quiet;
        let Some(held) = &mut self.batch else {
            return Err(NoMemory);
        };
        hold_in(held, line, change, quiet)
    }

    // Closes the batch, and does what it holds as one entry.
    fn end<L>(&mut self, steps: &mut Steps<L>) -> Result<Reply, NoMemory>
        ensures reply { IfOk result (λ answer. (held : List HeldChange) → self.old.batch ≡ Some held → Ends self.old held self.new answer) }
        ensures history { (base : State) → IsSessionOf base self.old → IsSessionOf base self.new }
        ensures err { OnErr result (self.new ≡ self.old) }
        ensures work { IfOk result (λ answer. steps.new ≤ steps.old + line_work CommandLine.End self.old self.new answer) }
        ensures later { steps.old ≤ steps.new }
    {
        let Some(held) = &self.batch else {
            return Err(NoMemory);
        };
        let edits = copies(self.alloc, held.as_slice())?;
        if edits.is_empty() {
            self.batch = None;
            return Ok(done_reply(self.quiet));
        }
        match self.history.doit(&mut self.planning, edits, steps) {
            Ok(()) => {
                self.batch = None;
                Ok(done_reply(self.quiet))
            }
            Err(DoFault::Refused(place, refusal)) => {
                let at = line_at(held.as_slice(), place);
                let answer = refused(self.planning.game(), refusal, at);
                self.batch = None;
                Ok(answer)
            }
            Err(_) => Err(NoMemory),
        }
    }

    // A line where a batch is open.
    pub(crate) fn step_open<L>(
        &mut self,
        line: u32,
        command: Command,
        steps: &mut Steps<L>,
    ) -> Result<Reply, NoMemory>
        requires { is_free self.old.batch ≡ false }
        ensures reply { IfOk result (λ answer. (held : List HeldChange) → self.old.batch ≡ Some held → IsOpen line self.old held command self.new answer) }
        ensures history { (base : State) → IsSessionOf base self.old → IsSessionOf base self.new }
        ensures err { OnErr result (self.new ≡ self.old) }
        ensures work { IfOk result (λ answer. steps.new ≤ steps.old + line_work command self.old self.new answer) }
        ensures later { steps.old ≤ steps.new }
    {
        match command {
            Command::Quiet(on) => {
                self.quiet = on;
                Ok(Reply::Nothing)
            }
            Command::End => self.end(steps),
            Command::Cancel => {
                self.batch = None;
                Ok(done_reply(self.quiet))
            }
            Command::Change(change) => self.hold(line, change),
            Command::Reach(_) => Ok(refused_as(RefusalCode::H3)),
            Command::Why(_) => Ok(refused_as(RefusalCode::H3)),
            Command::Missing(_) => Ok(refused_as(RefusalCode::H3)),
            Command::Mask(_) => Ok(refused_as(RefusalCode::H3)),
            Command::List(_) => Ok(refused_as(RefusalCode::H3)),
            Command::Milestones => Ok(refused_as(RefusalCode::H3)),
            Command::Summary => Ok(refused_as(RefusalCode::H3)),
            Command::Rate { .. } => Ok(refused_as(RefusalCode::H3)),
            Command::Solve { .. } => Ok(refused_as(RefusalCode::H3)),
            Command::Undo => Ok(refused_as(RefusalCode::H3)),
            Command::Redo => Ok(refused_as(RefusalCode::H3)),
            Command::Batch => Ok(refused_as(RefusalCode::H3)),
        }
    }
}
