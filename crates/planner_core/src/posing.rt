//! Lines that are answered with nothing solved.
ghost use Rattle.std.specs.Prelude.{◌≡◌, ◌+◌, ◌≤◌, IfOk, OnErr};
ghost use Rattle.plan_lines.specs.declared.reply.Reply.{Reply as ReplyTo};
ghost use Rattle.state_changes.specs.States.{State};
ghost use Rattle.planner_core.specs.Lines.{IsSessionOf, IsStep};
ghost use Rattle.planner_core.specs.Posing.{IsFormed, IsPosed, posed_work};
ghost use Rattle.planner_core.specs.declared.posing.Posed.TheVariants.{Reply as PosedReply};

use crate::Planner;
use linear_table::Linear;
use plan_base::{NoMemory, Steps};
use plan_lines::{Command, Reply};

/// What a line is answered where nothing is solved.
#[derive(Drop)]
pub enum Posed {
    /// The reply.
    Reply(Reply),
    /// The linear form that the solver would settle.
    Linear(Linear),
}

impl Planner {
    /// Carries out a line as `step` does, but has the solver settle nothing: a line that would is answered by its linear form.
    ///
    /// # Errors
    ///
    /// `NoMemory` where memory could not be had, and then the planner is as before.
    pub fn pose<L>(
        &mut self,
        line: u32,
        command: Command,
        steps: &mut Steps<L>,
    ) -> Result<Posed, NoMemory>
        ensures posed { IfOk result (λ said. IsPosed line self.old command self.new said) }
        ensures formed { IfOk result IsFormed }
        ensures history { (base : State) → IsSessionOf base self.old → IsSessionOf base self.new }
        ensures err { OnErr result (self.new ≡ self.old) }
        ensures work { IfOk result (λ said. steps.new ≤ steps.old + posed_work command self.old self.new said) }
        ensures later { steps.old ≤ steps.new }
    {
        if self.is_open() {
            return self.pose_reply(line, command, steps);
        }
        match command {
            Command::Solve { table, budget: _ } => self.pose_form(&table),
            other => self.pose_reply(line, other, steps),
        }
    }

    // The reply to a line.
    fn pose_reply<L>(
        &mut self,
        line: u32,
        command: Command,
        steps: &mut Steps<L>,
    ) -> Result<Posed, NoMemory>
        ensures posed { IfOk result (λ said. (answer : ReplyTo) × (said ≡ PosedReply answer) × IsStep line self.old command self.new answer) }
        ensures formed { IfOk result IsFormed }
        ensures history { (base : State) → IsSessionOf base self.old → IsSessionOf base self.new }
        ensures err { OnErr result (self.new ≡ self.old) }
        ensures work { IfOk result (λ said. steps.new ≤ steps.old + posed_work command self.old self.new said) }
        ensures later { steps.old ≤ steps.new }
    {
        let reply = self.step(line, command, steps)?;
        Ok(Posed::Reply(reply))
    }
}
