//! The reply to one line.
ghost use Rattle.std.specs.Prelude.{◌≡◌, ◌≤◌, ◌+◌, IfOk};
ghost use Rattle.state_changes.specs.States.{State};
ghost use Rattle.planner_core.specs.Lines.{IsSessionOf};
ghost use Rattle.script_runner.specs.Answers.{gives_up, is_refusal_reply, reading_work, IsReply};

use crate::reading::{Reading, refused_for};
use linear_table::SolveAnswer;
use plan_base::{NoMemory, Steps};
use plan_lines::Reply;
use planner_core::Planner;

/// Carries out what a line is read as.
///
/// # Errors
///
/// `NoMemory` where memory could not be had. Then all is as before.
pub fn reply_to<L>(
    planner: &mut Planner,
    number: u32,
    reading: Reading,
    steps: &mut Steps<L>,
) -> Result<Reply, NoMemory>
    ensures reply { IfOk result (λ answer. IsReply number planner.old reading planner.new answer) }
    ensures history { (base : State) → IsSessionOf base planner.old → IsSessionOf base planner.new }
    ensures work { IfOk result (λ answer. steps.new ≤ steps.old + reading_work reading planner.old planner.new answer) }
    ensures later { steps.old ≤ steps.new }
{
    match reading {
        Ok(Some(command)) => planner.step(number, command, steps),
        Ok(None) => Ok(Reply::Nothing),
        Err(fault) => Ok(refused_for(fault)),
    }
}

fn gives_up(answer: &SolveAnswer) -> bool
    ensures { result ≡ gives_up answer.now }
{
    match answer {
        SolveAnswer::TooWide { .. } => true,
        SolveAnswer::OutOfBudget { .. } => true,
        _ => false,
    }
}

/// Whether a reply is a refusal, also by the solver.
pub fn is_refusal(reply: &Reply) -> bool
    ensures { result ≡ is_refusal_reply reply.now }
{
    match reply {
        Reply::Refused { .. } => true,
        Reply::Solved { answer, .. } => gives_up(answer),
        _ => false,
    }
}
