//! The answer to one line.
ghost use Rattle.std.specs.Prelude.{◌≡◌, ◌≤◌, ◌+◌, IfOk};
ghost use Rattle.game_types.specs.Sound.{IsSound};
ghost use Rattle.plan_report.specs.LineStarts.{line_starts};
ghost use Rattle.plan_report.specs.Replies.{printed_reply};
ghost use Rattle.state_changes.specs.States.{State};
ghost use Rattle.planner_core.specs.Lines.{IsSessionOf};
ghost use Rattle.script_runner.specs.Answers.{is_refusal_reply, solved_in, AnswersLine};

use crate::listening::Listener;
use crate::reading::reading_of;
use crate::reply::{is_refusal, reply_to};
use game_types::Game;
use linear_table::SolveAnswer;
use plan_base::{NoMemory, Steps, Text};
use plan_io::Line;
use plan_lines::Reply;
use plan_report::{LineStarts, print_reply_by};
use planner_core::Planner;
use std::alloc::Global;

/// What a line was answered.
#[derive(Drop)]
pub struct Told {
    /// The reply as it is printed.
    pub text: Text,
    /// Whether it is a refusal.
    pub refused: bool,
    /// What the solver answered, where the reply tells it.
    pub solved: Option<SolveAnswer>,
}

// What the solver answered, where the reply tells it.
fn solved_in(reply: Reply) -> Option<SolveAnswer>
    ensures { result ≡ solved_in reply }
{
    match reply {
        Reply::Solved { answer, .. } => Some(answer),
        _ => None,
    }
}

// A reply as it is told.
fn told_as(
    alloc: Global,
    number: u32,
    reply: Reply,
    game: &Game,
    starts: &LineStarts,
) -> Result<Told, NoMemory>
    requires game { IsSound game.now }
    requires starts { starts.now ≡ line_starts game.now }
    ensures { IfOk result (λ told. (told.text ≡ printed_reply game.now number reply) × (told.refused ≡ is_refusal_reply reply) × (told.solved ≡ solved_in reply)) }
{
    let printed = print_reply_by(alloc, number, &reply, game, starts);
    let refused = is_refusal(&reply);
    let solved = solved_in(reply);
    match printed {
        Ok(text) => Ok(Told {
            text,
            refused,
            solved,
        }),
        Err(NoMemory) => Err(NoMemory),
    }
}

/// Answers the line of a script with this number, of which the listener hears.
///
/// # Errors
///
/// `NoMemory` where memory could not be had. The line may have been carried out then.
pub fn answer_line<W: Listener, L>(
    alloc: Global,
    planner: &mut Planner,
    script: &[u8],
    number: u32,
    line: &[u8],
    listener: &mut W,
    steps: &mut Steps<L>,
) -> Result<Told, NoMemory>
    ensures answer { IfOk result (λ answer. AnswersLine number line.now planner.old planner.new answer.text answer.refused answer.solved steps.old steps.new) }
    ensures history { (base : State) → IsSessionOf base planner.old → IsSessionOf base planner.new }
    ensures later { steps.old ≤ steps.new }
{
    let reading = reading_of(alloc, line)?;
    let reply = reply_to(planner, number, reading, steps)?;
    let heard = Line {
        number,
        bytes: line,
    };
    listener.hears(planner, script, heard, &reply);
    told_as(alloc, number, reply, planner.game(), planner.line_starts())
}
