//! The lines of a script.
ghost use Rattle.std.specs.Prelude.{◌≡◌, ◌≤◌, IfOk};
ghost use Rattle.game_types.specs.Sound.{IsSound};
ghost use Rattle.plan_report.specs.LineStarts.{line_starts};
ghost use Rattle.plan_report.specs.Replies.{printed_reply};
ghost use Rattle.state_changes.specs.States.{State};
ghost use Rattle.planner_core.specs.Lines.{IsSessionOf};
ghost use Rattle.script_runner.specs.Answers.{is_refusal_reply, IsReply};
ghost use Rattle.session_lines.specs.Told.{IsToldAs};

use crate::forced::{Deed, deed_of};
use game_types::Game;
use plan_base::{NoMemory, Steps, Text};
use plan_lines::Reply;
use plan_report::{LineStarts, print_reply_by};
use planner_core::Planner;
use script_runner::{is_refusal, reading_of, reply_to};
use std::alloc::Global;

/// What a line of a script was answered.
#[derive(Drop)]
pub struct Told {
    /// The reply as it is printed.
    pub text: Text,
    /// Whether it is a refusal.
    pub refused: bool,
    /// What the line does where it isn't refused.
    pub deed: Deed,
}

// A reply as it is told.
fn told_as(
    alloc: Global,
    number: u32,
    reply: Reply,
    deed: Deed,
    game: &Game,
    starts: &LineStarts,
) -> Result<Told, NoMemory>
    requires game { IsSound game.now }
    requires starts { starts.now ≡ line_starts game.now }
    ensures { IfOk result (λ told. (told.text ≡ printed_reply game.now number reply) × (told.refused ≡ is_refusal_reply reply)) }
{
    let printed = print_reply_by(alloc, number, &reply, game, starts);
    let refused = is_refusal(&reply);
    match printed {
        Ok(text) => Ok(Told {
            text,
            refused,
            deed,
        }),
        Err(NoMemory) => Err(NoMemory),
    }
}

/// Answers the line of a script with this number, as a run of the script does.
///
/// # Errors
///
/// `NoMemory` where memory could not be had. The line may have been carried out then.
pub fn answer_script<L>(
    alloc: Global,
    planner: &mut Planner,
    number: u32,
    line: &[u8],
    steps: &mut Steps<L>,
) -> Result<Told, NoMemory>
    ensures answer { IfOk result (λ told. IsToldAs number line.now planner.old planner.new told.text told.refused) }
    ensures history { (base : State) → IsSessionOf base planner.old → IsSessionOf base planner.new }
{
    let reading = reading_of(alloc, line)?;
    let deed = deed_of(&reading);
    let reply = reply_to(planner, number, reading, steps)?;
    told_as(
        alloc,
        number,
        reply,
        deed,
        planner.game(),
        planner.line_starts(),
    )
}
