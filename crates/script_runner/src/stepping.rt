//! Lines that a planner carries out.
ghost use Rattle.std.specs.Prelude.{◌≡◌, ◌≤◌, ◌+◌, IfOk, IfSome, length};
ghost use Rattle.game_types.specs.Sound.{IsSound};
ghost use Rattle.state_changes.specs.States.{State};
ghost use Rattle.planner_core.specs.Lines.{IsSessionOf};
ghost use Rattle.plan_io.specs.Lines.{lines_of};
ghost use Rattle.script_runner.specs.Answers.{is_refusal_reply, solved_in};
ghost use Rattle.script_runner.specs.Leading.{is_plan, AnswersSo, Continues, TellsReply};

use crate::reading::reading_of;
use crate::reply::{is_refusal, reply_to};
use game_types::Game;
use linear_table::SolveAnswer;
use plan_base::{NoMemory, Steps};
use plan_io::Lines;
use plan_lines::Reply;
use plan_report::print_reply;
use planner_core::Planner;
use std::alloc::Global;

/// How far a planner has come with the lines of a script: how many it has answered, and whether the last was answered by a plan.
#[derive(Clone, Copy, Debug, PartialEq, Eq)]
pub struct Progress {
    pub count: u32,
    pub planned: bool,
}

// What is seen of a reply: whether it is a refusal, and whether it tells a plan.
#[derive(Clone, Copy)]
struct Seen {
    refused: bool,
    planned: bool,
}

// Whether a reply tells a plan.
fn is_plan(reply: &Reply) -> bool
    ensures { result ≡ is_plan (solved_in reply.now) }
{
    match reply {
        Reply::Solved { answer, .. } => match answer {
            SolveAnswer::Planned(_) => true,
            _ => false,
        },
        _ => false,
    }
}

// A reply without the number of its line.
fn without_number(reply: &str) -> &str {
    match reply.split_once(' ') {
        Some((_, rest)) => rest,
        None => reply,
    }
}

// The first line of a text.
fn first_line(text: &str) -> &str {
    match text.split_once('\n') {
        Some((line, _)) => line,
        None => text,
    }
}

// Says that a line is refused, and how.
fn say_refused(
    alloc: Global,
    game: &Game,
    number: u32,
    what: &str,
    reply: &Reply,
    said: &mut String,
) -> Result<(), NoMemory>
    requires { IsSound game.now }
{
    let text = print_reply(alloc, number, reply, game)?;
    let why = without_number(first_line(text.as_str()));
    write!(said, "line {number} of the {what} is {why}")?;
    Ok(())
}

// Carries a line out.
fn reply_of<L>(
    alloc: Global,
    planner: &mut Planner,
    number: u32,
    line: &[u8],
    steps: &mut Steps<L>,
) -> Result<Reply, NoMemory>
    ensures answered { IfOk result (λ reply. TellsReply number line.now planner.old planner.new reply) }
    ensures history { (base : State) → IsSessionOf base planner.old → IsSessionOf base planner.new }
{
    let reading = reading_of(alloc, line)?;
    reply_to(planner, number, reading, steps)
}

// Carries a line out. A refusal is said.
fn seen_line<L>(
    alloc: Global,
    planner: &mut Planner,
    number: u32,
    line: &[u8],
    what: &str,
    said: &mut String,
    steps: &mut Steps<L>,
) -> Result<Seen, NoMemory>
    ensures answered { IfOk result (λ seen. AnswersSo number line.now planner.old planner.new seen.refused seen.planned) }
    ensures history { (base : State) → IsSessionOf base planner.old → IsSessionOf base planner.new }
{
    let reply = reply_of(alloc, planner, number, line, steps)?;
    let refused = is_refusal(&reply);
    let planned = is_plan(&reply);
    if refused {
        say_refused(alloc, planner.game(), number, what, &reply, said)?;
    }
    Ok(Seen { refused, planned })
}

/// Carries lines out behind those that were before, and answers how far it has come then. None where a line is refused, which is said; what
/// the lines are is named in that.
///
/// # Errors
///
/// `NoMemory` where memory could not be had.
pub fn step_lines<L>(
    alloc: Global,
    planner: &mut Planner,
    lines: &[u8],
    before: Progress,
    what: &str,
    said: &mut String,
    steps: &mut Steps<L>,
) -> Result<Option<Progress>, NoMemory>
    requires few { before.count + length (lines_of lines.now) ≤ 100_000 }
    ensures continues { IfOk result (λ stepped. IfSome stepped (λ done. Continues planner.old lines.now before planner.new done)) }
    ensures counted { IfOk result (λ stepped. IfSome stepped (λ done. done.count ≡ before.count + length (lines_of lines.now))) }
    ensures history { (base : State) → IsSessionOf base planner.old → IsSessionOf base planner.new }
{
    let mut left = Lines::behind(before.count, lines);
    let mut done = before;
    while let Some(line) = left.next() {
        let seen = seen_line(alloc, planner, line.number, line.bytes, what, said, steps)?;
        if seen.refused {
            return Ok(None);
        }
        done = Progress {
            count: line.number,
            planned: seen.planned,
        };
    }
    Ok(Some(done))
}
