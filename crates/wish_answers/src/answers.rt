//! The lines that meet a wish, carried out before they are told.
ghost use Rattle.std.specs.Prelude.{◌≡◌, ◌≤◌, ◌+◌, true, false, IfOk, None, OnOk, length, string_bytes};
ghost use Rattle.state_changes.specs.States.{State};
ghost use Rattle.planner_core.specs.Lines.{IsSessionOf};
ghost use Rattle.plan_io.specs.Lines.{lines_of};
ghost use Rattle.planner_core.specs.Replies.{reached_marks};
ghost use Rattle.script_runner.specs.Leading.{Continues};
ghost use Rattle.wish_words.specs.Named.{IsWishOf};
ghost use Rattle.wish_answers.specs.Meeting.{HasMet, MeetsWish};

use crate::failures::Failure;
use crate::finding::{Found, Given, found_lines};
use crate::standing::check_standing;
use plan_base::Steps;
use plan_io::{LINE_LIMIT, line_count};
use planner_core::Planner;
use script_runner::{Progress, step_lines};
use std::alloc::Global;
use wish_setups::{Met, Wish};
use wish_words::WishRequest;

/// The lines that meet a wish, and how far the planner has come behind them.
#[derive(Drop)]
pub struct Answer {
    pub lines: String,
    pub done: Progress,
}

/// Whether a script would have too many lines with these behind those that were before.
pub fn has_too_many(before: Progress, lines: &[u8]) -> bool
    ensures { result ≡ false → before.count + length (lines_of lines.now) ≤ 100_000 }
{
    let room = LINE_LIMIT.saturating_sub(before.count as usize);
    before.count as usize > LINE_LIMIT || line_count(lines) > room
}

/// Whether a planner reaches each node, in node order.
///
/// # Errors
///
/// `Refused` where a batch is open, which is said, or `NoMemory`.
pub fn reached_in(planner: &Planner, said: &mut String) -> Result<Vec<bool>, Failure>
    ensures { IfOk result (λ marks. marks.items ≡ reached_marks planner.now.state.book) }
{
    match planner.reached()? {
        Some(marks) => Ok(marks),
        None => {
            said.push_str("a batch is open behind the script")?;
            Err(Failure::Refused)
        }
    }
}

// The lines for a wish, as they are found in the state of a planner.
fn found_in(
    alloc: Global,
    planner: &Planner,
    reached: &[bool],
    asked: &WishRequest<'_>,
    given: &Given<'_>,
    command: &str,
    said: &mut String,
) -> Result<Found, Failure>
    ensures asked { IfOk result (λ found. IsWishOf planner.now.state.book.game given.now.belt asked.now found.wish) }
    ensures hidden { IfOk result (λ found. found.wish.hidden ≡ given.now.hidden.now) }
{
    found_lines(
        alloc,
        planner.game(),
        reached,
        planner.tables(),
        asked,
        given,
        command,
        said,
    )
}

// Whether the new table that was asked for meets the wish, where more rows were not.
fn check_found(
    alloc: Global,
    planner: &Planner,
    reached: &[bool],
    asked: &WishRequest<'_>,
    wish: &Wish,
    met: &mut Met,
    said: &mut String,
) -> Result<(), Failure>
    ensures { OnOk result (asked.now.more ≡ None → HasMet planner.now reached.now asked.now.table.now wish.now) }
{
    if asked.more.is_some() {
        return Ok(());
    }
    let checked = check_standing(alloc, planner, reached, asked.table, wish, met);
    if let Err(Failure::Unmet) = checked {
        said.push_str("the table that the lines make doesn't meet the wish")?;
    }
    checked
}

// Carries the lines out behind those that were before.
fn carry_out<L>(
    alloc: Global,
    planner: &mut Planner,
    lines: &str,
    before: Progress,
    said: &mut String,
    steps: &mut Steps<L>,
) -> Result<Progress, Failure>
    ensures continues { IfOk result (λ done. Continues planner.old lines.now before planner.new done) }
    ensures planned { IfOk result (λ done. done.planned ≡ true) }
    ensures few { IfOk result (λ done. done.count ≤ 100_000) }
    ensures counted { IfOk result (λ done. done.count ≡ before.count + length (lines_of lines.now)) }
    ensures history { (base : State) → IsSessionOf base planner.old → IsSessionOf base planner.new }
{
    let lines = lines.as_bytes();
    if has_too_many(before, lines) {
        return Err(Failure::TooLong);
    }
    let Some(done) = step_lines(alloc, planner, lines, before, "output", said, steps)? else {
        return Err(Failure::Refused);
    };
    if done.planned {
        Ok(done)
    } else {
        said.push_str("the table has no plan behind its lines")?;
        Err(Failure::Unmet)
    }
}

/// The lines for the wish that the words ask for, which are carried out behind those that were before: none is refused, and the last is
/// answered by a plan. A good without a rate is wished for at the rate of a belt. The words of a command stand in the comments before those
/// that ask for more rows.
///
/// # Errors
///
/// Why there are none. What is to be said of it is written to `said`. Some lines may have been carried out then.
pub fn answered_lines<L>(
    alloc: Global,
    planner: &mut Planner,
    before: Progress,
    asked: &WishRequest<'_>,
    given: &Given<'_>,
    command: &str,
    said: &mut String,
    steps: &mut Steps<L>,
) -> Result<Answer, Failure>
    ensures continues { IfOk result (λ answer. Continues planner.old (string_bytes answer.lines) before planner.new answer.done) }
    ensures planned { IfOk result (λ answer. answer.done.planned ≡ true) }
    ensures few { IfOk result (λ answer. answer.done.count ≤ 100_000) }
    ensures counted { IfOk result (λ answer. answer.done.count ≡ before.count + length (lines_of (string_bytes answer.lines))) }
    ensures met { IfOk result (λ answer. asked.now.more ≡ None → MeetsWish planner.old planner.new given.now asked.now) }
    ensures history { (base : State) → IsSessionOf base planner.old → IsSessionOf base planner.new }
{
    let reached = reached_in(planner, said)?;
    let found = found_in(
        alloc,
        planner,
        reached.as_slice(),
        asked,
        given,
        command,
        said,
    )?;
    let Found {
        text,
        wish,
        mut met,
    } = found;
    let done = carry_out(alloc, planner, text.as_str(), before, said, steps)?;
    check_found(
        alloc,
        planner,
        reached.as_slice(),
        asked,
        &wish,
        &mut met,
        said,
    )?;
    Ok(Answer { lines: text, done })
}
