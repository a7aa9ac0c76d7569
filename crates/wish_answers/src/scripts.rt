//! A script with the lines of a wish behind its own.
ghost use Rattle.std.specs.Prelude.{◌≡◌, ℕ, List, None, OnOk, IfOk, length, string_bytes};
ghost use Rattle.state_changes.specs.States.{State};
ghost use Rattle.planner_core.specs.Lines.{IsSessionOf};
ghost use Rattle.plan_io.specs.Lines.{lines_of};
ghost use Rattle.script_runner.specs.Leading.{Continues, LeadsToPlan, ends_within, joined};
ghost use Rattle.script_runner.specs.declared.stepping.Progress.{Progress};
ghost use Rattle.wish_answers.specs.Meeting.{MeetsWishBehind};

use crate::answers::{answered_lines, has_too_many};
use crate::failures::Failure;
use crate::finding::Given;
use plan_base::{NoMemory, Steps};
use planner_core::Planner;
use script_runner::{Progress, step_lines};
use std::alloc::Global;
use wish_words::WishRequest;

// No line was answered yet.
const START: Progress = Progress {
    count: 0,
    planned: false,
};

// Carries the lines of a script out. A refused one is said.
fn carry_script<L>(
    alloc: Global,
    planner: &mut Planner,
    script: &[u8],
    said: &mut String,
    steps: &mut Steps<L>,
) -> Result<Progress, Failure>
    ensures continues { IfOk result (λ done. Continues planner.old script.now START planner.new done) }
    ensures counted { IfOk result (λ done. done.count ≡ length (lines_of script.now)) }
    ensures history { (base : State) → IsSessionOf base planner.old → IsSessionOf base planner.new }
{
    if has_too_many(START, script) {
        return Err(Failure::TooLong);
    }
    match step_lines(alloc, planner, script, START, "script", said, steps)? {
        Some(done) => Ok(done),
        None => Err(Failure::Refused),
    }
}

// Whether a text ends within a line.
#[tactic(auto, using(script_runner::proofs::JoinedLemmas::ends_within_last))]
fn ends_within(text: &[u8]) -> bool
    ensures { result ≡ ends_within text.now }
{
    match text.last() {
        Some(last) => *last != b'\n',
        None => false,
    }
}

// Puts lines behind a script.
fn join(script: &mut Vec<u8>, lines: &str) -> Result<(), NoMemory>
    ensures { OnOk result (script.new.items ≡ joined script.old.items lines.now) }
{
    if ends_within(script.as_slice()) {
        script.push(b'\n')?;
    }
    script.extend_from_slice(lines.as_bytes())?;
    Ok(())
}

/// Puts the lines for the wish that the words ask for behind a script, whose own lines come first, on lines of their own. All are carried out: none is refused,
/// and the last is answered by a plan. A new table meets the wish of the words, each good that they name at its rate, by what is reached behind the script's own lines. A good without a rate is wished for at the rate of a belt. The words of a command stand in the
/// comments before those that ask for more rows.
///
/// # Errors
///
/// Why there are none. What is to be said of it is written to `said`. Some lines may have been carried out then.
pub fn whole_script<L>(
    alloc: Global,
    planner: &mut Planner,
    script: &mut Vec<u8>,
    asked: &WishRequest<'_>,
    given: &Given<'_>,
    command: &str,
    said: &mut String,
    steps: &mut Steps<L>,
) -> Result<(), Failure>
    ensures leads { OnOk result (LeadsToPlan planner.old script.new.items planner.new) }
    ensures keeps { OnOk result ((lines : List ℕ) × (script.new.items ≡ joined script.old.items lines)) }
    ensures met { OnOk result (asked.now.more ≡ None → MeetsWishBehind planner.old script.old.items planner.new given.now asked.now) }
    ensures history { (base : State) → IsSessionOf base planner.old → IsSessionOf base planner.new }
{
    let before = carry_script(alloc, planner, script.as_slice(), said, steps)?;
    let answer = answered_lines(alloc, planner, before, asked, given, command, said, steps)?;
    join(script, answer.lines.as_str())?;
    Ok(())
}
