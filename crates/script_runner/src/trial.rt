//! One line, judged by claims.
ghost use Rattle.std.specs.Prelude.{◌≡◌, ◌≤◌, ◌+◌, IfOk, None, Some};
ghost use Rattle.state_changes.specs.States.{State};
ghost use Rattle.planner_core.specs.Lines.{IsSessionOf};
ghost use Rattle.planner_core.specs.Posing.{IsFormed};
ghost use Rattle.game_types.specs.declared.games.Game.{Game};
ghost use Rattle.linear_table.specs.Plans.{IsWellFormed};
ghost use Rattle.planner_core.specs.declared.posing.Posed.TheVariants.{Linear as Form, Reply as Replied};
ghost use Rattle.script_runner.specs.Answers.{Reading as Read};
ghost use Rattle.script_runner.specs.TrialLines.{IsNote, IsNoted, JudgesLine};
ghost use Rattle.script_runner.specs.Verdicts.{claim_at, IsVerdict};
ghost use Rattle.script_runner.specs.declared.verdict.Verdict.{Verdict};
ghost use Rattle.script_runner.specs.Trials.{IsSaid, said_work, table_asked};

use crate::listening::Listener;
use crate::reading::{Reading, reading_of, refused_for};
use crate::reply::is_refusal;
use crate::{is_proved, verdict_line, verdict_on};
use certificate_file::CertEntry;
use linear_table::Linear;
use plan_base::{NoMemory, Steps, Text};
use plan_io::Line;
use plan_lines::{Command, Reply};
use plan_report::print_reply;
use planner_core::{Planner, Posed};
use std::alloc::Global;

/// What a line comes to.
#[derive(Drop)]
pub struct Note {
    /// What is written for it.
    pub text: Text,
    /// Whether it is refused.
    pub refused: bool,
    /// Whether it poses a linear form.
    pub form: bool,
    /// Whether what is claimed of the form is proved.
    pub proved: bool,
}

// The name of the table that a `solve` line names.
fn table_asked(alloc: Global, reading: &Reading) -> Result<Text, NoMemory>
    ensures { IfOk result (λ name. name ≡ table_asked reading.now) }
{
    match reading {
        Ok(Some(Command::Solve { table, budget: _ })) => Text::copy(alloc, table.as_str()),
        _ => Text::copy(alloc, ""),
    }
}

/// Carries out what a line is read as, with nothing solved.
///
/// # Errors
///
/// `NoMemory` where memory could not be had. Then all is as before.
fn pose<L>(
    planner: &mut Planner,
    number: u32,
    reading: Reading,
    steps: &mut Steps<L>,
) -> Result<Posed, NoMemory>
    ensures said { IfOk result (λ said. IsSaid number planner.old reading planner.new said) }
    ensures formed { IfOk result IsFormed }
    ensures history { (base : State) → IsSessionOf base planner.old → IsSessionOf base planner.new }
    ensures work { IfOk result (λ said. steps.new ≤ steps.old + said_work reading planner.old planner.new said) }
    ensures later { steps.old ≤ steps.new }
{
    match reading {
        Ok(Some(command)) => planner.pose(number, command, steps),
        Ok(None) => Ok(Posed::Reply(Reply::Nothing)),
        Err(fault) => Ok(Posed::Reply(refused_for(fault))),
    }
}

// The note of a reply, which is printed where it is a refusal.
fn reply_note(
    alloc: Global,
    planner: &Planner,
    number: u32,
    reply: &Reply,
) -> Result<Note, NoMemory>
    ensures { IfOk result (λ note. (reading : Read) → IsNote number planner.now.state.book.game reading (Replied reply.now) None note) }
{
    let refused = is_refusal(reply);
    if refused {
        let text = print_reply(alloc, number, reply, planner.game())?;
        Ok(Note {
            text,
            refused: true,
            form: false,
            proved: false,
        })
    } else {
        let text = Text::copy(alloc, "")?;
        Ok(Note {
            text,
            refused: false,
            form: false,
            proved: false,
        })
    }
}

// The note of a linear form: the verdict on what is claimed of it.
fn form_note(
    alloc: Global,
    entries: &[CertEntry],
    number: u32,
    table: &Text,
    linear: &Linear,
) -> Result<Note, NoMemory>
    requires { IsWellFormed linear.now }
    ensures { IfOk result (λ note. (verdict : Verdict) × IsVerdict linear.now (claim_at entries.now number) verdict
        × ((g : Game) (reading : Read) → table_asked reading ≡ table.now → IsNote number g reading (Form linear.now) (Some verdict) note)) }
{
    let verdict = verdict_on(linear, entries, number);
    let text = verdict_line(alloc, number, verdict, table)?;
    Ok(Note {
        text,
        refused: false,
        form: true,
        proved: is_proved(verdict),
    })
}

// The note of what is said.
fn note_of(
    alloc: Global,
    planner: &Planner,
    entries: &[CertEntry],
    number: u32,
    table: &Text,
    said: &Posed,
) -> Result<Note, NoMemory>
    requires { IsFormed said.now }
    ensures { IfOk result (IsNoted (claim_at entries.now number) number planner.now.state.book.game table.now said.now) }
{
    match said {
        Posed::Reply(reply) => reply_note(alloc, planner, number, reply),
        Posed::Linear(linear) => form_note(alloc, entries, number, table, linear),
    }
}

// Lets the listener hear of a reply; of a form that is posed there is none.
fn let_hear<W: Listener>(
    listener: &mut W,
    planner: &Planner,
    script: &[u8],
    number: u32,
    line: &[u8],
    said: &Posed,
) {
    if let Posed::Reply(reply) = said {
        let heard = Line {
            number,
            bytes: line,
        };
        listener.hears(planner, script, heard, reply);
    }
}

/// Judges the line of a script with this number, of which the listener hears.
///
/// # Errors
///
/// `NoMemory` where memory could not be had. The line may have been carried out then.
pub fn judge_line<W: Listener, L>(
    alloc: Global,
    planner: &mut Planner,
    script: &[u8],
    entries: &[CertEntry],
    number: u32,
    line: &[u8],
    listener: &mut W,
    steps: &mut Steps<L>,
) -> Result<Note, NoMemory>
    ensures note { IfOk result (λ note. JudgesLine entries.now number line.now planner.old planner.new note steps.old steps.new) }
    ensures history { (base : State) → IsSessionOf base planner.old → IsSessionOf base planner.new }
    ensures later { steps.old ≤ steps.new }
{
    let reading = reading_of(alloc, line)?;
    let table = table_asked(alloc, &reading)?;
    let said = pose(planner, number, reading, steps)?;
    let_hear(listener, planner, script, number, line, &said);
    note_of(alloc, planner, entries, number, &table, &said)
}
