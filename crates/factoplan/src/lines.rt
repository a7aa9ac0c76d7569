//! What is said of a line and its reply.
use crate::room::Telling;
use fractions::Ratio;
use hint_causes::{Found, Line, found_of, short_of};
use linear_table::SolveAnswer;
use plan_base::{NoMemory, Text};
use plan_io::{Lines, has_many_lines};
use plan_lines::{Detail, RefusalCode, Reply};
use planner_core::Planner;
use planner_tables::linear_named;
use program_runs::{refused_hint, short_hint};
use std::alloc::Global;

// A line, and the script that has it.
#[derive(Clone, Copy)]
struct Told<'a> {
    script: &'a str,
    line: Line<'a>,
}

// Says why a line is refused.
fn tell_found(
    alloc: Global,
    script: &str,
    number: u32,
    found: &Found,
    telling: &mut Telling,
) -> Result<(), NoMemory> {
    let like = found.like.as_ref().map(|word| word.as_str());
    let text = refused_hint(
        alloc,
        Some(script),
        number,
        found.column,
        &found.cause,
        like,
    )?;
    telling.tell(&text)
}

// The line of a number.
fn line_at(script: &[u8], number: u32) -> &[u8] {
    if has_many_lines(script) {
        return &[];
    }
    let mut lines = Lines::behind(0, script);
    while let Some(line) = lines.next() {
        if line.number >= number {
            return line.bytes;
        }
    }
    &[]
}

// Says why a line is refused.
fn tell_refused(
    alloc: Global,
    planner: &Planner,
    told: &Told<'_>,
    code: RefusalCode,
    detail: &Detail,
    telling: &mut Telling,
) -> Result<(), NoMemory> {
    let line = told.line;
    let found = found_of(alloc, planner.game(), planner.tables(), &line, code, detail)?;
    tell_found(alloc, told.script, line.number, &found, telling)
}

// Says which good a table without a plan is short of.
fn tell_short(
    alloc: Global,
    planner: &Planner,
    told: &Told<'_>,
    table: &Text,
    prices: &[Ratio],
    telling: &mut Telling,
) -> Result<(), NoMemory> {
    let game = planner.game();
    let Ok(linear) = linear_named(alloc, game, planner.tables(), table) else {
        return Err(NoMemory);
    };
    let Some(short) = short_of(alloc, game, &linear, prices)? else {
        return Ok(());
    };
    let name = Some(told.script);
    let text = short_hint(alloc, name, told.line.number, table.as_str(), &short)?;
    telling.tell(&text)
}

// Says that the solver gave a table up.
fn tell_given_up(
    alloc: Global,
    planner: &Planner,
    told: &Told<'_>,
    table: &Text,
    code: RefusalCode,
    telling: &mut Telling,
) -> Result<(), NoMemory> {
    let name = Text::copy(alloc, table.as_str())?;
    let detail = Detail::Word { kind: None, name };
    tell_refused(alloc, planner, told, code, &detail, telling)
}

// Says what is to be said of what the solver answered of a table.
fn tell_answer(
    alloc: Global,
    planner: &Planner,
    told: &Told<'_>,
    table: &Text,
    answer: &SolveAnswer,
    telling: &mut Telling,
) -> Result<(), NoMemory> {
    match answer {
        SolveAnswer::Planned(_) => Ok(()),
        SolveAnswer::Infeasible(prices) => {
            tell_short(alloc, planner, told, table, prices.as_slice(), telling)
        }
        SolveAnswer::TooWide { .. } => {
            tell_given_up(alloc, planner, told, table, RefusalCode::V1, telling)
        }
        SolveAnswer::OutOfBudget { .. } => {
            tell_given_up(alloc, planner, told, table, RefusalCode::V2, telling)
        }
    }
}

// Whether something is to be said of a line with this reply.
fn is_told(reply: &Reply) -> bool {
    match reply {
        Reply::Refused { .. } => true,
        Reply::Solved { answer, .. } => !matches!(answer, SolveAnswer::Planned(_)),
        _ => false,
    }
}

/// Says what is to be said of the reply to a line of the script of this name: why the line is refused, or the line of the batch that it
/// closes, or why its table has no plan.
///
/// # Errors
///
/// `NoMemory` where memory could not be had.
pub fn tell_reply(
    alloc: Global,
    planner: &Planner,
    name: &str,
    script: &[u8],
    line: plan_io::Line<'_>,
    reply: &Reply,
    telling: &mut Telling,
) -> Result<(), NoMemory> {
    // (a script is gone through for a line of a batch only where that is told)
    if !is_told(reply) || !telling.has_room() {
        return Ok(());
    }
    let (number, bytes) = match reply {
        Reply::Refused { at: Some(at), .. } => (*at, line_at(script, *at)),
        _ => (line.number, line.bytes),
    };
    let told = Told {
        script: name,
        line: Line { number, bytes },
    };
    match reply {
        Reply::Refused { code, detail, .. } => {
            tell_refused(alloc, planner, &told, *code, detail, telling)
        }
        Reply::Solved { table, answer, .. } => {
            tell_answer(alloc, planner, &told, table, answer, telling)
        }
        _ => Ok(()),
    }
}
