// What is said of the lines of a script: why one is refused, and why a table that it solves has no plan.
ghost use Rattle.std.specs.Prelude.{◌≡◌, IfOk, codes, option_map, string_bytes};
ghost use Rattle.program_runs.specs.Hints.{hint_line};
ghost use Rattle.program_runs.specs.Lines.{empty_hint, like_text, more_hint, place_text, refused_hint, short_hint, short_text};

use crate::hints::hint_line;
use line_causes::{Cause, Short, cause_text};
use plan_base::{NoMemory, Text};
use plan_report::printed_word;
use std::alloc::{AllocError, Global};

// A place in a script, and a colon.
fn place_text(alloc: Global, line: u32, column: Option<usize>) -> Result<String, AllocError>
    ensures { IfOk result (λ text. string_bytes text ≡ place_text line column) }
{
    match column {
        Some(column) => format!(in alloc; "line {line}, column {column}: "),
        None => format!(in alloc; "line {line}: "),
    }
}

// The word that was likely meant, where one is known.
fn like_text(alloc: Global, like: Option<&str>) -> Result<String, AllocError>
    ensures { IfOk result (λ text. string_bytes text ≡ like_text (option_map (λ word. word.now) like.entry)) }
{
    match like {
        Some(word) => {
            let word = printed_word(alloc, word)?;
            format!(in alloc; "; like it is {word}")
        }
        None => Ok(String::new(alloc)),
    }
}

/// What is said of a refused line of a script: where it is at fault, by which cause, and the word that was likely meant.
///
/// # Errors
///
/// `NoMemory` where memory could not be had.
#[tactic(auto, unfolding(crate::specs::Lines::refused_hint))]
pub fn refused_hint(
    alloc: Global,
    script: Option<&str>,
    line: u32,
    column: Option<usize>,
    cause: &Cause,
    like: Option<&str>,
) -> Result<Text, NoMemory>
    ensures { IfOk result (λ text. text ≡ refused_hint (option_map (λ name. name.now) script.entry) line column cause.now (option_map (λ word. word.now) like.entry)) }
{
    let place = place_text(alloc, line, column)?;
    let what = cause_text(alloc, cause)?;
    let like = like_text(alloc, like)?;
    let said = format!(in alloc; "{place}{what}{like}")?;
    hint_line(alloc, script, said.as_str())
}

/// How many more lines there are to be told of.
///
/// # Errors
///
/// `NoMemory` where memory could not be had.
pub fn more_hint(alloc: Global, script: Option<&str>, more: u32) -> Result<Text, NoMemory>
    ensures { IfOk result (λ text. text ≡ more_hint (option_map (λ name. name.now) script.entry) more) }
{
    let said = format!(in alloc; "and {more} more")?;
    hint_line(alloc, script, said.as_str())
}

fn short_text(alloc: Global, short: &Short) -> Result<String, AllocError>
    ensures { IfOk result (λ text. string_bytes text ≡ short_text short.now) }
{
    match short {
        Short::Ungiven(good) => {
            let good = printed_word(alloc, good.as_str())?;
            format!(in alloc; "no row or import gives {good}")
        }
        Short::Warmer { base, variant } => {
            let base = printed_word(alloc, base.as_str())?;
            let variant = printed_word(alloc, variant.as_str())?;
            format!(in alloc; "no row or import gives {base}, but {variant}")
        }
        Short::Unmet(good) => {
            let good = printed_word(alloc, good.as_str())?;
            format!(in alloc; "no rates give as much of {good} as is taken and wanted")
        }
    }
}

/// What is said of a table without a plan that a line solves.
///
/// # Errors
///
/// `NoMemory` where memory could not be had.
#[tactic(auto, unfolding(crate::specs::Lines::short_hint))]
pub fn short_hint(
    alloc: Global,
    script: Option<&str>,
    line: u32,
    table: &str,
    short: &Short,
) -> Result<Text, NoMemory>
    ensures { IfOk result (λ text. text ≡ short_hint (option_map (λ name. name.now) script.entry) line table.now short.now) }
{
    let place = place_text(alloc, line, None)?;
    let table = printed_word(alloc, table)?;
    let why = short_text(alloc, short)?;
    let said = format!(in alloc; "{place}table {table} has no plan: {why}")?;
    hint_line(alloc, script, said.as_str())
}

/// What is said of a dump with nothing of a game in it.
///
/// # Errors
///
/// `NoMemory` where memory could not be had.
pub fn empty_hint(alloc: Global, dump: Option<&str>) -> Result<Text, NoMemory>
    ensures { IfOk result (λ text. text ≡ empty_hint (option_map (λ name. name.now) dump.entry)) }
{
    hint_line(alloc, dump, "no section of Factorio 1.1 found")
}
