//! What is said of a cause.
ghost use Rattle.std.specs.Prelude.{◌≡◌, ◌++◌, IfOk, codes, string_bytes};
ghost use Rattle.plan_report.specs.Words.{printed_word};
ghost use Rattle.line_causes.specs.Causes.{cause_text, code_words, done_by_text, kind_noun, no_row_text, quote_words, stands_text, warmer_text};
ghost use Rattle.line_causes.specs.Forms.{slot_words};

use crate::QuoteFault;
use crate::causes::{Cause, code_words};
use crate::forms::{Slot, form_of, front_words, next_words, slot_words};
use plan_base::Kind;
use plan_lines::RefusalCode;
use plan_report::printed_word;
use script_reader::CommandWord;
use std::alloc::{AllocError, Global};

fn quote_words(fault: QuoteFault) -> &'static str
    ensures { result.now ≡ quote_words fault }
{
    match fault {
        QuoteFault::NotUtf8 => "the line is not in UTF-8",
        QuoteFault::Within => "a quote stands within a word",
        QuoteFault::Open => "a quote is not closed",
        QuoteFault::Behind => "a word goes on behind its closing quote",
        QuoteFault::Escape =>
            "a backslash in quotes stands before none of n, t, r, quote and backslash",
    }
}

// What a thing of a kind is called.
fn kind_noun(kind: Kind) -> &'static str
    ensures { result.now ≡ kind_noun kind }
{
    match kind {
        Kind::Special => "special thing",
        Kind::Item => "item",
        Kind::Fluid => "fluid",
        Kind::Recipe => "recipe",
        Kind::Source => "source",
        Kind::Machine => "machine",
        Kind::Tech => "technology",
    }
}

// What stands behind so many words of a command.
fn stands_text(
    alloc: Global,
    first: &str,
    command: CommandWord,
    at: usize,
) -> Result<String, AllocError>
    ensures { IfOk result (λ text. string_bytes text ≡ stands_text first.now command at) }
{
    let form = form_of(command);
    let first = printed_word(alloc, first)?;
    let front = front_words(alloc, &form[..at.min(form.len())])?;
    let next = next_words(form, at);
    format!(in alloc; "behind {first}{front} stands {next}")
}

// A word, and what is said of it.
fn word_then(alloc: Global, word: &str, what: &str) -> Result<String, AllocError>
    ensures { IfOk result (λ text. string_bytes text ≡ printed_word word.now ++ what.now) }
{
    let word = printed_word(alloc, word)?;
    format!(in alloc; "{word}{what}")
}

// A text, and a word behind it.
fn then_word(alloc: Global, front: &str, word: &str) -> Result<String, AllocError>
    ensures { IfOk result (λ text. string_bytes text ≡ front.now ++ printed_word word.now) }
{
    let word = printed_word(alloc, word)?;
    format!(in alloc; "{front}{word}")
}

// Two words, and what stands between them.
fn between(alloc: Global, first: &str, middle: &str, last: &str) -> Result<String, AllocError>
    ensures { IfOk result (λ text. string_bytes text ≡ printed_word first.now ++ (middle.now ++ printed_word last.now)) }
{
    let first = printed_word(alloc, first)?;
    let last = printed_word(alloc, last)?;
    format!(in alloc; "{first}{middle}{last}")
}

// What a code says, of a word.
fn of_text(alloc: Global, word: &str, code: RefusalCode) -> Result<String, AllocError>
    ensures { IfOk result (λ text. string_bytes text ≡ printed_word word.now ++ (codes ": " ++ code_words code)) }
{
    let word = printed_word(alloc, word)?;
    let what = code_words(code);
    format!(in alloc; "{word}: {what}")
}

fn unfit_text(alloc: Global, word: &str, slot: Slot) -> Result<String, AllocError>
    ensures { IfOk result (λ text. string_bytes text ≡ printed_word word.now ++ (codes " is not " ++ slot_words slot)) }
{
    let word = printed_word(alloc, word)?;
    let what = slot_words(slot);
    format!(in alloc; "{word} is not {what}")
}

fn no_object_text(alloc: Global, kind: Kind, word: &str) -> Result<String, AllocError>
    ensures { IfOk result (λ text. string_bytes text ≡ codes "no " ++ (kind_noun kind ++ (codes " is called " ++ printed_word word.now))) }
{
    let word = printed_word(alloc, word)?;
    let noun = kind_noun(kind);
    format!(in alloc; "no {noun} is called {word}")
}

// One text behind another.
fn joined(alloc: Global, first: &str, second: &str) -> Result<String, AllocError>
    ensures { IfOk result (λ text. string_bytes text ≡ first.now ++ second.now) }
{
    format!(in alloc; "{first}{second}")
}

fn no_row_text(alloc: Global, table: &str, label: &str) -> Result<String, AllocError>
    ensures { IfOk result (λ text. string_bytes text ≡ no_row_text table.now label.now) }
{
    let front = then_word(alloc, "table ", table)?;
    let end = then_word(alloc, " has no row ", label)?;
    joined(alloc, front.as_str(), end.as_str())
}

fn done_by_text(
    alloc: Global,
    machine: &str,
    activity: &str,
    other: &str,
) -> Result<String, AllocError>
    ensures { IfOk result (λ text. string_bytes text ≡ done_by_text machine.now activity.now other.now) }
{
    let undone = between(alloc, machine, " does not do ", activity)?;
    let other = printed_word(alloc, other)?;
    format!(in alloc; "{undone}; {other} does")
}

fn warmer_text(
    alloc: Global,
    fluid: &str,
    machine: &str,
    variant: &str,
) -> Result<String, AllocError>
    ensures { IfOk result (λ text. string_bytes text ≡ warmer_text fluid.now machine.now variant.now) }
{
    let front = word_then(alloc, fluid, " has several temperatures; ")?;
    let made = between(alloc, machine, " makes ", variant)?;
    joined(alloc, front.as_str(), made.as_str())
}

/// What is said of a cause.
///
/// # Errors
///
/// `AllocError` where memory could not be had.
pub fn cause_text(alloc: Global, cause: &Cause) -> Result<String, AllocError>
    ensures { IfOk result (λ text. string_bytes text ≡ cause_text cause.now) }
{
    match cause {
        Cause::Coded(code) => String::from_str(alloc, code_words(*code)),
        Cause::Of { word, code } => of_text(alloc, word.as_str(), *code),
        Cause::Mark => String::from_str(alloc, "the file begins with a byte order mark"),
        Cause::NoCommand(word) => then_word(alloc, "no command is called ", word.as_str()),
        Cause::Comment => String::from_str(alloc, "a comment stands on a line of its own"),
        Cause::Stands { first, command, at } => stands_text(alloc, first.as_str(), *command, *at),
        Cause::Unfit { word, slot } => unfit_text(alloc, word.as_str(), *slot),
        Cause::Quoting(fault) => String::from_str(alloc, quote_words(*fault)),
        Cause::NoObject { kind, word } => no_object_text(alloc, *kind, word.as_str()),
        Cause::NoModule(word) => word_then(alloc, word.as_str(), " is no module"),
        Cause::NoBeacon(word) => word_then(alloc, word.as_str(), " is no beacon"),
        Cause::NoTable(word) => then_word(alloc, "no table is called ", word.as_str()),
        Cause::NoRow { table, label } => no_row_text(alloc, table.as_str(), label.as_str()),
        Cause::NoPrice(word) => word_then(alloc, word.as_str(), " has no such price"),
        Cause::Undone { machine, activity } => {
            between(alloc, machine.as_str(), " does not do ", activity.as_str())
        }
        Cause::DoneBy {
            machine,
            activity,
            other,
        } => done_by_text(alloc, machine.as_str(), activity.as_str(), other.as_str()),
        Cause::Warmer {
            fluid,
            machine,
            variant,
        } => warmer_text(alloc, fluid.as_str(), machine.as_str(), variant.as_str()),
        Cause::Fuelless { machine, fuel } => {
            between(
                alloc,
                machine.as_str(),
                " burns a fuel, such as ",
                fuel.as_str(),
            )
        }
    }
}
