//! The words of a question.
ghost use Rattle.std.specs.Prelude.{◌≤◌, length};

use plan_base::{NoMemory, Text};
use plan_lines::Command;
use script_runner::reading_of;
use std::alloc::Global;

fn is_separator(byte: u8) -> bool {
    byte == b' ' || byte == b'\t'
}

// Where a byte of a word stands.
#[derive(Clone, Copy, Debug, PartialEq, Eq)]
enum Quotes {
    Outside,
    Opening,
    Inside,
    BehindBackslash,
}

// Where the first byte stands.
fn opening(rest: &[u8]) -> Quotes {
    match rest.first() {
        Some(b'"') => Quotes::Opening,
        _ => Quotes::Outside,
    }
}

// Where the byte behind one between quotes stands.
fn behind_inside(byte: u8) -> Quotes {
    match byte {
        b'"' => Quotes::Outside,
        b'\\' => Quotes::BehindBackslash,
        _ => Quotes::Inside,
    }
}

// Where the byte behind another stands.
fn behind(quotes: Quotes, byte: u8) -> Quotes {
    match quotes {
        Quotes::Outside => Quotes::Outside,
        Quotes::Opening => Quotes::Inside,
        Quotes::Inside => behind_inside(byte),
        Quotes::BehindBackslash => Quotes::Inside,
    }
}

// How many bytes the word at the front has, with its quotes.
fn word_length(rest: &[u8]) -> usize
    ensures { result ≤ length rest.now }
{
    let mut quotes = opening(rest);
    for (place, byte) in rest.iter().enumerate() {
        if quotes == Quotes::Outside && is_separator(*byte) {
            return place;
        }
        quotes = behind(quotes, *byte);
    }
    rest.len()
}

// How many separators stand at the front.
fn gap_length(rest: &[u8]) -> usize
    ensures { result ≤ length rest.now }
{
    for (place, byte) in rest.iter().enumerate() {
        if !is_separator(*byte) {
            return place;
        }
    }
    rest.len()
}

// What stands behind the separators at the front.
fn behind_gap(rest: &[u8]) -> &[u8] {
    let (_, behind) = rest.split_at(gap_length(rest));
    behind
}

// A word as a script has it; none where it is badly quoted or no UTF-8. It is read as the name of a table.
fn word_of(alloc: Global, written: &[u8]) -> Result<Option<Text>, NoMemory> {
    let mut line = Vec::from_slice(alloc, b"solve ")?;
    line.extend_from_slice(written)?;
    match reading_of(alloc, line.as_slice())? {
        Ok(Some(Command::Solve { table, .. })) => Ok(Some(table)),
        _ => Ok(None),
    }
}

/// Puts the words behind the first of a question behind others. Answers whether they are well quoted and in UTF-8.
///
/// # Errors
///
/// `NoMemory` where memory could not be had.
pub fn push_words(alloc: Global, words: &mut Vec<Text>, line: &[u8]) -> Result<bool, NoMemory> {
    let mut rest = behind_gap(line);
    // Each word takes a byte at least.
    for _ in 0..line.len() {
        if rest.is_empty() {
            break;
        }
        let (written, more) = rest.split_at(word_length(rest));
        let Some(word) = word_of(alloc, written)? else {
            return Ok(false);
        };
        words.push(word)?;
        rest = behind_gap(more);
    }
    Ok(true)
}
