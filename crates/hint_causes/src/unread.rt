//! Why a line can't be read.

use crate::found::{Found, Line};
use crate::{like_command, misfit, stops_at};
use line_causes::{Cause, LineWord};
use plan_base::{NoMemory, Text};
use plan_lines::RefusalCode;
use script_reader::{CommandWord, command_of};
use std::alloc::Global;

fn is_mark(line: &Line<'_>) -> bool {
    match line.bytes {
        [0xef, 0xbb, 0xbf, ..] => line.number == 1,
        _ => false,
    }
}

// Of a line whose first word is no command.
fn unknown_command(alloc: Global, line: &Line<'_>, words: &[LineWord]) -> Result<Found, NoMemory> {
    if is_mark(line) {
        return Ok(Found::at(1, Cause::Mark));
    }
    let Some(first) = words.first() else {
        return Ok(Found::coded(RefusalCode::Q1));
    };
    let like = like_command(alloc, first.text.as_str())?;
    let word = Text::copy(alloc, first.text.as_str())?;
    Ok(Found {
        column: Some(first.column),
        cause: Cause::NoCommand(word),
        like,
    })
}

// The word of a comment behind a command.
fn comment_among(words: &[LineWord]) -> Option<&LineWord> {
    words.iter().skip(1).find(|word| word.text.as_str().as_bytes().first() == Some(&b'#'))
}

// Of a line with other words than those of its command.
fn wrong_words(alloc: Global, command: CommandWord, words: &[LineWord]) -> Result<Found, NoMemory> {
    if let Some(word) = comment_among(words) {
        return Ok(Found::at(word.column, Cause::Comment));
    }
    let Some(first) = words.first() else {
        return Ok(Found::coded(RefusalCode::Q2));
    };
    let (at, word) = stops_at(command, words);
    let first = Text::copy(alloc, first.text.as_str())?;
    Ok(Found {
        column: word.map(|word| word.column),
        cause: Cause::Stands { first, command, at },
        like: None,
    })
}

// Of a line with a word that isn't what stands at its place.
fn wrong_word(
    alloc: Global,
    command: CommandWord,
    words: &[LineWord],
    code: RefusalCode,
) -> Result<Found, NoMemory> {
    match misfit(alloc, command, words, code)? {
        Some((word, slot)) => {
            let column = word.column;
            let word = Text::copy(alloc, word.text.as_str())?;
            Ok(Found::at(column, Cause::Unfit { word, slot }))
        }
        None => Ok(Found::coded(code)),
    }
}

// The command of a line.
pub fn command_in(words: &[LineWord]) -> Option<CommandWord> {
    command_of(words.first()?.text.as_str())
}

// Of a line that can't be read.
pub fn unread(
    alloc: Global,
    line: &Line<'_>,
    words: &[LineWord],
    code: RefusalCode,
) -> Result<Found, NoMemory> {
    let Some(command) = command_in(words) else {
        return unknown_command(alloc, line, words);
    };
    if code == RefusalCode::Q2 {
        wrong_words(alloc, command, words)
    } else {
        wrong_word(alloc, command, words, code)
    }
}

// Whether a line of such a code can't be read.
pub fn is_unread(code: RefusalCode) -> bool {
    match code {
        RefusalCode::Q1 | RefusalCode::Q2 | RefusalCode::Q3 | RefusalCode::Q4 | RefusalCode::Q5 =>
            true,
        _ => false,
    }
}
