//! Why a line is refused: where on the line, the cause, and the word that was likely meant.
ghost use Rattle.std.specs.Prelude.{◌≡◌, IfOk};
ghost use Rattle.game_types.specs.Sound.{IsSound};
ghost use Rattle.line_causes.specs.Causes.{code_of};

use crate::unknown::{fuel_word, of_name, of_node, of_some, of_text};
use crate::unread::{command_in, is_unread, unread};
use crate::{fuel_for, like_word, machine_for, machine_of, number_among, variant_given};
use game_types::Game;
use line_causes::{Cause, LineWord, Unread, code_of, words_of};
use plan_base::{NoMemory, Text};
use plan_lines::{Detail, RefusalCode};
use production_table::Table;
use script_reader::{CommandWord, Place, object_at};
use std::alloc::Global;

/// A line of a script.
#[derive(Clone, Copy)]
pub struct Line<'a> {
    pub number: u32,
    pub bytes: &'a [u8],
}

/// Why a line is refused: the column where one word is at fault, the cause, and the word that was likely meant.
#[derive(Drop)]
pub struct Found {
    pub column: Option<usize>,
    pub cause: Cause,
    pub like: Option<Text>,
}

impl Found {
    // By the code alone.
    pub(crate) fn coded(code: RefusalCode) -> Found
        ensures { code_of result.cause ≡ code }
    {
        Found {
            column: None,
            cause: Cause::Coded(code),
            like: None,
        }
    }

    pub(crate) fn at(column: usize, cause: Cause) -> Found {
        Found {
            column: Some(column),
            cause,
            like: None,
        }
    }

    // By the code, of a word of the line.
    pub(crate) fn of_word(
        alloc: Global,
        word: &LineWord,
        code: RefusalCode,
    ) -> Result<Found, NoMemory> {
        let column = word.column;
        let word = Text::copy(alloc, word.text.as_str())?;
        Ok(Found::at(column, Cause::Of { word, code }))
    }
}

// The activity and the machine of a line that is to be a row.
fn row_words(words: &[LineWord]) -> Option<(&LineWord, &LineWord)> {
    match words {
        [first, _, _, activity, _, machine, ..] if first.text.as_str() == "row" => {
            Some((activity, machine))
        }
        _ => None,
    }
}

// What a machine that doesn't do an activity is told with.
fn cause_of_undone(
    alloc: Global,
    game: &Game,
    activity: &str,
    machine: &str,
) -> Result<Cause, NoMemory>
    requires { IsSound game.now }
{
    let Ok(named) = object_at(alloc, activity, Place::Activity) else {
        return Ok(Cause::Coded(RefusalCode::K1));
    };
    let given = match machine.split_once(':') {
        Some((_, name)) => match machine_of(game, name) {
            Some(known) => variant_given(alloc, game, known, named.name.as_str())?,
            None => None,
        },
        None => None,
    };
    if let Some(variant) = given {
        return Ok(Cause::Warmer {
            fluid: Text::copy(alloc, activity)?,
            machine: Text::copy(alloc, machine)?,
            variant,
        });
    }
    let other = machine_for(alloc, game, named.kind, named.name.as_str())?;
    let activity = Text::copy(alloc, activity)?;
    let machine = Text::copy(alloc, machine)?;
    Ok(match other {
        Some(other) => Cause::DoneBy {
            machine,
            activity,
            other,
        },
        None => Cause::Undone { machine, activity },
    })
}

// What a machine that burns a fuel is told with, where none is named.
fn cause_of_fuelless(alloc: Global, game: &Game, machine: &str) -> Result<Cause, NoMemory>
    requires { IsSound game.now }
{
    let Some((_, name)) = machine.split_once(':') else {
        return Ok(Cause::Coded(RefusalCode::L1));
    };
    let Some(known) = machine_of(game, name) else {
        return Ok(Cause::Coded(RefusalCode::L1));
    };
    match fuel_for(alloc, game, known)? {
        Some(fuel) => Ok(Cause::Fuelless {
            machine: Text::copy(alloc, machine)?,
            fuel,
        }),
        None => Ok(Cause::Coded(RefusalCode::L1)),
    }
}

// Of a row whose machine and activity don't go together.
fn of_row(
    alloc: Global,
    game: &Game,
    words: &[LineWord],
    code: RefusalCode,
) -> Result<Found, NoMemory>
    requires { IsSound game.now }
{
    let Some((activity, machine)) = row_words(words) else {
        return Ok(Found::coded(code));
    };
    let name = machine.text.as_str();
    match code {
        RefusalCode::K1 => {
            let cause = cause_of_undone(alloc, game, activity.text.as_str(), name)?;
            Ok(Found::at(machine.column, cause))
        }
        RefusalCode::L1 => {
            let cause = cause_of_fuelless(alloc, game, name)?;
            Ok(Found::at(machine.column, cause))
        }
        _ => Found::of_word(alloc, machine, code),
    }
}

// Of a line whose reply has the code alone.
fn of_code(
    alloc: Global,
    game: &Game,
    words: &[LineWord],
    code: RefusalCode,
) -> Result<Found, NoMemory>
    requires { IsSound game.now }
{
    match code {
        RefusalCode::K1 | RefusalCode::K2 | RefusalCode::K5 => of_row(alloc, game, words, code),
        RefusalCode::L1 | RefusalCode::L3 | RefusalCode::L4 => of_row(alloc, game, words, code),
        RefusalCode::L2 => of_some(alloc, fuel_word(words), code),
        RefusalCode::M2 | RefusalCode::M3 => of_some(alloc, words.get(1), code),
        RefusalCode::P5 => match command_in(words) {
            Some(CommandWord::Row) => of_some(alloc, words.get(2), code),
            _ => of_some(alloc, words.get(1), code),
        },
        RefusalCode::P2 | RefusalCode::X3 => match command_in(words) {
            Some(command) => of_some(alloc, number_among(alloc, command, words)?, code),
            None => Ok(Found::coded(code)),
        },
        _ => Ok(Found::coded(code)),
    }
}

// Of a line that could be read.
fn of_reply(
    alloc: Global,
    game: &Game,
    tables: &[Table],
    words: &[LineWord],
    code: RefusalCode,
    detail: &Detail,
) -> Result<Found, NoMemory>
    requires { IsSound game.now }
{
    match detail {
        Detail::Bare => of_code(alloc, game, words, code),
        Detail::Word { kind, name } => {
            of_name(alloc, game, tables, words, code, *kind, name.as_str())
        }
        Detail::Node(node) => of_node(alloc, game, words, code, *node),
        Detail::Effect { node, .. } => of_node(alloc, game, words, code, *node),
        Detail::Row { label, .. } => {
            let word = Text::copy(alloc, label.as_str())?;
            of_text(alloc, words, word, code)
        }
    }
}

// The word that was likely meant by one that names no object.
fn with_likely(alloc: Global, game: &Game, found: Found) -> Result<Found, NoMemory>
    requires { IsSound game.now }
{
    let Found {
        column,
        cause,
        like,
    } = found;
    let like = match &cause {
        Cause::Unfit { word, .. } if code_of(&cause) == RefusalCode::Q5 => {
            like_word(alloc, game, word.as_str())?
        }
        _ => like,
    };
    Ok(Found {
        column,
        cause,
        like,
    })
}

// What was found where it is of the code, else what the code alone says.
fn settled(found: Found, code: RefusalCode) -> Found
    ensures { code_of result.cause ≡ code }
{
    if code_of(&found.cause) == code {
        found
    } else {
        Found::coded(code)
    }
}

// Of a line of words.
fn found_in_words(
    alloc: Global,
    game: &Game,
    tables: &[Table],
    line: &Line<'_>,
    words: &[LineWord],
    code: RefusalCode,
    detail: &Detail,
) -> Result<Found, NoMemory>
    requires { IsSound game.now }
{
    if is_unread(code) {
        let found = unread(alloc, line, words, code)?;
        with_likely(alloc, game, found)
    } else {
        of_reply(alloc, game, tables, words, code, detail)
    }
}

fn of_quoting(unread: &Unread) -> Found {
    Found {
        column: unread.column,
        cause: Cause::Quoting(unread.fault),
        like: None,
    }
}

/// Why a line is refused, over a game and its tables, by the code and the detail of its reply. The cause is one of that code.
///
/// # Errors
///
/// `NoMemory` where memory could not be had.
pub fn found_of(
    alloc: Global,
    game: &Game,
    tables: &[Table],
    line: &Line<'_>,
    code: RefusalCode,
    detail: &Detail,
) -> Result<Found, NoMemory>
    requires { IsSound game.now }
    ensures { IfOk result (λ found. code_of found.cause ≡ code) }
{
    let found = match words_of(alloc, line.bytes)? {
        Ok(words) => found_in_words(alloc, game, tables, line, &words, code, detail)?,
        Err(unread) => of_quoting(&unread),
    };
    Ok(settled(found, code))
}
