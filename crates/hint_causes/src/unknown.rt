//! Why what a line names isn't there.
ghost use Rattle.game_types.specs.Sound.{IsSound};

use crate::found::Found;
use crate::{like_label, like_object, like_table, node_text, object_text};
use game_types::Game;
use line_causes::{Cause, LineWord};
use plan_base::{Kind, NoMemory, NodeId, Text};
use plan_lines::RefusalCode;
use production_table::Table;
use std::alloc::Global;

// The first word behind the command that is so written.
fn word_of<'a>(words: &'a [LineWord], text: &str) -> Option<&'a LineWord> {
    words.iter().skip(1).find(|word| word.text.as_str() == text)
}

// The word before the first one that is so written.
fn word_before<'a>(words: &'a [LineWord], text: &str) -> Option<&'a LineWord> {
    let place = words.iter().position(|word| word.text.as_str() == text)?;
    words.get(place.checked_sub(1)?)
}

// The word behind the first `fuel`.
pub fn fuel_word(words: &[LineWord]) -> Option<&LineWord> {
    let place = words.iter().position(|word| word.text.as_str() == "fuel")?;
    words.get(place.checked_add(1)?)
}

// By the code, of the word where there is one.
pub fn of_some(
    alloc: Global,
    word: Option<&LineWord>,
    code: RefusalCode,
) -> Result<Found, NoMemory> {
    match word {
        Some(word) => Found::of_word(alloc, word, code),
        None => Ok(Found::coded(code)),
    }
}

// What is wrong with an object that is named.
fn cause_of_object(
    alloc: Global,
    words: &[LineWord],
    kind: Kind,
    is_known: bool,
    text: &str,
) -> Result<Cause, NoMemory> {
    let word = Text::copy(alloc, text)?;
    if !is_known {
        return Ok(Cause::NoObject { kind, word });
    }
    match word_before(words, text) {
        Some(before) if before.text.as_str() == "beacon" => Ok(Cause::NoBeacon(word)),
        _ => Ok(Cause::NoModule(word)),
    }
}

// Of a name that is not in the game, or of another kind of thing than is needed.
fn unknown_object(
    alloc: Global,
    game: &Game,
    words: &[LineWord],
    kind: Kind,
    name: &str,
) -> Result<Found, NoMemory>
    requires { IsSound game.now }
{
    let text = object_text(alloc, kind, name)?;
    let is_known = game.find(kind, name).is_some();
    let cause = cause_of_object(alloc, words, kind, is_known, text.as_str())?;
    let like = if is_known {
        None
    } else {
        like_object(alloc, game, kind, name)?
    };
    Ok(Found {
        column: word_of(words, text.as_str()).map(|word| word.column),
        cause,
        like,
    })
}

// Of a label that no row of a table has.
fn unknown_row(
    alloc: Global,
    table: &Table,
    words: &[LineWord],
    label: &str,
) -> Result<Found, NoMemory> {
    let like = like_label(alloc, table, label)?;
    let table = Text::copy(alloc, table.name.as_str())?;
    Ok(Found {
        column: words.get(2).map(|word| word.column),
        cause: Cause::NoRow {
            table,
            label: Text::copy(alloc, label)?,
        },
        like,
    })
}

// Of a name that no table has, or no row of the table of the line.
fn unknown_name(
    alloc: Global,
    tables: &[Table],
    words: &[LineWord],
    name: &str,
) -> Result<Found, NoMemory> {
    if let Some(first) = words.get(1) {
        if let Some(table) = tables
            .iter()
            .find(|table| table.name.as_str() == first.text.as_str())
        {
            return unknown_row(alloc, table, words, name);
        }
    }
    Ok(Found {
        column: word_of(words, name).map(|word| word.column),
        cause: Cause::NoTable(Text::copy(alloc, name)?),
        like: like_table(alloc, tables, name)?,
    })
}

// Of an import or a surplus that a good has not.
fn unknown_price(
    alloc: Global,
    words: &[LineWord],
    kind: Kind,
    name: &str,
) -> Result<Found, NoMemory> {
    let text = object_text(alloc, kind, name)?;
    Ok(Found {
        column: word_of(words, text.as_str()).map(|word| word.column),
        cause: Cause::NoPrice(text),
        like: None,
    })
}

// Of a name that the reply has.
pub fn of_name(
    alloc: Global,
    game: &Game,
    tables: &[Table],
    words: &[LineWord],
    code: RefusalCode,
    kind: Option<Kind>,
    name: &str,
) -> Result<Found, NoMemory>
    requires { IsSound game.now }
{
    match (code, kind) {
        (RefusalCode::X1, Some(kind)) => unknown_object(alloc, game, words, kind, name),
        (RefusalCode::P1, None) => unknown_name(alloc, tables, words, name),
        (RefusalCode::P1, Some(kind)) => unknown_price(alloc, words, kind, name),
        (_, Some(kind)) => {
            let word = object_text(alloc, kind, name)?;
            of_text(alloc, words, word, code)
        }
        (_, None) => {
            let word = Text::copy(alloc, name)?;
            of_text(alloc, words, word, code)
        }
    }
}

// By the code, of a text that may stand on the line.
pub fn of_text(
    alloc: Global,
    words: &[LineWord],
    word: Text,
    code: RefusalCode,
) -> Result<Found, NoMemory> {
    let column = word_of(words, word.as_str()).map(|word| word.column);
    Ok(Found {
        column,
        cause: Cause::Of { word, code },
        like: None,
    })
}

// Of a node that the reply has.
pub fn of_node(
    alloc: Global,
    game: &Game,
    words: &[LineWord],
    code: RefusalCode,
    node: NodeId,
) -> Result<Found, NoMemory>
    requires { IsSound game.now }
{
    match node_text(alloc, game, node)? {
        Some(word) => of_text(alloc, words, word, code),
        None => Ok(Found::coded(code)),
    }
}
