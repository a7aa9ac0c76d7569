//! The lines of a script that make a table.
ghost use Rattle.game_types.specs.Sound.{IsSound};

use crate::good_lines::{push_ends, push_imports, push_numbers};
use crate::notes::{Notes, push_draw_note};
use crate::row_lines::push_rows;
use crate::words::{Done, push};
use game_types::Game;
use plan_base::NoMemory;
use plan_report::printed_word;
use production_table::{Table, TableRow};
use std::alloc::Global;

fn push_power(table: &str, power: bool, text: &mut String) -> Done {
    if power {
        push(text, &["power ", table, " on\n"])
    } else {
        Ok(())
    }
}

// The lines of a table behind its rows, but for what stands in another already.
fn push_rest(
    alloc: Global,
    game: &Game,
    name: &str,
    table: &Table,
    old: &Table,
    notes: &Notes<'_>,
    text: &mut String,
) -> Done
    requires { IsSound game.now }
{
    let imports = table.imports.as_slice();
    push_ends(alloc, game, name, imports, old.imports.as_slice(), text)?;
    push_imports(
        alloc,
        game,
        name,
        imports,
        old.imports.as_slice(),
        notes,
        text,
    )?;
    let surpluses = table.surpluses.as_slice();
    push_numbers(
        alloc,
        game,
        "surplus",
        name,
        surpluses,
        old.surpluses.as_slice(),
        text,
    )?;
    push_draw_note(alloc, notes, text)?;
    let wants = table.wants.as_slice();
    push_numbers(alloc, game, "want", name, wants, old.wants.as_slice(), text)?;
    push_power(name, table.power && !old.power, text)?;
    push(text, &["solve ", name, "\n"])
}

/// The lines that make a table and have it solved.
pub fn table_text(
    alloc: Global,
    game: &Game,
    table: &Table,
    notes: &Notes<'_>,
) -> Result<String, NoMemory>
    requires { IsSound game.now }
{
    let name = printed_word(alloc, table.name.as_str())?;
    let empty = Table::make(alloc, "")?;
    let mut text = String::new(alloc);
    push(&mut text, &["table ", name.as_str(), "\n"])?;
    push_rows(alloc, game, name.as_str(), table.rows.as_slice(), &mut text)?;
    push_rest(alloc, game, name.as_str(), table, &empty, notes, &mut text)?;
    Ok(text)
}

// The rows of a table behind so many.
fn rows_behind(table: &Table, count: usize) -> &[TableRow] {
    let rows = table.rows.as_slice();
    if count <= rows.len() {
        &rows[count..]
    } else {
        &[]
    }
}

/// The lines that make a table of one that stands, which has the first of its rows, and have it solved.
pub fn more_text(
    alloc: Global,
    game: &Game,
    old: &Table,
    table: &Table,
    notes: &Notes<'_>,
) -> Result<String, NoMemory>
    requires { IsSound game.now }
{
    let name = printed_word(alloc, table.name.as_str())?;
    let mut text = String::new(alloc);
    let rows = rows_behind(table, old.rows.len());
    push_rows(alloc, game, name.as_str(), rows, &mut text)?;
    push_rest(alloc, game, name.as_str(), table, old, notes, &mut text)?;
    Ok(text)
}
