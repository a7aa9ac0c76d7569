//! The lines for a wish, as they are found.
ghost use Rattle.std.specs.Prelude.{◌≡◌, IfOk};
ghost use Rattle.game_types.specs.Sound.{IsSound};
ghost use Rattle.planner_tables.specs.Effects.{AreSoundTables};
ghost use Rattle.production_table.specs.Tables.{IsSoundTable};
ghost use Rattle.wish_words.specs.Named.{IsWishOf};

use crate::failures::Failure;
use fractions::Ratio;
use game_types::Game;
use plan_base::NoMemory;
use plan_report::printed_word;
use production_table::Table;
use std::alloc::Global;
use wish_checks::{Notes, more_text, table_text};
use wish_setups::{Met, Wish, WishFault};
use wish_tables::{more_rows, wish_table};
use wish_words::{AskedMore, NameFault, WishRequest, say_name_fault, say_wish_fault, wish_of};

/// What a dump shows of a game and no rule reads, as far as wishes go by it.
#[derive(Clone, Copy)]
pub struct Given<'a> {
    /// Items a second on the belt that the words name, where they name one.
    pub belt: Option<Ratio>,
    /// Marks for each recipe whether the game hides it.
    pub hidden: &'a [bool],
}

/// The lines for a wish, with the wish that the words name and what meets it.
#[derive(Drop)]
pub struct Found {
    pub text: String,
    pub wish: Wish,
    pub met: Met,
}

// The failure by words that name no wish.
fn no_wish(
    alloc: Global,
    game: &Game,
    reached: &[bool],
    fault: NameFault<'_>,
    said: &mut String,
) -> Failure
    requires { IsSound game.now }
{
    match say_name_fault(alloc, game, reached, fault, said) {
        Ok(()) => Failure::BadWords,
        Err(NoMemory) => Failure::NoMemory,
    }
}

// The failure by a wish that nothing meets.
fn no_table(alloc: Global, game: &Game, fault: &WishFault, said: &mut String) -> Failure
    requires { IsSound game.now }
{
    match say_wish_fault(alloc, game, fault, said) {
        Ok(()) => Failure::Unmet,
        Err(NoMemory) => Failure::NoMemory,
    }
}

// Says something of a table of this name.
fn say_table(alloc: Global, what: &str, name: &str, said: &mut String) -> Result<(), NoMemory> {
    let name = printed_word(alloc, name)?;
    said.push_str(what)?;
    said.push_str(name.as_str())?;
    Ok(())
}

fn notes_of<'a>(met: &'a Met, command: &'a str) -> Notes<'a> {
    Notes {
        rim: met.rim.as_slice(),
        draw: met.draw,
        command,
    }
}

// Whether no table has the name. Else that is said.
fn check_name(
    alloc: Global,
    tables: &[Table],
    name: &str,
    said: &mut String,
) -> Result<(), Failure> {
    if tables.iter().any(|table| table.name.as_str() == name) {
        say_table(alloc, "there is a table of this name already: ", name, said)?;
        return Err(Failure::Refused);
    }
    Ok(())
}

// The lines of a new table.
fn new_lines(
    alloc: Global,
    game: &Game,
    reached: &[bool],
    name: &str,
    wish: Wish,
    command: &str,
    said: &mut String,
) -> Result<Found, Failure>
    requires { IsSound game.now }
    ensures { IfOk result (λ found. found.wish ≡ wish) }
{
    let met = match wish_table(alloc, game, reached, name, &wish) {
        Ok(met) => met,
        Err(fault) => return Err(no_table(alloc, game, &fault, said)),
    };
    let text = table_text(alloc, game, &met.table, &notes_of(&met, command))?;
    Ok(Found { text, wish, met })
}

// The lines that give a table more rows.
fn lines_into(
    alloc: Global,
    game: &Game,
    reached: &[bool],
    table: &Table,
    wish: Wish,
    command: &str,
    said: &mut String,
) -> Result<Found, Failure>
    requires game { IsSound game.now }
    requires table { IsSoundTable table.now }
    ensures { IfOk result (λ found. found.wish ≡ wish) }
{
    let met = match more_rows(alloc, game, reached, table, &wish) {
        Ok(met) => met,
        Err(fault) => return Err(no_table(alloc, game, &fault, said)),
    };
    let text = more_text(alloc, game, table, &met.table, &notes_of(&met, command))?;
    Ok(Found { text, wish, met })
}

// The lines that give the table of a name more rows.
fn more_lines(
    alloc: Global,
    game: &Game,
    reached: &[bool],
    tables: &[Table],
    name: &str,
    wish: Wish,
    command: &str,
    said: &mut String,
) -> Result<Found, Failure>
    requires game { IsSound game.now }
    requires tables { AreSoundTables game.now tables.now }
    ensures { IfOk result (λ found. found.wish ≡ wish) }
{
    for table in tables {
        if table.name.as_str() == name {
            return lines_into(alloc, game, reached, table, wish, command, said);
        }
    }
    say_table(alloc, "there is no table ", name, said)?;
    Err(Failure::BadWords)
}

// The lines for a wish.
fn lines_for(
    alloc: Global,
    game: &Game,
    reached: &[bool],
    tables: &[Table],
    asked: &WishRequest<'_>,
    wish: Wish,
    command: &str,
    said: &mut String,
) -> Result<Found, Failure>
    requires game { IsSound game.now }
    requires tables { AreSoundTables game.now tables.now }
    ensures { IfOk result (λ found. found.wish ≡ wish) }
{
    match asked.more {
        Some(AskedMore { good: _, table }) => {
            more_lines(alloc, game, reached, tables, table, wish, command, said)
        }
        None => {
            check_name(alloc, tables, asked.table, said)?;
            new_lines(alloc, game, reached, asked.table, wish, command, said)
        }
    }
}

/// The lines for the wish that the words ask for, in a state with this game and these tables that reaches these nodes. A good without a
/// rate is wished for at the rate of the given belt. The words of a command stand in the comments before those that ask for more rows.
///
/// # Errors
///
/// Why there are none. What is to be said of it is written to `said`.
pub fn found_lines(
    alloc: Global,
    game: &Game,
    reached: &[bool],
    tables: &[Table],
    asked: &WishRequest<'_>,
    given: &Given<'_>,
    command: &str,
    said: &mut String,
) -> Result<Found, Failure>
    requires game { IsSound game.now }
    requires tables { AreSoundTables game.now tables.now }
    ensures asked { IfOk result (λ found. IsWishOf game.now given.now.belt asked.now found.wish) }
    ensures hidden { IfOk result (λ found. found.wish.hidden ≡ given.now.hidden.now) }
{
    match wish_of(alloc, game, reached, asked, given.belt, given.hidden) {
        Ok(wish) => lines_for(alloc, game, reached, tables, asked, wish, command, said),
        Err(fault) => Err(no_wish(alloc, game, reached, fault, said)),
    }
}
