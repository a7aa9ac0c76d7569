//! The lines about goods of a table: what is wanted of them, comes in and may go out.
ghost use Rattle.game_types.specs.Sound.{IsSound};

use crate::notes::{Notes, push_import_note};
use crate::words::{Done, push, push_good, push_number};
use fractions::Ratio;
use game_types::Game;
use plan_base::GoodId;
use std::alloc::Global;

// A line about a good of a table, with a number.
fn push_number_line(
    alloc: Global,
    game: &Game,
    verb: &str,
    table: &str,
    pair: &(GoodId, Ratio),
    text: &mut String,
) -> Done
    requires { IsSound game.now }
{
    push(text, &[verb, " ", table, " "])?;
    push_good(alloc, game, pair.0, text)?;
    push(text, &[" "])?;
    push_number(alloc, &pair.1, text)?;
    push(text, &["\n"])
}

// Whether a number stands among others for its good.
fn stands(pairs: &[(GoodId, Ratio)], pair: &(GoodId, Ratio)) -> bool {
    pairs
        .iter()
        .any(|other| other.0.0 == pair.0.0 && other.1 == pair.1)
}

/// The lines about goods, but for those of numbers that stand already.
pub fn push_numbers(
    alloc: Global,
    game: &Game,
    verb: &str,
    table: &str,
    numbers: &[(GoodId, Ratio)],
    old: &[(GoodId, Ratio)],
    text: &mut String,
) -> Done
    requires { IsSound game.now }
{
    for pair in numbers {
        if !stands(old, pair) {
            push_number_line(alloc, game, verb, table, pair, text)?;
        }
    }
    Ok(())
}

/// The lines that import goods, with their comments, but for those that stand already.
pub fn push_imports(
    alloc: Global,
    game: &Game,
    table: &str,
    imports: &[(GoodId, Ratio)],
    old: &[(GoodId, Ratio)],
    notes: &Notes<'_>,
    text: &mut String,
) -> Done
    requires { IsSound game.now }
{
    for pair in imports {
        if !stands(old, pair) {
            push_import_note(alloc, game, table, pair, notes, text)?;
            push_number_line(alloc, game, "import", table, pair, text)?;
        }
    }
    Ok(())
}

// Whether some number stands for a good.
fn names(pairs: &[(GoodId, Ratio)], good: GoodId) -> bool {
    pairs.iter().any(|pair| pair.0.0 == good.0)
}

/// The lines by which goods are imported no longer.
pub fn push_ends(
    alloc: Global,
    game: &Game,
    table: &str,
    imports: &[(GoodId, Ratio)],
    old: &[(GoodId, Ratio)],
    text: &mut String,
) -> Done
    requires { IsSound game.now }
{
    for pair in old {
        if !names(imports, pair.0) {
            push(text, &["import ", table, " "])?;
            push_good(alloc, game, pair.0, text)?;
            push(text, &[" off\n"])?;
        }
    }
    Ok(())
}
