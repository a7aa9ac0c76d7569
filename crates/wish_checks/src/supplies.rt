//! Whether the rows of a table are supplied.
ghost use Rattle.std.specs.Prelude.{◌≡◌, ◌||◌, ◌&&◌, ◌==◌};
ghost use Rattle.std.specs.List.{list_all, list_any};
ghost use Rattle.game_types.specs.Sound.{IsSound};
ghost use Rattle.wish_checks.specs.Answers.{all_supplied, brings, column_supplied, gives, has_pair, is_at_rim, is_due, is_given_part, is_pair, is_paid, is_supplied, is_taken, part_supplied};

use crate::checking::Priced;
use fractions::{Ratio, is_negative, is_positive};
use game_types::Game;
use plan_base::GoodId;
use wish_setups::{Wish, is_good_reached, is_mined};

fn is_given_part(good: GoodId, part: &(GoodId, Ratio)) -> bool
    ensures { result ≡ is_given_part good part.now }
{
    part.0.0 == good.0 && is_positive(&part.1)
}

fn gives(good: GoodId, column: &Priced) -> bool
    ensures { result ≡ gives good column.now }
{
    column
        .1
        .as_slice()
        .iter()
        .any(|part| is_given_part(good, part))
}

pub fn is_given(columns: &[Priced], good: GoodId) -> bool
    ensures { result ≡ list_any (gives good) columns.now }
{
    columns.iter().any(|column| gives(good, column))
}

pub fn brings(good: GoodId, pairs: &[(GoodId, Ratio)]) -> bool
    ensures { result ≡ brings good pairs.now }
{
    pairs.iter().any(|pair| pair.0.0 == good.0)
}

fn is_supplied(columns: &[Priced], imports: &[(GoodId, Ratio)], good: GoodId) -> bool
    ensures { result ≡ is_supplied columns.now imports.now good }
{
    brings(good, imports) || is_given(columns, good)
}

fn part_supplied(columns: &[Priced], imports: &[(GoodId, Ratio)], part: &(GoodId, Ratio)) -> bool
    ensures { result ≡ part_supplied columns.now imports.now part.now }
{
    !is_negative(&part.1) || is_supplied(columns, imports, part.0)
}

fn column_supplied(columns: &[Priced], imports: &[(GoodId, Ratio)], column: &Priced) -> bool
    ensures { result ≡ column_supplied columns.now imports.now column.now }
{
    column
        .1
        .as_slice()
        .iter()
        .all(|part| part_supplied(columns, imports, part))
}

pub fn all_supplied(columns: &[Priced], imports: &[(GoodId, Ratio)]) -> bool
    ensures { result ≡ all_supplied columns.now imports.now }
{
    columns
        .iter()
        .all(|column| column_supplied(columns, imports, column))
}

fn is_taken(power: u32, part: &(GoodId, Ratio)) -> bool
    ensures { result ≡ is_taken power part.now }
{
    !(part.0.0 == power) && is_negative(&part.1)
}

fn takes_some(power: u32, parts: &[(GoodId, Ratio)]) -> bool
    ensures { result ≡ list_any (is_taken power) parts.now }
{
    parts.iter().any(|part| is_taken(power, part))
}

// Whether a row that takes nothing but electricity costs something.
fn is_paid(power: u32, column: &Priced) -> bool
    ensures { result ≡ is_paid power column.now }
{
    is_positive(&column.0) || takes_some(power, column.1.as_slice())
}

pub fn are_paid(power: u32, columns: &[Priced]) -> bool
    ensures { result ≡ list_all (is_paid power) columns.now }
{
    columns.iter().all(|column| is_paid(power, column))
}

fn is_pair(pair: &(GoodId, Ratio), other: &(GoodId, Ratio)) -> bool
    ensures { result ≡ is_pair pair.now other.now }
{
    other.0.0 == pair.0.0 && other.1 == pair.1
}

fn has_pair(pair: &(GoodId, Ratio), pairs: &[(GoodId, Ratio)]) -> bool
    ensures { result ≡ has_pair pair.now pairs.now }
{
    pairs.iter().any(|other| is_pair(pair, other))
}

// Whether an import is one of the rim.
fn is_at_rim(
    game: &Game,
    reached: &[bool],
    wish: &Wish,
    rim: &[(GoodId, Ratio)],
    pair: &(GoodId, Ratio),
) -> bool
    requires { IsSound game.now }
    ensures { result ≡ is_at_rim game.now reached.now wish.now rim.now pair.now }
{
    has_pair(pair, rim)
        && is_good_reached(game, reached, pair.0)
        && !brings(pair.0, wish.wants.as_slice())
}

// Whether an import was asked for, or costs something and is of what a source gives or of the rim.
fn is_due(
    game: &Game,
    reached: &[bool],
    wish: &Wish,
    rim: &[(GoodId, Ratio)],
    pair: &(GoodId, Ratio),
) -> bool
    requires { IsSound game.now }
    ensures { result ≡ is_due game.now reached.now wish.now rim.now pair.now }
{
    has_pair(pair, wish.imports.as_slice())
        || (is_positive(&pair.1)
            && (is_mined(game, reached, pair.0) || is_at_rim(game, reached, wish, rim, pair)))
}

pub fn are_due(
    game: &Game,
    reached: &[bool],
    wish: &Wish,
    rim: &[(GoodId, Ratio)],
    imports: &[(GoodId, Ratio)],
) -> bool
    requires { IsSound game.now }
    ensures { result ≡ list_all (is_due game.now reached.now wish.now rim.now) imports.now }
{
    imports
        .iter()
        .all(|pair| is_due(game, reached, wish, rim, pair))
}
