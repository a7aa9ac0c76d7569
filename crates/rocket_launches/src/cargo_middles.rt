//! What cargo gives for the middles of names: a table of it for all cargo, where memory can be had.
ghost use Rattle.std.specs.Prelude.{◌≡◌, ◌≢◌, ◌<◌, ◌+◌, ◌∷◌, ◌++◌, ◌==◌, if◌then◌else◌, All, IfOk, IfSome, length, ℕ, List};
ghost use Rattle.std.specs.Option.{MatchOption};
ghost use Rattle.game_types.specs.Sound.{IsSound};
ghost use Rattle.rocket_launches.specs.Launches.{name_at};
ghost use Rattle.rocket_launches.specs.Clashes.{IsWithin, Tells, ends_at, ends_with, joined};

use crate::flight_names::{cargo_named, cut};
use crate::launches::name_at;
use crate::middles::{Ends, Middles, no_middles, put};
use game_types::Game;
use plan_base::{GoodId, NoMemory};
use std::alloc::Global;

// What stands behind a text and a colon.
pub fn behind<'a>(text: &'a str, front: &str) -> Option<&'a str>
    ensures { MatchOption result ((rest : List ℕ) → text.now ≢ front.now ++ 58 ∷ rest) (λ rest. text.now ≡ front.now ++ 58 ∷ rest.now) }
{
    match text.strip_prefix(front) {
        Some(rest) => rest.strip_prefix(':'),
        None => None,
    }
}

/// Cargo whose name is a middle, a colon and the name of other cargo.
pub fn ends_with(game: &Game, middle: &str, cargo: GoodId) -> Option<Ends>
    requires sound { IsSound game.now }
    requires within { cargo.0 < length game.now.item_names }
    ensures { result ≡ ends_with game.now middle.now cargo }
{
    let name = name_at(&game.item_names, cargo.0);
    match behind(name, middle) {
        Some(rest) => match cargo_named(game, rest) {
            Some(other) => Some(Ends {
                whole: cargo,
                rest: other,
            }),
            None => None,
        },
        None => None,
    }
}

// ---- A table of what all cargo gives for each middle.

// Puts what cargo gives for the text in front of a place of its name.
fn put_cut<'a>(
    game: &Game,
    table: &mut Middles<'a>,
    cargo: GoodId,
    name: &'a str,
    place: usize,
) -> Result<(), NoMemory>
    requires sound { IsSound game.now }
    requires name { name.now ≡ name_at game.now.item_names cargo.0 }
    requires place { place < length name.now }
    requires within { IsWithin table.old }
    ensures within { IfOk result (λ done. IsWithin table.new) }
    ensures put { IfOk result (λ done. (middle : List ℕ) → ends_at table.new middle ≡ (if length middle == place then joined (ends_at table.old middle) (ends_with game.now middle cargo) else ends_at table.old middle)) }
{
    match cut(name, place) {
        Some((middle, behind)) => match cargo_named(game, behind) {
            Some(rest) => put(table, middle, Ends { whole: cargo, rest }),
            None => Ok(()),
        },
        None => Ok(()),
    }
}

// Puts what cargo gives for each middle.
fn put_cargo<'a>(game: &'a Game, table: &mut Middles<'a>, cargo: GoodId) -> Result<(), NoMemory>
    requires sound { IsSound game.now }
    requires cargo { cargo.0 < length game.now.item_names }
    requires within { IsWithin table.old }
    ensures within { IfOk result (λ done. IsWithin table.new) }
    ensures put { IfOk result (λ done. (middle : List ℕ) → ends_at table.new middle ≡ joined (ends_at table.old middle) (ends_with game.now middle cargo)) }
{
    let name = name_at(&game.item_names, cargo.0);
    for place in 0..name.len() {
        put_cut(game, table, cargo, name, place)?;
    }
    Ok(())
}

// What all cargo gives for each middle.
fn middles_of<'a>(alloc: Global, game: &'a Game, cargo: &[GoodId]) -> Result<Middles<'a>, NoMemory>
    requires sound { IsSound game.now }
    requires cargo { All (λ good. good.0 < length game.now.item_names) cargo.now }
    ensures { IfOk result (Tells game.now cargo.now) }
{
    let mut table = no_middles(alloc);
    for good in cargo {
        put_cargo(game, &mut table, *good)?;
    }
    Ok(table)
}

/// The same, or none where memory for it can't be had.
pub fn known_middles<'a>(alloc: Global, game: &'a Game, cargo: &[GoodId]) -> Option<Middles<'a>>
    requires sound { IsSound game.now }
    requires cargo { All (λ good. good.0 < length game.now.item_names) cargo.now }
    ensures { IfSome result (Tells game.now cargo.now) }
{
    match middles_of(alloc, game, cargo) {
        Ok(table) => Some(table),
        Err(NoMemory) => None,
    }
}
