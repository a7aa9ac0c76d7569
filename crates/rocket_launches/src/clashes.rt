//! Which launch is the first whose name is taken, told by what the names are made of: no launch and no name is made.
ghost use Rattle.std.specs.Prelude.{◌≡◌, ◌≢◌, ◌<◌, All, IfSome, IsSomeAnd, None, length, option_and_then};
ghost use Rattle.std.specs.Bool.{OnTrue};
ghost use Rattle.name_table.specs.Names.{AreDifferent};
ghost use Rattle.game_types.specs.Sound.{IsSound};
ghost use Rattle.rocket_launches.specs.Launches.{cargo_in, flight_taken, name_at, silos_in};
ghost use Rattle.rocket_launches.specs.Clashes.{IsWithin, Tells, clash_cut, clash_of, clash_with, earliest_taken, ends_at, later_with, least_in};

use crate::cargo_middles::{ends_with, known_middles};
use crate::flight_names::{cut, earliest_dumped, later_of, silo_named, sooner};
use crate::launches::name_at;
use crate::middles::{Ends, Middles, ends_of, is_beyond};
use crate::silos::{Flight, Silo};
use game_types::Game;
use name_table::NAME_LIMIT;
use plan_base::GoodId;
use std::alloc::Global;

// The later of two flights with one name, of two silos and of cargo that has the middle of their names.
fn later_with(short: &Silo, long: &Silo, ends: Option<Ends>) -> Option<Flight>
    ensures { result ≡ option_and_then (later_with short.now long.now) ends }
{
    match ends {
        Some(ends) => Some(later_of(
            Flight {
                silo: *short,
                cargo: ends.whole,
            },
            Flight {
                silo: *long,
                cargo: ends.rest,
            },
        )),
        None => None,
    }
}

// The same for one cargo, where it has the middle.
#[tactic(auto, unfolding(crate::specs::Clashes::clash_with))]
fn clash_with(game: &Game, short: &Silo, long: &Silo, middle: &str, cargo: GoodId) -> Option<Flight>
    requires sound { IsSound game.now }
    requires within { cargo.0 < length game.now.item_names }
    ensures { result ≡ clash_with game.now short.now long.now middle.now cargo }
{
    later_with(short, long, ends_with(game, middle, cargo))
}

// The earliest of them for all cargo, each of which is looked at.
#[tactic(auto, using(crate::proofs::Earliest::none_yet))]
fn clash_among(
    game: &Game,
    cargo: &[GoodId],
    short: &Silo,
    long: &Silo,
    middle: &str,
) -> Option<Flight>
    requires sound { IsSound game.now }
    requires cargo { All (λ good. good.0 < length game.now.item_names) cargo.now }
    ensures { result ≡ least_in (clash_with game.now short.now long.now middle.now) cargo.now }
{
    let mut least = None;
    for good in cargo {
        least = sooner(least, clash_with(game, short, long, middle, *good));
    }
    least
}

// The earliest of them for all cargo. With a table one look is enough.
fn clash_between(
    game: &Game,
    cargo: &[GoodId],
    table: &Option<Middles>,
    short: &Silo,
    long: &Silo,
    middle: &str,
) -> Option<Flight>
    requires sound { IsSound game.now }
    requires cargo { All (λ good. good.0 < length game.now.item_names) cargo.now }
    requires table { IfSome table.now (Tells game.now cargo.now) }
    requires apart { short.now.machine.0 ≢ long.now.machine.0 }
    ensures { result ≡ least_in (clash_with game.now short.now long.now middle.now) cargo.now }
{
    match table {
        Some(middles) => later_with(short, long, ends_of(middles, middle)),
        None => clash_among(game, cargo, short, long, middle),
    }
}

// Whether a table tells by its length that no cargo gives anything for a middle.
fn has_none(table: &Option<Middles>, middle: &str) -> bool
    requires { IfSome table.now IsWithin }
    ensures { OnTrue result (IsSomeAnd table.now (λ middles. ends_at middles middle.now ≡ None)) }
{
    match table {
        Some(middles) => is_beyond(middles, middle),
        None => false,
    }
}

// The earliest of them for a silo whose name is cut at a place.
#[tactic(auto, unfolding(crate::specs::Clashes::clash_cut))]
fn clash_cut(
    game: &Game,
    cargo: &[GoodId],
    table: &Option<Middles>,
    long: &Silo,
    name: &str,
    place: usize,
) -> Option<Flight>
    requires sound { IsSound game.now }
    requires cargo { All (λ good. good.0 < length game.now.item_names) cargo.now }
    requires table { IfSome table.now (Tells game.now cargo.now) }
    requires name { name.now ≡ name_at game.now.machine_names long.now.machine.0 }
    requires within { place < length name.now }
    ensures { result ≡ clash_cut game.now cargo.now long.now place }
{
    match cut(name, place) {
        Some((before, middle)) => {
            if has_none(table, middle) {
                return None;
            }
            match silo_named(game, before) {
                Some(short) => clash_between(game, cargo, table, &short, long, middle),
                None => None,
            }
        }
        None => None,
    }
}

// The earliest of them for a silo with the longer name.
#[tactic(auto, unfolding(crate::specs::Clashes::clash_of), using(crate::proofs::Earliest::none_yet, crate::proofs::Earliest::one_further))]
fn clash_of(game: &Game, cargo: &[GoodId], table: &Option<Middles>, long: &Silo) -> Option<Flight>
    requires sound { IsSound game.now }
    requires cargo { All (λ good. good.0 < length game.now.item_names) cargo.now }
    requires table { IfSome table.now (Tells game.now cargo.now) }
    requires long { long.now.machine.0 < length game.now.machine_names }
    ensures { result ≡ clash_of game.now cargo.now long.now }
{
    let name = name_at(&game.machine_names, long.machine.0);
    let mut least = None;
    for place in 0..name.len() {
        least = sooner(least, clash_cut(game, cargo, table, long, name, place));
    }
    least
}

// The earliest of them for all silos.
#[tactic(auto, using(crate::proofs::Earliest::none_yet))]
fn earliest_clash(
    game: &Game,
    silos: &[Silo],
    cargo: &[GoodId],
    table: &Option<Middles>,
) -> Option<Flight>
    requires sound { IsSound game.now }
    requires cargo { All (λ good. good.0 < length game.now.item_names) cargo.now }
    requires table { IfSome table.now (Tells game.now cargo.now) }
    requires silos { All (λ silo. silo.machine.0 < length game.now.machine_names) silos.now }
    ensures { result ≡ least_in (clash_of game.now cargo.now) silos.now }
{
    let mut least = None;
    for silo in silos {
        least = sooner(least, clash_of(game, cargo, table, silo));
    }
    least
}

// The earliest flight whose launch has the name of a recipe of the dump or of an earlier flight, by what names are made of.
#[tactic(auto, unfolding(crate::specs::Clashes::earliest_taken))]
fn earliest_taken(
    game: &Game,
    silos: &[Silo],
    cargo: &[GoodId],
    table: &Option<Middles>,
) -> Option<Flight>
    requires sound { IsSound game.now }
    requires cargo { All (λ good. good.0 < length game.now.item_names) cargo.now }
    requires table { IfSome table.now (Tells game.now cargo.now) }
    requires silos { All (λ silo. silo.machine.0 < length game.now.machine_names) silos.now }
    ensures { result ≡ earliest_taken game.now silos.now cargo.now }
{
    sooner(
        earliest_dumped(game),
        earliest_clash(game, silos, cargo, table),
    )
}

// No two machines have the same name, and no two items.
fn names_differ(game: &Game)
    ensures machines { AreDifferent game.now.machine_names }
    ensures items { AreDifferent game.now.item_names }
{
    prove!(game.machine_names.len() as usize <= NAME_LIMIT);
    prove!(game.item_names.len() as usize <= NAME_LIMIT);
}

/// The first flight whose launch has the name of a recipe of the dump or of an earlier flight. Without memory it is found too, by more
/// looks.
pub fn flight_taken(alloc: Global, game: &Game, silos: &[Silo], cargo: &[GoodId]) -> Option<Flight>
    requires sound { IsSound game.now }
    requires silos { silos.now ≡ silos_in game.now }
    requires cargo { cargo.now ≡ cargo_in game.now }
    ensures { result ≡ flight_taken game.now }
{
    names_differ(game);
    let table = known_middles(alloc, game, cargo);
    earliest_taken(game, silos, cargo, &table)
}
