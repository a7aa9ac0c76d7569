//! The names that flights of rockets take, and those that a dump has of its own.
ghost use Rattle.std.specs.Prelude.{◌≡◌, ◌≢◌, ◌<◌, ◌+◌, ◌==◌, Some, None, drop, length, take, slice_index_or};
ghost use Rattle.std.specs.Option.{MatchOption};
ghost use Rattle.game_types.specs.Sound.{IsSound};
ghost use Rattle.rocket_launches.specs.Clashes.{cargo_named, dumped_flight, earlier_of, flight_cut, flight_named, is_before, later_of, least_below, least_in, silo_named, sooner};

use crate::silos::{Flight, Silo, cargo_of, silo_of};
use game_types::Game;
use plan_base::{EntityId, GoodId};

// Whether a flight comes before another.
#[tactic(auto, unfolding(crate::specs::Clashes::is_before))]
fn is_before(first: &Flight, second: &Flight) -> bool
    ensures { result ≡ is_before first.now second.now }
{
    first.silo.machine.0 < second.silo.machine.0
        || (first.silo.machine.0 == second.silo.machine.0 && first.cargo.0 < second.cargo.0)
}

fn earlier_of(first: Flight, second: Flight) -> Flight
    ensures { result ≡ earlier_of first second }
{
    if is_before(&second, &first) {
        second
    } else {
        first
    }
}

pub fn later_of(first: Flight, second: Flight) -> Flight
    ensures { result ≡ later_of first second }
{
    if is_before(&first, &second) {
        second
    } else {
        first
    }
}

// The earlier of two flights, where there are two.
pub fn sooner(first: Option<Flight>, second: Option<Flight>) -> Option<Flight>
    ensures { result ≡ sooner first second }
{
    match first {
        None => second,
        Some(first) => match second {
            None => Some(first),
            Some(second) => Some(earlier_of(first, second)),
        },
    }
}

// The silo of a name.
#[tactic(auto, unfolding(crate::specs::Clashes::silo_named))]
pub fn silo_named(game: &Game, name: &str) -> Option<Silo>
    requires { IsSound game.now }
    ensures { result ≡ silo_named game.now name.now }
{
    match game.machine_names.find(name) {
        Some(number) => silo_of(game, number, game.machine(EntityId(number))),
        None => None,
    }
}

// The cargo of a name.
#[tactic(auto, unfolding(crate::specs::Clashes::cargo_named))]
pub fn cargo_named(game: &Game, name: &str) -> Option<GoodId>
    requires { IsSound game.now }
    ensures { result ≡ cargo_named game.now name.now }
{
    match game.item_names.find(name) {
        Some(number) => cargo_of(number, game.item(GoodId(number))),
        None => None,
    }
}

// The flight of the silo and the cargo of two names.
#[tactic(auto, unfolding(crate::specs::Clashes::flight_named))]
fn flight_named(game: &Game, before: &str, behind: &str) -> Option<Flight>
    requires { IsSound game.now }
    ensures { result ≡ flight_named game.now before.now behind.now }
{
    match silo_named(game, before) {
        Some(silo) => match cargo_named(game, behind) {
            Some(cargo) => Some(Flight { silo, cargo }),
            None => None,
        },
        None => None,
    }
}

// What stands before and behind a place, where a colon stands there.
pub fn cut(text: &str, place: usize) -> Option<(&str, &str)>
    requires { place < length text.now }
    ensures { MatchOption result (slice_index_or text.now place 0 ≢ 58) (λ parts. (slice_index_or text.now place 0 ≡ 58) × (parts.0.now ≡ take place text.now) × (parts.1.now ≡ drop (place + 1) text.now)) }
{
    if text.as_bytes()[place] != b':' {
        return None;
    }
    let (before, rest) = text.split_at(place);
    match rest.strip_prefix(':') {
        Some(behind) => Some((before, behind)),
        None => None,
    }
}

// The flight that a text names which is cut at a place.
#[tactic(auto, unfolding(crate::specs::Clashes::flight_cut))]
fn flight_cut(game: &Game, text: &str, place: usize) -> Option<Flight>
    requires sound { IsSound game.now }
    requires within { place < length text.now }
    ensures { result ≡ flight_cut game.now text.now place }
{
    match cut(text, place) {
        Some((before, behind)) => flight_named(game, before, behind),
        None => None,
    }
}

// The earliest flight that a text names.
#[tactic(auto, using(crate::proofs::Earliest::none_yet, crate::proofs::Earliest::one_further))]
fn flight_in(game: &Game, text: &str) -> Option<Flight>
    requires { IsSound game.now }
    ensures { result ≡ least_below (flight_cut game.now text.now) (length text.now) }
{
    let mut least = None;
    for place in 0..text.len() {
        least = sooner(least, flight_cut(game, text, place));
    }
    least
}

// The earliest flight that the name of a recipe of the dump names.
fn dumped_flight(game: &Game, name: &str) -> Option<Flight>
    requires { IsSound game.now }
    ensures { result ≡ dumped_flight game.now name.now }
{
    match name.strip_prefix("launch:") {
        Some(text) => flight_in(game, text),
        None => None,
    }
}

// The earliest flight that a recipe of the dump names.
#[tactic(auto, using(crate::proofs::Earliest::none_yet))]
pub fn earliest_dumped(game: &Game) -> Option<Flight>
    requires { IsSound game.now }
    ensures { result ≡ least_in (dumped_flight game.now) game.now.recipe_names }
{
    let mut least = None;
    for number in 0..game.recipe_names.len() {
        let name = game.recipe_names.name_of(number);
        least = sooner(least, dumped_flight(game, name));
    }
    least
}
