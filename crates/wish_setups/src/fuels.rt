//! The fuel of a machine: one that is at hand, and of these the best.
ghost use Rattle.std.specs.Prelude.{◌≡◌, ◌<◌, Option, None, Some, length};
ghost use Rattle.wish_setups.specs.Choice.{best_below, best_fuel, burner_fuel, fuel_for, fuel_rank, good_at, is_burner, is_import, is_raw, rank_at, rank_of_fuel, value_in, value_of};

use crate::Wish;
use crate::imports::is_import;
use crate::ranks::{Rank, better};
use crate::reach::is_good_marked;
use fractions::Ratio;
use game_types::{Energy, Fuel, Game, takes_fuel};
use plan_base::GoodId;

// The energy of a fuel that a burner takes.
fn value_of(energy: &Energy, fuel: &Option<Fuel>) -> Option<Ratio>
    ensures { result ≡ value_of energy.now fuel.now }
{
    let Some(fuel) = fuel else {
        return None;
    };
    if takes_fuel(energy, fuel) {
        Some(fuel.value)
    } else {
        None
    }
}

// The energy of an item that a burner takes.
#[tactic(auto, unfolding(crate::specs::Choice::value_in))]
fn value_in(game: &Game, energy: &Energy, good: GoodId) -> Option<Ratio>
    ensures { result ≡ value_in game.now energy.now good }
{
    match game.items.as_slice().get(good.0 as usize) {
        Some(item) => value_of(energy, &item.fuel),
        None => None,
    }
}

// Whether a fuel is taken as it is.
fn is_raw(wish: &Wish, mined: &[bool], good: GoodId) -> bool
    ensures { result ≡ is_raw wish.now mined.now good }
{
    is_good_marked(mined, good) || is_import(wish, good)
}

fn fuel_rank(raw: bool, value: &Ratio) -> Rank
    ensures { result ≡ fuel_rank raw value.now }
{
    let place = if raw { 0 } else { 1 };
    Rank {
        place,
        wastes: false,
        heat: value.neg(),
        machines: Ratio::zero(),
        burns: false,
    }
}

// The rank of an item as a fuel, where the burner takes it.
fn rank_of_fuel(
    game: &Game,
    wish: &Wish,
    mined: &[bool],
    energy: &Energy,
    good: GoodId,
) -> Option<Rank>
    ensures { result ≡ rank_of_fuel game.now wish.now mined.now energy.now good }
{
    match value_in(game, energy, good) {
        Some(value) => Some(fuel_rank(is_raw(wish, mined, good), &value)),
        None => None,
    }
}

// The rank of the fuel at a place of a list.
fn rank_at(
    game: &Game,
    wish: &Wish,
    mined: &[bool],
    energy: &Energy,
    fuels: &[GoodId],
    place: usize,
) -> Option<Rank>
    ensures { result ≡ rank_at game.now wish.now mined.now energy.now fuels.now place }
{
    match fuels.get(place) {
        Some(good) => rank_of_fuel(game, wish, mined, energy, *good),
        None => None,
    }
}

// The best of some fuels, with its place.
fn best_place(
    game: &Game,
    wish: &Wish,
    mined: &[bool],
    fuels: &[GoodId],
    energy: &Energy,
) -> Option<(usize, Rank)>
    ensures { result ≡ best_below (rank_at game.now wish.now mined.now energy.now fuels.now) (length fuels.now) }
{
    let mut best = None;
    for place in 0..fuels.len() {
        let rank = rank_at(game, wish, mined, energy, fuels, place);
        best = better(best, place, rank);
    }
    best
}

// The fuel at the place of the best.
fn good_at(fuels: &[GoodId], best: Option<(usize, Rank)>) -> Option<GoodId>
    ensures { result ≡ good_at fuels.now best }
{
    let Some(best) = best else {
        return None;
    };
    match fuels.get(best.0) {
        Some(good) => Some(*good),
        None => None,
    }
}

// The best of some fuels.
#[tactic(auto, unfolding(crate::specs::Choice::best_fuel))]
fn best_fuel(
    game: &Game,
    wish: &Wish,
    mined: &[bool],
    fuels: &[GoodId],
    energy: &Energy,
) -> Option<GoodId>
    ensures { result ≡ best_fuel game.now wish.now mined.now fuels.now energy.now }
{
    good_at(fuels, best_place(game, wish, mined, fuels, energy))
}

// The fuel that a burner burns: the wish's where it takes that, else the best.
fn burner_fuel(
    game: &Game,
    wish: &Wish,
    mined: &[bool],
    fuels: &[GoodId],
    energy: &Energy,
) -> Option<GoodId>
    ensures { result ≡ burner_fuel game.now wish.now mined.now fuels.now energy.now wish.now.fuel }
{
    if let Some(good) = wish.fuel {
        if value_in(game, energy, good).is_some() {
            return Some(good);
        }
    }
    best_fuel(game, wish, mined, fuels, energy)
}

fn is_burner(energy: &Energy) -> bool
    ensures { result ≡ is_burner energy.now }
{
    match energy {
        Energy::Burner { .. } => true,
        _ => false,
    }
}

// The fuel that a machine burns. None where it is no burner.
#[tactic(auto, unfolding(crate::specs::Choice::fuel_for))]
pub fn fuel_for(
    game: &Game,
    wish: &Wish,
    mined: &[bool],
    fuels: &[GoodId],
    energy: &Energy,
) -> Option<GoodId>
    ensures { result ≡ fuel_for game.now wish.now mined.now fuels.now energy.now }
{
    if is_burner(energy) {
        burner_fuel(game, wish, mined, fuels, energy)
    } else {
        None
    }
}
