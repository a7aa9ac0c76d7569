//! Why a good can't be made.
ghost use Rattle.game_types.specs.Sound.{IsSound};

use crate::estimates::Estimates;
use game_types::{Energy, Game, Machine, MachineKind, Recipe, holds};
use plan_base::{EntityId, GoodId, Kind, NoMemory, RecipeId};
use std::alloc::Global;
use wish_setups::{
    Reason, State, Unmade, Wish, gives, is_good_marked, is_good_reached, is_marked, is_reached,
    mark_good,
};
use wish_ways::{Give, Way, is_excluded, is_hidden};

// Whether a good of a table is reached: an item or a fluid, electricity, a technology.
fn is_had(game: &Game, reached: &[bool], good: GoodId) -> bool
    requires { IsSound game.now }
{
    let shape = game.shape();
    let power = shape.items + shape.fluids;
    if good.0 < power {
        is_good_reached(game, reached, good)
    } else if good.0 == power {
        is_marked(reached, 1)
    } else {
        is_reached(game, reached, Kind::Tech, good.0 - power - 1)
    }
}

// What a machine does that gives a good.
#[derive(Clone, Copy)]
enum Work {
    /// It crafts recipes of a category.
    Craft(u32),
    /// It heats a fluid, which becomes this one.
    Heat(GoodId),
}

fn does(machine: &Machine, work: Work) -> bool {
    match (&machine.kind, work) {
        (MachineKind::Crafter { categories, .. }, Work::Craft(category)) => {
            holds(categories.as_slice(), category)
        }
        (
            MachineKind::Boiler {
                output: Some(output),
                ..
            },
            Work::Heat(good),
        ) => output.0 == good.0,
        _ => false,
    }
}

// The reason by what a machine takes for its energy, where no row gives it that.
fn reason_by(machine: &Machine, number: EntityId) -> Option<Reason> {
    match machine.energy {
        Energy::Heat => Some(Reason::ByHeat(number)),
        Energy::Fluid { .. } => Some(Reason::ByFluid(number)),
        _ => None,
    }
}

// The reason by the first reached machine that does this work and can't be a row.
fn machine_reason(game: &Game, reached: &[bool], work: Work) -> Option<Reason>
    requires { IsSound game.now }
{
    for place in 0..game.shape().machines {
        if is_reached(game, reached, Kind::Machine, place) {
            if let Some(machine) = game.machines.as_slice().get(place as usize) {
                if does(machine, work) {
                    if let Some(reason) = reason_by(machine, EntityId(place)) {
                        return Some(reason);
                    }
                }
            }
        }
    }
    None
}

// The reason of a recipe that is no way.
fn reason_of(
    game: &Game,
    reached: &[bool],
    wish: &Wish,
    number: RecipeId,
    recipe: &Recipe,
    good: GoodId,
) -> Reason
    requires { IsSound game.now }
{
    if is_excluded(game, wish, number, good) {
        return Reason::Excluded;
    }
    if is_hidden(wish, number) {
        return Reason::Hidden(number);
    }
    match machine_reason(game, reached, Work::Craft(recipe.category)) {
        Some(reason) => reason,
        None => Reason::ByHand(number),
    }
}

// Of the reasons of two recipes the first, unless that is that the game hides it.
fn better(first: Option<Reason>, second: Reason) -> Reason {
    match first {
        Some(Reason::Hidden(_)) | None => match second {
            Reason::Hidden(_) => first.unwrap_or(second),
            _ => second,
        },
        Some(reason) => reason,
    }
}

// The reason of the reached recipes that give a good.
fn recipe_reason(game: &Game, reached: &[bool], wish: &Wish, good: GoodId) -> Option<Reason>
    requires { IsSound game.now }
{
    let mut found = None;
    for place in 0..game.shape().recipes {
        if is_reached(game, reached, Kind::Recipe, place) {
            if let Some(recipe) = game.recipes.as_slice().get(place as usize) {
                if gives(recipe.products.as_slice(), good) {
                    let number = RecipeId(place);
                    let reason = reason_of(game, reached, wish, number, recipe, good);
                    found = Some(better(found, reason));
                }
            }
        }
    }
    found
}

// Why nothing gives a good.
fn no_way(game: &Game, reached: &[bool], wish: &Wish, good: GoodId) -> Reason
    requires { IsSound game.now }
{
    if !is_had(game, reached, good) {
        return Reason::Unreached;
    }
    if let Some(reason) = machine_reason(game, reached, Work::Heat(good)) {
        return reason;
    }
    match recipe_reason(game, reached, wish, good) {
        Some(reason) => reason,
        None => Reason::NoWay,
    }
}

// What is gone over: goods in the order in which they are met.
#[derive(Drop)]
struct Search {
    goods: Vec<GoodId>,
    met: Vec<bool>,
}

impl Search {
    fn meet(&mut self, good: GoodId) -> Result<(), NoMemory> {
        if !is_good_marked(self.met.as_slice(), good) {
            mark_good(self.met.as_mut_slice(), good);
            self.goods.push(good)?;
        }
        Ok(())
    }

    // What a way takes that has no estimate comes in.
    fn meet_lacking(&mut self, estimates: &Estimates, way: &Way) -> Result<(), NoMemory> {
        let network = estimates.network();
        for take in network.takes_of(way) {
            let fits = network.fits_of(take);
            if estimates.cheapest(fits).is_none() {
                self.meet_first(fits)?;
            }
        }
        Ok(())
    }

    fn meet_first(&mut self, fits: &[GoodId]) -> Result<(), NoMemory> {
        match fits.first() {
            Some(good) => self.meet(*good),
            None => Ok(()),
        }
    }

    // What all ways to a good lack comes in. Answers whether there is a way.
    fn meet_ways(&mut self, estimates: &Estimates, good: GoodId) -> Result<bool, NoMemory> {
        let mut any = false;
        for way in estimates.network().ways() {
            if is_way_to(estimates.network().gives_of(way), good) {
                any = true;
                self.meet_lacking(estimates, way)?;
            }
        }
        Ok(any)
    }
}

fn is_way_to(given: &[Give], good: GoodId) -> bool {
    given.iter().any(|give| give.good.0 == good.0)
}

fn nearest(
    game: &Game,
    reached: &[bool],
    wish: &Wish,
    estimates: &Estimates,
    wished: GoodId,
    search: &mut Search,
) -> Result<Unmade, NoMemory>
    requires { IsSound game.now }
{
    search.meet(wished)?;
    let mut last = wished;
    for place in 0..1_000_000usize {
        let good = match search.goods.as_slice().get(place) {
            Some(good) => *good,
            None => break,
        };
        last = good;
        if !search.meet_ways(estimates, good)? {
            return Ok(Unmade {
                wished,
                good,
                reason: no_way(game, reached, wish, good),
            });
        }
    }
    Ok(Unmade {
        wished,
        good: last,
        reason: Reason::NoWay,
    })
}

/// Why a good can't be made that has no estimate: the nearest of the goods that it is made from that nothing gives.
///
/// # Errors
///
/// `NoMemory` where memory could not be had.
pub fn why_unmade(
    alloc: Global,
    game: &Game,
    state: State<'_>,
    wish: &Wish,
    estimates: &Estimates,
    wished: GoodId,
) -> Result<Unmade, NoMemory>
    requires { IsSound game.now }
{
    let mut search = Search {
        goods: Vec::new(alloc),
        met: vec![in alloc; false; game.good_count() as usize]?,
    };
    nearest(game, state.reached, wish, estimates, wished, &mut search)
}
