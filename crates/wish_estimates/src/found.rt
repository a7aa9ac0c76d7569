//! Rows as a walk finds them.
ghost use Rattle.game_types.specs.Sound.{IsSound};

use crate::{Estimates, Take, Way};
use fractions::Ratio;
use game_types::{Activity, Game, Part, Setup, choice_of};
use plan_base::{GoodId, NoMemory};
use std::alloc::Global;
use wish_setups::{State, Wish, best_setup, column_in};

/// What a walk goes over.
#[derive(Clone, Copy)]
pub struct Ground<'a> {
    pub game: &'a Game,
    pub state: State<'a>,
    pub wish: &'a Wish,
    pub estimates: &'a Estimates,
}

/// A set-up, what one craft of it adds to each good, and the number of the way that it is.
#[derive(Drop)]
pub struct Found {
    pub setup: Setup,
    pub column: Vec<(GoodId, Ratio)>,
    pub way: usize,
}

/// What a column adds to a good.
pub fn part_of(column: &[(GoodId, Ratio)], good: GoodId) -> Ratio {
    for part in column {
        if part.0.0 == good.0 {
            return part.1;
        }
    }
    Ratio::zero()
}

// The variant that an ingredient takes, where it isn't the coolest that fits anyway.
fn variant(ground: &Ground<'_>, part: &Part, take: &Take) -> Option<GoodId>
    requires { IsSound ground.now.game.now }
{
    let fits = ground.estimates.network().fits_of(take);
    if fits.len() < 2 {
        return None;
    }
    let cheapest = ground.estimates.cheapest(fits)?;
    match choice_of(ground.game, &[], part.good, part.low, part.high) {
        Some(choice) if choice.0 == cheapest.0 => None,
        _ => Some(cheapest),
    }
}

fn push_variants(
    ground: &Ground<'_>,
    parts: &[Part],
    takes: &[Take],
    at: &mut Vec<GoodId>,
) -> Result<(), NoMemory>
    requires { IsSound ground.now.game.now }
{
    for (part, take) in parts.iter().zip(takes.iter()) {
        if let Some(good) = variant(ground, part, take) {
            at.push(good)?;
        }
    }
    Ok(())
}

// The fluids that a way takes before the coolest that fit: of each ingredient the cheapest.
fn fluids_of(alloc: Global, ground: &Ground<'_>, way: &Way) -> Result<Vec<GoodId>, NoMemory>
    requires { IsSound ground.now.game.now }
{
    let mut at = Vec::new(alloc);
    if let Some(fluid) = way.at {
        at.push(fluid)?;
    }
    if let Activity::Craft(recipe) = way.activity {
        if let Some(recipe) = ground.game.recipes.as_slice().get(recipe.0 as usize) {
            let takes = ground.estimates.network().takes_of(way);
            push_variants(ground, recipe.ingredients.as_slice(), takes, &mut at)?;
        }
    }
    Ok(at)
}

// A set-up with its column, where no number of it is too wide.
fn with_column(
    alloc: Global,
    ground: &Ground<'_>,
    setup: Setup,
    way: usize,
) -> Result<Option<Found>, NoMemory>
    requires { IsSound ground.now.game.now }
{
    match column_in(alloc, ground.game, ground.wish.power, &setup)? {
        Some(column) => Ok(Some(Found { setup, column, way })),
        None => Ok(None),
    }
}

fn is_to_be_had(ground: &Ground<'_>, part: &(GoodId, Ratio)) -> bool {
    !part.1.is_neg() || ground.estimates.is_known(part.0)
}

/// Whether all that a row takes has an estimate.
pub fn is_runnable(ground: &Ground<'_>, found: &Found) -> bool {
    found
        .column
        .as_slice()
        .iter()
        .all(|part| is_to_be_had(ground, part))
}

/// The row of a way by its best machine, where there is one.
///
/// # Errors
///
/// `NoMemory` where memory could not be had.
pub fn found_by(
    alloc: Global,
    ground: &Ground<'_>,
    number: usize,
) -> Result<Option<Found>, NoMemory>
    requires { IsSound ground.now.game.now }
{
    let Some(way) = ground.estimates.way(number) else {
        return Ok(None);
    };
    let at = fluids_of(alloc, ground, way)?;
    let setup = best_setup(
        alloc,
        ground.game,
        ground.state,
        ground.wish,
        way.activity,
        at.as_slice(),
    )?;
    match setup {
        Some(setup) => with_column(alloc, ground, setup, number),
        None => Ok(None),
    }
}
