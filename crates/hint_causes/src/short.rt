//! Which good a table without a plan is short of.
ghost use Rattle.game_types.specs.Sound.{IsSound};

use crate::names::node_text;
use fractions::{Ratio, is_positive};
use game_types::Game;
use line_causes::Short;
use linear_table::Linear;
use plan_base::{GoodId, NoMemory, Text};
use std::alloc::Global;

// Whether some column gives the good at a place.
fn is_given(linear: &Linear, place: u32) -> bool {
    linear.columns.as_slice().iter().any(|column| {
        column
            .parts
            .as_slice()
            .iter()
            .any(|(good, amount)| *good == place && is_positive(amount))
    })
}

// The word of a good.
fn good_text(alloc: Global, game: &Game, good: GoodId) -> Result<Option<Text>, NoMemory>
    requires { IsSound game.now }
{
    if good.0 < game.good_count() {
        node_text(alloc, game, game.good_node(good))
    } else {
        Ok(None)
    }
}

// Whether a good is a variant of a base.
fn is_variant(game: &Game, good: GoodId, base: GoodId) -> bool {
    match game.fluid(good) {
        Some(fluid) => match fluid.of {
            Some(of) => of.0 == base.0,
            None => false,
        },
        None => false,
    }
}

// The first variant of a base that some column gives.
fn variant_of(game: &Game, linear: &Linear, base: GoodId) -> Option<GoodId> {
    let mut place: u32 = 0;
    for good in linear.goods.as_slice() {
        if is_variant(game, *good, base) && is_given(linear, place) {
            return Some(*good);
        }
        place = place.saturating_add(1);
    }
    None
}

// Of a good that no column gives.
fn ungiven(
    alloc: Global,
    game: &Game,
    linear: &Linear,
    good: GoodId,
) -> Result<Option<Short>, NoMemory>
    requires { IsSound game.now }
{
    let Some(word) = good_text(alloc, game, good)? else {
        return Ok(None);
    };
    let variant = match variant_of(game, linear, good) {
        Some(variant) => good_text(alloc, game, variant)?,
        None => None,
    };
    Ok(Some(match variant {
        Some(variant) => Short::Warmer {
            base: word,
            variant,
        },
        None => Short::Ungiven(word),
    }))
}

// The first good with a price that no column gives.
fn first_ungiven(linear: &Linear, prices: &[Ratio]) -> Option<GoodId> {
    let mut place: u32 = 0;
    for (good, price) in linear.goods.as_slice().iter().zip(prices.iter()) {
        if is_positive(price) && !is_given(linear, place) {
            return Some(*good);
        }
        place = place.saturating_add(1);
    }
    None
}

// The first good with a price that is wanted.
fn first_wanted(linear: &Linear, prices: &[Ratio]) -> Option<GoodId> {
    let goods = linear.goods.as_slice().iter().zip(prices.iter());
    for ((good, price), want) in goods.zip(linear.wants.as_slice().iter()) {
        if is_positive(price) && is_positive(want) {
            return Some(*good);
        }
    }
    None
}

/// Which good a table is short of that has no plan, by prices that show that it has none; or none where that can't be told.
///
/// # Errors
///
/// `NoMemory` where memory could not be had.
pub fn short_of(
    alloc: Global,
    game: &Game,
    linear: &Linear,
    prices: &[Ratio],
) -> Result<Option<Short>, NoMemory>
    requires { IsSound game.now }
{
    if let Some(good) = first_ungiven(linear, prices) {
        return ungiven(alloc, game, linear, good);
    }
    match first_wanted(linear, prices) {
        Some(good) => Ok(good_text(alloc, game, good)?.map(Short::Unmet)),
        None => Ok(None),
    }
}
