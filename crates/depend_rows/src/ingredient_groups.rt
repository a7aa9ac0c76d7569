//! What a recipe takes: all goods that are taken at any temperature, and for each ingredient with a bound any good that fits.
ghost use Rattle.std.specs.Prelude.{◌≡◌, ◌+◌, ◌<◌, ◌++◌, ◌∷◌, [], All, IfOk, length};
ghost use Rattle.std.specs.List.{filter_map};
ghost use Rattle.game_types.specs.Temperatures.{fits_alone, fluid_at, is_fit_variant};
ghost use Rattle.game_types.specs.Sound.{IsGood, IsSound, IsSoundRecipe};
ghost use Rattle.depend_index.specs.Indexed.{IsIndex};
ghost use Rattle.graph_store.specs.Members.{named, those};
ghost use Rattle.depend_index.specs.Goods.{good_count};
ghost use Rattle.depend_rows.specs.Goods.{bounded_group, fits, free_good, ingredients, is_free};

use crate::goods::is_base;
use crate::members::{any_of, put_found};
use depend_index::{Index, first_fluid, good_count, numbers_within};
use game_types::{Game, Part, Recipe, is_within};
use graph_store::{Group, in_order, list_of, named};
use plan_base::{GoodId, NoMemory, NodeId};
use std::alloc::Global;

// Whether an ingredient is taken at any temperature.
fn is_free(part: &Part) -> bool
    ensures { result ≡ is_free part.now }
{
    part.low.is_none() && part.high.is_none()
}

fn free_good(part: &Part) -> Option<u32>
    ensures { result ≡ free_good part.now }
{
    if is_free(part) {
        Some(part.good.0)
    } else {
        None
    }
}

// The goods of the ingredients without a bound.
#[tactic(auto, using(plan_base::proofs::Walks::found_next, plan_base::proofs::Walks::found_end))]
fn free_goods(alloc: Global, parts: &[Part]) -> Result<Vec<u32>, NoMemory>
    ensures { IfOk result (λ goods. goods.items ≡ filter_map free_good parts.now) }
{
    let mut goods = Vec::new(alloc);
    for part in parts {
        put_found(&mut goods, free_good(part))?;
    }
    Ok(goods)
}

/// The goods of the ingredients without a bound, as nodes.
#[tactic(auto, unfolding(crate::specs::Goods::ingredients))]
pub fn ingredients(alloc: Global, game: &Game, recipe: &Recipe) -> Result<Vec<NodeId>, NoMemory>
    requires sound { IsSound game.now }
    requires recipe { IsSoundRecipe game.now recipe.now }
    ensures { IfOk result (λ nodes. nodes.items ≡ ingredients game.now recipe.now) }
{
    let goods = free_goods(alloc, recipe.ingredients.as_slice())?;
    named(alloc, 3, good_count(game), goods)
}

// The variants of a base within the bounds of an ingredient.
fn fit_variants(
    alloc: Global,
    game: &Game,
    index: &Index,
    part: &Part,
) -> Result<Vec<NodeId>, NoMemory>
    requires sound { IsSound game.now }
    requires index { IsIndex game.now index.now }
    requires part { part.now.good.0 < good_count game.now }
    ensures { IfOk result (λ nodes. nodes.items ≡ those (is_fit_variant part.now.good.0 part.now.low part.now.high) (3 + length game.now.items) game.now.fluids) }
{
    let first = first_fluid(game);
    let fluids = game.fluids.as_slice();
    let lists = index.coolest_variants.as_slice();
    let variants = list_of(lists, part.good.0);
    let fits = numbers_within(alloc, fluids, first, &part.low, &part.high, variants)?;
    let nodes = in_order(alloc, fits)?;
    Ok(nodes)
}

// Whether a good that is no base fits its own ingredient.
fn fits_alone(game: &Game, part: &Part) -> bool
    ensures { result ≡ fits_alone part.now.low part.now.high (fluid_at game.now part.now.good.0) }
{
    match game.fluid(part.good) {
        Some(fluid) => fluid.of.is_some() || is_within(&part.low, &part.high, &fluid.at),
        None => true,
    }
}

// The good of an ingredient itself.
fn good_itself(alloc: Global, game: &Game, good: GoodId) -> Result<Vec<NodeId>, NoMemory>
    requires sound { IsSound game.now }
    requires good { IsGood game.now good.0 }
    ensures { IfOk result (λ nodes. nodes.items ≡ named 3 (good_count game.now) (good.0 ∷ [])) }
{
    let mut goods = Vec::new(alloc);
    goods.push(good.0)?;
    named(alloc, 3, good_count(game), goods)
}

// The goods that fit an ingredient.
#[tactic(auto, unfolding(crate::specs::Goods::fits))]
fn fits(alloc: Global, game: &Game, index: &Index, part: &Part) -> Result<Vec<NodeId>, NoMemory>
    requires sound { IsSound game.now }
    requires index { IsIndex game.now index.now }
    requires part { IsGood game.now part.now.good.0 }
    ensures { IfOk result (λ nodes. nodes.items ≡ fits game.now part.now) }
{
    if is_base(game, index, part.good.0) {
        fit_variants(alloc, game, index, part)
    } else if fits_alone(game, part) {
        good_itself(alloc, game, part.good)
    } else {
        Ok(Vec::new(alloc))
    }
}

// The group of an ingredient with a bound.
fn bounded_group(
    alloc: Global,
    game: &Game,
    index: &Index,
    part: &Part,
) -> Result<Option<Group>, NoMemory>
    requires sound { IsSound game.now }
    requires index { IsIndex game.now index.now }
    requires part { IsGood game.now part.now.good.0 }
    ensures { IfOk result (λ group. group ≡ bounded_group game.now part.now) }
{
    if is_free(part) {
        return Ok(None);
    }
    let nodes = fits(alloc, game, index, part)?;
    Ok(Some(any_of(nodes)))
}

/// A group for each ingredient with a bound.
#[tactic(auto, using(plan_base::proofs::Walks::found_next, plan_base::proofs::Walks::found_end))]
pub fn push_bounded(
    alloc: Global,
    game: &Game,
    index: &Index,
    parts: &[Part],
    groups: &mut Vec<Group>,
) -> Result<(), NoMemory>
    requires sound { IsSound game.now }
    requires index { IsIndex game.now index.now }
    requires parts { All (λ part. IsGood game.now part.good.0) parts.now }
    ensures { IfOk result (λ done. groups.new.items ≡ groups.old.items ++ filter_map (bounded_group game.now) parts.now) }
{
    for part in parts {
        put_found(groups, bounded_group(alloc, game, index, part)?)?;
    }
    Ok(())
}
