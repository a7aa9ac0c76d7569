//! The recipes as ways.
ghost use Rattle.game_types.specs.Sound.{IsSound};

use crate::crafters::{Crafter, Crafters};
use crate::network::Network;
use crate::numbers::float_of;
use game_types::{Activity, Fluid, Game, Part, Product, Recipe, is_within};
use plan_base::{GoodId, Kind, NoMemory, RecipeId};
use wish_setups::{Cheapest, State, Wish, gives, is_good_marked, is_marked, is_reached, mark_good};

/// What a product is expected to give, nearly.
pub fn expected(product: &Product) -> f64 {
    (float_of(&product.low) + float_of(&product.high)) / 2.0 * float_of(&product.probability)
}

// What one craft costs beside what it takes: a little time, or what the wish is to take least of.
fn own_cost(wish: &Wish, recipe: &Recipe, crafter: &Crafter) -> f64 {
    let time = float_of(&recipe.time);
    let machines = if crafter.speed > 0.0 {
        time / crafter.speed
    } else {
        time
    };
    let little = 0.02 + 0.05 * time;
    match wish.cheapest {
        Cheapest::Cost => little,
        Cheapest::Power => little + crafter.power * machines,
        Cheapest::Pollution => little * 0.001 + crafter.pollution * machines,
        Cheapest::Machines => little * 0.001 + machines,
    }
}

fn is_variant(fluid: &Fluid, base: GoodId, part: &Part) -> bool {
    match fluid.of {
        Some(of) => of.0 == base.0 && is_within(&part.low, &part.high, &fluid.at),
        None => false,
    }
}

// The variants of a base that an ingredient takes.
fn push_variants(game: &Game, part: &Part, network: &mut Network) -> Result<(), NoMemory>
    requires { IsSound game.now }
{
    let first = game.shape().items;
    for (place, fluid) in game.fluids.as_slice().iter().enumerate() {
        if is_variant(fluid, part.good, part) {
            network.push_fit(GoodId(first.saturating_add((place % 0x1_0000_0000) as u32)))?;
        }
    }
    Ok(())
}

// The goods that an ingredient takes.
fn push_fits(
    game: &Game,
    bases: &[bool],
    part: &Part,
    network: &mut Network,
) -> Result<(), NoMemory>
    requires { IsSound game.now }
{
    if is_good_marked(bases, part.good) {
        push_variants(game, part, network)
    } else {
        network.push_fit(part.good)
    }
}

fn push_takes(
    game: &Game,
    bases: &[bool],
    parts: &[Part],
    network: &mut Network,
) -> Result<(), NoMemory>
    requires { IsSound game.now }
{
    for part in parts {
        let from = network.next_fit();
        push_fits(game, bases, part, network)?;
        network.push_take(from, float_of(&part.amount))?;
    }
    Ok(())
}

// What a product gives, where the wish leaves that to the recipe.
fn push_gives(
    held: &[bool],
    is_only: bool,
    products: &[Product],
    network: &mut Network,
) -> Result<(), NoMemory> {
    for product in products {
        let amount = expected(product);
        if amount > 0.0 && (is_only || !is_good_marked(held, product.good)) {
            network.push_give(product.good, amount)?;
        }
    }
    Ok(())
}

fn has_recipe(recipes: &[RecipeId], recipe: RecipeId) -> bool {
    recipes.iter().any(|other| other.0 == recipe.0)
}

/// Whether the wish excludes a recipe as a way to a good.
pub fn is_excluded(game: &Game, wish: &Wish, recipe: RecipeId, good: GoodId) -> bool {
    has_recipe(wish.without.as_slice(), recipe)
        || (!has_recipe(wish.only.as_slice(), recipe) && is_held(game, wish, good))
}

/// Whether the game hides a recipe, and the wish doesn't name it among its only ones.
pub fn is_hidden(wish: &Wish, recipe: RecipeId) -> bool {
    is_marked(wish.hidden.as_slice(), recipe.0 as usize)
        && !has_recipe(wish.only.as_slice(), recipe)
}

// Whether one of the wish's only recipes gives a good.
fn is_held(game: &Game, wish: &Wish, good: GoodId) -> bool {
    wish.only
        .as_slice()
        .iter()
        .any(|only| is_given_by(game, *only, good))
}

fn is_given_by(game: &Game, recipe: RecipeId, good: GoodId) -> bool {
    match game.recipes.as_slice().get(recipe.0 as usize) {
        Some(recipe) => gives(recipe.products.as_slice(), good),
        None => false,
    }
}

/// Marks the goods that the wish's only recipes give.
pub fn mark_held(game: &Game, wish: &Wish, held: &mut [bool]) {
    for only in wish.only.as_slice() {
        if let Some(recipe) = game.recipes.as_slice().get(only.0 as usize) {
            mark_given(recipe.products.as_slice(), held);
        }
    }
}

fn mark_given(products: &[Product], held: &mut [bool]) {
    for product in products {
        mark_good(held, product.good);
    }
}

// What is known while recipes come in: bases among fluids, and goods that only some recipes may give.
#[derive(Clone, Copy)]
pub struct Marks<'a> {
    pub bases: &'a [bool],
    pub held: &'a [bool],
}

fn push_recipe(
    game: &Game,
    wish: &Wish,
    marks: Marks<'_>,
    number: RecipeId,
    recipe: &Recipe,
    crafter: &Crafter,
    network: &mut Network,
) -> Result<(), NoMemory>
    requires { IsSound game.now }
{
    let takes = network.next_take();
    let given = network.next_give();
    push_takes(game, marks.bases, recipe.ingredients.as_slice(), network)?;
    let is_only = has_recipe(wish.only.as_slice(), number);
    push_gives(marks.held, is_only, recipe.products.as_slice(), network)?;
    let own = own_cost(wish, recipe, crafter);
    network.push_way(Activity::Craft(number), None, own, takes, given)
}

fn push_reached(
    game: &Game,
    state: State<'_>,
    wish: &Wish,
    crafters: &Crafters,
    marks: Marks<'_>,
    place: u32,
    network: &mut Network,
) -> Result<(), NoMemory>
    requires { IsSound game.now }
{
    let number = RecipeId(place);
    let Some(recipe) = game.recipes.as_slice().get(place as usize) else {
        return Ok(());
    };
    if has_recipe(wish.without.as_slice(), number) || is_hidden(wish, number) {
        return Ok(());
    }
    match crafters.crafter(game, state.reached, number, recipe) {
        Some(crafter) => push_recipe(game, wish, marks, number, recipe, &crafter, network),
        None => Ok(()),
    }
}

/// The reached recipes come in that a row can craft.
pub fn push_recipes(
    game: &Game,
    state: State<'_>,
    wish: &Wish,
    crafters: &Crafters,
    marks: Marks<'_>,
    network: &mut Network,
) -> Result<(), NoMemory>
    requires { IsSound game.now }
{
    for place in 0..game.shape().recipes {
        if is_reached(game, state.reached, Kind::Recipe, place) {
            push_reached(game, state, wish, crafters, marks, place, network)?;
        }
    }
    Ok(())
}
