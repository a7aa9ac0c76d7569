//! What is made of fluids, and at which temperature.
ghost use Rattle.std.specs.Prelude.{◌≡◌, ◌++◌, [], IfOk, Some, option_map};
ghost use Rattle.std.specs.List.{cons_option, filter_map, flat_map};
ghost use Rattle.game_types.specs.Sound.{IsSound};
ghost use Rattle.game_types.specs.Temperatures.{fluid_at};
ghost use Rattle.fluid_variants.specs.Temperatures.{all_made, default_of, heat_of, machine_made, or_default, output_default, product_made};

use fractions::{Ratio, is_positive};
use game_types::{Fluid, Game, MachineKind, Product};
use plan_base::{GoodId, NoMemory};
use std::alloc::Global;

/// A fluid that something makes, and the temperature that it has then.
#[derive(Clone, Copy)]
pub struct Made {
    pub good: GoodId,
    /// In degrees.
    pub at: Ratio,
}

fn or_default(at: Option<Ratio>, fluid: &Fluid) -> Ratio
    ensures { result ≡ or_default at fluid.now }
{
    match at {
        Some(at) => at,
        None => fluid.default_temperature,
    }
}

/// What a product makes, where it is a fluid.
#[tactic(auto, unfolding(crate::specs::Temperatures::product_made))]
pub fn product_made(game: &Game, product: &Product) -> Option<Made>
    ensures { result ≡ product_made game.now product.now }
{
    match game.fluid(product.good) {
        Some(fluid) => Some(Made {
            good: product.good,
            at: or_default(product.temperature, fluid),
        }),
        None => None,
    }
}

// The default temperature of a good; 0 where it is no fluid.
fn default_at(game: &Game, good: GoodId) -> Ratio
    ensures { result ≡ default_of (fluid_at game.now good.0) }
{
    match game.fluid(good) {
        Some(fluid) => fluid.default_temperature,
        None => Ratio::zero(),
    }
}

fn output_default(game: &Game, output: Option<GoodId>) -> Ratio
    ensures { result ≡ output_default game.now output }
{
    match output {
        Some(good) => default_at(game, good),
        None => Ratio::zero(),
    }
}

/// The temperature to which a boiler heats.
#[tactic(auto, unfolding(crate::specs::Temperatures::heat_of))]
pub fn heat_of(game: &Game, output: Option<GoodId>, target: &Ratio) -> Ratio
    ensures { result ≡ heat_of game.now output target.now }
{
    if is_positive(target) {
        *target
    } else {
        output_default(game, output)
    }
}

// What a boiler makes.
fn heated(game: &Game, output: GoodId, target: &Ratio) -> Made
    ensures { result ≡ record { good = output; at = heat_of game.now (Some output) target.now } }
{
    Made {
        good: output,
        at: heat_of(game, Some(output), target),
    }
}

/// What a machine makes.
#[tactic(auto, unfolding(crate::specs::Temperatures::machine_made))]
pub fn machine_made(game: &Game, kind: &MachineKind) -> Option<Made>
    ensures { result ≡ machine_made game.now kind.now }
{
    match kind {
        MachineKind::Pump { fluid, .. } => Some(Made {
            good: *fluid,
            at: default_at(game, *fluid),
        }),
        MachineKind::Boiler {
            output: Some(output),
            temperature,
            ..
        } => Some(heated(game, *output, temperature)),
        _ => None,
    }
}

// One more at the end, where it is there.
fn put_found<T: Drop>(list: &mut Vec<T>, found: Option<T>) -> Result<(), NoMemory>
    ensures { IfOk result (λ done. list.new.items ≡ list.old.items ++ cons_option found []) }
{
    if let Some(value) = found {
        list.push(value)?;
    }
    Ok(())
}

#[tactic(auto, using(plan_base::proofs::Walks::found_next, plan_base::proofs::Walks::found_end))]
fn put_products(list: &mut Vec<Made>, game: &Game, products: &[Product]) -> Result<(), NoMemory>
    ensures { IfOk result (λ done. list.new.items ≡ list.old.items ++ filter_map (product_made game.now) products.now) }
{
    for product in products {
        put_found(list, product_made(game, product))?;
    }
    Ok(())
}

#[tactic(auto, using(plan_base::proofs::Walks::flat_next, plan_base::proofs::Walks::flat_end))]
fn put_recipes(list: &mut Vec<Made>, game: &Game) -> Result<(), NoMemory>
    ensures { IfOk result (λ done. list.new.items ≡ list.old.items ++ flat_map (λ recipe. filter_map (product_made game.now) recipe.products) game.now.recipes) }
{
    for recipe in game.recipes.as_slice() {
        put_products(list, game, recipe.products.as_slice())?;
    }
    Ok(())
}

#[tactic(auto, using(plan_base::proofs::Walks::flat_next, plan_base::proofs::Walks::flat_end))]
fn put_sources(list: &mut Vec<Made>, game: &Game) -> Result<(), NoMemory>
    ensures { IfOk result (λ done. list.new.items ≡ list.old.items ++ flat_map (λ source. filter_map (product_made game.now) source.products) game.now.sources) }
{
    for source in game.sources.as_slice() {
        put_products(list, game, source.products.as_slice())?;
    }
    Ok(())
}

#[tactic(auto, using(plan_base::proofs::Walks::found_next, plan_base::proofs::Walks::found_end))]
fn put_machines(list: &mut Vec<Made>, game: &Game) -> Result<(), NoMemory>
    ensures { IfOk result (λ done. list.new.items ≡ list.old.items ++ filter_map (λ machine. machine_made game.now machine.kind) game.now.machines) }
{
    for machine in game.machines.as_slice() {
        put_found(list, machine_made(game, &machine.kind))?;
    }
    Ok(())
}

/// What all recipes, sources and machines make of fluids.
#[tactic(auto, unfolding(crate::specs::Temperatures::all_made))]
pub fn all_made(alloc: Global, game: &Game) -> Result<Vec<Made>, NoMemory>
    ensures { IfOk result (λ list. list.items ≡ all_made game.now) }
{
    let mut list = Vec::new(alloc);
    put_recipes(&mut list, game)?;
    put_sources(&mut list, game)?;
    put_machines(&mut list, game)?;
    Ok(list)
}
