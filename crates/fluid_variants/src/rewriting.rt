//! The lists of a game with its goods numbered anew.
ghost use Rattle.std.specs.Prelude.{◌≡◌, [], IfOk, map};
ghost use Rattle.fluid_variants.specs.Records.{new_machine, new_recipe, new_source};

use crate::renumbering::{Renumber, new_machine, new_recipe, new_source};
use game_types::{Game, Machine, Recipe, Source};
use plan_base::NoMemory;
use std::alloc::Global;

/// The recipes.
#[tactic(auto, using(plan_base::proofs::Walks::map_next, plan_base::proofs::Walks::map_end))]
pub fn new_recipes<R: Renumber>(alloc: Global, game: &Game, by: &R) -> Result<Vec<Recipe>, NoMemory>
    ensures { IfOk result (λ new. new.items ≡ map (new_recipe game.now (record { taken = R.taken_as by.now; given = R.given_as by.now })) game.now.recipes) }
{
    let mut new = Vec::new(alloc);
    for recipe in game.recipes.as_slice() {
        let recipe = new_recipe(alloc, game, by, recipe)?;
        new.push(recipe)?;
    }
    Ok(new)
}

/// The sources.
#[tactic(auto, using(plan_base::proofs::Walks::map_next, plan_base::proofs::Walks::map_end))]
pub fn new_sources<R: Renumber>(alloc: Global, game: &Game, by: &R) -> Result<Vec<Source>, NoMemory>
    ensures { IfOk result (λ new. new.items ≡ map (new_source game.now (record { taken = R.taken_as by.now; given = R.given_as by.now })) game.now.sources) }
{
    let mut new = Vec::new(alloc);
    for source in game.sources.as_slice() {
        let source = new_source(alloc, game, by, source)?;
        new.push(source)?;
    }
    Ok(new)
}

/// These machines of a game.
pub fn new_machines<R: Renumber>(
    alloc: Global,
    game: &Game,
    by: &R,
    machines: Vec<Machine>,
) -> Result<Vec<Machine>, NoMemory>
    ensures { IfOk result (λ new. new.items ≡ map (new_machine game.now (record { taken = R.taken_as by.now; given = R.given_as by.now })) machines.items) }
{
    let mut new = Vec::new(alloc);
    for machine in machines {
        new.push(new_machine(game, by, machine))?;
    }
    Ok(new)
}
