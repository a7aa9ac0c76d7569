//! The lists of an index, each made of a game by itself.
ghost use Rattle.std.specs.Prelude.{◌+◌, ◌==◌, IfOk, length, true};
ghost use Rattle.std.specs.List.{list_any};
ghost use Rattle.game_types.specs.Making.{gives};
ghost use Rattle.game_types.specs.Sound.{IsSound};
ghost use Rattle.graph_store.specs.Members.{those};
ghost use Rattle.depend_index.specs.Goods.{first_machine, first_recipe, first_source, first_tech, good_count, leavers, putters, variants};
ghost use Rattle.depend_index.specs.Machines.{placers};
ghost use Rattle.depend_index.specs.Kinds.{crafts_all_of, crafts_alone, is_drill_of, is_fuel_of, takes};
ghost use Rattle.graph_store.specs.Lists.{AreAllLists, AreLists, HoldThose};
ghost use Rattle.graph_store.specs.Words.{AreWords};
ghost use Rattle.depend_index.specs.Coolest.{AreSorted};

use crate::keys::{Burnt, Given, Placed, Unlocked};
use crate::machine_keys::{CraftedAlone, CraftedByCategory, Drilled, Taken};
use crate::places::{
    first_fluid, first_machine, first_recipe, first_source, first_tech, good_count,
};
use crate::temperatures::sorted_lists;
use game_types::Game;
use graph_store::{all_lists_of, lists_of, words_of_all};
use plan_base::{NoMemory, NodeId};
use std::alloc::Global;

// ---- the lists

#[tactic(auto, unfolding(crate::specs::Goods::leavers))]
pub fn leavers(alloc: Global, game: &Game) -> Result<Vec<Vec<NodeId>>, NoMemory>
    requires { IsSound game.now }
    ensures { IfOk result (λ lists. AreLists (leavers game.now) (good_count game.now) lists.items) }
{
    let count = good_count(game) as usize;
    lists_of(alloc, count, 3, game.items.as_slice(), &Given)
}

#[tactic(auto, unfolding(crate::specs::Goods::variants))]
pub fn variants(alloc: Global, game: &Game) -> Result<Vec<Vec<NodeId>>, NoMemory>
    requires { IsSound game.now }
    ensures { IfOk result (λ lists. AreLists (variants game.now) (good_count game.now) lists.items) }
{
    lists_of(
        alloc,
        good_count(game) as usize,
        first_fluid(game),
        game.fluids.as_slice(),
        &Given,
    )
}

pub fn coolest_variants(
    alloc: Global,
    game: &Game,
    variants: &[Vec<NodeId>],
) -> Result<Vec<Vec<NodeId>>, NoMemory>
    requires { IsSound game.now }
    ensures { IfOk result (λ lists. AreSorted game.now.fluids (3 + length game.now.items) variants.now lists.items) }
{
    sorted_lists(alloc, game.fluids.as_slice(), first_fluid(game), variants)
}

#[tactic(auto, unfolding(crate::specs::Goods::putters))]
pub fn putters(alloc: Global, game: &Game) -> Result<Vec<Vec<NodeId>>, NoMemory>
    requires { IsSound game.now }
    ensures { IfOk result (λ lists. AreLists (putters game.now) (good_count game.now) lists.items) }
{
    lists_of(
        alloc,
        good_count(game) as usize,
        first_machine(game),
        game.machines.as_slice(),
        &Given,
    )
}

fn recipes_by_good(alloc: Global, game: &Game) -> Result<Vec<Vec<NodeId>>, NoMemory>
    requires { IsSound game.now }
    ensures { IfOk result (λ lists. AreLists (λ good. those (λ recipe. gives recipe.products good) (first_recipe game.now) game.now.recipes) (good_count game.now) lists.items) }
{
    lists_of(
        alloc,
        good_count(game) as usize,
        first_recipe(game),
        game.recipes.as_slice(),
        &Given,
    )
}

pub fn recipe_makers(alloc: Global, game: &Game) -> Result<Vec<Vec<NodeId>>, NoMemory>
    requires { IsSound game.now }
    ensures { IfOk result (λ lists. HoldThose true (λ recipe good. gives recipe.products good) (first_recipe game.now) game.now.recipes (good_count game.now) lists.items) }
{
    let lists = recipes_by_good(alloc, game)?;
    Ok(lists)
}

pub fn source_makers(alloc: Global, game: &Game) -> Result<Vec<Vec<NodeId>>, NoMemory>
    requires { IsSound game.now }
    ensures { IfOk result (λ lists. AreLists (λ good. those (λ source. gives source.products good) (first_source game.now) game.now.sources) (good_count game.now) lists.items) }
{
    lists_of(
        alloc,
        good_count(game) as usize,
        first_source(game),
        game.sources.as_slice(),
        &Given,
    )
}

fn techs_by_recipe(alloc: Global, game: &Game) -> Result<Vec<Vec<NodeId>>, NoMemory>
    requires { IsSound game.now }
    ensures { IfOk result (λ lists. AreLists (λ number. those (λ tech. list_any (λ r. r.0 == number) tech.unlocks) (first_tech game.now) game.now.techs) (length game.now.recipes) lists.items) }
{
    let count = game.recipes.len();
    lists_of(
        alloc,
        count,
        first_tech(game),
        game.techs.as_slice(),
        &Unlocked,
    )
}

pub fn unlockers(alloc: Global, game: &Game) -> Result<Vec<Vec<NodeId>>, NoMemory>
    requires { IsSound game.now }
    ensures { IfOk result (λ lists. HoldThose true (λ tech number. list_any (λ r. r.0 == number) tech.unlocks) (first_tech game.now) game.now.techs (length game.now.recipes) lists.items) }
{
    let lists = techs_by_recipe(alloc, game)?;
    Ok(lists)
}

#[tactic(auto, unfolding(crate::specs::Machines::placers))]
pub fn placers(alloc: Global, game: &Game) -> Result<Vec<Vec<NodeId>>, NoMemory>
    requires { IsSound game.now }
    ensures { IfOk result (λ lists. AreLists (placers game.now) (length game.now.machines) lists.items) }
{
    let count = game.machines.len();
    lists_of(alloc, count, 3, game.items.as_slice(), &Placed)
}

pub fn crafters(alloc: Global, game: &Game) -> Result<Vec<Vec<NodeId>>, NoMemory>
    requires { IsSound game.now }
    ensures { IfOk result (λ lists. AreAllLists (λ category. those (λ machine. crafts_all_of machine.kind category) (first_machine game.now) game.now.machines) lists.items) }
{
    all_lists_of(
        alloc,
        first_machine(game),
        game.machines.as_slice(),
        &CraftedByCategory,
    )
}

pub fn fixed(alloc: Global, game: &Game) -> Result<Vec<Vec<NodeId>>, NoMemory>
    requires { IsSound game.now }
    ensures { IfOk result (λ lists. AreLists (λ number. those (λ machine. crafts_alone game.now.recipes machine.kind number) (first_machine game.now) game.now.machines) (length game.now.recipes) lists.items) }
{
    let count = game.recipes.len();
    let keys = CraftedAlone {
        recipes: game.recipes.as_slice(),
    };
    lists_of(
        alloc,
        count,
        first_machine(game),
        game.machines.as_slice(),
        &keys,
    )
}

pub fn drills(alloc: Global, game: &Game, boxed: bool) -> Result<Vec<Vec<NodeId>>, NoMemory>
    requires { IsSound game.now }
    ensures { IfOk result (λ lists. AreAllLists (λ category. those (λ machine. is_drill_of boxed machine.kind category) (first_machine game.now) game.now.machines) lists.items) }
{
    all_lists_of(
        alloc,
        first_machine(game),
        game.machines.as_slice(),
        &Drilled { boxed },
    )
}

pub fn fuels(alloc: Global, game: &Game) -> Result<Vec<Vec<NodeId>>, NoMemory>
    requires { IsSound game.now }
    ensures { IfOk result (λ lists. AreAllLists (λ category. those (λ item. is_fuel_of item.fuel category) 3 game.now.items) lists.items) }
{
    all_lists_of(alloc, 3, game.items.as_slice(), &Burnt)
}

pub fn takers(alloc: Global, game: &Game) -> Result<Vec<Vec<NodeId>>, NoMemory>
    requires { IsSound game.now }
    ensures { IfOk result (λ lists. AreLists (λ good. those (λ machine. takes machine.kind good) (first_machine game.now) game.now.machines) (length game.now.items) lists.items) }
{
    let count = game.items.len();
    lists_of(
        alloc,
        count,
        first_machine(game),
        game.machines.as_slice(),
        &Taken,
    )
}

// A word holds 64 machines.
pub fn words_of_takers(
    alloc: Global,
    game: &Game,
    takers: &[Vec<NodeId>],
) -> Result<Vec<Vec<u64>>, NoMemory>
    requires { IsSound game.now }
    ensures { IfOk result (λ words. AreWords (first_machine game.now) takers.now words.items) }
{
    let count = game.machines.len() / 64 + 1;
    words_of_all(alloc, count, first_machine(game), takers)
}
