//! A game put together with the records of its fluids.
ghost use Rattle.std.specs.Prelude.{◌≡◌, ◌≤◌, ◌-◌, [], IfOk, length, nat_lt, not};
ghost use Rattle.plan_base.specs.Shape.{node_count};
ghost use Rattle.game_types.specs.Nodes.{node_limit, shape_of};
ghost use Rattle.game_types.specs.Sound.{IsSound};
ghost use Rattle.fluid_variants.specs.Contents.{contents};
ghost use Rattle.fluid_variants.specs.Records.{all_names, numbering_of, record_place};
ghost use Rattle.fluid_variants.specs.Split.{numbered_by, split};
ghost use Rattle.fluid_variants.specs.Temperatures.{temperature_lists};

use crate::places::{Places, record_count};
use crate::rewriting::{new_machines, new_recipes, new_sources};
use fractions::Ratio;
use game_types::{Fluid, Game, Machine, NODE_LIMIT, Recipe, Source};
use name_table::Names;
use plan_base::{Items, NoMemory};
use std::alloc::Global;
use std::mem;

// Whether there are no more records than so many.
#[tactic(auto, using(crate::proofs::AssemblyLemmas::room_first, crate::proofs::AssemblyLemmas::room_next, crate::proofs::AssemblyLemmas::room_gone, crate::proofs::AssemblyLemmas::room_left))]
fn has_room(lists: &[Vec<Ratio>], room: usize) -> bool
    ensures { result ≡ not (nat_lt room (record_place 0 (contents lists.now) (length lists.now))) }
{
    let mut left = room;
    for list in lists {
        let count = record_count(list.as_slice());
        if left < count {
            return false;
        }
        left -= count;
    }
    true
}

// How many fluids a game may have, beside its other nodes.
fn fluid_room(game: &Game) -> usize
    requires { IsSound game.now }
    ensures { result ≡ node_limit - (node_count (shape_of game.now) - length game.now.fluids) }
{
    let others = game.shape().len() - game.shape().fluids;
    (NODE_LIMIT - others) as usize
}

/// Whether the records of all fluids find room in a game.
#[tactic(auto, using(crate::proofs::AssemblyLemmas::few_nodes))]
pub fn are_few(game: &Game, lists: &[Vec<Ratio>]) -> bool
    requires sound { IsSound game.now }
    requires lists { contents lists.now ≡ temperature_lists game.now }
    ensures { result ≡ not (nat_lt node_limit (node_count (shape_of (split game.now)))) }
{
    has_room(lists, fluid_room(game))
}

// Takes the machines out of a game.
fn take_machines(alloc: Global, game: &mut Game) -> Vec<Machine>
    ensures game { game.new ≡ record game.old { machines = [] } }
    ensures machines { result.items ≡ game.old.machines }
{
    mem::replace(&mut game.machines, Items::from_vec(Vec::new(alloc))).into_vec()
}

// Puts other recipes, sources and machines into a game.
fn put_lists(game: &mut Game, recipes: Vec<Recipe>, sources: Vec<Source>, machines: Vec<Machine>)
    ensures { game.new ≡ record game.old { recipes = recipes.items; sources = sources.items; machines = machines.items } }
{
    game.recipes = Items::from_vec(recipes);
    game.sources = Items::from_vec(sources);
    game.machines = Items::from_vec(machines);
}

// Numbers the goods of a game anew. After an error the game may be without its machines.
fn renumber(alloc: Global, game: &mut Game, places: &Places) -> Result<(), NoMemory>
    ensures { IfOk result (λ done. game.new ≡ numbered_by game.old (numbering_of places.now.items places.now.lists) game.old) }
{
    let recipes = new_recipes(alloc, game, places)?;
    let sources = new_sources(alloc, game, places)?;
    let machines = take_machines(alloc, game);
    let machines = new_machines(alloc, game, places, machines)?;
    put_lists(game, recipes, sources, machines);
    Ok(())
}

// Puts other fluids into a game.
fn put_fluids(game: &mut Game, fluids: Vec<Fluid>, fluid_names: Names)
    ensures { game.new ≡ record game.old { fluids = fluids.items; fluid_names = fluid_names } }
{
    game.fluids = Items::from_vec(fluids);
    game.fluid_names = fluid_names;
}

/// Puts the records of its fluids, which have these names, into a game. After an error the game may be without its machines.
pub fn split(
    alloc: Global,
    game: &mut Game,
    lists: Vec<Vec<Ratio>>,
    fluid_names: Names,
) -> Result<(), NoMemory>
    requires sound { IsSound game.old }
    requires lists { contents lists.items ≡ temperature_lists game.old }
    requires names { fluid_names ≡ all_names game.old.fluid_names (temperature_lists game.old) }
    requires few { node_count (shape_of (split game.old)) ≤ node_limit }
    ensures { IfOk result (λ done. game.new ≡ split game.old) }
{
    let items = game.items.len() as u32;
    let places = Places::make(alloc, items, lists)?;
    let fluids = places.records(alloc, game.fluids.as_slice())?;
    renumber(alloc, game, &places)?;
    put_fluids(game, fluids, fluid_names);
    Ok(())
}
