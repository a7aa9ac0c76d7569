//! The second pass over a dump: ids in place of names, prototype by prototype.
ghost use Rattle.std.specs.Prelude.{◌≡◌, IfOk, length};
ghost use Rattle.craft_reader.specs.Faults.{GivesDump};
ghost use Rattle.dump_reader.specs.Draft.{draft_seen};
ghost use Rattle.dump_reader.specs.Sound.{IsSoundDraft};
ghost use Rattle.game_types.specs.Sound.{ArePlain, IsSound};
ghost use Rattle.game_reader.specs.Lists.{linked_lists, linked_means, linked_ways};
ghost use Rattle.game_reader.specs.Links.{linked};

use crate::Families;
use crate::prototype_lists::{link_items, link_machines, link_recipes, link_sources, link_techs};
use craft_reader::{DumpFault, RawRecipe, RawTech};
use dump_reader::{Draft, RawItem, RawSource};
use game_types::{Character, Game, Item, Machine, Recipe, Source, Tech};
use machine_reader::RawMachine;
use plan_base::Items;
use std::alloc::Global;

// The lists of a game.
#[derive(Drop)]
struct Lists {
    items: Items<Item>,
    recipes: Items<Recipe>,
    sources: Items<Source>,
    machines: Items<Machine>,
    techs: Items<Tech>,
}

// All recipes and all that is mined.
#[tactic(auto, unfolding(crate::specs::Lists::linked_ways))]
fn link_ways(
    alloc: Global,
    names: &Families,
    recipes: Vec<RawRecipe>,
    sources: Vec<RawSource>,
) -> Result<(Items<Recipe>, Items<Source>), DumpFault>
    requires recipes { length recipes.items ≡ length names.now.recipes }
    requires sources { length sources.items ≡ length names.now.sources }
    ensures { GivesDump (linked_ways names.now recipes.items sources.items) result }
{
    let recipes = link_recipes(alloc, names, recipes)?;
    let sources = link_sources(alloc, names, sources)?;
    Ok((recipes, sources))
}

// All machines and technologies.
#[tactic(auto, unfolding(crate::specs::Lists::linked_means))]
fn link_means(
    alloc: Global,
    names: &Families,
    machines: Vec<RawMachine>,
    techs: Vec<RawTech>,
) -> Result<(Items<Machine>, Items<Tech>), DumpFault>
    requires machines { length machines.items ≡ length names.now.machines }
    requires techs { length techs.items ≡ length names.now.techs }
    ensures { GivesDump (linked_means names.now machines.items techs.items) result }
{
    let machines = link_machines(alloc, names, machines)?;
    let techs = link_techs(alloc, names, techs)?;
    Ok((machines, techs))
}

// The lists of a game. Each list of prototypes is beside its names.
#[tactic(auto, unfolding(crate::specs::Lists::linked_lists))]
fn link_lists(
    alloc: Global,
    names: &Families,
    items: Vec<RawItem>,
    recipes: Vec<RawRecipe>,
    sources: Vec<RawSource>,
    machines: Vec<RawMachine>,
    techs: Vec<RawTech>,
) -> Result<Lists, DumpFault>
    requires items { length items.items ≡ length names.now.items }
    requires recipes { length recipes.items ≡ length names.now.recipes }
    requires sources { length sources.items ≡ length names.now.sources }
    requires machines { length machines.items ≡ length names.now.machines }
    requires techs { length techs.items ≡ length names.now.techs }
    ensures { GivesDump (linked_lists names.now items.items recipes.items sources.items machines.items techs.items) result }
{
    let items = link_items(alloc, names, items)?;
    let (recipes, sources) = link_ways(alloc, names, recipes, sources)?;
    let (machines, techs) = link_means(alloc, names, machines, techs)?;
    Ok(Lists {
        items,
        recipes,
        sources,
        machines,
        techs,
    })
}

// The game that a first pass left.
fn link_draft(alloc: Global, draft: Draft) -> Result<Game, DumpFault>
    requires { IsSoundDraft (draft_seen draft) }
    ensures { GivesDump (linked (draft_seen draft)) result }
{
    let Draft {
        items,
        fluids,
        recipes,
        sources,
        machines,
        techs,
        crafting,
        mining,
        item_names,
        fluid_names,
        recipe_names,
        source_names,
        machine_names,
        tech_names,
        categories,
        nodes: _,
    } = draft;
    let names = Families {
        items: item_names,
        fluids: fluid_names,
        recipes: recipe_names,
        sources: source_names,
        machines: machine_names,
        techs: tech_names,
    };
    let Lists {
        items,
        recipes,
        sources,
        machines,
        techs,
    } = link_lists(alloc, &names, items, recipes, sources, machines, techs)?;
    Ok(Game {
        items,
        fluids: Items::from_vec(fluids),
        recipes,
        sources,
        machines,
        techs,
        character: Character {
            crafting: Items::from_vec(crafting),
            mining: Items::from_vec(mining),
        },
        item_names: names.items,
        fluid_names: names.fluids,
        recipe_names: names.recipes,
        source_names: names.sources,
        machine_names: names.machines,
        tech_names: names.techs,
        categories,
    })
}

/// The game that a first pass left, with ids in place of names. It is sound, and each fluid is one record.
///
/// # Errors
///
/// The first name that stands for nothing, with its section and the name of its prototype. `NoMemory` where memory could not
/// be had.
pub fn link(alloc: Global, draft: Draft) -> Result<Game, DumpFault>
    requires { IsSoundDraft (draft_seen draft) }
    ensures gives { GivesDump (linked (draft_seen draft)) result }
    ensures sound { IfOk result IsSound }
    ensures plain { IfOk result (λ game. ArePlain game.fluids) }
{
    link_draft(alloc, draft)
}
