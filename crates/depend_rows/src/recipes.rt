//! What recipes need.
ghost use Rattle.std.specs.Prelude.{◌≡◌, ◌+◌, ◌<◌, ◌++◌, ◌∷◌, [], IfOk, None, OnOk, Some, length, map, nat_lt, not, slice_get};
ghost use Rattle.std.specs.List.{list_all};
ghost use Rattle.game_types.specs.Making.{character_crafts, kind_crafts};
ghost use Rattle.game_types.specs.Sound.{IsSound, IsSoundRecipe};
ghost use Rattle.depend_index.specs.Indexed.{IsIndex};
ghost use Rattle.graph_store.specs.Lists.{list_at, HoldInOrder};
ghost use Rattle.depend_index.specs.Marks.{AreMarks};
ghost use Rattle.graph_store.specs.Members.{named, those};
ghost use Rattle.depend_index.specs.Goods.{first_machine, unlockers};
ghost use Rattle.depend_rows.specs.Members.{any_of, group_where};
ghost use Rattle.depend_rows.specs.Goods.{crafters, crafters_by, recipe_row};

use crate::ingredient_groups::{ingredients, push_bounded};
use crate::members::{all_of, any_of, row_with, with_character};
use depend_index::{Index, first_machine, is_marked, techs_unlocking};
use game_types::{Character, Game, Part, Product, Recipe};
use graph_store::{Group, Row, in_order, named, push_list};
use plan_base::{EntityId, NoMemory, NodeId};
use std::alloc::Global;

fn are_items(parts: &[Part], items: usize) -> bool
    ensures { result ≡ list_all (λ part. nat_lt part.good.0 items) parts.now }
{
    parts.iter().all(|part| (part.good.0 as usize) < items)
}

fn gives_items(products: &[Product], items: usize) -> bool
    ensures { result ≡ list_all (λ product. nat_lt product.good.0 items) products.now }
{
    products
        .iter()
        .all(|product| (product.good.0 as usize) < items)
}

fn character_crafts(character: &Character, marks: &[bool], items: usize, recipe: &Recipe) -> bool
    requires { AreMarks character.now.crafting marks.now }
    ensures { result ≡ character_crafts character.now items recipe.now }
{
    recipe.launch.is_none()
        && is_marked(marks, character.crafting.as_slice(), recipe.category)
        && are_items(recipe.ingredients.as_slice(), items)
        && gives_items(recipe.products.as_slice(), items)
}

// The machines that craft all recipes of its category, and those that craft a recipe alone.
fn crafters_listed(
    alloc: Global,
    index: &Index,
    number: u32,
    recipe: &Recipe,
) -> Result<Vec<NodeId>, NoMemory>
    ensures { IfOk result (λ nodes. HoldInOrder (map (λ n. n.0) (list_at index.now.crafters.items recipe.now.category) ++ map (λ n. n.0) (list_at index.now.fixed.items number)) nodes.items) }
{
    let mut numbers = Vec::new(alloc);
    push_list(&mut numbers, index.crafters.as_slice(), recipe.category)?;
    push_list(&mut numbers, index.fixed.as_slice(), number)?;
    in_order(alloc, numbers)
}

// The machines that craft a recipe.
fn machines_crafting(
    alloc: Global,
    game: &Game,
    index: &Index,
    number: u32,
    recipe: &Recipe,
) -> Result<Vec<NodeId>, NoMemory>
    requires sound { IsSound game.now }
    requires index { IsIndex game.now index.now }
    requires recipe { slice_get game.now.recipes number ≡ Some recipe.now }
    requires number { number < length game.now.recipes }
    ensures { IfOk result (λ nodes. nodes.items ≡ those (λ machine. kind_crafts machine.kind number recipe.now) (first_machine game.now) game.now.machines) }
{
    let _game = game;
    let nodes = crafters_listed(alloc, index, number, recipe)?;
    Ok(nodes)
}

// The silo of a launch.
fn silo_alone(alloc: Global, game: &Game, silo: EntityId) -> Result<Vec<NodeId>, NoMemory>
    requires sound { IsSound game.now }
    requires silo { silo.0 < length game.now.machines }
    ensures { IfOk result (λ nodes. nodes.items ≡ named (first_machine game.now) (length game.now.machines) (silo.0 ∷ [])) }
{
    let mut machines = Vec::new(alloc);
    machines.push(silo.0)?;
    named(alloc, first_machine(game), game.shape().machines, machines)
}

// The character and the machines that craft a recipe that is no launch.
fn ordinary_crafters(
    alloc: Global,
    game: &Game,
    index: &Index,
    number: u32,
    recipe: &Recipe,
) -> Result<Vec<NodeId>, NoMemory>
    requires sound { IsSound game.now }
    requires index { IsIndex game.now index.now }
    requires recipe { slice_get game.now.recipes number ≡ Some recipe.now }
    requires number { number < length game.now.recipes }
    ensures { IfOk result (λ nodes. nodes.items ≡ crafters_by game.now number recipe.now None) }
{
    let marks = index.crafting.as_slice();
    let by_hand = character_crafts(&game.character, marks, game.items.len(), recipe);
    let machines = machines_crafting(alloc, game, index, number, recipe)?;
    with_character(alloc, by_hand, machines)
}

// What crafts a recipe.
#[tactic(auto, unfolding(crate::specs::Goods::crafters))]
fn crafters(
    alloc: Global,
    game: &Game,
    index: &Index,
    number: u32,
    recipe: &Recipe,
) -> Result<Vec<NodeId>, NoMemory>
    requires sound { IsSound game.now }
    requires index { IsIndex game.now index.now }
    requires there { slice_get game.now.recipes number ≡ Some recipe.now }
    requires number { number < length game.now.recipes }
    requires recipe { IsSoundRecipe game.now recipe.now }
    ensures { IfOk result (λ nodes. nodes.items ≡ crafters game.now number recipe.now) }
{
    match recipe.launch {
        Some(silo) => silo_alone(alloc, game, silo),
        None => ordinary_crafters(alloc, game, index, number, recipe),
    }
}

// The group of what crafts a recipe.
fn push_crafters(
    alloc: Global,
    game: &Game,
    index: &Index,
    number: u32,
    recipe: &Recipe,
    groups: &mut Vec<Group>,
) -> Result<(), NoMemory>
    requires sound { IsSound game.now }
    requires index { IsIndex game.now index.now }
    requires there { slice_get game.now.recipes number ≡ Some recipe.now }
    requires number { number < length game.now.recipes }
    requires recipe { IsSoundRecipe game.now recipe.now }
    ensures { OnOk result (groups.new.items ≡ groups.old.items ++ any_of (crafters game.now number recipe.now) ∷ []) }
{
    let nodes = crafters(alloc, game, index, number, recipe)?;
    groups.push(any_of(nodes))?;
    Ok(())
}

// The group of what unlocks a recipe, where it isn't known from the start.
fn push_unlockers(
    alloc: Global,
    game: &Game,
    index: &Index,
    number: u32,
    enabled: bool,
    groups: &mut Vec<Group>,
) -> Result<(), NoMemory>
    requires sound { IsSound game.now }
    requires index { IsIndex game.now index.now }
    requires number { number < length game.now.recipes }
    ensures { OnOk result (groups.new.items ≡ groups.old.items ++ group_where (not enabled) (any_of (unlockers game.now number))) }
{
    if !enabled {
        let nodes = techs_unlocking(alloc, game, index, number)?;
        groups.push(any_of(nodes))?;
    }
    Ok(())
}

/// The row of a recipe.
#[tactic(auto, unfolding(crate::specs::Goods::recipe_row, crate::specs::Goods::bounded_groups))]
pub fn recipe_row(
    alloc: Global,
    game: &Game,
    index: &Index,
    number: u32,
    recipe: &Recipe,
) -> Result<Row, NoMemory>
    requires sound { IsSound game.now }
    requires index { IsIndex game.now index.now }
    requires there { slice_get game.now.recipes number ≡ Some recipe.now }
    requires number { number < length game.now.recipes }
    requires recipe { IsSoundRecipe game.now recipe.now }
    ensures { IfOk result (λ row. row ≡ recipe_row game.now number recipe.now) }
{
    let mut groups = Vec::new(alloc);
    groups.push(all_of(ingredients(alloc, game, recipe)?))?;
    push_bounded(
        alloc,
        game,
        index,
        recipe.ingredients.as_slice(),
        &mut groups,
    )?;
    push_crafters(alloc, game, index, number, recipe, &mut groups)?;
    push_unlockers(alloc, game, index, number, recipe.enabled, &mut groups)?;
    Ok(row_with(groups))
}
