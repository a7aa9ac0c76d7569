//! Recipes and sources.
ghost use Rattle.std.specs.Prelude.{◌≡◌, ◌<◌, OnOk, length};
ghost use Rattle.game_types.specs.Sound.{IsSound, IsSoundActivity};
ghost use Rattle.depend_index.specs.Indexed.{IsIndex};
ghost use Rattle.serde_json.specs.View.{members_view};
ghost use Rattle.catalog_things.specs.Ways.{with_by, with_craft, with_marks, with_mining, with_recipe, with_source, with_source_fluid};

use crate::amounts::put_unless_one;
use crate::doers::machines_for;
use crate::makers::{character_crafts, character_mines};
use crate::parts::{put_goods, put_parts};
use crate::products::put_products;
use catalog_members::{Members, put_amount, put_ids, put_true};
use depend_index::{Index, techs_unlocking};
use fractions::Ratio;
use game_types::{Activity, Game, Recipe, Source};
use plan_base::{GoodId, NoMemory, RecipeId, SourceId};
use std::alloc::Global;

#[tactic(auto, unfolding(crate::specs::Ways::with_craft))]
fn put_craft(
    members: &mut Members,
    alloc: Global,
    game: &Game,
    index: &Index,
    recipe: &Recipe,
) -> Result<(), NoMemory>
    requires { IsSound game.now }
    ensures { OnOk result (members_view members.new.entries ≡ with_craft game.now index.now recipe.now (members_view members.old.entries)) }
{
    put_amount(members, alloc, "time", &recipe.time)?;
    put_unless_one(members, alloc, "emissions", &recipe.emissions)?;
    put_parts(members, alloc, game, index, recipe.ingredients.as_slice())?;
    put_products(members, alloc, "out", game, recipe.products.as_slice())
}

#[tactic(auto, unfolding(crate::specs::Ways::with_marks))]
fn put_marks(
    members: &mut Members,
    alloc: Global,
    game: &Game,
    recipe: &Recipe,
) -> Result<(), NoMemory>
    requires { IsSound game.now }
    ensures { OnOk result (members_view members.new.entries ≡ with_marks game.now recipe.now (members_view members.old.entries)) }
{
    let hand = character_crafts(&game.character, game.shape().items, recipe);
    put_true(members, alloc, "enabled", recipe.enabled)?;
    put_true(members, alloc, "hand", hand)?;
    put_true(members, alloc, "launch", recipe.launch.is_some())
}

/// Puts the machines that do an activity.
#[tactic(auto, unfolding(crate::specs::Ways::with_by))]
pub fn put_by(
    members: &mut Members,
    alloc: Global,
    game: &Game,
    activity: Activity,
) -> Result<(), NoMemory>
    requires sound { IsSound game.now }
    requires activity { IsSoundActivity game.now activity }
    ensures { OnOk result (members_view members.new.entries ≡ with_by game.now activity (members_view members.old.entries)) }
{
    let by = machines_for(alloc, game, activity)?;
    put_ids(members, alloc, "by", game, by.as_slice())
}

/// Puts the members of a recipe.
#[tactic(auto, unfolding(crate::specs::Ways::with_recipe))]
pub fn put_recipe(
    members: &mut Members,
    alloc: Global,
    game: &Game,
    index: &Index,
    number: RecipeId,
) -> Result<(), NoMemory>
    requires sound { IsSound game.now }
    requires index { IsIndex game.now index.now }
    requires number { number.0 < length game.now.recipes }
    ensures { OnOk result (members_view members.new.entries ≡ with_recipe game.now index.now number (members_view members.old.entries)) }
{
    let recipe = game.recipe(number);
    put_craft(members, alloc, game, index, recipe)?;
    put_marks(members, alloc, game, recipe)?;
    put_by(members, alloc, game, Activity::Craft(number))?;
    let unlocked = techs_unlocking(alloc, game, index, number.0)?;
    put_ids(members, alloc, "unlocked", game, unlocked.as_slice())
}

// Puts the fluid that a source takes.
#[tactic(auto, unfolding(crate::specs::Ways::with_source_fluid))]
fn put_source_fluid(
    members: &mut Members,
    alloc: Global,
    game: &Game,
    fluid: &Option<(GoodId, Ratio)>,
) -> Result<(), NoMemory>
    requires { IsSound game.now }
    ensures { OnOk result (members_view members.new.entries ≡ with_source_fluid game.now fluid.now (members_view members.old.entries)) }
{
    match fluid {
        Some(fluid) => put_goods(members, alloc, "in", game, &[*fluid]),
        None => Ok(()),
    }
}

#[tactic(auto, unfolding(crate::specs::Ways::with_mining))]
fn put_mining(
    members: &mut Members,
    alloc: Global,
    game: &Game,
    source: &Source,
) -> Result<(), NoMemory>
    requires { IsSound game.now }
    ensures { OnOk result (members_view members.new.entries ≡ with_mining game.now source.now (members_view members.old.entries)) }
{
    put_amount(members, alloc, "time", &source.time)?;
    put_true(members, alloc, "placed", source.placed)?;
    put_products(members, alloc, "out", game, source.products.as_slice())?;
    put_source_fluid(members, alloc, game, &source.fluid)
}

/// Puts the members of a source.
#[tactic(auto, unfolding(crate::specs::Ways::with_source))]
pub fn put_source(
    members: &mut Members,
    alloc: Global,
    game: &Game,
    number: SourceId,
) -> Result<(), NoMemory>
    requires sound { IsSound game.now }
    requires number { number.0 < length game.now.sources }
    ensures { OnOk result (members_view members.new.entries ≡ with_source game.now number (members_view members.old.entries)) }
{
    let source = game.source(number);
    put_mining(members, alloc, game, source)?;
    put_by(members, alloc, game, Activity::Mine(number))?;
    let hand = character_mines(&game.character, source);
    put_true(members, alloc, "hand", hand)
}
