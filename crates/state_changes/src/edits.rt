//! The edits of the book that changes ask for.
ghost use Rattle.std.specs.Prelude.{◌≡◌, ◌++◌, [], IfOk, OnOk};
ghost use Rattle.plan_base.specs.Outcomes.{Gives};
ghost use Rattle.game_types.specs.Sound.{IsSound};
ghost use Rattle.state_changes.specs.Actions.{edit_and, edit_named, edits_named, ingredient_edit, product_edit};

use crate::names::{good_named, node_named, recipe_named, tech_named};
use crate::refusals::Refusal;
use data_edit::Edit;
use fractions::Ratio;
use game_types::Game;
use plan_base::{Denied, GoodId, NoMemory, RecipeId};
use plan_lines::{Change, Object};
use std::alloc::Global;

fn ingredient_edit(recipe: RecipeId, good: GoodId, amount: &Option<Ratio>) -> Edit
    ensures { result ≡ ingredient_edit recipe good amount.now }
{
    match amount {
        Some(amount) => Edit::SetIngredient {
            recipe,
            good,
            amount: *amount,
        },
        None => Edit::DropIngredient { recipe, good },
    }
}

fn product_edit(recipe: RecipeId, good: GoodId, amount: &Option<Ratio>) -> Edit
    ensures { result ≡ product_edit recipe good amount.now }
{
    match amount {
        Some(amount) => Edit::SetProduct {
            recipe,
            good,
            amount: *amount,
        },
        None => Edit::DropProduct { recipe, good },
    }
}

// The edit of a line that grants a node.
#[tactic(auto, unfolding(crate::specs::Actions::edit_named))]
fn grant_edit(alloc: Global, game: &Game, object: &Object) -> Result<Option<Edit>, Denied<Refusal>>
    requires { IsSound game.now }
    ensures { Gives (edit_named game.now (Change.Grant object.now)) result }
{
    let node = node_named(alloc, game, object)?;
    Ok(Some(Edit::Grant(node)))
}

// The edit of a line that grants a node no more.
#[tactic(auto, unfolding(crate::specs::Actions::edit_named))]
fn revoke_edit(alloc: Global, game: &Game, object: &Object) -> Result<Option<Edit>, Denied<Refusal>>
    requires { IsSound game.now }
    ensures { Gives (edit_named game.now (Change.Revoke object.now)) result }
{
    let node = node_named(alloc, game, object)?;
    Ok(Some(Edit::Revoke(node)))
}

// The edit of a line that bars a node.
#[tactic(auto, unfolding(crate::specs::Actions::edit_named))]
fn forbid_edit(alloc: Global, game: &Game, object: &Object) -> Result<Option<Edit>, Denied<Refusal>>
    requires { IsSound game.now }
    ensures { Gives (edit_named game.now (Change.Forbid object.now)) result }
{
    let node = node_named(alloc, game, object)?;
    Ok(Some(Edit::Forbid(node)))
}

// The edit of a line that bars a node no more.
#[tactic(auto, unfolding(crate::specs::Actions::edit_named))]
fn permit_edit(alloc: Global, game: &Game, object: &Object) -> Result<Option<Edit>, Denied<Refusal>>
    requires { IsSound game.now }
    ensures { Gives (edit_named game.now (Change.Permit object.now)) result }
{
    let node = node_named(alloc, game, object)?;
    Ok(Some(Edit::Permit(node)))
}

// The edit of a line that sets what a recipe takes of a good.
#[tactic(auto, unfolding(crate::specs::Actions::edit_named))]
fn set_ingredient_edit(
    alloc: Global,
    game: &Game,
    recipe: &Object,
    good: &Object,
    amount: &Option<Ratio>,
) -> Result<Option<Edit>, Denied<Refusal>>
    requires { IsSound game.now }
    ensures { Gives (edit_named game.now (Change.Ingredient recipe.now good.now amount.now)) result }
{
    let recipe = recipe_named(alloc, game, recipe)?;
    let good = good_named(alloc, game, good)?;
    Ok(Some(ingredient_edit(recipe, good, amount)))
}

// The edit of a line that sets what a recipe gives of a good.
#[tactic(auto, unfolding(crate::specs::Actions::edit_named))]
fn set_product_edit(
    alloc: Global,
    game: &Game,
    recipe: &Object,
    good: &Object,
    amount: &Option<Ratio>,
) -> Result<Option<Edit>, Denied<Refusal>>
    requires { IsSound game.now }
    ensures { Gives (edit_named game.now (Change.Product recipe.now good.now amount.now)) result }
{
    let recipe = recipe_named(alloc, game, recipe)?;
    let good = good_named(alloc, game, good)?;
    Ok(Some(product_edit(recipe, good, amount)))
}

// The edit of a line that sets whether a technology unlocks a recipe.
#[tactic(auto, unfolding(crate::specs::Actions::edit_named))]
fn unlock_edit(
    alloc: Global,
    game: &Game,
    tech: &Object,
    recipe: &Object,
    on: bool,
) -> Result<Option<Edit>, Denied<Refusal>>
    requires { IsSound game.now }
    ensures { Gives (edit_named game.now (Change.Unlock tech.now recipe.now on)) result }
{
    let tech = tech_named(alloc, game, tech)?;
    let recipe = recipe_named(alloc, game, recipe)?;
    Ok(Some(Edit::SetUnlock { tech, recipe, on }))
}

// The edit of a line that sets how long one craft takes.
#[tactic(auto, unfolding(crate::specs::Actions::edit_named))]
fn time_edit(
    alloc: Global,
    game: &Game,
    recipe: &Object,
    time: Ratio,
) -> Result<Option<Edit>, Denied<Refusal>>
    requires { IsSound game.now }
    ensures { Gives (edit_named game.now (Change.Time recipe.now time)) result }
{
    let recipe = recipe_named(alloc, game, recipe)?;
    Ok(Some(Edit::SetTime { recipe, time }))
}

// The edit of a line that sets whether a recipe is known without research.
#[tactic(auto, unfolding(crate::specs::Actions::edit_named))]
fn enabled_edit(
    alloc: Global,
    game: &Game,
    recipe: &Object,
    on: bool,
) -> Result<Option<Edit>, Denied<Refusal>>
    requires { IsSound game.now }
    ensures { Gives (edit_named game.now (Change.Enabled recipe.now on)) result }
{
    let recipe = recipe_named(alloc, game, recipe)?;
    Ok(Some(Edit::SetEnabled { recipe, on }))
}

/// The edit of the book that a change asks for, where it asks for one.
///
/// # Errors
///
/// `Unknown` with the first of its names that nothing has. Or `NoMemory`.
#[tactic(auto, unfolding(crate::specs::Actions::edit_named))]
pub(crate) fn edit_named(
    alloc: Global,
    game: &Game,
    change: &Change,
) -> Result<Option<Edit>, Denied<Refusal>>
    requires { IsSound game.now }
    ensures { Gives (edit_named game.now change.now) result }
{
    match change {
        Change::Grant(object) => grant_edit(alloc, game, object),
        Change::Revoke(object) => revoke_edit(alloc, game, object),
        Change::Forbid(object) => forbid_edit(alloc, game, object),
        Change::Permit(object) => permit_edit(alloc, game, object),
        Change::Ingredient {
            recipe,
            good,
            amount,
        } => set_ingredient_edit(alloc, game, recipe, good, amount),
        Change::Product {
            recipe,
            good,
            amount,
        } => set_product_edit(alloc, game, recipe, good, amount),
        Change::Unlock { tech, recipe, on } => unlock_edit(alloc, game, tech, recipe, *on),
        Change::Time { recipe, seconds } => time_edit(alloc, game, recipe, *seconds),
        Change::Enabled { recipe, on } => enabled_edit(alloc, game, recipe, *on),
        _ => Ok(None),
    }
}

// The edit of one change behind the others, where it asks for one.
fn push_edit(
    alloc: Global,
    game: &Game,
    change: &Change,
    edits: &mut Vec<Edit>,
) -> Result<(), NoMemory>
    requires { IsSound game.now }
    ensures { OnOk result (edits.new.items ≡ edits.old.items ++ edit_and (edit_named game.now change.now) []) }
{
    match edit_named(alloc, game, change) {
        Ok(Some(edit)) => {
            edits.push(edit)?;
            Ok(())
        }
        Ok(None) => Ok(()),
        Err(Denied::Refused(_)) => Ok(()),
        Err(Denied::NoMemory) => Err(NoMemory),
    }
}

/// The edits of the book that changes ask for, in order.
///
/// # Errors
///
/// `NoMemory` where memory could not be had.
pub fn edits_named(alloc: Global, game: &Game, changes: &[Change]) -> Result<Vec<Edit>, NoMemory>
    requires { IsSound game.now }
    ensures { IfOk result (λ edits. edits.items ≡ edits_named game.now changes.now) }
{
    let mut edits = Vec::new(alloc);
    for change in changes {
        push_edit(alloc, game, change, &mut edits)?;
    }
    Ok(edits)
}
