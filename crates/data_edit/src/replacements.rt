//! What an edit puts in the place of what: the new part of the book, or why the edit is refused.
ghost use Rattle.std.specs.Prelude.{◌≡◌};
ghost use Rattle.plan_base.specs.Outcomes.{Gives, seen_as};
ghost use Rattle.data_edit.specs.Books.{IsSoundBook};
ghost use Rattle.data_edit.specs.Faults.{changed_flag, changed_time, positive};
ghost use Rattle.data_edit.specs.Edits.{enabled_set, good_in, ingredients_dropped, ingredients_set, mark_set, products_dropped, products_set, recipe_in, replacement, tech_in, time_set, unlocks_set};

use crate::entries::{add_unlock, drop_entries, is_fraction, set_entry};
use crate::{Book, Edit, EditFault, Inverse, RecipePart};
use fractions::Ratio;
use game_types::{Part, Product, Recipe, Tech};
use plan_base::{Denied, GoodId, Items, NodeId, RecipeId, TechId};
use std::alloc::Global;

fn recipe_in(book: &Book, recipe: RecipeId) -> Result<&Recipe, EditFault>
    ensures { seen_as (λ recipe. recipe.now) result ≡ recipe_in book.now recipe }
{
    match book.game.recipes.as_slice().get(recipe.0 as usize) {
        Some(recipe) => Ok(recipe),
        None => Err(EditFault::Unknown),
    }
}

fn tech_in(book: &Book, tech: TechId) -> Result<&Tech, EditFault>
    ensures { seen_as (λ tech. tech.now) result ≡ tech_in book.now tech }
{
    match book.game.techs.as_slice().get(tech.0 as usize) {
        Some(tech) => Ok(tech),
        None => Err(EditFault::Unknown),
    }
}

fn good_in(book: &Book, good: GoodId) -> Result<(), EditFault>
    requires { IsSoundBook book.now }
    ensures { result ≡ good_in book.now good }
{
    if (good.0 as usize) < book.game.items.len() + book.game.fluids.len() {
        Ok(())
    } else {
        Err(EditFault::Unknown)
    }
}

fn positive(number: &Ratio) -> Result<(), EditFault>
    ensures { result ≡ positive number.now }
{
    if number.numerator() > 0 {
        Ok(())
    } else {
        Err(EditFault::NotPositive)
    }
}

fn changed_time(old: &Ratio, time: Ratio) -> Result<Ratio, EditFault>
    ensures { result ≡ changed_time old.now time }
{
    if is_fraction(&time, old) {
        Err(EditFault::NoChange)
    } else {
        Ok(time)
    }
}

fn changed_flag(old: bool, on: bool) -> Result<bool, EditFault>
    ensures { result ≡ changed_flag old on }
{
    if old == on {
        Err(EditFault::NoChange)
    } else {
        Ok(on)
    }
}

#[tactic(auto, unfolding(crate::specs::Edits::ingredients_set))]
fn ingredients_set(
    alloc: Global,
    book: &Book,
    recipe: RecipeId,
    good: GoodId,
    amount: Ratio,
) -> Result<Items<Part>, Denied<EditFault>>
    requires { IsSoundBook book.now }
    ensures { Gives (ingredients_set book.now recipe good amount) result }
{
    let old = recipe_in(book, recipe)?;
    good_in(book, good)?;
    positive(&amount)?;
    let part = Part {
        good,
        amount,
        low: None,
        high: None,
    };
    set_entry(alloc, old.ingredients.as_slice(), part)
}

#[tactic(auto, unfolding(crate::specs::Edits::ingredients_dropped))]
fn ingredients_dropped(
    alloc: Global,
    book: &Book,
    recipe: RecipeId,
    good: GoodId,
) -> Result<Items<Part>, Denied<EditFault>>
    requires { IsSoundBook book.now }
    ensures { Gives (ingredients_dropped book.now recipe good) result }
{
    let old = recipe_in(book, recipe)?;
    good_in(book, good)?;
    drop_entries(alloc, old.ingredients.as_slice(), good.0)
}

#[tactic(auto, unfolding(crate::specs::Edits::products_set))]
fn products_set(
    alloc: Global,
    book: &Book,
    recipe: RecipeId,
    good: GoodId,
    amount: Ratio,
) -> Result<Items<Product>, Denied<EditFault>>
    requires { IsSoundBook book.now }
    ensures { Gives (products_set book.now recipe good amount) result }
{
    let old = recipe_in(book, recipe)?;
    good_in(book, good)?;
    positive(&amount)?;
    let product = Product {
        good,
        low: amount,
        high: amount,
        probability: Ratio::one(),
        catalyst: Ratio::zero(),
        temperature: None,
    };
    set_entry(alloc, old.products.as_slice(), product)
}

#[tactic(auto, unfolding(crate::specs::Edits::products_dropped))]
fn products_dropped(
    alloc: Global,
    book: &Book,
    recipe: RecipeId,
    good: GoodId,
) -> Result<Items<Product>, Denied<EditFault>>
    requires { IsSoundBook book.now }
    ensures { Gives (products_dropped book.now recipe good) result }
{
    let old = recipe_in(book, recipe)?;
    good_in(book, good)?;
    drop_entries(alloc, old.products.as_slice(), good.0)
}

#[tactic(auto, unfolding(crate::specs::Edits::unlocks_set))]
fn unlocks_set(
    alloc: Global,
    book: &Book,
    tech: TechId,
    recipe: RecipeId,
    on: bool,
) -> Result<Items<RecipeId>, Denied<EditFault>>
    ensures { Gives (unlocks_set book.now tech recipe on) result }
{
    let old = tech_in(book, tech)?;
    recipe_in(book, recipe)?;
    if on {
        add_unlock(alloc, old.unlocks.as_slice(), recipe)
    } else {
        drop_entries(alloc, old.unlocks.as_slice(), recipe.0)
    }
}

#[tactic(auto, unfolding(crate::specs::Edits::time_set))]
fn time_set(book: &Book, recipe: RecipeId, time: Ratio) -> Result<Ratio, EditFault>
    ensures { result ≡ time_set book.now recipe time }
{
    let old = recipe_in(book, recipe)?;
    positive(&time)?;
    changed_time(&old.time, time)
}

#[tactic(auto, unfolding(crate::specs::Edits::enabled_set))]
fn enabled_set(book: &Book, recipe: RecipeId, on: bool) -> Result<bool, EditFault>
    ensures { result ≡ enabled_set book.now recipe on }
{
    let old = recipe_in(book, recipe)?;
    changed_flag(old.enabled, on)
}

#[tactic(auto, unfolding(crate::specs::Edits::mark_set))]
fn mark_set(marks: &Items<bool>, node: NodeId, on: bool) -> Result<bool, EditFault>
    ensures { result ≡ mark_set marks.now node on }
{
    match marks.as_slice().get(node.0 as usize) {
        Some(old) => changed_flag(*old, on),
        None => Err(EditFault::Unknown),
    }
}

/// The part that an edit puts in the place of the old one.
///
/// # Errors
///
/// The first refusal, or `NoMemory`.
pub(crate) fn replacement(
    alloc: Global,
    book: &Book,
    edit: &Edit,
) -> Result<Inverse, Denied<EditFault>>
    requires { IsSoundBook book.now }
    ensures { Gives (replacement edit.now book.now) result }
{
    match *edit {
        Edit::SetIngredient {
            recipe,
            good,
            amount,
        } => {
            let list = ingredients_set(alloc, book, recipe, good, amount)?;
            Ok(Inverse::Recipe(recipe, RecipePart::Ingredients(list)))
        }
        Edit::DropIngredient { recipe, good } => {
            let list = ingredients_dropped(alloc, book, recipe, good)?;
            Ok(Inverse::Recipe(recipe, RecipePart::Ingredients(list)))
        }
        Edit::SetProduct {
            recipe,
            good,
            amount,
        } => {
            let list = products_set(alloc, book, recipe, good, amount)?;
            Ok(Inverse::Recipe(recipe, RecipePart::Products(list)))
        }
        Edit::DropProduct { recipe, good } => {
            let list = products_dropped(alloc, book, recipe, good)?;
            Ok(Inverse::Recipe(recipe, RecipePart::Products(list)))
        }
        Edit::SetUnlock { tech, recipe, on } => {
            let list = unlocks_set(alloc, book, tech, recipe, on)?;
            Ok(Inverse::Unlocks(tech, list))
        }
        Edit::SetTime { recipe, time } => {
            let time = time_set(book, recipe, time)?;
            Ok(Inverse::Recipe(recipe, RecipePart::Time(time)))
        }
        Edit::SetEnabled { recipe, on } => {
            let on = enabled_set(book, recipe, on)?;
            Ok(Inverse::Recipe(recipe, RecipePart::Enabled(on)))
        }
        Edit::Forbid(node) => {
            let on = mark_set(&book.barred, node, true)?;
            Ok(Inverse::Barred(node, on))
        }
        Edit::Permit(node) => {
            let on = mark_set(&book.barred, node, false)?;
            Ok(Inverse::Barred(node, on))
        }
        Edit::Grant(node) => {
            let on = mark_set(&book.granted, node, true)?;
            Ok(Inverse::Granted(node, on))
        }
        Edit::Revoke(node) => {
            let on = mark_set(&book.granted, node, false)?;
            Ok(Inverse::Granted(node, on))
        }
    }
}
