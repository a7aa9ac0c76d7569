//! Parts of a book put in the place of others. Nothing here takes memory.
ghost use Rattle.std.specs.Prelude.{◌≡◌, ℕ, length};
ghost use Rattle.data_edit.specs.Edits.{restored, with_mark, with_recipe_part, with_unlocks};
ghost use Rattle.plan_base.specs.Places.{with_at};

use crate::{Book, Inverse, RecipePart};
use game_types::{Recipe, Tech};
use plan_base::{Items, RecipeId};
use std::alloc::Global;
use std::mem;

fn exchange_in_recipe(recipe: &mut Recipe, part: RecipePart) -> RecipePart
    ensures after { recipe.new ≡ with_recipe_part part recipe.old }
    ensures back { with_recipe_part result recipe.new ≡ recipe.old }
{
    match part {
        RecipePart::Ingredients(list) => {
            RecipePart::Ingredients(mem::replace(&mut recipe.ingredients, list))
        }
        RecipePart::Products(list) => {
            RecipePart::Products(mem::replace(&mut recipe.products, list))
        }
        RecipePart::Time(time) => RecipePart::Time(mem::replace(&mut recipe.time, time)),
        RecipePart::Enabled(on) => RecipePart::Enabled(mem::replace(&mut recipe.enabled, on)),
    }
}

fn exchange_in_tech(tech: &mut Tech, unlocks: Items<RecipeId>) -> Items<RecipeId>
    ensures after { tech.new ≡ with_unlocks unlocks tech.old }
    ensures back { with_unlocks result tech.new ≡ tech.old }
{
    mem::replace(&mut tech.unlocks, unlocks)
}

fn exchange_in_recipes(recipes: &mut [Recipe], place: usize, part: RecipePart) -> RecipePart
    ensures after { recipes.new ≡ with_at (with_recipe_part part) place recipes.old }
    ensures back { with_at (with_recipe_part result) place recipes.new ≡ recipes.old }
{
    if place < recipes.len() {
        exchange_in_recipe(&mut recipes[place], part)
    } else {
        part
    }
}

fn exchange_in_techs(techs: &mut [Tech], place: usize, unlocks: Items<RecipeId>) -> Items<RecipeId>
    ensures after { techs.new ≡ with_at (with_unlocks unlocks) place techs.old }
    ensures back { with_at (with_unlocks result) place techs.new ≡ techs.old }
{
    if place < techs.len() {
        exchange_in_tech(&mut techs[place], unlocks)
    } else {
        unlocks
    }
}

fn exchange_in_marks(marks: &mut [bool], place: usize, on: bool) -> bool
    ensures after { marks.new ≡ with_at (with_mark on) place marks.old }
    ensures back { with_at (with_mark result) place marks.new ≡ marks.old }
{
    if place < marks.len() {
        let old = marks[place];
        marks[place] = on;
        old
    } else {
        on
    }
}

fn exchange_recipe(
    alloc: Global,
    recipes: &mut Items<Recipe>,
    place: usize,
    part: RecipePart,
) -> RecipePart
    ensures after { recipes.new ≡ with_at (with_recipe_part part) place recipes.old }
    ensures back { with_at (with_recipe_part result) place recipes.new ≡ recipes.old }
{
    let mut list = mem::replace(recipes, Items::from_vec(Vec::new(alloc))).into_vec();
    let old = exchange_in_recipes(list.as_mut_slice(), place, part);
    *recipes = Items::from_vec(list);
    old
}

fn exchange_tech(
    alloc: Global,
    techs: &mut Items<Tech>,
    place: usize,
    unlocks: Items<RecipeId>,
) -> Items<RecipeId>
    ensures after { techs.new ≡ with_at (with_unlocks unlocks) place techs.old }
    ensures back { with_at (with_unlocks result) place techs.new ≡ techs.old }
{
    let mut list = mem::replace(techs, Items::from_vec(Vec::new(alloc))).into_vec();
    let old = exchange_in_techs(list.as_mut_slice(), place, unlocks);
    *techs = Items::from_vec(list);
    old
}

fn exchange_mark(alloc: Global, marks: &mut Items<bool>, place: usize, on: bool) -> bool
    ensures after { marks.new ≡ with_at (with_mark on) place marks.old }
    ensures back { with_at (with_mark result) place marks.new ≡ marks.old }
{
    let mut list = mem::replace(marks, Items::from_vec(Vec::new(alloc))).into_vec();
    let old = exchange_in_marks(list.as_mut_slice(), place, on);
    *marks = Items::from_vec(list);
    old
}

/// Puts a part of the book in its place, and answers what stood there, which put in its place again gives the book before.
/// Where its id is of nothing, nothing changes. It takes no memory.
pub fn exchange(alloc: Global, book: &mut Book, part: Inverse) -> Inverse
    ensures after { book.new ≡ restored part book.old }
    ensures back { restored result book.new ≡ book.old }
{
    match part {
        Inverse::Recipe(recipe, part) => {
            let old = exchange_recipe(alloc, &mut book.game.recipes, recipe.0 as usize, part);
            Inverse::Recipe(recipe, old)
        }
        Inverse::Unlocks(tech, unlocks) => {
            let old = exchange_tech(alloc, &mut book.game.techs, tech.0 as usize, unlocks);
            Inverse::Unlocks(tech, old)
        }
        Inverse::Barred(node, on) => {
            let old = exchange_mark(alloc, &mut book.barred, node.0 as usize, on);
            Inverse::Barred(node, old)
        }
        Inverse::Granted(node, on) => {
            let old = exchange_mark(alloc, &mut book.granted, node.0 as usize, on);
            Inverse::Granted(node, old)
        }
    }
}
