//! What machines are listed under by what they craft, drill and take.
ghost use Rattle.std.specs.Prelude.{◌≡◌, ℕ, ◌==◌, ◌&&◌, IfOk, slice_get};
ghost use Rattle.std.specs.Option.{option_copied};
ghost use Rattle.depend_index.specs.Machines.{names_good};
ghost use Rattle.depend_index.specs.Kinds.{crafts_all_of, crafts_alone, has_category, is_drill_of, takes};
ghost use Rattle.graph_store.specs.Lists.{is_among};

use crate::keys::{copied, one_number};
use game_types::{Machine, MachineKind, Recipe, holds};
use graph_store::Keys;
use plan_base::{GoodId, NoMemory, RecipeId};
use std::alloc::Global;

// The categories of which machines craft all recipes.
#[derive(Drop)]
pub struct CraftedByCategory;

fn categories_crafted(alloc: Global, kind: &MachineKind) -> Result<Vec<u32>, NoMemory>
    ensures { IfOk result (λ numbers. (k : ℕ) → is_among numbers.items k ≡ crafts_all_of kind.now k) }
{
    match kind {
        MachineKind::Crafter {
            categories,
            fixed: None,
            ..
        } => copied(alloc, categories.as_slice()),
        _ => one_number(alloc, None),
    }
}

impl Keys<Machine> for CraftedByCategory {
    ghost about = { λ _ machine category. crafts_all_of machine.kind category };

    fn keys(&self, alloc: Global, machine: &Machine) -> Result<Vec<u32>, NoMemory> {
        categories_crafted(alloc, &machine.kind)
    }
}

// The recipes that machines craft alone.
#[derive(Drop)]
pub struct CraftedAlone<'a> {
    pub recipes: &'a [Recipe],
}

fn has_category(categories: &[u32], recipe: Option<&Recipe>) -> bool
    ensures { result ≡ has_category categories.now (option_copied recipe.entry) }
{
    match recipe {
        Some(recipe) => holds(categories, recipe.category),
        None => false,
    }
}

fn number_fixed(
    alloc: Global,
    recipes: &[Recipe],
    categories: &[u32],
    fixed: RecipeId,
) -> Result<Vec<u32>, NoMemory>
    ensures { IfOk result (λ numbers. (k : ℕ) → is_among numbers.items k ≡ ((fixed.0 == k) && has_category categories.now (slice_get recipes.now k))) }
{
    if has_category(categories, recipes.get(fixed.0 as usize)) {
        one_number(alloc, Some(fixed.0))
    } else {
        one_number(alloc, None)
    }
}

fn recipe_crafted(
    alloc: Global,
    recipes: &[Recipe],
    kind: &MachineKind,
) -> Result<Vec<u32>, NoMemory>
    ensures { IfOk result (λ numbers. (k : ℕ) → is_among numbers.items k ≡ crafts_alone recipes.now kind.now k) }
{
    match kind {
        MachineKind::Crafter {
            categories,
            fixed: Some(fixed),
            ..
        } => number_fixed(alloc, recipes, categories.as_slice(), *fixed),
        _ => one_number(alloc, None),
    }
}

impl Keys<Machine> for CraftedAlone<'_> {
    ghost about = { λ t machine number. crafts_alone t.recipes.now machine.kind number };

    fn keys(&self, alloc: Global, machine: &Machine) -> Result<Vec<u32>, NoMemory> {
        recipe_crafted(alloc, self.recipes, &machine.kind)
    }
}

// The categories of drills, with a box for a fluid where one is wanted.
#[derive(Drop)]
pub struct Drilled {
    pub boxed: bool,
}

fn categories_drilled(alloc: Global, boxed: bool, kind: &MachineKind) -> Result<Vec<u32>, NoMemory>
    ensures { IfOk result (λ numbers. (k : ℕ) → is_among numbers.items k ≡ is_drill_of boxed kind.now k) }
{
    match kind {
        MachineKind::Drill {
            categories,
            fluid_box,
            ..
        } => {
            if !boxed || *fluid_box {
                copied(alloc, categories.as_slice())
            } else {
                one_number(alloc, None)
            }
        }
        _ => one_number(alloc, None),
    }
}

impl Keys<Machine> for Drilled {
    ghost about = { λ t machine category. is_drill_of t.boxed machine.kind category };

    fn keys(&self, alloc: Global, machine: &Machine) -> Result<Vec<u32>, NoMemory> {
        categories_drilled(alloc, self.boxed, &machine.kind)
    }
}

// The goods that labs take.
#[derive(Drop)]
pub struct Taken;

fn numbers_of_goods(alloc: Global, goods: &[GoodId]) -> Result<Vec<u32>, NoMemory>
    ensures { IfOk result (λ numbers. (k : ℕ) → is_among numbers.items k ≡ names_good goods.now k) }
{
    let mut numbers = Vec::new(alloc);
    for good in goods {
        numbers.push(good.0)?;
    }
    Ok(numbers)
}

fn goods_taken(alloc: Global, kind: &MachineKind) -> Result<Vec<u32>, NoMemory>
    ensures { IfOk result (λ numbers. (k : ℕ) → is_among numbers.items k ≡ takes kind.now k) }
{
    match kind {
        MachineKind::Lab { inputs, .. } => numbers_of_goods(alloc, inputs.as_slice()),
        _ => one_number(alloc, None),
    }
}

impl Keys<Machine> for Taken {
    ghost about = { λ _ machine good. takes machine.kind good };

    fn keys(&self, alloc: Global, machine: &Machine) -> Result<Vec<u32>, NoMemory> {
        goods_taken(alloc, &machine.kind)
    }
}
