//! What the things of a game are listed under: the numbers of the goods, recipes and categories that each is about.
ghost use Rattle.std.specs.Prelude.{◌≡◌, ℕ, ◌==◌, IfOk};
ghost use Rattle.std.specs.List.{list_any};
ghost use Rattle.std.specs.Option.{option_to_list};
ghost use Rattle.game_types.specs.Making.{gives};
ghost use Rattle.game_types.specs.Temperatures.{is_good};
ghost use Rattle.depend_index.specs.Goods.{puts_out};
ghost use Rattle.depend_index.specs.Machines.{is_machine};
ghost use Rattle.depend_index.specs.Kinds.{is_fuel_of};
ghost use Rattle.graph_store.specs.Lists.{is_among};

use crate::products::is_expected;
use fractions::is_positive;
use game_types::{Fluid, Fuel, Item, Machine, MachineKind, Product, Recipe, Source, Tech};
use graph_store::Keys;
use plan_base::{EntityId, GoodId, NoMemory, RecipeId};
use std::alloc::Global;

/// The same numbers.
pub fn copied(alloc: Global, numbers: &[u32]) -> Result<Vec<u32>, NoMemory>
    ensures { IfOk result (λ copy. copy.items ≡ numbers.now) }
{
    Ok(Vec::from_slice(alloc, numbers)?)
}

/// A number, where there is one.
pub fn one_number(alloc: Global, number: Option<u32>) -> Result<Vec<u32>, NoMemory>
    ensures { IfOk result (λ numbers. numbers.items ≡ option_to_list number) }
{
    let mut numbers = Vec::new(alloc);
    if let Some(number) = number {
        numbers.push(number)?;
    }
    Ok(numbers)
}

fn good_number(alloc: Global, good: Option<GoodId>) -> Result<Vec<u32>, NoMemory>
    ensures { IfOk result (λ numbers. (k : ℕ) → is_among numbers.items k ≡ is_good good k) }
{
    match good {
        Some(good) => one_number(alloc, Some(good.0)),
        None => one_number(alloc, None),
    }
}

fn machine_number(alloc: Global, machine: Option<EntityId>) -> Result<Vec<u32>, NoMemory>
    ensures { IfOk result (λ numbers. (k : ℕ) → is_among numbers.items k ≡ is_machine machine k) }
{
    match machine {
        Some(machine) => one_number(alloc, Some(machine.0)),
        None => one_number(alloc, None),
    }
}

// The goods that some products give.
fn goods_given(alloc: Global, products: &[Product]) -> Result<Vec<u32>, NoMemory>
    ensures { IfOk result (λ goods. (k : ℕ) → is_among goods.items k ≡ gives products.now k) }
{
    let mut goods = Vec::new(alloc);
    for product in products {
        if is_expected(product) {
            goods.push(product.good.0)?;
        }
    }
    Ok(goods)
}

fn put_out(alloc: Global, kind: &MachineKind) -> Result<Vec<u32>, NoMemory>
    ensures { IfOk result (λ goods. (k : ℕ) → is_among goods.items k ≡ puts_out kind.now k) }
{
    match kind {
        MachineKind::Pump { fluid, .. } => one_number(alloc, Some(fluid.0)),
        MachineKind::Boiler { output, .. } => good_number(alloc, *output),
        _ => one_number(alloc, None),
    }
}

// The goods that things give.
#[derive(Drop)]
pub struct Given;

impl Keys<Item> for Given {
    ghost about = { λ _ item good. is_good item.burnt good };

    fn keys(&self, alloc: Global, item: &Item) -> Result<Vec<u32>, NoMemory> {
        good_number(alloc, item.burnt)
    }
}

impl Keys<Fluid> for Given {
    ghost about = { λ _ fluid good. is_good fluid.of good };

    fn keys(&self, alloc: Global, fluid: &Fluid) -> Result<Vec<u32>, NoMemory> {
        good_number(alloc, fluid.of)
    }
}

impl Keys<Recipe> for Given {
    ghost about = { λ _ recipe good. gives recipe.products good };

    fn keys(&self, alloc: Global, recipe: &Recipe) -> Result<Vec<u32>, NoMemory> {
        goods_given(alloc, recipe.products.as_slice())
    }
}

impl Keys<Source> for Given {
    ghost about = { λ _ source good. gives source.products good };

    fn keys(&self, alloc: Global, source: &Source) -> Result<Vec<u32>, NoMemory> {
        goods_given(alloc, source.products.as_slice())
    }
}

impl Keys<Machine> for Given {
    ghost about = { λ _ machine good. puts_out machine.kind good };

    fn keys(&self, alloc: Global, machine: &Machine) -> Result<Vec<u32>, NoMemory> {
        put_out(alloc, &machine.kind)
    }
}

// The recipes that technologies unlock.
#[derive(Drop)]
pub struct Unlocked;

fn numbers_of_recipes(alloc: Global, recipes: &[RecipeId]) -> Result<Vec<u32>, NoMemory>
    ensures { IfOk result (λ numbers. (k : ℕ) → is_among numbers.items k ≡ list_any (λ r. r.0 == k) recipes.now) }
{
    let mut numbers = Vec::new(alloc);
    for recipe in recipes {
        numbers.push(recipe.0)?;
    }
    Ok(numbers)
}

impl Keys<Tech> for Unlocked {
    ghost about = { λ _ tech number. list_any (λ r. r.0 == number) tech.unlocks };

    fn keys(&self, alloc: Global, tech: &Tech) -> Result<Vec<u32>, NoMemory> {
        numbers_of_recipes(alloc, tech.unlocks.as_slice())
    }
}

// The machines that items are placed as.
#[derive(Drop)]
pub struct Placed;

impl Keys<Item> for Placed {
    ghost about = { λ _ item number. is_machine item.place number };

    fn keys(&self, alloc: Global, item: &Item) -> Result<Vec<u32>, NoMemory> {
        machine_number(alloc, item.place)
    }
}

// The categories of fuels that have any energy.
#[derive(Drop)]
pub struct Burnt;

fn category_of_fuel(alloc: Global, fuel: Option<Fuel>) -> Result<Vec<u32>, NoMemory>
    ensures { IfOk result (λ numbers. (k : ℕ) → is_among numbers.items k ≡ is_fuel_of fuel k) }
{
    match fuel {
        Some(fuel) => {
            if is_positive(&fuel.value) {
                one_number(alloc, Some(fuel.category))
            } else {
                one_number(alloc, None)
            }
        }
        None => one_number(alloc, None),
    }
}

impl Keys<Item> for Burnt {
    ghost about = { λ _ item category. is_fuel_of item.fuel category };

    fn keys(&self, alloc: Global, item: &Item) -> Result<Vec<u32>, NoMemory> {
        category_of_fuel(alloc, item.fuel)
    }
}
