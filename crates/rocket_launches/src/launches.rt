//! The launches of flights: their names and their recipes.
ghost use Rattle.std.specs.Prelude.{◌≡◌, ◌<◌, All, IfOk, length, map};
ghost use Rattle.game_types.specs.Sound.{IsSound};
ghost use Rattle.rocket_launches.specs.Launches.{IsThere, as_catalyst, launch_name, launch_recipe, name_at, one_part, recipe_with};

use crate::silos::{Flight, Silo};
use fractions::Ratio;
use game_types::{Game, Item, Part, Product, Recipe};
use name_table::Names;
use plan_base::{GoodId, Items, NoMemory, Text};
use std::alloc::Global;

fn one_part(good: GoodId, amount: Ratio) -> Part
    ensures { result ≡ one_part good amount }
{
    Part {
        good,
        amount,
        low: None,
        high: None,
    }
}

// A product to which productivity adds nothing.
fn as_catalyst(product: &Product) -> Product
    ensures { result ≡ as_catalyst product.now }
{
    Product {
        good: product.good,
        low: product.low,
        high: product.high,
        probability: product.probability,
        catalyst: product.high,
        temperature: product.temperature,
    }
}

#[tactic(auto, using(plan_base::proofs::Walks::map_next, plan_base::proofs::Walks::map_end))]
fn brought_back(alloc: Global, products: &[Product]) -> Result<Items<Product>, NoMemory>
    ensures { IfOk result (λ back. back ≡ map as_catalyst products.now) }
{
    let mut back = Vec::new(alloc);
    for product in products {
        back.push(as_catalyst(product))?;
    }
    Ok(Items::from_vec(back))
}

// The recipe of a launch.
#[tactic(auto, unfolding(crate::specs::Launches::recipe_with))]
fn recipe_with(alloc: Global, silo: &Silo, cargo: GoodId, item: &Item) -> Result<Recipe, NoMemory>
    ensures { IfOk result (λ recipe. recipe ≡ recipe_with silo.now cargo item.now) }
{
    let mut ingredients = Vec::new(alloc);
    ingredients.push(one_part(cargo, Ratio::one()))?;
    ingredients.push(one_part(silo.part, Ratio::whole(silo.parts as i64)))?;
    let products = brought_back(alloc, item.launch.as_slice())?;
    Ok(Recipe {
        category: silo.category,
        time: Ratio::zero(),
        enabled: true,
        emissions: Ratio::one(),
        ingredients: Items::from_vec(ingredients),
        products,
        launch: Some(silo.machine),
    })
}

#[tactic(auto, unfolding(crate::specs::Launches::launch_recipe))]
fn launch_recipe(alloc: Global, game: &Game, flight: &Flight) -> Result<Recipe, NoMemory>
    requires { IsThere game.now flight.now }
    ensures { IfOk result (λ recipe. recipe ≡ launch_recipe game.now flight.now) }
{
    let item = game.item(flight.cargo);
    recipe_with(alloc, &flight.silo, flight.cargo, item)
}

// The name at a place.
pub fn name_at(names: &Names, place: u32) -> &str
    requires { place < length names.now }
    ensures { result.now ≡ name_at names.now place }
{
    names.name_of(place)
}

/// The name of a flight's launch.
#[tactic(auto, unfolding(crate::specs::Launches::launch_name))]
pub fn launch_name(alloc: Global, game: &Game, flight: &Flight) -> Result<Text, NoMemory>
    requires sound { IsSound game.now }
    requires there { IsThere game.now flight.now }
    ensures { IfOk result (λ name. name ≡ launch_name game.now flight.now) }
{
    let silo = name_at(&game.machine_names, flight.silo.machine.0);
    let item = name_at(&game.item_names, flight.cargo.0);
    Ok(Text::from_string(format!(in alloc; "launch:{silo}:{item}")?))
}

/// The recipes of flights.
#[tactic(auto, using(plan_base::proofs::Walks::map_next, plan_base::proofs::Walks::map_end))]
pub fn launch_recipes(
    alloc: Global,
    game: &Game,
    flights: &[Flight],
) -> Result<Vec<Recipe>, NoMemory>
    requires { All (IsThere game.now) flights.now }
    ensures { IfOk result (λ recipes. recipes.items ≡ map (launch_recipe game.now) flights.now) }
{
    let mut recipes = Vec::new(alloc);
    for flight in flights {
        let recipe = launch_recipe(alloc, game, flight)?;
        recipes.push(recipe)?;
    }
    Ok(recipes)
}

/// The names of flights.
#[tactic(auto, using(plan_base::proofs::Walks::map_next, plan_base::proofs::Walks::map_end))]
pub fn launch_names(alloc: Global, game: &Game, flights: &[Flight]) -> Result<Vec<Text>, NoMemory>
    requires sound { IsSound game.now }
    requires there { All (IsThere game.now) flights.now }
    ensures { IfOk result (λ names. names.items ≡ map (launch_name game.now) flights.now) }
{
    let mut names = Vec::new(alloc);
    for flight in flights {
        let name = launch_name(alloc, game, flight)?;
        names.push(name)?;
    }
    Ok(names)
}
