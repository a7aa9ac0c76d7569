//! A game of one machine, which crafts one recipe.
ghost use Rattle.std.specs.Prelude.{◌≡◌, All, IfSome, None, [], length};
ghost use Rattle.fractions.specs.Fraction.{zero_fraction, ◌<ʳ◌};
ghost use Rattle.game_types.specs.declared.games.Game.{Game as AnyGame};
ghost use Rattle.game_types.specs.Sound.{IsSound, IsSoundEnergy, IsSoundItem, IsSoundMachine, IsSoundRecipe};

use fractions::{Ratio, is_positive};
use game_types::{
    Activity, Allowed, Character, Energy, Fuel, Game, Item, Machine, MachineKind, Recipe, Setup,
};
use name_table::Names;
use plan_base::{EntityId, GoodId, Items, RecipeId};
use std::alloc::Global;

/// What a row tells of a machine, of its fuel, and of what it crafts. A machine with an effectivity of 0 is electric.
#[derive(Clone, Copy)]
pub struct Given {
    pub time: Ratio,
    pub speed: Ratio,
    pub usage: Ratio,
    pub effectivity: Ratio,
    pub value: Ratio,
    pub emissions: Ratio,
    pub of_recipe: Ratio,
    pub of_fuel: Ratio,
}

// One name for the things of each kind of which there is one.
#[derive(Drop)]
struct OneNames {
    item: Names,
    recipe: Names,
    machine: Names,
}

fn one_name(alloc: Global, name: &str) -> Option<Names>
    ensures { IfSome result (λ names. length names ≡ 1) }
{
    let mut names = Names::make(alloc);
    if names.intern(name).is_err() {
        return None;
    }
    if names.len() == 1 { Some(names) } else { None }
}

fn one_names(alloc: Global) -> Option<OneNames>
    ensures item { IfSome result (λ names. length names.item ≡ 1) }
    ensures recipe { IfSome result (λ names. length names.recipe ≡ 1) }
    ensures machine { IfSome result (λ names. length names.machine ≡ 1) }
{
    let item = one_name(alloc, "fuel")?;
    let recipe = one_name(alloc, "recipe")?;
    let machine = one_name(alloc, "machine")?;
    Some(OneNames {
        item,
        recipe,
        machine,
    })
}

fn item(alloc: Global, given: &Given) -> Item
    ensures place { result.place ≡ None }
    ensures burnt { result.burnt ≡ None }
    ensures module_ { result.module ≡ None }
    ensures launch { result.launch ≡ [] }
{
    Item {
        place: None,
        fuel: Some(Fuel {
            category: 0,
            value: given.value,
            emissions: given.of_fuel,
        }),
        burnt: None,
        module: None,
        launch: Items::from_vec(Vec::new(alloc)),
    }
}

fn recipe(alloc: Global, given: &Given) -> Recipe
    ensures ingredients { result.ingredients ≡ [] }
    ensures products { result.products ≡ [] }
    ensures launch { result.launch ≡ None }
{
    Recipe {
        category: 0,
        time: given.time,
        enabled: true,
        emissions: given.of_recipe,
        ingredients: Items::from_vec(Vec::new(alloc)),
        products: Items::from_vec(Vec::new(alloc)),
        launch: None,
    }
}

fn machine(given: &Given, categories: Items<u32>, energy: Energy) -> Machine
    ensures kind { result.kind ≡ MachineKind.Crafter given.now.speed categories None }
    ensures energy { result.energy ≡ energy }
    ensures slots { result.slots ≡ 0 }
{
    Machine {
        kind: MachineKind::Crafter {
            speed: given.speed,
            categories,
            fixed: None,
        },
        energy,
        usage: given.usage,
        drain: Ratio::one(),
        emissions: given.emissions,
        slots: 0,
        allowed: Allowed {
            speed: false,
            productivity: false,
            consumption: false,
            pollution: false,
        },
        base_productivity: Ratio::zero(),
        parts: 0,
    }
}

fn items(alloc: Global, given: &Given) -> Option<Items<Item>>
    ensures sound { IfSome result (λ items. (g : AnyGame) → All (IsSoundItem g) items) }
    ensures one { IfSome result (λ items. length items ≡ 1) }
{
    match vec![in alloc; item(alloc, given)] {
        Ok(items) => Some(Items::from_vec(items)),
        Err(_) => None,
    }
}

fn recipes(alloc: Global, given: &Given) -> Option<Items<Recipe>>
    ensures sound { IfSome result (λ recipes. (g : AnyGame) → All (IsSoundRecipe g) recipes) }
    ensures one { IfSome result (λ recipes. length recipes ≡ 1) }
{
    match vec![in alloc; recipe(alloc, given)] {
        Ok(recipes) => Some(Items::from_vec(recipes)),
        Err(_) => None,
    }
}

fn one_category(alloc: Global) -> Option<Items<u32>> {
    match vec![in alloc; 0u32] {
        Ok(categories) => Some(Items::from_vec(categories)),
        Err(_) => None,
    }
}

fn machines_with(
    alloc: Global,
    given: &Given,
    categories: Items<u32>,
    energy: Energy,
) -> Option<Items<Machine>>
    requires speed { zero_fraction <ʳ given.now.speed }
    requires energy { (g : AnyGame) → IsSoundEnergy g energy }
    ensures sound { IfSome result (λ machines. (g : AnyGame) → All (IsSoundMachine g) machines) }
    ensures one { IfSome result (λ machines. length machines ≡ 1) }
{
    match vec![in alloc; machine(given, categories, energy)] {
        Ok(machines) => Some(Items::from_vec(machines)),
        Err(_) => None,
    }
}

fn electric_machines(alloc: Global, given: &Given) -> Option<Items<Machine>>
    requires { zero_fraction <ʳ given.now.speed }
    ensures sound { IfSome result (λ machines. (g : AnyGame) → All (IsSoundMachine g) machines) }
    ensures one { IfSome result (λ machines. length machines ≡ 1) }
{
    let categories = one_category(alloc)?;
    machines_with(alloc, given, categories, Energy::Electric)
}

fn burner_machines(alloc: Global, given: &Given) -> Option<Items<Machine>>
    requires speed { zero_fraction <ʳ given.now.speed }
    requires effectivity { zero_fraction <ʳ given.now.effectivity }
    ensures sound { IfSome result (λ machines. (g : AnyGame) → All (IsSoundMachine g) machines) }
    ensures one { IfSome result (λ machines. length machines ≡ 1) }
{
    let categories = one_category(alloc)?;
    let fuels = one_category(alloc)?;
    let energy = Energy::Burner {
        categories: fuels,
        effectivity: given.effectivity,
    };
    machines_with(alloc, given, categories, energy)
}

#[tactic(auto, using(fractions::proofs::SignLemmas::positive_is))]
fn machines(alloc: Global, given: &Given) -> Option<Items<Machine>>
    ensures sound { IfSome result (λ machines. (g : AnyGame) → All (IsSoundMachine g) machines) }
    ensures one { IfSome result (λ machines. length machines ≡ 1) }
{
    if !is_positive(&given.speed) {
        None
    } else if is_positive(&given.effectivity) {
        burner_machines(alloc, given)
    } else {
        electric_machines(alloc, given)
    }
}

fn game_with(
    alloc: Global,
    names: OneNames,
    items: Items<Item>,
    recipes: Items<Recipe>,
    machines: Items<Machine>,
) -> Game
    requires item_name { length names.item ≡ 1 }
    requires recipe_name { length names.recipe ≡ 1 }
    requires machine_name { length names.machine ≡ 1 }
    requires items { (g : AnyGame) → All (IsSoundItem g) items }
    requires recipes { (g : AnyGame) → All (IsSoundRecipe g) recipes }
    requires machines { (g : AnyGame) → All (IsSoundMachine g) machines }
    requires one_item { length items ≡ 1 }
    requires one_recipe { length recipes ≡ 1 }
    requires one_machine { length machines ≡ 1 }
    ensures sound { IsSound result }
    ensures items { length result.items ≡ 1 }
    ensures recipes { length result.recipes ≡ 1 }
    ensures machines { length result.machines ≡ 1 }
{
    Game {
        items,
        fluids: Items::from_vec(Vec::new(alloc)),
        recipes,
        sources: Items::from_vec(Vec::new(alloc)),
        machines,
        techs: Items::from_vec(Vec::new(alloc)),
        character: Character {
            crafting: Items::from_vec(Vec::new(alloc)),
            mining: Items::from_vec(Vec::new(alloc)),
        },
        item_names: names.item,
        fluid_names: Names::make(alloc),
        recipe_names: names.recipe,
        source_names: Names::make(alloc),
        machine_names: names.machine,
        tech_names: Names::make(alloc),
        categories: Names::make(alloc),
    }
}

/// The game of a row, where the machine has a speed.
pub fn game_of(alloc: Global, given: &Given) -> Option<Game>
    ensures sound { IfSome result IsSound }
    ensures items { IfSome result (λ game. length game.items ≡ 1) }
    ensures recipes { IfSome result (λ game. length game.recipes ≡ 1) }
    ensures machines { IfSome result (λ game. length game.machines ≡ 1) }
{
    let names = one_names(alloc)?;
    let items = items(alloc, given)?;
    let recipes = recipes(alloc, given)?;
    let machines = machines(alloc, given)?;
    Some(game_with(alloc, names, items, recipes, machines))
}

// What the machine burns.
fn fuel_of(given: &Given) -> Option<GoodId>
    ensures { IfSome result (λ good. good.0 ≡ 0) }
{
    if is_positive(&given.effectivity) {
        Some(GoodId(0))
    } else {
        None
    }
}

fn setup_with(alloc: Global, fuel: Option<GoodId>) -> Setup
    ensures activity { result.activity ≡ Activity.Craft (record { 0 = 0 }) }
    ensures machine { result.machine.0 ≡ 0 }
    ensures fuel { result.fuel ≡ fuel }
    ensures modules { result.modules ≡ [] }
    ensures beacons { result.beacons ≡ [] }
    ensures at { result.at ≡ [] }
{
    Setup {
        activity: Activity::Craft(RecipeId(0)),
        machine: EntityId(0),
        fuel,
        modules: Items::from_vec(Vec::new(alloc)),
        beacons: Items::from_vec(Vec::new(alloc)),
        at: Items::from_vec(Vec::new(alloc)),
    }
}

/// The machine of the row, set to its recipe.
pub fn setup_of(alloc: Global, given: &Given) -> Setup
    ensures activity { result.activity ≡ Activity.Craft (record { 0 = 0 }) }
    ensures machine { result.machine.0 ≡ 0 }
    ensures fuel { IfSome result.fuel (λ good. good.0 ≡ 0) }
    ensures modules { result.modules ≡ [] }
    ensures beacons { result.beacons ≡ [] }
    ensures at { result.at ≡ [] }
{
    setup_with(alloc, fuel_of(given))
}
