//! Copies of records that hold lists.
use fractions::Ratio;
use game_types::{Activity, BeaconGroup, Part, Product, Recipe, Setup, Tech};
use plan_base::{EntityId, GoodId, Items, NoMemory, RecipeId, TechId};
use std::alloc::{AllocError, Global};
use std::test::Fail;

fn list<T: Copy + Drop>(alloc: Global, items: &[T]) -> Result<Items<T>, AllocError> {
    let mut list = Vec::new(alloc);
    for item in items {
        list.push(*item)?;
    }
    Ok(Items::from_vec(list))
}

fn part() -> Part {
    Part {
        good: GoodId(3),
        amount: Ratio::whole(5),
        low: None,
        high: Some(Ratio::one()),
    }
}

fn product() -> Product {
    Product {
        good: GoodId(4),
        low: Ratio::one(),
        high: Ratio::whole(2),
        probability: Ratio::part(1, 2),
        catalyst: Ratio::zero(),
        temperature: None,
    }
}

fn recipe_of(ingredients: Items<Part>, products: Items<Product>) -> Recipe {
    Recipe {
        category: 1,
        time: Ratio::part(1, 2),
        enabled: true,
        emissions: Ratio::one(),
        ingredients,
        products,
        launch: Some(EntityId(2)),
    }
}

fn recipe(alloc: Global) -> Result<Recipe, AllocError> {
    let ingredients = list(alloc, [part(), part()].as_slice())?;
    let products = list(alloc, [product()].as_slice())?;
    Ok(recipe_of(ingredients, products))
}

fn is_that_recipe(copy: &Recipe) -> bool {
    copy.ingredients.len() == 2
        && copy.products.len() == 1
        && copy.time.denominator() == 2
        && copy.launch == Some(EntityId(2))
}

fn is_recipe_copied(alloc: Global) -> Result<bool, NoMemory> {
    let recipe = recipe(alloc)?;
    let copy = recipe.copy(alloc)?;
    Ok(is_that_recipe(&copy))
}

#[test]
fn a_recipe_is_copied(rt: HostRuntime) -> Result<(), Fail> {
    assert!(rt; is_recipe_copied(rt.alloc())?);
    Ok(())
}

fn tech_of(
    prerequisites: Items<TechId>,
    unlocks: Items<RecipeId>,
    ingredients: Items<(GoodId, Ratio)>,
) -> Tech {
    Tech {
        enabled: false,
        prerequisites,
        unlocks,
        ingredients,
        count: None,
        time: Ratio::whole(30),
    }
}

fn tech(alloc: Global) -> Result<Tech, AllocError> {
    let prerequisites = list(alloc, [TechId(1)].as_slice())?;
    let unlocks = list(alloc, [RecipeId(2), RecipeId(3)].as_slice())?;
    let ingredients = list(alloc, [(GoodId(7), Ratio::one())].as_slice())?;
    Ok(tech_of(prerequisites, unlocks, ingredients))
}

fn is_that_tech(copy: &Tech) -> bool {
    !copy.enabled
        && copy.prerequisites.len() == 1
        && copy.unlocks.len() == 2
        && copy.ingredients.len() == 1
}

fn is_tech_copied(alloc: Global) -> Result<bool, NoMemory> {
    let tech = tech(alloc)?;
    let copy = tech.copy(alloc)?;
    Ok(is_that_tech(&copy))
}

#[test]
fn a_technology_is_copied(rt: HostRuntime) -> Result<(), Fail> {
    assert!(rt; is_tech_copied(rt.alloc())?);
    Ok(())
}

fn group_of(modules: Items<(GoodId, u32)>) -> BeaconGroup {
    BeaconGroup {
        beacon: EntityId(2),
        count: 8,
        share: 4,
        modules,
    }
}

fn groups(alloc: Global) -> Result<Items<BeaconGroup>, NoMemory> {
    let modules = list(alloc, [(GoodId(1), 2u32)].as_slice())?;
    let groups = vec![in alloc; group_of(modules)]?;
    Ok(Items::from_vec(groups))
}

fn setup_of(
    modules: Items<(GoodId, u32)>,
    beacons: Items<BeaconGroup>,
    at: Items<GoodId>,
) -> Setup {
    Setup {
        activity: Activity::Craft(RecipeId(0)),
        machine: EntityId(1),
        fuel: Some(GoodId(9)),
        modules,
        beacons,
        at,
    }
}

fn setup(alloc: Global) -> Result<Setup, NoMemory> {
    let modules = list(alloc, [(GoodId(1), 3u32)].as_slice())?;
    let beacons = groups(alloc)?;
    let at = list(alloc, [GoodId(5)].as_slice())?;
    Ok(setup_of(modules, beacons, at))
}

fn is_that_setup(copy: &Setup) -> bool {
    copy.beacons.len() == 1
        && copy.modules.len() == 1
        && copy.fuel == Some(GoodId(9))
        && copy.at.len() == 1
}

fn is_setup_copied(alloc: Global) -> Result<bool, NoMemory> {
    let setup = setup(alloc)?;
    let copy = setup.copy(alloc)?;
    Ok(is_that_setup(&copy))
}

#[test]
fn a_setup_is_copied(rt: HostRuntime) -> Result<(), Fail> {
    assert!(rt; is_setup_copied(rt.alloc())?);
    Ok(())
}
