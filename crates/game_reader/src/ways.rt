//! Recipes, sources and technologies with ids in place of names.
ghost use Rattle.std.specs.Prelude.{◌≡◌};
ghost use Rattle.prototype_fields.specs.Values.{Gives};
ghost use Rattle.game_reader.specs.Links.{if_given, linked_fluid, linked_recipe, linked_source, linked_tech};

use crate::families::Families;
use crate::goods::{link_packs, link_parts, link_products};
use craft_reader::{RawRecipe, RawTech};
use dump_reader::RawSource;
use fractions::Ratio;
use game_types::{Recipe, Source, Tech};
use plan_base::{GoodId, Text};
use prototype_fields::{FieldFault, Key, Within};
use std::alloc::Global;

/// A recipe.
#[tactic(auto, unfolding(crate::specs::Links::linked_recipe))]
pub fn link_recipe(
    alloc: Global,
    names: &Families,
    recipe: &RawRecipe,
) -> Result<Recipe, FieldFault>
    ensures { Gives (linked_recipe names.now recipe.now) result }
{
    let ingredients = link_parts(alloc, names, &recipe.ingredients)?;
    let products = link_products(alloc, names, &recipe.products)?;
    Ok(Recipe {
        category: recipe.category,
        time: recipe.time,
        enabled: recipe.enabled,
        emissions: recipe.emissions,
        ingredients,
        products,
        launch: None,
    })
}

// The fluid that one operation takes.
#[tactic(auto, unfolding(crate::specs::Links::linked_fluid))]
fn link_fluid(names: &Families, taken: &(Text, Ratio)) -> Result<(GoodId, Ratio), FieldFault>
    ensures { result ≡ linked_fluid names.now taken.now }
{
    let good = names.fluid(Within::Minable, Key::RequiredFluid, taken.0.as_str())?;
    Ok((good, taken.1))
}

// The same, where it takes one.
fn link_optional_fluid(
    names: &Families,
    taken: &Option<(Text, Ratio)>,
) -> Result<Option<(GoodId, Ratio)>, FieldFault>
    ensures { result ≡ if_given (linked_fluid names.now) taken.now }
{
    match taken {
        Some(taken) => Ok(Some(link_fluid(names, taken)?)),
        None => Ok(None),
    }
}

/// What is mined.
#[tactic(auto, unfolding(crate::specs::Links::linked_source))]
pub fn link_source(
    alloc: Global,
    names: &Families,
    source: &RawSource,
) -> Result<Source, FieldFault>
    ensures { Gives (linked_source names.now source.now) result }
{
    let products = link_products(alloc, names, &source.products)?;
    let fluid = link_optional_fluid(names, &source.fluid)?;
    Ok(Source {
        drilled: source.drilled,
        category: source.category,
        time: source.time,
        placed: source.placed,
        products,
        fluid,
    })
}

/// A technology.
#[tactic(auto, unfolding(crate::specs::Links::linked_tech))]
pub fn link_tech(alloc: Global, names: &Families, tech: &RawTech) -> Result<Tech, FieldFault>
    ensures { Gives (linked_tech names.now tech.now) result }
{
    let prerequisites = names.each_tech(
        alloc,
        Within::Prototype,
        Key::Prerequisites,
        &tech.prerequisites,
    )?;
    let ingredients = link_packs(alloc, names, &tech.ingredients)?;
    let unlocks = names.each_recipe(alloc, Within::Effects, Key::Recipe, &tech.unlocks)?;
    Ok(Tech {
        enabled: tech.enabled,
        prerequisites,
        unlocks,
        ingredients,
        count: tech.count,
        time: tech.time,
    })
}
