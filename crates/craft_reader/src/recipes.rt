//! Recipes.
ghost use Rattle.std.specs.Prelude.{◌≡◌, IfErr, Some, codes, option_map, pos};
ghost use Rattle.json_text.specs.SpanSeen.{span_seen};
ghost use Rattle.fractions.specs.Fraction.{frac};
ghost use Rattle.prototype_fields.specs.Seen.{object_seen};
ghost use Rattle.prototype_fields.specs.Values.{Extends, Gives, seen_as, with_names};
ghost use Rattle.craft_reader.specs.Faults.{GivesDump, IsBare, in_prototype};
ghost use Rattle.craft_reader.specs.Recipes.{chosen, ingredients_of, is_false, is_switched_off, object_under, products_of, raw_recipe, recipe_of};

use crate::{DumpFault, RawPart, RawProduct, ingredients, products};
use fractions::Ratio;
use json_text::{SpanNode, SpanTree};
use name_table::Names;
use plan_base::Items;
use prototype_fields::{FieldCode, FieldFault, Fields, Key, Within, as_object};
use std::alloc::Global;

/// A recipe, with the names of its goods.
#[derive(Drop)]
pub struct RawRecipe {
    /// Its place among the names of categories.
    pub category: u32,
    /// In seconds.
    pub time: Ratio,
    pub enabled: bool,
    /// What the pollution of its machine is multiplied by.
    pub emissions: Ratio,
    pub ingredients: Items<RawPart>,
    pub products: Items<RawProduct>,
}

// The object under a key, where there is one, as part of the prototype itself.
#[tactic(auto, unfolding(crate::specs::Recipes::object_under))]
fn object_under<'t, 'b>(prototype: &Fields<'t, 'b>, key: Key) -> Option<Fields<'t, 'b>>
    ensures { option_map object_seen result ≡ object_under (object_seen prototype.now) key }
{
    let Some(value) = prototype.field(key) else {
        return None;
    };
    match as_object(value) {
        Some(members) => Some(Fields::of_members(prototype.within(), members)),
        None => None,
    }
}

/// The object that a recipe or technology is read of: `normal` where that is an object, else `expensive` where that is
/// one, else the prototype itself.
#[tactic(auto, unfolding(crate::specs::Recipes::chosen))]
pub fn chosen<'t, 'b>(prototype: &Fields<'t, 'b>) -> Fields<'t, 'b>
    ensures { object_seen result ≡ chosen (object_seen prototype.now) }
{
    if let Some(normal) = object_under(prototype, Key::Normal) {
        return normal;
    }
    match object_under(prototype, Key::Expensive) {
        Some(expensive) => expensive,
        None => *prototype,
    }
}

fn is_false(value: &SpanTree<'_>) -> bool
    ensures { result ≡ is_false (Some (span_seen value.now)) }
{
    match &value.node {
        SpanNode::Flag(flag) => !*flag,
        _ => false,
    }
}

/// Whether `expensive` is chosen where `normal` is `false`.
#[tactic(auto, unfolding(crate::specs::Recipes::is_switched_off))]
pub fn is_switched_off(prototype: &Fields<'_, '_>) -> bool
    ensures { result ≡ is_switched_off (object_seen prototype.now) }
{
    match object_under(prototype, Key::Expensive) {
        Some(_) => match prototype.field(Key::Normal) {
            Some(normal) => is_false(normal),
            None => false,
        },
        None => false,
    }
}

// The ingredients of a recipe.
#[tactic(auto, unfolding(crate::specs::Recipes::ingredients_of))]
fn ingredients_of(alloc: Global, fields: &Fields<'_, '_>) -> Result<Items<RawPart>, FieldFault>
    ensures { Gives (ingredients_of (object_seen fields.now)) result }
{
    let elements = fields.required_short_list(Key::Ingredients)?;
    ingredients(alloc, Within::Ingredients, elements)
}

// The products of a recipe, which are required.
#[tactic(auto, unfolding(crate::specs::Recipes::products_of))]
fn products_of(alloc: Global, fields: &Fields<'_, '_>) -> Result<Items<RawProduct>, FieldFault>
    ensures { Gives (products_of (object_seen fields.now)) result }
{
    match products(alloc, Within::Results, fields, Key::ResultCount)? {
        Some(products) => Ok(products),
        None => Err(fields.fault(FieldCode::Missing, Key::Results)),
    }
}

// A half.
fn half() -> Ratio
    ensures { result ≡ frac (pos 1) 2 }
{
    Ratio::part(1, 2)
}

/// A recipe. Its category is put among the names.
///
/// # Errors
///
/// The first fault of its fields, in the order in which they are read. `NoMemory` where memory could not be had. After an
/// error the names may have further ones at their end.
pub fn raw_recipe(
    alloc: Global,
    prototype: &Fields<'_, '_>,
    categories: &mut Names,
) -> Result<RawRecipe, FieldFault>
    ensures gives { Gives (raw_recipe (object_seen prototype.now) categories.old) (with_names categories.new result) }
    ensures names { Extends categories.old categories.new }
{
    let name = prototype.name_or(Key::Category, "crafting")?;
    let category = prototype.category(Key::Category, name, categories)?;
    let fields = chosen(prototype);
    let ingredients = ingredients_of(alloc, &fields)?;
    let products = products_of(alloc, &fields)?;
    let time = fields.positive_or(Key::EnergyRequired, half())?;
    let enabled = fields.flag_or(Key::Enabled, true)?;
    let emissions = fields.amount_or(Key::EmissionsMultiplier, Ratio::one())?;
    Ok(RawRecipe {
        category,
        time,
        enabled: enabled && !is_switched_off(prototype),
        emissions,
        ingredients,
        products,
    })
}

// The recipe of a prototype.
#[tactic(auto, unfolding(crate::specs::Recipes::recipe_of))]
fn recipe_of(
    alloc: Global,
    tree: &SpanTree<'_>,
    categories: &mut Names,
) -> Result<RawRecipe, FieldFault>
    ensures gives { Gives (recipe_of (span_seen tree.now) categories.old) (with_names categories.new result) }
    ensures names { Extends categories.old categories.new }
{
    let prototype = Fields::of_element(Within::Prototype, tree)?;
    raw_recipe(alloc, &prototype, categories)
}

/// The recipe of a prototype of this name. Its category is put among the names.
///
/// # Errors
///
/// The first fault of the prototype or of its fields, in the order in which they are read. `NoMemory` where memory could
/// not be had. After an error the names may have further ones at their end.
pub fn read_recipe(
    alloc: Global,
    name: &str,
    tree: &SpanTree<'_>,
    categories: &mut Names,
) -> Result<RawRecipe, DumpFault>
    ensures gives { GivesDump (in_prototype (codes "recipe") name.now (recipe_of (span_seen tree.now) categories.old)) (seen_as (λ recipe. (recipe, categories.new)) result) }
    ensures names { Extends categories.old categories.new }
    ensures bare { IfErr result IsBare }
{
    match recipe_of(alloc, tree, categories) {
        Ok(recipe) => Ok(recipe),
        Err(fault) => Err(DumpFault::of_field(alloc, "recipe", name, fault)),
    }
}
