//! Technologies.
ghost use Rattle.std.specs.Prelude.{◌≡◌, IfErr, codes, option_map};
ghost use Rattle.json_text.specs.SpanSeen.{span_seen, spans_seen};
ghost use Rattle.prototype_fields.specs.Seen.{object_seen};
ghost use Rattle.prototype_fields.specs.Values.{Gives, each_found, seen_as};
ghost use Rattle.craft_reader.specs.Faults.{GivesDump, IsBare, in_prototype};
ghost use Rattle.craft_reader.specs.Technologies.{packs_of, prerequisites_of, raw_tech, tech_of, unlock, unlocks_of};

use crate::{DumpFault, RawPack, chosen, is_switched_off, packs};
use fractions::Ratio;
use json_text::SpanTree;
use plan_base::{Items, Text};
use prototype_fields::{FieldFault, Fields, Key, Within};
use std::alloc::Global;

/// A technology, with the names of what it speaks of.
#[derive(Drop)]
pub struct RawTech {
    pub enabled: bool,
    /// The technologies that it needs.
    pub prerequisites: Items<Text>,
    /// The recipes that it unlocks.
    pub unlocks: Items<Text>,
    /// The science packs of one unit of research.
    pub ingredients: Items<RawPack>,
    /// How many units it takes.
    pub count: Option<Ratio>,
    /// The time of one unit, in seconds.
    pub time: Ratio,
}

// The recipe that an effect unlocks.
#[tactic(auto, unfolding(crate::specs::Technologies::unlock))]
fn unlock<'t>(element: &'t SpanTree<'_>) -> Result<Option<&'t str>, FieldFault>
    ensures { seen_as (option_map (λ text. text.now)) result ≡ unlock (span_seen element.now) }
{
    let effect = Fields::of_element(Within::Effects, element)?;
    let Some(spelled) = effect.text(Key::TypeName)? else {
        return Ok(None);
    };
    if spelled == "unlock-recipe" {
        Ok(Some(effect.required_name(Key::Recipe)?))
    } else {
        Ok(None)
    }
}

fn each_unlock(alloc: Global, elements: &[SpanTree<'_>]) -> Result<Items<Text>, FieldFault>
    ensures { Gives (each_found unlock (spans_seen elements.now)) result }
{
    let mut recipes = Vec::new(alloc);
    for element in elements {
        if let Some(recipe) = unlock(element)? {
            recipes.push(Text::copy(alloc, recipe)?)?;
        }
    }
    Ok(Items::from_vec(recipes))
}

#[tactic(auto, unfolding(crate::specs::Technologies::prerequisites_of))]
fn prerequisites_of(alloc: Global, fields: &Fields<'_, '_>) -> Result<Items<Text>, FieldFault>
    ensures { Gives (prerequisites_of (object_seen fields.now)) result }
{
    let elements = fields.short_list_or_empty(Key::Prerequisites)?;
    fields.names_in(alloc, Key::Prerequisites, elements)
}

#[tactic(auto, unfolding(crate::specs::Technologies::packs_of))]
fn packs_of(alloc: Global, unit: &Fields<'_, '_>) -> Result<Items<RawPack>, FieldFault>
    ensures { Gives (packs_of (object_seen unit.now)) result }
{
    let elements = unit.required_short_list(Key::Ingredients)?;
    packs(alloc, Within::UnitIngredients, elements)
}

#[tactic(auto, unfolding(crate::specs::Technologies::unlocks_of))]
fn unlocks_of(alloc: Global, fields: &Fields<'_, '_>) -> Result<Items<Text>, FieldFault>
    ensures { Gives (unlocks_of (object_seen fields.now)) result }
{
    let elements = fields.short_list_or_empty(Key::Effects)?;
    each_unlock(alloc, elements)
}

/// A technology.
///
/// # Errors
///
/// The first fault of its fields, in the order in which they are read. `NoMemory` where memory could not be had.
pub fn raw_tech(alloc: Global, prototype: &Fields<'_, '_>) -> Result<RawTech, FieldFault>
    ensures { Gives (raw_tech (object_seen prototype.now)) result }
{
    let fields = chosen(prototype);
    let enabled = fields.flag_or(Key::Enabled, true)?;
    let prerequisites = prerequisites_of(alloc, &fields)?;
    let unit = fields.required_object(Key::Unit, Within::Unit)?;
    let ingredients = packs_of(alloc, &unit)?;
    let count = unit.amount(Key::Count)?;
    let time = unit.required_amount(Key::Time)?;
    let unlocks = unlocks_of(alloc, &fields)?;
    Ok(RawTech {
        enabled: enabled && !is_switched_off(prototype),
        prerequisites,
        unlocks,
        ingredients,
        count,
        time,
    })
}

// The technology of a prototype.
#[tactic(auto, unfolding(crate::specs::Technologies::tech_of))]
fn tech_of(alloc: Global, tree: &SpanTree<'_>) -> Result<RawTech, FieldFault>
    ensures { Gives (tech_of (span_seen tree.now)) result }
{
    let prototype = Fields::of_element(Within::Prototype, tree)?;
    raw_tech(alloc, &prototype)
}

/// The technology of a prototype of this name.
///
/// # Errors
///
/// The first fault of the prototype or of its fields, in the order in which they are read. `NoMemory` where memory could
/// not be had.
pub fn read_tech(alloc: Global, name: &str, tree: &SpanTree<'_>) -> Result<RawTech, DumpFault>
    ensures gives { GivesDump (in_prototype (codes "technology") name.now (tech_of (span_seen tree.now))) result }
    ensures bare { IfErr result IsBare }
{
    match tech_of(alloc, tree) {
        Ok(tech) => Ok(tech),
        Err(fault) => Err(DumpFault::of_field(alloc, "technology", name, fault)),
    }
}
