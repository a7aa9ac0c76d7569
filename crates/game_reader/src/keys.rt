//! The keys of a dump that are read: sections, and fields of prototypes.
ghost use Rattle.std.specs.Prelude.{◌≡◌, ◌≤◌, ◌<◌, IfOk, length, map, take};
ghost use Rattle.game_reader.specs.Keys.{dump_wishes};
ghost use Rattle.json_text.specs.Seen.{wishes};

use json_text::Wanted;
use plan_base::{NoMemory, Text};
use std::alloc::Global;

/// The sections of a dump that are read: prototype types, in the order of reading.
pub const SECTIONS: [&str; 40] = [
    "item",
    "ammo",
    "capsule",
    "gun",
    "item-with-entity-data",
    "item-with-label",
    "item-with-inventory",
    "blueprint-book",
    "item-with-tags",
    "selection-tool",
    "blueprint",
    "copy-paste-tool",
    "deconstruction-item",
    "upgrade-item",
    "module",
    "rail-planner",
    "spidertron-remote",
    "tool",
    "armor",
    "repair-tool",
    "fluid",
    "recipe",
    "resource",
    "tree",
    "simple-entity",
    "fish",
    "assembling-machine",
    "furnace",
    "rocket-silo",
    "mining-drill",
    "offshore-pump",
    "boiler",
    "generator",
    "burner-generator",
    "solar-panel",
    "reactor",
    "lab",
    "beacon",
    "character",
    "technology",
];

/// The keys that are read within prototypes, whatever the section.
pub const FIELDS: [&str; 82] = [
    "place_result",
    "fuel_category",
    "fuel_value",
    "fuel_emissions_multiplier",
    "burnt_result",
    "effect",
    "speed",
    "productivity",
    "consumption",
    "pollution",
    "bonus",
    "limitation",
    "limitation_blacklist",
    "rocket_launch_products",
    "rocket_launch_product",
    "heat_capacity",
    "default_temperature",
    "category",
    "ingredients",
    "results",
    "result",
    "result_count",
    "energy_required",
    "enabled",
    "emissions_multiplier",
    "normal",
    "expensive",
    "minable",
    "autoplace",
    "mining_time",
    "count",
    "required_fluid",
    "fluid_amount",
    "crafting_speed",
    "crafting_categories",
    "energy_usage",
    "energy_source",
    "module_specification",
    "module_slots",
    "allowed_effects",
    "base_productivity",
    "fixed_recipe",
    "rocket_parts_required",
    "mining_speed",
    "resource_categories",
    "input_fluid_box",
    "fluid",
    "pumping_speed",
    "energy_consumption",
    "mode",
    "target_temperature",
    "fluid_box",
    "filter",
    "output_fluid_box",
    "effectivity",
    "fluid_usage_per_tick",
    "maximum_temperature",
    "burns_fluid",
    "max_power_output",
    "burner",
    "production",
    "inputs",
    "researching_speed",
    "distribution_effectivity",
    "mining_categories",
    "prerequisites",
    "unit",
    "time",
    "effects",
    "type",
    "recipe",
    "name",
    "amount",
    "temperature",
    "minimum_temperature",
    "amount_min",
    "amount_max",
    "probability",
    "catalyst_amount",
    "emissions_per_minute",
    "drain",
    "fuel_categories",
];

// A text for each key.
fn texts(alloc: Global, keys: &[&str]) -> Result<Vec<Text>, NoMemory>
    ensures { IfOk result (λ texts. texts.items ≡ map (λ key. key.now) keys.now) }
{
    let mut texts = Vec::new(alloc);
    for key in keys {
        texts.push(Text::copy(alloc, key)?)?;
    }
    Ok(texts)
}

/// The keys under which values of a dump are kept.
#[tactic(auto, using(crate::proofs::WantedKeys::sections_are, crate::proofs::WantedKeys::fields_are))]
pub fn dump_wanted(alloc: Global) -> Result<Wanted, NoMemory>
    ensures { IfOk result (λ wanted. wishes wanted ≡ dump_wishes) }
{
    let sections = texts(alloc, SECTIONS.as_slice())?;
    let fields = texts(alloc, FIELDS.as_slice())?;
    Ok(Wanted { sections, fields })
}
