//! Machines that craft and drills, by their fields.
ghost use Rattle.std.specs.Prelude.{◌≡◌};
ghost use Rattle.prototype_fields.specs.Seen.{object_seen};
ghost use Rattle.prototype_fields.specs.Values.{Gives, with_names};
ghost use Rattle.machine_reader.specs.Machines.{drill_rules_of, crafter_rules_of, fitted_machine, recipe_of, parts_of, crafter_of, drill_of};

use crate::energy::read_machine_source;
use crate::machines::{fitted_machine, read_work};
use crate::module_rules::{
    ALL_ALLOWED, ModuleRules, NONE_ALLOWED, read_allowed, read_module_rules, read_slots,
};
use crate::names::read_name;
use crate::raw::{RawKind, RawMachine};
use crate::sections::Section;
use fractions::Ratio;
use name_table::Names;
use plan_base::Text;
use prototype_fields::{FieldFault, Fields, Key, Within, thirtieth};
use std::alloc::Global;

/// What a crafter says of modules, the recipe that it is fixed to, and the parts that it puts together to a rocket.
#[derive(Drop)]
pub struct CrafterRules {
    pub modules: ModuleRules,
    pub recipe: Option<Text>,
    pub parts: u32,
}

/// What a drill says of modules, and whether it takes a fluid.
#[derive(Clone, Copy)]
pub struct DrillRules {
    pub modules: ModuleRules,
    pub fluid_box: bool,
}

// The same of a drill, in its order, and whether it takes a fluid.
#[tactic(auto, unfolding(crate::specs::Machines::drill_rules_of))]
fn read_drill_rules(alloc: Global, fields: &Fields<'_, '_>) -> Result<DrillRules, FieldFault>
    ensures { Gives (drill_rules_of (object_seen fields.now)) result }
{
    let slots = read_slots(fields)?;
    let base_productivity = fields.number_or(Key::BaseProductivity, Ratio::zero())?;
    let allowed = read_allowed(alloc, fields, ALL_ALLOWED)?;
    let fluid_box = fields.object(Key::InputFluidBox, Within::FluidBox)?;
    Ok(DrillRules {
        modules: ModuleRules {
            slots,
            allowed,
            base_productivity,
        },
        fluid_box: fluid_box.is_some(),
    })
}

// The recipe that a machine is fixed to.
#[tactic(auto, unfolding(crate::specs::Machines::recipe_of))]
fn read_recipe(
    alloc: Global,
    section: Section,
    fields: &Fields<'_, '_>,
) -> Result<Option<Text>, FieldFault>
    ensures { Gives (recipe_of section (object_seen fields.now)) result }
{
    match section {
        Section::Furnace => Ok(None),
        _ => read_name(alloc, fields, Key::FixedRecipe),
    }
}

// The parts that a silo puts together to a rocket.
#[tactic(auto, unfolding(crate::specs::Machines::parts_of))]
fn read_parts(section: Section, fields: &Fields<'_, '_>) -> Result<u32, FieldFault>
    ensures { result ≡ parts_of section (object_seen fields.now) }
{
    match section {
        Section::RocketSilo => fields.whole_or(Key::RocketPartsRequired, 100),
        _ => Ok(0),
    }
}

// What a crafter says of modules, and what it is fixed to.
#[tactic(auto, unfolding(crate::specs::Machines::crafter_rules_of))]
fn read_crafter_rules(
    alloc: Global,
    section: Section,
    fields: &Fields<'_, '_>,
) -> Result<CrafterRules, FieldFault>
    ensures { Gives (crafter_rules_of section (object_seen fields.now)) result }
{
    let modules = read_module_rules(alloc, fields, NONE_ALLOWED)?;
    let recipe = read_recipe(alloc, section, fields)?;
    let parts = read_parts(section, fields)?;
    Ok(CrafterRules {
        modules,
        recipe,
        parts,
    })
}

// A machine that crafts.
#[tactic(auto, unfolding(crate::specs::Machines::crafter_of))]
pub fn read_crafter(
    alloc: Global,
    section: Section,
    fields: &Fields<'_, '_>,
    names: &mut Names,
) -> Result<RawMachine, FieldFault>
    ensures { Gives (crafter_of section (object_seen fields.now) names.old) (with_names names.new result) }
{
    let work = read_work(
        alloc,
        fields,
        Key::CraftingSpeed,
        Key::CraftingCategories,
        names,
    )?;
    let usage = fields.required_power(Key::EnergyUsage)?;
    let source = read_machine_source(alloc, fields, names)?;
    let rules = read_crafter_rules(alloc, section, fields)?;
    let kind = RawKind::Crafter {
        speed: work.speed,
        categories: work.categories,
        fixed: rules.recipe,
    };
    Ok(fitted_machine(
        section,
        kind,
        source,
        usage,
        thirtieth(&usage),
        rules.modules,
        rules.parts,
    ))
}

// A drill.
#[tactic(auto, unfolding(crate::specs::Machines::drill_of))]
pub fn read_drill(
    alloc: Global,
    section: Section,
    fields: &Fields<'_, '_>,
    names: &mut Names,
) -> Result<RawMachine, FieldFault>
    ensures { Gives (drill_of section (object_seen fields.now) names.old) (with_names names.new result) }
{
    let work = read_work(
        alloc,
        fields,
        Key::MiningSpeed,
        Key::ResourceCategories,
        names,
    )?;
    let usage = fields.required_power(Key::EnergyUsage)?;
    let source = read_machine_source(alloc, fields, names)?;
    let rules = read_drill_rules(alloc, fields)?;
    let kind = RawKind::Drill {
        speed: work.speed,
        categories: work.categories,
        fluid_box: rules.fluid_box,
    };
    Ok(fitted_machine(
        section,
        kind,
        source,
        usage,
        Ratio::zero(),
        rules.modules,
        0,
    ))
}
