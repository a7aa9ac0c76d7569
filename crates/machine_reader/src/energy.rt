//! Energy sources of machines.
ghost use Rattle.std.specs.Prelude.{◌≡◌, option_map};
ghost use Rattle.json_text.specs.SpanSeen.{spans_seen};
ghost use Rattle.prototype_fields.specs.Seen.{object_seen};
ghost use Rattle.prototype_fields.specs.Values.{Gives, with_names};
ghost use Rattle.machine_reader.specs.Energy.{filter_of, one_category, fuel_categories_in, fuel_categories_of, burner_of, fluid_energy_of, kind_named, kind_of, source_by, source_of, machine_source_of, burner_source_of};

use crate::names::read_name;
use crate::raw::RawEnergy;
use fractions::Ratio;
use json_text::SpanTree;
use name_table::Names;
use plan_base::{Items, Text};
use prototype_fields::{FieldCode, FieldFault, Fields, Key, Within};
use std::alloc::Global;

/// The kinds of energy sources.
#[derive(Clone, Copy)]
pub enum EnergyKind {
    Electric,
    Burner,
    Heat,
    Fluid,
    Void,
}

/// An energy source: the energy, its drain where one is given, and pollution a minute.
#[derive(Drop)]
pub struct Source {
    pub energy: RawEnergy,
    pub drain: Option<Ratio>,
    pub emissions: Ratio,
}

/// The fluid that a box is filtered to.
#[tactic(auto, unfolding(crate::specs::Energy::filter_of))]
pub fn read_filter(
    alloc: Global,
    fields: &Fields<'_, '_>,
    key: Key,
    within: Within,
) -> Result<Option<Text>, FieldFault>
    ensures { Gives (filter_of (object_seen fields.now) key within) result }
{
    let fluid_box = fields.object_or_empty(key, within)?;
    read_name(alloc, &fluid_box, Key::Filter)
}

// One category alone.
fn one_category(
    alloc: Global,
    fields: &Fields<'_, '_>,
    names: &mut Names,
) -> Result<Items<u32>, FieldFault>
    ensures { Gives (one_category (object_seen fields.now) names.old) (with_names names.new result) }
{
    let name = fields.name_or(Key::FuelCategory, "chemical")?;
    let category = fields.category(Key::FuelCategory, name, names)?;
    let mut categories = Vec::new(alloc);
    categories.push(category)?;
    Ok(Items::from_vec(categories))
}

// The categories of fuels that a burner takes.
#[tactic(auto, unfolding(crate::specs::Energy::fuel_categories_of))]
fn fuel_categories(
    alloc: Global,
    fields: &Fields<'_, '_>,
    names: &mut Names,
) -> Result<Items<u32>, FieldFault>
    ensures { Gives (fuel_categories_of (object_seen fields.now) names.old) (with_names names.new result) }
{
    match fields.list(Key::FuelCategories)? {
        Some(elements) => fields.categories(alloc, Key::FuelCategories, elements, names),
        None => one_category(alloc, fields, names),
    }
}

// A burner.
#[tactic(auto, unfolding(crate::specs::Energy::burner_of))]
fn read_burner(
    alloc: Global,
    fields: &Fields<'_, '_>,
    names: &mut Names,
) -> Result<RawEnergy, FieldFault>
    ensures { Gives (burner_of (object_seen fields.now) names.old) (with_names names.new result) }
{
    let categories = fuel_categories(alloc, fields, names)?;
    let effectivity = fields.positive_or(Key::Effectivity, Ratio::one())?;
    Ok(RawEnergy::Burner {
        categories,
        effectivity,
    })
}

// What takes the energy of a fluid.
#[tactic(auto, unfolding(crate::specs::Energy::fluid_energy_of))]
fn read_fluid_energy(alloc: Global, fields: &Fields<'_, '_>) -> Result<RawEnergy, FieldFault>
    ensures { Gives (fluid_energy_of (object_seen fields.now)) result }
{
    let filter = read_filter(alloc, fields, Key::FluidBox, Within::EnergySourceFluidBox)?;
    let effectivity = fields.positive_or(Key::Effectivity, Ratio::one())?;
    Ok(RawEnergy::Fluid {
        filter,
        effectivity,
    })
}

// The kind of that name.
fn kind_named(text: &str) -> Option<EnergyKind>
    ensures { result ≡ kind_named text.now }
{
    if text == "electric" {
        Some(EnergyKind::Electric)
    } else if text == "burner" {
        Some(EnergyKind::Burner)
    } else if text == "heat" {
        Some(EnergyKind::Heat)
    } else if text == "fluid" {
        Some(EnergyKind::Fluid)
    } else if text == "void" {
        Some(EnergyKind::Void)
    } else {
        None
    }
}

// The kind of a source.
#[tactic(auto, unfolding(crate::specs::Energy::kind_of))]
fn read_kind(fields: &Fields<'_, '_>) -> Result<EnergyKind, FieldFault>
    ensures { result ≡ kind_of (object_seen fields.now) }
{
    let Some(text) = fields.text(Key::TypeName)? else {
        return Err(fields.fault(FieldCode::Missing, Key::TypeName));
    };
    match kind_named(text) {
        Some(kind) => Ok(kind),
        None => Err(fields.fault(FieldCode::WrongKind, Key::TypeName)),
    }
}

// The source of a kind.
fn source_by(
    alloc: Global,
    fields: &Fields<'_, '_>,
    emissions: Ratio,
    kind: EnergyKind,
    names: &mut Names,
) -> Result<Source, FieldFault>
    ensures { Gives (source_by (object_seen fields.now) names.old emissions kind) (with_names names.new result) }
{
    match kind {
        EnergyKind::Electric => {
            let drain = fields.power(Key::Drain)?;
            Ok(Source {
                energy: RawEnergy::Electric,
                drain,
                emissions,
            })
        }
        EnergyKind::Burner => {
            let energy = read_burner(alloc, fields, names)?;
            Ok(Source {
                energy,
                drain: None,
                emissions,
            })
        }
        EnergyKind::Heat => Ok(Source {
            energy: RawEnergy::Heat,
            drain: None,
            emissions,
        }),
        EnergyKind::Fluid => {
            let energy = read_fluid_energy(alloc, fields)?;
            Ok(Source {
                energy,
                drain: None,
                emissions,
            })
        }
        EnergyKind::Void => Ok(Source {
            energy: RawEnergy::Void,
            drain: None,
            emissions,
        }),
    }
}

// An energy source.
#[tactic(auto, unfolding(crate::specs::Energy::source_of))]
fn read_source(
    alloc: Global,
    fields: &Fields<'_, '_>,
    names: &mut Names,
) -> Result<Source, FieldFault>
    ensures { Gives (source_of (object_seen fields.now) names.old) (with_names names.new result) }
{
    let kind = read_kind(fields)?;
    let emissions = fields.number_or(Key::EmissionsPerMinute, Ratio::zero())?;
    source_by(alloc, fields, emissions, kind, names)
}

/// The energy source of a machine.
#[tactic(auto, unfolding(crate::specs::Energy::machine_source_of))]
pub fn read_machine_source(
    alloc: Global,
    fields: &Fields<'_, '_>,
    names: &mut Names,
) -> Result<Source, FieldFault>
    ensures { Gives (machine_source_of (object_seen fields.now) names.old) (with_names names.new result) }
{
    let source = fields.required_object(Key::EnergySource, Within::EnergySource)?;
    read_source(alloc, &source, names)
}

/// A source that burns, whose kind isn't read.
#[tactic(auto, unfolding(crate::specs::Energy::burner_source_of))]
pub fn read_burner_source(
    alloc: Global,
    fields: &Fields<'_, '_>,
    names: &mut Names,
) -> Result<Source, FieldFault>
    ensures { Gives (burner_source_of (object_seen fields.now) names.old) (with_names names.new result) }
{
    let emissions = fields.number_or(Key::EmissionsPerMinute, Ratio::zero())?;
    let energy = read_burner(alloc, fields, names)?;
    Ok(Source {
        energy,
        drain: None,
        emissions,
    })
}
