//! Machines.
ghost use Rattle.std.specs.Prelude.{◌≡◌};
ghost use Rattle.prototype_fields.specs.Seen.{object_seen};
ghost use Rattle.prototype_fields.specs.Values.{Gives, with_names};
ghost use Rattle.machine_reader.specs.Machines.{drain_of, no_source, plain_machine, fitted_machine, work_of, pump_of, lab_work_of, lab_of, beacon_of, machine_of};

use crate::crafters::{read_crafter, read_drill};
use crate::energy::{Source, read_machine_source};
use crate::module_rules::{
    ALL_ALLOWED, ModuleRules, NONE_ALLOWED, read_beacon_rules, read_module_rules,
};
use crate::power::{read_boiler, read_burner_generator, read_generator, read_reactor, read_solar};
use crate::raw::{RawEnergy, RawKind, RawMachine};
use crate::sections::Section;
use fractions::Ratio;
use name_table::Names;
use plan_base::{Items, Text};
use prototype_fields::{FieldFault, Fields, Key};
use std::alloc::Global;

/// How fast a machine works, and the categories of what it works on.
#[derive(Drop)]
pub struct Work {
    pub speed: Ratio,
    pub categories: Items<u32>,
}

/// What a lab takes, and how fast it works.
#[derive(Drop)]
pub struct LabWork {
    pub inputs: Items<Text>,
    pub speed: Ratio,
}

// The drain of a machine.
fn drain_of(energy: &RawEnergy, drain: Option<Ratio>, default: Ratio) -> Ratio
    ensures { result ≡ drain_of energy.now drain default }
{
    match energy {
        RawEnergy::Electric => drain.unwrap_or(default),
        _ => Ratio::zero(),
    }
}

// A machine that has neither slots nor effects.
pub fn plain_machine(section: Section, kind: RawKind, source: Source, usage: Ratio) -> RawMachine
    ensures { result ≡ plain_machine section kind source usage }
{
    let drain = drain_of(&source.energy, source.drain, Ratio::zero());
    RawMachine {
        section,
        kind,
        energy: source.energy,
        usage,
        drain,
        emissions: source.emissions,
        slots: 0,
        allowed: NONE_ALLOWED,
        base_productivity: Ratio::zero(),
        parts: 0,
    }
}

// What needs no energy.
pub fn no_source() -> Source
    ensures { result ≡ no_source }
{
    Source {
        energy: RawEnergy::Void,
        drain: None,
        emissions: Ratio::zero(),
    }
}

// A machine that holds modules.
pub fn fitted_machine(
    section: Section,
    kind: RawKind,
    source: Source,
    usage: Ratio,
    drain: Ratio,
    rules: ModuleRules,
    parts: u32,
) -> RawMachine
    ensures { result ≡ fitted_machine section kind source usage drain rules parts }
{
    let drain = drain_of(&source.energy, source.drain, drain);
    RawMachine {
        section,
        kind,
        energy: source.energy,
        usage,
        drain,
        emissions: source.emissions,
        slots: rules.slots,
        allowed: rules.allowed,
        base_productivity: rules.base_productivity,
        parts,
    }
}

// How fast a machine works, and on what.
#[tactic(auto, unfolding(crate::specs::Machines::work_of))]
pub fn read_work(
    alloc: Global,
    fields: &Fields<'_, '_>,
    speed_key: Key,
    categories_key: Key,
    names: &mut Names,
) -> Result<Work, FieldFault>
    ensures { Gives (work_of (object_seen fields.now) speed_key categories_key names.old) (with_names names.new result) }
{
    let speed = fields.required_positive(speed_key)?;
    let elements = fields.required_list(categories_key)?;
    let categories = fields.categories(alloc, categories_key, elements, names)?;
    Ok(Work { speed, categories })
}

// A pump.
#[tactic(auto, unfolding(crate::specs::Machines::pump_of))]
fn read_pump(
    alloc: Global,
    section: Section,
    fields: &Fields<'_, '_>,
) -> Result<RawMachine, FieldFault>
    ensures { Gives (pump_of section (object_seen fields.now)) result }
{
    let fluid = fields.required_name(Key::Fluid)?;
    let speed = fields.required_positive(Key::PumpingSpeed)?;
    let fluid = Text::copy(alloc, fluid)?;
    let kind = RawKind::Pump { fluid, speed };
    Ok(plain_machine(section, kind, no_source(), Ratio::zero()))
}

// What a lab does.
#[tactic(auto, unfolding(crate::specs::Machines::lab_work_of))]
fn read_lab_work(alloc: Global, fields: &Fields<'_, '_>) -> Result<LabWork, FieldFault>
    ensures { Gives (lab_work_of (object_seen fields.now)) result }
{
    let elements = fields.required_list(Key::Inputs)?;
    let inputs = fields.names_in(alloc, Key::Inputs, elements)?;
    let speed = fields.positive_or(Key::ResearchingSpeed, Ratio::one())?;
    Ok(LabWork { inputs, speed })
}

// A lab.
#[tactic(auto, unfolding(crate::specs::Machines::lab_of))]
fn read_lab(
    alloc: Global,
    section: Section,
    fields: &Fields<'_, '_>,
    names: &mut Names,
) -> Result<RawMachine, FieldFault>
    ensures { Gives (lab_of section (object_seen fields.now) names.old) (with_names names.new result) }
{
    let work = read_lab_work(alloc, fields)?;
    let usage = fields.required_power(Key::EnergyUsage)?;
    let source = read_machine_source(alloc, fields, names)?;
    let rules = read_module_rules(alloc, fields, ALL_ALLOWED)?;
    let kind = RawKind::Lab {
        inputs: work.inputs,
        speed: work.speed,
    };
    Ok(fitted_machine(section, kind, source, usage, Ratio::zero(), rules, 0))
}

// A beacon.
#[tactic(auto, unfolding(crate::specs::Machines::beacon_of))]
fn read_beacon(
    alloc: Global,
    section: Section,
    fields: &Fields<'_, '_>,
    names: &mut Names,
) -> Result<RawMachine, FieldFault>
    ensures { Gives (beacon_of section (object_seen fields.now) names.old) (with_names names.new result) }
{
    let effectivity = fields.required_amount(Key::DistributionEffectivity)?;
    let usage = fields.required_power(Key::EnergyUsage)?;
    let source = read_machine_source(alloc, fields, names)?;
    let rules = read_beacon_rules(alloc, fields)?;
    let kind = RawKind::Beacon { effectivity };
    Ok(fitted_machine(section, kind, source, usage, Ratio::zero(), rules, 0))
}

/// A machine of a section.
#[tactic(auto, unfolding(crate::specs::Machines::machine_of))]
pub fn read_machine(
    alloc: Global,
    section: Section,
    fields: &Fields<'_, '_>,
    names: &mut Names,
) -> Result<RawMachine, FieldFault>
    ensures { Gives (machine_of section (object_seen fields.now) names.old) (with_names names.new result) }
{
    match section {
        Section::MiningDrill => read_drill(alloc, section, fields, names),
        Section::OffshorePump => read_pump(alloc, section, fields),
        Section::Boiler => read_boiler(alloc, section, fields, names),
        Section::Generator => read_generator(alloc, section, fields),
        Section::BurnerGenerator => read_burner_generator(alloc, section, fields, names),
        Section::SolarPanel => read_solar(section, fields),
        Section::Reactor => read_reactor(alloc, section, fields, names),
        Section::Lab => read_lab(alloc, section, fields, names),
        Section::Beacon => read_beacon(alloc, section, fields, names),
        _ => read_crafter(alloc, section, fields, names),
    }
}
