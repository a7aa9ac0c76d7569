//! Machines that make or pass on power: boilers, generators, solar panels and reactors, by their fields.
ghost use Rattle.std.specs.Prelude.{◌≡◌, option_map};
ghost use Rattle.prototype_fields.specs.Seen.{object_seen};
ghost use Rattle.prototype_fields.specs.Values.{Gives, with_names};
ghost use Rattle.machine_reader.specs.Machines.{no_source, plain_machine, heats_inside, boiler_kind_of, boiler_of, generation_of, generator_of, burner_generator_of, solar_of, reactor_of};

use crate::energy::{read_burner_source, read_filter, read_machine_source};
use crate::machines::{no_source, plain_machine};
use crate::raw::{RawKind, RawMachine};
use crate::sections::Section;
use fractions::Ratio;
use name_table::Names;
use prototype_fields::{FieldFault, Fields, Key, Within};
use std::alloc::Global;

/// What a generator takes and makes.
#[derive(Clone, Copy)]
pub struct Generation {
    pub effectivity: Ratio,
    pub per_tick: Ratio,
    pub max_temperature: Ratio,
    pub burns: bool,
    pub output: Option<Ratio>,
}

// Whether a boiler's fluid comes out where it went in.
fn heats_inside(mode: Option<&str>) -> bool
    ensures { result ≡ heats_inside (option_map (λ text. text.now) mode.entry) }
{
    match mode {
        Some(mode) => mode == "heat-water-inside",
        None => true,
    }
}

// What a boiler does.
#[tactic(auto, unfolding(crate::specs::Machines::boiler_kind_of))]
fn read_boiler_kind(alloc: Global, fields: &Fields<'_, '_>) -> Result<RawKind, FieldFault>
    ensures { Gives (boiler_kind_of (object_seen fields.now)) result }
{
    let mode = fields.text(Key::Mode)?;
    let temperature = fields.amount_or(Key::TargetTemperature, Ratio::zero())?;
    let input = read_filter(alloc, fields, Key::FluidBox, Within::FluidBox)?;
    let output = read_filter(alloc, fields, Key::OutputFluidBox, Within::OutputFluidBox)?;
    Ok(RawKind::Boiler {
        input,
        output,
        is_one_fluid: heats_inside(mode),
        temperature,
    })
}

// A boiler.
#[tactic(auto, unfolding(crate::specs::Machines::boiler_of))]
pub fn read_boiler(
    alloc: Global,
    section: Section,
    fields: &Fields<'_, '_>,
    names: &mut Names,
) -> Result<RawMachine, FieldFault>
    ensures { Gives (boiler_of section (object_seen fields.now) names.old) (with_names names.new result) }
{
    let source = read_machine_source(alloc, fields, names)?;
    let usage = fields.required_power(Key::EnergyConsumption)?;
    let kind = read_boiler_kind(alloc, fields)?;
    Ok(plain_machine(section, kind, source, usage))
}

// What a generator takes and makes.
#[tactic(auto, unfolding(crate::specs::Machines::generation_of))]
fn read_generation(fields: &Fields<'_, '_>) -> Result<Generation, FieldFault>
    ensures { result ≡ generation_of (object_seen fields.now) }
{
    let effectivity = fields.positive_or(Key::Effectivity, Ratio::one())?;
    let per_tick = fields.required_amount(Key::FluidUsagePerTick)?;
    let max_temperature = fields.required_amount(Key::MaximumTemperature)?;
    let burns = fields.flag_or(Key::BurnsFluid, false)?;
    let output = fields.power(Key::MaxPowerOutput)?;
    Ok(Generation {
        effectivity,
        per_tick,
        max_temperature,
        burns,
        output,
    })
}

// A generator.
#[tactic(auto, unfolding(crate::specs::Machines::generator_of))]
pub fn read_generator(
    alloc: Global,
    section: Section,
    fields: &Fields<'_, '_>,
) -> Result<RawMachine, FieldFault>
    ensures { Gives (generator_of section (object_seen fields.now)) result }
{
    let input = read_filter(alloc, fields, Key::FluidBox, Within::FluidBox)?;
    let made = read_generation(fields)?;
    let kind = RawKind::Generator {
        input,
        effectivity: made.effectivity,
        per_tick: made.per_tick,
        max_temperature: made.max_temperature,
        burns: made.burns,
        output: made.output,
    };
    Ok(plain_machine(section, kind, no_source(), Ratio::zero()))
}

// A generator that burns.
#[tactic(auto, unfolding(crate::specs::Machines::burner_generator_of))]
pub fn read_burner_generator(
    alloc: Global,
    section: Section,
    fields: &Fields<'_, '_>,
    names: &mut Names,
) -> Result<RawMachine, FieldFault>
    ensures { Gives (burner_generator_of section (object_seen fields.now) names.old) (with_names names.new result) }
{
    let burner = fields.required_object(Key::Burner, Within::Burner)?;
    let source = read_burner_source(alloc, &burner, names)?;
    let output = fields.required_power(Key::MaxPowerOutput)?;
    let kind = RawKind::BurnerGenerator { output };
    Ok(plain_machine(section, kind, source, Ratio::zero()))
}

// A solar panel.
#[tactic(auto, unfolding(crate::specs::Machines::solar_of))]
pub fn read_solar(section: Section, fields: &Fields<'_, '_>) -> Result<RawMachine, FieldFault>
    ensures { Gives (solar_of section (object_seen fields.now)) result }
{
    let production = fields.required_power(Key::Production)?;
    let kind = RawKind::Solar { production };
    Ok(plain_machine(section, kind, no_source(), Ratio::zero()))
}

// A reactor.
#[tactic(auto, unfolding(crate::specs::Machines::reactor_of))]
pub fn read_reactor(
    alloc: Global,
    section: Section,
    fields: &Fields<'_, '_>,
    names: &mut Names,
) -> Result<RawMachine, FieldFault>
    ensures { Gives (reactor_of section (object_seen fields.now) names.old) (with_names names.new result) }
{
    let source = read_machine_source(alloc, fields, names)?;
    let usage = fields.required_power(Key::Consumption)?;
    Ok(plain_machine(section, RawKind::Reactor, source, usage))
}
