//! Machines with ids in place of names.
ghost use Rattle.std.specs.Prelude.{◌≡◌};
ghost use Rattle.prototype_fields.specs.Values.{Gives};
ghost use Rattle.game_reader.specs.Links.{linked_energy, linked_kind, linked_machine};

use crate::families::Families;
use game_types::{Energy, Machine, MachineKind};
use machine_reader::{RawEnergy, RawKind, RawMachine};
use prototype_fields::{FieldFault, Key, Within};
use std::alloc::Global;

// Where a machine takes its energy from.
#[tactic(auto, unfolding(crate::specs::Links::linked_energy))]
fn link_energy(names: &Families, source: RawEnergy) -> Result<Energy, FieldFault>
    ensures { result ≡ linked_energy names.now source }
{
    match source {
        RawEnergy::Electric => Ok(Energy::Electric),
        RawEnergy::Burner {
            categories,
            effectivity,
        } => Ok(Energy::Burner {
            categories,
            effectivity,
        }),
        RawEnergy::Heat => Ok(Energy::Heat),
        RawEnergy::Fluid {
            filter,
            effectivity,
        } => {
            let filter = names.optional_fluid(Within::EnergySourceFluidBox, Key::Filter, &filter)?;
            Ok(Energy::Fluid {
                filter,
                effectivity,
            })
        }
        RawEnergy::Void => Ok(Energy::Void),
    }
}

// What a machine does, and its energy.
#[tactic(auto, unfolding(crate::specs::Links::linked_kind))]
fn link_kind(
    alloc: Global,
    names: &Families,
    kind: RawKind,
    source: RawEnergy,
) -> Result<(MachineKind, Energy), FieldFault>
    ensures { Gives (linked_kind names.now kind source) result }
{
    match kind {
        RawKind::Crafter {
            speed,
            categories,
            fixed,
        } => {
            let energy = link_energy(names, source)?;
            let fixed = names.optional_recipe(Within::Prototype, Key::FixedRecipe, &fixed)?;
            Ok((
                MachineKind::Crafter {
                    speed,
                    categories,
                    fixed,
                },
                energy,
            ))
        }
        RawKind::Drill {
            speed,
            categories,
            fluid_box,
        } => {
            let energy = link_energy(names, source)?;
            Ok((
                MachineKind::Drill {
                    speed,
                    categories,
                    fluid_box,
                },
                energy,
            ))
        }
        RawKind::Pump { fluid, speed } => {
            let fluid = names.fluid(Within::Prototype, Key::Fluid, fluid.as_str())?;
            let energy = link_energy(names, source)?;
            Ok((MachineKind::Pump { fluid, speed }, energy))
        }
        RawKind::Boiler {
            input,
            output,
            is_one_fluid,
            temperature,
        } => {
            let energy = link_energy(names, source)?;
            let input = names.optional_fluid(Within::FluidBox, Key::Filter, &input)?;
            let output = names.optional_fluid(Within::OutputFluidBox, Key::Filter, &output)?;
            let output = if is_one_fluid { input } else { output };
            Ok((
                MachineKind::Boiler {
                    input,
                    output,
                    temperature,
                },
                energy,
            ))
        }
        RawKind::Generator {
            input,
            effectivity,
            per_tick,
            max_temperature,
            burns,
            output,
        } => {
            let input = names.optional_fluid(Within::FluidBox, Key::Filter, &input)?;
            let energy = link_energy(names, source)?;
            Ok((
                MachineKind::Generator {
                    input,
                    effectivity,
                    per_tick,
                    max_temperature,
                    burns,
                    output,
                },
                energy,
            ))
        }
        RawKind::BurnerGenerator { output } => {
            let energy = link_energy(names, source)?;
            Ok((MachineKind::BurnerGenerator { output }, energy))
        }
        RawKind::Solar { production } => {
            let energy = link_energy(names, source)?;
            Ok((MachineKind::Solar { production }, energy))
        }
        RawKind::Reactor => {
            let energy = link_energy(names, source)?;
            Ok((MachineKind::Reactor, energy))
        }
        RawKind::Lab { inputs, speed } => {
            let inputs = names.each_item(alloc, Within::Prototype, Key::Inputs, &inputs)?;
            let energy = link_energy(names, source)?;
            Ok((MachineKind::Lab { inputs, speed }, energy))
        }
        RawKind::Beacon { effectivity } => {
            let energy = link_energy(names, source)?;
            Ok((MachineKind::Beacon { effectivity }, energy))
        }
    }
}

/// A machine.
#[tactic(auto, unfolding(crate::specs::Links::linked_machine))]
pub fn link_machine(
    alloc: Global,
    names: &Families,
    machine: RawMachine,
) -> Result<Machine, FieldFault>
    ensures { Gives (linked_machine names.now machine) result }
{
    let RawMachine {
        section: _,
        kind,
        energy,
        usage,
        drain,
        emissions,
        slots,
        allowed,
        base_productivity,
        parts,
    } = machine;
    let (kind, energy) = link_kind(alloc, names, kind, energy)?;
    Ok(Machine {
        kind,
        energy,
        usage,
        drain,
        emissions,
        slots,
        allowed,
        base_productivity,
        parts,
    })
}
