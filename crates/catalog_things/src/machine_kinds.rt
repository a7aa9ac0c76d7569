//! What a machine is by its kind and its energy: words, numbers, fluids and packs.
ghost use Rattle.std.specs.Prelude.{◌≡◌};
ghost use Rattle.catalog_things.specs.Machines.{distribution_of, efficiency_of, energy_name, fixed_of, input_of, inputs_of, kind_name, output_of, power_of, speed_of, temperature_of};

use fractions::Ratio;
use game_types::{Energy, MachineKind};
use plan_base::{GoodId, RecipeId};

/// What a machine of a kind is called.
#[tactic(auto, unfolding(crate::specs::Machines::kind_name))]
pub fn kind_name(kind: &MachineKind) -> &'static str
    ensures { result.now ≡ kind_name kind.now }
{
    match kind {
        MachineKind::Crafter { .. } => "crafter",
        MachineKind::Drill { .. } => "drill",
        MachineKind::Pump { .. } => "pump",
        MachineKind::Boiler { .. } => "boiler",
        MachineKind::Generator { .. } => "generator",
        MachineKind::BurnerGenerator { .. } => "burner",
        MachineKind::Solar { .. } => "solar",
        MachineKind::Reactor => "reactor",
        MachineKind::Lab { .. } => "lab",
        MachineKind::Beacon { .. } => "beacon",
    }
}

/// What an energy is called.
pub fn energy_name(energy: &Energy) -> &'static str
    ensures { result.now ≡ energy_name energy.now }
{
    match energy {
        Energy::Electric => "electric",
        Energy::Burner { .. } => "burner",
        Energy::Heat => "heat",
        Energy::Fluid { .. } => "fluid",
        Energy::Void => "void",
    }
}

/// The speed of a machine that has one.
#[tactic(auto, unfolding(crate::specs::Machines::speed_of))]
pub fn speed_of(kind: &MachineKind) -> Option<Ratio>
    ensures { result ≡ speed_of kind.now }
{
    match kind {
        MachineKind::Crafter { speed, .. } => Some(*speed),
        MachineKind::Drill { speed, .. } => Some(*speed),
        MachineKind::Pump { speed, .. } => Some(*speed),
        MachineKind::Lab { speed, .. } => Some(*speed),
        _ => None,
    }
}

/// What of the energy that it burns a machine uses.
pub fn efficiency_of(energy: &Energy) -> Option<Ratio>
    ensures { result ≡ efficiency_of energy.now }
{
    match energy {
        Energy::Burner { effectivity, .. } => Some(*effectivity),
        Energy::Fluid { effectivity, .. } => Some(*effectivity),
        _ => None,
    }
}

/// The recipe that a crafter is fixed to.
pub fn fixed_of(kind: &MachineKind) -> Option<RecipeId>
    ensures { result ≡ fixed_of kind.now }
{
    match kind {
        MachineKind::Crafter { fixed, .. } => *fixed,
        _ => None,
    }
}

/// The fluid that a boiler or a generator takes in.
pub fn input_of(kind: &MachineKind) -> Option<GoodId>
    ensures { result ≡ input_of kind.now }
{
    match kind {
        MachineKind::Boiler { input, .. } => *input,
        MachineKind::Generator { input, .. } => *input,
        _ => None,
    }
}

/// The fluid that a boiler or a pump gives.
pub fn output_of(kind: &MachineKind) -> Option<GoodId>
    ensures { result ≡ output_of kind.now }
{
    match kind {
        MachineKind::Boiler { output, .. } => *output,
        MachineKind::Pump { fluid, .. } => Some(*fluid),
        _ => None,
    }
}

/// The temperature to which a boiler heats.
#[tactic(auto, unfolding(crate::specs::Machines::temperature_of))]
pub fn temperature_of(kind: &MachineKind) -> Option<Ratio>
    ensures { result ≡ temperature_of kind.now }
{
    match kind {
        MachineKind::Boiler { temperature, .. } => Some(*temperature),
        _ => None,
    }
}

/// The most electric power that a machine gives.
#[tactic(auto, unfolding(crate::specs::Machines::power_of))]
pub fn power_of(kind: &MachineKind) -> Option<Ratio>
    ensures { result ≡ power_of kind.now }
{
    match kind {
        MachineKind::Generator { output, .. } => *output,
        MachineKind::BurnerGenerator { output } => Some(*output),
        MachineKind::Solar { production } => Some(*production),
        _ => None,
    }
}

/// What a beacon passes on.
#[tactic(auto, unfolding(crate::specs::Machines::distribution_of))]
pub fn distribution_of(kind: &MachineKind) -> Option<Ratio>
    ensures { result ≡ distribution_of kind.now }
{
    match kind {
        MachineKind::Beacon { effectivity } => Some(*effectivity),
        _ => None,
    }
}

/// The packs that a lab takes.
pub fn inputs_of(kind: &MachineKind) -> &[GoodId]
    ensures { result.now ≡ inputs_of kind.now }
{
    match kind {
        MachineKind::Lab { inputs, .. } => inputs.as_slice(),
        _ => &[],
    }
}
