//! Whether a machine heats a fluid or makes electricity at all.
ghost use Rattle.std.specs.Prelude.{◌≡◌};
ghost use Rattle.game_types.specs.Sound.{IsSound, IsSoundSetup};
ghost use Rattle.game_types.specs.Temperatures.{is_cooler};
ghost use Rattle.power_rows.specs.Power.{at_most, makes, heats_nothing, is_idle, is_shut, gives_nothing, checked_power};

use crate::inputs::fluid_in;
use fractions::{Ratio, is_positive};
use game_types::{Activity, Fluid, Game, MachineKind, Setup};
use std::cmp::Ordering;

/// Why a row heats nothing or makes no electricity.
#[derive(Clone, Copy, Debug, PartialEq, Eq)]
pub enum PowerFault {
    /// K1: machines of this kind don't do it, or the boiler has another output.
    Category,
    /// K5: it gives nothing with what comes in.
    NoOutput,
}

// Whether a temperature is below another.
fn is_cooler(at: &Ratio, other: &Ratio) -> bool
    ensures { result ≡ is_cooler at.now other.now }
{
    match at.cmp(other) {
        Ordering::Less => true,
        Ordering::Equal => false,
        Ordering::Greater => false,
    }
}

// The lesser of a limit and a number.
pub fn at_most(limit: &Ratio, number: &Ratio) -> Ratio
    ensures { result ≡ at_most limit.now number.now }
{
    if is_cooler(limit, number) {
        *limit
    } else {
        *number
    }
}

// Whether machines of a kind do what they are set to do.
fn makes(kind: &MachineKind, activity: &Activity) -> bool
    ensures { result ≡ makes kind.now activity.now }
{
    match activity {
        Activity::Generate => match kind {
            MachineKind::Generator { .. } => true,
            MachineKind::BurnerGenerator { .. } => true,
            MachineKind::Solar { .. } => true,
            _ => false,
        },
        Activity::Boil(good) => match kind {
            MachineKind::Boiler {
                output: Some(output),
                ..
            } => output.0 == good.0,
            _ => false,
        },
        _ => false,
    }
}

// Whether a boiler heats nothing.
fn heats_nothing(fluid: &Fluid, temperature: &Ratio, usage: &Ratio) -> bool
    ensures { result ≡ heats_nothing fluid.now temperature.now usage.now }
{
    !is_cooler(&fluid.at, temperature) || !is_positive(&fluid.heat_capacity) || !is_positive(usage)
}

// Whether there is no energy in a fluid.
fn is_idle(burns: bool, fluid: &Fluid, max_temperature: &Ratio) -> bool
    ensures { result ≡ is_idle burns fluid.now max_temperature.now }
{
    if burns {
        !is_positive(&fluid.fuel_value)
    } else {
        !is_cooler(
            &fluid.default_temperature,
            &at_most(max_temperature, &fluid.at),
        ) || !is_positive(&fluid.heat_capacity)
    }
}

// Whether a given output is none.
fn is_shut(output: &Option<Ratio>) -> bool
    ensures { result ≡ is_shut output.now }
{
    match output {
        Some(output) => !is_positive(output),
        None => false,
    }
}

// Whether a machine gives nothing with what comes in.
fn gives_nothing(fluid: &Fluid, usage: &Ratio, kind: &MachineKind) -> bool
    ensures { result ≡ gives_nothing fluid.now usage.now kind.now }
{
    match kind {
        MachineKind::Boiler { temperature, .. } => heats_nothing(fluid, temperature, usage),
        MachineKind::Generator {
            per_tick,
            max_temperature,
            burns,
            output,
            ..
        } => {
            is_idle(*burns, fluid, max_temperature) || !is_positive(per_tick) || is_shut(output)
        }
        MachineKind::BurnerGenerator { output } => !is_positive(output),
        MachineKind::Solar { production } => !is_positive(production),
        _ => false,
    }
}

#[tactic(auto, unfolding(crate::specs::Power::checked_power))]
/// Whether the machine of a set-up makes electricity or heats the fluid that it is set to heat. The set-up must name a fluid
/// where one is missing.
///
/// # Errors
///
/// The first of these, exactly: `Category` (K1) where electricity isn't made by a generator, a burner generator or a solar
/// panel, or a fluid isn't heated by a boiler with that output; `NoOutput` (K5) where the machine gives nothing: what comes
/// in is as hot as the boiler heats it, has no heat capacity, isn't above its default temperature or has no fuel value, or
/// what the machine uses, takes a tick or gives at most is nothing.
pub fn check_power(game: &Game, setup: &Setup) -> Result<(), PowerFault>
    requires sound { IsSound game.now }
    requires setup { IsSoundSetup game.now setup.now }
    ensures { result ≡ checked_power game.now setup.now }
{
    let machine = game.machine(setup.machine);
    let fluid = fluid_in(game, setup);
    if !makes(&machine.kind, &setup.activity) {
        Err(PowerFault::Category)
    } else if gives_nothing(&fluid, &machine.usage, &machine.kind) {
        Err(PowerFault::NoOutput)
    } else {
        Ok(())
    }
}
