//! Generators: what one unit of the fluid that comes in gives, and the most that a machine gives.
ghost use Rattle.std.specs.Prelude.{◌≡◌, IfOk, false};
ghost use Rattle.fractions.specs.Fraction.{zero_fraction, ◌<ʳ◌};
ghost use Rattle.game_types.specs.Sound.{IsSoundMachine};
ghost use Rattle.power_rows.specs.Power.{content_of, generating, gives_nothing, greatest, is_idle, is_shut, limited, unit_energy, warmth_of};

use crate::checks::at_most;
use crate::rates::{PowerRates, pollution_of};
use fractions::Ratio;
use game_types::steps::{divided, multiplied, subtracted};
use game_types::{Fluid, Fuel, Game, Machine, MachineKind, Wide};
use machine_rates::fuel_emissions;

#[tactic(auto, unfolding(crate::specs::Power::warmth_of))]
// The energy of one unit by what it is above its default temperature.
fn warmth_of(fluid: &Fluid, max_temperature: &Ratio) -> Result<Ratio, Wide>
    requires { is_idle false fluid.now max_temperature.now ≡ false }
    ensures value { result ≡ warmth_of fluid.now max_temperature.now }
    ensures positive { IfOk result (λ energy. zero_fraction <ʳ energy) }
{
    let rise = subtracted(
        13,
        &at_most(max_temperature, &fluid.at),
        &fluid.default_temperature,
    )?;
    multiplied(13, &fluid.heat_capacity, &rise)
}

// The energy of one unit of a fluid.
fn content_of(burns: bool, fluid: &Fluid, max_temperature: &Ratio) -> Result<Ratio, Wide>
    requires { is_idle burns fluid.now max_temperature.now ≡ false }
    ensures value { result ≡ content_of burns fluid.now max_temperature.now }
    ensures positive { IfOk result (λ energy. zero_fraction <ʳ energy) }
{
    if burns {
        Ok(fluid.fuel_value)
    } else {
        warmth_of(fluid, max_temperature)
    }
}

#[tactic(auto, unfolding(crate::specs::Power::unit_energy))]
// Step 13: what one unit gives.
fn unit_energy(
    burns: bool,
    fluid: &Fluid,
    max_temperature: &Ratio,
    effectivity: &Ratio,
) -> Result<Ratio, Wide>
    requires idle { is_idle burns fluid.now max_temperature.now ≡ false }
    requires effectivity { zero_fraction <ʳ effectivity.now }
    ensures value { result ≡ unit_energy burns fluid.now max_temperature.now effectivity.now }
    ensures positive { IfOk result (λ energy. zero_fraction <ʳ energy) }
{
    let content = content_of(burns, fluid, max_temperature)?;
    multiplied(13, &content, effectivity)
}

// The most that a machine gives, with a given output.
fn limited(output: &Option<Ratio>, most: &Ratio) -> Ratio
    requires output { is_shut output.now ≡ false }
    requires most { zero_fraction <ʳ most.now }
    ensures value { result ≡ limited output.now most.now }
    ensures positive { zero_fraction <ʳ result }
{
    match output {
        Some(output) => at_most(output, most),
        None => *most,
    }
}

#[tactic(auto, unfolding(crate::specs::Power::greatest))]
// Step 14: the most that a generator gives.
fn greatest(per_tick: &Ratio, energy: &Ratio, output: &Option<Ratio>) -> Result<Ratio, Wide>
    requires per_tick { zero_fraction <ʳ per_tick.now }
    requires energy { zero_fraction <ʳ energy.now }
    requires output { is_shut output.now ≡ false }
    ensures value { result ≡ greatest per_tick.now energy.now output.now }
    ensures positive { IfOk result (λ most. zero_fraction <ʳ most) }
{
    let units = multiplied(14, &Ratio::whole(60), per_tick)?;
    let most = multiplied(14, &units, energy)?;
    Ok(limited(output, &most))
}

#[tactic(auto, unfolding(crate::specs::Power::generating))]
/// Steps 13 to 17 of a generator.
pub fn generating(
    game: &Game,
    machine: &Machine,
    fuel: &Option<Fuel>,
    fluid: &Fluid,
) -> Result<PowerRates, Wide>
    requires machine { IsSoundMachine game.now machine.now }
    requires gives { gives_nothing fluid.now machine.now.usage machine.now.kind ≡ false }
    ensures { result ≡ generating machine.now fuel.now fluid.now machine.now.kind }
{
    let _game = game;
    match &machine.kind {
        MachineKind::Generator {
            effectivity,
            per_tick,
            max_temperature,
            burns,
            output,
            ..
        } => {
            let energy = unit_energy(*burns, fluid, max_temperature, effectivity)?;
            let most = greatest(per_tick, &energy, output)?;
            let machines = divided(15, &Ratio::one(), &most)?;
            let input = divided(16, &Ratio::one(), &energy)?;
            let pollution = pollution_of(&machine.emissions, &fuel_emissions(fuel), &machines)?;
            Ok(PowerRates {
                machines,
                power: Ratio::zero(),
                fuel: Ratio::zero(),
                input,
                pollution,
            })
        }
        _ => Ok(PowerRates {
            machines: Ratio::zero(),
            power: Ratio::zero(),
            fuel: Ratio::zero(),
            input: Ratio::zero(),
            pollution: Ratio::zero(),
        }),
    }
}
