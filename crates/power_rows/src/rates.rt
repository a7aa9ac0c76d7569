//! What one craft of a row that heats a fluid or makes electricity takes, and what electric power a row draws.
ghost use Rattle.std.specs.Prelude.{◌≡◌, IfSome, IsOk, Ok, false};
ghost use Rattle.fractions.specs.Fraction.{zero_fraction, ◌<ʳ◌};
ghost use Rattle.game_types.specs.Fuels.{burner_effectivity, fuel_use_of};
ghost use Rattle.game_types.specs.Sound.{IsSound, IsSoundSetup, IsSoundMachine};
ghost use Rattle.power_rows.specs.Power.{boiling, burner_fuel, burning, checked_power, draw_of, fuel_for, gives_nothing, heat_of, heats_nothing, pollution_of, power_rates_of, power_rates_with, shining};

use crate::generators::generating;
use crate::inputs::fluid_in;
use fractions::Ratio;
use game_types::steps::{added, divided, multiplied, subtracted};
use game_types::{Energy, Fluid, Fuel, Game, Machine, MachineKind, Setup, Wide};
use machine_rates::{fuel_emissions, power_of, setup_fuel};

/// What one craft a second of a row that heats or makes electricity takes.
#[derive(Clone, Copy)]
pub struct PowerRates {
    /// How many machines.
    pub machines: Ratio,
    /// The electric power that they use, in watts.
    pub power: Ratio,
    /// The items of fuel that one craft burns.
    pub fuel: Ratio,
    /// The units of fluid that one craft takes in.
    pub input: Ratio,
    /// What they pollute a minute.
    pub pollution: Ratio,
}

#[tactic(auto, unfolding(crate::specs::Power::fuel_for))]
// The fuel for an energy.
fn fuel_for(step: u8, usage: &Ratio, effectivity: &Ratio, value: &Ratio) -> Result<Ratio, Wide>
    requires effectivity { zero_fraction <ʳ effectivity.now }
    requires value { zero_fraction <ʳ value.now }
    ensures { result ≡ fuel_for step usage.now effectivity.now value.now }
{
    let energy = divided(step, usage, effectivity)?;
    divided(step, &energy, value)
}

// The fuel that a burner takes; none without a burner.
fn burner_fuel(step: u8, energy: &Energy, fuel: &Option<Fuel>, usage: &Ratio) -> Result<Ratio, Wide>
    requires effectivity { IfSome (burner_effectivity energy.now) (λ effectivity. zero_fraction <ʳ effectivity) }
    requires fuel { IfSome fuel.now (λ fuel. zero_fraction <ʳ fuel.value) }
    ensures { result ≡ burner_fuel step energy.now fuel.now usage.now }
{
    match energy {
        Energy::Burner { effectivity, .. } => match fuel {
            Some(fuel) => fuel_for(step, usage, effectivity, &fuel.value),
            None => Ok(Ratio::zero()),
        },
        _ => Ok(Ratio::zero()),
    }
}

#[tactic(auto, unfolding(crate::specs::Power::pollution_of))]
/// Step 17: pollution a minute.
pub fn pollution_of(emissions: &Ratio, fuel: &Ratio, machines: &Ratio) -> Result<Ratio, Wide>
    ensures { result ≡ pollution_of emissions.now fuel.now machines.now }
{
    let burnt = multiplied(17, emissions, fuel)?;
    multiplied(17, &burnt, machines)
}

#[tactic(auto, unfolding(crate::specs::Power::heat_of))]
// Step 10: the heat of one unit.
fn heat_of(fluid: &Fluid, temperature: &Ratio) -> Result<Ratio, Wide>
    ensures { result ≡ heat_of fluid.now temperature.now }
{
    let rise = subtracted(10, temperature, &fluid.at)?;
    multiplied(10, &fluid.heat_capacity, &rise)
}

#[tactic(auto, unfolding(crate::specs::Power::boiling))]
// Steps 10 to 12, and 17, of a boiler.
fn boiling(
    game: &Game,
    machine: &Machine,
    fuel: &Option<Fuel>,
    fluid: &Fluid,
    temperature: &Ratio,
) -> Result<PowerRates, Wide>
    requires machine { IsSoundMachine game.now machine.now }
    requires fuel { IfSome fuel.now (λ fuel. zero_fraction <ʳ fuel.value) }
    requires heats { heats_nothing fluid.now temperature.now machine.now.usage ≡ false }
    ensures { result ≡ boiling machine.now fuel.now fluid.now temperature.now }
{
    let _game = game;
    let heat = heat_of(fluid, temperature)?;
    let machines = divided(11, &heat, &machine.usage)?;
    let burnt = burner_fuel(12, &machine.energy, fuel, &heat)?;
    let pollution = pollution_of(&machine.emissions, &fuel_emissions(fuel), &machines)?;
    Ok(PowerRates {
        machines,
        power: power_of(&machine.energy, &heat),
        fuel: burnt,
        input: Ratio::one(),
        pollution,
    })
}

#[tactic(auto, unfolding(crate::specs::Power::burning))]
// Steps 15 to 17 of a burner generator.
fn burning(
    game: &Game,
    machine: &Machine,
    fuel: &Option<Fuel>,
    output: &Ratio,
) -> Result<PowerRates, Wide>
    requires machine { IsSoundMachine game.now machine.now }
    requires fuel { IfSome fuel.now (λ fuel. zero_fraction <ʳ fuel.value) }
    requires output { zero_fraction <ʳ output.now }
    ensures { result ≡ burning machine.now fuel.now output.now }
{
    let _game = game;
    let machines = divided(15, &Ratio::one(), output)?;
    let burnt = burner_fuel(16, &machine.energy, fuel, &Ratio::one())?;
    let pollution = pollution_of(&machine.emissions, &fuel_emissions(fuel), &machines)?;
    Ok(PowerRates {
        machines,
        power: Ratio::zero(),
        fuel: burnt,
        input: Ratio::zero(),
        pollution,
    })
}

#[tactic(auto, unfolding(crate::specs::Power::shining))]
// Steps 15 and 17 of a solar panel.
fn shining(machine: &Machine, fuel: &Option<Fuel>, production: &Ratio) -> Result<PowerRates, Wide>
    requires production { zero_fraction <ʳ production.now }
    ensures { result ≡ shining machine.now fuel.now production.now }
{
    let machines = divided(15, &Ratio::one(), production)?;
    let pollution = pollution_of(&machine.emissions, &fuel_emissions(fuel), &machines)?;
    Ok(PowerRates {
        machines,
        power: Ratio::zero(),
        fuel: Ratio::zero(),
        input: Ratio::zero(),
        pollution,
    })
}

// The rates of a machine with what comes in.
fn power_rates_with(
    game: &Game,
    machine: &Machine,
    fuel: &Option<Fuel>,
    fluid: &Fluid,
) -> Result<PowerRates, Wide>
    requires machine { IsSoundMachine game.now machine.now }
    requires fuel { IfSome fuel.now (λ fuel. zero_fraction <ʳ fuel.value) }
    requires gives { gives_nothing fluid.now machine.now.usage machine.now.kind ≡ false }
    ensures { result ≡ power_rates_with machine.now fuel.now fluid.now machine.now.kind }
{
    match &machine.kind {
        MachineKind::Boiler { temperature, .. } => {
            boiling(game, machine, fuel, fluid, temperature)
        }
        MachineKind::BurnerGenerator { output } => burning(game, machine, fuel, output),
        MachineKind::Solar { production } => shining(machine, fuel, production),
        _ => generating(game, machine, fuel, fluid),
    }
}

#[tactic(auto, unfolding(crate::specs::Power::power_rates_of))]
/// What one craft a second takes on a set-up that heats a fluid or makes electricity: machines, electric power in watts,
/// items of fuel, units of fluid that come in, pollution a minute. One craft is one unit of the heated fluid, or one joule.
///
/// # Errors
///
/// `Wide` with the first of the steps 10 to 17 that is past the limits, exactly where there is one.
pub fn power_rates(game: &Game, setup: &Setup) -> Result<PowerRates, Wide>
    requires sound { IsSound game.now }
    requires setup { IsSoundSetup game.now setup.now }
    requires checked { checked_power game.now setup.now ≡ Ok tt }
    requires fuel { IsOk (fuel_use_of game.now setup.now) }
    ensures { result ≡ power_rates_of game.now setup.now }
{
    let fuel = setup_fuel(game, setup);
    let fluid = fluid_in(game, setup);
    power_rates_with(game, game.machine(setup.machine), &fuel, &fluid)
}

#[tactic(auto, unfolding(crate::specs::Power::draw_of))]
/// The electric power that one craft a second draws, in watts: what machines use, and for each machine, a fraction of one
/// too, its drain and the power of its beacons.
///
/// # Errors
///
/// `Wide` with step 18 exactly where a number of it is past the limits.
pub fn draw_of(
    power: &Ratio,
    machines: &Ratio,
    drain: &Ratio,
    beacon: &Ratio,
) -> Result<Ratio, Wide>
    ensures { result ≡ draw_of power.now machines.now drain.now beacon.now }
{
    let each = added(18, drain, beacon)?;
    let always = multiplied(18, &each, machines)?;
    added(18, &always, power)
}
