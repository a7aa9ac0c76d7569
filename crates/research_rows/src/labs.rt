//! Labs.
ghost use Rattle.std.specs.Prelude.{◌≡◌, ◌<◌, IfSome, IsOk, length};
ghost use Rattle.std.specs.List.{list_all};
ghost use Rattle.fractions.specs.Fraction.{zero_fraction, ◌<ʳ◌};
ghost use Rattle.game_types.specs.Fuels.{fuel_use_of};
ghost use Rattle.game_types.specs.Sound.{IsSound, IsSoundSetup, IsSoundActivity, IsSoundKind, IsSoundMachine};
ghost use Rattle.research_rows.specs.Research.{checked_lab, lab_fits, lab_pollution, lab_rates_of, lab_rates_with, lab_use, labs_at, labs_for, researches, takes, tech_at, unit_time};

use fractions::Ratio;
use game_types::steps::{added, divided, multiplied};
use game_types::{Activity, Effects, Fuel, Game, Machine, MachineKind, Setup, Tech, Wide};
use machine_rates::{fuel_emissions, fuel_of, setup_fuel};
use plan_base::{GoodId, TechId};

/// Why a row researches nothing.
#[derive(Clone, Copy, Debug, PartialEq, Eq)]
pub enum LabFault {
    /// K1: the machine is no lab, or it doesn't take an ingredient of the technology.
    Category,
}

/// What one unit a second of a technology takes.
#[derive(Clone, Copy)]
pub struct LabRates {
    /// How many labs.
    pub machines: Ratio,
    /// The power that they use, in watts.
    pub usage: Ratio,
    /// The items of fuel that one craft burns.
    pub fuel: Ratio,
    /// The units of the technology that one craft gives.
    pub units: Ratio,
    /// What they pollute a minute.
    pub pollution: Ratio,
}

#[tactic(auto, unfolding(crate::specs::Research::tech_at))]
// The technology of an id.
fn tech(game: &Game, tech: TechId) -> &Tech
    requires { tech.0 < length game.now.techs }
    ensures { result.now ≡ tech_at game.now tech }
{
    &game.techs.as_slice()[tech.0 as usize]
}

// Whether a lab takes a good.
fn takes(inputs: &[GoodId], good: GoodId) -> bool
    ensures { result ≡ takes inputs.now good }
{
    inputs.iter().any(|input| input.0 == good.0)
}

// Whether a lab takes each ingredient.
fn takes_all(inputs: &[GoodId], parts: &[(GoodId, Ratio)]) -> bool
    ensures { result ≡ list_all (λ part. takes inputs.now part.0) parts.now }
{
    parts.iter().all(|part| takes(inputs, part.0))
}

// Whether a machine is a lab that takes each ingredient.
fn researches(kind: &MachineKind, tech: &Tech) -> bool
    ensures { result ≡ researches kind.now tech.now }
{
    match kind {
        MachineKind::Lab { inputs, .. } => {
            takes_all(inputs.as_slice(), tech.ingredients.as_slice())
        }
        _ => false,
    }
}

// Whether a machine researches what it is set to do.
fn lab_fits(game: &Game, kind: &MachineKind, activity: &Activity) -> bool
    requires { IsSoundActivity game.now activity.now }
    ensures { result ≡ lab_fits game.now kind.now activity.now }
{
    match activity {
        Activity::Research(number) => researches(kind, tech(game, *number)),
        _ => false,
    }
}

#[tactic(auto, unfolding(crate::specs::Research::checked_lab))]
/// Whether the machine of a set-up is a lab for the technology that it is set to research.
///
/// # Errors
///
/// `Category` (K1) exactly where the machine is no lab, or its inputs lack an ingredient of the technology.
pub fn check_lab(game: &Game, setup: &Setup) -> Result<(), LabFault>
    requires sound { IsSound game.now }
    requires setup { IsSoundSetup game.now setup.now }
    ensures { result ≡ checked_lab game.now setup.now }
{
    if lab_fits(game, &game.machine(setup.machine).kind, &setup.activity) {
        Ok(())
    } else {
        Err(LabFault::Category)
    }
}

#[tactic(auto, unfolding(crate::specs::Research::labs_for))]
// Step 19: labs for one unit a second.
fn labs_for(time: &Ratio, speed: &Ratio, multiplier: &Ratio) -> Result<Ratio, Wide>
    requires speed { zero_fraction <ʳ speed.now }
    requires multiplier { zero_fraction <ʳ multiplier.now }
    ensures { result ≡ labs_for time.now speed.now multiplier.now }
{
    let at_speed = divided(19, time, speed)?;
    divided(19, &at_speed, multiplier)
}

// Step 19 by the kind of the machine.
fn labs_at(game: &Game, kind: &MachineKind, time: &Ratio, multiplier: &Ratio) -> Result<Ratio, Wide>
    requires kind { IsSoundKind game.now kind.now }
    requires multiplier { zero_fraction <ʳ multiplier.now }
    ensures { result ≡ labs_at kind.now time.now multiplier.now }
{
    let _game = game;
    match kind {
        MachineKind::Lab { speed, .. } => labs_for(time, speed, multiplier),
        _ => Ok(Ratio::zero()),
    }
}

// The seconds of one unit at a speed of 1.
fn unit_time(game: &Game, activity: &Activity) -> Ratio
    requires { IsSoundActivity game.now activity.now }
    ensures { result ≡ unit_time game.now activity.now }
{
    match activity {
        Activity::Research(number) => tech(game, *number).time,
        _ => Ratio::zero(),
    }
}

#[tactic(auto, unfolding(crate::specs::Research::lab_use))]
// Step 20: what labs use, in watts.
fn lab_use(usage: &Ratio, consumption: &Ratio, machines: &Ratio) -> Result<Ratio, Wide>
    ensures { result ≡ lab_use usage.now consumption.now machines.now }
{
    let each = multiplied(20, usage, consumption)?;
    multiplied(20, &each, machines)
}

#[tactic(auto, unfolding(crate::specs::Research::lab_pollution))]
// Step 22: pollution a minute.
fn lab_pollution(
    emissions: &Ratio,
    effects: &Effects,
    fuel: &Ratio,
    machines: &Ratio,
) -> Result<Ratio, Wide>
    ensures { result ≡ lab_pollution emissions.now effects.now fuel.now machines.now }
{
    let used = multiplied(22, emissions, &effects.consumption)?;
    let polluted = multiplied(22, &used, &effects.pollution)?;
    let of_fuel = multiplied(22, &polluted, fuel)?;
    multiplied(22, &of_fuel, machines)
}

#[tactic(auto, unfolding(crate::specs::Research::lab_rates_with))]
// Steps 19, 20, 6, 21 and 22 of a machine.
fn lab_rates_with(
    game: &Game,
    machine: &Machine,
    time: &Ratio,
    fuel: &Option<Fuel>,
    effects: &Effects,
) -> Result<LabRates, Wide>
    requires machine { IsSoundMachine game.now machine.now }
    requires fuel { IfSome fuel.now (λ fuel. zero_fraction <ʳ fuel.value) }
    requires speed { zero_fraction <ʳ effects.now.speed }
    ensures { result ≡ lab_rates_with machine.now time.now fuel.now effects.now }
{
    let machines = labs_at(game, &machine.kind, time, &effects.speed)?;
    let usage = lab_use(&machine.usage, &effects.consumption, &machines)?;
    let burnt = fuel_of(&machine.energy, fuel, &usage)?;
    let units = added(21, &Ratio::one(), &effects.productivity)?;
    let pollution = lab_pollution(
        &machine.emissions,
        effects,
        &fuel_emissions(fuel),
        &machines,
    )?;
    Ok(LabRates {
        machines,
        usage,
        fuel: burnt,
        units,
        pollution,
    })
}

#[tactic(auto, unfolding(crate::specs::Research::lab_rates_of))]
/// What one unit a second of a technology takes on a set-up: labs, the power that they use in watts, items of fuel, pollution
/// a minute; and the units that one craft gives.
///
/// # Errors
///
/// `Wide` with the first of the steps 19, 20, 6, 21 and 22 that is past the limits, exactly where there is one.
pub fn lab_rates(game: &Game, setup: &Setup, effects: &Effects) -> Result<LabRates, Wide>
    requires sound { IsSound game.now }
    requires setup { IsSoundSetup game.now setup.now }
    requires fuel { IsOk (fuel_use_of game.now setup.now) }
    requires speed { zero_fraction <ʳ effects.now.speed }
    ensures { result ≡ lab_rates_of game.now setup.now effects.now }
{
    let fuel = setup_fuel(game, setup);
    lab_rates_with(
        game,
        game.machine(setup.machine),
        &unit_time(game, &setup.activity),
        &fuel,
        effects,
    )
}
