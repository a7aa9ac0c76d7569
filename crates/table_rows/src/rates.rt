//! The effects and rates of a row.
ghost use Rattle.std.specs.Prelude.{◌≡◌, Ok};
ghost use Rattle.game_types.specs.Beacons.{checked_beacons};
ghost use Rattle.game_types.specs.Lookups.{machine_at};
ghost use Rattle.game_types.specs.Modules.{bonus_of, checked_modules};
ghost use Rattle.game_types.specs.Rates.{effects_with};
ghost use Rattle.game_types.specs.Sound.{IsSound, IsSoundSetup};
ghost use Rattle.table_rows.specs.Columns.{effects_by, effects_of, figures_of, powered_rates, research_rates, row_rates_of, worked_rates};
ghost use Rattle.table_rows.specs.Setups.{IsFitting, IsPower};

use beacon_effects::{beacon_bonus, beacon_power};
use fractions::Ratio;
use game_types::{Activity, BeaconSum, Effects, Game, Rates, Setup, Wide};
use machine_rates::{effects_of, plain_effects, power_of, rates_of};
use module_effects::module_bonus;
use power_rows::power_rates;
use research_rows::lab_rates;

/// The effects and rates of a row, and what its column takes of them beside.
#[derive(Clone, Copy)]
pub struct RowRates {
    pub effects: Effects,
    pub rates: Rates,
    /// The units of fluid that one craft of a generator takes in, and a boiler.
    pub input: Ratio,
    /// The units of a technology that one craft gives.
    pub units: Ratio,
}

// The effects of modules and beacons.
fn bonus_effects(game: &Game, setup: &Setup, beacons: &BeaconSum) -> Result<Effects, Wide>
    requires sound { IsSound game.now }
    requires setup { IsSoundSetup game.now setup.now }
    requires modules { checked_modules game.now setup.now ≡ Ok tt }
    ensures { result ≡ effects_with (machine_at game.now setup.now.machine).base_productivity (bonus_of game.now setup.now.modules) beacons.now }
{
    effects_of(
        &game.machine(setup.machine).base_productivity,
        &module_bonus(game, setup),
        beacons,
    )
}

// Step 3.
fn effects_by(
    game: &Game,
    setup: &Setup,
    beacons: &BeaconSum,
    activity: Activity,
) -> Result<Effects, Wide>
    requires sound { IsSound game.now }
    requires setup { IsSoundSetup game.now setup.now }
    requires modules { checked_modules game.now setup.now ≡ Ok tt }
    ensures { result ≡ effects_by game.now setup.now beacons.now activity }
{
    match activity {
        Activity::Pump(_) => Ok(plain_effects()),
        Activity::Craft(_) => bonus_effects(game, setup, beacons),
        Activity::Mine(_) => bonus_effects(game, setup, beacons),
        Activity::Generate => bonus_effects(game, setup, beacons),
        Activity::Boil(_) => bonus_effects(game, setup, beacons),
        Activity::Research(_) => bonus_effects(game, setup, beacons),
    }
}

#[tactic(auto, unfolding(crate::specs::Columns::effects_of))]
// Steps 1 to 3.
fn row_effects(game: &Game, setup: &Setup) -> Result<Effects, Wide>
    requires sound { IsSound game.now }
    requires setup { IsSoundSetup game.now setup.now }
    requires modules { checked_modules game.now setup.now ≡ Ok tt }
    requires beacons { checked_beacons game.now setup.now ≡ Ok tt }
    ensures { result ≡ effects_of game.now setup.now }
{
    let beacons = beacon_bonus(game, setup)?;
    effects_by(game, setup, &beacons, setup.activity)
}

#[tactic(auto, using(crate::proofs::Fitting::fuel_fits, crate::proofs::Fitting::modules_fit, crate::proofs::Fitting::beacons_fit, crate::proofs::Positive::speed_positive), unfolding(crate::specs::Columns::worked_rates))]
// What crafts, mines or pumps.
fn worked_rates(game: &Game, setup: &Setup) -> Result<RowRates, Wide>
    requires sound { IsSound game.now }
    requires setup { IsFitting game.now setup.now }
    ensures { result ≡ worked_rates game.now setup.now }
{
    let effects = row_effects(game, setup)?;
    let rates = rates_of(game, setup, &effects)?;
    Ok(RowRates {
        effects,
        rates,
        input: Ratio::zero(),
        units: Ratio::zero(),
    })
}

#[tactic(auto, using(crate::proofs::Fitting::fuel_fits, crate::proofs::Fitting::power_fits), unfolding(crate::specs::Columns::powered_rates))]
// What heats or makes electricity.
fn powered_rates(game: &Game, setup: &Setup) -> Result<RowRates, Wide>
    requires sound { IsSound game.now }
    requires setup { IsFitting game.now setup.now }
    requires power { IsPower setup.now.activity }
    ensures { result ≡ powered_rates game.now setup.now }
{
    let power = power_rates(game, setup)?;
    Ok(RowRates {
        effects: plain_effects(),
        rates: Rates {
            machines: power.machines,
            power: power.power,
            drain: game.machine(setup.machine).drain,
            fuel: power.fuel,
            pollution: power.pollution,
        },
        input: power.input,
        units: Ratio::zero(),
    })
}

#[tactic(auto, using(crate::proofs::Fitting::fuel_fits, crate::proofs::Fitting::modules_fit, crate::proofs::Fitting::beacons_fit, crate::proofs::Positive::speed_positive), unfolding(crate::specs::Columns::research_rates))]
// What researches.
fn research_rates(game: &Game, setup: &Setup) -> Result<RowRates, Wide>
    requires sound { IsSound game.now }
    requires setup { IsFitting game.now setup.now }
    ensures { result ≡ research_rates game.now setup.now }
{
    let effects = row_effects(game, setup)?;
    let labs = lab_rates(game, setup, &effects)?;
    let machine = game.machine(setup.machine);
    Ok(RowRates {
        effects,
        rates: Rates {
            machines: labs.machines,
            power: power_of(&machine.energy, &labs.usage),
            drain: machine.drain,
            fuel: labs.fuel,
            pollution: labs.pollution,
        },
        input: Ratio::zero(),
        units: labs.units,
    })
}

#[tactic(auto, unfolding(crate::specs::Columns::row_rates_of))]
// The effects and rates of a row.
pub fn rates_of_row(game: &Game, setup: &Setup) -> Result<RowRates, Wide>
    requires sound { IsSound game.now }
    requires setup { IsFitting game.now setup.now }
    ensures { result ≡ row_rates_of game.now setup.now }
{
    match setup.activity {
        Activity::Generate => powered_rates(game, setup),
        Activity::Boil(_) => powered_rates(game, setup),
        Activity::Research(_) => research_rates(game, setup),
        Activity::Craft(_) => worked_rates(game, setup),
        Activity::Mine(_) => worked_rates(game, setup),
        Activity::Pump(_) => worked_rates(game, setup),
    }
}

#[tactic(auto, using(crate::proofs::Fitting::beacons_fit), unfolding(crate::specs::Columns::figures_of))]
/// The effects on the machine of a row, what one craft a second takes, and the power of the beacons of each machine, in watts.
/// The set-up must pass `check_setup`.
///
/// # Errors
///
/// `Wide` with the first of the row's steps that is past the limits, 8 and 18 aside, exactly where there is one.
pub fn row_rates(game: &Game, setup: &Setup) -> Result<(Effects, Rates, Ratio), Wide>
    requires sound { IsSound game.now }
    requires setup { IsFitting game.now setup.now }
    ensures { result ≡ figures_of game.now setup.now }
{
    let row = rates_of_row(game, setup)?;
    let beacons = beacon_power(game, setup)?;
    Ok((row.effects, row.rates, beacons))
}
