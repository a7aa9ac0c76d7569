//! Whether a set-up can stand in a table.
ghost use Rattle.std.specs.Prelude.{◌≡◌};
ghost use Rattle.std.specs.List.{list_all};
ghost use Rattle.game_types.specs.Sound.{IsSound, IsSoundSetup, IsSoundActivity};
ghost use Rattle.table_rows.specs.Setups.{checked_fits, checked_rest, checked_setup, does, has_fit, has_fits, is_there};

use crate::SetupFault;
use beacon_effects::check_beacons;
use fuel_choice::fuel_use;
use game_types::{Activity, Game, Part, Setup, choice_of};
use machine_rates::check_machine;
use module_effects::sum_modules;
use power_rows::{Input, check_power, input_of};
use research_rows::check_lab;

// Whether an ingredient has a fit.
fn has_fit(game: &Game, setup: &Setup, part: &Part) -> bool
    requires sound { IsSound game.now }
    ensures { result ≡ has_fit game.now setup.now part.now }
{
    choice_of(game, setup.at.as_slice(), part.good, part.low, part.high).is_some()
}

// Whether each ingredient has a fit.
fn all_have_fits(game: &Game, setup: &Setup, parts: &[Part]) -> bool
    requires sound { IsSound game.now }
    ensures { result ≡ list_all (has_fit game.now setup.now) parts.now }
{
    parts.iter().all(|part| has_fit(game, setup, part))
}

// Whether it is known what comes in.
fn is_there(input: Input) -> bool
    ensures { result ≡ is_there input }
{
    match input {
        Input::Missing => false,
        Input::None => true,
        Input::Fluid(_) => true,
    }
}

// Whether all that the set-up takes is known.
fn has_fits(game: &Game, setup: &Setup, activity: Activity) -> bool
    requires sound { IsSound game.now }
    requires setup { IsSoundSetup game.now setup.now }
    requires activity { IsSoundActivity game.now activity }
    ensures { result ≡ has_fits game.now setup.now activity }
{
    match activity {
        Activity::Craft(recipe) => {
            all_have_fits(game, setup, game.recipe(recipe).ingredients.as_slice())
        }
        Activity::Generate => is_there(input_of(game, setup)),
        Activity::Boil(_) => is_there(input_of(game, setup)),
        Activity::Mine(_) => true,
        Activity::Pump(_) => true,
        Activity::Research(_) => true,
    }
}

#[tactic(auto, unfolding(crate::specs::Setups::checked_fits))]
fn check_fits(game: &Game, setup: &Setup) -> Result<(), SetupFault>
    requires sound { IsSound game.now }
    requires setup { IsSoundSetup game.now setup.now }
    ensures { result ≡ checked_fits game.now setup.now }
{
    if has_fits(game, setup, setup.activity) {
        Ok(())
    } else {
        Err(SetupFault::Temperature)
    }
}

// Whether the machine does what it is set to do.
fn check_does(game: &Game, setup: &Setup, activity: Activity) -> Result<(), SetupFault>
    requires sound { IsSound game.now }
    requires setup { IsSoundSetup game.now setup.now }
    ensures { result ≡ does game.now setup.now activity }
{
    match activity {
        Activity::Generate => check_power(game, setup).map_err(SetupFault::Power),
        Activity::Boil(_) => check_power(game, setup).map_err(SetupFault::Power),
        Activity::Research(_) => check_lab(game, setup).map_err(SetupFault::Lab),
        Activity::Craft(_) => check_machine(game, setup).map_err(SetupFault::Machine),
        Activity::Mine(_) => check_machine(game, setup).map_err(SetupFault::Machine),
        Activity::Pump(_) => check_machine(game, setup).map_err(SetupFault::Machine),
    }
}

#[tactic(auto, unfolding(crate::specs::Setups::checked_setup))]
/// Whether a set-up can stand in a table.
///
/// # Errors
///
/// The first of these, exactly: `Temperature` (P4) where an ingredient has no fit, or no fluid is named that a boiler or a
/// generator takes in; then the faults of the machine, of its fuel, of its modules and of its beacons.
pub fn check_setup(game: &Game, setup: &Setup) -> Result<(), SetupFault>
    requires sound { IsSound game.now }
    requires setup { IsSoundSetup game.now setup.now }
    ensures { result ≡ checked_setup game.now setup.now }
{
    check_fits(game, setup)?;
    check_does(game, setup, setup.activity)?;
    check_rest(game, setup)
}

#[tactic(auto, unfolding(crate::specs::Setups::checked_rest, game_types::specs::Modules::module_sum))]
// Whether its fuel, its modules and its beacons fit.
fn check_rest(game: &Game, setup: &Setup) -> Result<(), SetupFault>
    requires sound { IsSound game.now }
    requires setup { IsSoundSetup game.now setup.now }
    ensures { result ≡ checked_rest game.now setup.now }
{
    if let Err(fault) = fuel_use(game, setup) {
        return Err(SetupFault::Fuel(fault));
    }
    if let Err(fault) = sum_modules(game, setup) {
        return Err(SetupFault::Modules(fault));
    }
    check_beacons(game, setup).map_err(SetupFault::Beacons)
}
