//! Which fuel a machine burns.
#![tactic(auto)]

ghost use Rattle.std.specs.Prelude.{◌≡◌};
ghost use Rattle.game_types.specs.Fuels.{accepted, in_burner, without_burner, fuel_use_of, setup_fuel};
ghost use Rattle.game_types.specs.Sound.{IsSound, IsSoundSetup};

pub use game_types::FuelFault;
use game_types::{Energy, Fuel, Game, Setup, takes_fuel};
use plan_base::GoodId;

// The fuel, where the burner takes it.
fn accepted(energy: &Energy, fuel: Option<Fuel>) -> Result<Option<Fuel>, FuelFault>
    ensures { result ≡ accepted energy.now fuel }
{
    match fuel {
        Some(fuel) if takes_fuel(energy, &fuel) => Ok(Some(fuel)),
        _ => Err(FuelFault::NotAccepted),
    }
}

#[tactic(auto, unfolding(game_types::specs::Fuels::setup_fuel))]
// What an item of a set-up is as a fuel.
fn setup_fuel(game: &Game, setup: &Setup) -> Option<Fuel>
    requires sound { IsSound game.now }
    requires setup { IsSoundSetup game.now setup.now }
    ensures { result ≡ setup_fuel game.now setup.now }
{
    match setup.fuel {
        Some(good) => game.item(good).fuel,
        None => None,
    }
}

#[tactic(auto, unfolding(game_types::specs::Fuels::fuel_use_of))]
/// The fuel that the machine of a set-up burns; `None` where it isn't a burner.
///
/// # Errors
///
/// The first of these, exactly: `NotPlanned` (L4) where the machine takes heat or a fluid for energy; `Needed` (L1) where it
/// is a burner and the set-up names no fuel; `NotTaken` (L3) where it isn't a burner and the set-up names one; `NotAccepted`
/// (L2) where the item has no fuel value above 0 or its category isn't one of the burner's.
pub fn fuel_use(game: &Game, setup: &Setup) -> Result<Option<Fuel>, FuelFault>
    requires sound { IsSound game.now }
    requires setup { IsSoundSetup game.now setup.now }
    ensures { result ≡ fuel_use_of game.now setup.now }
{
    let energy = &game.machine(setup.machine).energy;
    match energy {
        Energy::Heat => Err(FuelFault::NotPlanned),
        Energy::Fluid { .. } => Err(FuelFault::NotPlanned),
        Energy::Burner { .. } => match setup.fuel {
            Some(_) => accepted(energy, setup_fuel(game, setup)),
            None => Err(FuelFault::Needed),
        },
        Energy::Electric => without_burner(setup.fuel),
        Energy::Void => without_burner(setup.fuel),
    }
}

// A machine that isn't a burner takes no fuel.
fn without_burner(fuel: Option<GoodId>) -> Result<Option<Fuel>, FuelFault>
    ensures { result ≡ without_burner fuel }
{
    match fuel {
        Some(_) => Err(FuelFault::NotTaken),
        None => Ok(None),
    }
}
