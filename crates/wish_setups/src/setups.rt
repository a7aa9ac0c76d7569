//! What set-ups that can stand in a table take, give and need.
ghost use Rattle.std.specs.Prelude.{◌≡◌};
ghost use Rattle.game_types.specs.Sound.{IsSound};
ghost use Rattle.wish_setups.specs.Choice.{is_input, machines_of, takes_in};

use crate::fitting::{are_there, is_fitting};
use fractions::Ratio;
use game_types::{Effects, Game, Product, Rates, Setup};
use machine_rates::yield_of;
use plan_base::{GoodId, NoMemory};
use power_rows::{Input, input_of};
use std::alloc::Global;
use table_rows::{RowFault, column_of, row_rates};

/// Whether a boiler or a generator that can stand in a table takes a fluid in.
#[tactic(auto, unfolding(crate::specs::Choice::takes_in))]
pub fn takes_in(game: &Game, setup: &Setup, fluid: GoodId) -> bool
    requires { IsSound game.now }
    ensures { result ≡ takes_in game.now setup.now fluid }
{
    are_there(game, setup) && is_input(fluid, input_of(game, setup))
}

fn is_input(fluid: GoodId, input: Input) -> bool
    ensures { result ≡ is_input fluid input }
{
    match input {
        Input::Fluid(good) => good.0 == fluid.0,
        Input::None => false,
        Input::Missing => false,
    }
}

/// How many machines one craft a second takes, where the set-up can stand in a table.
#[tactic(auto, unfolding(crate::specs::Choice::machines_of))]
pub fn machines_of(game: &Game, setup: &Setup) -> Option<Ratio>
    requires { IsSound game.now }
    ensures { result ≡ machines_of game.now setup.now }
{
    if !is_fitting(game, setup) {
        return None;
    }
    match row_rates(game, setup) {
        Ok(rates) => Some(rates.1.machines),
        Err(_) => None,
    }
}

/// What one craft adds to each good, where the set-up can stand in a table and no number is too wide.
pub fn column_in(
    alloc: Global,
    game: &Game,
    power: bool,
    setup: &Setup,
) -> Result<Option<Vec<(GoodId, Ratio)>>, NoMemory>
    requires { IsSound game.now }
{
    if !is_fitting(game, setup) {
        return Ok(None);
    }
    match column_of(alloc, game, power, setup) {
        Ok(column) => Ok(Some(column)),
        Err(RowFault::Wide(_)) => Ok(None),
        Err(RowFault::NoMemory) => Err(NoMemory),
    }
}

/// What one craft a second takes, and the power of the beacons of each machine, where the set-up can stand in a table.
pub fn figures_of(game: &Game, setup: &Setup) -> Option<(Effects, Rates, Ratio)>
    requires { IsSound game.now }
{
    if !is_fitting(game, setup) {
        return None;
    }
    match row_rates(game, setup) {
        Ok(rates) => Some(rates),
        Err(_) => None,
    }
}

/// What a product is expected to give, without productivity.
pub fn expected_units(product: &Product) -> Ratio {
    match yield_of(product, &Ratio::zero()) {
        Ok(amount) => amount,
        Err(_) => Ratio::one(),
    }
}
