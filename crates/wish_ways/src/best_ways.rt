//! The best set-up of an activity as a way.
ghost use Rattle.game_types.specs.Sound.{IsSound};

use crate::network::Network;
use crate::numbers::float_of;
use fractions::{Ratio, is_positive};
use game_types::{Activity, Game, Setup};
use plan_base::{GoodId, NoMemory};
use std::alloc::Global;
use wish_setups::{State, Wish, best_setup, column_in};

// The parts of a column come in, as what is taken and given.
fn push_column(column: &[(GoodId, Ratio)], network: &mut Network) -> Result<(), NoMemory> {
    for (good, amount) in column {
        if is_positive(amount) {
            network.push_give(*good, float_of(amount))?;
        } else {
            let from = network.next_fit();
            network.push_fit(*good)?;
            network.push_take(from, -float_of(amount))?;
        }
    }
    Ok(())
}

fn takes_some(column: &[(GoodId, Ratio)]) -> bool {
    column.iter().any(|part| part.1.is_neg())
}

// A set-up comes in as a way.
fn push_setup(
    alloc: Global,
    game: &Game,
    setup: &Setup,
    at: Option<GoodId>,
    own: f64,
    network: &mut Network,
) -> Result<(), NoMemory>
    requires { IsSound game.now }
{
    let Some(column) = column_in(alloc, game, false, setup)? else {
        return Ok(());
    };
    let takes = network.next_take();
    let gives = network.next_give();
    push_column(column.as_slice(), network)?;
    let own = if takes_some(column.as_slice()) {
        0.0
    } else {
        own
    };
    network.push_way(setup.activity, at, own, takes, gives)
}

/// The best set-up of an activity comes in as a way, where there is one. `own` is what one craft costs where it takes nothing.
pub fn push_best(
    alloc: Global,
    game: &Game,
    state: State<'_>,
    wish: &Wish,
    activity: Activity,
    at: Option<GoodId>,
    own: f64,
    network: &mut Network,
) -> Result<(), NoMemory>
    requires { IsSound game.now }
{
    let setup = match at {
        Some(fluid) => best_setup(alloc, game, state, wish, activity, &[fluid])?,
        None => best_setup(alloc, game, state, wish, activity, &[])?,
    };
    match setup {
        Some(setup) => push_setup(alloc, game, &setup, at, own, network),
        None => Ok(()),
    }
}
