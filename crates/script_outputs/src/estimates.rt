//! The reached goods with their estimates.
ghost use Rattle.std.specs.Prelude.{◌≡◌, ◌+◌, ◌++◌, IfOk, OnOk, length};
ghost use Rattle.game_types.specs.Goods.{solid_and_fluid};
ghost use Rattle.game_types.specs.Sound.{IsSound};
ghost use Rattle.script_outputs.specs.Costs.{goods_of, one_if_reached, reached_below};

use fractions::Ratio;
use game_types::Game;
use plan_base::{GoodId, Items, NoMemory};
use std::alloc::Global;
use wish_estimates::Estimates;
use wish_setups::{State, Wish, is_good_reached, mined_goods, reached_fuels};

/// A good with the estimate of a unit, where there is one.
pub type Cost = (GoodId, Option<Ratio>);

fn estimates_of(alloc: Global, game: &Game, reached: &[bool]) -> Result<Estimates, NoMemory>
    requires { IsSound game.now }
{
    let mined = mined_goods(alloc, game, reached)?;
    let fuels = reached_fuels(alloc, game, reached)?;
    let state = State {
        reached,
        mined: mined.as_slice(),
        fuels: fuels.as_slice(),
    };
    Estimates::of(alloc, game, state, &Wish::nothing(alloc))
}

fn estimate_of(estimates: &Estimates, good: GoodId) -> Option<Ratio> {
    if estimates.is_known(good) {
        Some(estimates.price(good))
    } else {
        None
    }
}

// Puts a good with its estimate, where it is reached.
fn push_cost(
    costs: &mut Vec<Cost>,
    game: &Game,
    reached: &[bool],
    estimates: &Estimates,
    place: u32,
) -> Result<(), NoMemory>
    requires { IsSound game.now }
    ensures { OnOk result (goods_of costs.new.items ≡ goods_of costs.old.items ++ one_if_reached game.now reached.now place) }
{
    let good = GoodId(place);
    if is_good_reached(game, reached, good) {
        costs.push((good, estimate_of(estimates, good)))?;
    }
    Ok(())
}

/// The reached items and fluids, in the order of goods, each with the estimate of a unit where there is one: none where it can only be had
/// by hand, or is given by nothing that can be a row.
///
/// # Errors
///
/// `NoMemory` where memory could not be had.
#[tactic(auto, using(crate::proofs::Reached::none_below, crate::proofs::Reached::next_below))]
pub fn costs_of(alloc: Global, game: &Game, reached: &[bool]) -> Result<Vec<Cost>, NoMemory>
    requires { IsSound game.now }
    ensures { IfOk result (λ costs. goods_of costs.items ≡ reached_below game.now reached.now (solid_and_fluid game.now)) }
{
    let estimates = estimates_of(alloc, game, reached)?;
    let shape = game.shape();
    let mut costs = Vec::new(alloc);
    for place in 0..shape.items + shape.fluids {
        push_cost(&mut costs, game, reached, &estimates, place)?;
    }
    Ok(costs)
}
