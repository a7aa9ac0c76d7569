//! The machine that does something best, and the fuel that it burns.
ghost use Rattle.std.specs.Prelude.{◌≡◌, ◌<◌, IfOk, IfSome, length, slice_get};
ghost use Rattle.game_types.specs.Sound.{IsSound};
ghost use Rattle.wish_setups.specs.Choice.{DoesBy, IsBestSetup, best_machine, fuel_in};

use crate::Wish;
use crate::dressing::{Bare, dressed};
use crate::fuels::fuel_for;
use crate::machine_ranks::rank_of_machine;
use crate::ranks::{Rank, better};
use crate::reach::State;
use game_types::{Activity, Game, Setup};
use plan_base::{EntityId, GoodId, NoMemory};
use std::alloc::Global;

// The best of the reached machines that do something.
fn best_machine(
    alloc: Global,
    game: &Game,
    state: State<'_>,
    wish: &Wish,
    activity: Activity,
    at: &[GoodId],
) -> Result<Option<(usize, Rank)>, NoMemory>
    requires { IsSound game.now }
    ensures { IfOk result (λ best. best ≡ best_machine game.now state.entry.reached.now wish.now state.entry.mined.now state.entry.fuels.now activity at.now) }
{
    let mut best = None;
    for number in 0..game.shape().machines {
        let rank = rank_of_machine(alloc, game, state, wish, activity, at, number)?;
        best = better(best, number as usize, rank);
    }
    Ok(best)
}

// The fuel of the machine of a number.
fn fuel_in(game: &Game, state: State<'_>, wish: &Wish, number: usize) -> Option<GoodId>
    ensures { result ≡ fuel_in game.now wish.now state.entry.mined.now state.entry.fuels.now (slice_get game.now.machines number) }
{
    match game.machines.as_slice().get(number) {
        Some(machine) => fuel_for(game, wish, state.mined, state.fuels, &machine.energy),
        None => None,
    }
}

// The set-up of the machine of a number, with what the wish puts into it.
fn setup_by(
    alloc: Global,
    game: &Game,
    state: State<'_>,
    wish: &Wish,
    activity: Activity,
    at: &[GoodId],
    number: u32,
) -> Result<Setup, NoMemory>
    requires { IsSound game.now }
    ensures { IfOk result (DoesBy game.now wish.now state.entry.mined.now state.entry.fuels.now activity at.now number) }
{
    let bare = Bare {
        activity,
        machine: EntityId(number),
        fuel: fuel_in(game, state, wish, number as usize),
        at,
    };
    dressed(alloc, game, wish, &bare)
}

// The set-up of the best machine, where any does it.
fn setup_of_best(
    alloc: Global,
    game: &Game,
    state: State<'_>,
    wish: &Wish,
    activity: Activity,
    at: &[GoodId],
    best: Option<(usize, Rank)>,
) -> Result<Option<Setup>, NoMemory>
    requires sound { IsSound game.now }
    requires within { IfSome best (λ best. best.0 < length game.now.machines) }
    ensures { IfOk result (IsBestSetup game.now wish.now state.entry.mined.now state.entry.fuels.now activity at.now best) }
{
    match best {
        Some(best) => {
            let number = best.0 as u32;
            Ok(Some(setup_by(alloc, game, state, wish, activity, at, number)?))
        }
        None => Ok(None),
    }
}

/// The set-up of the best of the reached machines that do something, with what the wish puts into it. None where no machine does it. Best is
/// an earlier machine of the wish, then a generator that wastes no heat, then the one of which fewest do one craft a second, then one that
/// burns nothing, then the first.
///
/// # Errors
///
/// `NoMemory` where memory could not be had.
#[tactic(auto, using(crate::proofs::RankLemmas::of_best))]
pub fn best_setup(
    alloc: Global,
    game: &Game,
    state: State<'_>,
    wish: &Wish,
    activity: Activity,
    at: &[GoodId],
) -> Result<Option<Setup>, NoMemory>
    requires { IsSound game.now }
    ensures { IfOk result (IsBestSetup game.now wish.now state.entry.mined.now state.entry.fuels.now activity at.now (best_machine game.now state.entry.reached.now wish.now state.entry.mined.now state.entry.fuels.now activity at.now)) }
{
    let best = best_machine(alloc, game, state, wish, activity, at)?;
    setup_of_best(alloc, game, state, wish, activity, at, best)
}
