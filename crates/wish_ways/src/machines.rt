//! What is pumped, heated, generated and researched as ways.
ghost use Rattle.game_types.specs.Sound.{IsSound};

use crate::best_ways::push_best;
use crate::network::Network;
use crate::numbers::float_of;
use crate::prices::{free_price, pump_price};
use game_types::{Activity, Game, MachineKind};
use plan_base::{GoodId, Kind, NoMemory, TechId};
use std::alloc::Global;
use wish_setups::{State, Wish, is_good_marked, is_good_reached, is_reached, mark_good};

// A pumped fluid comes in, and its mark.
fn push_pump(
    wish: &Wish,
    fluid: GoodId,
    pumped: &mut [bool],
    network: &mut Network,
) -> Result<(), NoMemory> {
    if is_good_marked(pumped, fluid) {
        return Ok(());
    }
    mark_good(pumped, fluid);
    let takes = network.next_take();
    let gives = network.next_give();
    network.push_give(fluid, 1.0)?;
    let own = float_of(&pump_price(wish));
    network.push_way(Activity::Pump(fluid), None, own, takes, gives)
}

// A heated fluid comes in.
fn push_boiler(
    alloc: Global,
    game: &Game,
    state: State<'_>,
    wish: &Wish,
    fluid: GoodId,
    boiled: &mut [bool],
    network: &mut Network,
) -> Result<(), NoMemory>
    requires { IsSound game.now }
{
    if is_good_marked(boiled, fluid) {
        return Ok(());
    }
    mark_good(boiled, fluid);
    push_best(
        alloc,
        game,
        state,
        wish,
        Activity::Boil(fluid),
        None,
        1.0,
        network,
    )
}

// The fluids that the machine at a place pumps or heats come in.
fn push_machine(
    alloc: Global,
    game: &Game,
    state: State<'_>,
    wish: &Wish,
    place: u32,
    pumped: &mut [bool],
    boiled: &mut [bool],
    network: &mut Network,
) -> Result<(), NoMemory>
    requires { IsSound game.now }
{
    let Some(machine) = game.machines.as_slice().get(place as usize) else {
        return Ok(());
    };
    match &machine.kind {
        MachineKind::Pump { fluid, .. } => push_pump(wish, *fluid, pumped, network),
        MachineKind::Boiler {
            output: Some(fluid),
            ..
        } => push_boiler(alloc, game, state, wish, *fluid, boiled, network),
        _ => Ok(()),
    }
}

/// What reached machines pump and heat comes in. Marks what is pumped.
pub fn push_fluids(
    alloc: Global,
    game: &Game,
    state: State<'_>,
    wish: &Wish,
    pumped: &mut [bool],
    network: &mut Network,
) -> Result<(), NoMemory>
    requires { IsSound game.now }
{
    let mut boiled = vec![in alloc; false; pumped.len()]?;
    for place in 0..game.shape().machines {
        if is_reached(game, state.reached, Kind::Machine, place) {
            let boiled = boiled.as_mut_slice();
            push_machine(alloc, game, state, wish, place, pumped, boiled, network)?;
        }
    }
    Ok(())
}

/// What makes electricity comes in: the best machine for each reached fluid, and the best of those that take none.
pub fn push_generators(
    alloc: Global,
    game: &Game,
    state: State<'_>,
    wish: &Wish,
    network: &mut Network,
) -> Result<(), NoMemory>
    requires { IsSound game.now }
{
    let shape = game.shape();
    let free = float_of(&free_price(wish));
    for number in shape.items..shape.items + shape.fluids {
        let fluid = GoodId(number);
        if is_good_reached(game, state.reached, fluid) {
            let at = Some(fluid);
            push_best(
                alloc,
                game,
                state,
                wish,
                Activity::Generate,
                at,
                free,
                network,
            )?;
        }
    }
    push_best(
        alloc,
        game,
        state,
        wish,
        Activity::Generate,
        None,
        free,
        network,
    )
}

// The technology of which a good is a unit.
fn tech_of(game: &Game, good: GoodId) -> Option<TechId>
    requires { IsSound game.now }
{
    let shape = game.shape();
    let power = shape.items + shape.fluids;
    if good.0 > power {
        Some(TechId(good.0 - power - 1))
    } else {
        None
    }
}

fn push_study(
    alloc: Global,
    game: &Game,
    state: State<'_>,
    wish: &Wish,
    good: GoodId,
    network: &mut Network,
) -> Result<(), NoMemory>
    requires { IsSound game.now }
{
    match tech_of(game, good) {
        Some(tech) if is_reached(game, state.reached, Kind::Tech, tech.0) => {
            let study = Activity::Research(tech);
            push_best(alloc, game, state, wish, study, None, 0.0, network)
        }
        _ => Ok(()),
    }
}

/// The research of wished technologies comes in.
pub fn push_studies(
    alloc: Global,
    game: &Game,
    state: State<'_>,
    wish: &Wish,
    network: &mut Network,
) -> Result<(), NoMemory>
    requires { IsSound game.now }
{
    for (good, _) in wish.wants.as_slice() {
        push_study(alloc, game, state, wish, *good, network)?;
    }
    Ok(())
}
