//! The ranks of machines that do something: the best comes first.
ghost use Rattle.std.specs.Prelude.{◌≡◌, IfOk, Some, option_map};
ghost use Rattle.game_types.specs.Sound.{IsSound};
ghost use Rattle.wish_setups.specs.Choice.{count_of, heat_by, heat_of, is_hotter, machine_rank, place_among, rank_of_kind, rank_of_machine, rank_with, takes_first, wastes_heat};

use crate::Wish;
use crate::doing::may_do;
use crate::dressing::{Bare, bare_setup};
use crate::fuels::fuel_for;
use crate::ranks::{Rank, is_below};
use crate::reach::{State, is_reached};
use crate::setups::{machines_of, takes_in};
use fractions::Ratio;
use game_types::{Activity, Fluid, Game, Machine, MachineKind, Setup};
use plan_base::{EntityId, GoodId, Kind, NoMemory};
use std::alloc::Global;

// Whether what makes electricity takes in the first of these fluids.
fn takes_first(game: &Game, setup: &Setup, activity: Activity, at: &[GoodId]) -> bool
    requires { IsSound game.now }
    ensures { result ≡ takes_first game.now setup.now activity at.now }
{
    match activity {
        Activity::Generate => match at {
            [fluid, ..] => takes_in(game, setup, *fluid),
            [] => true,
        },
        _ => true,
    }
}

// How many machines one craft a second takes, where the set-up can stand in a table so.
#[tactic(auto, unfolding(crate::specs::Choice::count_of))]
fn count_of(game: &Game, setup: &Setup) -> Option<Ratio>
    requires { IsSound game.now }
    ensures { result ≡ count_of game.now setup.now }
{
    if takes_first(game, setup, setup.activity, setup.at.as_slice()) {
        machines_of(game, setup)
    } else {
        None
    }
}

fn is_hotter(fluid: Option<&Fluid>, temperature: &Ratio) -> bool
    ensures { result ≡ is_hotter (option_map (λ fluid. fluid.now) fluid.entry) temperature.now }
{
    match fluid {
        Some(fluid) => is_below(temperature, &fluid.at),
        None => false,
    }
}

// Whether a fluid is hotter than the hottest of which a generator makes use.
fn wastes_heat(game: &Game, at: &[GoodId], kind: &MachineKind) -> bool
    ensures { result ≡ wastes_heat game.now at.now kind.now }
{
    let [fluid, ..] = at else {
        return false;
    };
    match kind {
        MachineKind::Generator {
            max_temperature,
            burns,
            ..
        } => !*burns && is_hotter(game.fluid(*fluid), max_temperature),
        _ => false,
    }
}

fn heat_by(wastes: bool, temperature: &Ratio) -> Ratio
    ensures { result ≡ heat_by wastes temperature.now }
{
    if wastes {
        temperature.neg()
    } else {
        *temperature
    }
}

fn heat_of(wastes: bool, kind: &MachineKind) -> Ratio
    ensures { result ≡ heat_of wastes kind.now }
{
    match kind {
        MachineKind::Generator {
            max_temperature,
            burns,
            ..
        } => {
            if *burns {
                Ratio::zero()
            } else {
                heat_by(wastes, max_temperature)
            }
        }
        _ => Ratio::zero(),
    }
}

// The place of a machine among some, behind the last where it is none of them.
fn place_among(machines: &[EntityId], machine: EntityId) -> usize
    ensures { result ≡ place_among machines.now machine.0 }
{
    let mut place = 0;
    for other in machines {
        if other.0 == machine.0 {
            return place;
        }
        place += 1;
    }
    place
}

fn machine_rank(
    game: &Game,
    wish: &Wish,
    at: &[GoodId],
    machine: EntityId,
    kind: &MachineKind,
    fuel: Option<GoodId>,
    machines: Ratio,
) -> Rank
    ensures { result ≡ machine_rank game.now wish.now at.now machine kind.now fuel machines }
{
    let wastes = wastes_heat(game, at, kind);
    Rank {
        place: place_among(wish.by.as_slice(), machine),
        wastes,
        heat: heat_of(wastes, kind),
        machines,
        burns: fuel.is_some(),
    }
}

// The rank of a machine with a fuel, where it does something so.
fn rank_with(
    alloc: Global,
    game: &Game,
    wish: &Wish,
    kind: &MachineKind,
    bare: &Bare<'_>,
) -> Result<Option<Rank>, NoMemory>
    requires { IsSound game.now }
    ensures { IfOk result (λ rank. rank ≡ rank_with game.now wish.now bare.now.activity bare.now.at.now bare.now.machine kind.now bare.now.fuel) }
{
    let setup = bare_setup(alloc, bare)?;
    match count_of(game, &setup) {
        Some(machines) => Ok(Some(machine_rank(
            game,
            wish,
            bare.at,
            bare.machine,
            kind,
            bare.fuel,
            machines,
        ))),
        None => Ok(None),
    }
}

// The rank of a machine, where it does something.
fn rank_of_kind(
    alloc: Global,
    game: &Game,
    state: State<'_>,
    wish: &Wish,
    activity: Activity,
    at: &[GoodId],
    number: EntityId,
    machine: &Machine,
) -> Result<Option<Rank>, NoMemory>
    requires { IsSound game.now }
    ensures { IfOk result (λ rank. rank ≡ rank_of_kind game.now wish.now state.entry.mined.now state.entry.fuels.now activity at.now number (Some machine.now)) }
{
    if !may_do(game, number, &machine.kind, activity, at) {
        return Ok(None);
    }
    let bare = Bare {
        activity,
        machine: number,
        fuel: fuel_for(game, wish, state.mined, state.fuels, &machine.energy),
        at,
    };
    rank_with(alloc, game, wish, &machine.kind, &bare)
}

/// The rank of a machine that is reached and does something.
#[tactic(auto, unfolding(crate::specs::Choice::rank_of_machine))]
pub fn rank_of_machine(
    alloc: Global,
    game: &Game,
    state: State<'_>,
    wish: &Wish,
    activity: Activity,
    at: &[GoodId],
    number: u32,
) -> Result<Option<Rank>, NoMemory>
    requires { IsSound game.now }
    ensures { IfOk result (λ rank. rank ≡ rank_of_machine game.now state.entry.reached.now wish.now state.entry.mined.now state.entry.fuels.now activity at.now number) }
{
    if !is_reached(game, state.reached, Kind::Machine, number) {
        return Ok(None);
    }
    match game.machines.as_slice().get(number as usize) {
        Some(machine) => {
            rank_of_kind(
                alloc,
                game,
                state,
                wish,
                activity,
                at,
                EntityId(number),
                machine,
            )
        }
        None => Ok(None),
    }
}
