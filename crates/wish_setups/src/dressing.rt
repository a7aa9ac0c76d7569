//! The set-up of a machine, bare and with what a wish puts into it and round it.
ghost use Rattle.std.specs.Prelude.{◌≡◌, IfOk};
ghost use Rattle.game_types.specs.Sound.{IsSound};
ghost use Rattle.wish_setups.specs.Choice.{IsDressed, bare_setup};

use crate::fitting::is_fitting;
use crate::{Wish, WishBeacon};
use game_types::{Activity, BeaconGroup, Game, Setup};
use plan_base::{EntityId, GoodId, Items, NoMemory};
use std::alloc::Global;

/// A machine that does something, with its fuel and the fluids that it takes before others.
#[derive(Clone, Copy)]
pub struct Bare<'a> {
    pub activity: Activity,
    pub machine: EntityId,
    pub fuel: Option<GoodId>,
    pub at: &'a [GoodId],
}

// How many modules a machine holds.
fn slots_of(game: &Game, machine: EntityId) -> u32 {
    match game.machines.as_slice().get(machine.0 as usize) {
        Some(machine) => machine.slots,
        None => 0,
    }
}

// A module in so many slots.
fn filled(alloc: Global, module: GoodId, slots: u32) -> Result<Items<(GoodId, u32)>, NoMemory> {
    let mut modules = Vec::new(alloc);
    if slots > 0 {
        modules.push((module, slots))?;
    }
    Ok(Items::from_vec(modules))
}

// The modules that a machine is filled with.
fn wished_modules(
    alloc: Global,
    game: &Game,
    module: Option<GoodId>,
    machine: EntityId,
) -> Result<Items<(GoodId, u32)>, NoMemory> {
    match module {
        Some(module) => filled(alloc, module, slots_of(game, machine)),
        None => Ok(Items::from_vec(Vec::new(alloc))),
    }
}

// The beacons round a machine.
fn wished_beacons(
    alloc: Global,
    game: &Game,
    beacon: Option<WishBeacon>,
) -> Result<Items<BeaconGroup>, NoMemory> {
    let mut groups = Vec::new(alloc);
    if let Some(beacon) = beacon {
        let modules = filled(alloc, beacon.module, slots_of(game, beacon.beacon))?;
        groups.push(BeaconGroup {
            beacon: beacon.beacon,
            count: beacon.count,
            share: beacon.share,
            modules,
        })?;
    }
    Ok(Items::from_vec(groups))
}

/// The set-up of a machine with no modules and no beacons.
pub fn bare_setup(alloc: Global, bare: &Bare<'_>) -> Result<Setup, NoMemory>
    ensures { IfOk result (λ setup. setup ≡ bare_setup bare.now.activity bare.now.machine bare.now.fuel bare.now.at.now) }
{
    let at = Vec::from_slice(alloc, bare.at)?;
    Ok(Setup {
        activity: bare.activity,
        machine: bare.machine,
        fuel: bare.fuel,
        modules: Items::from_vec(Vec::new(alloc)),
        beacons: Items::from_vec(Vec::new(alloc)),
        at: Items::from_vec(at),
    })
}

// The set-up of a machine with a module in its slots and with beacons.
fn setup_with(
    alloc: Global,
    game: &Game,
    bare: &Bare<'_>,
    module: Option<GoodId>,
    beacon: Option<WishBeacon>,
) -> Result<Setup, NoMemory>
    ensures { IfOk result (λ setup. IsDressed bare.now.activity bare.now.machine bare.now.fuel bare.now.at.now setup) }
{
    let modules = wished_modules(alloc, game, module, bare.machine)?;
    let beacons = wished_beacons(alloc, game, beacon)?;
    let at = Vec::from_slice(alloc, bare.at)?;
    Ok(Setup {
        activity: bare.activity,
        machine: bare.machine,
        fuel: bare.fuel,
        modules,
        beacons,
        at: Items::from_vec(at),
    })
}

// Whether the set-up with modules and beacons can stand in a table.
fn takes(
    alloc: Global,
    game: &Game,
    bare: &Bare<'_>,
    module: Option<GoodId>,
    beacon: Option<WishBeacon>,
) -> Result<bool, NoMemory>
    requires { IsSound game.now }
{
    let setup = setup_with(alloc, game, bare, module, beacon)?;
    Ok(is_fitting(game, &setup))
}

// The first of some modules that a machine takes.
fn first_taken(
    alloc: Global,
    game: &Game,
    bare: &Bare<'_>,
    modules: &[GoodId],
) -> Result<Option<GoodId>, NoMemory>
    requires { IsSound game.now }
{
    for module in modules {
        if takes(alloc, game, bare, Some(*module), None)? {
            return Ok(Some(*module));
        }
    }
    Ok(None)
}

// The beacons of a wish, where a machine takes them.
fn taken_beacon(
    alloc: Global,
    game: &Game,
    bare: &Bare<'_>,
    module: Option<GoodId>,
    beacon: Option<WishBeacon>,
) -> Result<Option<WishBeacon>, NoMemory>
    requires { IsSound game.now }
{
    if beacon.is_some() && takes(alloc, game, bare, module, beacon)? {
        Ok(beacon)
    } else {
        Ok(None)
    }
}

/// The set-up with the first of the wish's modules that it takes, and with the wish's beacons where it takes them.
pub fn dressed(alloc: Global, game: &Game, wish: &Wish, bare: &Bare<'_>) -> Result<Setup, NoMemory>
    requires { IsSound game.now }
    ensures { IfOk result (λ setup. IsDressed bare.now.activity bare.now.machine bare.now.fuel bare.now.at.now setup) }
{
    let module = first_taken(alloc, game, bare, wish.modules.as_slice())?;
    let beacon = taken_beacon(alloc, game, bare, module, wish.beacon)?;
    setup_with(alloc, game, bare, module, beacon)
}
