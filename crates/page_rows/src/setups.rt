//! What a row is set to do: its modules, its beacons, its fuel, and which fluids it takes.
ghost use Rattle.std.specs.Prelude.{◌≡◌, ◌++◌, IfOk, map, string_bytes};
ghost use Rattle.game_types.specs.Sound.{IsSound};
ghost use Rattle.page_rows.specs.Setups.{beacon_item, beacon_text, beacons_text, fuel_text, good_text, machine_text, module_text, modules_text, setup_text, taken_text, takings_text};

use crate::things::{Thing, good_thing, thing_text};
use game_types::{BeaconGroup, Game, Setup};
use plan_base::{EntityId, GoodId, Kind, NoMemory};
use std::alloc::Global;

/// A machine.
///
/// # Errors
///
/// `NoMemory` where memory could not be had.
pub(crate) fn machine_text(
    alloc: Global,
    game: &Game,
    machine: EntityId,
) -> Result<String, NoMemory>
    ensures { IfOk result (λ text. string_bytes text ≡ machine_text game.now machine) }
{
    let thing = Thing {
        kind: Kind::Machine,
        index: machine.0,
    };
    thing_text(alloc, game, thing)
}

/// A good of a table.
///
/// # Errors
///
/// `NoMemory` where memory could not be had.
pub(crate) fn good_text(alloc: Global, game: &Game, good: GoodId) -> Result<String, NoMemory>
    requires { IsSound game.now }
    ensures { IfOk result (λ text. string_bytes text ≡ good_text game.now good) }
{
    let thing = good_thing(game, good);
    thing_text(alloc, game, thing)
}

// So many of a module.
fn module_text(alloc: Global, game: &Game, good: GoodId, count: u32) -> Result<String, NoMemory>
    requires { IsSound game.now }
    ensures { IfOk result (λ text. string_bytes text ≡ module_text game.now (good, count)) }
{
    let name = good_text(alloc, game, good)?;
    Ok(format!(in alloc; "<li>{count} &times; {name}</li>")?)
}

fn modules_text(alloc: Global, game: &Game, modules: &[(GoodId, u32)]) -> Result<String, NoMemory>
    requires { IsSound game.now }
    ensures { IfOk result (λ text. string_bytes text ≡ modules_text game.now modules.now) }
{
    let mut text = String::new(alloc);
    for (good, count) in modules {
        let item = module_text(alloc, game, *good, *count)?;
        text.push_str(item.as_str())?;
    }
    Ok(text)
}

// So many beacons, how many machines each is for, and their modules.
fn beacon_item(
    alloc: Global,
    count: u32,
    beacon: &str,
    share: u32,
    modules: &str,
) -> Result<String, NoMemory>
    ensures { IfOk result (λ text. string_bytes text ≡ beacon_item count beacon.now share modules.now) }
{
    Ok(format!(in alloc;
        "<li>{count} &times; {beacon} <small>each for {share}</small><ul>{modules}</ul></li>"
    )?)
}

// The beacons of a kind with their modules.
#[tactic(auto, unfolding(crate::specs::Setups::beacon_text))]
fn beacon_text(alloc: Global, game: &Game, group: &BeaconGroup) -> Result<String, NoMemory>
    requires { IsSound game.now }
    ensures { IfOk result (λ text. string_bytes text ≡ beacon_text game.now group.now) }
{
    let beacon = machine_text(alloc, game, group.beacon)?;
    let modules = modules_text(alloc, game, group.modules.as_slice())?;
    beacon_item(
        alloc,
        group.count,
        beacon.as_str(),
        group.share,
        modules.as_str(),
    )
}

fn beacons_text(alloc: Global, game: &Game, groups: &[BeaconGroup]) -> Result<String, NoMemory>
    requires { IsSound game.now }
    ensures { IfOk result (λ text. string_bytes text ≡ beacons_text game.now groups.now) }
{
    let mut text = String::new(alloc);
    for group in groups {
        let item = beacon_text(alloc, game, group)?;
        text.push_str(item.as_str())?;
    }
    Ok(text)
}

// The fuel that is burnt, where one is.
fn fuel_text(alloc: Global, game: &Game, fuel: Option<GoodId>) -> Result<String, NoMemory>
    requires { IsSound game.now }
    ensures { IfOk result (λ text. string_bytes text ≡ fuel_text game.now fuel) }
{
    match fuel {
        Some(fuel) => {
            let fuel = good_text(alloc, game, fuel)?;
            Ok(format!(in alloc; "<li>burns {fuel}</li>")?)
        }
        None => Ok(String::new(alloc)),
    }
}

fn taken_text(alloc: Global, game: &Game, good: GoodId) -> Result<String, NoMemory>
    requires { IsSound game.now }
    ensures { IfOk result (λ text. string_bytes text ≡ taken_text game.now good) }
{
    let good = good_text(alloc, game, good)?;
    Ok(format!(in alloc; "<li>takes {good}</li>")?)
}

// The fluids that are taken where several would do.
fn takings_text(alloc: Global, game: &Game, goods: &[GoodId]) -> Result<String, NoMemory>
    requires { IsSound game.now }
    ensures { IfOk result (λ text. string_bytes text ≡ takings_text game.now goods.now) }
{
    let mut text = String::new(alloc);
    for good in goods {
        let item = taken_text(alloc, game, *good)?;
        text.push_str(item.as_str())?;
    }
    Ok(text)
}

/// The machine of a row with its modules, its beacons, its fuel and the fluids that it takes where several would do.
///
/// # Errors
///
/// `NoMemory` where memory could not be had.
#[tactic(auto, unfolding(crate::specs::Setups::setup_text))]
pub fn setup_text(alloc: Global, game: &Game, setup: &Setup) -> Result<String, NoMemory>
    requires { IsSound game.now }
    ensures { IfOk result (λ text. string_bytes text ≡ setup_text game.now setup.now) }
{
    let machine = machine_text(alloc, game, setup.machine)?;
    let modules = modules_text(alloc, game, setup.modules.as_slice())?;
    let beacons = beacons_text(alloc, game, setup.beacons.as_slice())?;
    let fuel = fuel_text(alloc, game, setup.fuel)?;
    let takings = takings_text(alloc, game, setup.at.as_slice())?;
    Ok(format!(in alloc; "{machine}<ul>{modules}{beacons}{fuel}{takings}</ul>")?)
}
