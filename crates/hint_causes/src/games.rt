//! What of a game tells why a row is refused.
ghost use Rattle.game_types.specs.Sound.{IsSound};

use crate::names::object_text;
use game_types::{Game, Machine, MachineKind, Recipe, Source, holds, takes_fuel};
use plan_base::{GoodId, Kind, NoMemory, Text};
use std::alloc::Global;

// The place of a thing among those of its kind.
fn place_of(game: &Game, kind: Kind, name: &str) -> Option<usize>
    requires { IsSound game.now }
{
    let node = game.find(kind, name)?;
    Some(game.shape().kind_of(node).1 as usize)
}

/// The machine of a name.
pub fn machine_of<'a>(game: &'a Game, name: &str) -> Option<&'a Machine>
    requires { IsSound game.now }
{
    game.machines
        .as_slice()
        .get(place_of(game, Kind::Machine, name)?)
}

// The name of a fluid.
fn fluid_name(game: &Game, good: GoodId) -> Option<&str>
    requires { IsSound game.now }
{
    let place = (good.0 as usize).checked_sub(game.items.len())?;
    let names = &game.fluid_names;
    if place < names.len() as usize {
        Some(names.name_of(place as u32))
    } else {
        None
    }
}

// The fluid that a machine gives.
fn output_of(machine: &Machine) -> Option<GoodId> {
    match &machine.kind {
        MachineKind::Boiler { output, .. } => *output,
        MachineKind::Pump { fluid, .. } => Some(*fluid),
        _ => None,
    }
}

/// The fluid that a machine gives in place of a base of it, with its kind.
pub fn variant_given(
    alloc: Global,
    game: &Game,
    machine: &Machine,
    base: &str,
) -> Result<Option<Text>, NoMemory>
    requires { IsSound game.now }
{
    let Some(good) = output_of(machine) else {
        return Ok(None);
    };
    let Some(name) = fluid_name(game, good) else {
        return Ok(None);
    };
    match name.split_once('@') {
        Some((front, _)) if front == base => Ok(Some(object_text(alloc, Kind::Fluid, name)?)),
        _ => Ok(None),
    }
}

fn crafts(machine: &Machine, recipe: &Recipe) -> bool {
    match &machine.kind {
        MachineKind::Crafter {
            categories,
            fixed: None,
            ..
        } => recipe.launch.is_none() && holds(categories.as_slice(), recipe.category),
        _ => false,
    }
}

fn mines(machine: &Machine, source: &Source) -> bool {
    match &machine.kind {
        MachineKind::Drill {
            categories,
            fluid_box,
            ..
        } => {
            source.drilled
                && holds(categories.as_slice(), source.category)
                && (*fluid_box || source.fluid.is_none())
        }
        _ => false,
    }
}

fn is_lab(machine: &Machine) -> bool {
    match machine.kind {
        MachineKind::Lab { .. } => true,
        _ => false,
    }
}

// The name of the machine at a place, with its kind.
fn machine_text(alloc: Global, game: &Game, place: Option<usize>) -> Result<Option<Text>, NoMemory>
    requires { IsSound game.now }
{
    let names = &game.machine_names;
    match place {
        Some(place) if place < names.len() as usize => Ok(Some(object_text(
            alloc,
            Kind::Machine,
            names.name_of(place as u32),
        )?)),
        _ => Ok(None),
    }
}

/// The first machine that does an activity, with its kind.
pub fn machine_for(
    alloc: Global,
    game: &Game,
    kind: Kind,
    name: &str,
) -> Result<Option<Text>, NoMemory>
    requires { IsSound game.now }
{
    let machines = game.machines.as_slice();
    let place = match (kind, place_of(game, kind, name)) {
        (Kind::Recipe, Some(place)) => match game.recipes.as_slice().get(place) {
            Some(recipe) => machines.iter().position(|machine| crafts(machine, recipe)),
            None => None,
        },
        (Kind::Source, Some(place)) => match game.sources.as_slice().get(place) {
            Some(source) => machines.iter().position(|machine| mines(machine, source)),
            None => None,
        },
        (Kind::Tech, Some(_)) => machines.iter().position(|machine| is_lab(machine)),
        _ => None,
    };
    machine_text(alloc, game, place)
}

/// The first item that a machine burns, with its kind.
pub fn fuel_for(alloc: Global, game: &Game, machine: &Machine) -> Result<Option<Text>, NoMemory>
    requires { IsSound game.now }
{
    let names = &game.item_names;
    let mut place: u32 = 0;
    for item in game.items.as_slice() {
        if let Some(fuel) = &item.fuel {
            if takes_fuel(&machine.energy, fuel) && place < names.len() {
                return Ok(Some(object_text(alloc, Kind::Item, names.name_of(place))?));
            }
        }
        place = place.saturating_add(1);
    }
    Ok(None)
}

/// Whether a game has nothing of a dump in it.
pub fn is_bare(game: &Game) -> bool {
    game.items.len() == 0
        && game.fluids.len() == 0
        && game.recipes.len() == 0
        && game.machines.len() == 0
        && game.techs.len() == 0
}
