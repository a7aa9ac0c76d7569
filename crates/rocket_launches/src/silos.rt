//! Silos, what they send up, and the flights that these make.
ghost use Rattle.std.specs.Prelude.{◌≡◌, ◌++◌, [], IfOk, map};
ghost use Rattle.std.specs.List.{cons_option};
ghost use Rattle.game_types.specs.Sound.{IsSound, IsSoundMachine};
ghost use Rattle.rocket_launches.specs.Launches.{cargo_in, cargo_of, fixed_recipe, flight, flights_of, silo_of, silo_with, silos_in};

use game_types::{Game, Item, Machine, MachineKind, Recipe};
use plan_base::{EntityId, GoodId, NoMemory, RecipeId};
use std::alloc::Global;

/// What a silo's launches have in common.
#[derive(Clone, Copy)]
pub struct Silo {
    pub machine: EntityId,
    /// The category of the recipe of the part.
    pub category: u32,
    pub part: GoodId,
    /// How many parts are put together to a rocket.
    pub parts: u32,
}

/// A rocket: the silo that it starts from, and the item that it carries.
#[derive(Clone, Copy)]
pub struct Flight {
    pub silo: Silo,
    pub cargo: GoodId,
}

// The recipe that a machine is fixed to.
fn fixed_recipe(kind: &MachineKind) -> Option<RecipeId>
    ensures { result ≡ fixed_recipe kind.now }
{
    match kind {
        MachineKind::Crafter { fixed, .. } => *fixed,
        _ => None,
    }
}

// The silo of a part's recipe.
fn silo_with(machine: EntityId, parts: u32, recipe: &Recipe) -> Option<Silo>
    ensures { result ≡ silo_with machine parts recipe.now recipe.now.products }
{
    match recipe.products.as_slice().first() {
        Some(first) => Some(Silo {
            machine,
            category: recipe.category,
            part: first.good,
            parts,
        }),
        None => None,
    }
}

/// What a machine is as a silo, where it is one.
#[tactic(auto, unfolding(crate::specs::Launches::silo_of))]
pub fn silo_of(game: &Game, number: u32, machine: &Machine) -> Option<Silo>
    requires { IsSoundMachine game.now machine.now }
    ensures { result ≡ silo_of game.now number machine.now }
{
    if machine.parts == 0 {
        return None;
    }
    match fixed_recipe(&machine.kind) {
        Some(fixed) => silo_with(EntityId(number), machine.parts, game.recipe(fixed)),
        None => None,
    }
}

/// An item as cargo, where its launch brings something back.
#[tactic(auto, unfolding(crate::specs::Launches::cargo_of))]
pub fn cargo_of(number: u32, item: &Item) -> Option<GoodId>
    ensures { result ≡ cargo_of number item.now }
{
    if item.launch.len() == 0 {
        None
    } else {
        Some(GoodId(number))
    }
}

// One more at the end, where it is there.
fn put_found<T: Drop>(list: &mut Vec<T>, found: Option<T>) -> Result<(), NoMemory>
    ensures { IfOk result (λ done. list.new.items ≡ list.old.items ++ cons_option found []) }
{
    if let Some(value) = found {
        list.push(value)?;
    }
    Ok(())
}

/// All silos.
#[tactic(auto, using(crate::proofs::Loops::found_next, crate::proofs::Loops::found_end))]
pub fn silos(alloc: Global, game: &Game) -> Result<Vec<Silo>, NoMemory>
    requires { IsSound game.now }
    ensures { IfOk result (λ silos. silos.items ≡ silos_in game.now) }
{
    let mut silos = Vec::new(alloc);
    let mut number = 0;
    for machine in game.machines.as_slice() {
        put_found(&mut silos, silo_of(game, number, machine))?;
        number += 1;
    }
    Ok(silos)
}

/// All cargo.
#[tactic(auto, using(crate::proofs::Loops::found_next, crate::proofs::Loops::found_end))]
pub fn cargo(alloc: Global, game: &Game) -> Result<Vec<GoodId>, NoMemory>
    requires { IsSound game.now }
    ensures { IfOk result (λ cargo. cargo.items ≡ cargo_in game.now) }
{
    let mut cargo = Vec::new(alloc);
    let mut number = 0;
    for item in game.items.as_slice() {
        put_found(&mut cargo, cargo_of(number, item))?;
        number += 1;
    }
    Ok(cargo)
}

// The flights of a silo, behind others.
#[tactic(auto, using(plan_base::proofs::Walks::map_next, plan_base::proofs::Walks::map_end))]
fn put_flights(list: &mut Vec<Flight>, silo: Silo, cargo: &[GoodId]) -> Result<(), NoMemory>
    ensures { IfOk result (λ done. list.new.items ≡ list.old.items ++ map (flight silo) cargo.now) }
{
    for good in cargo {
        list.push(Flight { silo, cargo: *good })?;
    }
    Ok(())
}

/// Each silo with each cargo, both in order.
#[tactic(auto, using(plan_base::proofs::Walks::flat_next, plan_base::proofs::Walks::flat_end))]
pub fn flights(alloc: Global, silos: &[Silo], cargo: &[GoodId]) -> Result<Vec<Flight>, NoMemory>
    ensures { IfOk result (λ flights. flights.items ≡ flights_of silos.now cargo.now) }
{
    let mut flights = Vec::new(alloc);
    for silo in silos {
        put_flights(&mut flights, *silo, cargo)?;
    }
    Ok(flights)
}
