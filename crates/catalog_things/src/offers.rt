//! The fuels and the modules of a machine.
ghost use Rattle.std.specs.Prelude.{◌≡◌, ◌+◌, IfOk, length};
ghost use Rattle.game_types.specs.Sound.{IsSound};
ghost use Rattle.catalog_things.specs.Choices.{burns, fuels_of, may_hold, modules_of};

use depend_index::first_fluid;
use game_types::{Allowed, Energy, Fuel, Game, Item, Module, first_refused, takes_fuel};
use graph_store::{Test, those};
use plan_base::{NoMemory, NodeId};
use std::alloc::Global;

// Whether an item is a fuel that a machine burns.
fn burns(energy: &Energy, fuel: &Option<Fuel>) -> bool
    ensures { result ≡ burns energy.now fuel.now }
{
    match fuel {
        Some(fuel) => takes_fuel(energy, fuel),
        None => false,
    }
}

// The items that a machine burns.
#[derive(Drop)]
struct BurntBy<'a> {
    energy: &'a Energy,
}

impl<'a> Test<Item> for BurntBy<'a> {
    ghost passes = { λ test item. burns test.energy.now item.fuel };

    fn passes(&self, item: &Item) -> bool {
        burns(self.energy, &item.fuel)
    }
}

/// The fuels of a machine with this energy, as nodes in the order of the game.
///
/// # Errors
///
/// `NoMemory` where memory could not be had.
#[tactic(auto, unfolding(crate::specs::Choices::fuels_of))]
pub fn fuels_of(alloc: Global, game: &Game, energy: &Energy) -> Result<Vec<NodeId>, NoMemory>
    requires { IsSound game.now }
    ensures { IfOk result (λ nodes. nodes.items ≡ fuels_of game.now energy.now) }
{
    let _few = first_fluid(game);
    let test = BurntBy { energy };
    those(alloc, 3, game.items.as_slice(), &test)
}

// Whether an item is a module all of whose effects are allowed.
fn may_hold(allowed: &Allowed, installed: &Option<Module>) -> bool
    ensures { result ≡ may_hold allowed.now installed.now }
{
    match installed {
        Some(installed) => first_refused(&installed.bonus, allowed).is_none(),
        None => false,
    }
}

// The items that may be modules where these effects are allowed.
#[derive(Drop)]
struct HeldBy {
    allowed: Allowed,
}

impl Test<Item> for HeldBy {
    ghost passes = { λ test item. may_hold test.allowed item.module };

    fn passes(&self, item: &Item) -> bool {
        may_hold(&self.allowed, &item.module)
    }
}

/// The modules whose effects a machine or a beacon allows, as nodes in the order of the game.
///
/// # Errors
///
/// `NoMemory` where memory could not be had.
#[tactic(auto, unfolding(crate::specs::Choices::modules_of))]
pub fn modules_of(alloc: Global, game: &Game, allowed: Allowed) -> Result<Vec<NodeId>, NoMemory>
    requires { IsSound game.now }
    ensures { IfOk result (λ nodes. nodes.items ≡ modules_of game.now allowed) }
{
    let _few = first_fluid(game);
    let test = HeldBy { allowed };
    those(alloc, 3, game.items.as_slice(), &test)
}
