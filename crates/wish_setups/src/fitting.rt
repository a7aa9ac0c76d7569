//! Whether a set-up can stand in a table.
ghost use Rattle.std.specs.Prelude.{◌≡◌};
ghost use Rattle.std.specs.Bool.{OnTrue};
ghost use Rattle.std.specs.List.{list_all};
ghost use Rattle.game_types.specs.Sound.{IsSound, IsSoundSetup};
ghost use Rattle.table_rows.specs.Setups.{IsFitting};
ghost use Rattle.wish_setups.specs.Fitting.{are_modules, are_there, fits, is_activity, is_beacon, is_beacon_kind, is_fluid, is_fuel, is_good, is_group, is_item, is_machine_there, is_module, are_parts_there};

use game_types::{Activity, BeaconGroup, Game, MachineKind, Setup};
use plan_base::{EntityId, GoodId};
use table_rows::check_setup;

fn is_item(game: &Game, good: GoodId) -> bool
    ensures { result ≡ is_item game.now good }
{
    (good.0 as usize) < game.items.len()
}

fn is_good(game: &Game, good: GoodId) -> bool
    requires { IsSound game.now }
    ensures { result ≡ is_good game.now good }
{
    let shape = game.shape();
    good.0 < shape.items + shape.fluids
}

fn is_fluid(game: &Game, good: GoodId) -> bool
    requires { IsSound game.now }
    ensures { result ≡ is_fluid game.now good }
{
    game.shape().items <= good.0 && is_good(game, good)
}

fn is_module(game: &Game, good: GoodId) -> bool
    ensures { result ≡ is_module game.now good }
{
    match game.items.as_slice().get(good.0 as usize) {
        Some(item) => item.module.is_some(),
        None => false,
    }
}

fn is_beacon_kind(kind: &MachineKind) -> bool
    ensures { result ≡ is_beacon_kind kind.now }
{
    match kind {
        MachineKind::Beacon { .. } => true,
        _ => false,
    }
}

fn is_beacon(game: &Game, machine: EntityId) -> bool
    ensures { result ≡ is_beacon game.now machine }
{
    match game.machines.as_slice().get(machine.0 as usize) {
        Some(machine) => is_beacon_kind(&machine.kind),
        None => false,
    }
}

fn are_modules(game: &Game, modules: &[(GoodId, u32)]) -> bool
    ensures { result ≡ are_modules game.now modules.now }
{
    modules.iter().all(|module| is_module(game, module.0))
}

fn is_group(game: &Game, group: &BeaconGroup) -> bool
    ensures { result ≡ is_group game.now group.now }
{
    is_beacon(game, group.beacon) && are_modules(game, group.modules.as_slice())
}

fn is_activity(game: &Game, activity: Activity) -> bool
    requires { IsSound game.now }
    ensures { result ≡ is_activity game.now activity }
{
    match activity {
        Activity::Craft(recipe) => (recipe.0 as usize) < game.recipes.len(),
        Activity::Mine(source) => (source.0 as usize) < game.sources.len(),
        Activity::Pump(good) => is_good(game, good),
        Activity::Generate => true,
        Activity::Boil(good) => is_good(game, good),
        Activity::Research(tech) => (tech.0 as usize) < game.techs.len(),
    }
}

fn is_fuel(game: &Game, fuel: Option<GoodId>) -> bool
    ensures { result ≡ is_fuel game.now fuel }
{
    match fuel {
        Some(good) => is_item(game, good),
        None => true,
    }
}

fn are_groups(game: &Game, groups: &[BeaconGroup]) -> bool
    ensures { result ≡ list_all (is_group game.now) groups.now }
{
    groups.iter().all(|group| is_group(game, group))
}

fn are_fluids(game: &Game, goods: &[GoodId]) -> bool
    requires { IsSound game.now }
    ensures { result ≡ list_all (is_fluid game.now) goods.now }
{
    goods.iter().all(|good| is_fluid(game, *good))
}

// Whether what a set-up does, its machine and its fuel are there.
fn is_machine_there(game: &Game, setup: &Setup) -> bool
    requires { IsSound game.now }
    ensures { result ≡ is_machine_there game.now setup.now }
{
    is_activity(game, setup.activity)
        && (setup.machine.0 as usize) < game.machines.len()
        && is_fuel(game, setup.fuel)
}

// Whether the modules, the beacons and the fluids of a set-up are there.
fn are_parts_there(game: &Game, setup: &Setup) -> bool
    requires { IsSound game.now }
    ensures { result ≡ are_parts_there game.now setup.now }
{
    are_modules(game, setup.modules.as_slice())
        && are_groups(game, setup.beacons.as_slice())
        && are_fluids(game, setup.at.as_slice())
}

/// Whether all that a set-up names is there.
#[tactic(auto, using(crate::proofs::FitLemmas::sound_parts), unfolding(crate::specs::Fitting::are_there))]
pub fn are_there(game: &Game, setup: &Setup) -> bool
    requires { IsSound game.now }
    ensures same { result ≡ are_there game.now setup.now }
    ensures sound { OnTrue result (IsSoundSetup game.now setup.now) }
{
    is_machine_there(game, setup) && are_parts_there(game, setup)
}

/// Whether a set-up can stand in a table.
#[tactic(auto, using(crate::proofs::FitLemmas::fitting_where), unfolding(crate::specs::Fitting::fits))]
pub fn is_fitting(game: &Game, setup: &Setup) -> bool
    requires { IsSound game.now }
    ensures same { result ≡ fits game.now setup.now }
    ensures fitting { OnTrue result (IsFitting game.now setup.now) }
{
    are_there(game, setup) && check_setup(game, setup).is_ok()
}
