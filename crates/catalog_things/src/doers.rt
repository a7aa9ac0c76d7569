//! The machines that do an activity.
ghost use Rattle.std.specs.Prelude.{◌≡◌, ◌+◌, ◌≤◌, ◌<◌, ◌^◌, ◌++◌, ◌∷◌, [], IfOk, OnOk, length, if◌then◌else◌};
ghost use Rattle.game_types.specs.Sound.{IsSound, IsSoundActivity};
ghost use Rattle.depend_index.specs.Goods.{first_machine};
ghost use Rattle.graph_store.specs.Members.{node as node_of};
ghost use Rattle.catalog_things.specs.Choices.{bare_row, does_power, does_in, machines_for};

use depend_index::first_machine;
use game_types::{Activity, Game, Setup};
use machine_rates::check_machine;
use plan_base::{EntityId, Items, NoMemory, NodeId};
use power_rows::{PowerFault, check_power};
use research_rows::check_lab;
use std::alloc::Global;

// A row of a machine and what it does, with nothing else.
fn bare_row(alloc: Global, machine: EntityId, activity: Activity) -> Setup
    ensures { result ≡ bare_row machine activity }
{
    Setup {
        activity,
        machine,
        fuel: None,
        modules: Items::from_vec(Vec::new(alloc)),
        beacons: Items::from_vec(Vec::new(alloc)),
        at: Items::from_vec(Vec::new(alloc)),
    }
}

// Whether machines of a kind heat or make electricity so, whatever comes in.
fn does_power(checked: Result<(), PowerFault>) -> bool
    ensures { result ≡ does_power checked }
{
    match checked {
        Ok(()) => true,
        Err(PowerFault::NoOutput) => true,
        Err(PowerFault::Category) => false,
    }
}

/// Whether a machine does an activity: a row of the two isn't refused as K1, K2 or K3.
#[tactic(auto, using(crate::proofs::Passing::bare_sound), unfolding(crate::specs::Choices::does_in))]
pub fn does(alloc: Global, game: &Game, machine: EntityId, activity: Activity) -> bool
    requires sound { IsSound game.now }
    requires machine { machine.0 < length game.now.machines }
    requires activity { IsSoundActivity game.now activity }
    ensures { result ≡ does_in game.now activity machine.0 }
{
    let row = bare_row(alloc, machine, activity);
    match activity {
        Activity::Generate => does_power(check_power(game, &row)),
        Activity::Boil(_) => does_power(check_power(game, &row)),
        Activity::Research(_) => check_lab(game, &row).is_ok(),
        Activity::Craft(_) => check_machine(game, &row).is_ok(),
        Activity::Mine(_) => check_machine(game, &row).is_ok(),
        Activity::Pump(_) => check_machine(game, &row).is_ok(),
    }
}

// Puts a node behind others where it belongs there.
fn put_where(nodes: &mut Vec<NodeId>, belongs: bool, node: u32) -> Result<(), NoMemory>
    ensures { OnOk result (nodes.new.items ≡ nodes.old.items ++ (if belongs then node_of node ∷ [] else [])) }
{
    if belongs {
        nodes.push(NodeId(node))?;
    }
    Ok(())
}

/// The machines that do an activity, as nodes in the order of the game.
///
/// # Errors
///
/// `NoMemory` where memory could not be had.
#[tactic(auto, unfolding(crate::specs::Choices::machines_for))]
pub fn machines_for(alloc: Global, game: &Game, activity: Activity) -> Result<Vec<NodeId>, NoMemory>
    requires sound { IsSound game.now }
    requires activity { IsSoundActivity game.now activity }
    ensures { IfOk result (λ nodes. nodes.items ≡ machines_for game.now activity) }
{
    let first = first_machine(game);
    let count = game.shape().machines;
    let mut nodes = Vec::new(alloc);
    for machine in 0..count {
        let belongs = does(alloc, game, EntityId(machine), activity);
        put_where(&mut nodes, belongs, first + machine)?;
    }
    Ok(nodes)
}
