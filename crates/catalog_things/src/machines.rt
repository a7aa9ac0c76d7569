//! Machines.
ghost use Rattle.std.specs.Prelude.{◌≡◌, ◌<◌, ◌++◌, IfOk, OnOk, length};
ghost use Rattle.game_types.specs.Sound.{IsSound};
ghost use Rattle.depend_index.specs.Indexed.{IsIndex};
ghost use Rattle.depend_index.specs.Machines.{placers};
ghost use Rattle.serde_json.specs.View.{members_view};
ghost use Rattle.catalog_things.specs.Machines.{effect_words, good_nodes, recipe_node_where, with_effects, with_energy, with_flows, with_machine, with_machine_kind, with_machine_members, with_output, with_use, with_work, word_where};

use crate::amounts::put_unless_zero;
use crate::goods::good_node_where;
use crate::machine_kinds::{
    distribution_of, efficiency_of, energy_name, fixed_of, input_of, inputs_of, kind_name,
    output_of, power_of, speed_of, temperature_of,
};
use crate::nodes::{good_node, thing_node};
use crate::offers::{fuels_of, modules_of};
use catalog_members::{
    Members, put_amount, put_amount_where, put_count, put_id_where, put_ids, put_text, put_words,
};
use depend_index::Index;
use game_types::{Allowed, Energy, Game, Machine, MachineKind};
use graph_store::list_of;
use plan_base::{EntityId, GoodId, Kind, NoMemory, NodeId, RecipeId, Text};
use std::alloc::Global;

#[tactic(auto, unfolding(crate::specs::Machines::good_nodes))]
fn good_nodes(alloc: Global, game: &Game, goods: &[GoodId]) -> Result<Vec<NodeId>, NoMemory>
    requires { IsSound game.now }
    ensures { IfOk result (λ nodes. nodes.items ≡ good_nodes game.now goods.now) }
{
    Ok(
        goods
            .iter()
            .map(|good| good_node(game, *good))
            .collect(alloc)?,
    )
}

fn push_word(words: &mut Vec<Text>, alloc: Global, is_so: bool, word: &str) -> Result<(), NoMemory>
    ensures { OnOk result (words.new.items ≡ words.old.items ++ word_where is_so word.now) }
{
    if is_so {
        let text = Text::copy(alloc, word)?;
        words.push(text)?;
    }
    Ok(())
}

#[tactic(auto, unfolding(crate::specs::Machines::effect_words))]
fn effect_words(alloc: Global, allowed: &Allowed) -> Result<Vec<Text>, NoMemory>
    ensures { IfOk result (λ words. words.items ≡ effect_words allowed.now) }
{
    let mut words = Vec::new(alloc);
    push_word(&mut words, alloc, allowed.speed, "speed")?;
    push_word(&mut words, alloc, allowed.productivity, "productivity")?;
    push_word(&mut words, alloc, allowed.consumption, "consumption")?;
    push_word(&mut words, alloc, allowed.pollution, "pollution")?;
    Ok(words)
}

#[tactic(auto, unfolding(crate::specs::Machines::with_effects))]
fn put_effects(
    members: &mut Members,
    alloc: Global,
    game: &Game,
    machine: &Machine,
) -> Result<(), NoMemory>
    requires { IsSound game.now }
    ensures { OnOk result (members_view members.new.entries ≡ with_effects game.now machine.now (members_view members.old.entries)) }
{
    put_count(members, alloc, "slots", machine.slots)?;
    let effects = effect_words(alloc, &machine.allowed)?;
    put_words(members, alloc, "effects", effects.as_slice())?;
    let modules = modules_of(alloc, game, machine.allowed)?;
    put_ids(members, alloc, "modules", game, modules.as_slice())?;
    put_unless_zero(members, alloc, "productivity", &machine.base_productivity)
}

#[tactic(auto, unfolding(crate::specs::Machines::with_energy))]
fn put_energy(
    members: &mut Members,
    alloc: Global,
    game: &Game,
    energy: &Energy,
) -> Result<(), NoMemory>
    requires { IsSound game.now }
    ensures { OnOk result (members_view members.new.entries ≡ with_energy game.now energy.now (members_view members.old.entries)) }
{
    put_text(members, alloc, "energy", energy_name(energy))?;
    put_amount_where(members, alloc, "efficiency", &efficiency_of(energy))?;
    let fuels = fuels_of(alloc, game, energy)?;
    put_ids(members, alloc, "fuels", game, fuels.as_slice())
}

#[tactic(auto, unfolding(crate::specs::Machines::with_use))]
fn put_use(members: &mut Members, alloc: Global, machine: &Machine) -> Result<(), NoMemory>
    ensures { OnOk result (members_view members.new.entries ≡ with_use machine.now (members_view members.old.entries)) }
{
    put_amount(members, alloc, "usage", &machine.usage)?;
    put_amount(members, alloc, "drain", &machine.drain)?;
    put_amount(members, alloc, "emissions", &machine.emissions)
}

// Puts what a machine does, and how fast.
#[tactic(auto, unfolding(crate::specs::Machines::with_work))]
fn put_work(members: &mut Members, alloc: Global, kind: &MachineKind) -> Result<(), NoMemory>
    ensures { OnOk result (members_view members.new.entries ≡ with_work kind.now (members_view members.old.entries)) }
{
    put_text(members, alloc, "kind", kind_name(kind))?;
    put_amount_where(members, alloc, "speed", &speed_of(kind))
}

// Puts the most that a machine gives, how hot, and what it passes on.
#[tactic(auto, unfolding(crate::specs::Machines::with_output))]
fn put_output(members: &mut Members, alloc: Global, kind: &MachineKind) -> Result<(), NoMemory>
    ensures { OnOk result (members_view members.new.entries ≡ with_output kind.now (members_view members.old.entries)) }
{
    put_amount_where(members, alloc, "temperature", &temperature_of(kind))?;
    put_amount_where(members, alloc, "power", &power_of(kind))?;
    put_amount_where(members, alloc, "distribution", &distribution_of(kind))
}

#[tactic(auto, unfolding(crate::specs::Machines::with_machine_kind))]
fn put_kind(members: &mut Members, alloc: Global, kind: &MachineKind) -> Result<(), NoMemory>
    ensures { OnOk result (members_view members.new.entries ≡ with_machine_kind kind.now (members_view members.old.entries)) }
{
    put_work(members, alloc, kind)?;
    put_output(members, alloc, kind)
}

fn recipe_node_where(game: &Game, recipe: Option<RecipeId>) -> Option<NodeId>
    requires { IsSound game.now }
    ensures { result ≡ recipe_node_where game.now recipe }
{
    match recipe {
        Some(recipe) => Some(thing_node(game, Kind::Recipe, recipe.0)),
        None => None,
    }
}

#[tactic(auto, unfolding(crate::specs::Machines::with_flows))]
fn put_flows(
    members: &mut Members,
    alloc: Global,
    game: &Game,
    kind: &MachineKind,
) -> Result<(), NoMemory>
    requires { IsSound game.now }
    ensures { OnOk result (members_view members.new.entries ≡ with_flows game.now kind.now (members_view members.old.entries)) }
{
    let fixed = recipe_node_where(game, fixed_of(kind));
    put_id_where(members, alloc, "fixed", game, fixed)?;
    let takes = good_node_where(game, input_of(kind));
    put_id_where(members, alloc, "takes", game, takes)?;
    let gives = good_node_where(game, output_of(kind));
    put_id_where(members, alloc, "gives", game, gives)?;
    let inputs = good_nodes(alloc, game, inputs_of(kind))?;
    put_ids(members, alloc, "inputs", game, inputs.as_slice())
}

// Puts what a machine is.
#[tactic(auto, unfolding(crate::specs::Machines::with_machine_members))]
fn put_members(
    members: &mut Members,
    alloc: Global,
    game: &Game,
    machine: &Machine,
) -> Result<(), NoMemory>
    requires { IsSound game.now }
    ensures { OnOk result (members_view members.new.entries ≡ with_machine_members game.now machine.now (members_view members.old.entries)) }
{
    put_kind(members, alloc, &machine.kind)?;
    put_flows(members, alloc, game, &machine.kind)?;
    put_energy(members, alloc, game, &machine.energy)?;
    put_use(members, alloc, machine)?;
    put_effects(members, alloc, game, machine)
}

// The items that are placed as a machine.
fn placers_of<'a>(game: &Game, index: &'a Index, number: EntityId) -> &'a [NodeId]
    requires index { IsIndex game.now index.now }
    requires number { number.0 < length game.now.machines }
    ensures { result.now ≡ placers game.now number.0 }
{
    list_of(index.placers.as_slice(), number.0)
}

/// Puts the members of a machine.
#[tactic(auto, unfolding(crate::specs::Machines::with_machine))]
pub fn put_machine(
    members: &mut Members,
    alloc: Global,
    game: &Game,
    index: &Index,
    number: EntityId,
) -> Result<(), NoMemory>
    requires sound { IsSound game.now }
    requires index { IsIndex game.now index.now }
    requires number { number.0 < length game.now.machines }
    ensures { OnOk result (members_view members.new.entries ≡ with_machine game.now number (members_view members.old.entries)) }
{
    let machine = game.machine(number);
    put_members(members, alloc, game, machine)?;
    put_ids(
        members,
        alloc,
        "items",
        game,
        placers_of(game, index, number),
    )
}
