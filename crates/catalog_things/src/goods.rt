//! Items, fluids, electricity and heat.
ghost use Rattle.std.specs.Prelude.{◌≡◌, ◌<◌, IfOk, OnOk};
ghost use Rattle.game_types.specs.Sound.{IsSound};
ghost use Rattle.depend_index.specs.Goods.{good_count, putters, variants};
ghost use Rattle.depend_index.specs.Indexed.{IsIndex};
ghost use Rattle.serde_json.specs.View.{members_view};
ghost use Rattle.catalog_things.specs.Goods.{good_node_where, machine_node_where, makes_heat, reactors, special_makers, with_bonus, with_fluid, with_fluid_fuel, with_fuel, with_fuel_members, with_heat, with_hundredths, with_item, with_module, with_module_members, with_special};

use crate::amounts::put_unless_zero;
use crate::doers::machines_for;
use crate::nodes::{good_node, thing_node};
use crate::products::put_products;
use crate::techs::recipe_nodes;
use catalog_members::{Members, put_amount, put_id_where, put_ids, put_object};
use depend_index::{Index, first_machine};
use fractions::{Ratio, is_zero};
use game_types::{Activity, Bonus, Fluid, Fuel, Game, Item, Machine, MachineKind, Module};
use graph_store::{Test, list_of, those};
use plan_base::{EntityId, GoodId, Kind, NoMemory, NodeId};
use serde_json::Map;
use std::alloc::Global;

// Puts hundredths as a fraction, unless they are none.
#[tactic(auto, unfolding(crate::specs::Goods::with_hundredths))]
fn put_hundredths(
    members: &mut Members,
    alloc: Global,
    key: &str,
    hundredths: i64,
) -> Result<(), NoMemory>
    ensures { OnOk result (members_view members.new.entries ≡ with_hundredths key.now hundredths (members_view members.old.entries)) }
{
    put_unless_zero(members, alloc, key, &Ratio::part(hundredths, 100))
}

#[tactic(auto, unfolding(crate::specs::Goods::with_bonus))]
fn put_bonus(members: &mut Members, alloc: Global, bonus: &Bonus) -> Result<(), NoMemory>
    ensures { OnOk result (members_view members.new.entries ≡ with_bonus bonus.now (members_view members.old.entries)) }
{
    put_hundredths(members, alloc, "speed", bonus.speed)?;
    put_hundredths(members, alloc, "productivity", bonus.productivity)?;
    put_hundredths(members, alloc, "consumption", bonus.consumption)?;
    put_hundredths(members, alloc, "pollution", bonus.pollution)
}

#[tactic(auto, unfolding(crate::specs::Goods::with_module_members))]
fn put_module_members(
    members: &mut Members,
    alloc: Global,
    game: &Game,
    installed: &Module,
) -> Result<(), NoMemory>
    requires { IsSound game.now }
    ensures { OnOk result (members_view members.new.entries ≡ with_module_members game.now installed.now (members_view members.old.entries)) }
{
    put_bonus(members, alloc, &installed.bonus)?;
    let only = recipe_nodes(alloc, game, installed.limitation.as_slice())?;
    put_ids(members, alloc, "only", game, only.as_slice())?;
    let not = recipe_nodes(alloc, game, installed.blacklist.as_slice())?;
    put_ids(members, alloc, "not", game, not.as_slice())
}

// Puts what an item is as a module.
#[tactic(auto, unfolding(crate::specs::Goods::with_module))]
fn put_module(
    members: &mut Members,
    alloc: Global,
    game: &Game,
    installed: &Option<Module>,
) -> Result<(), NoMemory>
    requires { IsSound game.now }
    ensures { OnOk result (members_view members.new.entries ≡ with_module game.now installed.now (members_view members.old.entries)) }
{
    match installed {
        Some(installed) => {
            let mut inner = Map::new(alloc);
            put_module_members(&mut inner, alloc, game, installed)?;
            put_object(members, alloc, "module", inner)
        }
        None => Ok(()),
    }
}

#[tactic(auto, unfolding(crate::specs::Goods::with_fuel_members))]
fn put_fuel_members(members: &mut Members, alloc: Global, fuel: &Fuel) -> Result<(), NoMemory>
    ensures { OnOk result (members_view members.new.entries ≡ with_fuel_members fuel.now (members_view members.old.entries)) }
{
    put_amount(members, alloc, "emissions", &fuel.emissions)?;
    put_amount(members, alloc, "value", &fuel.value)
}

// Puts what an item is as a fuel.
#[tactic(auto, unfolding(crate::specs::Goods::with_fuel))]
fn put_fuel(members: &mut Members, alloc: Global, fuel: &Option<Fuel>) -> Result<(), NoMemory>
    ensures { OnOk result (members_view members.new.entries ≡ with_fuel fuel.now (members_view members.old.entries)) }
{
    match fuel {
        Some(fuel) => {
            let mut inner = Map::new(alloc);
            put_fuel_members(&mut inner, alloc, fuel)?;
            put_object(members, alloc, "fuel", inner)
        }
        None => Ok(()),
    }
}

fn machine_node_where(game: &Game, machine: Option<EntityId>) -> Option<NodeId>
    requires { IsSound game.now }
    ensures { result ≡ machine_node_where game.now machine }
{
    match machine {
        Some(machine) => Some(thing_node(game, Kind::Machine, machine.0)),
        None => None,
    }
}

/// The node of a good, where there is one.
pub fn good_node_where(game: &Game, good: Option<GoodId>) -> Option<NodeId>
    requires { IsSound game.now }
    ensures { result ≡ good_node_where game.now good }
{
    match good {
        Some(good) => Some(good_node(game, good)),
        None => None,
    }
}

/// Puts the members of an item.
#[tactic(auto, unfolding(crate::specs::Goods::with_item))]
pub fn put_item(
    members: &mut Members,
    alloc: Global,
    game: &Game,
    item: &Item,
) -> Result<(), NoMemory>
    requires { IsSound game.now }
    ensures { OnOk result (members_view members.new.entries ≡ with_item game.now item.now (members_view members.old.entries)) }
{
    let placed = machine_node_where(game, item.place);
    put_id_where(members, alloc, "places", game, placed)?;
    let burnt = good_node_where(game, item.burnt);
    put_id_where(members, alloc, "burnt", game, burnt)?;
    put_fuel(members, alloc, &item.fuel)?;
    put_module(members, alloc, game, &item.module)?;
    put_products(members, alloc, "launch", game, item.launch.as_slice())
}

// Puts the energy of a fluid that burns.
#[tactic(auto, unfolding(crate::specs::Goods::with_fluid_fuel))]
fn put_fluid_fuel(members: &mut Members, alloc: Global, value: &Ratio) -> Result<(), NoMemory>
    ensures { OnOk result (members_view members.new.entries ≡ with_fluid_fuel value.now (members_view members.old.entries)) }
{
    if is_zero(value) {
        return Ok(());
    }
    let mut inner = Map::new(alloc);
    put_amount(&mut inner, alloc, "value", value)?;
    put_object(members, alloc, "fuel", inner)
}

#[tactic(auto, unfolding(crate::specs::Goods::with_heat))]
fn put_heat(members: &mut Members, alloc: Global, fluid: &Fluid) -> Result<(), NoMemory>
    ensures { OnOk result (members_view members.new.entries ≡ with_heat fluid.now (members_view members.old.entries)) }
{
    put_amount(members, alloc, "temperature", &fluid.at)?;
    put_amount(members, alloc, "heat", &fluid.heat_capacity)?;
    put_fluid_fuel(members, alloc, &fluid.fuel_value)
}

// The variants of a good.
fn variants_of<'a>(game: &Game, index: &'a Index, good: GoodId) -> &'a [NodeId]
    requires index { IsIndex game.now index.now }
    requires good { good.0 < good_count game.now }
    ensures { result.now ≡ variants game.now good.0 }
{
    list_of(index.variants.as_slice(), good.0)
}

// The machines that put a good out.
fn putters_of<'a>(game: &Game, index: &'a Index, good: GoodId) -> &'a [NodeId]
    requires index { IsIndex game.now index.now }
    requires good { good.0 < good_count game.now }
    ensures { result.now ≡ putters game.now good.0 }
{
    list_of(index.putters.as_slice(), good.0)
}

/// Puts the members of the fluid that a good is.
#[tactic(auto, unfolding(crate::specs::Goods::with_fluid))]
pub fn put_fluid(
    members: &mut Members,
    alloc: Global,
    game: &Game,
    index: &Index,
    good: GoodId,
    fluid: &Fluid,
) -> Result<(), NoMemory>
    requires sound { IsSound game.now }
    requires index { IsIndex game.now index.now }
    requires good { good.0 < good_count game.now }
    ensures { OnOk result (members_view members.new.entries ≡ with_fluid game.now good fluid.now (members_view members.old.entries)) }
{
    let base = good_node_where(game, fluid.of);
    put_id_where(members, alloc, "base", game, base)?;
    put_heat(members, alloc, fluid)?;
    put_ids(
        members,
        alloc,
        "variants",
        game,
        variants_of(game, index, good),
    )?;
    put_ids(members, alloc, "by", game, putters_of(game, index, good))
}

fn makes_heat(kind: &MachineKind) -> bool
    ensures { result ≡ makes_heat kind.now }
{
    match kind {
        MachineKind::Reactor => true,
        _ => false,
    }
}

// The machines that make heat.
#[derive(Drop)]
struct MakingHeat {}

impl Test<Machine> for MakingHeat {
    ghost passes = { λ test machine. makes_heat machine.kind };

    fn passes(&self, machine: &Machine) -> bool {
        makes_heat(&machine.kind)
    }
}

#[tactic(auto, unfolding(crate::specs::Goods::reactors))]
fn reactors(alloc: Global, game: &Game) -> Result<Vec<NodeId>, NoMemory>
    requires { IsSound game.now }
    ensures { IfOk result (λ nodes. nodes.items ≡ reactors game.now) }
{
    let first = first_machine(game);
    let test = MakingHeat {};
    those(alloc, first, game.machines.as_slice(), &test)
}

// The machines that make what a special node is.
fn special_makers(alloc: Global, game: &Game, number: u32) -> Result<Vec<NodeId>, NoMemory>
    requires { IsSound game.now }
    ensures { IfOk result (λ nodes. nodes.items ≡ special_makers game.now number) }
{
    if number == 1 {
        machines_for(alloc, game, Activity::Generate)
    } else if number == 2 {
        reactors(alloc, game)
    } else {
        Ok(Vec::new(alloc))
    }
}

/// Puts the members of a special node: of electricity, the machines that make it, and of heat too.
#[tactic(auto, unfolding(crate::specs::Goods::with_special))]
pub fn put_special(
    members: &mut Members,
    alloc: Global,
    game: &Game,
    number: u32,
) -> Result<(), NoMemory>
    requires { IsSound game.now }
    ensures { OnOk result (members_view members.new.entries ≡ with_special game.now number (members_view members.old.entries)) }
{
    let by = special_makers(alloc, game, number)?;
    put_ids(members, alloc, "by", game, by.as_slice())
}
