//! What machines need, and what gives electricity and heat.
ghost use Rattle.std.specs.Prelude.{◌≡◌, ◌<◌, ◌∷◌, [], IfOk, IfSome, length};
ghost use Rattle.std.specs.List.{cons_option};
ghost use Rattle.fractions.specs.Fraction.{Fraction};
ghost use Rattle.game_types.specs.declared.machinery.Energy.TheVariants.{Burner};
ghost use Rattle.game_types.specs.Sound.{IsFluid, IsSound, IsSoundEnergy, IsSoundKind, IsSoundMachine};
ghost use Rattle.graph_store.specs.Members.{those};
ghost use Rattle.depend_rows.specs.Members.{any_of, row_with};
ghost use Rattle.depend_index.specs.Indexed.{IsIndex};
ghost use Rattle.graph_store.specs.Lists.{numbers_at, HoldInOrder};
ghost use Rattle.depend_rows.specs.Machines.{electricity_row, energy_groups, fluid_or_burning, fuels_taken, heat_row, input_groups, is_fuel_in, machine_row, makes_electricity, makes_heat};

use crate::members::{all_of_good, all_of_node, any_of, put_found, row_with};
use depend_index::{Index, first_machine};
use game_types::{Energy, Game, Machine, MachineKind};
use graph_store::{Group, Row, Test, distinct, in_order, list_at, push_list, those};
use plan_base::{GoodId, NoMemory, NodeId};
use std::alloc::Global;

// The fuels of these categories, from the lists of all.
fn fuels_listed(
    alloc: Global,
    fuels: &[Vec<NodeId>],
    categories: &[u32],
) -> Result<Vec<NodeId>, NoMemory>
    ensures { IfOk result (λ nodes. HoldInOrder (numbers_at fuels.now categories.now) nodes.items) }
{
    let mut numbers = Vec::new(alloc);
    for category in categories {
        push_list(&mut numbers, fuels, *category)?;
    }
    let nodes = in_order(alloc, numbers)?;
    Ok(nodes)
}

// The fuels that a burner of some categories takes.
fn fuels_taken(
    alloc: Global,
    game: &Game,
    index: &Index,
    categories: &[u32],
) -> Result<Vec<NodeId>, NoMemory>
    requires sound { IsSound game.now }
    requires index { IsIndex game.now index.now }
    ensures { IfOk result (λ nodes. nodes.items ≡ those (λ item. is_fuel_in categories.now item.fuel) 3 game.now.items) }
{
    let _game = game;
    let different = distinct(Vec::from_slice(alloc, categories)?);
    let all = different.as_slice();
    let fuels = index.fuels.as_slice();
    let nodes = fuels_listed(alloc, fuels, all)?;
    Ok(nodes)
}

// All of one fluid, or any that burns.
#[tactic(auto, unfolding(crate::specs::Machines::fluid_or_burning))]
fn fluid_or_burning(
    alloc: Global,
    game: &Game,
    index: &Index,
    fluid: Option<GoodId>,
) -> Result<Group, NoMemory>
    requires sound { IsSound game.now }
    requires index { IsIndex game.now index.now }
    requires fluid { IfSome fluid (λ f. IsFluid game.now f.0) }
    ensures { IfOk result (λ group. group ≡ fluid_or_burning game.now fluid) }
{
    let _game = game;
    match fluid {
        Some(fluid) => all_of_good(alloc, fluid),
        None => {
            let burning = Vec::from_slice(alloc, index.burning.as_slice())?;
            Ok(any_of(burning))
        }
    }
}

// The group of a burner.
#[tactic(auto, unfolding(crate::specs::Machines::fuels_taken))]
fn burner_group(
    alloc: Global,
    game: &Game,
    index: &Index,
    categories: &[u32],
) -> Result<Group, NoMemory>
    requires sound { IsSound game.now }
    requires index { IsIndex game.now index.now }
    ensures { IfOk result (λ group. (effectivity : Fraction) → group ≡ any_of (fuels_taken game.now (Burner categories.now effectivity))) }
{
    let nodes = fuels_taken(alloc, game, index, categories)?;
    Ok(any_of(nodes))
}

// The group of what a machine takes its energy from, where it takes any.
#[tactic(auto, unfolding(crate::specs::Machines::energy_groups))]
fn energy_group(
    alloc: Global,
    game: &Game,
    index: &Index,
    energy: &Energy,
) -> Result<Option<Group>, NoMemory>
    requires sound { IsSound game.now }
    requires index { IsIndex game.now index.now }
    requires energy { IsSoundEnergy game.now energy.now }
    ensures { IfOk result (λ group. cons_option group [] ≡ energy_groups game.now energy.now) }
{
    match energy {
        Energy::Electric => Ok(Some(all_of_node(alloc, NodeId::electricity())?)),
        Energy::Burner { categories, .. } => {
            Ok(Some(burner_group(alloc, game, index, categories.as_slice())?))
        }
        Energy::Heat => Ok(Some(all_of_node(alloc, NodeId::heat())?)),
        Energy::Fluid { filter, .. } => Ok(Some(fluid_or_burning(alloc, game, index, *filter)?)),
        Energy::Void => Ok(None),
    }
}

// The group of what a boiler heats, or of what a generator runs on.
#[tactic(auto, unfolding(crate::specs::Machines::input_groups))]
fn input_group(
    alloc: Global,
    game: &Game,
    index: &Index,
    kind: &MachineKind,
) -> Result<Option<Group>, NoMemory>
    requires sound { IsSound game.now }
    requires index { IsIndex game.now index.now }
    requires kind { IsSoundKind game.now kind.now }
    ensures { IfOk result (λ group. cons_option group [] ≡ input_groups game.now kind.now) }
{
    match kind {
        MachineKind::Boiler {
            input: Some(fluid),
            ..
        } => Ok(Some(all_of_good(alloc, *fluid)?)),
        MachineKind::Generator { input, .. } => {
            Ok(Some(fluid_or_burning(alloc, game, index, *input)?))
        }
        _ => Ok(None),
    }
}

/// The row of a machine.
#[tactic(auto, unfolding(crate::specs::Machines::machine_row))]
pub fn machine_row(
    alloc: Global,
    game: &Game,
    index: &Index,
    number: u32,
    machine: &Machine,
) -> Result<Row, NoMemory>
    requires sound { IsSound game.now }
    requires index { IsIndex game.now index.now }
    requires number { number < length game.now.machines }
    requires machine { IsSoundMachine game.now machine.now }
    ensures { IfOk result (λ row. row ≡ machine_row game.now number machine.now) }
{
    let makers = any_of(list_at(alloc, index.placers.as_slice(), number)?);
    let mut groups = Vec::new(alloc);
    groups.push(makers)?;
    put_found(
        &mut groups,
        energy_group(alloc, game, index, &machine.energy)?,
    )?;
    put_found(&mut groups, input_group(alloc, game, index, &machine.kind)?)?;
    Ok(row_with(groups))
}

// ---- electricity and heat

fn makes_electricity(kind: &MachineKind) -> bool
    ensures { result ≡ makes_electricity kind.now }
{
    match kind {
        MachineKind::Generator { .. } => true,
        MachineKind::BurnerGenerator { .. } => true,
        MachineKind::Solar { .. } => true,
        _ => false,
    }
}

fn makes_heat(kind: &MachineKind) -> bool
    ensures { result ≡ makes_heat kind.now }
{
    match kind {
        MachineKind::Reactor => true,
        _ => false,
    }
}

#[derive(Drop)]
struct ElectricityMakers;

impl Test<Machine> for ElectricityMakers {
    ghost passes = { λ _ machine. makes_electricity machine.kind };

    fn passes(&self, machine: &Machine) -> bool {
        makes_electricity(&machine.kind)
    }
}

#[derive(Drop)]
struct HeatMakers;

impl Test<Machine> for HeatMakers {
    ghost passes = { λ _ machine. makes_heat machine.kind };

    fn passes(&self, machine: &Machine) -> bool {
        makes_heat(&machine.kind)
    }
}

// A row of one group.
fn any_row(alloc: Global, members: Vec<NodeId>) -> Result<Row, NoMemory>
    ensures { IfOk result (λ row. row ≡ row_with (any_of members.items ∷ [])) }
{
    let mut groups = Vec::new(alloc);
    groups.push(any_of(members))?;
    Ok(row_with(groups))
}

/// The row of electricity.
#[tactic(auto, unfolding(crate::specs::Machines::electricity_row))]
pub fn electricity_row(alloc: Global, game: &Game) -> Result<Row, NoMemory>
    requires { IsSound game.now }
    ensures { IfOk result (λ row. row ≡ electricity_row game.now) }
{
    let makers = those(
        alloc,
        first_machine(game),
        game.machines.as_slice(),
        &ElectricityMakers,
    )?;
    any_row(alloc, makers)
}

/// The row of heat.
#[tactic(auto, unfolding(crate::specs::Machines::heat_row))]
pub fn heat_row(alloc: Global, game: &Game) -> Result<Row, NoMemory>
    requires { IsSound game.now }
    ensures { IfOk result (λ row. row ≡ heat_row game.now) }
{
    let makers = those(
        alloc,
        first_machine(game),
        game.machines.as_slice(),
        &HeatMakers,
    )?;
    any_row(alloc, makers)
}
