//! The fluids that burn, and the labs.
ghost use Rattle.std.specs.Prelude.{◌&&◌, ◌≡◌, IfOk, is_none};
ghost use Rattle.fractions.specs.Signs.{is_positive};
ghost use Rattle.game_types.specs.Sound.{IsSound};
ghost use Rattle.depend_index.specs.Goods.{first_machine};
ghost use Rattle.depend_index.specs.Kinds.{is_lab};
ghost use Rattle.depend_index.specs.Machines.{burning_fluids};
ghost use Rattle.graph_store.specs.Members.{those};

use crate::places::{first_fluid, first_machine};
use fractions::is_positive;
use game_types::{Fluid, Game, Machine, MachineKind};
use graph_store::{Test, those};
use plan_base::{NoMemory, NodeId};
use std::alloc::Global;

// Whether a fluid burns, and is no variant.
#[derive(Drop)]
struct Burning;

impl Test<Fluid> for Burning {
    ghost passes = { λ _ fluid. is_none fluid.of && is_positive fluid.fuel_value };

    fn passes(&self, fluid: &Fluid) -> bool {
        fluid.of.is_none() && is_positive(&fluid.fuel_value)
    }
}

/// The fluids that burn.
#[tactic(auto, unfolding(crate::specs::Machines::burning_fluids))]
pub fn burning_fluids(alloc: Global, game: &Game) -> Result<Vec<NodeId>, NoMemory>
    requires { IsSound game.now }
    ensures { IfOk result (λ nodes. nodes.items ≡ burning_fluids game.now) }
{
    those(alloc, first_fluid(game), game.fluids.as_slice(), &Burning)
}

// Whether a machine is a lab.
#[derive(Drop)]
struct AreLabs;

fn is_lab(kind: &MachineKind) -> bool
    ensures { result ≡ is_lab kind.now }
{
    match kind {
        MachineKind::Lab { .. } => true,
        _ => false,
    }
}

impl Test<Machine> for AreLabs {
    ghost passes = { λ _ machine. is_lab machine.kind };

    fn passes(&self, machine: &Machine) -> bool {
        is_lab(&machine.kind)
    }
}

/// All labs.
pub fn all_labs(alloc: Global, game: &Game) -> Result<Vec<NodeId>, NoMemory>
    requires { IsSound game.now }
    ensures { IfOk result (λ nodes. nodes.items ≡ those (λ machine. is_lab machine.kind) (first_machine game.now) game.now.machines) }
{
    those(
        alloc,
        first_machine(game),
        game.machines.as_slice(),
        &AreLabs,
    )
}
