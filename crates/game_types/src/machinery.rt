//! Machines.
use crate::Allowed;
use fractions::Ratio;
use plan_base::{GoodId, Items, RecipeId};

/// What a machine does.
#[derive(Drop)]
pub enum MachineKind {
    /// Crafts the recipes of its categories, or one alone.
    Crafter {
        speed: Ratio,
        categories: Items<u32>,
        fixed: Option<RecipeId>,
    },
    /// Mines the sources of its categories.
    Drill {
        speed: Ratio,
        categories: Items<u32>,
        /// Whether it takes a fluid.
        fluid_box: bool,
    },
    /// Pumps a fluid: 60 times its speed, in units a second.
    Pump {
        fluid: GoodId,
        speed: Ratio,
    },
    /// Heats a fluid to a temperature.
    Boiler {
        input: Option<GoodId>,
        output: Option<GoodId>,
        temperature: Ratio,
    },
    /// Makes electricity from a fluid, by its heat or by burning it.
    Generator {
        input: Option<GoodId>,
        effectivity: Ratio,
        /// The units of fluid that it takes a tick, of which there are 60 a second.
        per_tick: Ratio,
        max_temperature: Ratio,
        burns: bool,
        /// The most that it gives, in watts.
        output: Option<Ratio>,
    },
    /// Makes electricity from a fuel; the most that it gives is in watts.
    BurnerGenerator {
        output: Ratio,
    },
    /// Makes electricity from nothing, in watts.
    Solar {
        production: Ratio,
    },
    /// Makes heat.
    Reactor,
    /// Researches technologies with science packs.
    Lab {
        inputs: Items<GoodId>,
        speed: Ratio,
    },
    /// Passes on the effects of its modules, times its effectivity.
    Beacon {
        effectivity: Ratio,
    },
}

/// Where a machine takes its energy from.
#[derive(Drop)]
pub enum Energy {
    Electric,
    /// Burns fuels of its categories.
    Burner {
        categories: Items<u32>,
        effectivity: Ratio,
    },
    Heat,
    /// Takes the energy of a fluid: of one alone, or of any that burns.
    Fluid {
        filter: Option<GoodId>,
        effectivity: Ratio,
    },
    /// Needs none.
    Void,
}

/// A machine.
#[derive(Drop)]
pub struct Machine {
    pub kind: MachineKind,
    pub energy: Energy,
    /// The power that it uses while it works, in watts.
    pub usage: Ratio,
    /// The electric power that it takes beside that at all times, in watts.
    pub drain: Ratio,
    /// Pollution a minute while it works.
    pub emissions: Ratio,
    /// How many modules it holds.
    pub slots: u32,
    /// The effects that it takes.
    pub allowed: Allowed,
    /// The productivity that it has without modules.
    pub base_productivity: Ratio,
    /// The parts that it puts together to a rocket; 0 of all that launch none.
    pub parts: u32,
}
