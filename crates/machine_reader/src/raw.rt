//! Machines as a dump has them: what they refer to stands by name.
use crate::sections::Section;
use fractions::Ratio;
use game_types::Allowed;
use plan_base::{Items, Text};

/// Where a machine takes its energy from. A filter is a fluid.
#[derive(Drop)]
pub enum RawEnergy {
    Electric,
    Burner {
        categories: Items<u32>,
        effectivity: Ratio,
    },
    Heat,
    Fluid {
        filter: Option<Text>,
        effectivity: Ratio,
    },
    Void,
}

/// What a machine does. Inputs and outputs are fluids, a fixed recipe is a recipe, the inputs of a lab are items.
#[derive(Drop)]
pub enum RawKind {
    Crafter {
        speed: Ratio,
        categories: Items<u32>,
        fixed: Option<Text>,
    },
    Drill {
        speed: Ratio,
        categories: Items<u32>,
        fluid_box: bool,
    },
    Pump {
        fluid: Text,
        speed: Ratio,
    },
    Boiler {
        input: Option<Text>,
        output: Option<Text>,
        /// Whether the input is the output, only hotter.
        is_one_fluid: bool,
        temperature: Ratio,
    },
    Generator {
        input: Option<Text>,
        effectivity: Ratio,
        per_tick: Ratio,
        max_temperature: Ratio,
        burns: bool,
        output: Option<Ratio>,
    },
    BurnerGenerator {
        output: Ratio,
    },
    Solar {
        production: Ratio,
    },
    Reactor,
    Lab {
        inputs: Items<Text>,
        speed: Ratio,
    },
    Beacon {
        effectivity: Ratio,
    },
}

/// A machine.
#[derive(Drop)]
pub struct RawMachine {
    pub section: Section,
    pub kind: RawKind,
    pub energy: RawEnergy,
    pub usage: Ratio,
    pub drain: Ratio,
    pub emissions: Ratio,
    pub slots: u32,
    pub allowed: Allowed,
    pub base_productivity: Ratio,
    /// The parts that it puts together to a rocket.
    pub parts: u32,
}
