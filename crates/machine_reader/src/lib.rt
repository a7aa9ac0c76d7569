//! The sections of a dump, and its machines with their sources of energy, by the fields of their prototypes, with names in
//! place of ids.
#![tactic(auto)]

mod crafters;
mod energy;
mod machines;
mod module_rules;
mod names;
mod power;
mod raw;
mod sections;

pub use machines::read_machine;
pub use names::read_name;
pub use raw::{RawEnergy, RawKind, RawMachine};
pub use sections::{Class, Section};
