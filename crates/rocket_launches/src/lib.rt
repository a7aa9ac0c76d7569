//! The launches of rockets, as recipes of their silos behind the recipes of a dump.
#![tactic(auto)]

mod adding;
mod cargo_middles;
mod clashes;
mod flight_names;
mod launches;
mod middles;
mod silos;

pub use adding::add_launches;
pub use silos::{Flight, Silo};
