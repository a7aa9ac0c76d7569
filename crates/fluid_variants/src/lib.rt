//! Fluids by temperature: a fluid that is made at several temperatures becomes a base and a variant for each of them.
#![tactic(auto)]

mod assembly;
mod lists;
mod made;
mod naming;
mod places;
mod records;
mod renumbering;
mod rewriting;
mod splitting;

pub use lists::{cooler_count, temperature_lists};
pub use made::{Made, heat_of, machine_made, product_made};
pub use splitting::split_fluids;
