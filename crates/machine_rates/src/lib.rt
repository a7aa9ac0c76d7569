//! Rates of one set-up: whether the machine does what it is set to do, the effects on it, and what one craft a second takes.
//!
//! Each number is formed by the steps that the definitions tell, from left to right. Where one of them is past the limits of
//! fractions the answer is `Wide` with the number of the first such step.
#![tactic(auto)]

mod checks;
mod effects;
mod rates;

pub use checks::check_machine;
pub use effects::{effects_of, plain_effects};
pub use game_types::{MachineFault, Rates};
pub use rates::{fuel_emissions, fuel_of, power_of, rates_of, setup_fuel, yield_of};
