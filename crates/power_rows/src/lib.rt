//! Rows of a production table that heat a fluid or make electricity, and what electric power rows draw.
//!
//! Each number is formed by the steps that the definitions tell, from left to right. Where one of them is past the limits of
//! fractions the answer is `Wide` with the number of the first such step.
#![tactic(auto)]

mod checks;
mod generators;
mod inputs;
mod rates;

pub use checks::{PowerFault, check_power};
pub use inputs::{Input, input_of};
pub use rates::{PowerRates, draw_of, power_rates};
