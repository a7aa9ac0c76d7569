//! The ways to goods, with what they take and give, nearly, and what is paid for what comes from outside. They only decide which rows a
//! table for a wish has, so nothing is claimed of them but that the code is safe and ends.
#![tactic(auto)]

mod best_ways;
mod crafters;
mod machines;
mod network;
mod numbers;
mod prices;
mod recipes;
mod sources;

pub use crafters::Crafters;
pub use machines::{push_fluids, push_generators, push_studies};
pub use network::{Give, Network, Span, Take, Way, cost_at, part};
pub use numbers::{NONE, float_of, rounded};
pub use prices::{free_price, pump_price, source_price};
pub use recipes::{Marks, is_excluded, is_hidden, mark_held, push_recipes};
pub use sources::push_sources;
