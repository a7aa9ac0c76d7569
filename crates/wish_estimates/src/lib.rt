//! What a unit of each reached good takes, as an estimate over the whole game, and the ways to it. It only decides which rows a table
//! for a wish has, so nothing is claimed of it but that it is safe and ends.
#![tactic(auto)]

mod costs;
mod estimates;
mod found;
mod further;
mod listing;
mod reasons;
mod variants;
mod walk;
mod ways;

pub use estimates::Estimates;
pub use found::{Found, Ground, part_of};
pub use further::walk_further;
pub use reasons::why_unmade;
pub use variants::{all_variants, given_variants};
pub use walk::{Walk, walk_on};
pub use wish_ways::{
    Give, NONE, Network, Take, Way, float_of, free_price, pump_price, rounded, source_price,
};
