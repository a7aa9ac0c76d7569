//! A table for a wish: what is wanted of some goods, with rows that make them, the nearest goods first and each by its cheapest way.
//! What is further away is imported at an estimate. It is solved before it is answered.
#![tactic(auto)]

mod building;
mod faults;
mod meeting;
mod orders;
mod outside;
mod power;
mod pricing;
mod trying;
mod walks;

pub use meeting::{more_rows, wish_table};
pub use wish_estimates::given_variants;
pub use wish_setups::{Cheapest, Met, Reason, Unmade, Wish, WishBeacon, WishFault};
