//! Rows of fractions, kept as whole numbers over one denominator wherever that fits.
#![tactic(auto)]

mod bottoms;
mod dividing;
mod divisors;
mod long;
mod lowering;
mod ratios;
mod reducing;
mod row;
mod sharing;
mod tops;
mod wide;

pub use row::NumberRow;
