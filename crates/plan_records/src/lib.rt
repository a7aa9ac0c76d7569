//! The plan of a table as records of comma-separated values.
//!
//! `specs/Records` has the fields of each record, and `specs/Texts` the order of the records.
#![tactic(auto)]

mod fields;
mod records;
mod setups;
mod texts;

pub use texts::{Solved, plan_text, record_text};
