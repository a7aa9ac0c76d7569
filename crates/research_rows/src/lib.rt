//! Rows of a production table that research: labs, and what one unit of a technology takes of them.
#![tactic(auto)]

mod labs;

pub use labs::{LabFault, LabRates, check_lab, lab_rates};
