//! Laws of ways: prices of goods under which no way gains bound what every plan of every table of these ways costs.
#![tactic(auto)]

mod laws;

pub use laws::prices_bound_every_table;
