//! Prints the lines of a script that make a table for a wish. What went wrong is said on standard error.
#![tactic(auto)]

mod asked;
mod belts;
mod comments;
mod next;
mod rates;
mod running;
mod saying;
mod trees;

pub use asked::table_command;
pub use running::run_matched;
