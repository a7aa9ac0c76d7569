//! Production tables as a planner keeps them: changes by the words of a script, what undoes them, and what is answered about
//! them. What their words name, and how a refusal is told, is in `table_rows`.
#![tactic(auto)]

mod changes;
mod faults;
mod figures;
mod questions;
mod rates;
mod splices;
mod steps;
mod undos;

pub use changes::change_tables;
pub use questions::{linear_named, solve_reply};
pub use rates::rate_reply;
pub use splices::Splice;
pub use table_rows::{TableRefusal, code_of, detail_of, good_named, refused, setup_named};
pub use undos::{Numbers, TablePart, TableUndo, exchange_tables};
