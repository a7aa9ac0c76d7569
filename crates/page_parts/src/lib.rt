//! What pages and graphs are put together from: pieces of text, names, decimals and flows, and the places of cards.
//!
//! Names come from dumps and scripts of others. Each goes through `escaped` before it stands on a page or in a graph.
#![tactic(auto)]

mod amounts;
mod decimals;
mod escape;
mod flows;
mod layers;
pub mod layout;
mod names;
mod writing;

use plan_base::NoMemory;

/// What is written to a text in memory, or that none could be had.
pub type Done = Result<(), NoMemory>;

pub use amounts::{Amount, Flow};
pub use decimals::{Nearest, decimal, rounded};
pub use escape::{cut, escaped};
pub use flows::column_flows;
pub use names::{activity_parts, good_parts, machine_name, node_parts};
pub use writing::{Piece, push_text, put};
