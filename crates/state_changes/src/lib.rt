//! What changes make of a game with its marks, its milestones and its tables: what they name, why they are refused, and
//! what takes them back; and those of the book and the tables, carried out and taken back.
#![tactic(auto)]

mod changes;
mod edits;
mod entries;
mod names;
mod refusals;
mod restoring;
mod undos;

pub use changes::{apply_changes, put, take_all_back};
pub use edits::edits_named;
pub use entries::{Back, Entry, back_of, can_be_held, entry_of};
pub use names::{node_named, nodes_of};
pub use refusals::{Refusal, entry_fault, milestone_fault};
pub use restoring::restore_parts;
pub use undos::Undo;
