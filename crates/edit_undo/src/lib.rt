//! Edits with their inverses, and a history that undoes and redoes them.
#![tactic(auto)]

mod editable;
mod history;
mod laws;

pub use editable::{Editable, EntryFault};
pub use history::{DoFault, History};
pub use laws::{state_is_of_the_active_edits, undo_and_redo_lead_back};
