//! The planning state: a game with its marks and its milestones, changed and changed back, with the ranks of every world
//! beside it, which answer questions about it.
#![tactic(auto)]

mod held;
mod laws;
mod loading;
mod milestones;
mod planning;
mod remembered;
mod settling;

pub use held::{apply_held, restore_held};
pub use laws::tables_take_no_step;
pub use milestones::{add_milestone, drop_milestone, put_milestone, take_milestone};
pub use planning::{LoadFault, Planning};
pub use state_changes::{Refusal, Undo, can_be_held};
