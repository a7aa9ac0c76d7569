//! The planner: a planning state with its history and an open batch, and what each line of a script does to it and is
//! answered; and questions that leave it as it was.
#![tactic(auto)]

mod asking;
mod batches;
mod laws;
mod nodes;
mod open_steps;
mod planner;
mod posing;
mod questions;
mod reached;
mod refusals;

pub use asking::{ask_mask, ask_milestones, ask_rank, ask_rate, ask_solve};
pub use batches::BATCH_LIMIT;
pub use laws::state_is_of_the_active_edits;
pub use nodes::{mask_of, milestones_of, object_of, places_of, rank_of};
pub use planner::Planner;
pub use planning_state::LoadFault;
pub use posing::Posed;
