//! One world for each milestone: the game with that milestone barred, and the ranks in it.
#![tactic(auto)]

mod additions;
mod blocks;
mod found_list;
mod laws;
mod masks;
mod milestones;
mod missing;
mod order;
mod questions;
mod row_blocks;
mod slot_repairs;
mod slots;
mod supports;
mod why;
mod worlds;

pub use laws::{masks_are_of_the_worlds, missing_is_of_the_reached, ranked_are_reached};
pub use worlds::{MILESTONE_LIMIT, Milestone, MilestoneFault, Worlds};
