//! The catalog of a planner's game: all its things as one object of JSON, which is written thing by thing.
//!
//! Beside what rules read it has what a page shows and no rule reads: where each thing stands in the game's lists, whether the game hides
//! it, how many stack, and what a belt carries. That is read leniently: what is of another kind than it should be is left out.
#![tactic(auto)]

mod catalog;
mod fields;
mod hidden;
mod keys;
mod named;
mod prototypes;
mod reading;
mod sections;
mod shown;
mod things;
mod trees;

pub use catalog::catalog_text;
pub use fields::{Shown, ShownFields, shown_of};
pub use hidden::hidden_recipes;
pub use reading::read_shown;
