//! The tables of a plan: a row for each of its rows and for each of its goods, in which every number is the plan's.
//!
//! It stands on pieces of text, each of which is what its definition says, byte by byte. `specs/` has the definitions: `Numbers` (whole
//! numbers, decimals, folded fractions), `Amounts` (rates and powers in their units), `Labels` (texts of others in graphs), `Pieces` (pieces
//! behind one another); `Things` (things by their kinds and names), `Setups` (what a row is set to do), `Cells` and `Rows`.
#![tactic(auto)]

mod amounts;
mod cells;
mod labels;
mod numbers;
mod pieces;
mod row_cells;
mod row_notes;
mod rows;
mod setups;
mod things;

pub use amounts::{figure_text, power_figure, power_text, rate_text};
pub use cells::{amount_cell, figure_cell, number_cell, power_cell, rate_cell};
pub use labels::label_text;
pub use numbers::{is_whole, near_text, number_text, product, short_text};
pub use pieces::{Piece, put};
pub use rows::{rows_text, total_text};
pub use setups::setup_text;
pub use things::{Thing, activity_thing, good_thing, thing_name, thing_text};
