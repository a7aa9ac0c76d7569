//! What the solver says of a table, and whether a table meets a wish; the lines of a script that make a table, and the words in them.
#![tactic(auto)]

mod checking;
mod good_lines;
mod keeping;
mod lines;
mod names;
mod notes;
mod row_lines;
mod solving;
mod supplies;
mod words;

pub use checking::is_met;
pub use lines::{more_text, table_text};
pub use names::{good_text, like_names, machine_text, names_of, push_label, recipe_text};
pub use notes::{Notes, noted_good};
pub use solving::{BUDGET, Solved, is_solvable, solve_table};
