//! The replies of a planner and their text.
//!
//! What each reply says is in `specs/`: `Replies` and `Plans` (the lines of every reply, as words). How words and names are
//! written is in `Words` and `Nodes`.
#![tactic(auto)]

mod ahead;
mod answers;
mod codes;
pub mod laws;
mod line_starts;
mod nodes;
mod numbers;
mod plans;
mod printing;
mod questions;
mod ranked;
mod rates;
mod solved;
mod words;

pub use answers::{mask_text, milestones_text, missing_text, reach_text, summary_text};
pub use line_starts::LineStarts;
pub use nodes::{good_word, node_word};
pub use printing::{print_reply, print_reply_by};
pub use words::{kind_word, object_word, printed_word};
