//! The lines that meet a wish, from the words of the wish and the planner of a state: found, and carried out by that planner before they
//! are told.
#![tactic(auto)]

mod answers;
mod failures;
mod finding;
mod scripts;
mod standing;

pub use answers::{Answer, answered_lines, reached_in};
pub use failures::Failure;
pub use finding::{Found, Given, found_lines};
pub use script_runner::Progress;
pub use scripts::whole_script;
