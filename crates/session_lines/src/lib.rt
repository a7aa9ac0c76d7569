//! A planner that stays: lines of a script and questions, answered one after another.
#![tactic(auto)]

mod answers;
mod builds;
mod flows;
mod forced;
mod laws;
mod limits;
mod planned;
mod prices;
mod question_words;
mod questions;
mod script;
mod serving;
mod session;
mod state;
mod wishes;

pub use forced::{Forced, ForcedLine};
pub use laws::replies_are_the_report;
pub use script::{Told, answer_script};
pub use serving::serve;
pub use session::{Session, SessionEnd};
pub use wishes::{Wished, Wishes};
