//! What a line of a script is read as, the reply to it, and who hears of it; the lines of a script, answered one after another by the planner;
//! lines that it carries out up to the first that is refused.
#![tactic(auto)]

mod answer;
mod checking;
mod laws;
mod listening;
mod proving;
mod reading;
mod reply;
mod report;
mod run;
mod solutions;
mod stepping;
mod trial;
mod verdict;

pub use checking::check_lines;
pub use laws::{
    certificates_prove_their_script, lines_lead_to_one_planner, planners_grow_from_the_base,
    plans_cost_least,
};
pub use listening::{Listener, Silent};
pub use proving::prove_script;
pub use reading::{Reading, fault_code, reading_of, refused_for};
pub use reply::{is_refusal, reply_to};
pub use run::{run_script, tell_many_lines};
pub use stepping::{Progress, step_lines};
pub use verdict::{Verdict, is_proved, verdict_line, verdict_on};
