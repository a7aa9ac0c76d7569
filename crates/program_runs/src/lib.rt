//! What the runs of the program over a dump and a script have in common: their words, their files, the planner that is lent them, their ends, and
//! what is said of a run that went wrong: a line by its status, and a line for each line of the script that is refused or solves a table without a
//! plan.
//!
//! The texts are in `specs/`: `Hints` (by the status), `Faults` (of a refused dump), `Lines` (of the lines of a script), `Names` (of the files),
//! `Places` (lines and columns).
#![tactic(auto)]

mod ends;
mod faults;
mod files;
mod hints;
mod laws;
mod lending;
mod line_hints;
mod names;
mod place;
mod sink;
mod store;
mod telling;
mod watch;
mod words;

/// The version of the program.
pub const VERSION: &str = "0.17.0";

pub use ends::{End, Names, RunEnd, end_by, end_of_run, ended, written};
pub use files::{shown_in, whole_file};
pub use hints::{hint, unread_hint};
pub use laws::{hints_are_lines, names_are_of_the_run};
pub use lending::{Work, with_loaded};
pub use line_hints::{empty_hint, more_hint, refused_hint, short_hint};
pub use names::{dump_name, script_name};
pub use place::{Place, place_in};
pub use sink::WatchedSink;
pub use store::WatchedStore;
pub use telling::{said_of, said_of_store};
pub use watch::Watch;
pub use words::{asked_files, end_by_words, program_words};
