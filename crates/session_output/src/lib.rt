//! A session: a dump is loaded, and lines from standard input are answered one by one.
#![tactic(auto)]

mod asked;
mod running;
mod wished;
mod words;

pub use asked::session_command;
pub use running::run_matched;
