//! What the program writes of a script and its game, for people and for other programs: all replies as a page or as JSON, the plan of a table as
//! comma-separated values or as a graph, what a unit of each good takes, and the game as one object of JSON.
#![tactic(auto)]

mod asked;
mod catalog;
mod costs;
mod estimates;
mod fault;
mod flow;
mod json;
mod lines;
mod output;
mod page;
mod pictures;
mod plan;
mod running;
mod solving;
mod tables;
mod texts;

pub use asked::with_outputs;
pub use running::run_matched;
