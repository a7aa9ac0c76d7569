//! The reply to a line of a script as an object of JSON.
//!
//! `specs/Replies` is the object of each reply, and `specs/Reading` reads one: whoever reads the object of a reply gets every word of the
//! reply back.
#![tactic(auto)]

mod codes;
mod laws;
mod lines;
mod lists;
mod numbers;
mod plan_rows;
mod plans;
mod questions;
mod rates;
mod refusals;
mod replies;
mod streams;
mod trails;
mod values;

pub use laws::a_reader_gets_the_reply_back;
pub use lines::line_text;
pub use numbers::{decimal_of, put_figure, put_number};
pub use values::{good_id, put_good};
