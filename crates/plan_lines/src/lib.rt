//! What a line of a script asks for, and what it is answered: the types, without their texts.
//!
//! How a line is read is in `script_reader`, and how a reply is written in `plan_report`.
#![tactic(auto)]

mod change;
mod command;
mod copies;
mod reply;

pub use change::{Change, Object, RowPart};
pub use command::Command;
pub use copies::{copy_text, two_copies};
pub use reply::{Detail, Figures, RefusalCode, Reply};
