//! The script's lines as commands.
#![tactic(auto)]

mod arguments;
mod command_words;
mod commands;
mod fault;
mod fields;
mod parts;
mod read;
mod row_words;
mod split;
mod word_values;
pub mod words;

pub use command_words::{CommandWord, command_of};
pub use commands::read_words;
pub use fault::ScriptFault;
pub use fields::{Place, count_at, kind_of, object_at};
pub use read::read_line;
