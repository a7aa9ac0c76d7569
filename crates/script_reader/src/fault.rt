//! Why a line has no command.
use plan_base::NoMemory;
use thiserror::Error;

/// Why a line has no command.
#[derive(Clone, Copy, Debug, PartialEq, Eq, Drop, Error)]
pub enum ScriptFault {
    /// The first word is no command.
    #[error("Q1")]
    UnknownCommand,
    /// The number of words is wrong, or a fixed word is missing.
    #[error("Q2")]
    WrongWords,
    /// A word is no number of the kind that stands there.
    #[error("Q3")]
    BadNumber,
    /// The line is not UTF-8, or a word is badly quoted.
    #[error("Q4")]
    BadQuoting,
    /// A word is no object, or not of a kind that stands there.
    #[error("Q5")]
    BadObject,
    /// Memory could not be had.
    #[error("no memory")]
    NoMemory,
}

impl From<NoMemory> for ScriptFault {
    fn from(_: NoMemory) -> Self {
        ScriptFault::NoMemory
    }
}
