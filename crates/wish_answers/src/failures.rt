//! Why no lines are told.
use plan_base::NoMemory;
use std::alloc::{AllocError, AllocFailed};

/// Why no lines are told. What is to be said of it is written to a text beside it.
#[derive(Clone, Copy, Debug, PartialEq, Eq)]
pub enum Failure {
    /// A line is refused, or a batch is open.
    Refused,
    /// A word names nothing that is fit.
    BadWords,
    /// No table meets the wish.
    Unmet,
    /// The lines are more than a script may have.
    TooLong,
    NoMemory,
}

impl From<NoMemory> for Failure {
    fn from(_: NoMemory) -> Failure {
        Failure::NoMemory
    }
}

impl From<AllocError> for Failure {
    fn from(_: AllocError) -> Failure {
        Failure::NoMemory
    }
}

impl<T: Drop> From<AllocFailed<T>> for Failure {
    fn from(_: AllocFailed<T>) -> Failure {
        Failure::NoMemory
    }
}
