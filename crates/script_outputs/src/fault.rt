//! Why there is nothing to write, and how that is said.
use plan_base::NoMemory;
use program_runs::{End, Names, end_by};
use run_inputs::{Long, Status};
use std::alloc::Global;
use std::rt::Files;

/// Why there is nothing to write, or nothing more.
#[derive(Clone, Copy, Debug, PartialEq, Eq)]
pub enum OutputFault {
    /// There is no table of the name.
    NoTable,
    /// The table has no plan.
    NoPlan,
    /// A number is past its limit, or the solver's budget is used up.
    Unsolved,
    /// The script has more than 100,000 lines.
    TooManyLines,
    /// A reply could not be written.
    Unwritten,
    /// Memory could not be had.
    NoMemory,
}

impl From<NoMemory> for OutputFault {
    fn from(_: NoMemory) -> Self {
        OutputFault::NoMemory
    }
}

// The end because there is no plan.
fn without_plan(alloc: Global, why: &str) -> End {
    End::saying(alloc, why, 8)
}

/// The end by a fault of a run over these files.
pub fn end_by_fault<R: Files>(rt: &R, alloc: Global, fault: OutputFault, names: Names<'_>) -> End {
    match fault {
        OutputFault::NoTable => without_plan(alloc, "the script leaves no table of this name"),
        OutputFault::NoPlan => without_plan(alloc, "the table has no plan"),
        OutputFault::Unsolved => without_plan(alloc, "the table is not solved within the limits"),
        OutputFault::TooManyLines => end_by(rt, alloc, &Status::TooLong(Long::ScriptLines), names),
        OutputFault::Unwritten => End::by(alloc, &Status::WriteFault),
        OutputFault::NoMemory => End::by(alloc, &Status::NoMemory),
    }
}
