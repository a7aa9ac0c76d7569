//! What is written to standard output.

use crate::fault::{OutputFault, end_by_fault};
use program_runs::{End, Names, Work, end_of_run, with_loaded, written};
use std::alloc::Global;
use std::rt::Files;

/// What is left to be written when the planner is gone, and whether some line of the script is refused.
#[derive(Drop)]
pub struct Output {
    pub text: Vec<u8>,
    pub refused: bool,
}

// Writes an output, where there is one.
fn end_of_output<R: Files + Print>(
    rt: &R,
    alloc: Global,
    made: Result<Output, OutputFault>,
    names: Names<'_>,
) -> End {
    match made {
        Ok(output) => {
            let exit = u8::from(output.refused);
            written(rt, alloc, output.text.as_slice(), exit)
        }
        Err(fault) => end_by_fault(rt, alloc, fault, names),
    }
}

/// Writes the output that a work makes of these files.
pub fn run_work<R: Files + Print, W: Work<R, Made = Result<Output, OutputFault>>>(
    rt: &R,
    alloc: Global,
    names: Names<'_>,
    work: &W,
) -> End {
    match with_loaded(rt, alloc, names, work) {
        Ok(made) => end_of_output(rt, alloc, made, names),
        Err(end) => end_of_run(rt, alloc, end, names),
    }
}
