//! How a run ends that prints no lines.
use plan_base::NoMemory;
use program_runs::{End, Names, end_by};
use run_inputs::{Long, Status};
use std::alloc::Global;
use std::rt::Files;
use wish_answers::Failure;
use wish_words::WordFault;

/// The end by a failure of a run over these files, of which this is said.
pub fn end_by_failure<R: Files>(
    rt: &R,
    alloc: Global,
    failure: Failure,
    said: &str,
    names: Names<'_>,
) -> End {
    match failure {
        Failure::Refused => End::saying(alloc, said, 1),
        Failure::BadWords => End::saying(alloc, said, 2),
        Failure::Unmet => End::saying(alloc, said, 8),
        Failure::TooLong => end_by(rt, alloc, &Status::TooLong(Long::ScriptLines), names),
        Failure::NoMemory => End::by(alloc, &Status::NoMemory),
    }
}

/// The end by a bad word.
pub fn end_by_fault(alloc: Global, fault: WordFault<'_>) -> End {
    let mut said = String::new(alloc);
    match fault.say(&mut said) {
        Ok(()) => End::saying(alloc, said.as_str(), 2),
        Err(NoMemory) => End::by(alloc, &Status::NoMemory),
    }
}
