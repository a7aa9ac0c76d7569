//! The belt that is asked for.
use crate::rates::{BeltFault, belt_rate};
use fractions::Ratio;
use program_runs::{End, whole_file};
use run_inputs::{DUMP_LIMIT, Status};
use std::alloc::Global;
use std::rt::Files;

// The end by a word that names no belt.
fn no_belt(alloc: Global, word: &str, why: &str) -> End {
    match format!(in alloc; "{word} {why}") {
        Ok(said) => End::saying(alloc, said.as_str(), 2),
        Err(_) => End::quiet(2),
    }
}

// The items a second on the full belt that an item places. None where the dump can't be read, or not a second time.
fn rate_of<R: Files>(rt: &R, alloc: Global, dump: &str, word: &str) -> Result<Option<Ratio>, End> {
    let Some(item) = word.strip_prefix("item:") else {
        return Err(no_belt(alloc, word, "names nothing that is item:NAME"));
    };
    let Some(bytes) = whole_file(rt, alloc, dump, DUMP_LIMIT) else {
        return Ok(None);
    };
    match belt_rate(alloc, bytes.as_slice(), item) {
        Ok(Some(rate)) => Ok(Some(rate)),
        Ok(None) => Err(no_belt(alloc, word, "is no belt of the dump")),
        Err(BeltFault::NoDump) => Ok(None),
        Err(BeltFault::NoMemory) => Err(End::by(alloc, &Status::NoMemory)),
    }
}

/// The items a second on the belt of a dump that a word names, where there is one. What is wrong with the dump itself is found where that is read whole.
///
/// # Errors
///
/// The end by a word that names no belt.
pub fn belt_of<R: Files>(
    rt: &R,
    alloc: Global,
    dump: &str,
    word: Option<&str>,
) -> Result<Option<Ratio>, End> {
    match word {
        Some(word) => rate_of(rt, alloc, dump, word),
        None => Ok(None),
    }
}
