//! The words of the program.
use crate::ends::{End, Names};
use clap::error::ErrorKind;
use clap::{ArgMatches, Error};
use plan_base::{NoMemory, Text};
use run_inputs::Status;
use std::alloc::Global;
use std::rt::Env;
use std::{env, io};

// The file of a run without a script: it is empty.
const NO_SCRIPT: &str = "/dev/null";

/// The files that are asked for, an empty one where no script is.
pub fn asked_files<'a>(matches: &ArgMatches<'a>) -> Names<'a> {
    Names {
        dump: matches.get_str("DUMP").unwrap_or(""),
        script: matches.get_str("SCRIPT").unwrap_or(NO_SCRIPT),
    }
}

/// The program's words, or none at all where one is not UTF-8.
///
/// # Errors
///
/// `NoMemory` where memory could not be had.
pub fn program_words<R: Env + AllocGlobal>(rt: &R, alloc: Global) -> Result<Vec<Text>, NoMemory> {
    let mut words = Vec::new(alloc);
    match env::args(rt) {
        Ok(arguments) => {
            for argument in arguments {
                words.push(Text::copy(alloc, argument.as_str())?)?;
            }
        }
        Err(error) => {
            if error.kind() == io::ErrorKind::OutOfMemory {
                return Err(NoMemory);
            }
        }
    }
    Ok(words)
}

// Want of memory is no fault of the words.
fn exit_of(error: &Error) -> u8 {
    match error.kind() {
        ErrorKind::OutOfMemory => 6,
        _ if error.use_stderr() => 2,
        _ => 0,
    }
}

/// The end by words that ask for no run: the help, the version, or what is wrong with them is printed.
pub fn end_by_words<R: Print + Eprint>(rt: &R, alloc: Global, error: &Error) -> End {
    match error.print(rt) {
        Err(_) if !error.use_stderr() => End::by(alloc, &Status::WriteFault),
        // Where nothing can be said, the status still tells.
        _ => End::quiet(exit_of(error)),
    }
}
