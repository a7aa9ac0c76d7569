//! How the program ends.
use crate::hints::{hint, hint_line};
use crate::telling::said_of;
use plan_base::{NoMemory, Text};
use run_inputs::Status;
use std::alloc::Global;
use std::io;
use std::io::Write;
use std::process::ExitCode;
use std::rt::Files;

/// The end of the program: what it says on standard error, and the number that it ends with.
#[derive(Drop)]
pub struct End {
    pub said: Option<Text>,
    pub exit: u8,
}

impl End {
    /// An end of which nothing is said.
    pub fn quiet(exit: u8) -> End {
        End { said: None, exit }
    }

    /// An end of which this is said in a line, where there is memory for it.
    pub fn saying(alloc: Global, what: &str, exit: u8) -> End {
        End {
            said: hint_line(alloc, None, what).ok(),
            exit,
        }
    }

    /// The end by a status that no file is the cause of.
    pub fn by(alloc: Global, status: &Status) -> End {
        End {
            said: hint(alloc, status, &[], None, None).ok(),
            exit: status.exit(),
        }
    }
}

/// The files of a run.
#[derive(Clone, Copy)]
pub struct Names<'a> {
    pub dump: &'a str,
    pub script: &'a str,
}

// The words of a run over these files.
fn run_words(alloc: Global, names: Names<'_>) -> Result<Vec<Text>, NoMemory> {
    let mut words = Vec::new(alloc);
    for word in ["factoplan", "run", names.dump, names.script] {
        words.push(Text::copy(alloc, word)?)?;
    }
    Ok(words)
}

/// How a run ends, and what is said of the first call of its store that failed.
#[derive(Drop)]
pub struct RunEnd {
    pub status: Status,
    pub unread: Option<Text>,
}

// What is said of a run over these files.
fn said<R: Files>(rt: &R, alloc: Global, status: &Status, names: Names<'_>) -> Option<Text> {
    let words = run_words(alloc, names).ok()?;
    said_of(rt, alloc, status, words.as_slice(), None)
}

/// The end by a status of a run over these files.
pub fn end_by<R: Files>(rt: &R, alloc: Global, status: &Status, names: Names<'_>) -> End {
    End {
        said: said(rt, alloc, status, names),
        exit: status.exit(),
    }
}

/// The end of a run over these files, which says that a file could not be read where that ended it.
pub fn end_of_run<R: Files>(rt: &R, alloc: Global, end: RunEnd, names: Names<'_>) -> End {
    let RunEnd { status, unread } = end;
    match unread {
        Some(said) => End {
            said: Some(said),
            exit: status.exit(),
        },
        None => end_by(rt, alloc, &status, names),
    }
}

/// Writes what a run made to standard output, and answers the end of this number, or the one by the write fault.
pub fn written<R: Print>(rt: &R, alloc: Global, made: &[u8], exit: u8) -> End {
    let mut out = io::writer(rt);
    match out.write_all(made) {
        Ok(()) => End::quiet(exit),
        Err(_) => End::by(alloc, &Status::WriteFault),
    }
}

/// Says what is to be said of an end, and answers its number.
pub fn ended<R: Eprint>(rt: &R, end: &End) -> ExitCode {
    if let Some(said) = &end.said {
        // Where nothing can be said, the status still tells.
        let _ = rt.eprint(said.as_str());
    }
    ExitCode::from(end.exit)
}
