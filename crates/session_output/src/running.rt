//! From the file of a dump to the end of a session.

use crate::wished::TableWishes;
use catalog_text::ShownFields;
use clap::ArgMatches;
use plan_base::{NoMemory, Steps};
use plan_io::HostSink;
use planner_core::Planner;
use program_runs::{End, Names, RunEnd, Work, asked_files, end_of_run, shown_in, with_loaded};
use run_inputs::{Long, Status, tell};
use session_lines::{Session, SessionEnd, serve};
use std::alloc::Global;
use std::io::Input;
use std::rt::Files;

// The status of a run that ends as a session.
fn status_by(end: SessionEnd) -> Status {
    match end {
        SessionEnd::Done => Status::Done,
        SessionEnd::SomeRefused => Status::SomeRefused,
        SessionEnd::ReadFault => Status::ReadFault,
        SessionEnd::WriteFault => Status::WriteFault,
        SessionEnd::NoMemory => Status::NoMemory,
        SessionEnd::TooManyLines => Status::TooLong(Long::ScriptLines),
        SessionEnd::TooManyBytes => Status::TooLong(Long::ScriptBytes),
    }
}

// Answers the lines of standard input by a planner.
fn serve_lent<R: Print + Input, L>(
    rt: &R,
    alloc: Global,
    planner: &mut Planner,
    shown: ShownFields,
    steps: &mut Steps<L>,
) -> Status {
    let mut session = Session::new(alloc, shown, TableWishes {});
    let mut input = rt.reader();
    let mut out = HostSink::make(rt);
    status_by(serve(alloc, planner, &mut session, &mut input, &mut out, steps))
}

// A session over the dump of this name.
#[derive(Drop)]
struct Serving<'a> {
    dump: &'a str,
}

impl<R: Files + Print + Input> Work<R> for Serving<'_> {
    type Made = Status;

    fn make<L>(
        &self,
        rt: &R,
        alloc: Global,
        planner: &mut Planner,
        _script: Vec<u8>,
        steps: &mut Steps<L>,
    ) -> Status {
        match shown_in(rt, alloc, self.dump) {
            Ok(shown) => serve_lent(rt, alloc, planner, shown, steps),
            Err(NoMemory) => Status::NoMemory,
        }
    }
}

// How the session ends. Of standard input it isn't told why it could not be read.
fn end_of<R: Files + Print + Input>(rt: &R, alloc: Global, names: Names<'_>) -> RunEnd {
    let work = Serving { dump: names.dump };
    match with_loaded(rt, alloc, names, &work) {
        Ok(status) => RunEnd {
            status,
            unread: None,
        },
        Err(end) => end,
    }
}

// Writes the line of an end that has one, and answers how it ends.
fn tell_end<R: Print>(alloc: Global, status: Status, out: &mut HostSink<'_, R>) -> Status {
    match status {
        Status::WriteFault => Status::WriteFault,
        early => tell(alloc, early, out),
    }
}

// Answers the lines of standard input over a dump until they end, and tells on standard output why it ends before.
fn session_of<R: Files + Print + Input>(rt: &R, alloc: Global, names: Names<'_>) -> End {
    let RunEnd { status, unread } = end_of(rt, alloc, names);
    let mut out = HostSink::make(rt);
    let status = tell_end(alloc, status, &mut out);
    end_of_run(rt, alloc, RunEnd { status, unread }, names)
}

/// The session that the matched words of the command ask for.
pub fn run_matched<R: Files + Print + Input>(
    rt: &R,
    alloc: Global,
    matches: &ArgMatches<'_>,
) -> End {
    session_of(rt, alloc, asked_files(matches))
}
