//! A run over a dump and a script, of which is said what went wrong.
use crate::hints::LineHints;
use crate::telling::said;
use plan_base::{Steps, Text};
use plan_io::{HostSink, HostStore};
use planner_cli::{RunOutcome, Status, run};
use program_runs::{End, Watch, WatchedSink, WatchedStore, said_of_store};
use std::alloc::Global;
use std::rt::Files;
use std::time::Clock;

// Marks the counter of a run.
#[derive(Drop)]
struct RunSteps;

/// The end of the run that the words ask for. Its progress is told on standard error where that is shown.
pub fn run_end<R: Files + Print + Eprint + Clock>(
    rt: &R,
    alloc: Global,
    words: &[Text],
    is_shown: bool,
) -> End {
    let mut store = WatchedStore::make(HostStore::make(alloc, rt), Watch::start(rt, is_shown));
    let mut out = WatchedSink::make(HostSink::make(rt), Watch::start(rt, is_shown));
    let mut steps = Steps::new(RunSteps);
    let mut hints = LineHints::make(alloc, words);
    let RunOutcome { status, .. } = run(alloc, words, &mut store, &mut out, &mut hints, &mut steps);
    store.clear();
    out.clear();
    let unread = said_of_store(alloc, store.store().fault());
    let said = match status {
        Status::Done | Status::SomeRefused => hints.said(),
        _ => said(rt, alloc, &status, words, unread),
    };
    End {
        said,
        exit: status.exit(),
    }
}
