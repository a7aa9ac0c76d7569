//! The planner of a dump, which a command is lent.

use crate::ends::{Names, RunEnd};
use crate::telling::said_of_store;
use plan_base::Steps;
use plan_io::HostStore;
use planner_core::Planner;
use run_inputs::{Ready, read_files};
use std::alloc::Global;
use std::rt::Files;

// Marks the counter of a run.
#[derive(Drop)]
struct Run;

/// What a command does with the planner of a dump and its script.
///
/// It is lent the planner, which is let go here alone: a command that owned one would be proved to let it go once more.
pub trait Work<R> {
    /// What it makes of them. This is all that is left when the planner is gone.
    type Made;

    /// Makes it.
    fn make<L>(
        &self,
        rt: &R,
        alloc: Global,
        planner: &mut Planner,
        script: Vec<u8>,
        steps: &mut Steps<L>,
    ) -> Self::Made;
}

// The planner of a dump with its script, from their files. Of a file that could not be read, the cause is that of the first call that
// failed.
fn loaded<R: Files, L>(
    rt: &R,
    alloc: Global,
    names: Names<'_>,
    steps: &mut Steps<L>,
) -> Result<Ready, RunEnd> {
    let mut store = HostStore::make(alloc, rt);
    match read_files(alloc, names.dump, names.script, &mut store, steps) {
        Ok(ready) => Ok(ready),
        Err(status) => Err(RunEnd {
            status,
            unread: said_of_store(alloc, store.fault()),
        }),
    }
}

// What a work makes of what was loaded. The planner is let go behind it.
fn made_of<R, W: Work<R>, L>(
    rt: &R,
    alloc: Global,
    ready: Ready,
    work: &W,
    steps: &mut Steps<L>,
) -> W::Made {
    let Ready {
        mut planner,
        script,
    } = ready;
    work.make(rt, alloc, &mut planner, script, steps)
}

/// What a work makes of the planner of a dump and its script, which are loaded from their files.
///
/// # Errors
///
/// What ends a run before a line is answered. Of a file that could not be read, the cause is that of the first call that failed.
pub fn with_loaded<R: Files, W: Work<R>>(
    rt: &R,
    alloc: Global,
    names: Names<'_>,
    work: &W,
) -> Result<W::Made, RunEnd> {
    let mut steps = Steps::new(Run);
    match loaded(rt, alloc, names, &mut steps) {
        Ok(ready) => Ok(made_of(rt, alloc, ready, work, &mut steps)),
        Err(end) => Err(end),
    }
}
