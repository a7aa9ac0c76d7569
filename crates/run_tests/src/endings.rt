//! What a run over files in memory ends with and writes.
ghost use Rattle.std.specs.Prelude.{◌≡◌};

use crate::memory::{Calls, WORDS, sink_of, store_of, texts_in};
use plan_base::{Steps, Text};
use plan_io::{MemSink, MemStore, Store};
use planner_cli::run;
use script_runner::Silent;
use std::alloc::Global;

/// What the steps of a test are counted by.
#[derive(Drop)]
pub struct Test;

fn ends(
    alloc: Global,
    words: &[Text],
    store: &mut MemStore,
    out: &mut MemSink,
    exit: u8,
    written: &str,
) -> bool
    requires { (⟦<MemStore as Store>⟧.begun store.old).calls ≡ 0 }
{
    let mut steps = Steps::new(Test);
    let outcome = run(alloc, words, store, out, &mut Silent, &mut steps);
    outcome.status.exit() == exit && out.written() == written.as_bytes()
}

/// Whether a run of these words over these files ends so, where one call of the store and one of the sink fail.
pub fn fails_so(
    alloc: Global,
    words: &[&str],
    files: &[(&str, &[u8])],
    reads: u32,
    writes: u32,
    exit: u8,
    written: &str,
) -> bool {
    let Ok(words) = texts_in(alloc, words) else {
        return false;
    };
    let calls = Calls::failing(reads, writes);
    let Some(mut store) = store_of(alloc, files, calls) else {
        return false;
    };
    let Some(mut out) = sink_of(alloc, calls) else {
        return false;
    };
    ends(alloc, &words, &mut store, &mut out, exit, written)
}

/// Whether a run over a dump and a script ends so, and writes this.
pub fn ends_so(alloc: Global, dump: &str, script: &str, exit: u8, written: &str) -> bool {
    let files = [("d", dump.as_bytes()), ("s", script.as_bytes())];
    fails_so(alloc, &WORDS, &files, 0, 0, exit, written)
}
