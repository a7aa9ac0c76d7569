//! One run over files in memory, whose calls may be slow and may fail.
ghost use Rattle.std.specs.Prelude.{◌≡◌};

use crate::memory::{Calls, WORDS, sink_of, store_of, texts_in};
use crate::pieces::is_front;
use plan_base::{Steps, Text};
use plan_io::{MemSink, MemStore, Store};
use planner_cli::run;
use script_runner::Silent;
use std::alloc::Global;

/// A dump and a script, and what a run over them ends with and writes where no call fails.
pub struct Case {
    pub dump: &'static str,
    pub script: &'static str,
    pub exit: u8,
    pub report: &'static str,
}

#[derive(Drop)]
struct Test;

fn exit_of(alloc: Global, words: &[Text], store: &mut MemStore, out: &mut MemSink) -> u8
    requires { (⟦<MemStore as Store>⟧.begun store.old).calls ≡ 0 }
{
    let mut steps = Steps::new(Test);
    let outcome = run(alloc, words, store, out, &mut Silent, &mut steps);
    outcome.status.exit()
}

// How a run ends, and what it writes.
fn ending(alloc: Global, files: &[(&str, &[u8])], calls: Calls) -> Option<(u8, MemSink)> {
    let Ok(words) = texts_in(alloc, &WORDS) else {
        return None;
    };
    let Some(mut store) = store_of(alloc, files, calls) else {
        return None;
    };
    let Some(mut out) = sink_of(alloc, calls) else {
        return None;
    };
    let exit = exit_of(alloc, &words, &mut store, &mut out);
    Some((exit, out))
}

/// Whether a run ends with this status, and writes its report up to this rest.
pub fn ends_before(alloc: Global, case: &Case, calls: Calls, exit: u8, rest: &[u8]) -> bool {
    let files = [("d", case.dump.as_bytes()), ("s", case.script.as_bytes())];
    match ending(alloc, &files, calls) {
        Some((ended, out)) => {
            ended == exit && is_front(out.written(), rest, case.report.as_bytes())
        }
        None => false,
    }
}
