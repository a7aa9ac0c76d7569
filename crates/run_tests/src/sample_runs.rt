//! Runs over a sample, which tell their steps.
ghost use Rattle.std.specs.Prelude.{◌≡◌};

use crate::endings::{Test, fails_so};
use crate::memory::{Calls, sink_of, store_of, texts_in};
use crate::texts::SAMPLE_REPORT;
use plan_base::{Steps, Text};
use plan_io::{MemSink, MemStore, Store};
use planner_cli::run;
use script_runner::Silent;
use std::alloc::Global;
use std::test::Fail;

const SAMPLE: [&str; 4] = ["p", "sample", "7", "1"];

#[test]
fn samples_read_no_file(rt: HostRuntime) -> Result<(), Fail> {
    let alloc = rt.alloc();
    assert!(rt; fails_so(alloc, &["p", "sample", "4294967295", "2"], &[], 0, 1, 5, ""));
    Ok(())
}

// What follows the report of the sample.
fn behind_report(written: &[u8]) -> Option<&[u8]> {
    written.strip_prefix(SAMPLE_REPORT.as_bytes())
}

fn steps_line(alloc: Global, taken: u64) -> Option<String> {
    match format!(in alloc; "steps {taken}\n") {
        Ok(line) => Some(line),
        Err(_) => None,
    }
}

fn tells_steps(alloc: Global, written: &[u8], taken: u64) -> bool {
    let Some(line) = steps_line(alloc, taken) else {
        return false;
    };
    behind_report(written) == Some(line.as_bytes())
}

// Whether a run of the sample over a store without files is done, and tells its report and its own steps alone.
fn samples(alloc: Global, words: &[Text], store: &mut MemStore, out: &mut MemSink) -> bool
    requires { (⟦<MemStore as Store>⟧.begun store.old).calls ≡ 0 }
{
    let mut steps = Steps::new(Test);
    steps.tick();
    steps.tick();
    let outcome = run(alloc, words, store, out, &mut Silent, &mut steps);
    let taken = outcome.taken;
    outcome.status.exit() == 0 && 0 < taken && tells_steps(alloc, out.written(), taken)
}

fn sample_tells_its_steps(alloc: Global) -> bool {
    let Ok(words) = texts_in(alloc, &SAMPLE) else {
        return false;
    };
    let Some(mut store) = store_of(alloc, &[], Calls::failing(0, 0)) else {
        return false;
    };
    let Some(mut out) = sink_of(alloc, Calls::failing(0, 0)) else {
        return false;
    };
    samples(alloc, &words, &mut store, &mut out)
}

#[test]
fn a_sample_tells_its_steps(rt: HostRuntime) -> Result<(), Fail> {
    assert!(rt; sample_tells_its_steps(rt.alloc()));
    Ok(())
}

// Its report has ten replies.
#[test]
fn a_sample_is_cut_off_before_its_steps(rt: HostRuntime) -> Result<(), Fail> {
    assert!(rt; fails_so(rt.alloc(), &SAMPLE, &[], 0, 11, 5, SAMPLE_REPORT));
    Ok(())
}
