// The modes: the files of a dump and a script, the same with a certificate, and a sample.
ghost use Rattle.std.specs.Prelude.{◌≡◌, ◌≢◌, ◌≤◌, ◌<◌, ◌-◌, ℕ, [], Some};
ghost use Rattle.plan_io.specs.Store.{Shelf};
ghost use Rattle.script_runner.specs.Leaves.{Leaves};
ghost use Rattle.run_inputs.specs.Begun.{BeginsFiles};
ghost use Rattle.run_inputs.specs.Early.{is_cut};
ghost use Rattle.plan_io.specs.Store.{Begun};
ghost use Rattle.planner_cli.specs.Ending.{EndsRun, answering};
ghost use Rattle.run_inputs.specs.Ready.{IsReady};
ghost use Rattle.run_inputs.specs.Inputs.{IsScript};
ghost use Rattle.run_inputs.specs.Keeping.{KeepsSink, KeepsSlots, KeepsStore};
ghost use Rattle.run_inputs.specs.Words.{Check, FileNames, Files, Run, Sample};

use crate::answer::answer;
use linear_table::SolveAnswer;
use plan_base::Steps;
use plan_io::{Sink, Store, has_many_lines};
use planner_core::Planner;
use run_inputs::{
    Ready, Status, is_answered, make_ready, read_entries, read_files, status_of, tell, tell_steps,
};
use script_runner::{Listener, check_lines, tell_many_lines};
use std::alloc::Global;

/// Answers the script of a file over the dump of another, and writes the replies or their certificate.
pub fn run_files<S: Store, K: Sink, W: Listener, L>(
    alloc: Global,
    dump: &str,
    script: &str,
    prove: bool,
    store: &mut S,
    out: &mut K,
    listener: &mut W,
    solved: &mut Vec<SolveAnswer>,
    steps: &mut Steps<L>,
) -> Status
    requires calls { (S.begun store.old).calls ≤ 1 }
    requires none_yet { solved.old.items ≡ [] }
    ensures leaves { Leaves (EndsRun (S.shelf store.old) (Some (Files (answering prove) (record { dump = dump.now; script = script.now }))) (steps.new - steps.old) solved.new.items) is_cut (K.written out.old) (K.written out.new) steps.old steps.new result }
    ensures begins { BeginsFiles (S.shelf store.old) (Some (Files (answering prove) (record { dump = dump.now; script = script.now }))) (S.begun store.old) (S.begun store.new) result }
    ensures slots { KeepsSlots (S.left store.old) (S.left store.new) (S.begun store.old).slots }
    ensures store { KeepsStore (S.shelf store.old) (S.shelf store.new) (S.faults store.old) (S.faults store.new) (result ≡ Status.ReadFault) }
    ensures sink { KeepsSink (K.limit out.old) (K.limit out.new) (K.faults out.old) (K.faults out.new) (result ≡ Status.WriteFault) }
{
    match read_files(alloc, dump, script, store, steps) {
        Ok(ready) => status_of(answer(alloc, ready, prove, out, listener, solved, steps)),
        Err(early) => tell(alloc, early, out),
    }
}

// Checks the lines of a script against the certificate of a file, with a planner that is lent.
fn check_lent<S: Store, K: Sink, W: Listener, L>(
    alloc: Global,
    planner: &mut Planner,
    script: &[u8],
    cert: &str,
    store: &mut S,
    out: &mut K,
    listener: &mut W,
    steps: &mut Steps<L>,
) -> Status
    requires calls { (S.begun store.old).calls < 4 }
    ensures leaves { (names : FileNames) (first : ℕ) → IsReady (S.shelf store.old) (Some (Files Run names)) planner.old script.now (steps.old - first) → first ≤ steps.old
        → Leaves (EndsRun (S.shelf store.old) (Some (Files (Check cert.now) names)) (steps.new - first) []) is_cut (K.written out.old) (K.written out.new) first steps.new result }
    ensures begins { (names : FileNames) (first : Begun) → IsScript (S.shelf store.old) (Some (Files Run names)) script.now → BeginsFiles (S.shelf store.old) (Some (Files Run names)) first (S.begun store.old) Status.Done
        → BeginsFiles (S.shelf store.old) (Some (Files (Check cert.now) names)) first (S.begun store.new) result }
    ensures slots { KeepsSlots (S.left store.old) (S.left store.new) (S.begun store.old).slots }
    ensures store { KeepsStore (S.shelf store.old) (S.shelf store.new) (S.faults store.old) (S.faults store.new) (result ≡ Status.ReadFault) }
    ensures sink { KeepsSink (K.limit out.old) (K.limit out.new) (K.faults out.old) (K.faults out.new) (result ≡ Status.WriteFault) }
    ensures later { steps.old ≤ steps.new }
{
    if has_many_lines(script) {
        return status_of(tell_many_lines(out));
    }
    listener.begins(planner);
    match read_entries(alloc, cert, store) {
        Ok(entries) => status_of(check_lines(
            alloc,
            planner,
            script,
            entries.as_slice(),
            out,
            listener,
            steps,
        )),
        Err(early) => tell(alloc, early, out),
    }
}

// Checks the lines of a script against the certificate of a file.
fn check_ready<S: Store, K: Sink, W: Listener, L>(
    alloc: Global,
    ready: Ready,
    cert: &str,
    store: &mut S,
    out: &mut K,
    listener: &mut W,
    steps: &mut Steps<L>,
) -> Status
    requires calls { (S.begun store.old).calls < 4 }
    ensures leaves { (names : FileNames) (first : ℕ) → IsReady (S.shelf store.old) (Some (Files Run names)) ready.planner ready.script.items (steps.old - first) → first ≤ steps.old
        → Leaves (EndsRun (S.shelf store.old) (Some (Files (Check cert.now) names)) (steps.new - first) []) is_cut (K.written out.old) (K.written out.new) first steps.new result }
    ensures begins { (names : FileNames) (first : Begun) → IsScript (S.shelf store.old) (Some (Files Run names)) ready.script.items → BeginsFiles (S.shelf store.old) (Some (Files Run names)) first (S.begun store.old) Status.Done
        → BeginsFiles (S.shelf store.old) (Some (Files (Check cert.now) names)) first (S.begun store.new) result }
    ensures slots { KeepsSlots (S.left store.old) (S.left store.new) (S.begun store.old).slots }
    ensures store { KeepsStore (S.shelf store.old) (S.shelf store.new) (S.faults store.old) (S.faults store.new) (result ≡ Status.ReadFault) }
    ensures sink { KeepsSink (K.limit out.old) (K.limit out.new) (K.faults out.old) (K.faults out.new) (result ≡ Status.WriteFault) }
    ensures later { steps.old ≤ steps.new }
{
    let Ready {
        mut planner,
        script,
    } = ready;
    check_lent(
        alloc,
        &mut planner,
        &script,
        cert,
        store,
        out,
        listener,
        steps,
    )
}

/// Checks the script of a file over the dump of another against the certificate of a third.
pub fn check_files<S: Store, K: Sink, W: Listener, L>(
    alloc: Global,
    dump: &str,
    script: &str,
    cert: &str,
    store: &mut S,
    out: &mut K,
    listener: &mut W,
    steps: &mut Steps<L>,
) -> Status
    requires calls { (S.begun store.old).calls ≤ 1 }
    ensures leaves { Leaves (EndsRun (S.shelf store.old) (Some (Files (Check cert.now) (record { dump = dump.now; script = script.now }))) (steps.new - steps.old) []) is_cut (K.written out.old) (K.written out.new) steps.old steps.new result }
    ensures begins { BeginsFiles (S.shelf store.old) (Some (Files (Check cert.now) (record { dump = dump.now; script = script.now }))) (S.begun store.old) (S.begun store.new) result }
    ensures slots { KeepsSlots (S.left store.old) (S.left store.new) (S.begun store.old).slots }
    ensures store { KeepsStore (S.shelf store.old) (S.shelf store.new) (S.faults store.old) (S.faults store.new) (result ≡ Status.ReadFault) }
    ensures sink { KeepsSink (K.limit out.old) (K.limit out.new) (K.faults out.old) (K.faults out.new) (result ≡ Status.WriteFault) }
{
    match read_files(alloc, dump, script, store, steps) {
        Ok(ready) => check_ready(alloc, ready, cert, store, out, listener, steps),
        Err(early) => tell(alloc, early, out),
    }
}

/// Answers the script of a sample over its dump, and tells the steps that this took.
pub fn run_sample<K: Sink, W: Listener, L>(
    alloc: Global,
    number: u32,
    size: u32,
    out: &mut K,
    listener: &mut W,
    solved: &mut Vec<SolveAnswer>,
    steps: &mut Steps<L>,
) -> Status
    requires some { 0 < size }
    requires few { size ≤ 20_000 }
    requires none_yet { solved.old.items ≡ [] }
    ensures leaves { (shelf : Shelf) → Leaves (EndsRun shelf (Some (Sample number size)) (steps.new - steps.old) solved.new.items) is_cut (K.written out.old) (K.written out.new) steps.old steps.new result }
    ensures read { result ≢ Status.ReadFault }
    ensures sink { KeepsSink (K.limit out.old) (K.limit out.new) (K.faults out.old) (K.faults out.new) (result ≡ Status.WriteFault) }
{
    let before = steps.taken();
    let ready = match make_ready(alloc, number, size, steps) {
        Ok(ready) => ready,
        Err(early) => return tell(alloc, early, out),
    };
    let end = answer(alloc, ready, false, out, listener, solved, steps);
    if is_answered(end) {
        tell_steps(alloc, end, steps.taken() - before, out)
    } else {
        status_of(end)
    }
}
