// From the words to the status of the run.
ghost use Rattle.std.specs.Prelude.{◌≡◌, ◌≤◌, ◌-◌, [], Some};
ghost use Rattle.script_runner.specs.Leaves.{Leaves};
ghost use Rattle.run_inputs.specs.AskedWords.{asked_seen, IsMadeSize};
ghost use Rattle.run_inputs.specs.Begun.{BeginsFiles};
ghost use Rattle.run_inputs.specs.Early.{is_cut};
ghost use Rattle.planner_cli.specs.Ending.{EndsRun};
ghost use Rattle.planner_cli.specs.Headline.{TellsOfRun};
ghost use Rattle.run_inputs.specs.Keeping.{KeepsSink, KeepsSlots, KeepsStore};
ghost use Rattle.run_inputs.specs.Words.{asked_of};

use crate::modes::{check_files, run_files, run_sample};
use linear_table::SolveAnswer;
use plan_base::{Steps, Text};
use plan_io::{Sink, Store};
use run_inputs::{Asked, FileMode, Status, WordsFault, plain_words, read_words, tell};
use script_runner::Listener;
use std::alloc::Global;

// Does what the words ask for. What the solver answers is kept in `solved`.
fn run_asked<S: Store, K: Sink, W: Listener, L>(
    alloc: Global,
    asked: Asked<'_>,
    store: &mut S,
    out: &mut K,
    listener: &mut W,
    solved: &mut Vec<SolveAnswer>,
    steps: &mut Steps<L>,
) -> Status
    requires calls { (S.begun store.old).calls ≤ 1 }
    requires none_yet { solved.old.items ≡ [] }
    requires size { IsMadeSize asked }
    ensures leaves { Leaves (EndsRun (S.shelf store.old) (Some (asked_seen asked.entry)) (steps.new - steps.old) solved.new.items) is_cut (K.written out.old) (K.written out.new) steps.old steps.new result }
    ensures begins { BeginsFiles (S.shelf store.old) (Some (asked_seen asked.entry)) (S.begun store.old) (S.begun store.new) result }
    ensures slots { KeepsSlots (S.left store.old) (S.left store.new) (S.begun store.old).slots }
    ensures store { KeepsStore (S.shelf store.old) (S.shelf store.new) (S.faults store.old) (S.faults store.new) (result ≡ Status.ReadFault) }
    ensures sink { KeepsSink (K.limit out.old) (K.limit out.new) (K.faults out.old) (K.faults out.new) (result ≡ Status.WriteFault) }
{
    match asked {
        Asked::Files { mode, dump, script } => match mode {
            FileMode::Run => run_files(
                alloc, dump, script, false, store, out, listener, solved, steps,
            ),
            FileMode::Prove => run_files(
                alloc, dump, script, true, store, out, listener, solved, steps,
            ),
            FileMode::Check(cert) => {
                check_files(alloc, dump, script, cert, store, out, listener, steps)
            }
        },
        Asked::Sample { number, size } => run_sample(
            alloc, number, size, out, listener, solved, steps,
        ),
    }
}

// The status of a run. What the solver answers is kept in `solved`.
fn status_of_run<S: Store, K: Sink, W: Listener, L>(
    alloc: Global,
    words: &[Text],
    store: &mut S,
    out: &mut K,
    listener: &mut W,
    solved: &mut Vec<SolveAnswer>,
    steps: &mut Steps<L>,
) -> Status
    requires calls { (S.begun store.old).calls ≤ 1 }
    requires none_yet { solved.old.items ≡ [] }
    ensures leaves { Leaves (EndsRun (S.shelf store.old) (asked_of words.now) (steps.new - steps.old) solved.new.items) is_cut (K.written out.old) (K.written out.new) steps.old steps.new result }
    ensures begins { BeginsFiles (S.shelf store.old) (asked_of words.now) (S.begun store.old) (S.begun store.new) result }
    ensures slots { KeepsSlots (S.left store.old) (S.left store.new) (S.begun store.old).slots }
    ensures store { KeepsStore (S.shelf store.old) (S.shelf store.new) (S.faults store.old) (S.faults store.new) (result ≡ Status.ReadFault) }
    ensures sink { KeepsSink (K.limit out.old) (K.limit out.new) (K.faults out.old) (K.faults out.new) (result ≡ Status.WriteFault) }
{
    let Ok(plain) = plain_words(alloc, words) else {
        return tell(alloc, Status::NoMemory, out);
    };
    match read_words(alloc, &plain) {
        Ok(asked) => run_asked(alloc, asked, store, out, listener, solved, steps),
        Err(WordsFault::Undefined) => tell(alloc, Status::BadWords, out),
        Err(WordsFault::NoMemory) => tell(alloc, Status::NoMemory, out),
    }
}

/// The status of a run, which tells the truth. What the solver answers is kept in `solved`.
pub fn run_words<S: Store, K: Sink, W: Listener, L>(
    alloc: Global,
    words: &[Text],
    store: &mut S,
    out: &mut K,
    listener: &mut W,
    solved: &mut Vec<SolveAnswer>,
    steps: &mut Steps<L>,
) -> Status
    requires calls { (S.begun store.old).calls ≤ 1 }
    requires none_yet { solved.old.items ≡ [] }
    ensures leaves { Leaves (TellsOfRun (S.shelf store.old) (asked_of words.now) (steps.new - steps.old) solved.new.items) is_cut (K.written out.old) (K.written out.new) steps.old steps.new result }
    ensures begins { BeginsFiles (S.shelf store.old) (asked_of words.now) (S.begun store.old) (S.begun store.new) result }
    ensures slots { KeepsSlots (S.left store.old) (S.left store.new) (S.begun store.old).slots }
    ensures store { KeepsStore (S.shelf store.old) (S.shelf store.new) (S.faults store.old) (S.faults store.new) (result ≡ Status.ReadFault) }
    ensures sink { KeepsSink (K.limit out.old) (K.limit out.new) (K.faults out.old) (K.faults out.new) (result ≡ Status.WriteFault) }
{
    status_of_run(alloc, words, store, out, listener, solved, steps)
}
