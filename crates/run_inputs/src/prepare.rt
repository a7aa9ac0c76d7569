// All that comes before the first line of a script is answered.
ghost use Rattle.std.specs.Prelude.{◌≡◌, ◌≤◌, ◌<◌, ◌-◌, Err, IfOk, IsErrOf, MatchResult, Ok, Some};
ghost use Rattle.plan_io.specs.Store.{Shelf};
ghost use Rattle.sample_maker.specs.Texts.{sample_dump};
ghost use Rattle.run_inputs.specs.Begun.{BeginsFiles, status_so_far};
ghost use Rattle.run_inputs.specs.Early.{EndsEarly, EndsLoading};
ghost use Rattle.run_inputs.specs.Ready.{IsReady};
ghost use Rattle.run_inputs.specs.Keeping.{KeepsSlots, KeepsStore};
ghost use Rattle.run_inputs.specs.Words.{Files, Run, Sample};

use crate::input::read_input;
use crate::load::load;
use crate::status::{DUMP_LIMIT, Long, SCRIPT_LIMIT, Status};
use plan_base::{Steps, Text};
use plan_io::Store;
use planner_core::Planner;
use sample_maker::make_sample;
use std::alloc::{AllocError, Global};

/// A planner, and the script that it is to answer.
#[derive(Drop)]
pub struct Ready {
    pub planner: Planner,
    pub script: Vec<u8>,
}

// The planner with the script, where that was read.
fn with_script(planner: Planner, script: Result<Vec<u8>, Status>) -> Result<Ready, Status>
    ensures { MatchResult script
        (λ bytes. result ≡ Ok (record { planner = planner; script = bytes }))
        (λ status. result ≡ Err status) }
{
    match script {
        Ok(script) => Ok(Ready { planner, script }),
        Err(status) => Err(status),
    }
}

/// Reads the dump, loads its game, and reads the script.
///
/// # Errors
///
/// What ends the run before a line is answered.
pub fn read_files<S: Store, L>(
    alloc: Global,
    dump: &str,
    script: &str,
    store: &mut S,
    steps: &mut Steps<L>,
) -> Result<Ready, Status>
    requires { (S.begun store.old).calls ≤ 1 }
    ensures ready { MatchResult result
        (λ ready. IsReady (S.shelf store.old) (Some (Files Run (record { dump = dump.now; script = script.now }))) ready.planner ready.script.items (steps.new - steps.old))
        (λ status. EndsEarly (S.shelf store.old) (Some (Files Run (record { dump = dump.now; script = script.now }))) status (steps.new - steps.old)) }
    ensures begins { BeginsFiles (S.shelf store.old) (Some (Files Run (record { dump = dump.now; script = script.now }))) (S.begun store.old) (S.begun store.new) (status_so_far result) }
    ensures slots { KeepsSlots (S.left store.old) (S.left store.new) (S.begun store.old).slots }
    ensures store { KeepsStore (S.shelf store.old) (S.shelf store.new) (S.faults store.old) (S.faults store.new) (IsErrOf result Status.ReadFault) }
    ensures later { steps.old ≤ steps.new }
{
    let dump = read_input(alloc, store, dump, DUMP_LIMIT, Long::DumpBytes)?;
    let planner = load(alloc, dump, steps)?;
    let script = read_input(alloc, store, script, SCRIPT_LIMIT, Long::ScriptBytes);
    with_script(planner, script)
}

fn bytes_of(alloc: Global, text: &Text) -> Result<Vec<u8>, AllocError>
    ensures { IfOk result (λ bytes. bytes.items ≡ text.now) }
{
    text.as_str().as_bytes().to_vec(alloc)
}

/// Makes a sample, and loads its game.
///
/// # Errors
///
/// `BadDump` with the fault of its dump, or `NoMemory`.
pub fn make_ready<L>(
    alloc: Global,
    number: u32,
    size: u32,
    steps: &mut Steps<L>,
) -> Result<Ready, Status>
    requires some { 0 < size }
    requires few { size ≤ 20_000 }
    ensures ready { MatchResult result
        (λ ready. (shelf : Shelf) → IsReady shelf (Some (Sample number size)) ready.planner ready.script.items (steps.new - steps.old))
        (λ status. EndsLoading (sample_dump number size) status (steps.new - steps.old)) }
    ensures later { steps.old ≤ steps.new }
{
    let Ok(sample) = make_sample(alloc, number, size) else {
        return Err(Status::NoMemory);
    };
    let Ok(dump) = bytes_of(alloc, &sample.dump) else {
        return Err(Status::NoMemory);
    };
    let Ok(script) = bytes_of(alloc, &sample.script) else {
        return Err(Status::NoMemory);
    };
    let planner = load(alloc, dump, steps)?;
    Ok(Ready { planner, script })
}
