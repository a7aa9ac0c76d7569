//! The replies to the lines of a script.
ghost use Rattle.std.specs.Prelude.{◌≡◌, ◌≤◌, [], length};
ghost use Rattle.plan_io.specs.Causes.{Rose};
ghost use Rattle.state_changes.specs.States.{State};
ghost use Rattle.planner_core.specs.Lines.{IsSessionOf};
ghost use Rattle.script_runner.specs.Leaves.{Leaves};
ghost use Rattle.plan_io.specs.Lines.{lines_of};
ghost use Rattle.script_runner.specs.Scripts.{is_cut, EndsScript};

use crate::answer::answer_line;
use crate::listening::Listener;
use crate::solutions::keep;
use linear_table::SolveAnswer;
use plan_base::Steps;
use plan_io::{Lines, ScriptEnd, Sink, write_all};
use planner_core::Planner;
use std::alloc::Global;

/// Answers each line, and writes its reply before the next line is answered.
pub fn answer_lines<K: Sink, W: Listener, L>(
    alloc: Global,
    planner: &mut Planner,
    script: &[u8],
    out: &mut K,
    listener: &mut W,
    solved: &mut Vec<SolveAnswer>,
    steps: &mut Steps<L>,
) -> ScriptEnd
    requires none_yet { solved.old.items ≡ [] }
    requires few { length (lines_of script.now) ≤ 100_000 }
    ensures leaves { Leaves (EndsScript planner.old script.now solved.new.items) is_cut (K.written out.old) (K.written out.new) steps.old steps.new result }
    ensures history { (base : State) → IsSessionOf base planner.old → IsSessionOf base planner.new }
    ensures limit { K.limit out.new ≡ K.limit out.old }
    ensures later { K.faults out.old ≤ K.faults out.new }
    ensures failed { result ≡ ScriptEnd.WriteFault → Rose (K.faults out.old) (K.faults out.new) }
{
    let mut lines = Lines::behind(0, script);
    let mut refused = false;
    while let Some(line) = lines.next() {
        let told = match answer_line(
            alloc,
            planner,
            script,
            line.number,
            line.bytes,
            listener,
            steps,
        ) {
            Ok(told) => told,
            Err(_) => return ScriptEnd::NoMemory,
        };
        match keep(solved, told.solved) {
            Ok(()) => {}
            Err(_) => return ScriptEnd::NoMemory,
        }
        match write_all(out, told.text.as_str().as_bytes()) {
            Ok(()) => {}
            Err(_) => return ScriptEnd::WriteFault,
        }
        refused |= told.refused;
    }
    if refused {
        ScriptEnd::SomeRefused
    } else {
        ScriptEnd::Done
    }
}
