//! The run of a script.
ghost use Rattle.std.specs.Prelude.{◌≡◌, ◌≤◌, []};
ghost use Rattle.plan_io.specs.Causes.{Rose};
ghost use Rattle.state_changes.specs.States.{State};
ghost use Rattle.planner_core.specs.Lines.{IsSessionOf};
ghost use Rattle.script_runner.specs.Leaves.{Leaves};
ghost use Rattle.script_runner.specs.Scripts.{EndsScript, is_cut};
ghost use Rattle.script_runner.specs.TrialLines.{TellsMany};

use crate::listening::Listener;
use crate::report::answer_lines;
use linear_table::SolveAnswer;
use plan_base::Steps;
use plan_io::{ScriptEnd, Sink, has_many_lines, write_all};
use planner_core::Planner;
use std::alloc::Global;

/// Tells that a script has more lines than it may.
pub fn tell_many_lines<K: Sink>(out: &mut K) -> ScriptEnd
    ensures tells { TellsMany (K.written out.old) (K.written out.new) result }
    ensures limit { K.limit out.new ≡ K.limit out.old }
    ensures later { K.faults out.old ≤ K.faults out.new }
    ensures failed { result ≡ ScriptEnd.WriteFault → Rose (K.faults out.old) (K.faults out.new) }
{
    match write_all(out, b"too long script lines\n") {
        Ok(()) => ScriptEnd::TooManyLines,
        Err(_) => ScriptEnd::WriteFault,
    }
}

/// Answers each line of a script by the planner, of which the listener hears, and writes its reply before the next line is answered. What the solver answered
/// is kept in `solved`, in the order of the lines.
pub fn run_script<K: Sink, W: Listener, L>(
    alloc: Global,
    planner: &mut Planner,
    script: &[u8],
    out: &mut K,
    listener: &mut W,
    solved: &mut Vec<SolveAnswer>,
    steps: &mut Steps<L>,
) -> ScriptEnd
    requires none_yet { solved.old.items ≡ [] }
    ensures leaves { Leaves (EndsScript planner.old script.now solved.new.items) is_cut (K.written out.old) (K.written out.new) steps.old steps.new result }
    ensures history { (base : State) → IsSessionOf base planner.old → IsSessionOf base planner.new }
    ensures limit { K.limit out.new ≡ K.limit out.old }
    ensures later { K.faults out.old ≤ K.faults out.new }
    ensures failed { result ≡ ScriptEnd.WriteFault → Rose (K.faults out.old) (K.faults out.new) }
{
    if has_many_lines(script) {
        return tell_many_lines(out);
    }
    answer_lines(alloc, planner, script, out, listener, solved, steps)
}
