// The answers to a script.
ghost use Rattle.std.specs.Prelude.{◌≡◌, []};
ghost use Rattle.script_runner.specs.Leaves.{Leaves};
ghost use Rattle.script_runner.specs.Scripts.{is_cut};
ghost use Rattle.planner_cli.specs.Ending.{EndsAnswered};
ghost use Rattle.run_inputs.specs.Keeping.{KeepsSink};

use linear_table::SolveAnswer;
use plan_base::Steps;
use plan_io::{ScriptEnd, Sink};
use planner_core::Planner;
use run_inputs::Ready;
use script_runner::{Listener, prove_script, run_script};
use std::alloc::Global;

// Answers the script with a planner that is lent.
fn answer_lent<K: Sink, W: Listener, L>(
    alloc: Global,
    planner: &mut Planner,
    script: &[u8],
    prove: bool,
    out: &mut K,
    listener: &mut W,
    solved: &mut Vec<SolveAnswer>,
    steps: &mut Steps<L>,
) -> ScriptEnd
    requires none_yet { solved.old.items ≡ [] }
    ensures leaves { Leaves (EndsAnswered prove planner.old script.now solved.new.items) is_cut (K.written out.old) (K.written out.new) steps.old steps.new result }
    ensures sink { KeepsSink (K.limit out.old) (K.limit out.new) (K.faults out.old) (K.faults out.new) (result ≡ ScriptEnd.WriteFault) }
{
    listener.begins(planner);
    if prove {
        prove_script(alloc, planner, script, out, listener, solved, steps)
    } else {
        run_script(alloc, planner, script, out, listener, solved, steps)
    }
}

/// Answers each line of the script before the next, writes each reply or behind the last line their certificate, and keeps what the solver answers.
pub fn answer<K: Sink, W: Listener, L>(
    alloc: Global,
    ready: Ready,
    prove: bool,
    out: &mut K,
    listener: &mut W,
    solved: &mut Vec<SolveAnswer>,
    steps: &mut Steps<L>,
) -> ScriptEnd
    requires none_yet { solved.old.items ≡ [] }
    ensures leaves { Leaves (EndsAnswered prove ready.planner ready.script.items solved.new.items) is_cut (K.written out.old) (K.written out.new) steps.old steps.new result }
    ensures sink { KeepsSink (K.limit out.old) (K.limit out.new) (K.faults out.old) (K.faults out.new) (result ≡ ScriptEnd.WriteFault) }
{
    let Ready {
        mut planner,
        script,
    } = ready;
    answer_lent(
        alloc,
        &mut planner,
        &script,
        prove,
        out,
        listener,
        solved,
        steps,
    )
}
