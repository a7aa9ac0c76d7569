//! The lines of a script, checked against claims.
ghost use Rattle.std.specs.Prelude.{◌≡◌, ◌≤◌, if◌then◌else◌, length};
ghost use Rattle.plan_io.specs.Causes.{Rose};
ghost use Rattle.state_changes.specs.States.{State};
ghost use Rattle.planner_core.specs.Lines.{IsSessionOf};
ghost use Rattle.script_runner.specs.Checks.{EndsCheck};
ghost use Rattle.script_runner.specs.Leaves.{Leaves};
ghost use Rattle.plan_io.specs.Lines.{lines_of};
ghost use Rattle.script_runner.specs.Scripts.{is_cut};
ghost use Rattle.script_runner.specs.TrialLines.{TellsTally};

use crate::listening::Listener;
use crate::trial::judge_line;
use certificate_file::CertEntry;
use plan_base::Steps;
use plan_io::{Lines, ScriptEnd, Sink, write_all};
use planner_core::Planner;
use std::alloc::Global;

fn one_if(test: bool) -> u32
    ensures { result ≡ (if test then 1 else 0) }
{
    if test { 1 } else { 0 }
}

// Tells how many forms are proved, and answers how the script ends.
fn tell_tally<K: Sink>(
    alloc: Global,
    refused: bool,
    proved: u32,
    forms: u32,
    out: &mut K,
) -> ScriptEnd
    ensures tells { TellsTally refused proved forms (K.written out.old) (K.written out.new) result }
    ensures limit { K.limit out.new ≡ K.limit out.old }
    ensures later { K.faults out.old ≤ K.faults out.new }
    ensures failed { result ≡ ScriptEnd.WriteFault → Rose (K.faults out.old) (K.faults out.new) }
{
    let Ok(line) = format!(in alloc; "proved {proved} of {forms}\n") else {
        return ScriptEnd::NoMemory;
    };
    match write_all(out, line.as_bytes()) {
        Ok(()) => {
            if !refused && proved == forms {
                ScriptEnd::Done
            } else {
                ScriptEnd::SomeRefused
            }
        }
        Err(_) => ScriptEnd::WriteFault,
    }
}

/// Judges each line by the entries, and writes its verdict or its refusal before the next line is judged. Behind the last line it is
/// told how many of the linear forms are proved.
pub fn check_lines<K: Sink, W: Listener, L>(
    alloc: Global,
    planner: &mut Planner,
    script: &[u8],
    entries: &[CertEntry],
    out: &mut K,
    listener: &mut W,
    steps: &mut Steps<L>,
) -> ScriptEnd
    requires few { length (lines_of script.now) ≤ 100_000 }
    ensures leaves { Leaves (EndsCheck entries.now planner.old script.now) is_cut (K.written out.old) (K.written out.new) steps.old steps.new result }
    ensures history { (base : State) → IsSessionOf base planner.old → IsSessionOf base planner.new }
    ensures limit { K.limit out.new ≡ K.limit out.old }
    ensures later { K.faults out.old ≤ K.faults out.new }
    ensures failed { result ≡ ScriptEnd.WriteFault → Rose (K.faults out.old) (K.faults out.new) }
{
    let mut lines = Lines::behind(0, script);
    let mut refused = false;
    let mut proved: u32 = 0;
    let mut forms: u32 = 0;
    while let Some(line) = lines.next() {
        let note = match judge_line(
            alloc,
            planner,
            script,
            entries,
            line.number,
            line.bytes,
            listener,
            steps,
        ) {
            Ok(note) => note,
            Err(_) => return ScriptEnd::NoMemory,
        };
        match write_all(out, note.text.as_str().as_bytes()) {
            Ok(()) => {}
            Err(_) => return ScriptEnd::WriteFault,
        }
        refused |= note.refused;
        proved += one_if(note.proved);
        forms += one_if(note.form);
    }
    tell_tally(alloc, refused, proved, forms, out)
}
