//! The certificate of a script.
ghost use Rattle.std.specs.Prelude.{◌≡◌, ◌≤◌, ◌++◌, ◌∷◌, [], codes, MatchResult, IfOk, OnOk, OnErr, length, option_map, option_to_list};
ghost use Rattle.std.specs.Io.KnownBytes.{Appends};
ghost use Rattle.plan_io.specs.Causes.{HasCause, Rose};
ghost use Rattle.plan_io.specs.Writing.{AppendsFront};
ghost use Rattle.state_changes.specs.States.{State};
ghost use Rattle.planner_core.specs.Lines.{IsSessionOf};
ghost use Rattle.script_runner.specs.Certificates.{claim_of, end_of, EndsProof, entry_for, IsEntered, IsEnteredInPart};
ghost use Rattle.script_runner.specs.Leaves.{Leaves};
ghost use Rattle.plan_io.specs.Lines.{lines_of};
ghost use Rattle.script_runner.specs.Scripts.{is_cut};

use crate::answer::answer_line;
use crate::listening::Listener;
use crate::run::tell_many_lines;
use crate::solutions::keep;
use certificate_file::{CertEntry, Claim, write_cert};
use fractions::Ratio;
use linear_table::{Plan, SolveAnswer};
use plan_base::{Items, NoMemory, Steps, Text};
use plan_io::{Failed, Lines, ScriptEnd, Sink, has_many_lines, write_all};
use planner_core::Planner;
use state_changes::put;
use std::alloc::Global;

fn copied(alloc: Global, fractions: &[Ratio]) -> Result<Items<Ratio>, NoMemory>
    ensures { IfOk result (λ copy. copy ≡ fractions.now) }
{
    let mut copy = Vec::new(alloc);
    copy.extend_from_slice(fractions)?;
    Ok(Items::from_vec(copy))
}

fn copied_plan(alloc: Global, plan: &Plan) -> Result<Plan, NoMemory>
    ensures { IfOk result (λ copy. copy ≡ plan.now) }
{
    let rates = copied(alloc, plan.rates.as_slice())?;
    let cost = plan.cost;
    let prices = copied(alloc, plan.prices.as_slice())?;
    Ok(Plan {
        rates,
        cost,
        prices,
    })
}

// What an answer of the solver claims.
fn claim_of(alloc: Global, answer: &SolveAnswer) -> Result<Claim, NoMemory>
    ensures { IfOk result (λ claim. claim ≡ claim_of answer.now) }
{
    match answer {
        SolveAnswer::Planned(plan) => Ok(Claim::Planned(copied_plan(alloc, plan)?)),
        SolveAnswer::Infeasible(prices) => {
            Ok(Claim::Infeasible(copied(alloc, prices.as_slice())?))
        }
        _ => Ok(Claim::Unsettled),
    }
}

// The entry for a line that the solver answered.
fn entry_for(alloc: Global, number: u32, answer: &SolveAnswer) -> Result<CertEntry, NoMemory>
    ensures { IfOk result (λ entry. entry ≡ entry_for number answer.now) }
{
    let claim = claim_of(alloc, answer)?;
    Ok(CertEntry {
        line: number,
        claim,
    })
}

// Enters what the solver answered to a line, where it did.
fn enter(
    alloc: Global,
    entries: &mut Vec<CertEntry>,
    number: u32,
    answer: &Option<SolveAnswer>,
) -> Result<(), NoMemory>
    ensures { OnOk result (entries.new.items ≡ entries.old.items ++ option_to_list (option_map (entry_for number) answer.now)) }
{
    let Some(answer) = answer else {
        return Ok(());
    };
    let entry = entry_for(alloc, number, answer)?;
    if entries.reserve(1).is_err() {
        return Err(NoMemory);
    }
    put(entries, entry);
    Ok(())
}

// Answers each line, and enters what the solver answers. Answers whether some reply is a refusal.
fn answer_all<W: Listener, L>(
    alloc: Global,
    planner: &mut Planner,
    script: &[u8],
    listener: &mut W,
    solved: &mut Vec<SolveAnswer>,
    entries: &mut Vec<CertEntry>,
    steps: &mut Steps<L>,
) -> Result<bool, NoMemory>
    requires none_yet { solved.old.items ≡ [] }
    requires none_entered { entries.old.items ≡ [] }
    requires few { length (lines_of script.now) ≤ 100_000 }
    ensures all { MatchResult result
        (λ refused. IsEntered refused planner.old script.now solved.new.items entries.new.items steps.old steps.new)
        (λ _. IsEnteredInPart planner.old script.now solved.new.items) }
    ensures history { (base : State) → IsSessionOf base planner.old → IsSessionOf base planner.new }
    ensures later { steps.old ≤ steps.new }
{
    let mut lines = Lines::behind(0, script);
    let mut refused = false;
    while let Some(line) = lines.next() {
        let told = match answer_line(
            alloc,
            planner,
            script,
            line.number,
            line.bytes,
            listener,
            steps,
        ) {
            Ok(told) => told,
            Err(_) => return Err(NoMemory),
        };
        match enter(alloc, entries, line.number, &told.solved) {
            Ok(()) => {}
            Err(_) => return Err(NoMemory),
        }
        match keep(solved, told.solved) {
            Ok(()) => {}
            Err(_) => return Err(NoMemory),
        }
        refused |= told.refused;
    }
    Ok(refused)
}

// Writes a certificate and a newline behind it.
fn tell_certificate<K: Sink>(text: &Text, out: &mut K) -> Result<(), Failed>
    ensures ok { OnOk result (Appends (K.written out.old) (K.written out.new) (text.now ++ codes "\n")) }
    ensures err { OnErr result (AppendsFront (K.written out.old) (K.written out.new) (text.now ++ codes "\n")) }
    ensures limit { K.limit out.new ≡ K.limit out.old }
    ensures cause { HasCause (K.faults out.old) (K.faults out.new) result }
{
    match write_all(out, text.as_str().as_bytes()) {
        Ok(()) => write_all(out, b"\n"),
        Err(failed) => Err(failed),
    }
}

/// Answers each line of a script by the planner, and writes its certificate when the last line is answered: for each line that the
/// solver answered the plan or the prices. What the solver answered is kept in `solved`, in the order of the lines.
pub fn prove_script<K: Sink, W: Listener, L>(
    alloc: Global,
    planner: &mut Planner,
    script: &[u8],
    out: &mut K,
    listener: &mut W,
    solved: &mut Vec<SolveAnswer>,
    steps: &mut Steps<L>,
) -> ScriptEnd
    requires none_yet { solved.old.items ≡ [] }
    ensures leaves { Leaves (EndsProof planner.old script.now solved.new.items) is_cut (K.written out.old) (K.written out.new) steps.old steps.new result }
    ensures history { (base : State) → IsSessionOf base planner.old → IsSessionOf base planner.new }
    ensures limit { K.limit out.new ≡ K.limit out.old }
    ensures later { K.faults out.old ≤ K.faults out.new }
    ensures failed { result ≡ ScriptEnd.WriteFault → Rose (K.faults out.old) (K.faults out.new) }
{
    if has_many_lines(script) {
        return tell_many_lines(out);
    }
    let mut entries = Vec::new(alloc);
    let refused = match answer_all(
        alloc,
        planner,
        script,
        listener,
        solved,
        &mut entries,
        steps,
    ) {
        Ok(refused) => refused,
        Err(_) => return ScriptEnd::NoMemory,
    };
    let Ok(text) = write_cert(alloc, entries.as_slice()) else {
        return ScriptEnd::NoMemory;
    };
    match tell_certificate(&text, out) {
        Ok(()) => end_of(refused),
        Err(_) => ScriptEnd::WriteFault,
    }
}

fn end_of(refused: bool) -> ScriptEnd
    ensures { result ≡ end_of refused }
{
    if refused {
        ScriptEnd::SomeRefused
    } else {
        ScriptEnd::Done
    }
}
