//! What the solver answers in a run, and which of its answers are kept.
ghost use Rattle.std.specs.Prelude.{◌≡◌};

use crate::endings::Test;
use crate::memory::{Calls, WORDS, sink_of, store_of, texts_in};
use crate::texts::{DUMP, SCRIPT, TABLES};
use linear_table::SolveAnswer;
use plan_base::{Steps, Text};
use plan_io::{MemSink, MemStore, Store};
use planner_cli::run;
use script_runner::Silent;
use std::alloc::Global;
use std::test::Fail;

fn answers_of(
    alloc: Global,
    words: &[Text],
    store: &mut MemStore,
    out: &mut MemSink,
) -> Vec<SolveAnswer>
    requires { (⟦<MemStore as Store>⟧.begun store.old).calls ≡ 0 }
{
    let mut steps = Steps::new(Test);
    run(alloc, words, store, out, &mut Silent, &mut steps).answers
}

// What the solver answers in a run over a script, where one call of the sink fails.
fn solved(alloc: Global, script: &str, writes: u32) -> Option<Vec<SolveAnswer>> {
    let Ok(words) = texts_in(alloc, &WORDS) else {
        return None;
    };
    let files = [("d", DUMP.as_bytes()), ("s", script.as_bytes())];
    let Some(mut store) = store_of(alloc, &files, Calls::failing(0, 0)) else {
        return None;
    };
    let Some(mut out) = sink_of(alloc, Calls::failing(0, writes)) else {
        return None;
    };
    Some(answers_of(alloc, &words, &mut store, &mut out))
}

fn is_planned(answer: &SolveAnswer) -> bool {
    match answer {
        SolveAnswer::Planned(_) => true,
        _ => false,
    }
}

fn is_infeasible(answer: &SolveAnswer) -> bool {
    match answer {
        SolveAnswer::Infeasible(_) => true,
        _ => false,
    }
}

fn keeps_answers(alloc: Global) -> bool {
    match solved(alloc, TABLES, 0) {
        Some(answers) => match answers.as_slice() {
            [first, second, third] => {
                is_infeasible(first) && is_planned(second) && is_infeasible(third)
            }
            _ => false,
        },
        None => false,
    }
}

fn keeps_so_many(alloc: Global, script: &str, writes: u32, count: usize) -> bool {
    match solved(alloc, script, writes) {
        Some(answers) => answers.len() == count,
        None => false,
    }
}

#[test]
fn answers_of_the_solver_are_kept(rt: HostRuntime) -> Result<(), Fail> {
    assert!(rt; keeps_answers(rt.alloc()));
    Ok(())
}

// The third and the fifth line are solved; the sink fails at the second, the third and the fourth reply.
#[test]
fn answers_behind_the_last_reply_are_not_kept(rt: HostRuntime) -> Result<(), Fail> {
    let alloc = rt.alloc();
    assert!(rt; keeps_so_many(alloc, SCRIPT, 0, 0));
    assert!(rt; keeps_so_many(alloc, TABLES, 2, 0));
    assert!(rt; keeps_so_many(alloc, TABLES, 3, 1));
    assert!(rt; keeps_so_many(alloc, TABLES, 4, 1));
    Ok(())
}
