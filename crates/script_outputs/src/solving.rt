//! A table is solved anew behind the last line of a script.

use crate::fault::OutputFault;
use linear_table::SolveAnswer;
use plan_base::{NoMemory, Steps, Text};
use plan_lines::{Command, RefusalCode, Reply};
use planner_core::Planner;
use std::alloc::Global;

// The most exchanges of columns.
const BUDGET: u32 = 20_000;

/// The reply to the command that solves the table of a name.
///
/// # Errors
///
/// `NoMemory` where memory could not be had.
pub fn solved<L>(
    alloc: Global,
    planner: &mut Planner,
    name: &str,
    steps: &mut Steps<L>,
) -> Result<Reply, NoMemory> {
    let number = 0;
    let table = Text::copy(alloc, name)?;
    let solve = Command::Solve {
        table,
        budget: BUDGET,
    };
    planner.step(number, solve, steps)
}

/// Why an answer of the solver is no plan.
pub fn fault_of_answer(answer: &SolveAnswer) -> OutputFault {
    match answer {
        SolveAnswer::Infeasible(_) => OutputFault::NoPlan,
        _ => OutputFault::Unsolved,
    }
}

/// Why a refusal is no plan.
pub fn fault_of_code(code: RefusalCode) -> OutputFault {
    match code {
        RefusalCode::P1 => OutputFault::NoTable,
        _ => OutputFault::Unsolved,
    }
}
