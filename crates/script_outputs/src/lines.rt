//! The lines of a script, one after another.

use crate::fault::OutputFault;
use plan_base::{NoMemory, Steps};
use plan_io::{Lines, has_many_lines};
use plan_lines::{Command, Reply};
use planner_core::Planner;
use script_runner::{is_refusal, reading_of, reply_to};
use std::alloc::Global;

/// What is done with each line of a script.
pub trait LineWork {
    /// Does it. Answers whether the line is refused.
    ///
    /// # Errors
    ///
    /// Why no further line is answered.
    fn take_line<L>(
        &mut self,
        alloc: Global,
        planner: &mut Planner,
        number: u32,
        line: &[u8],
        steps: &mut Steps<L>,
    ) -> Result<bool, OutputFault>;
}

/// Takes the lines of a script in turn. Answers whether some line is refused.
///
/// # Errors
///
/// `TooManyLines` where the script has more than 100,000 lines, before the first is taken, or why a line is the last that is taken.
pub fn over_lines<W: LineWork, L>(
    alloc: Global,
    planner: &mut Planner,
    script: &[u8],
    work: &mut W,
    steps: &mut Steps<L>,
) -> Result<bool, OutputFault> {
    if has_many_lines(script) {
        return Err(OutputFault::TooManyLines);
    }
    let mut lines = Lines::behind(0, script);
    let mut refused = false;
    while let Some(line) = lines.next() {
        refused |= work.take_line(alloc, planner, line.number, line.bytes, steps)?;
    }
    Ok(refused)
}

/// The reply to a line.
///
/// # Errors
///
/// `NoMemory` where memory could not be had.
pub fn answered<L>(
    alloc: Global,
    planner: &mut Planner,
    number: u32,
    line: &[u8],
    steps: &mut Steps<L>,
) -> Result<Reply, NoMemory> {
    let reading = reading_of(alloc, line)?;
    reply_to(planner, number, reading, steps)
}

// Each line is carried out, and nothing is told of it.
#[derive(Drop)]
struct Silence;

impl LineWork for Silence {
    fn take_line<L>(
        &mut self,
        alloc: Global,
        planner: &mut Planner,
        number: u32,
        line: &[u8],
        steps: &mut Steps<L>,
    ) -> Result<bool, OutputFault> {
        let reply = answered(alloc, planner, number, line, steps)?;
        Ok(is_refusal(&reply))
    }
}

// Closes a batch that is open. What it holds isn't done.
fn close_batch<L>(planner: &mut Planner, steps: &mut Steps<L>) -> Result<(), NoMemory> {
    let number = 0;
    let _reply = planner.step(number, Command::Cancel, steps)?;
    Ok(())
}

/// Carries out the lines of a script with nothing told of them, and closes a batch that is open behind them. Answers whether some line is refused.
///
/// # Errors
///
/// `TooManyLines` where the script has more than 100,000 lines, or `NoMemory`.
pub fn carry_out<L>(
    alloc: Global,
    planner: &mut Planner,
    script: &[u8],
    steps: &mut Steps<L>,
) -> Result<bool, OutputFault> {
    let refused = over_lines(alloc, planner, script, &mut Silence, steps)?;
    close_batch(planner, steps)?;
    Ok(refused)
}
