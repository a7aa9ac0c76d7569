//! Reads tables in their linear form, solves each, checks what was answered, and prints it.
//!
//! A table stands on lines of words, with numbers written `n` or `n/d`:
//!
//! ```text
//! table BUDGET GOODS               so many goods, and at most so many exchanges
//! wants NUMBER ..                  one per good
//! row PRICE PLACE NUMBER ..        a column that adds each number to the good at that place
//! import PRICE PLACE
//! surplus PRICE PLACE
//! solve
//! ```
//!
//! The answer is one line: `plan COST rates .. prices ..`, `infeasible ..`, `wide TRAIL next EXCHANGE` or `out TRAIL`. With
//! the word `time` it is the first two words and the nanoseconds that the solver took.
#![tactic(auto)]

use crate::lines::{line_of, time_line};
use crate::reading::{first_goods, place_of, read_column, read_numbers};
use anyhow::{Result, bail};
use fractions::Ratio;
use linear_table::{Linear, LinearColumn};
use pivot_solver::solve;
use plan_base::Items;
use std::alloc::Global;
use std::env;
use std::io::{BufRead, BufReader};
use std::rt::{Clock, Env};
use std::time::Instant;

mod lines;
mod reading;

// A table that is being read.
#[derive(Drop)]
struct Draft {
    budget: u32,
    goods: u32,
    columns: Vec<LinearColumn>,
    wants: Vec<Ratio>,
}

// A table of which only the first line was read.
fn begin(alloc: Global, words: &[&str]) -> Result<Draft> {
    let [budget, goods] = words else {
        bail!("a budget and a count of goods are wanted");
    };
    Ok(Draft {
        budget: place_of(budget)?,
        goods: place_of(goods)?,
        columns: Vec::new(alloc),
        wants: Vec::new(alloc),
    })
}

// Solves a table that was read.
fn answer<R: Clock + AllocGlobal>(rt: &R, draft: Draft, timed: bool) -> Result<String> {
    let alloc = rt.alloc();
    let Draft {
        budget,
        goods,
        columns,
        wants,
    } = draft;
    let linear = Linear {
        goods: Items::from_vec(first_goods(alloc, goods)?),
        columns: Items::from_vec(columns),
        wants: Items::from_vec(wants),
    };
    if !linear.is_well_formed() {
        bail!("the table is not well formed");
    }
    let start = Instant::now(rt)?;
    let Ok(answer) = solve(alloc, &linear, budget) else {
        bail!("out of memory");
    };
    let nanoseconds = start.elapsed(rt)?.as_nanos();
    if timed {
        time_line(alloc, &answer, nanoseconds)
    } else {
        line_of(alloc, &linear, &answer)
    }
}

// Whether the first word asks for times.
fn wants_times<R: Env + AllocGlobal>(rt: &R) -> Result<bool> {
    let mut words = env::args(rt)?;
    let _ = words.next();
    Ok(match words.next() {
        Some(word) => word.as_str() == "time",
        None => false,
    })
}

// A table with one line more.
fn with_line(alloc: Global, draft: Draft, kind: &str, words: &[&str]) -> Result<Draft> {
    let Draft {
        budget,
        goods,
        mut columns,
        wants,
    } = draft;
    if kind == "wants" {
        return Ok(Draft {
            budget,
            goods,
            columns,
            wants: read_numbers(alloc, words)?,
        });
    }
    let Ok(line) = u32::try_from(columns.len()) else {
        bail!("too many columns");
    };
    columns.push(read_column(alloc, kind, line, words)?)?;
    Ok(Draft {
        budget,
        goods,
        columns,
        wants,
    })
}

// What is being read after one line more, of which a table's last line prints the answer.
fn take_line<R: Clock + Print + AllocGlobal>(
    rt: &R,
    draft: Option<Draft>,
    kind: &str,
    words: &[&str],
    timed: bool,
) -> Result<Option<Draft>> {
    let alloc = rt.alloc();
    if kind == "table" {
        return Ok(Some(begin(alloc, words)?));
    }
    let Some(open) = draft else {
        bail!("no table was begun");
    };
    if kind == "solve" {
        let text = answer(rt, open, timed)?;
        rt.println(text)?;
        return Ok(None);
    }
    Ok(Some(with_line(alloc, open, kind, words)?))
}

fn main(rt: HostRuntime) -> Result<()> {
    let alloc = rt.alloc();
    let timed = wants_times(&rt)?;
    let mut draft: Option<Draft> = None;
    for line in BufReader::new(alloc, rt.reader())?.lines(alloc) {
        let line = line?;
        let words: Vec<&str> = line.split_whitespace().collect(alloc)?;
        if let [kind, rest @ ..] = words.as_slice() {
            draft = take_line(&rt, draft, kind, rest, timed)?;
        }
    }
    Ok(())
}
