//! Answers as lines.

ghost use Rattle.linear_table.specs.Plans.{IsWellFormed};

use anyhow::{Result, bail};
use fractions::Ratio;
use linear_table::{Column, Exchange, Linear, SolveAnswer};
use plan_base::GoodId;
use plan_certificate::{check_infeasible, check_plan, check_prices};
use std::alloc::Global;

// A number as it is printed.
fn text_of(alloc: Global, number: &Ratio) -> Result<String> {
    let Ok(text) = number.print(alloc) else {
        bail!("out of memory");
    };
    let copy = String::from_str(alloc, text.as_str())?;
    Ok(copy)
}

// Adds numbers to a line.
fn add_numbers(alloc: Global, out: &mut String, numbers: &[Ratio]) -> Result<()> {
    for number in numbers {
        let text = text_of(alloc, number)?;
        out.push_str(" ")?;
        out.push_str(text.as_str())?;
    }
    Ok(())
}

// The name of a column in a line.
fn name_of(alloc: Global, column: Column) -> Result<String> {
    let name = match column {
        Column::Line(line) => format!(in alloc; "r{line}")?,
        Column::Import(GoodId(good)) => format!(in alloc; "i{good}")?,
        Column::Surplus(GoodId(good)) => format!(in alloc; "s{good}")?,
        Column::Unit(GoodId(good)) => format!(in alloc; "u{good}")?,
    };
    Ok(name)
}

// Adds an exchange to a line.
fn add_exchange(alloc: Global, out: &mut String, exchange: Exchange) -> Result<()> {
    let enter = name_of(alloc, exchange.enter)?;
    let leave = name_of(alloc, exchange.leave)?;
    out.push_str(" ")?;
    out.push_str(enter.as_str())?;
    out.push_str(">")?;
    out.push_str(leave.as_str())?;
    Ok(())
}

// Adds a trail to a line.
fn add_trail(alloc: Global, out: &mut String, trail: &[Exchange]) -> Result<()> {
    for exchange in trail {
        add_exchange(alloc, out, *exchange)?;
    }
    Ok(())
}

// The line of an answer, with a word at the end for what the checkers say of it.
pub(crate) fn line_of(alloc: Global, linear: &Linear, answer: &SolveAnswer) -> Result<String>
    requires { IsWellFormed linear.now }
{
    let mut out = String::new(alloc);
    match answer {
        SolveAnswer::Planned(plan) => {
            out.push_str("plan")?;
            add_numbers(alloc, &mut out, &[plan.cost])?;
            out.push_str(" rates")?;
            add_numbers(alloc, &mut out, plan.rates.as_slice())?;
            out.push_str(" prices")?;
            add_numbers(alloc, &mut out, plan.prices.as_slice())?;
            if check_plan(linear, plan).is_ok() && check_prices(linear, plan).is_ok() {
                out.push_str(" checked")?;
            }
        }
        SolveAnswer::Infeasible(prices) => {
            out.push_str("infeasible")?;
            add_numbers(alloc, &mut out, prices.as_slice())?;
            if check_infeasible(linear, prices.as_slice()).is_ok() {
                out.push_str(" checked")?;
            }
        }
        SolveAnswer::TooWide { trail, next, .. } => {
            out.push_str("wide")?;
            add_trail(alloc, &mut out, trail.as_slice())?;
            out.push_str(" next")?;
            add_exchange(alloc, &mut out, *next)?;
        }
        SolveAnswer::OutOfBudget { trail } => {
            out.push_str("out")?;
            add_trail(alloc, &mut out, trail.as_slice())?;
        }
    }
    Ok(out)
}

// The line of an answer with the time that it took in place of its numbers.
pub(crate) fn time_line(alloc: Global, answer: &SolveAnswer, nanoseconds: u128) -> Result<String> {
    let mut out = String::new(alloc);
    match answer {
        SolveAnswer::Planned(plan) => {
            out.push_str("plan")?;
            add_numbers(alloc, &mut out, &[plan.cost])?;
        }
        SolveAnswer::Infeasible(_) => out.push_str("infeasible 0")?,
        SolveAnswer::TooWide { .. } => out.push_str("wide 0")?,
        SolveAnswer::OutOfBudget { .. } => out.push_str("out 0")?,
    }
    let time = format!(in alloc; " {nanoseconds}")?;
    out.push_str(time.as_str())?;
    Ok(out)
}
