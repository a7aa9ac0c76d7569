//! What the rows of a plan take.
ghost use Rattle.std.specs.Prelude.{◌≡◌, map, IfOk, Ok};
ghost use Rattle.planner_tables.specs.Figures.{answer_figures, ceiling, figures_at, nothing, plus, product, rounded_up, rows_figures, summed, times, total, with_figures};

use fractions::Ratio;
use game_types::{Effects, Rates};
use linear_table::SolveAnswer;
use plan_base::{Items, NoMemory};
use plan_lines::Figures;
use std::alloc::Global;

// The product, within the limits of fractions.
fn product(left: &Ratio, right: &Ratio) -> Option<Ratio>
    ensures { result ≡ product left.now right.now }
{
    match left.mul(right) {
        Ok(value) => Some(value),
        Err(_) => None,
    }
}

// The sum, within the limits of fractions.
fn total(left: &Ratio, right: &Ratio) -> Option<Ratio>
    ensures { result ≡ total left.now right.now }
{
    match left.add(right) {
        Ok(value) => Some(value),
        Err(_) => None,
    }
}

fn times(left: &Option<Ratio>, right: &Ratio) -> Option<Ratio>
    ensures { result ≡ times left.now right.now }
{
    match left {
        Some(left) => product(left, right),
        None => None,
    }
}

fn plus(left: &Option<Ratio>, right: &Option<Ratio>) -> Option<Ratio>
    ensures { result ≡ plus left.now right.now }
{
    match left {
        Some(left) => match right {
            Some(right) => total(left, right),
            None => None,
        },
        None => None,
    }
}

// The least whole number that isn't below.
fn ceiling(number: &Ratio) -> Ratio
    ensures { result ≡ ceiling number.now }
{
    number.ceil()
}

fn rounded_up(figure: &Option<Ratio>) -> Option<Ratio>
    ensures { result ≡ rounded_up figure.now }
{
    match figure {
        Some(number) => Some(ceiling(number)),
        None => None,
    }
}

// What a row takes at a rate, of its rates and the power of its beacons for one craft a second.
fn figures_at(rate: &Ratio, row: &(Effects, Rates, Ratio)) -> Figures
    ensures { result ≡ figures_at rate.now row.now }
{
    let machines = product(rate, &row.1.machines);
    let count = rounded_up(&machines);
    Figures {
        machines,
        count,
        power: product(rate, &row.1.power),
        drain: times(&count, &row.1.drain),
        beacons: times(&count, &row.2),
        pollution: product(rate, &row.1.pollution),
    }
}

#[tactic(auto, using(crate::proofs::FigureLemmas::figures_next, crate::proofs::FigureLemmas::figures_end, crate::proofs::FigureLemmas::figures_over))]
// What each row takes, at the first of some rates.
fn rows_figures(
    alloc: Global,
    rows: &[(Effects, Rates, Ratio)],
    rates: &[Ratio],
) -> Result<Items<Figures>, NoMemory>
    ensures { IfOk result (λ figures. figures ≡ rows_figures (map Ok rows.now) rates.now) }
{
    let mut figures = Vec::new(alloc);
    for i in 0..rows.len() {
        let Some(rate) = rates.get(i) else {
            return Ok(Items::from_vec(figures));
        };
        figures.push(figures_at(rate, &rows[i]))?;
    }
    Ok(Items::from_vec(figures))
}

fn nothing() -> Figures
    ensures { result ≡ nothing }
{
    Figures {
        machines: Some(Ratio::zero()),
        count: Some(Ratio::zero()),
        power: Some(Ratio::zero()),
        drain: Some(Ratio::zero()),
        beacons: Some(Ratio::zero()),
        pollution: Some(Ratio::zero()),
    }
}

fn with_figures(sum: &Figures, row: &Figures) -> Figures
    ensures { result ≡ with_figures sum.now row.now }
{
    Figures {
        machines: sum.machines,
        count: sum.count,
        power: plus(&sum.power, &row.power),
        drain: plus(&sum.drain, &row.drain),
        beacons: plus(&sum.beacons, &row.beacons),
        pollution: plus(&sum.pollution, &row.pollution),
    }
}

#[tactic(auto, using(crate::proofs::FigureLemmas::summed_next, crate::proofs::FigureLemmas::summed_end))]
/// What all rows take.
pub(crate) fn summed(rows: &[Figures]) -> Figures
    ensures { result ≡ summed nothing rows.now }
{
    let mut sum = nothing();
    for row in rows {
        sum = with_figures(&sum, row);
    }
    sum
}

/// What each row takes in a plan, of the rates of each row and the power of its beacons for one craft a second; nothing where
/// there is none.
pub(crate) fn answer_figures(
    alloc: Global,
    rows: &[(Effects, Rates, Ratio)],
    answer: &SolveAnswer,
) -> Result<Items<Figures>, NoMemory>
    ensures { IfOk result (λ figures. figures ≡ answer_figures (map Ok rows.now) answer.now) }
{
    match answer {
        SolveAnswer::Planned(plan) => rows_figures(alloc, rows, plan.rates.as_slice()),
        SolveAnswer::Infeasible(_) => Ok(Items::from_vec(Vec::new(alloc))),
        SolveAnswer::TooWide { .. } => Ok(Items::from_vec(Vec::new(alloc))),
        SolveAnswer::OutOfBudget { .. } => Ok(Items::from_vec(Vec::new(alloc))),
    }
}
