//! The way from the first basis, exchange by exchange.

ghost use Rattle.std.specs.Prelude.{◌≡◌, ℕ, ◌<◌, ◌≤◌, ◌+◌, ◌^◌, length, IfOk, slice_index};
ghost use Rattle.linear_table.specs.Plans.{good_count, column_count, IsWellFormed};
ghost use Rattle.linear_table.specs.Basis.{system_of};
ghost use Rattle.linear_table.specs.declared.Linear.{Linear};
ghost use Rattle.pivot_solver.specs.First.{width_of};
ghost use Rattle.pivot_solver.specs.Choice.{IsChosen, NextAt};
ghost use Rattle.pivot_solver.specs.Path.{IsPath, IsProgress, IsOutWith};
ghost use Rattle.pivot_solver.specs.Places.{IsInTableau, IsPlaceOf};

use crate::answers::{plan, refusal};
use crate::bland::choose;
use crate::exchange::pivot;
use crate::first::{first_cost_row, first_rows, unit_columns};
use crate::{Choice, WideAt};
use linear_table::{Exchange, Linear, Place, SolveAnswer};
use number_rows::NumberRow;
use plan_base::{Items, NoMemory};
use std::alloc::Global;

// The exchanges so far, and the tableau of the basis that they lead to.
#[derive(Drop)]
pub struct Path {
    pub basis: Vec<usize>,
    pub rows: Vec<NumberRow>,
    pub cost: NumberRow,
    pub trail: Vec<Exchange>,
}

// One exchange more, or the answer.
#[derive(Drop)]
pub enum Progress {
    On(Path),
    Done(SolveAnswer),
}

// The first basis.
pub fn first_path(
    alloc: Global,
    linear: &Linear,
    goods: usize,
    width: usize,
) -> Result<Path, NoMemory>
    requires well_formed { IsWellFormed linear.now }
    requires goods_is { goods ≡ good_count linear.now }
    requires width_is { width ≡ width_of linear.now }
    requires room { width + 1 < 2 ^ 64 }
    ensures { IfOk result (λ path. IsPath linear.now path × (length path.trail.items ≡ 0)) }
{
    let basis = unit_columns(alloc, goods)?;
    let rows = first_rows(alloc, linear, goods, width)?;
    let cost = first_cost_row(alloc, linear, goods, width)?;
    Ok(Path {
        basis,
        rows,
        cost,
        trail: Vec::new(alloc),
    })
}

// What the basis of a path calls for.
fn choice_on(linear: &Linear, path: &Path, goods: usize, width: usize) -> Choice
    ghost l: { Linear }
    requires linear_is { linear.now ≡ l }
    requires well_formed { IsWellFormed l }
    requires goods_is { goods ≡ good_count l }
    requires width_is { width ≡ width_of l }
    requires is_path { IsPath l path.now }
    ensures { IsChosen (system_of l) path.now.basis.items result }
{
    choose(&path.basis, &path.rows, &path.cost, goods, width)
}

// The place of a number in the tableau.
fn place_of(linear: &Linear, width: usize, at: WideAt) -> Place
    requires width_is { width ≡ width_of linear.now }
    requires inside { IsInTableau linear.now at }
    ensures { IsPlaceOf linear.now at result }
{
    match at {
        WideAt::Row(spot) => {
            if spot.place < width {
                Place::Entry {
                    column: linear.name_of_place(spot.place),
                    row: spot.row as u32,
                }
            } else {
                Place::Value {
                    row: spot.row as u32,
                }
            }
        }
        WideAt::Cost(place) => {
            if place < width {
                Place::Reduced {
                    column: linear.name_of_place(place),
                }
            } else {
                Place::Total
            }
        }
    }
}

// Makes an exchange, or answers what it forms wide.
fn advance(
    alloc: Global,
    linear: &Linear,
    path: Path,
    goods: usize,
    width: usize,
    row: usize,
    enter: usize,
) -> Result<Progress, NoMemory>
    requires well_formed { IsWellFormed linear.now }
    requires goods_is { goods ≡ good_count linear.now }
    requires goods_few { goods < 2 ^ 32 }
    requires width_is { width ≡ width_of linear.now }
    requires is_path { IsPath linear.now path }
    requires is_next { NextAt (system_of linear.now) path.basis.items row enter }
    ensures { IfOk result (λ progress. (budget : ℕ) → length path.trail.items < budget → IsProgress linear.now budget (length path.trail.items) progress) }
{
    let Path {
        mut basis,
        mut rows,
        mut cost,
        mut trail,
    } = path;
    let next = Exchange {
        enter: linear.name_of_place(enter),
        leave: linear.name_of_place(basis[row]),
    };
    match pivot(alloc, &mut rows, &mut cost, row, enter)? {
        Ok(()) => {
            basis[row] = enter;
            trail.push(next)?;
            Ok(Progress::On(Path {
                basis,
                rows,
                cost,
                trail,
            }))
        }
        Err(at) => Ok(Progress::Done(SolveAnswer::TooWide {
            trail: Items::from_vec(trail),
            next,
            place: place_of(linear, width, at),
        })),
    }
}

// The next exchange of a path, or the answer of its basis.
pub fn step(
    alloc: Global,
    linear: &Linear,
    path: Path,
    goods: usize,
    width: usize,
    budget: u32,
) -> Result<Progress, NoMemory>
    requires well_formed { IsWellFormed linear.now }
    requires goods_is { goods ≡ good_count linear.now }
    requires goods_few { goods < 2 ^ 32 }
    requires width_is { width ≡ width_of linear.now }
    requires is_path { IsPath linear.now path }
    requires within { length path.trail.items ≤ budget }
    ensures { IfOk result (IsProgress linear.now budget (length path.trail.items)) }
{
    match choice_on(linear, &path, goods, width) {
        Choice::Planned => {
            let plan = plan(alloc, linear, &path, goods, width)?;
            Ok(Progress::Done(SolveAnswer::Planned(plan)))
        }
        Choice::Infeasible(row) => {
            let prices = refusal(alloc, linear, &path, goods, row)?;
            Ok(Progress::Done(SolveAnswer::Infeasible(prices)))
        }
        Choice::Pivot { row, enter } => {
            if path.trail.len() < budget as usize {
                advance(alloc, linear, path, goods, width, row, enter)
            } else {
                Ok(Progress::Done(out_of_budget(path)))
            }
        }
    }
}

// The answer that the budget is used up.
fn out_of_budget(path: Path) -> SolveAnswer
    ensures { IsOutWith path.trail.items result }
{
    let Path { trail, .. } = path;
    SolveAnswer::OutOfBudget {
        trail: Items::from_vec(trail),
    }
}
