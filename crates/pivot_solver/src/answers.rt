//! What a settled basis answers.

ghost use Rattle.std.specs.Prelude.{◌≡◌, ℕ, ◌<◌, ◌≤◌, ◌+◌, length, IfOk, slice_index};
ghost use Rattle.fractions.specs.Fraction.{negated};
ghost use Rattle.linear_table.specs.Plans.{good_count, column_count, number_at, IsWellFormed, AreInfeasibilityPrices};
ghost use Rattle.linear_table.specs.Basis.{system_of};
ghost use Rattle.linear_table.specs.Answer.{IsPlanned};
ghost use Rattle.pivot_solver.specs.First.{width_of};
ghost use Rattle.pivot_solver.specs.Rows.{row_at};
ghost use Rattle.pivot_solver.specs.Choice.{PlanAt, NoneAt};
ghost use Rattle.pivot_solver.specs.Path.{IsPath};
ghost use Rattle.pivot_solver.specs.Numbers.{IsBasicValue, ListsEach};

use crate::path::Path;
use fractions::Ratio;
use linear_table::{Linear, Plan};
use number_rows::NumberRow;
use plan_base::{Items, NoMemory};
use std::alloc::Global;

// The value of a column, 0 outside the basis.
fn basic_value(basis: &[usize], rows: &[NumberRow], width: usize, column: usize) -> Ratio
    requires sizes { length basis.now ≡ length rows.now }
    requires widths { (i : ℕ) → i < length rows.now → width < length (row_at rows.now i) }
    ensures { IsBasicValue basis.now rows.now width column result }
{
    for i in 0..basis.len() {
        if basis[i] == column {
            return rows[i].number(width);
        }
    }
    Ratio::zero()
}

// The values of the table's columns.
fn values(
    alloc: Global,
    basis: &[usize],
    rows: &[NumberRow],
    goods: usize,
    columns: usize,
    width: usize,
) -> Result<Vec<Ratio>, NoMemory>
    requires sizes { length basis.now ≡ length rows.now }
    requires widths { (i : ℕ) → i < length rows.now → width < length (row_at rows.now i) }
    requires width_is { goods + columns ≡ width }
    ensures { IfOk result (λ rates. ListsEach columns (λ j x. IsBasicValue basis.now rows.now width (goods + j) x) rates.items) }
{
    let mut rates = Vec::with_capacity(alloc, columns)?;
    for j in 0..columns {
        rates.push(basic_value(basis, rows, width, goods + j))?;
    }
    Ok(rates)
}

// The first numbers of a row with their signs turned.
fn turned(alloc: Global, row: &NumberRow, count: usize) -> Result<Vec<Ratio>, NoMemory>
    requires { count ≤ length row.now.items }
    ensures { IfOk result (λ prices. ListsEach count (λ g x. x ≡ negated (number_at row.now.items g)) prices.items) }
{
    let mut prices = Vec::with_capacity(alloc, count)?;
    for g in 0..count {
        prices.push(row.number(g).neg())?;
    }
    Ok(prices)
}

// The first numbers of a row.
fn front(alloc: Global, row: &NumberRow, count: usize) -> Result<Vec<Ratio>, NoMemory>
    requires { count ≤ length row.now.items }
    ensures { IfOk result (λ prices. ListsEach count (λ g x. x ≡ number_at row.now.items g) prices.items) }
{
    let mut prices = Vec::with_capacity(alloc, count)?;
    for g in 0..count {
        prices.push(row.number(g))?;
    }
    Ok(prices)
}

// The plan of a basis that shows one.
pub fn plan(
    alloc: Global,
    linear: &Linear,
    path: &Path,
    goods: usize,
    width: usize,
) -> Result<Plan, NoMemory>
    requires well_formed { IsWellFormed linear.now }
    requires goods_is { goods ≡ good_count linear.now }
    requires width_is { width ≡ width_of linear.now }
    requires is_path { IsPath linear.now path.now }
    requires shows { PlanAt (system_of linear.now) path.now.basis.items }
    ensures { IfOk result (IsPlanned linear.now) }
{
    let rates = values(alloc, &path.basis, &path.rows, goods, width - goods, width)?;
    let prices = turned(alloc, &path.cost, goods)?;
    Ok(Plan {
        rates: Items::from_vec(rates),
        cost: path.cost.number(width).neg(),
        prices: Items::from_vec(prices),
    })
}

// The prices of a row that shows that there is no plan.
pub fn refusal(
    alloc: Global,
    linear: &Linear,
    path: &Path,
    goods: usize,
    row: usize,
) -> Result<Items<Ratio>, NoMemory>
    requires well_formed { IsWellFormed linear.now }
    requires goods_is { goods ≡ good_count linear.now }
    requires is_path { IsPath linear.now path.now }
    requires shows { NoneAt (system_of linear.now) path.now.basis.items row }
    ensures { IfOk result (AreInfeasibilityPrices linear.now) }
{
    let prices = front(alloc, &path.rows[row], goods)?;
    Ok(Items::from_vec(prices))
}
