//! The first tableau of a linear form.

ghost use Rattle.std.specs.Prelude.{◌≡◌, ◌+◌, ◌<◌, ◌≤◌, ◌^◌, length, IfOk};
ghost use Rattle.fractions.specs.Limits.{IsNarrow};
ghost use Rattle.linear_table.specs.Plans.{good_count, column_count, number_at};
ghost use Rattle.linear_table.specs.Trail.{count_up};
ghost use Rattle.pivot_solver.specs.First.{width_of, first_number, first_cost, ListsNumbers, ListsRows};

use fractions::Ratio;
use linear_table::Linear;
use number_rows::NumberRow;
use plan_base::NoMemory;
use std::alloc::Global;

// A number, of which the caller learns that it is within the limits.
fn within_limits(number: Ratio) -> Ratio
    ensures same { result ≡ number }
    ensures narrow { IsNarrow result }
{
    let _ = number.numerator();
    let _ = number.denominator();
    number
}

// The number at a place of a good's row: its part of each column, and what is wanted of it.
fn number_of_row(linear: &Linear, goods: usize, width: usize, good: usize, place: usize) -> Ratio
    requires goods_is { goods ≡ good_count linear.now }
    requires width_is { width ≡ width_of linear.now }
    requires wants { length linear.now.wants ≡ good_count linear.now }
    requires good { good < goods }
    ensures { result ≡ first_number linear.now good place }
{
    if place >= width {
        linear.want(good)
    } else if place >= goods {
        linear.part(place - goods, good)
    } else if place == good {
        Ratio::one()
    } else {
        Ratio::zero()
    }
}

// The number at a place of the last row: the price of each column, and the total.
fn number_of_cost(linear: &Linear, goods: usize, width: usize, place: usize) -> Ratio
    requires goods_is { goods ≡ good_count linear.now }
    requires width_is { width ≡ width_of linear.now }
    ensures { result ≡ first_cost linear.now place }
{
    if place < width && place >= goods {
        linear.price(place - goods)
    } else {
        Ratio::zero()
    }
}

// A good's row.
fn first_row(
    alloc: Global,
    linear: &Linear,
    goods: usize,
    width: usize,
    good: usize,
) -> Result<NumberRow, NoMemory>
    requires goods_is { goods ≡ good_count linear.now }
    requires width_is { width ≡ width_of linear.now }
    requires wants { length linear.now.wants ≡ good_count linear.now }
    requires good { good < goods }
    requires room { width + 1 < 2 ^ 64 }
    ensures { IfOk result (λ row. ListsNumbers (width + 1) (first_number linear.now good) row.items) }
{
    let mut row = Vec::with_capacity(alloc, width + 1)?;
    for place in 0..width + 1 {
        row.push(within_limits(number_of_row(linear, goods, width, good, place)))?;
    }
    NumberRow::from_numbers(alloc, row)
}

// The last row.
pub fn first_cost_row(
    alloc: Global,
    linear: &Linear,
    goods: usize,
    width: usize,
) -> Result<NumberRow, NoMemory>
    requires goods_is { goods ≡ good_count linear.now }
    requires width_is { width ≡ width_of linear.now }
    requires room { width + 1 < 2 ^ 64 }
    ensures { IfOk result (λ row. ListsNumbers (width + 1) (first_cost linear.now) row.items) }
{
    let mut row = Vec::with_capacity(alloc, width + 1)?;
    for place in 0..width + 1 {
        row.push(within_limits(number_of_cost(linear, goods, width, place)))?;
    }
    NumberRow::from_numbers(alloc, row)
}

// The row of each good.
pub fn first_rows(
    alloc: Global,
    linear: &Linear,
    goods: usize,
    width: usize,
) -> Result<Vec<NumberRow>, NoMemory>
    requires goods_is { goods ≡ good_count linear.now }
    requires width_is { width ≡ width_of linear.now }
    requires wants { length linear.now.wants ≡ good_count linear.now }
    requires room { width + 1 < 2 ^ 64 }
    ensures { IfOk result (λ rows. ListsRows linear.now goods rows.items) }
{
    let mut rows = Vec::with_capacity(alloc, goods)?;
    for good in 0..goods {
        rows.push(first_row(alloc, linear, goods, width, good)?)?;
    }
    Ok(rows)
}

// The unit columns in the order of goods.
pub fn unit_columns(alloc: Global, goods: usize) -> Result<Vec<usize>, NoMemory>
    ensures { IfOk result (λ basis. basis.items ≡ count_up 0 goods) }
{
    let mut basis = Vec::with_capacity(alloc, goods)?;
    for good in 0..goods {
        basis.push(good)?;
    }
    Ok(basis)
}
