//! Bland's rule: what the basis of a tableau calls for.

ghost use Rattle.std.specs.Prelude.{◌≡◌, ℕ, ◌<◌, ◌+◌, length, ◌≤◌, MatchOption, slice_index};
ghost use Rattle.fractions.specs.Fraction.{zero_fraction, ◌<ʳ◌};
ghost use Rattle.pivot_solver.specs.Search.{NoNumber};
ghost use Rattle.pivot_solver.specs.Aim.{NoAimRow, IsAimRow, IsZeroAt};
ghost use Rattle.pivot_solver.specs.Settled.{IsNoneRow, AreUnitsEmpty};
ghost use Rattle.std.specs.Bool.{OnTrue, OnFalse};
ghost use Rattle.pivot_solver.specs.Rows.{row_at};
ghost use Rattle.pivot_solver.specs.Tableau.{IsTableau, TableauOf};
ghost use Rattle.pivot_solver.specs.Choice.{IsChosen};
ghost use Rattle.linear_table.specs.System.{System, IsSound, Entries, AreEntries};
ghost use Rattle.linear_table.specs.Trail.{IsSettled, HasValues};

use crate::Choice;
use crate::ratio_test::least_row;
use crate::signs::{first_above, first_below, first_nonzero, is_above};
use number_rows::NumberRow;

// Whether the row at i is of a unit column and has a number other than 0 at a column of the table.
fn may_aim(basis: &[usize], rows: &[NumberRow], goods: usize, columns: usize, i: usize) -> bool
    requires sizes { length basis.now ≡ length rows.now }
    requires inside { i < length rows.now }
    requires width { columns ≤ length (row_at rows.now i) }
    ensures yes { OnTrue result ((slice_index basis.now i < goods) × ¬ IsZeroAt rows.now goods columns i) }
    ensures not { OnFalse result (slice_index basis.now i < goods → IsZeroAt rows.now goods columns i) }
{
    basis[i] < goods && first_nonzero(&rows[i], goods, columns).is_some()
}

// The row of the aim among one row more. A row whose column comes later than that of the one before isn't looked at.
fn next_aim(
    basis: &[usize],
    rows: &[NumberRow],
    goods: usize,
    columns: usize,
    aim: Option<usize>,
    i: usize,
) -> Option<usize>
    requires sizes { length basis.now ≡ length rows.now }
    requires inside { i < length rows.now }
    requires width { columns ≤ length (row_at rows.now i) }
    requires aim { MatchOption aim (NoAimRow basis.now rows.now goods columns i) (IsAimRow basis.now rows.now goods columns i) }
    ensures { MatchOption result (NoAimRow basis.now rows.now goods columns (i + 1)) (IsAimRow basis.now rows.now goods columns (i + 1)) }
{
    match aim {
        None => {
            if may_aim(basis, rows, goods, columns, i) {
                return Some(i);
            }
            None
        }
        Some(j) => {
            if basis[j] <= basis[i] {
                return Some(j);
            }
            if may_aim(basis, rows, goods, columns, i) {
                return Some(i);
            }
            Some(j)
        }
    }
}

// The row of the aim: of the first unit column whose row has a number other than 0 at a column of the table.
fn aim_row(basis: &[usize], rows: &[NumberRow], goods: usize, columns: usize) -> Option<usize>
    requires sizes { length basis.now ≡ length rows.now }
    requires widths { (i : ℕ) → i < length rows.now → columns ≤ length (row_at rows.now i) }
    ensures { MatchOption result (NoAimRow basis.now rows.now goods columns (length rows.now)) (IsAimRow basis.now rows.now goods columns (length rows.now)) }
{
    let mut aim: Option<usize> = None;
    for i in 0..rows.len() {
        aim = next_aim(basis, rows, goods, columns, aim, i);
    }
    aim
}

// Whether the row at i is of a unit column, has a value above 0, and has no number above 0 at a column of the table.
fn shows_none(basis: &[usize], rows: &[NumberRow], goods: usize, columns: usize, i: usize) -> bool
    requires sizes { length basis.now ≡ length rows.now }
    requires inside { i < length rows.now }
    requires width { columns < length (row_at rows.now i) }
    ensures yes { OnTrue result (IsNoneRow basis.now rows.now goods columns i) }
    ensures not { OnFalse result (¬ IsNoneRow basis.now rows.now goods columns i) }
{
    basis[i] < goods
        && is_above(&rows[i], columns)
        && first_above(&rows[i], goods, columns).is_none()
}

// The first row that shows that there is no plan.
fn none_row(basis: &[usize], rows: &[NumberRow], goods: usize, columns: usize) -> Option<usize>
    requires sizes { length basis.now ≡ length rows.now }
    requires widths { (i : ℕ) → i < length rows.now → columns < length (row_at rows.now i) }
    ensures { MatchOption result ((i : ℕ) → i < length rows.now → ¬ IsNoneRow basis.now rows.now goods columns i) (λ r. (r < length rows.now) × IsNoneRow basis.now rows.now goods columns r) }
{
    for i in 0..rows.len() {
        if shows_none(basis, rows, goods, columns, i) {
            return Some(i);
        }
    }
    None
}

// Whether no unit column has a value.
fn units_are_empty(basis: &[usize], rows: &[NumberRow], goods: usize, columns: usize) -> bool
    requires sizes { length basis.now ≡ length rows.now }
    requires widths { (i : ℕ) → i < length rows.now → columns < length (row_at rows.now i) }
    ensures yes { OnTrue result (AreUnitsEmpty basis.now rows.now goods columns (length rows.now)) }
    ensures not { OnFalse result (¬ AreUnitsEmpty basis.now rows.now goods columns (length rows.now)) }
{
    for i in 0..rows.len() {
        if basis[i] < goods && !rows[i].is_zero(columns) {
            return false;
        }
    }
    true
}

// Whether the numbers show a plan.
fn shows_plan(
    basis: &[usize],
    rows: &[NumberRow],
    cost: &NumberRow,
    goods: usize,
    columns: usize,
) -> bool
    requires sizes { length basis.now ≡ length rows.now }
    requires widths { (i : ℕ) → i < length rows.now → columns < length (row_at rows.now i) }
    requires cost_width { columns ≤ length cost.now.items }
    ensures yes { OnTrue result (AreUnitsEmpty basis.now rows.now goods columns (length rows.now) × NoNumber cost.now.items goods columns (λ x. x <ʳ zero_fraction)) }
    ensures not { OnFalse result (¬ (AreUnitsEmpty basis.now rows.now goods columns (length rows.now) × NoNumber cost.now.items goods columns (λ x. x <ʳ zero_fraction))) }
{
    match first_below(cost, goods, columns) {
        None => units_are_empty(basis, rows, goods, columns),
        Some(_) => false,
    }
}

// The exchange that an aim calls for.
fn pivot_by_aim(
    basis: &[usize],
    rows: &[NumberRow],
    goods: usize,
    columns: usize,
    aim: usize,
) -> Choice
    ghost t: { TableauOf }
    requires is_tableau { IsTableau t.system basis.now rows.now t.cost }
    requires goods_is { goods ≡ t.system.goods }
    requires columns_is { columns ≡ t.system.goods + t.system.lines }
    requires values { HasValues t.system basis.now }
    requires is_aim { IsAimRow basis.now rows.now goods columns (length rows.now) aim }
    requires no_none { (i : ℕ) → i < length rows.now → ¬ IsNoneRow basis.now rows.now goods columns i }
    requires not_settled { (e : Entries) → AreEntries t.system basis.now e → ¬ IsSettled t.system basis.now e }
    ensures { IsChosen t.system basis.now result }
{
    if is_above(&rows[aim], columns) {
        match first_above(&rows[aim], goods, columns) {
            None => unreachable!(),
            Some(enter) => match least_row(basis, rows, enter, columns) {
                None => unreachable!(),
                Some(row) => Choice::Pivot { row, enter },
            },
        }
    } else {
        match first_nonzero(&rows[aim], goods, columns) {
            None => unreachable!(),
            Some(enter) => Choice::Pivot { row: aim, enter },
        }
    }
}

// The exchange that the reduced prices call for, where there is no aim.
fn pivot_by_cost(
    basis: &[usize],
    rows: &[NumberRow],
    cost: &NumberRow,
    goods: usize,
    columns: usize,
) -> Choice
    ghost s: { System }
    requires is_tableau { IsTableau s basis.now rows.now cost.now.items }
    requires sound { IsSound s }
    requires goods_is { goods ≡ s.goods }
    requires columns_is { columns ≡ s.goods + s.lines }
    requires values { HasValues s basis.now }
    requires no_aim { NoAimRow basis.now rows.now goods columns (length rows.now) }
    requires no_none { (i : ℕ) → i < length rows.now → ¬ IsNoneRow basis.now rows.now goods columns i }
    requires not_settled { (e : Entries) → AreEntries s basis.now e → ¬ IsSettled s basis.now e }
    ensures { IsChosen s basis.now result }
{
    match first_below(cost, goods, columns) {
        None => unreachable!(),
        Some(enter) => match least_row(basis, rows, enter, columns) {
            None => unreachable!(),
            Some(row) => Choice::Pivot { row, enter },
        },
    }
}

// What the basis of a tableau calls for.
pub(crate) fn choose(
    basis: &[usize],
    rows: &[NumberRow],
    cost: &NumberRow,
    goods: usize,
    columns: usize,
) -> Choice
    ghost t: { TableauOf }
    requires is_tableau { IsTableau t.system basis.now rows.now t.cost }
    requires cost_is { cost.now.items ≡ t.cost }
    requires sound { IsSound t.system }
    requires goods_is { goods ≡ t.system.goods }
    requires columns_is { columns ≡ t.system.goods + t.system.lines }
    requires values { HasValues t.system basis.now }
    ensures { IsChosen t.system basis.now result }
{
    match none_row(basis, rows, goods, columns) {
        Some(row) => Choice::Infeasible(row),
        None => {
            if shows_plan(basis, rows, cost, goods, columns) {
                Choice::Planned
            } else {
                match aim_row(basis, rows, goods, columns) {
                    Some(aim) => pivot_by_aim(basis, rows, goods, columns, aim),
                    None => pivot_by_cost(basis, rows, cost, goods, columns),
                }
            }
        }
    }
}
