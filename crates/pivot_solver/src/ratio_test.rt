//! The ratio test: which row leaves.

ghost use Rattle.std.specs.Prelude.{◌≡◌, ℕ, ◌<◌, length, ◌⊎◌, ◌≤◌, MatchOption};
ghost use Rattle.fractions.specs.Fraction.{◌/ʳ◌, zero_fraction, ◌<ʳ◌, ◌≤ʳ◌};
ghost use Rattle.pivot_solver.specs.Least.{Beats, IsLeastRow, NoRowAbove};
ghost use Rattle.std.specs.Ordering.{MatchOrdering};
ghost use Rattle.linear_table.specs.Plans.{number_at};
ghost use Rattle.pivot_solver.specs.Rows.{row_at};

use crate::quotients::compare_quotients;
use crate::signs::is_above;
use number_rows::NumberRow;
use std::cmp::Ordering;

// How the ratios of two rows compare.
fn compare_ratios(first: &NumberRow, second: &NumberRow, enter: usize, value: usize) -> Ordering
    requires inside { (enter < length first.now.items) × (value < length first.now.items) }
    requires second_inside { (enter < length second.now.items) × (value < length second.now.items) }
    requires above { zero_fraction <ʳ number_at first.now.items enter }
    requires second_above { zero_fraction <ʳ number_at second.now.items enter }
    requires value { zero_fraction ≤ʳ number_at first.now.items value }
    requires second_value { zero_fraction ≤ʳ number_at second.now.items value }
    ensures { MatchOrdering result ((number_at first.now.items value /ʳ number_at first.now.items enter) <ʳ (number_at second.now.items value /ʳ number_at second.now.items enter)) ((number_at first.now.items value /ʳ number_at first.now.items enter) ≡ (number_at second.now.items value /ʳ number_at second.now.items enter)) ((number_at second.now.items value /ʳ number_at second.now.items enter) <ʳ (number_at first.now.items value /ʳ number_at first.now.items enter)) }
{
    match first.compare_short(second, value, enter) {
        Some(order) => order,
        None => compare_quotients(
            &first.number(value),
            &first.number(enter),
            &second.number(value),
            &second.number(enter),
        ),
    }
}

// The one of two rows that leaves before the other.
fn better(
    basis: &[usize],
    rows: &[NumberRow],
    enter: usize,
    value: usize,
    i: usize,
    j: usize,
) -> usize
    requires sizes { length basis.now ≡ length rows.now }
    requires i_inside { i < length rows.now }
    requires j_inside { j < length rows.now }
    requires i_width { (enter < length (row_at rows.now i)) × (value < length (row_at rows.now i)) }
    requires j_width { (enter < length (row_at rows.now j)) × (value < length (row_at rows.now j)) }
    requires i_above { zero_fraction <ʳ number_at (row_at rows.now i) enter }
    requires j_above { zero_fraction <ʳ number_at (row_at rows.now j) enter }
    requires i_value { zero_fraction ≤ʳ number_at (row_at rows.now i) value }
    requires j_value { zero_fraction ≤ʳ number_at (row_at rows.now j) value }
    ensures one_of { (result ≡ i) ⊎ (result ≡ j) }
    ensures beats_i { Beats basis.now rows.now enter value result i }
    ensures beats_j { Beats basis.now rows.now enter value result j }
{
    match compare_ratios(&rows[i], &rows[j], enter, value) {
        Ordering::Less => i,
        Ordering::Greater => j,
        Ordering::Equal => { if basis[i] < basis[j] { i } else { j } }
    }
}

// The row that leaves: of least ratio, and the first such in the order of columns.
pub(crate) fn least_row(
    basis: &[usize],
    rows: &[NumberRow],
    enter: usize,
    value: usize,
) -> Option<usize>
    requires sizes { length basis.now ≡ length rows.now }
    requires widths { (i : ℕ) → i < length rows.now → (enter < length (row_at rows.now i)) × (value < length (row_at rows.now i)) }
    requires values { (i : ℕ) → i < length rows.now → zero_fraction ≤ʳ number_at (row_at rows.now i) value }
    ensures { MatchOption result (NoRowAbove rows.now enter (length rows.now)) (IsLeastRow basis.now rows.now enter value (length rows.now)) }
{
    let mut best: Option<usize> = None;
    for i in 0..rows.len() {
        if is_above(&rows[i], enter) {
            best = match best {
                None => Some(i),
                Some(j) => Some(better(basis, rows, enter, value, i, j)),
            };
        }
    }
    best
}
