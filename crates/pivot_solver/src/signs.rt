//! Signs of a row's numbers.

ghost use Rattle.std.specs.Prelude.{◌≢◌, ◌<◌, length, ◌≤◌, MatchOption};
ghost use Rattle.fractions.specs.Fraction.{zero_fraction, ◌<ʳ◌, ◌≤ʳ◌};
ghost use Rattle.pivot_solver.specs.Search.{IsFirstNumber, NoNumber};
ghost use Rattle.std.specs.Bool.{OnTrue, OnFalse};
ghost use Rattle.linear_table.specs.Plans.{number_at};

use number_rows::NumberRow;

// Whether a number of a row is above 0.
pub(crate) fn is_above(row: &NumberRow, k: usize) -> bool
    requires { k < length row.now.items }
    ensures above { OnTrue result (zero_fraction <ʳ number_at row.now.items k) }
    ensures not_above { OnFalse result (number_at row.now.items k ≤ʳ zero_fraction) }
{
    row.is_above(k)
}

// The first number above 0 between two places of a row.
pub(crate) fn first_above(row: &NumberRow, from: usize, to: usize) -> Option<usize>
    requires { to ≤ length row.now.items }
    ensures { MatchOption result (NoNumber row.now.items from to (λ x. zero_fraction <ʳ x)) (IsFirstNumber row.now.items from to (λ x. zero_fraction <ʳ x)) }
{
    for k in from..to {
        if is_above(row, k) {
            return Some(k);
        }
    }
    None
}

// The first number below 0 between two places of a row.
pub(crate) fn first_below(row: &NumberRow, from: usize, to: usize) -> Option<usize>
    requires { to ≤ length row.now.items }
    ensures { MatchOption result (NoNumber row.now.items from to (λ x. x <ʳ zero_fraction)) (IsFirstNumber row.now.items from to (λ x. x <ʳ zero_fraction)) }
{
    for k in from..to {
        if row.is_below(k) {
            return Some(k);
        }
    }
    None
}

// The first number other than 0 between two places of a row.
pub(crate) fn first_nonzero(row: &NumberRow, from: usize, to: usize) -> Option<usize>
    requires { to ≤ length row.now.items }
    ensures { MatchOption result (NoNumber row.now.items from to (λ x. x ≢ zero_fraction)) (IsFirstNumber row.now.items from to (λ x. x ≢ zero_fraction)) }
{
    for k in from..to {
        if !row.is_zero(k) {
            return Some(k);
        }
    }
    None
}
