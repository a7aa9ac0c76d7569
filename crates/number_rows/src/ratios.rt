//! Rows of fractions.

ghost use Rattle.std.specs.Prelude.{◌≡◌, ◌≢◌, ◌<◌, length, OnOk, IfErr};
ghost use Rattle.fractions.specs.Fraction.{zero_fraction, ◌/ʳ◌};
ghost use Rattle.fractions.specs.Limits.{IsNarrow};
ghost use Rattle.linear_table.specs.Plans.{number_at};
ghost use Rattle.linear_table.specs.Wide.{LessFits};
ghost use Rattle.number_rows.specs.Changed.{AreNarrow, IsDividedRow, IsReducedRow};

use crate::row::NumberRow;
use fractions::Ratio;

/// Divides each number by the pivot, or says which quotient is wide.
pub fn divide_numbers(row: &mut [Ratio], pivot: &Ratio) -> Result<(), usize>
    requires { pivot.now ≢ zero_fraction }
    ensures ok { OnOk result (IsDividedRow row.old pivot.now row.new) }
    ensures err { IfErr result (λ k. (k < length row.old) × ¬ IsNarrow (number_at row.old k /ʳ pivot.now)) }
    ensures length_is { length row.new ≡ length row.old }
{
    for k in 0..row.len() {
        let Ok(quotient) = row[k].div(pivot) else {
            return Err(k);
        };
        row[k] = quotient;
    }
    Ok(())
}

/// Takes `factor` times the pivot's row from the numbers, or says which one that makes wide. Where a product is 0, nothing
/// is computed.
pub fn reduce_numbers(row: &mut [Ratio], factor: &Ratio, pivot_row: &NumberRow) -> Result<(), usize>
    requires width { length row.old ≡ length pivot_row.now.items }
    requires narrow { AreNarrow row.old }
    ensures ok { OnOk result (IsReducedRow row.old factor.now pivot_row.now.items row.new) }
    ensures err { IfErr result (λ k. (k < length row.old) × ¬ LessFits (number_at row.old k) factor.now (number_at pivot_row.now.items k)) }
    ensures length_is { length row.new ≡ length row.old }
{
    for k in 0..row.len() {
        if !pivot_row.is_zero(k) {
            let other = pivot_row.number(k);
            let Ok(number) = Ratio::sub_mul(&row[k], factor, &other) else {
                return Err(k);
            };
            row[k] = number;
        }
    }
    Ok(())
}
