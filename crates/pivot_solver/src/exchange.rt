//! Exchanges of one basic column for another.

ghost use Rattle.std.specs.Prelude.{◌≡◌, ◌≢◌, ℕ, ◌<◌, length, IfOk, OnOk, IfErr};
ghost use Rattle.fractions.specs.Fraction.{zero_fraction};
ghost use Rattle.linear_table.specs.Plans.{number_at};
ghost use Rattle.number_rows.specs.Places.{AreFilled};
ghost use Rattle.linear_table.specs.Wide.{LessFits};
ghost use Rattle.pivot_solver.specs.Rows.{AreNarrow, AreReducedRows, row_at};
ghost use Rattle.pivot_solver.specs.Tableau.{IsPivoted};
ghost use Rattle.pivot_solver.specs.WideAt.{IsWideAt};

use crate::{Spot, WideAt};
use number_rows::NumberRow;
use plan_base::NoMemory;
use std::alloc::Global;
use std::mem;

// Reduces every row but one by the pivot's row, which isn't 0 at the places, or says which number that makes wide.
fn reduce_rows(
    alloc: Global,
    rows: &mut [NumberRow],
    skip: usize,
    enter: usize,
    pivot_row: &NumberRow,
    places: &[usize],
    room: &mut [usize],
) -> Result<Result<(), Spot>, NoMemory>
    requires place { enter < length pivot_row.now.items }
    requires places { AreFilled places.now pivot_row.now.items }
    requires room { length room.old ≡ length pivot_row.now.items }
    requires widths { (i : ℕ) → i < length rows.old → i ≢ skip → length (row_at rows.old i) ≡ length pivot_row.now.items }
    requires narrow { (i : ℕ) → i < length rows.old → i ≢ skip → AreNarrow (row_at rows.old i) }
    ensures ok { IfOk result (λ reduced. OnOk reduced (AreReducedRows rows.old skip enter pivot_row.now.items rows.new)) }
    ensures err { IfOk result (λ reduced. IfErr reduced (λ s. (s.row < length rows.old) × (s.row ≢ skip) × (s.place < length pivot_row.now.items) × ¬ LessFits (number_at (row_at rows.old s.row) s.place) (number_at (row_at rows.old s.row) enter) (number_at pivot_row.now.items s.place))) }
    ensures room { length room.new ≡ length room.old }
{
    for i in 0..rows.len() {
        if i != skip {
            if let Err(place) = rows[i].reduce_at(alloc, enter, pivot_row, places, room)? {
                return Ok(Err(Spot { row: i, place }));
            }
        }
    }
    Ok(Ok(()))
}

// Divides the row at `row` by its number at `enter`, and reduces all others, or says which number that makes wide.
pub(crate) fn pivot(
    alloc: Global,
    rows: &mut [NumberRow],
    cost: &mut NumberRow,
    row: usize,
    enter: usize,
) -> Result<Result<(), WideAt>, NoMemory>
    requires inside { row < length rows.old }
    requires place { enter < length (row_at rows.old row) }
    requires widths { (i : ℕ) → i < length rows.old → length (row_at rows.old i) ≡ length (row_at rows.old row) }
    requires cost_width { length cost.old.items ≡ length (row_at rows.old row) }
    requires not_zero { number_at (row_at rows.old row) enter ≢ zero_fraction }
    requires narrow { (i : ℕ) → i < length rows.old → AreNarrow (row_at rows.old i) }
    requires cost_narrow { AreNarrow cost.old.items }
    ensures ok { IfOk result (λ pivoted. OnOk pivoted (IsPivoted rows.old cost.old.items row enter rows.new cost.new.items)) }
    ensures err { IfOk result (λ pivoted. IfErr pivoted (IsWideAt rows.old cost.old.items row enter)) }
{
    let mut pivot_row = mem::replace(&mut rows[row], NumberRow::empty(alloc));
    let mut room = vec![in alloc; 0usize; pivot_row.len()]?;
    if let Err(place) = pivot_row.divide(enter, &mut room) {
        return Ok(Err(WideAt::Row(Spot { row, place })));
    }
    let places = pivot_row.filled_places(alloc)?;
    if let Err(spot) = reduce_rows(alloc, rows, row, enter, &pivot_row, &places, &mut room)? {
        return Ok(Err(WideAt::Row(spot)));
    }
    if let Err(place) = cost.reduce_at(alloc, enter, &pivot_row, &places, &mut room)? {
        return Ok(Err(WideAt::Cost(place)));
    }
    rows[row] = pivot_row;
    Ok(Ok(()))
}
