//! Whether a linear form is well formed.

ghost use Rattle.std.specs.Prelude.{◌≡◌, ◌≢◌, ℕ, suc, ◌+◌, ◌<◌, ◌≤◌, ◌↔◌, length, IsTrue, Some, slice_get, slice_index_or};
ghost use Rattle.std.specs.Bool.{OnTrue, OnFalse};
ghost use Rattle.fractions.specs.Fraction.{zero_fraction, ◌≤ʳ◌};
ghost use Rattle.linear_table.specs.Plans.{good_count, column_count, number_at, Rises, HasOnePart, FitsName, IsSoundColumn, IsWellFormed, kind_rank};
ghost use Rattle.linear_table.specs.declared.LinearColumn.{LinearColumn};
ghost use Rattle.linear_table.specs.Form.{IsSoundAt, HasSoundColumns, HasRisingKinds, IsNewName, HasNewNames, IsNewGood, HasNewGoods, HasSoundWants};

use crate::{Column, Linear, LinearColumn};
use fractions::Ratio;
use plan_base::GoodId;
use std::cmp::Ordering;

// Whether places rise and lie below the number of goods.
fn places_rise(parts: &[(u32, Ratio)], goods: usize) -> bool
    ensures yes { OnTrue result (Rises 0 goods parts.now) }
    ensures not { OnFalse result (¬ Rises 0 goods parts.now) }
{
    let mut rest = parts;
    let mut from = 0;
    while let [(place, _), others @ ..] = rest {
        let place = *place as usize;
        if place < from || place >= goods {
            return false;
        }
        from = place + 1;
        rest = others;
    }
    true
}

// Whether two fractions are equal.
fn same(left: &Ratio, right: &Ratio) -> bool
    ensures yes { OnTrue result (left.now ≡ right.now) }
    ensures not { OnFalse result (left.now ≢ right.now) }
{
    left.cmp(right) == Ordering::Equal
}

// Whether a fraction isn't below 0.
fn is_nonnegative(number: &Ratio) -> bool
    ensures yes { OnTrue result (zero_fraction ≤ʳ number.now) }
    ensures not { OnFalse result (¬ (zero_fraction ≤ʳ number.now)) }
{
    !number.is_neg()
}

// Whether the only part is `amount`, at the place of the good.
fn has_one_part(linear: &Linear, good: GoodId, amount: &Ratio, parts: &[(u32, Ratio)]) -> bool
    ensures yes { OnTrue result (HasOnePart linear.now good amount.now parts.now) }
    ensures not { OnFalse result (¬ HasOnePart linear.now good amount.now parts.now) }
{
    let [(place, part)] = parts else {
        return false;
    };
    let place = *place as usize;
    place < linear.goods.len() && linear.good(place) == good && same(part, amount)
}

// Whether a column's name has its place, or its good as the only part.
fn fits_name(linear: &Linear, place: usize, column: Column, parts: &[(u32, Ratio)]) -> bool
    ensures yes { OnTrue result (FitsName linear.now place column parts.now) }
    ensures not { OnFalse result (¬ FitsName linear.now place column parts.now) }
{
    match column {
        Column::Line(number) => number as usize == place,
        Column::Import(good) => has_one_part(linear, good, &Ratio::one(), parts),
        Column::Surplus(good) => has_one_part(linear, good, &Ratio::one().neg(), parts),
        Column::Unit(_) => false,
    }
}

// Whether a column is sound at its place.
fn is_sound_column(linear: &Linear, place: usize, column: &LinearColumn) -> bool
    ensures yes { OnTrue result (IsSoundColumn linear.now place column.now) }
    ensures not { OnFalse result (¬ IsSoundColumn linear.now place column.now) }
{
    let parts = column.parts.as_slice();
    places_rise(parts, linear.goods.len())
        && is_nonnegative(&column.price)
        && fits_name(linear, place, column.column, parts)
}

// Whether the column at a place is sound there.
fn is_sound_at(linear: &Linear, place: usize) -> bool
    requires { place < column_count linear.now }
    ensures yes { OnTrue result (IsSoundAt linear.now place) }
    ensures not { OnFalse result (¬ IsSoundAt linear.now place) }
{
    let columns = linear.columns.as_slice();
    is_sound_column(linear, place, &columns[place])
}

// Whether each column is sound at its place.
fn columns_are_sound(linear: &Linear) -> bool
    ensures yes { OnTrue result (HasSoundColumns linear.now (column_count linear.now)) }
    ensures not { OnFalse result (¬ HasSoundColumns linear.now (column_count linear.now)) }
{
    for j in 0..linear.columns.len() {
        if !is_sound_at(linear, j) {
            return false;
        }
    }
    true
}

// The place of a column's kind among the kinds.
fn kind_rank(column: Column) -> u8
    ensures { result ≡ kind_rank column }
{
    match column {
        Column::Line(_) => 0,
        Column::Import(_) => 1,
        Column::Surplus(_) => 2,
        Column::Unit(_) => 3,
    }
}

// Whether no column's kind comes before that of the column before it.
fn kinds_rise(linear: &Linear) -> bool
    ensures yes { OnTrue result (HasRisingKinds linear.now (column_count linear.now)) }
    ensures not { OnFalse result (¬ HasRisingKinds linear.now (column_count linear.now)) }
{
    for j in 1..linear.columns.len() {
        if kind_rank(linear.name(j - 1)) > kind_rank(linear.name(j)) {
            return false;
        }
    }
    true
}

// Whether no column before this place has its name.
fn is_new_name(linear: &Linear, place: usize) -> bool
    requires { place < column_count linear.now }
    ensures yes { OnTrue result (IsNewName linear.now place place) }
    ensures not { OnFalse result (¬ IsNewName linear.now place place) }
{
    let name = linear.name(place);
    for i in 0..place {
        if linear.name(i) == name {
            return false;
        }
    }
    true
}

// Whether the names of the columns differ.
fn names_differ(linear: &Linear) -> bool
    ensures yes { OnTrue result (HasNewNames linear.now (column_count linear.now)) }
    ensures not { OnFalse result (¬ HasNewNames linear.now (column_count linear.now)) }
{
    for j in 0..linear.columns.len() {
        if !is_new_name(linear, j) {
            return false;
        }
    }
    true
}

// Whether no good before this place is the same.
fn is_new_good(linear: &Linear, place: usize) -> bool
    requires { place < good_count linear.now }
    ensures yes { OnTrue result (IsNewGood linear.now place place) }
    ensures not { OnFalse result (¬ IsNewGood linear.now place place) }
{
    let good = linear.good(place);
    for i in 0..place {
        if linear.good(i) == good {
            return false;
        }
    }
    true
}

// Whether the goods differ.
fn goods_differ(linear: &Linear) -> bool
    ensures yes { OnTrue result (HasNewGoods linear.now (good_count linear.now)) }
    ensures not { OnFalse result (¬ HasNewGoods linear.now (good_count linear.now)) }
{
    for g in 0..linear.goods.len() {
        if !is_new_good(linear, g) {
            return false;
        }
    }
    true
}

// Whether no want is below 0.
fn wants_are_sound(linear: &Linear) -> bool
    ensures yes { OnTrue result (HasSoundWants linear.now (length linear.now.wants)) }
    ensures not { OnFalse result (¬ HasSoundWants linear.now (length linear.now.wants)) }
{
    for g in 0..linear.wants.len() {
        if !is_nonnegative(&linear.want(g)) {
            return false;
        }
    }
    true
}

impl Linear {
    /// Whether the form is well formed: goods that differ, as many wants as goods and none below 0, columns in the order of
    /// rows, imports, surpluses, each named once and sound.
    pub fn is_well_formed(&self) -> bool
        ensures { IsTrue result ↔ IsWellFormed self.now }
    {
        if self.wants.len() != self.goods.len() {
            return false;
        }
        if !wants_are_sound(self) {
            return false;
        }
        if !goods_differ(self) {
            return false;
        }
        if !columns_are_sound(self) {
            return false;
        }
        if !kinds_rise(self) {
            return false;
        }
        if !names_differ(self) {
            return false;
        }
        true
    }
}
