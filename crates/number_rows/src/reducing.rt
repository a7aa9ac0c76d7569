//! Rows from which another row is taken, times a number.

ghost use Rattle.std.specs.Prelude.{◌≡◌, ◌<◌, ◌^◌, false, length, OnOk, IfErr, IfOk};
ghost use Rattle.std.specs.Bool.{OnTrue, OnFalse};
ghost use Rattle.linear_table.specs.Plans.{number_at};
ghost use Rattle.linear_table.specs.Wide.{LessFits};
ghost use Rattle.number_rows.specs.Changed.{AreNarrow, IsReducedRow};
ghost use Rattle.number_rows.specs.Places.{AreFilled};
ghost use Rattle.number_rows.specs.Row.{kept};
ghost use Rattle.number_rows.specs.Tops.{AreWithin};

use crate::long::Long;
use crate::lowering::{combine_lowered, write_places};
use crate::row::NumberRow;
use crate::sharing::Shared;
use crate::tops::{combine, fitting_bound, product_keeps_within};
use plan_base::NoMemory;
use std::alloc::Global;
use std::mem;

// Makes room for so many numbers, where there is none yet.
fn make_room(alloc: Global, numbers: &mut Long, count: usize) -> Result<(), NoMemory>
    ensures room { IfOk result (λ done. length numbers.new.items ≡ count) }
    ensures same { IfErr result (λ fault. numbers.new ≡ numbers.old) }
{
    if numbers.len() != count {
        *numbers = Long::zeros(alloc, count)?;
    }
    Ok(())
}

// Writes each number of a short row where numbers past its limit have room, which is made where there is none yet.
fn write_kept(
    alloc: Global,
    numbers: &mut Long,
    tops: &[i64],
    bottom: u64,
    bound: u64,
    short: bool,
) -> Result<(), NoMemory>
    requires lengths { short ≡ false → length tops.now ≡ length numbers.old.items }
    requires positive { 0 < bottom }
    requires small { bottom < 2 ^ 62 }
    requires within { AreWithin tops.now bound }
    requires bound_small { bound < 2 ^ 62 }
    ensures written { IfOk result (λ done. numbers.new.items ≡ kept short bottom tops.now numbers.old.items) }
    ensures same { IfErr result (λ fault. numbers.new ≡ numbers.old) }
{
    if short {
        make_room(alloc, numbers, tops.len())?;
        numbers.write(tops, bottom, bound);
    }
    Ok(())
}

impl NumberRow {
    // What its number at `enter` and the denominator of the pivot's row have in common, where both rows are short. To the caller it
    // is a guess.
    fn likely_shared(&self, enter: usize, pivot_row: &NumberRow) -> Shared
        requires { enter < length self.now.items }
    {
        if self.short && pivot_row.short {
            Shared::likely_by(self.tops[enter], pivot_row.bottom, pivot_row.inverse)
        } else {
            Shared::nothing(0, 1)
        }
    }

    // Takes its number at `enter` times the pivot's row from a row, where both are short and stay within the limits, and where
    // what it shares with that row's denominator was guessed right.
    fn reduce_short(
        &mut self,
        enter: usize,
        pivot_row: &NumberRow,
        places: &[usize],
        shared: Shared,
    ) -> bool
        requires inside { enter < length self.old.items }
        requires width { length self.old.items ≡ length pivot_row.now.items }
        requires places { AreFilled places.now pivot_row.now.items }
        ensures done { OnTrue result (IsReducedRow self.old.items (number_at self.old.items enter) pivot_row.now.items self.new.items) }
        ensures not { OnFalse result (self.new ≡ self.old) }
    {
        if !self.short {
            return false;
        }
        if !pivot_row.short {
            return false;
        }
        if !shared.is_of(self.tops[enter], pivot_row.bottom) {
            return false;
        }
        let Some(bound) = fitting_bound(
            &self.tops,
            self.bound,
            self.tight,
            shared.scale,
            pivot_row.bound,
            shared.factor.unsigned_abs(),
            self.bottom,
        ) else {
            return false;
        };
        self.bound = combine(
            &mut self.tops,
            shared.scale as i64,
            &pivot_row.tops,
            shared.factor,
            places,
            bound,
            pivot_row.bound,
        );
        self.tight = false;
        self.bottom = self.bottom * shared.scale;
        true
    }

    // The same where what all numbers that this makes have in common brings them within the limits.
    fn reduce_over(
        &mut self,
        enter: usize,
        pivot_row: &NumberRow,
        shared: Shared,
        room: &mut [usize],
    ) -> bool
        requires inside { enter < length self.old.items }
        requires width { length self.old.items ≡ length pivot_row.now.items }
        requires room { length room.old ≡ length self.old.items }
        ensures room { length room.new ≡ length room.old }
        ensures done { OnTrue result (IsReducedRow self.old.items (number_at self.old.items enter) pivot_row.now.items self.new.items) }
        ensures not { OnFalse result (self.new ≡ self.old) }
    {
        if !self.short {
            return false;
        }
        if !pivot_row.short {
            return false;
        }
        if !shared.is_of(self.tops[enter], pivot_row.bottom) {
            return false;
        }
        let count = write_places(room, &self.tops, &pivot_row.tops);
        let Some(lowered) = combine_lowered(
            &mut self.spare,
            &self.tops,
            shared.scale as i64,
            &pivot_row.tops,
            shared.factor,
            self.bottom,
            shared.common,
            &room[..count],
        ) else {
            return false;
        };
        let bottom = self.bottom / lowered.divisor;
        if !product_keeps_within(bottom, shared.scale) {
            return false;
        }
        mem::swap(&mut self.tops, &mut self.spare);
        self.bound = lowered.bound;
        self.tight = true;
        self.bottom = bottom * shared.scale;
        true
    }

    // The same on 128 bits, of which the row may stay past the limits of short ones.
    fn reduce_wide(
        &mut self,
        alloc: Global,
        enter: usize,
        pivot_row: &NumberRow,
    ) -> Result<bool, NoMemory>
        requires inside { enter < length self.old.items }
        requires width { length self.old.items ≡ length pivot_row.now.items }
        ensures done { IfOk result (λ done. OnTrue done (IsReducedRow self.old.items (number_at self.old.items enter) pivot_row.now.items self.new.items)) }
        ensures not { IfOk result (λ done. OnFalse done (self.new ≡ self.old)) }
    {
        if !pivot_row.short {
            return Ok(false);
        }
        write_kept(
            alloc,
            &mut self.numbers,
            &self.tops,
            self.bottom,
            self.bound,
            self.short,
        )?;
        self.short = false;
        let done = self
            .numbers
            .reduce_whole(enter, &pivot_row.tops, pivot_row.bottom, pivot_row.bound);
        Ok(done)
    }

    // The same for any row, or which number that makes wide.
    fn reduce_long(
        &mut self,
        alloc: Global,
        enter: usize,
        pivot_row: &NumberRow,
    ) -> Result<Result<(), usize>, NoMemory>
        requires inside { enter < length self.old.items }
        requires width { length self.old.items ≡ length pivot_row.now.items }
        requires narrow { AreNarrow self.old.items }
        ensures ok { IfOk result (λ reduced. OnOk reduced (IsReducedRow self.old.items (number_at self.old.items enter) pivot_row.now.items self.new.items)) }
        ensures err { IfOk result (λ reduced. IfErr reduced (λ k. (k < length self.old.items) × ¬ LessFits (number_at self.old.items k) (number_at self.old.items enter) (number_at pivot_row.now.items k))) }
    {
        write_kept(
            alloc,
            &mut self.numbers,
            &self.tops,
            self.bottom,
            self.bound,
            self.short,
        )?;
        self.short = false;
        let reduced = self.numbers.reduce(enter, pivot_row);
        Ok(reduced)
    }

    // The same where its number at `enter` isn't 0. It is kept out of its caller, in which most rows, whose number there is 0, are
    // soon done with.
    #[inline(never)]
    fn reduce_filled(
        &mut self,
        alloc: Global,
        enter: usize,
        pivot_row: &NumberRow,
        places: &[usize],
        room: &mut [usize],
    ) -> Result<Result<(), usize>, NoMemory>
        requires inside { enter < length self.old.items }
        requires width { length self.old.items ≡ length pivot_row.now.items }
        requires narrow { AreNarrow self.old.items }
        requires places { AreFilled places.now pivot_row.now.items }
        requires room { length room.old ≡ length self.old.items }
        ensures room { length room.new ≡ length room.old }
        ensures ok { IfOk result (λ reduced. OnOk reduced (IsReducedRow self.old.items (number_at self.old.items enter) pivot_row.now.items self.new.items)) }
        ensures err { IfOk result (λ reduced. IfErr reduced (λ k. (k < length self.old.items) × ¬ LessFits (number_at self.old.items k) (number_at self.old.items enter) (number_at pivot_row.now.items k))) }
    {
        let shared = self.likely_shared(enter, pivot_row);
        if self.reduce_short(enter, pivot_row, places, shared) {
            return Ok(Ok(()));
        }
        if self.reduce_over(enter, pivot_row, shared, room) {
            return Ok(Ok(()));
        }
        if self.reduce_wide(alloc, enter, pivot_row)? {
            self.shorten();
            return Ok(Ok(()));
        }
        match self.reduce_long(alloc, enter, pivot_row)? {
            Ok(()) => {
                self.shorten();
                Ok(Ok(()))
            }
            Err(place) => Ok(Err(place)),
        }
    }

    /// Takes its number at `enter` times the pivot's row from a row, or says which number that makes wide. The pivot's row isn't 0
    /// at the places. What stands in the room is no matter.
    ///
    /// # Errors
    ///
    /// `NoMemory` where the row gets past the limit of short ones, and memory for that could not be had.
    pub fn reduce_at(
        &mut self,
        alloc: Global,
        enter: usize,
        pivot_row: &NumberRow,
        places: &[usize],
        room: &mut [usize],
    ) -> Result<Result<(), usize>, NoMemory>
        requires inside { enter < length self.old.items }
        requires width { length self.old.items ≡ length pivot_row.now.items }
        requires narrow { AreNarrow self.old.items }
        requires places { AreFilled places.now pivot_row.now.items }
        requires room { length room.old ≡ length self.old.items }
        ensures room { length room.new ≡ length room.old }
        ensures ok { IfOk result (λ reduced. OnOk reduced (IsReducedRow self.old.items (number_at self.old.items enter) pivot_row.now.items self.new.items)) }
        ensures err { IfOk result (λ reduced. IfErr reduced (λ k. (k < length self.old.items) × ¬ LessFits (number_at self.old.items k) (number_at self.old.items enter) (number_at pivot_row.now.items k))) }
    {
        if self.is_zero(enter) {
            return Ok(Ok(()));
        }
        self.reduce_filled(alloc, enter, pivot_row, places, room)
    }
}
