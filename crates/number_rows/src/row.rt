//! A row of numbers.

ghost use Rattle.std.specs.Prelude.{◌≡◌, ◌≢◌, ◌<◌, ℕ, ◌^◌, false, pos, [], length, OnOk, IfErr, IfOk, IfSome, IsTrue, ◌↔◌, unsigned_abs};
ghost use Rattle.std.specs.Ordering.{MatchOrdering};
ghost use Rattle.fractions.specs.Fraction.{zero_fraction, ◌/ʳ◌, ◌<ʳ◌};
ghost use Rattle.fractions.specs.Limits.{IsNarrow};
ghost use Rattle.linear_table.specs.Plans.{number_at};
ghost use Rattle.number_rows.specs.Changed.{IsDividedRow};
ghost use Rattle.number_rows.specs.Places.{AreFilled, HoldsBut, FailsAt};
ghost use Rattle.number_rows.specs.Row.{kept};
ghost use Rattle.number_rows.specs.Tops.{top_at};

use crate::dividing::likely_inverse;
use crate::long::{Long, short_form};
use crate::lowering::{combine_lowered, write_places};
use crate::tops::{LIMIT, long_product, turn_all};
use fractions::Ratio;
use plan_base::NoMemory;
use std::alloc::Global;
use std::cmp::Ordering;
use std::marker::Model;
use std::mem;

/// A row of fractions. It is kept as whole numbers over one denominator, which take few steps to add and multiply, wherever
/// these are below 2^62, else as whole numbers of 128 bits, and each as a fraction where these don't fit. No number of a short
/// row is greater than its bound, and one has as many bits where it is tight. After a division the inverse is that of the
/// denominator's odd part modulo 2^64, of which nothing is known: what is computed by it is a guess.
#[derive(Drop)]
pub struct NumberRow {
    pub(crate) short: bool,
    pub(crate) bottom: u64,
    pub(crate) inverse: u64,
    pub(crate) bound: u64,
    pub(crate) tight: bool,
    pub(crate) tops: Vec<i64>,
    pub(crate) spare: Vec<i64>,
    pub(crate) numbers: Long,
}

impl Model for NumberRow {
    ghost use Rattle.number_rows.specs.Changed.{Numbers, numbers_code};
    ghost use Rattle.number_rows.specs.Row.{kept, IsKept};
    ghost use Rattle.std.specs.Prelude.{length};

    ghost Value = { Numbers };

    ghost coded = { numbers_code };

    ghost view = { λ r. record { items = kept r.short r.bottom r.tops.items r.numbers.items } };

    ghost invariant = { λ r. IsKept r.short r.bottom r.bound r.tops.items r.numbers.items (length r.spare.items) };
}

// So many zeros.
#[tactic(auto, using(crate::proofs::Lists::zero_at))]
pub(crate) fn zeros(alloc: Global, count: usize) -> Result<Vec<i64>, NoMemory>
    ensures length_is { IfOk result (λ tops. length tops.items ≡ count) }
    ensures zero { IfOk result (λ tops. (k : ℕ) → k < count → top_at tops.items k ≡ pos 0) }
{
    Ok(vec![in alloc; 0i64; count]?)
}

// The places at which whole numbers aren't 0, in rising order.
fn listed_places(alloc: Global, tops: &[i64]) -> Result<Vec<usize>, NoMemory>
    requires { (k : ℕ) → k < length tops.now → unsigned_abs (top_at tops.now k) < 2 ^ 62 }
    ensures filled { IfOk result (λ places. HoldsBut (λ k. top_at tops.now k ≡ pos 0) 0 places.items (length tops.now)) }
    ensures only { IfOk result (λ places. FailsAt (λ k. top_at tops.now k ≡ pos 0) places.items) }
{
    let mut places = vec![in alloc; 0usize; tops.len()]?;
    let count = write_places(&mut places, tops, tops);
    places.truncate(count);
    Ok(places)
}

impl NumberRow {
    /// A row of no numbers.
    pub fn empty(alloc: Global) -> NumberRow
        ensures { result.items ≡ [] }
    {
        NumberRow {
            short: false,
            bottom: 1,
            inverse: 1,
            bound: 0,
            tight: false,
            tops: Vec::new(alloc),
            spare: Vec::new(alloc),
            numbers: Long::empty(alloc),
        }
    }

    /// A row of these numbers.
    ///
    /// # Errors
    ///
    /// `NoMemory` where memory could not be had.
    pub fn from_numbers(alloc: Global, numbers: Vec<Ratio>) -> Result<NumberRow, NoMemory>
        ensures { IfOk result (λ row. row.items ≡ numbers.items) }
    {
        let mut tops = zeros(alloc, numbers.len())?;
        let spare = zeros(alloc, numbers.len())?;
        match short_form(&mut tops, &numbers) {
            Some(short) => Ok(NumberRow {
                short: true,
                bottom: short.bottom,
                inverse: 1,
                bound: short.bound,
                tight: false,
                tops,
                spare,
                numbers: Long::empty(alloc),
            }),
            None => Ok(NumberRow {
                short: false,
                bottom: 1,
                inverse: 1,
                bound: LIMIT - 1,
                tight: false,
                tops,
                spare,
                numbers: Long::from_numbers(alloc, numbers)?,
            }),
        }
    }

    /// How many numbers there are.
    pub fn len(&self) -> usize
        ensures { result ≡ length self.now.items }
    {
        self.tops.len()
    }

    /// The number at a place.
    pub fn number(&self, k: usize) -> Ratio
        requires { k < length self.now.items }
        ensures { result ≡ number_at self.now.items k }
    {
        if self.short {
            Ratio::part(self.tops[k], self.bottom as i64)
        } else {
            self.numbers.number(k)
        }
    }

    /// Whether the number at a place is above 0.
    pub fn is_above(&self, k: usize) -> bool
        requires { k < length self.now.items }
        ensures { IsTrue result ↔ (zero_fraction <ʳ number_at self.now.items k) }
    {
        if self.short {
            self.tops[k] > 0
        } else {
            self.numbers.is_above(k)
        }
    }

    /// Whether the number at a place is below 0.
    pub fn is_below(&self, k: usize) -> bool
        requires { k < length self.now.items }
        ensures { IsTrue result ↔ (number_at self.now.items k <ʳ zero_fraction) }
    {
        if self.short {
            self.tops[k] < 0
        } else {
            self.numbers.is_below(k)
        }
    }

    /// Whether the number at a place is 0.
    pub fn is_zero(&self, k: usize) -> bool
        requires { k < length self.now.items }
        ensures { IsTrue result ↔ (number_at self.now.items k ≡ zero_fraction) }
    {
        if self.short {
            self.tops[k] == 0
        } else {
            self.numbers.is_zero(k)
        }
    }

    /// The places at which the numbers aren't 0, in rising order.
    ///
    /// # Errors
    ///
    /// `NoMemory` where memory could not be had.
    pub fn filled_places(&self, alloc: Global) -> Result<Vec<usize>, NoMemory>
        ensures filled { IfOk result (λ places. AreFilled places.items self.now.items) }
        ensures only { IfOk result (λ places. FailsAt (λ k. number_at self.now.items k ≡ zero_fraction) places.items) }
    {
        if self.short {
            return listed_places(alloc, &self.tops);
        }
        let mut places = Vec::with_capacity(alloc, self.len())?;
        for k in 0..self.len() {
            if !self.is_zero(k) {
                places.push(k)?;
            }
        }
        Ok(places)
    }

    /// How the quotients of two numbers of two rows compare, where both rows are short.
    pub fn compare_short(&self, other: &NumberRow, value: usize, enter: usize) -> Option<Ordering>
        requires inside { (value < length self.now.items) × (enter < length self.now.items) }
        requires other_inside { (value < length other.now.items) × (enter < length other.now.items) }
        requires above { zero_fraction <ʳ number_at self.now.items enter }
        requires other_above { zero_fraction <ʳ number_at other.now.items enter }
        ensures { IfSome result (λ o. MatchOrdering o ((number_at self.now.items value /ʳ number_at self.now.items enter) <ʳ (number_at other.now.items value /ʳ number_at other.now.items enter)) ((number_at self.now.items value /ʳ number_at self.now.items enter) ≡ (number_at other.now.items value /ʳ number_at other.now.items enter)) ((number_at other.now.items value /ʳ number_at other.now.items enter) <ʳ (number_at self.now.items value /ʳ number_at self.now.items enter))) }
    {
        if self.short && other.short {
            let first = long_product(self.tops[value], other.tops[enter]);
            let second = long_product(other.tops[value], self.tops[enter]);
            Some(first.cmp(&second))
        } else {
            None
        }
    }

    // Takes out of a short row what its denominator and its numbers have in common.
    fn cancel(&mut self, room: &mut [usize])
        requires room { length room.old ≡ length self.old.items }
        ensures same { self.new ≡ self.old }
        ensures room { length room.new ≡ length room.old }
    {
        if !self.short {
            return;
        }
        let count = write_places(room, &self.tops, &self.tops);
        let Some(lowered) = combine_lowered(
            &mut self.spare,
            &self.tops,
            1,
            &self.tops,
            0,
            self.bottom,
            1,
            &room[..count],
        ) else {
            return;
        };
        mem::swap(&mut self.tops, &mut self.spare);
        self.bound = lowered.bound;
        self.tight = true;
        self.bottom = self.bottom / lowered.divisor;
    }

    // Keeps the inverse of the denominator's odd part.
    fn find_inverse(&mut self)
        ensures { self.new ≡ self.old }
    {
        self.inverse = likely_inverse(self.bottom >> (self.bottom.trailing_zeros() % 64));
    }

    // Makes a row short, where it fits.
    pub(crate) fn shorten(&mut self)
        ensures { self.new ≡ self.old }
    {
        if self.short {
            return;
        }
        let Some(short) = self.numbers.write_short(&mut self.tops) else {
            self.bound = LIMIT - 1;
            return;
        };
        self.bottom = short.bottom;
        self.bound = short.bound;
        self.tight = false;
        self.short = true;
    }

    /// Divides each number by the one at `enter`, or says which quotient is wide. What stands in the room is no matter.
    pub fn divide(&mut self, enter: usize, room: &mut [usize]) -> Result<(), usize>
        requires inside { enter < length self.old.items }
        requires room { length room.old ≡ length self.old.items }
        requires not_zero { number_at self.old.items enter ≢ zero_fraction }
        ensures ok { OnOk result (IsDividedRow self.old.items (number_at self.old.items enter) self.new.items) }
        ensures err { IfErr result (λ k. (k < length self.old.items) × ¬ IsNarrow (number_at self.old.items k /ʳ number_at self.old.items enter)) }
        ensures room { length room.new ≡ length room.old }
    {
        if self.short {
            let pivot = self.tops[enter];
            turn_all(&mut self.tops, pivot < 0);
            self.bottom = pivot.unsigned_abs();
            self.cancel(room);
            self.find_inverse();
            return Ok(());
        }
        match self.numbers.divide(enter) {
            Ok(()) => {
                self.shorten();
                Ok(())
            }
            Err(place) => Err(place),
        }
    }
}
