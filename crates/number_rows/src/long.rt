//! Rows whose numbers are past the limit of short ones.

ghost use Rattle.std.specs.Prelude.{◌≡◌, ◌≢◌, ◌<◌, ◌^◌, [], true, length, OnOk, IfOk, IfErr, IfSome, IsTrue, ◌↔◌, ℕ, unsigned_abs};
ghost use Rattle.std.specs.Bool.{OnTrue, OnFalse};
ghost use Rattle.fractions.specs.Fraction.{zero_fraction, ◌/ʳ◌, ◌<ʳ◌};
ghost use Rattle.fractions.specs.Limits.{IsNarrow};
ghost use Rattle.linear_table.specs.Plans.{number_at};
ghost use Rattle.linear_table.specs.Wide.{LessFits};
ghost use Rattle.number_rows.specs.Changed.{AreNarrow, IsDividedRow, IsReducedRow};
ghost use Rattle.number_rows.specs.Row.{kept};
ghost use Rattle.number_rows.specs.Tops.{top_at, AreWithin, AreOver};

use crate::bottoms::{common_bottom, write_tops};
use crate::ratios::{divide_numbers, reduce_numbers};
use crate::row::NumberRow;
use crate::tops::{LIMIT, product_keeps_within};
use crate::wide::{
    divide_wide, fits_wide, fraction, narrow, wide_content, wide_divisor, wide_quotient,
    wide_zeros, widen, write_whole,
};
use fractions::Ratio;
use plan_base::NoMemory;
use std::alloc::Global;
use std::marker::Model;

/// A denominator of whole numbers, and how great their magnitudes are at most.
#[derive(Clone, Copy)]
pub struct Shortened {
    pub bottom: u64,
    pub bound: u64,
}

/// Numbers past the limit of short rows: whole numbers of 128 bits over one denominator where that fits, else fractions.
#[derive(Drop)]
pub struct Long {
    whole: bool,
    bottom: u64,
    bound: u128,
    tops: Vec<i128>,
    numbers: Vec<Ratio>,
}

impl Model for Long {
    ghost use Rattle.number_rows.specs.Changed.{Numbers, numbers_code};
    ghost use Rattle.number_rows.specs.Row.{kept, IsKeptLong};

    ghost Value = { Numbers };

    ghost coded = { numbers_code };

    ghost view = { λ r. record { items = kept r.whole r.bottom r.tops.items r.numbers.items } };

    ghost invariant = { λ r. IsKeptLong r.bottom r.bound r.tops.items r.numbers.items };
}

/// Writes fractions as whole numbers below the limit of short rows over one denominator, where that fits.
pub fn short_form(tops: &mut [i64], numbers: &[Ratio]) -> Option<Shortened>
    requires lengths { length tops.old ≡ length numbers.now }
    requires old_small { (k : ℕ) → k < length tops.old → unsigned_abs (top_at tops.old k) < 2 ^ 62 }
    ensures length_is { length tops.new ≡ length tops.old }
    ensures small { (k : ℕ) → k < length tops.new → unsigned_abs (top_at tops.new k) < 2 ^ 62 }
    ensures over { IfSome result (λ s. (0 < s.bottom) × (s.bottom < 2 ^ 62) × (s.bound < 2 ^ 62) × AreWithin tops.new s.bound × AreOver tops.new s.bottom numbers.now) }
{
    let Some(bottom) = common_bottom(numbers) else {
        return None;
    };
    if write_tops(tops, numbers, bottom) {
        Some(Shortened {
            bottom,
            bound: LIMIT - 1,
        })
    } else {
        None
    }
}

impl Long {
    /// No numbers.
    pub fn empty(alloc: Global) -> Long
        ensures { result.items ≡ [] }
    {
        Long {
            whole: false,
            bottom: 1,
            bound: 0,
            tops: Vec::new(alloc),
            numbers: Vec::new(alloc),
        }
    }

    /// These numbers.
    pub fn from_numbers(alloc: Global, numbers: Vec<Ratio>) -> Result<Long, NoMemory>
        ensures { IfOk result (λ long. long.items ≡ numbers.items) }
    {
        let tops = wide_zeros(alloc, numbers.len())?;
        Ok(Long {
            whole: false,
            bottom: 1,
            bound: 0,
            tops,
            numbers,
        })
    }

    /// So many zeros.
    pub fn zeros(alloc: Global, count: usize) -> Result<Long, NoMemory>
        ensures { IfOk result (λ long. length long.items ≡ count) }
    {
        Ok(Long {
            whole: true,
            bottom: 1,
            bound: 0,
            tops: wide_zeros(alloc, count)?,
            numbers: vec![in alloc; Ratio::zero(); count]?,
        })
    }

    /// How many numbers there are.
    pub fn len(&self) -> usize
        ensures { result ≡ length self.now.items }
    {
        self.tops.len()
    }

    /// The number at a place.
    pub fn number(&self, k: usize) -> Ratio
        requires { k < length self.now.items }
        ensures { result ≡ number_at self.now.items k }
    {
        if self.whole {
            fraction(self.tops[k], self.bottom)
        } else {
            self.numbers[k]
        }
    }

    /// Whether the number at a place is above 0.
    pub fn is_above(&self, k: usize) -> bool
        requires { k < length self.now.items }
        ensures { IsTrue result ↔ (zero_fraction <ʳ number_at self.now.items k) }
    {
        if self.whole {
            self.tops[k] > 0
        } else {
            self.numbers[k].is_positive()
        }
    }

    /// Whether the number at a place is below 0.
    pub fn is_below(&self, k: usize) -> bool
        requires { k < length self.now.items }
        ensures { IsTrue result ↔ (number_at self.now.items k <ʳ zero_fraction) }
    {
        if self.whole {
            self.tops[k] < 0
        } else {
            self.numbers[k].is_neg()
        }
    }

    /// Whether the number at a place is 0.
    pub fn is_zero(&self, k: usize) -> bool
        requires { k < length self.now.items }
        ensures { IsTrue result ↔ (number_at self.now.items k ≡ zero_fraction) }
    {
        if self.whole {
            self.tops[k] == 0
        } else {
            self.numbers[k].is_zero()
        }
    }

    /// Takes whole numbers over a denominator in place of its own.
    pub fn write(&mut self, tops: &[i64], bottom: u64, bound: u64)
        requires lengths { length tops.now ≡ length self.old.items }
        requires positive { 0 < bottom }
        requires small { bottom < 2 ^ 62 }
        requires within { AreWithin tops.now bound }
        requires bound_small { bound < 2 ^ 62 }
        ensures { AreOver tops.now bottom self.new.items }
    {
        widen(&mut self.tops, tops);
        self.whole = true;
        self.bottom = bottom;
        self.bound = bound as u128;
    }

    /// Writes the numbers as whole numbers below the limit of short rows, where that fits.
    pub fn write_short(&self, tops: &mut [i64]) -> Option<Shortened>
        requires lengths { length tops.old ≡ length self.now.items }
        requires old_small { (k : ℕ) → k < length tops.old → unsigned_abs (top_at tops.old k) < 2 ^ 62 }
        ensures length_is { length tops.new ≡ length tops.old }
        ensures small { (k : ℕ) → k < length tops.new → unsigned_abs (top_at tops.new k) < 2 ^ 62 }
        ensures over { IfSome result (λ s. (0 < s.bottom) × (s.bottom < 2 ^ 62) × (s.bound < 2 ^ 62) × AreWithin tops.new s.bound × AreOver tops.new s.bottom self.now.items) }
    {
        if self.whole {
            if self.bound >= LIMIT as u128 {
                return None;
            }
            narrow(tops, &self.tops);
            return Some(Shortened {
                bottom: self.bottom,
                bound: self.bound as u64,
            });
        }
        short_form(tops, &self.numbers)
    }

    /// Divides each number by the one at `enter`, or says which quotient is wide.
    pub fn divide(&mut self, enter: usize) -> Result<(), usize>
        requires inside { enter < length self.old.items }
        requires not_zero { number_at self.old.items enter ≢ zero_fraction }
        ensures ok { OnOk result (IsDividedRow self.old.items (number_at self.old.items enter) self.new.items) }
        ensures err { IfErr result (λ k. (k < length self.old.items) × ¬ IsNarrow (number_at self.old.items k /ʳ number_at self.old.items enter)) }
        ensures length_is { length self.new.items ≡ length self.old.items }
    {
        write_whole(&mut self.numbers, &self.tops, self.bottom, self.whole);
        self.whole = false;
        let pivot = self.numbers[enter];
        divide_numbers(&mut self.numbers, &pivot)
    }

    /// Takes its number at `enter` times the pivot's row, or says which number that makes wide.
    pub fn reduce(&mut self, enter: usize, pivot_row: &NumberRow) -> Result<(), usize>
        requires inside { enter < length self.old.items }
        requires width { length self.old.items ≡ length pivot_row.now.items }
        requires narrow { AreNarrow self.old.items }
        ensures ok { OnOk result (IsReducedRow self.old.items (number_at self.old.items enter) pivot_row.now.items self.new.items) }
        ensures err { IfErr result (λ k. (k < length self.old.items) × ¬ LessFits (number_at self.old.items k) (number_at self.old.items enter) (number_at pivot_row.now.items k)) }
        ensures length_is { length self.new.items ≡ length self.old.items }
    {
        write_whole(&mut self.numbers, &self.tops, self.bottom, self.whole);
        self.whole = false;
        let factor = self.numbers[enter];
        reduce_numbers(&mut self.numbers, &factor, pivot_row)
    }

    /// Takes its number at `enter` times a short row, where the numbers are whole and their products fit.
    pub fn reduce_whole(
        &mut self,
        enter: usize,
        others: &[i64],
        other_bottom: u64,
        other_bound: u64,
    ) -> bool
        requires inside { enter < length self.old.items }
        requires width { length self.old.items ≡ length others.now }
        requires positive { 0 < other_bottom }
        requires small { other_bottom < 2 ^ 62 }
        requires within { AreWithin others.now other_bound }
        requires bound_small { other_bound < 2 ^ 62 }
        ensures done { OnTrue result (IsReducedRow self.old.items (number_at self.old.items enter) (kept true other_bottom others.now []) self.new.items) }
        ensures not { OnFalse result (self.new ≡ self.old) }
        ensures length_is { length self.new.items ≡ length self.old.items }
    {
        if !self.whole {
            return false;
        }
        let top = self.tops[enter];
        let common = wide_divisor(top, other_bottom);
        let scale = other_bottom / common;
        let factor = wide_quotient(top, common);
        if !fits_wide(self.bound, scale, other_bound, factor.unsigned_abs()) {
            return false;
        }
        let divisor = wide_content(
            self.bottom,
            &self.tops,
            scale,
            others,
            factor,
            self.bound,
            other_bound,
        );
        let bottom = self.bottom / divisor;
        if !product_keeps_within(bottom, scale) {
            return false;
        }
        self.bound = divide_wide(
            &mut self.tops,
            scale,
            others,
            factor,
            divisor,
            self.bound,
            other_bound,
        );
        self.bottom = bottom * scale;
        true
    }
}
