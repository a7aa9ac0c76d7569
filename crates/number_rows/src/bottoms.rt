//! One denominator that fractions are written over.

ghost use Rattle.std.specs.Prelude.{◌≡◌, ℕ, ◌<◌, ◌*◌, ◌%◌, ◌^◌, unsigned_abs, length, IfSome};
ghost use Rattle.std.specs.Bool.{OnTrue};
ghost use Rattle.std.specs.Int.{◌∣◌};
ghost use Rattle.fractions.specs.Fraction.{frac};
ghost use Rattle.number_rows.specs.Tops.{top_at, AreOver, DividesInto};

use crate::divisors::common_divisor;
use crate::tops::LIMIT;
use fractions::Ratio;

// The denominator of a fraction and a denominator that it divides, as multiple of another.
fn next_bottom(bottom: u64, number: &Ratio) -> Option<u64>
    requires positive { 0 < bottom }
    requires small { bottom < 2 ^ 62 }
    ensures { IfSome result (λ d. (0 < d) × (d < 2 ^ 62) × (bottom ∣ d) × (number.now.den ∣ d)) }
{
    let own = number.denominator() as u128;
    if own == 1 {
        return Some(bottom);
    }
    if own >= LIMIT as u128 {
        return None;
    }
    let rest = bottom % own as u64;
    if rest == 0 {
        return Some(bottom);
    }
    let common = common_divisor(own as u64, bottom);
    let next = bottom as u128 * (own as u64 / common) as u128;
    if next >= LIMIT as u128 {
        return None;
    }
    Some(next as u64)
}

/// A denominator below the limit that all fractions can be written over.
pub fn common_bottom(numbers: &[Ratio]) -> Option<u64>
    ensures { IfSome result (λ d. (0 < d) × (d < 2 ^ 62) × DividesInto numbers.now d) }
{
    let mut bottom = 1;
    for k in 0..numbers.len() {
        match next_bottom(bottom, &numbers[k]) {
            Some(next) => bottom = next,
            None => return None,
        }
    }
    Some(bottom)
}

// The number that a fraction is over a denominator, where its magnitude is below the limit.
fn top_over(number: &Ratio, bottom: u64) -> Option<i64>
    requires positive { 0 < bottom }
    requires small { bottom < 2 ^ 62 }
    requires divides { number.now.den ∣ bottom }
    ensures { IfSome result (λ t. (number.now ≡ frac t bottom) × (unsigned_abs t < 2 ^ 62)) }
{
    let own = number.numerator();
    if own == 0 {
        return Some(0);
    }
    if own.unsigned_abs() >= LIMIT as u128 {
        return None;
    }
    let top = own * (bottom / number.denominator() as u64) as i128;
    if top.unsigned_abs() >= LIMIT as u128 {
        return None;
    }
    Some(top as i64)
}

/// Writes each fraction over a denominator, where all fit.
pub fn write_tops(tops: &mut [i64], numbers: &[Ratio], bottom: u64) -> bool
    requires lengths { length tops.old ≡ length numbers.now }
    requires positive { 0 < bottom }
    requires small { bottom < 2 ^ 62 }
    requires divides { DividesInto numbers.now bottom }
    requires old_small { (k : ℕ) → k < length tops.old → unsigned_abs (top_at tops.old k) < 2 ^ 62 }
    ensures length_is { length tops.new ≡ length tops.old }
    ensures small { (k : ℕ) → k < length tops.new → unsigned_abs (top_at tops.new k) < 2 ^ 62 }
    ensures over { OnTrue result (AreOver tops.new bottom numbers.now) }
{
    for k in 0..numbers.len() {
        match top_over(&numbers[k], bottom) {
            Some(top) => tops[k] = top,
            None => return false,
        }
    }
    true
}
