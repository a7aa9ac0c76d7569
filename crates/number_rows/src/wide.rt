//! Whole numbers of 128 bits that stand over one denominator.

ghost use Rattle.std.specs.Prelude.{◌≡◌, ℕ, ◌<◌, ◌≤◌, ◌+◌, ◌*◌, ◌^◌, ℤ, pos, ◌*ℤ◌, ◌-ℤ◌, int_div, unsigned_abs, length, IfOk};
ghost use Rattle.std.specs.Bool.{OnTrue};
ghost use Rattle.std.specs.Int.{◌∣◌};
ghost use Rattle.number_rows.specs.Row.{kept};
ghost use Rattle.number_rows.specs.Tops.{top_at, AreWithin, AreSame, AreOver, IsCombinedOver, DividesCombined};
ghost use Rattle.fractions.specs.Fraction.{frac};

use crate::dividing::{exact_quotient, likely_inverse, rest_by};
use crate::divisors::common_factor;
use fractions::Ratio;
use plan_base::NoMemory;
use std::alloc::Global;

/// The magnitudes of products stay below this.
const PRODUCT: u128 = 1 << 124;

/// So many zeros.
#[tactic(auto, using(crate::proofs::Lists::zero_at))]
pub fn wide_zeros(alloc: Global, count: usize) -> Result<Vec<i128>, NoMemory>
    ensures length_is { IfOk result (λ tops. length tops.items ≡ count) }
    ensures zero { IfOk result (λ tops. (k : ℕ) → k < count → top_at tops.items k ≡ pos 0) }
{
    Ok(vec![in alloc; 0i128; count]?)
}

/// Writes each number where 128 bits are.
pub fn widen(wides: &mut [i128], tops: &[i64])
    requires lengths { length wides.old ≡ length tops.now }
    requires small { (k : ℕ) → k < length tops.now → unsigned_abs (top_at tops.now k) < 2 ^ 62 }
    ensures { AreSame tops.now wides.new }
{
    for k in 0..wides.len() {
        wides[k] = tops[k] as i128;
    }
}

/// Writes each number where 64 bits are.
pub fn narrow(tops: &mut [i64], wides: &[i128])
    requires lengths { length tops.old ≡ length wides.now }
    requires small { (k : ℕ) → k < length wides.now → unsigned_abs (top_at wides.now k) < 2 ^ 62 }
    ensures { AreSame wides.now tops.new }
{
    for k in 0..tops.len() {
        tops[k] = wides[k] as i64;
    }
}

/// A whole number over a denominator as a fraction.
pub fn fraction(top: i128, bottom: u64) -> Ratio
    requires small { unsigned_abs top < 2 ^ 125 }
    requires positive { 0 < bottom }
    requires small_bottom { bottom < 2 ^ 62 }
    ensures { result ≡ frac top bottom }
{
    if top == 0 {
        return Ratio::zero();
    }
    match Ratio::whole_number(top).div(&Ratio::whole_number(bottom as i128)) {
        Ok(number) => number,
        Err(_) => unreachable!(),
    }
}

// Whether the product of two numbers is below the limit of products.
fn fits_product(first: u128, second: u128) -> bool
    ensures { OnTrue result (first * second < 2 ^ 124) }
{
    match first.checked_mul(second) {
        Some(product) => product < PRODUCT,
        None => false,
    }
}

/// Whether the products of a bound and a scale, and of another and a factor, are below the limit of products.
pub fn fits_wide(bound: u128, scale: u64, other_bound: u64, factor: u128) -> bool
    requires scale { scale < 2 ^ 62 }
    requires other_bound { other_bound < 2 ^ 62 }
    ensures { OnTrue result ((bound * scale < 2 ^ 124) × (other_bound * factor < 2 ^ 124)) }
{
    fits_product(bound, scale as u128) && fits_product(other_bound as u128, factor)
}

/// What a number and a natural have in common.
pub fn wide_divisor(top: i128, bottom: u64) -> u64
    requires small { unsigned_abs top < 2 ^ 125 }
    requires positive { 0 < bottom }
    ensures positive { 0 < result }
    ensures top { result ∣ unsigned_abs top }
    ensures bottom { result ∣ bottom }
{
    common_factor(rest_by(top, bottom), bottom)
}

// The same, where the divisor mostly divides the number, which its shift and inverse show.
fn likely_wide_divisor(top: i128, bottom: u64, shift: u32, inverse: u64) -> u64
    requires small { unsigned_abs top < 2 ^ 125 }
    requires positive { 0 < bottom }
    requires small_bottom { bottom < 2 ^ 62 }
    requires shift { shift < 64 }
    ensures positive { 0 < result }
    ensures top { result ∣ unsigned_abs top }
    ensures bottom { result ∣ bottom }
{
    if top == 0 {
        return bottom;
    }
    match exact_quotient(top, bottom, shift, inverse) {
        Some(_) => bottom,
        None => wide_divisor(top, bottom),
    }
}

// The inverse of the odd part of a number, which is known of another.
fn next_inverse(next: u64, last: u64, inverse: u64) -> u64 {
    if next == last {
        inverse
    } else {
        likely_inverse(next >> (next.trailing_zeros() % 64))
    }
}

/// A number divided by a natural, toward zero.
pub fn wide_quotient(top: i128, divisor: u64) -> i128
    requires small { unsigned_abs top < 2 ^ 125 }
    requires positive { 0 < divisor }
    requires small_divisor { divisor < 2 ^ 62 }
    ensures value { result ≡ int_div top (pos divisor) }
    ensures small { unsigned_abs result ≤ unsigned_abs top }
{
    top / divisor as i128
}

// The same, where the divisor mostly divides the number, which its shift and inverse show.
fn likely_wide_quotient(top: i128, divisor: u64, shift: u32, inverse: u64) -> i128
    requires small { unsigned_abs top < 2 ^ 125 }
    requires positive { 0 < divisor }
    requires small_divisor { divisor < 2 ^ 62 }
    requires shift { shift < 64 }
    ensures value { result ≡ int_div top (pos divisor) }
    ensures small { unsigned_abs result ≤ unsigned_abs top }
{
    if top == 0 {
        return 0;
    }
    match exact_quotient(top, divisor, shift, inverse) {
        Some(quotient) => quotient as i128,
        None => wide_quotient(top, divisor),
    }
}

/// One number times a scale, less another times a factor.
pub fn wide_combined(top: i128, scale: u64, other: i64, factor: i128) -> i128
    requires top { unsigned_abs top < 2 ^ 125 }
    requires scale { scale < 2 ^ 62 }
    requires other { unsigned_abs other < 2 ^ 62 }
    requires factor { unsigned_abs factor < 2 ^ 125 }
    requires first { unsigned_abs top * scale < 2 ^ 124 }
    requires second { unsigned_abs other * unsigned_abs factor < 2 ^ 124 }
    ensures value { result ≡ top *ℤ pos scale -ℤ other *ℤ factor }
    ensures small { unsigned_abs result < 2 ^ 125 }
{
    top * scale as i128 - other as i128 * factor
}

/// A divisor of a denominator that divides each number times the scale, less the other times the factor.
pub fn wide_content(
    bottom: u64,
    tops: &[i128],
    scale: u64,
    others: &[i64],
    factor: i128,
    bound: u128,
    other_bound: u64,
) -> u64
    requires positive { 0 < bottom }
    requires small { bottom < 2 ^ 62 }
    requires lengths { length tops.now ≡ length others.now }
    requires within { AreWithin tops.now bound }
    requires others_within { AreWithin others.now other_bound }
    requires bound_small { bound < 2 ^ 125 }
    requires other_bound_small { other_bound < 2 ^ 62 }
    requires scale { scale < 2 ^ 62 }
    requires factor { unsigned_abs factor < 2 ^ 125 }
    requires first { bound * scale < 2 ^ 124 }
    requires second { other_bound * unsigned_abs factor < 2 ^ 124 }
    ensures positive { 0 < result }
    ensures bottom { result ∣ bottom }
    ensures divides { DividesCombined tops.now (pos scale) others.now factor result }
{
    let mut common = bottom;
    let mut inverse = likely_inverse(bottom >> (bottom.trailing_zeros() % 64));
    for k in 0..tops.len() {
        let number = wide_combined(tops[k], scale, others[k], factor);
        let next = likely_wide_divisor(number, common, common.trailing_zeros() % 64, inverse);
        inverse = next_inverse(next, common, inverse);
        common = next;
    }
    common
}

// The greater of two numbers.
fn wide_greater(a: u128, b: u128) -> u128
    ensures first { a ≤ result }
    ensures second { b ≤ result }
    ensures small { a < 2 ^ 125 → b < 2 ^ 125 → result < 2 ^ 125 }
{
    if a < b { b } else { a }
}

/// Makes of each number that number times the scale, less the other times the factor, divided by what divides all. Says how
/// great their magnitudes are at most.
pub fn divide_wide(
    tops: &mut [i128],
    scale: u64,
    others: &[i64],
    factor: i128,
    divisor: u64,
    bound: u128,
    other_bound: u64,
) -> u128
    requires lengths { length tops.old ≡ length others.now }
    requires within { AreWithin tops.old bound }
    requires others_within { AreWithin others.now other_bound }
    requires bound_small { bound < 2 ^ 125 }
    requires other_bound_small { other_bound < 2 ^ 62 }
    requires scale { scale < 2 ^ 62 }
    requires factor { unsigned_abs factor < 2 ^ 125 }
    requires first { bound * scale < 2 ^ 124 }
    requires second { other_bound * unsigned_abs factor < 2 ^ 124 }
    requires positive { 0 < divisor }
    requires small_divisor { divisor < 2 ^ 62 }
    requires divides { DividesCombined tops.old (pos scale) others.now factor divisor }
    ensures combined { IsCombinedOver tops.old (pos scale) others.now factor divisor tops.new }
    ensures within { AreWithin tops.new result }
    ensures small { result < 2 ^ 125 }
{
    let shift = divisor.trailing_zeros() % 64;
    let inverse = likely_inverse(divisor >> shift);
    let mut most = 0;
    for k in 0..tops.len() {
        let number = wide_combined(tops[k], scale, others[k], factor);
        let quotient = likely_wide_quotient(number, divisor, shift, inverse);
        most = wide_greater(most, quotient.unsigned_abs());
        tops[k] = quotient;
    }
    most
}

/// Writes each number as a fraction.
pub fn write_wide(numbers: &mut [Ratio], tops: &[i128], bottom: u64)
    requires lengths { length numbers.old ≡ length tops.now }
    requires small { (k : ℕ) → k < length tops.now → unsigned_abs (top_at tops.now k) < 2 ^ 125 }
    requires positive { 0 < bottom }
    requires small_bottom { bottom < 2 ^ 62 }
    ensures { AreOver tops.now bottom numbers.new }
{
    for k in 0..numbers.len() {
        numbers[k] = fraction(tops[k], bottom);
    }
}

/// Writes each of the numbers as a fraction, where they are whole.
pub fn write_whole(numbers: &mut [Ratio], tops: &[i128], bottom: u64, whole: bool)
    requires lengths { length numbers.old ≡ length tops.now }
    requires small { (k : ℕ) → k < length tops.now → unsigned_abs (top_at tops.now k) < 2 ^ 125 }
    requires positive { 0 < bottom }
    requires small_bottom { bottom < 2 ^ 62 }
    ensures { numbers.new ≡ kept whole bottom tops.now numbers.old }
{
    if whole {
        write_wide(numbers, tops, bottom);
    }
}
