//! Fractions read from text.
ghost use Rattle.std.specs.Prelude.{◌≡◌, ℕ, ◌+◌, ◌<◌, ◌≤◌, ◌^◌, ℤ, pos, ◌-ℤ◌, ◌≤ℤ◌, neg_ℤ, List, [], ◌∷◌, ◌++◌, length, min};
ghost use Rattle.std.specs.Option.{SomeIff};
ghost use Rattle.std.specs.Int.{IsInRange};
ghost use Rattle.std.specs.Str.Parse.{AllDigits, digits_value};
ghost use Rattle.fractions.specs.Rounding.{rounded};
ghost use Rattle.fractions.specs.Numeral.{Numeral, Writes, magnitude, rounded_at, times_ten};
ghost use Rattle.fractions.specs.Leading.{IsLeading, near_exponent, near_place};
ghost use Rattle.fractions.specs.Quotient.{Quotient, WritesQuotient};
ghost use Rattle.fractions.specs.Reading.{GivesNumeral, GivesMagnitude, GivesQuotient, ReadsNumeral, ReadsRatio};

use crate::arithmetic::reduced;
use crate::ratio::Ratio;
use crate::split::{Written, WrittenQuotient, numeral_parts, quotient_parts};
use thiserror::Error;

/// Why a text was not read as a number.
#[derive(Clone, Copy, Debug, PartialEq, Eq, Error)]
pub enum NumeralFault {
    /// The text is no numeral.
    #[error("F1")]
    NotNumeral,
    /// The number is too large.
    #[error("F2")]
    TooLarge,
}

// Magnitudes from here on are too large.
const LIMIT: u128 = 1_000_000_000_000_000_000;

// The digits from the first nonzero one on: how many there are, and the number that the first 16 of them write.
#[derive(Clone, Copy)]
struct Leading {
    count: usize,
    value: u64,
}

impl Leading {
    // The same with one more digit behind.
    fn then(self, digit: u8) -> Leading
        requires digit { IsInRange 48 57 digit }
        requires room { self.count + 1 < 2 ^ 64 }
        requires small { self.value < 10 ^ 16 }
        ensures { (ds : List ℕ) → IsLeading ds self → IsLeading (ds ++ digit ∷ []) result }
    {
        if self.count == 0 && digit == b'0' {
            self
        } else if self.count < 16 {
            Leading {
                count: self.count + 1,
                value: self.value * 10 + (digit - b'0') as u64,
            }
        } else {
            Leading {
                count: self.count + 1,
                value: self.value,
            }
        }
    }
}

// The digits before and behind a point.
fn leading_digits(whole: &[u8], part: &[u8]) -> Leading
    requires whole { AllDigits 10 whole.now }
    requires part { AllDigits 10 part.now }
    requires room { length whole.now + length part.now < 2 ^ 64 }
    ensures { IsLeading (whole.now ++ part.now) result }
{
    let mut seen = Leading { count: 0, value: 0 };
    for digit in whole {
        seen = seen.then(*digit);
    }
    for digit in part {
        seen = seen.then(*digit);
    }
    seen
}

// The number that digits write, or 10^20 where it is larger.
fn near_value(digits: &[u8]) -> u128
    requires { AllDigits 10 digits.now }
    ensures { result ≡ min (digits_value 10 digits.now) (10 ^ 20) }
{
    let mut value: u128 = 0;
    for digit in digits {
        value = (value * 10 + (*digit - b'0') as u128).min(100_000_000_000_000_000_000);
    }
    value
}

// An exponent, or 10^20 with its sign where it is larger.
fn near_exponent(written: &Written) -> i128
    requires { AllDigits 10 written.now.power }
    ensures value { result ≡ near_exponent written.now }
    ensures low { neg_ℤ (pos (10 ^ 20)) ≤ℤ result }
    ensures high { result ≤ℤ pos (10 ^ 20) }
{
    let size = near_value(written.power) as i128;
    if written.power_negative { -size } else { size }
}

// The place of the first of `count` digits, by that exponent.
fn near_place(written: &Written, count: usize) -> i128
    requires { AllDigits 10 written.now.power }
    ensures value { result ≡ near_place written.now count }
    ensures low { neg_ℤ (pos (10 ^ 21)) ≤ℤ result }
    ensures high { result ≤ℤ pos (10 ^ 21) }
{
    let exponent = near_exponent(written);
    count as i128 - 1 + exponent - written.part.len() as i128
}

// A number without its last `places` digits, rounded.
fn rounded(value: u64, places: u32) -> u64
    requires small { value < 10 ^ 16 }
    requires few { places ≤ 16 }
    ensures value { result ≡ rounded value places }
    ensures small { result ≤ 10 ^ 16 }
{
    let unit = 10u64.pow(places);
    (2 * value + unit) / (2 * unit)
}

// `digits` times ten to the power `place`.
fn times_ten(digits: u64, place: i128) -> Result<Ratio, NumeralFault>
    requires small { digits ≤ 10 ^ 16 }
    requires low { neg_ℤ (pos 15) ≤ℤ place }
    requires high { place ≤ℤ pos 17 }
    ensures { GivesMagnitude result (times_ten digits place) }
{
    if place < 0 {
        return Ok(reduced(digits as i128, 10u128.pow((-place) as u32)));
    }
    let value = digits as u128 * 10u128.pow(place as u32);
    if value < LIMIT {
        Ok(Ratio::whole_number(value as i128))
    } else {
        Err(NumeralFault::TooLarge)
    }
}

// `digits` times ten to the power `lowest`, rounded at `place`.
fn rounded_at(digits: u64, lowest: i128, place: i128) -> Result<Ratio, NumeralFault>
    requires small { digits < 10 ^ 16 }
    requires low { neg_ℤ (pos 15) ≤ℤ place }
    requires high { place ≤ℤ pos 17 }
    requires lowest_high { lowest ≤ℤ pos 17 }
    requires near { (place -ℤ lowest) ≤ℤ pos 16 }
    ensures { GivesMagnitude result (rounded_at digits lowest place (place -ℤ lowest)) }
{
    if place < lowest {
        times_ten(digits, lowest)
    } else {
        times_ten(rounded(digits, (place - lowest) as u32), place)
    }
}

// The magnitude of a numeral.
fn magnitude(written: &Written) -> Result<Ratio, NumeralFault>
    requires whole { AllDigits 10 written.now.whole }
    requires part { AllDigits 10 written.now.part }
    requires power { AllDigits 10 written.now.power }
    requires room { length written.now.whole + length written.now.part < 2 ^ 64 }
    ensures { GivesMagnitude result (magnitude written.now) }
{
    let leading = leading_digits(written.whole, written.part);
    if leading.count == 0 {
        return Ok(Ratio::zero());
    }
    let first = near_place(written, leading.count);
    if first > 17 {
        return Err(NumeralFault::TooLarge);
    }
    if first < -16 {
        return Ok(Ratio::zero());
    }
    let lowest = first + 1 - leading.count.min(16) as i128;
    rounded_at(leading.value, lowest, (first - 14).max(-15))
}

// The value of a numeral.
fn numeral_value(written: &Written) -> Result<Ratio, NumeralFault>
    requires whole { AllDigits 10 written.now.whole }
    requires part { AllDigits 10 written.now.part }
    requires power { AllDigits 10 written.now.power }
    requires room { length written.now.whole + length written.now.part < 2 ^ 64 }
    ensures { GivesNumeral result written.now }
{
    match magnitude(written) {
        Ok(size) => Ok(if written.negative { size.neg() } else { size }),
        Err(fault) => Err(fault),
    }
}

/// Reads a numeral, which is a number of JSON (RFC 8259, section 6): an optional `-`, a whole part without a leading
/// zero, an optional fraction, an optional exponent.
///
/// The value is the decimal that the text writes, rounded once: half away from zero, 14 places below its first nonzero
/// digit, and no lower than 15 places behind the point.
///
/// # Errors
///
/// `NotNumeral` exactly where the text is no numeral, `TooLarge` exactly where the rounded magnitude is 10^18 or more.
pub fn read_numeral(text: &[u8]) -> Result<Ratio, NumeralFault>
    ensures reading { ReadsNumeral text.now result }
    ensures unique { (n : Numeral) → Writes text.now n → GivesNumeral result n }
{
    match numeral_parts(text) {
        Some(written) => numeral_value(&written),
        None => Err(NumeralFault::NotNumeral),
    }
}

// The value of a text of digits, where it is below 10^18.
fn whole_below(digits: &[u8]) -> Option<u64>
    requires { AllDigits 10 digits.now }
    ensures { SomeIff result (digits_value 10 digits.now < 10 ^ 18) (digits_value 10 digits.now) }
{
    let mut value: u64 = 0;
    for c in digits {
        value = value * 10 + (*c - b'0') as u64;
        if value >= 1_000_000_000_000_000_000 {
            return None;
        }
    }
    Some(value)
}

// The value of a quotient.
fn quotient_value(written: &WrittenQuotient) -> Result<Ratio, NumeralFault>
    requires top { AllDigits 10 written.now.top }
    requires bottom { AllDigits 10 written.now.bottom }
    requires nonzero { 0 < digits_value 10 written.now.bottom }
    ensures { GivesQuotient result written.now }
{
    let Some(top) = whole_below(written.top) else {
        return Err(NumeralFault::TooLarge);
    };
    let Some(bottom) = whole_below(written.bottom) else {
        return Err(NumeralFault::TooLarge);
    };
    let size = reduced(top as i128, bottom as u128);
    Ok(if written.negative { size.neg() } else { size })
}

/// Reads a numeral as `read_numeral` does, or an exact quotient: an optional `-`, a whole part, `/`, and a whole part
/// that is not 0, each whole part without a leading zero.
///
/// # Errors
///
/// `NotNumeral` exactly where the text has neither form. `TooLarge` exactly where the magnitude of the rounded numeral, or
/// a whole part of the quotient, is 10^18 or more.
pub fn read_ratio(text: &[u8]) -> Result<Ratio, NumeralFault>
    ensures reading { ReadsRatio text.now result }
    ensures numeral { (n : Numeral) → Writes text.now n → GivesNumeral result n }
    ensures quotient { (q : Quotient) → WritesQuotient text.now q → GivesQuotient result q }
{
    match quotient_parts(text) {
        Some(written) => quotient_value(&written),
        None => read_numeral(text),
    }
}
