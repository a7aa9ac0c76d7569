//! Numerals and energies, and parts of them.
ghost use Rattle.std.specs.Prelude.{◌≡◌, ◌*◌, ◌<◌, ◌≤◌, ◌^◌, IfOk, pos, ◌<ℤ◌, ◌*ℤ◌, int_div, unsigned_abs};
ghost use Rattle.fractions.specs.Fraction.{◌/ʳ◌, whole_fraction};
ghost use Rattle.fractions.specs.Limits.{IsBelow};
ghost use Rattle.fractions.specs.Reading.{ReadsNumeral};
ghost use Rattle.energy_units.specs.Energy.{Reads};
ghost use Rattle.prototype_fields.specs.Numbers.{energy_reading, hundredths, is_amount, is_less, numeral_reading, small_whole};

use energy_units::{EnergyFault, Measure, read_energy, read_power};
use fractions::{NumeralFault, Ratio, read_numeral};
use std::cmp::Ordering;

/// The value of a numeral.
///
/// # Errors
///
/// `NotNumeral` where the text is no numeral, `TooLarge` where its rounded magnitude is 10^18 or more.
pub fn numeral(text: &[u8]) -> Result<Ratio, NumeralFault>
    ensures value { result ≡ numeral_reading text.now }
    ensures reading { ReadsNumeral text.now result }
    ensures small { IfOk result (IsBelow 120) }
{
    read_numeral(text)
}

/// The value of an energy in joules, or of a power in watts.
///
/// # Errors
///
/// As those of `energy_units::read_energy`.
pub fn energy(measure: Measure, text: &[u8]) -> Result<Ratio, EnergyFault>
    ensures value { result ≡ energy_reading measure text.now }
    ensures reading { Reads measure text.now result }
    ensures small { IfOk result (IsBelow 120) }
{
    match measure {
        Measure::Joules => read_energy(text),
        Measure::Watts => read_power(text),
    }
}

/// A tenth of a number that was read.
pub fn tenth(number: &Ratio) -> Ratio
    requires { IsBelow 120 number.now }
    ensures { result ≡ number.now /ʳ whole_fraction (pos 10) }
{
    match number.div(&Ratio::whole(10)) {
        Ok(part) => part,
        Err(_) => unreachable!(),
    }
}

/// A thirtieth of a number that was read.
pub fn thirtieth(number: &Ratio) -> Ratio
    requires { IsBelow 120 number.now }
    ensures { result ≡ number.now /ʳ whole_fraction (pos 30) }
{
    match number.div(&Ratio::whole(30)) {
        Ok(part) => part,
        Err(_) => unreachable!(),
    }
}

/// Whether a number is at least 0.
pub fn is_amount(number: &Ratio) -> bool
    ensures { result ≡ is_amount number.now }
{
    !(number.numerator() < 0)
}

/// A whole number of at most 65,535.
pub fn small_whole(number: &Ratio) -> Option<u32>
    ensures { result ≡ small_whole number.now }
{
    let numerator = number.numerator();
    if number.denominator() == 1 && 0 <= numerator && numerator <= 65_535 {
        Some(numerator as u32)
    } else {
        None
    }
}

/// Whether a number is less than another.
pub fn is_less(number: &Ratio, other: &Ratio) -> bool
    ensures { result ≡ is_less number.now other.now }
{
    match number.cmp(other) {
        Ordering::Less => true,
        Ordering::Equal => false,
        Ordering::Greater => false,
    }
}

// The greatest magnitude of a number in hundredths.
const MILLION: i64 = 1_000_000;

// A fraction in hundredths, cut toward zero.
fn cut(numerator: i128, denominator: i128) -> i64
    requires small { unsigned_abs numerator < 2 ^ 120 }
    requires positive { pos 0 <ℤ denominator }
    requires moderate { unsigned_abs numerator ≤ 1000000 * unsigned_abs denominator }
    ensures { result ≡ int_div (numerator *ℤ pos 100) denominator }
{
    (numerator * 100 / denominator) as i64
}

/// A number of magnitude at most 1,000,000, in hundredths, cut toward zero.
pub fn hundredths(number: &Ratio) -> Option<i64>
    requires { IsBelow 120 number.now }
    ensures { result ≡ hundredths number.now }
{
    if is_less(&Ratio::whole(MILLION), number) || is_less(number, &Ratio::whole(-MILLION)) {
        return None;
    }
    Some(cut(number.numerator(), number.denominator()))
}
