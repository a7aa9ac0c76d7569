//! Energies and powers read from texts such as `75kW`.
#![tactic(auto)]

ghost use Rattle.std.specs.Prelude.{◌≡◌, ◌≢◌, ℕ, ◌+◌, ◌<◌, ◌≤◌, ◌^◌, pos, length, take, drop, IfSome, MatchOption, Some, None};
ghost use Rattle.fractions.specs.Fraction.{◌*ʳ◌, ◌<ʳ◌, whole_fraction};
ghost use Rattle.energy_units.specs.Energy.{letter_power, unit_factor, Energy, WritesEnergy, GivesEnergy, Reads};
ghost use Rattle.energy_units.specs.Split.{whole_len, part_len, number_len, behind_prefix, factor_of};
ghost use Rattle.energy_units.specs.Scaled.{GivesScaled, GivesParts, IsNumberText};
ghost use Rattle.fractions.specs.Numeral.{IsShort};

use fractions::{Ratio, read_numeral, split_digits};
use std::cmp::Ordering;
use thiserror::Error;

/// Why a text was not read as an energy or a power.
#[derive(Clone, Copy, Debug, PartialEq, Eq, Error)]
pub enum EnergyFault {
    /// The text does not begin with a number.
    #[error("E1")]
    NoNumber,
    /// What follows the number is no prefix, or nothing, and then a unit of the wanted kind.
    #[error("E2")]
    NoUnit,
    /// The number is too large.
    #[error("E3")]
    TooLarge,
}

/// What a text measures.
#[derive(Clone, Copy, Debug, PartialEq, Eq)]
pub enum Measure {
    /// An energy: `J`.
    Joules,
    /// A power: `W`, or `J` a tick.
    Watts,
}

// How long the whole part at the front of a text is: 0 where there is none.
fn whole_len(text: &[u8]) -> usize
    ensures value { result ≡ whole_len text.now }
    ensures within { result ≤ length text.now }
{
    match text {
        [b'0', ..] => 1,
        _ => split_digits(text).0.len(),
    }
}

// How long the point and the digits at the front of a text are: 0 where there are none.
fn part_len(text: &[u8]) -> usize
    ensures value { result ≡ part_len text.now }
    ensures within { result ≤ length text.now }
{
    match text {
        [b'.', rest @ ..] => match split_digits(rest).0.len() {
            0 => 0,
            digits => digits + 1,
        },
        _ => 0,
    }
}

// The longest number at the front of a text, and the rest.
fn split_number(text: &[u8]) -> Option<(&[u8], &[u8])>
    ensures { MatchOption result (whole_len text.now ≡ 0) (λ p. (whole_len text.now ≢ 0) × (p.0.now ≡ take (number_len text.now) text.now) × (p.1.now ≡ drop (number_len text.now) text.now)) }
{
    let whole = whole_len(text);
    if whole == 0 {
        return None;
    }
    let part = part_len(&text[whole..]);
    Some(text.split_at(whole + part))
}

// The power of ten that a prefix's letter stands for.
fn letter_power(letter: u8) -> Option<u32>
    ensures value { result ≡ letter_power letter }
    ensures small { IfSome result (λ power. power ≤ 24) }
{
    match letter {
        b'k' | b'K' => Some(3),
        b'M' => Some(6),
        b'G' => Some(9),
        b'T' => Some(12),
        b'P' => Some(15),
        b'E' => Some(18),
        b'Z' => Some(21),
        b'Y' => Some(24),
        _ => None,
    }
}

// The power of the prefix at the front of a text, and the rest.
fn split_prefix(text: &[u8]) -> (u32, &[u8])
    ensures power { result.0 ≡ (behind_prefix text.now).0 }
    ensures rest { result.1.now ≡ (behind_prefix text.now).1 }
    ensures small { result.0 ≤ 24 }
{
    match text {
        [] => (0, text),
        [first, rest @ ..] => match letter_power(*first) {
            Some(power) => (power, rest),
            None => (0, text),
        },
    }
}

// The factor of a text that is a unit.
fn factor_of(measure: Measure, unit: &[u8]) -> Option<u32>
    ensures value { result ≡ factor_of measure unit.now }
    ensures small { IfSome result (λ factor. factor ≤ 60) }
{
    match measure {
        Measure::Joules => match unit {
            [b'J'] => Some(1),
            _ => None,
        },
        Measure::Watts => match unit {
            [b'W'] => Some(1),
            [b'J'] => Some(60),
            _ => None,
        },
    }
}

// A number times a power of ten and a factor.
fn scaled(number: &Ratio, power: u32, factor: u32) -> Result<Ratio, EnergyFault>
    requires short { IsShort number.now }
    requires power { power ≤ 24 }
    requires factor { factor ≤ 60 }
    ensures { GivesScaled result number.now power factor }
{
    let Ok(prefixed) = number.mul(&Ratio::whole_number(10i128.pow(power))) else {
        return Err(EnergyFault::TooLarge);
    };
    if prefixed.cmp(&Ratio::whole_number(LIMIT)) != Ordering::Less {
        return Err(EnergyFault::TooLarge);
    }
    match prefixed.mul(&Ratio::whole(factor as i64)) {
        Ok(value) => Ok(value),
        Err(_) => Err(EnergyFault::TooLarge),
    }
}

// Numbers with a prefix are below this.
const LIMIT: i128 = 1_000_000_000_000_000_000_000_000_000_000;

// The energy of a number and the text behind it.
fn energy_of(number: &[u8], behind: &[u8], measure: Measure) -> Result<Ratio, EnergyFault>
    requires { IsNumberText number.now }
    ensures { GivesParts result measure number.now behind.now }
{
    let (power, unit) = split_prefix(behind);
    let Some(factor) = factor_of(measure, unit) else {
        return Err(EnergyFault::NoUnit);
    };
    match read_numeral(number) {
        Ok(value) => scaled(&value, power, factor),
        Err(_) => Err(EnergyFault::TooLarge),
    }
}

fn read(text: &[u8], measure: Measure) -> Result<Ratio, EnergyFault>
    ensures reading { Reads measure text.now result }
    ensures unique { (e : Energy) → WritesEnergy measure text.now e → GivesEnergy result e }
{
    match split_number(text) {
        Some((number, behind)) => energy_of(number, behind, measure),
        None => Err(EnergyFault::NoNumber),
    }
}

/// Reads an energy, as `4MJ`, in joules: a number with no sign and no exponent, a prefix, and `J`.
///
/// The number is rounded as a numeral is, and multiplied exactly.
///
/// # Errors
///
/// `NoNumber` exactly where the text does not begin with a number. Else `NoUnit` exactly where what follows it is not a
/// prefix, or nothing, and then the unit. Else `TooLarge` exactly where the number is 10^18 or more, or its product with
/// the prefix is 10^30 or more.
pub fn read_energy(text: &[u8]) -> Result<Ratio, EnergyFault>
    ensures reading { Reads Measure.Joules text.now result }
    ensures unique { (e : Energy) → WritesEnergy Measure.Joules text.now e → GivesEnergy result e }
{
    read(text, Measure::Joules)
}

/// Reads a power, as `75kW`, in watts. `W` is joules a second; `J` is read as joules a tick, with 60 ticks a second.
///
/// # Errors
///
/// As those of `read_energy`.
pub fn read_power(text: &[u8]) -> Result<Ratio, EnergyFault>
    ensures reading { Reads Measure.Watts text.now result }
    ensures unique { (e : Energy) → WritesEnergy Measure.Watts text.now e → GivesEnergy result e }
{
    read(text, Measure::Watts)
}
