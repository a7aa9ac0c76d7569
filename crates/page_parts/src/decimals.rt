//! Decimals beside fractions.
ghost use Rattle.std.specs.Prelude.{◌≡◌, ◌+◌, ◌*◌, ◌^◌, ◌<◌, ◌≤◌, IfOk, string_bytes, unsigned_abs};
ghost use Rattle.page_parts.specs.Decimals.{decimal_text, is_below_zero, magnitude_text, IsNearest};

use fractions::Ratio;
use plan_base::NoMemory;
use std::alloc::Global;

/// A magnitude rounded to thousandths: a whole number, and so many thousandths behind the point.
#[derive(Clone, Copy, Debug, PartialEq, Eq)]
pub struct Nearest {
    pub whole: u128,
    pub part: u64,
}

// Two rests beside a number of divisors: as many divisors as there are, and a rest below one.
fn added(count: u64, left: u128, right: u128, divisor: u128) -> (u64, u128)
    requires few { count < 100 }
    requires left { left < divisor }
    requires right { right < divisor }
    requires divisor { divisor < 2 ^ 127 }
    ensures sum { result.0 * divisor + result.1 ≡ count * divisor + left + right }
    ensures rest { result.1 < divisor }
    ensures few { result.0 ≤ count + 1 }
{
    let sum = left + right;
    if sum < divisor {
        (count, sum)
    } else {
        (count + 1, sum - divisor)
    }
}

// Twice a number of divisors and a rest below one.
fn doubled(count: u64, rest: u128, divisor: u128) -> (u64, u128)
    requires few { count < 50 }
    requires rest { rest < divisor }
    requires divisor { divisor < 2 ^ 127 }
    ensures sum { result.0 * divisor + result.1 ≡ 2 * (count * divisor + rest) }
    ensures rest { result.1 < divisor }
    ensures few { result.0 ≤ 2 * count + 1 }
{
    added(count + count, rest, rest, divisor)
}

// The next digit of a rest below a divisor, and the rest behind it.
fn next_digit(rest: u128, divisor: u128) -> (u64, u128)
    requires rest { rest < divisor }
    requires divisor { divisor < 2 ^ 127 }
    ensures sum { result.0 * divisor + result.1 ≡ 10 * rest }
    ensures rest { result.1 < divisor }
    ensures digit { result.0 < 10 }
{
    let (two, left) = doubled(0, rest, divisor);
    let (four, left) = doubled(two, left, divisor);
    let (five, left) = added(four, left, rest, divisor);
    doubled(five, left, divisor)
}

// Thousandths rounded by the rest behind them.
fn rounded_up(whole: u128, part: u64, rest: u128, divisor: u128) -> Nearest
    requires whole { whole < 2 ^ 127 }
    requires part { part < 1000 }
    requires rest { rest < divisor }
    requires divisor { divisor < 2 ^ 127 }
    ensures part { result.part < 1000 }
    ensures down { rest + rest < divisor → 1000 * result.whole + result.part ≡ 1000 * whole + part }
    ensures up { divisor ≤ rest + rest → 1000 * result.whole + result.part ≡ 1000 * whole + part + 1 }
{
    if rest + rest < divisor {
        Nearest { whole, part }
    } else if part < 999 {
        Nearest {
            whole,
            part: part + 1,
        }
    } else {
        Nearest {
            whole: whole + 1,
            part: 0,
        }
    }
}

fn numerator_size(number: &Ratio) -> u128
    ensures size { result ≡ unsigned_abs number.now.num }
    ensures narrow { result < 2 ^ 127 }
{
    number.numerator().unsigned_abs()
}

fn denominator(number: &Ratio) -> u128
    ensures value { result ≡ number.now.den }
    ensures narrow { result < 2 ^ 127 }
    ensures positive { 0 < result }
{
    number.denominator().unsigned_abs()
}

/// The magnitude of a fraction rounded to thousandths, halves up.
pub fn rounded(number: &Ratio) -> Nearest
    ensures { IsNearest number.now result }
{
    let top = numerator_size(number);
    let divisor = denominator(number);
    let whole = top / divisor;
    let (tenths, rest) = next_digit(top % divisor, divisor);
    let (hundredths, rest) = next_digit(rest, divisor);
    let (last, rest) = next_digit(rest, divisor);
    let part = 100 * tenths + 10 * hundredths + last;
    rounded_up(whole, part, rest, divisor)
}

// The whole number, a point, and three digits.
fn magnitude_text(alloc: Global, near: &Nearest) -> Result<String, NoMemory>
    ensures { IfOk result (λ text. string_bytes text ≡ magnitude_text near.now) }
{
    let whole = near.whole;
    let tenths = near.part / 100;
    let hundredths = near.part / 10 % 10;
    let last = near.part % 10;
    Ok(format!(in alloc; "{whole}.{tenths}{hundredths}{last}")?)
}

fn signed_text(alloc: Global, negative: bool, near: &Nearest) -> Result<String, NoMemory>
    ensures { IfOk result (λ text. string_bytes text ≡ decimal_text negative near.now) }
{
    let text = magnitude_text(alloc, near)?;
    if negative {
        Ok(format!(in alloc; "-{text}")?)
    } else {
        Ok(text)
    }
}

fn is_below_zero(number: &Ratio) -> bool
    ensures { result ≡ is_below_zero number.now }
{
    number.numerator() < 0
}

/// A fraction as a decimal of three places.
pub fn decimal(alloc: Global, number: &Ratio) -> Result<String, NoMemory>
    ensures { IfOk result (λ text. (near : Nearest) × IsNearest number.now near × (string_bytes text ≡ decimal_text (is_below_zero number.now) near)) }
{
    let near = rounded(number);
    signed_text(alloc, is_below_zero(number), &near)
}
