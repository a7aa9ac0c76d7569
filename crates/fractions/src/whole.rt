//! Arithmetic on the whole numbers that fractions are made of.
ghost use Rattle.std.specs.Prelude.{◌≡◌, ℕ, ◌+◌, ◌*◌, ◌%◌, ◌<◌, ◌≤◌, ◌^◌, ℤ, pos, ◌+ℤ◌, ◌*ℤ◌, ◌≤ℤ◌, ◌<ℤ◌, int_div, unsigned_abs};
ghost use Rattle.std.specs.Result.{OkIff};
ghost use Rattle.std.specs.Ordering.{nat_cmp};
ghost use Rattle.fractions.specs.Gcd.{gcd};

use crate::ratio::Wide;
use std::cmp::Ordering;

// How the fractions a/b and c/d compare, by Euclid's steps on both at once.
pub fn compare_parts(a: u128, b: u128, c: u128, d: u128) -> Ordering
    requires first { 0 < b }
    requires second { 0 < d }
    ensures { result ≡ nat_cmp (a * d) (c * b) }
{
    let whole = a / b;
    let other_whole = c / d;
    if whole != other_whole {
        return whole.cmp(&other_whole);
    }
    let rest = a % b;
    let other_rest = c % d;
    if rest == 0 || other_rest == 0 {
        return rest.cmp(&other_rest);
    }
    compare_parts(d, other_rest, b, rest)
}

// The greatest common divisor, by Euclid's steps: on 64 bits from where the lesser number fits them.
pub fn greatest_common_divisor(first: u128, second: u128) -> u128
    ensures exact { result ≡ gcd first second }
    ensures positive { 0 < second → 0 < result }
    ensures at_most { 0 < second → result ≤ second }
{
    let mut a = first;
    let mut b = second;
    while b > u64::MAX as u128 {
        let rest = a % b;
        a = b;
        b = rest;
    }
    if b == 0 {
        a
    } else {
        small_divisor(b as u64, (a % b) as u64) as u128
    }
}

// The greatest common divisor of numbers of 64 bits.
pub fn small_divisor(first: u64, second: u64) -> u64
    ensures exact { result ≡ gcd first second }
    ensures positive { 0 < first → 0 < result }
    ensures at_most { 0 < first → result ≤ first }
    ensures positive_second { 0 < second → 0 < result }
    ensures at_most_second { 0 < second → result ≤ second }
{
    let mut a = first;
    let mut b = second;
    while b > 1 {
        let rest = a % b;
        a = b;
        b = rest;
    }
    if b == 0 { a } else { 1 }
}

// What a small natural has in common with any natural.
pub fn shared_divisor(small: u64, any: u128) -> u64
    requires { 0 < small }
    ensures exact { result ≡ gcd small (any % small) }
    ensures positive { 0 < result }
    ensures at_most { result ≤ small }
{
    if small == 1 {
        1
    } else if any <= u64::MAX as u128 {
        small_divisor(small, any as u64 % small)
    } else {
        small_divisor(small, (any % small as u128) as u64)
    }
}

// A small whole number divided by a small natural, toward zero.
pub fn small_quotient(a: i64, divisor: u64) -> i64
    requires positive { 0 < divisor }
    requires small { unsigned_abs a < 2 ^ 62 }
    requires small_divisor { divisor < 2 ^ 62 }
    ensures value { result ≡ int_div a (pos divisor) }
    ensures small { unsigned_abs result < 2 ^ 62 }
{
    if divisor == 1 { a } else { a / divisor as i64 }
}

// The product of two small whole numbers.
pub fn small_product(a: i64, b: i64) -> i128
    requires first { unsigned_abs a < 2 ^ 62 }
    requires second { unsigned_abs b < 2 ^ 62 }
    ensures value { result ≡ a *ℤ b }
    ensures small { unsigned_abs result < 2 ^ 124 }
{
    a as i128 * b as i128
}

// A small whole number times a small natural.
pub fn small_multiple(a: i64, b: u64) -> i128
    requires first { unsigned_abs a < 2 ^ 62 }
    requires second { b < 2 ^ 62 }
    ensures value { result ≡ a *ℤ pos b }
    ensures small { unsigned_abs result < 2 ^ 124 }
{
    a as i128 * b as i128
}

// The product of two naturals, where it is below the limit.
pub fn natural_product(a: u128, b: u128) -> Result<u128, Wide>
    ensures { OkIff result (a * b < 2 ^ 127) (a * b) }
{
    match a.checked_mul(b) {
        Some(product) if product < 1 << 127 => Ok(product),
        _ => Err(Wide),
    }
}

// The product of two whole numbers, where its magnitude is below the limit.
pub fn whole_product(a: i128, b: i128) -> Result<i128, Wide>
    ensures { OkIff result (unsigned_abs (a *ℤ b) < 2 ^ 127) (a *ℤ b) }
{
    match a.checked_mul(b) {
        Some(product) if product > i128::MIN => Ok(product),
        _ => Err(Wide),
    }
}

// The sum of two whole numbers, where its magnitude is below the limit.
pub fn whole_sum(a: i128, b: i128) -> Result<i128, Wide>
    ensures { OkIff result (unsigned_abs (a +ℤ b) < 2 ^ 127) (a +ℤ b) }
{
    match a.checked_add(b) {
        Some(sum) if sum > i128::MIN => Ok(sum),
        _ => Err(Wide),
    }
}

// The least whole number that, times d, is not below n.
pub fn rounded_up(n: i128, d: u128) -> i128
    requires positive { 0 < d }
    requires narrow { unsigned_abs n < 2 ^ 127 }
    requires narrow_divisor { d < 2 ^ 127 }
    ensures not_below { n ≤ℤ (result *ℤ pos d) }
    ensures next { (result *ℤ pos d) <ℤ (n +ℤ pos d) }
    ensures narrow { unsigned_abs result < 2 ^ 127 }
{
    let size = n.unsigned_abs();
    let whole = (size / d) as i128;
    if n < 0 {
        -whole
    } else if size % d == 0 {
        whole
    } else {
        whole + 1
    }
}

// A whole number divided by a natural below the limit, toward zero.
pub fn divided(a: i128, divisor: u128) -> i128
    requires positive { 0 < divisor }
    requires narrow { divisor < 2 ^ 127 }
    ensures { result ≡ int_div a (pos divisor) }
{
    if divisor == 1 { a } else { a / divisor as i128 }
}
