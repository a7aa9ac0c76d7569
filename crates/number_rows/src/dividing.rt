//! Quotients of whole numbers by one divisor.

ghost use Rattle.std.specs.Prelude.{◌≡◌, ◌<◌, ◌*◌, ◌%◌, ◌^◌, ℤ, pos, ◌*ℤ◌, unsigned_abs, IfSome};

use crate::tops::{LIMIT, long_product};

/// The inverse of an odd number modulo 2^64. To the caller it is a guess, like all that is computed by it: five bits are right at
/// first, and each step brings twice as many right. What 1 is more than the product of both is squared by each step, so that it
/// needn't be computed of the inverse.
pub fn likely_inverse(odd: u64) -> u64 {
    let mut inverse = odd.wrapping_mul(3) ^ 2;
    let mut left = 1u64.wrapping_sub(odd.wrapping_mul(inverse));
    for _step in 0..4 {
        inverse = inverse.wrapping_mul(left.wrapping_add(1));
        left = left.wrapping_mul(left);
    }
    inverse
}

// A number divided by a divisor whose even part is that of the shift, and whose odd part has the inverse, both modulo 2^64. To
// the caller it is a guess, which it multiplies back.
fn likely_quotient(number: i128, shift: u32, inverse: u64) -> i64
    requires { shift < 64 }
{
    let whole = number.cast_unsigned();
    let part = if shift == 0 { whole } else { whole >> shift };
    ((part % (1 << 64)) as u64)
        .wrapping_mul(inverse)
        .cast_signed()
}

// What a division of a number's magnitude leaves.
pub fn rest_by(number: i128, divisor: u64) -> u64
    requires { 0 < divisor }
    ensures value { result ≡ unsigned_abs number % divisor }
    ensures below { result < divisor }
{
    let rest = number.unsigned_abs() % divisor as u128;
    rest as u64
}

/// The quotient by a divisor, where that leaves no rest and the quotient, times the divisor's power of 2, takes no more than 64
/// bits. The shift is the number of zeros that the divisor ends in, and the inverse that of its part beside them.
pub fn small_quotient(number: i128, divisor: u64, shift: u32, inverse: u64) -> Option<i64>
    requires small_divisor { divisor < 2 ^ 62 }
    ensures { IfSome result (λ q. (q *ℤ pos divisor ≡ number) × (unsigned_abs q < 2 ^ 62)) }
{
    let low = (number.cast_unsigned() % (1 << 64)) as u64;
    let quotient = low.wrapping_mul(inverse).cast_signed() >> (shift % 64);
    if quotient.unsigned_abs() < LIMIT && long_product(quotient, divisor as i64) == number {
        Some(quotient)
    } else {
        None
    }
}

/// The quotient by a divisor, where that leaves no rest and the quotient is below the limit. The shift is the number of
/// zeros that the divisor ends in, and the inverse that of its part beside them.
pub fn exact_quotient(number: i128, divisor: u64, shift: u32, inverse: u64) -> Option<i64>
    requires small_divisor { divisor < 2 ^ 62 }
    requires shift { shift < 64 }
    ensures { IfSome result (λ q. (q *ℤ pos divisor ≡ number) × (unsigned_abs q < 2 ^ 62)) }
{
    let quotient = likely_quotient(number, shift, inverse);
    if quotient.unsigned_abs() < LIMIT && long_product(quotient, divisor as i64) == number {
        Some(quotient)
    } else {
        None
    }
}
