//! What a number and a denominator have in common.

ghost use Rattle.std.specs.Prelude.{◌≡◌, ◌<◌, ◌*◌, ◌^◌, unsigned_abs};
ghost use Rattle.std.specs.Bool.{OnTrue};
ghost use Rattle.number_rows.specs.Shared.{IsShared};

use crate::dividing::likely_inverse;
use crate::divisors::likely_divisor;
use crate::tops::{LIMIT, long_product};

// The greatest common divisor of two numbers other than 0, of which one is mostly longer, and often a multiple of the other. To
// the caller it is a guess.
fn likely_common(first: u64, second: u64) -> u64
    requires first { 0 < first }
    requires second { 0 < second }
{
    let longer = if first < second { second } else { first };
    let shorter = if first < second { first } else { second };
    let rest = longer % shorter;
    if rest == 0 {
        shorter
    } else {
        likely_divisor(rest, shorter)
    }
}

// What is left of a number, which stands in two halves, by an odd natural of which the inverse is known: the number less a
// multiple of the natural is a multiple of 2^64, and what it is times 2^64 has as much in common with the natural as the number
// has. So nothing is divided.
fn likely_left(low: u64, high: u64, odd: u64, inverse: u64) -> u64 {
    let multiple = low.wrapping_mul(inverse) as u128 * odd as u128;
    let carried = ((multiple >> 64) % (1 << 64)) as u64;
    high.wrapping_sub(carried).cast_signed().unsigned_abs()
}

/// What a number and a denominator have in common, and what each is beside it: `scale` the denominator, `factor` the number.
#[derive(Clone, Copy)]
pub struct Shared {
    pub common: u64,
    pub scale: u64,
    pub factor: i64,
}

impl Shared {
    /// What is taken where nothing is in common.
    pub fn nothing(top: i64, bottom: u64) -> Shared {
        Shared {
            common: 1,
            scale: bottom,
            factor: top,
        }
    }

    /// What a number and a denominator have in common. To the caller it is a guess.
    pub fn likely(top: i64, bottom: u64) -> Shared {
        if bottom <= 1 || top == 1 || top == -1 {
            return Shared::nothing(top, bottom);
        }
        if top == 0 {
            return Shared {
                common: bottom,
                scale: 1,
                factor: 0,
            };
        }
        let common = likely_common(top.unsigned_abs(), bottom);
        if common == 1 {
            return Shared::nothing(top, bottom);
        }
        let odd = common >> (common.trailing_zeros() % 64);
        Shared::of(top, bottom, common, likely_inverse(odd))
    }

    /// The same where the inverse of the denominator's odd part is known.
    pub fn likely_by(top: i64, bottom: u64, inverse: u64) -> Shared {
        if bottom <= 1 || top == 1 || top == -1 {
            return Shared::nothing(top, bottom);
        }
        let magnitude = top.unsigned_abs();
        let odd = bottom >> (bottom.trailing_zeros() % 64);
        let left = likely_left(magnitude, 0, odd, inverse);
        let zeros = (magnitude | bottom).trailing_zeros() % 64;
        if left == 0 {
            return Shared::of(top, bottom, odd << zeros, inverse);
        }
        let common = likely_divisor(left, odd);
        if common << zeros == 1 {
            return Shared::nothing(top, bottom);
        }
        Shared::of(top, bottom, common << zeros, likely_inverse(common))
    }

    // What a number and a denominator are beside a divisor of both, whose odd part has the inverse.
    fn of(top: i64, bottom: u64, common: u64, inverse: u64) -> Shared {
        let shift = common.trailing_zeros() % 64;
        let factor = (top.unsigned_abs() >> shift)
            .wrapping_mul(inverse)
            .cast_signed();
        Shared {
            common,
            scale: (bottom >> shift).wrapping_mul(inverse),
            factor: if top < 0 {
                factor.wrapping_neg()
            } else {
                factor
            },
        }
    }

    /// Whether this is what a number and a denominator have in common, and what each is beside it.
    pub fn is_of(&self, top: i64, bottom: u64) -> bool
        requires positive { 0 < bottom }
        requires small { bottom < 2 ^ 62 }
        requires top { unsigned_abs top < 2 ^ 62 }
        ensures { OnTrue result (IsShared top bottom self.now.common self.now.scale self.now.factor) }
    {
        self.common < LIMIT
            && self.scale < LIMIT
            && self.factor.unsigned_abs() < LIMIT
            && long_product(self.scale as i64, self.common as i64) == bottom as i128
            && long_product(self.factor, self.common as i64) == top as i128
    }
}

/// A divisor of a natural, and what the natural is beside it, with what dividing by the divisor takes: the number of zeros that
/// it ends in, and the inverse of its part beside them.
#[derive(Clone, Copy)]
pub struct Part {
    pub divisor: u64,
    pub beside: u64,
    pub shift: u32,
    pub inverse: u64,
}

impl Part {
    /// What a number and a natural have in common, of which the shift and the inverse are known. To the caller it is a guess.
    pub fn likely(number: i128, natural: u64, shift: u32, inverse: u64) -> Part
        requires { shift < 64 }
    {
        let whole = number.cast_unsigned();
        let low = (whole % (1 << 64)) as u64;
        let high = ((whole >> 64) % (1 << 64)) as u64;
        let odd = natural >> shift;
        let left = likely_left(low, high, odd, inverse);
        let common = if left == 0 {
            odd
        } else {
            likely_divisor(left, odd)
        };
        Part::of(natural, common << ((low | natural).trailing_zeros() % 64))
    }

    // A divisor of a natural, and the natural beside it.
    fn of(natural: u64, divisor: u64) -> Part {
        let shift = divisor.trailing_zeros() % 64;
        let inverse = likely_inverse(divisor >> shift);
        Part {
            divisor,
            beside: (natural >> shift).wrapping_mul(inverse),
            shift,
            inverse,
        }
    }

    /// Whether this is a divisor of the natural, and what that is beside it.
    pub fn is_of(&self, natural: u64) -> bool
        ensures { OnTrue result ((self.now.beside * self.now.divisor ≡ natural) × (self.now.divisor < 2 ^ 62) × (self.now.beside < 2 ^ 62)) }
    {
        self.divisor < LIMIT
            && self.beside < LIMIT
            && self.beside as u128 * self.divisor as u128 == natural as u128
    }
}
