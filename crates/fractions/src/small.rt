//! Short ways for fractions of small parts: on 64 bits, with no test for a result past the limits.
ghost use Rattle.std.specs.Prelude.{◌≡◌};
ghost use Rattle.std.specs.Ordering.{MatchOrdering};
ghost use Rattle.fractions.specs.Fraction.{◌*ʳ◌, ◌+ʳ◌, ◌<ʳ◌};

use crate::ratio::Ratio;
use crate::whole::{
    divided, shared_divisor, small_divisor, small_multiple, small_product, small_quotient,
};
use std::cmp::Ordering;
use std::marker::Model;

/// A fraction in lowest terms whose parts are below 2^62.
#[derive(Drop)]
pub struct Small {
    pub numerator: i64,
    pub denominator: u64,
}

impl Model for Small {
    ghost use Rattle.fractions.specs.Fraction.{Fraction, frac};
    ghost use Rattle.fractions.specs.Stored.{fraction_code, IsStoredSmall};

    ghost Value = { Fraction };

    ghost coded = { fraction_code };

    ghost view = { λ r. frac r.numerator r.denominator };

    ghost invariant = { λ r. IsStoredSmall r.numerator r.denominator };
}

impl Small {
    pub fn product(&self, other: &Small) -> Ratio
        ensures { result ≡ self.now *ʳ other.now }
    {
        let left = small_divisor(self.numerator.unsigned_abs(), other.denominator);
        let right = small_divisor(other.numerator.unsigned_abs(), self.denominator);
        let top = small_product(
            small_quotient(self.numerator, left),
            small_quotient(other.numerator, right),
        );
        let bottom = (self.denominator / right) as u128 * (other.denominator / left) as u128;
        Ratio::stored(top, bottom)
    }

    pub fn sum(&self, other: &Small) -> Ratio
        ensures { result ≡ self.now +ʳ other.now }
    {
        let common = small_divisor(self.denominator, other.denominator);
        let top = small_multiple(self.numerator, other.denominator / common)
            + small_multiple(other.numerator, self.denominator / common);
        let shared = shared_divisor(common, top.unsigned_abs());
        let bottom = (self.denominator / common) as u128 * (other.denominator / shared) as u128;
        Ratio::stored(divided(top, shared as u128), bottom)
    }

    pub fn cmp(&self, other: &Small) -> Ordering
        ensures { MatchOrdering result (self.now <ʳ other.now) (self.now ≡ other.now) (other.now <ʳ self.now) }
    {
        let first = small_multiple(self.numerator, other.denominator);
        let second = small_multiple(other.numerator, self.denominator);
        first.cmp(&second)
    }
}
