//! Arithmetic on fractions, each result in lowest terms.
ghost use Rattle.std.specs.Prelude.{◌≡◌, ◌+◌, ◌*◌, ◌/◌, ◌<◌, ◌^◌, unsigned_abs, ◌≢◌};
ghost use Rattle.std.specs.Result.{OkIff};
ghost use Rattle.fractions.specs.Fraction.{frac, ◌*ʳ◌, ◌+ʳ◌, ◌-ʳ◌, ◌/ʳ◌, negated, inverse, zero_fraction};
ghost use Rattle.fractions.specs.Limits.{IsNarrow, SumFits, DifferenceFits};

use crate::ratio::{Ratio, Wide};
use crate::whole::{divided, greatest_common_divisor, natural_product, whole_product, whole_sum};

impl Ratio {
    pub fn neg(&self) -> Ratio
        ensures { result ≡ negated self.now }
    {
        Ratio::stored(-self.numerator(), self.natural_denominator())
    }

    /// The product.
    ///
    /// # Errors
    ///
    /// `Wide` exactly where the product's lowest terms do not fit.
    pub fn mul(&self, other: &Ratio) -> Result<Ratio, Wide>
        ensures { OkIff result (IsNarrow (self.now *ʳ other.now)) (self.now *ʳ other.now) }
    {
        if let Some(first) = self.small() {
            if let Some(second) = other.small() {
                return Ok(first.product(&second));
            }
        }
        self.long_product(other)
    }

    // The same for parts of any size: each numerator is divided by what it has in common with the other denominator.
    fn long_product(&self, other: &Ratio) -> Result<Ratio, Wide>
        ensures { OkIff result (IsNarrow (self.now *ʳ other.now)) (self.now *ʳ other.now) }
    {
        let a = self.numerator();
        let b = self.natural_denominator();
        let c = other.numerator();
        let d = other.natural_denominator();
        let left = greatest_common_divisor(a.unsigned_abs(), d);
        let right = greatest_common_divisor(c.unsigned_abs(), b);
        let Ok(top) = whole_product(divided(a, left), divided(c, right)) else {
            return Err(Wide);
        };
        let Ok(bottom) = natural_product(b / right, d / left) else {
            return Err(Wide);
        };
        Ok(Ratio::stored(top, bottom))
    }

    // One over a fraction that is not 0.
    fn inverse(&self) -> Ratio
        requires { self.now ≢ zero_fraction }
        ensures { result ≡ inverse self.now }
    {
        let n = self.numerator();
        let d = self.natural_denominator() as i128;
        if n < 0 {
            Ratio::stored(-d, n.unsigned_abs())
        } else {
            Ratio::stored(d, n.unsigned_abs())
        }
    }

    pub fn div(&self, other: &Ratio) -> Result<Ratio, Wide>
        requires { other.now ≢ zero_fraction }
        ensures { OkIff result (IsNarrow (self.now /ʳ other.now)) (self.now /ʳ other.now) }
    {
        self.mul(&other.inverse())
    }

    /// The sum. Both fractions are written over their least common denominator.
    ///
    /// # Errors
    ///
    /// `Wide` exactly where that denominator, a numerator over it, or the sum of the two is 2^127 or more in magnitude. So
    /// it never comes where all parts are below 2^62 (`field_laws::sums_of_small_parts`).
    pub fn add(&self, other: &Ratio) -> Result<Ratio, Wide>
        ensures { OkIff result (SumFits self.now other.now) (self.now +ʳ other.now) }
    {
        if let Some(first) = self.small() {
            if let Some(second) = other.small() {
                return Ok(first.sum(&second));
            }
        }
        self.long_sum(other)
    }

    // The same for parts of any size.
    fn long_sum(&self, other: &Ratio) -> Result<Ratio, Wide>
        ensures { OkIff result (SumFits self.now other.now) (self.now +ʳ other.now) }
    {
        let b = self.natural_denominator();
        let d = other.natural_denominator();
        let common = greatest_common_divisor(b, d);
        let b_factor = d / common;
        let d_factor = b / common;
        let Ok(_) = natural_product(b, b_factor) else {
            return Err(Wide);
        };
        let Ok(first) = whole_product(self.numerator(), b_factor as i128) else {
            return Err(Wide);
        };
        let Ok(second) = whole_product(other.numerator(), d_factor as i128) else {
            return Err(Wide);
        };
        let Ok(top) = whole_sum(first, second) else {
            return Err(Wide);
        };
        let shared = greatest_common_divisor(top.unsigned_abs(), common);
        Ok(Ratio::stored(divided(top, shared), d_factor * (d / shared)))
    }

    pub fn sub(&self, other: &Ratio) -> Result<Ratio, Wide>
        ensures { OkIff result (DifferenceFits self.now other.now) (self.now -ʳ other.now) }
    {
        self.add(&other.neg())
    }

    /// The value of `t - u*v`.
    pub fn sub_mul(t: &Ratio, u: &Ratio, v: &Ratio) -> Result<Ratio, Wide>
        ensures { OkIff result (IsNarrow (u.now *ʳ v.now) × DifferenceFits t.now (u.now *ʳ v.now)) (t.now -ʳ u.now *ʳ v.now) }
    {
        let Ok(product) = u.mul(v) else {
            return Err(Wide);
        };
        t.sub(&product)
    }
}

/// A fraction of any two numbers below the limit, brought to lowest terms.
pub fn reduced(top: i128, bottom: u128) -> Ratio
    requires positive { 0 < bottom }
    requires narrow_top { unsigned_abs top < 2 ^ 127 }
    requires narrow_bottom { bottom < 2 ^ 127 }
    ensures { result ≡ frac top bottom }
{
    let common = greatest_common_divisor(top.unsigned_abs(), bottom);
    Ratio::stored(divided(top, common), bottom / common)
}
