//! Fractions in lowest terms: their parts, order and text.
ghost use Rattle.std.specs.Prelude.{◌≡◌, ◌<◌, ◌≤◌, ◌^◌, ℤ, pos, ◌<ℤ◌, unsigned_abs, IsTrue, ◌↔◌, IfOk};
ghost use Rattle.std.specs.Option.{SomeIff};
ghost use Rattle.std.specs.Ordering.{MatchOrdering};
ghost use Rattle.fractions.specs.Fraction.{frac, ◌<ʳ◌, ◌≤ʳ◌, whole_fraction, zero_fraction, one_fraction};
ghost use Rattle.fractions.specs.Compare.{are_same};
ghost use Rattle.fractions.specs.Limits.{IsBelow};
ghost use Rattle.fractions.specs.Print.{printed};
ghost use Rattle.fractions.specs.Stored.{IsStored};

use crate::arithmetic::reduced;
use crate::small::Small;
use crate::whole::{compare_parts, rounded_up};
use plan_base::{NoMemory, Text};
use std::alloc::Global;
use std::cmp::Ordering;
use std::marker::Model;

// Parts below this take a short way.
const SMALL: u128 = 1 << 62;

/// A result past the limits.
#[derive(Clone, Copy, Debug, PartialEq, Eq)]
pub struct Wide;

/// A fraction in lowest terms. The numerator's magnitude and the denominator are below 2^127.
#[derive(Clone, Copy)]
pub struct Ratio {
    numerator: i128,
    denominator: u128,
}

impl Model for Ratio {
    ghost use Rattle.fractions.specs.Fraction.{Fraction, frac};
    ghost use Rattle.fractions.specs.Stored.{fraction_code, IsStored};
    ghost use Rattle.fractions.specs.Stored.{stored_back};

    ghost Value = { Fraction };

    ghost coded = { fraction_code };

    ghost view = { λ r. frac r.numerator r.denominator };

    ghost invariant = { λ r. IsStored r.numerator r.denominator };

    ghost inverse = { λ x. record { numerator = x.num; denominator = x.den } };

    ghost inverse_ok = { λ r h. stored_back r.numerator r.denominator h (λ n d. record { numerator = n; denominator = d }) };
}

impl PartialEq for Ratio {
    ghost use Rattle.fractions.specs.Compare.{are_same, same_laws};

    ghost eq = { are_same };

    ghost laws = { same_laws };

    fn eq(&self, other: &Ratio) -> bool
        ensures eq { result ≡ are_same self.now other.now }
        ensures same { IsTrue result ↔ (self.now ≡ other.now) }
    {
        self.has_parts_of(other)
    }
}

impl PartialOrd for Ratio {
    ghost use Rattle.fractions.specs.Compare.{partly_compared, order_laws};

    ghost partial_cmp = { partly_compared };

    ghost laws = { order_laws };

    #[tactic(auto, using(crate::specs::Compare::cmp_is))]
    fn partial_cmp(&self, other: &Ratio) -> Option<Ordering> {
        Some(self.cmp(other))
    }
}

impl Ratio {
    // The fraction of two numbers that are in lowest terms.
    pub(crate) fn stored(numerator: i128, denominator: u128) -> Ratio
        requires { IsStored numerator denominator }
        ensures { result ≡ frac numerator denominator }
    {
        Ratio {
            numerator,
            denominator,
        }
    }

    // The same fraction on 64 bits, where both parts are below 2^62.
    pub(crate) fn small(&self) -> Option<Small>
        ensures { SomeIff result (IsBelow 62 self.now) self.now }
    {
        let numerator = self.numerator();
        let denominator = self.natural_denominator();
        if numerator.unsigned_abs() < SMALL && denominator < SMALL {
            Some(Small {
                numerator: numerator as i64,
                denominator: denominator as u64,
            })
        } else {
            None
        }
    }

    // The denominator as an unsigned number.
    pub(crate) fn natural_denominator(&self) -> u128
        ensures value { result ≡ self.now.den }
        ensures narrow { result < 2 ^ 127 }
    {
        self.denominator
    }

    pub fn numerator(&self) -> i128
        ensures value { result ≡ self.now.num }
        ensures narrow { unsigned_abs result < 2 ^ 127 }
    {
        self.numerator
    }

    pub fn denominator(&self) -> i128
        ensures value { result ≡ pos self.now.den }
        ensures narrow { unsigned_abs result < 2 ^ 127 }
    {
        self.natural_denominator() as i128
    }

    pub fn zero() -> Ratio
        ensures { result ≡ zero_fraction }
    {
        Ratio::stored(0, 1)
    }

    pub fn one() -> Ratio
        ensures { result ≡ one_fraction }
    {
        Ratio::stored(1, 1)
    }

    /// A whole number whose magnitude is below 2^127.
    pub fn whole_number(n: i128) -> Ratio
        requires { unsigned_abs n < 2 ^ 127 }
        ensures { result ≡ whole_fraction n }
    {
        Ratio::stored(n, 1)
    }

    /// A whole number.
    pub fn whole(n: i64) -> Ratio
        ensures { result ≡ whole_fraction n }
    {
        Ratio::whole_number(n as i128)
    }

    pub fn part(n: i64, d: i64) -> Ratio
        requires { pos 0 <ℤ d }
        ensures { result ≡ frac n (unsigned_abs d) }
    {
        reduced(n as i128, d.unsigned_abs() as u128)
    }

    // Whether both parts are the same.
    fn has_parts_of(&self, other: &Ratio) -> bool
        ensures { IsTrue result ↔ (self.now ≡ other.now) }
    {
        if self.natural_denominator() != other.natural_denominator() {
            return false;
        }
        self.numerator() == other.numerator()
    }

    pub fn is_neg(&self) -> bool
        ensures { IsTrue result ↔ (self.now <ʳ zero_fraction) }
    {
        self.numerator() < 0
    }

    pub fn is_positive(&self) -> bool
        ensures { IsTrue result ↔ (zero_fraction <ʳ self.now) }
    {
        self.numerator() > 0
    }

    pub fn is_zero(&self) -> bool
        ensures { IsTrue result ↔ (self.now ≡ zero_fraction) }
    {
        self.numerator() == 0
    }

    /// How two fractions compare.
    pub fn cmp(&self, other: &Ratio) -> Ordering
        ensures { MatchOrdering result (self.now <ʳ other.now) (self.now ≡ other.now) (other.now <ʳ self.now) }
    {
        if let Some(first) = self.small() {
            if let Some(second) = other.small() {
                return first.cmp(&second);
            }
        }
        self.long_cmp(other)
    }

    // The same for parts of any size, by Euclid's steps on both at once.
    fn long_cmp(&self, other: &Ratio) -> Ordering
        ensures { MatchOrdering result (self.now <ʳ other.now) (self.now ≡ other.now) (other.now <ʳ self.now) }
    {
        let a = self.numerator();
        let b = self.natural_denominator();
        let c = other.numerator();
        let d = other.natural_denominator();
        if a < 0 {
            if c < 0 {
                compare_parts(c.unsigned_abs(), d, a.unsigned_abs(), b)
            } else {
                Ordering::Less
            }
        } else if c < 0 {
            Ordering::Greater
        } else {
            compare_parts(a.unsigned_abs(), b, c.unsigned_abs(), d)
        }
    }

    /// The least whole number that is not below.
    pub fn ceil(&self) -> Ratio
        ensures whole { result.den ≡ 1 }
        ensures not_below { self.now ≤ʳ result }
        ensures least { (n : ℤ) → self.now ≤ʳ whole_fraction n → result ≤ʳ whole_fraction n }
    {
        Ratio::whole_number(rounded_up(self.numerator(), self.natural_denominator()))
    }

    /// The text `n` where the denominator is 1, else `n/d`, with `-` before a negative one.
    ///
    /// # Errors
    ///
    /// `NoMemory` where memory could not be had.
    pub fn print(&self, alloc: Global) -> Result<Text, NoMemory>
        ensures { IfOk result (λ text. text ≡ printed self.now) }
    {
        let n = self.numerator();
        let d = self.natural_denominator();
        let text = if d == 1 {
            format!(in alloc; "{n}")?
        } else {
            format!(in alloc; "{n}/{d}")?
        };
        Ok(Text::from_string(text))
    }
}
