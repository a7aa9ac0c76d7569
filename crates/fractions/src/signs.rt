//! The signs of fractions, as tests that definitions cite.

ghost use Rattle.std.specs.Prelude.{◌≡◌};
ghost use Rattle.fractions.specs.Signs.{is_negative, is_positive, is_zero};

use crate::Ratio;

/// Whether a fraction is above 0.
pub fn is_positive(number: &Ratio) -> bool
    ensures { result ≡ is_positive number.now }
{
    number.numerator() > 0
}

/// Whether a fraction is below 0.
pub fn is_negative(number: &Ratio) -> bool
    ensures { result ≡ is_negative number.now }
{
    number.numerator() < 0
}

/// Whether a fraction is 0.
pub fn is_zero(number: &Ratio) -> bool
    ensures { result ≡ is_zero number.now }
{
    number.numerator() == 0
}
