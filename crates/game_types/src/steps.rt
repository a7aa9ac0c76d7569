//! The steps of rates: operations on fractions, each of which names its step where the result is past the limits.
ghost use Rattle.std.specs.Prelude.{◌≡◌};
ghost use Rattle.fractions.specs.Fraction.{◌<ʳ◌, zero_fraction};
ghost use Rattle.game_types.specs.Steps.{multiplied, divided, added, subtracted, at_least};

use crate::Wide;
use fractions::Ratio;
use std::cmp::Ordering;

/// The product.
///
/// # Errors
///
/// `Wide` with the step exactly where the product's lowest terms are past the limits.
pub fn multiplied(step: u8, left: &Ratio, right: &Ratio) -> Result<Ratio, Wide>
    ensures { result ≡ multiplied step left.now right.now }
{
    let Ok(value) = left.mul(right) else {
        return Err(Wide { step });
    };
    Ok(value)
}

/// The quotient by a fraction above 0.
///
/// # Errors
///
/// `Wide` with the step exactly where the quotient's lowest terms are past the limits.
pub fn divided(step: u8, left: &Ratio, right: &Ratio) -> Result<Ratio, Wide>
    requires { zero_fraction <ʳ right.now }
    ensures { result ≡ divided step left.now right.now }
{
    let Ok(value) = left.div(right) else {
        return Err(Wide { step });
    };
    Ok(value)
}

/// The sum.
///
/// # Errors
///
/// `Wide` with the step exactly where a number over the least common denominator is past the limits.
pub fn added(step: u8, left: &Ratio, right: &Ratio) -> Result<Ratio, Wide>
    ensures { result ≡ added step left.now right.now }
{
    let Ok(value) = left.add(right) else {
        return Err(Wide { step });
    };
    Ok(value)
}

/// The difference.
///
/// # Errors
///
/// `Wide` with the step exactly where a number over the least common denominator is past the limits.
pub fn subtracted(step: u8, left: &Ratio, right: &Ratio) -> Result<Ratio, Wide>
    ensures { result ≡ subtracted step left.now right.now }
{
    let Ok(value) = left.sub(right) else {
        return Err(Wide { step });
    };
    Ok(value)
}

/// A number, or the floor where it is below that.
pub fn at_least(floor: &Ratio, number: &Ratio) -> Ratio
    ensures { result ≡ at_least floor.now number.now }
{
    match floor.cmp(number) {
        Ordering::Less => *number,
        Ordering::Equal => *floor,
        Ordering::Greater => *floor,
    }
}
