//! Which products are expected.
ghost use Rattle.std.specs.Prelude.{◌≡◌};
ghost use Rattle.fractions.specs.Signs.{is_positive};
ghost use Rattle.game_types.specs.Making.{expected_amount};

use fractions::is_positive;
use game_types::Product;
use std::cmp::Ordering;

/// Whether one craft is expected to give any of a product.
pub fn is_expected(product: &Product) -> bool
    ensures { result ≡ is_positive (expected_amount product.now) }
{
    // The least and the most have a mean above 0 where the least is above the most, negated. No sum is formed, which
    // might be too wide.
    let high = product.high.neg();
    match product.low.cmp(&high) {
        Ordering::Less => is_positive(&product.probability.neg()),
        Ordering::Equal => false,
        Ordering::Greater => is_positive(&product.probability),
    }
}
