//! Recipes that only take back what another one does, as one that empties barrels.
ghost use Rattle.game_types.specs.Sound.{IsSound};

use crate::reach::is_reached;
use fractions::Ratio;
use game_types::{Game, Part, Product, Recipe};
use plan_base::Kind;

// Whether a product is just what an ingredient is.
fn is_same(part: &Part, product: &Product) -> bool {
    part.good == product.good
        && part.amount == product.low
        && part.amount == product.high
        && product.probability == Ratio::one()
}

// Whether each ingredient is one of the products.
fn are_among(parts: &[Part], products: &[Product]) -> bool {
    parts.iter().all(|part| products.iter().any(|product| is_same(part, product)))
}

// Whether a recipe takes just what another gives, and gives just what that takes.
fn undoes(one: &Recipe, other: &Recipe) -> bool {
    one.ingredients.len() == other.products.len()
        && one.products.len() == other.ingredients.len()
        && one.ingredients.len() > 0
        && one.products.len() > 0
        && are_among(one.ingredients.as_slice(), other.products.as_slice())
        && are_among(other.ingredients.as_slice(), one.products.as_slice())
}

/// Whether another reached recipe takes just what a recipe gives, and gives just what it takes.
pub fn is_undoing(game: &Game, reached: &[bool], one: &Recipe) -> bool
    requires { IsSound game.now }
{
    for place in 0..game.shape().recipes {
        if let Some(other) = game.recipes.as_slice().get(place as usize) {
            if undoes(one, other) && is_reached(game, reached, Kind::Recipe, place) {
                return true;
            }
        }
    }
    false
}
