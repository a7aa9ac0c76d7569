//! What the character makes by hand.
ghost use Rattle.std.specs.Prelude.{◌≡◌, nat_lt};
ghost use Rattle.std.specs.List.{list_all};
ghost use Rattle.game_types.specs.Making.{character_crafts, character_mines};

use game_types::{Character, Part, Product, Recipe, Source, holds};

fn takes_items(parts: &[Part], items: u32) -> bool
    ensures { result ≡ list_all (λ part. nat_lt part.good.0 items) parts.now }
{
    parts.iter().all(|part| part.good.0 < items)
}

fn gives_items(products: &[Product], items: u32) -> bool
    ensures { result ≡ list_all (λ product. nat_lt product.good.0 items) products.now }
{
    products.iter().all(|product| product.good.0 < items)
}

/// Whether the character crafts a recipe, where so many items come before the fluids.
pub fn character_crafts(character: &Character, items: u32, recipe: &Recipe) -> bool
    ensures { result ≡ character_crafts character.now items recipe.now }
{
    recipe.launch.is_none()
        && holds(character.crafting.as_slice(), recipe.category)
        && takes_items(recipe.ingredients.as_slice(), items)
        && gives_items(recipe.products.as_slice(), items)
}

/// Whether the character mines a source.
pub fn character_mines(character: &Character, source: &Source) -> bool
    ensures { result ≡ character_mines character.now source.now }
{
    !source.drilled
        || (holds(character.mining.as_slice(), source.category) && source.fluid.is_none())
}
