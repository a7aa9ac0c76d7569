//! What a wish imports.
ghost use Rattle.std.specs.Prelude.{◌≡◌};
ghost use Rattle.wish_setups.specs.Choice.{is_import};

use crate::Wish;
use fractions::Ratio;
use plan_base::GoodId;

/// The price at which a good is imported, where the wish names one.
pub fn price_in(imports: &[(GoodId, Ratio)], good: GoodId) -> Option<Ratio> {
    for import in imports {
        if import.0 == good {
            return Some(import.1);
        }
    }
    None
}

/// Whether the wish imports a good.
pub fn is_import(wish: &Wish, good: GoodId) -> bool
    ensures { result ≡ is_import wish.now good }
{
    wish.imports
        .as_slice()
        .iter()
        .any(|import| import.0.0 == good.0)
}
