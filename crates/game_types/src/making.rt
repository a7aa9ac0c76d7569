//! Who makes what.
ghost use Rattle.std.specs.Prelude.{◌≡◌};
ghost use Rattle.game_types.specs.Making.{holds, takes_fuel};

use crate::{Energy, Fuel};
use fractions::is_positive;

/// Whether a category is one of some.
pub fn holds(categories: &[u32], category: u32) -> bool
    ensures { result ≡ holds categories.now category }
{
    categories.iter().any(|other| *other == category)
}

/// Whether a machine burns a fuel: a burner of its category does where the fuel has any energy.
pub fn takes_fuel(energy: &Energy, fuel: &Fuel) -> bool
    ensures { result ≡ takes_fuel energy.now fuel.now }
{
    match energy {
        Energy::Burner { categories, .. } => {
            holds(categories.as_slice(), fuel.category) && is_positive(&fuel.value)
        }
        _ => false,
    }
}
