//! Whether a module may go into a machine or a beacon.
ghost use Rattle.std.specs.Prelude.{◌≡◌};
ghost use Rattle.std.specs.List.{list_any};
ghost use Rattle.game_types.specs.Fitting.{first_refused, fit_of, is_limited, names_recipe};

use crate::{Activity, Allowed, Bonus, EffectKind, Module};
use plan_base::RecipeId;

/// Why a module doesn't fit.
#[derive(Clone, Copy, Debug, PartialEq, Eq)]
pub enum FitFault {
    /// The module has an effect of this kind, which is the first one that isn't allowed.
    Kind(EffectKind),
    /// The recipe isn't one that the module may be used for.
    Limited,
}

/// The first kind of effect that a module has and that isn't allowed, in the order speed, productivity, consumption,
/// pollution.
pub fn first_refused(bonus: &Bonus, allowed: &Allowed) -> Option<EffectKind>
    ensures { result ≡ first_refused bonus.now allowed.now }
{
    if bonus.speed != 0 && !allowed.speed {
        Some(EffectKind::Speed)
    } else if bonus.productivity != 0 && !allowed.productivity {
        Some(EffectKind::Productivity)
    } else if bonus.consumption != 0 && !allowed.consumption {
        Some(EffectKind::Consumption)
    } else if bonus.pollution != 0 && !allowed.pollution {
        Some(EffectKind::Pollution)
    } else {
        None
    }
}

fn names_recipe(recipes: &[RecipeId], recipe: RecipeId) -> bool
    ensures { result ≡ names_recipe recipes.now recipe }
{
    recipes.iter().any(|other| other.0 == recipe.0)
}

// Whether a recipe isn't one that a module may be used for.
fn is_limited(installed: &Module, recipe: RecipeId) -> bool
    ensures { result ≡ is_limited installed.now recipe }
{
    let limitation = installed.limitation.as_slice();
    if !limitation.is_empty() && !names_recipe(limitation, recipe) {
        return true;
    }
    names_recipe(installed.blacklist.as_slice(), recipe)
}

/// Whether a module may go where these effects are allowed, for this activity.
///
/// # Errors
///
/// `Kind` exactly where the module has an effect of a kind that isn't allowed, with the first such kind. Else `Limited`
/// exactly where the activity is a recipe that the module's limitation, unless it is empty, lacks, or that its blacklist
/// holds.
pub fn fits(installed: &Module, allowed: &Allowed, activity: &Activity) -> Result<(), FitFault>
    ensures { result ≡ fit_of installed.now allowed.now activity.now }
{
    if let Some(kind) = first_refused(&installed.bonus, allowed) {
        return Err(FitFault::Kind(kind));
    }
    match activity {
        Activity::Craft(recipe) if is_limited(installed, *recipe) => Err(FitFault::Limited),
        _ => Ok(()),
    }
}
