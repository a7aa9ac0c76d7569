//! What the modules of a machine add up to.
#![tactic(auto)]

ghost use Rattle.std.specs.Prelude.{◌≡◌, ◌≤◌, All, Ok};
ghost use Rattle.game_types.specs.Modules.{bonus_of, checked_modules, module_count, modules_fit, module_fits, module_sum};
ghost use Rattle.game_types.specs.Sound.{IsSound, IsSoundSetup, IsModule};

pub use game_types::ModuleFault;
use game_types::{
    Activity, Allowed, Bonus, EffectKind, Game, Setup, check_slots, fits, named, total_hundredths,
};
use plan_base::GoodId;

#[tactic(auto, unfolding(game_types::specs::Modules::module_fits))]
// Whether a module fits where these effects are allowed.
fn module_fits(
    game: &Game,
    allowed: &Allowed,
    activity: &Activity,
    good: GoodId,
) -> Result<(), ModuleFault>
    requires sound { IsSound game.now }
    requires there { IsModule game.now good }
    ensures { result ≡ module_fits game.now allowed.now activity.now good }
{
    named(good, fits(game.module(good), allowed, activity))
}

// Whether all modules fit where these effects are allowed; else what is wrong with the first that doesn't.
fn modules_fit(
    game: &Game,
    allowed: &Allowed,
    activity: &Activity,
    modules: &[(GoodId, u32)],
) -> Result<(), ModuleFault>
    requires sound { IsSound game.now }
    requires modules { All (λ m. IsModule game.now m.0) modules.now }
    ensures { result ≡ modules_fit game.now allowed.now activity.now modules.now }
{
    for (good, _) in modules {
        module_fits(game, allowed, activity, *good)?;
    }
    Ok(())
}

// What modules add up to.
fn total_bonus(game: &Game, modules: &[(GoodId, u32)]) -> Bonus
    requires sound { IsSound game.now }
    requires modules { All (λ m. IsModule game.now m.0) modules.now }
    requires few { module_count modules.now ≤ 65_535 }
    ensures { result ≡ bonus_of game.now modules.now }
{
    Bonus {
        speed: total_hundredths(game, modules, EffectKind::Speed),
        productivity: total_hundredths(game, modules, EffectKind::Productivity),
        consumption: total_hundredths(game, modules, EffectKind::Consumption),
        pollution: total_hundredths(game, modules, EffectKind::Pollution),
    }
}

/// The hundredths of each kind of effect that the modules of a set-up add, as `sum_modules` tells them. The set-up's modules
/// must fit.
pub fn module_bonus(game: &Game, setup: &Setup) -> Bonus
    requires sound { IsSound game.now }
    requires setup { IsSoundSetup game.now setup.now }
    requires checked { checked_modules game.now setup.now ≡ Ok tt }
    ensures { result ≡ bonus_of game.now setup.now.modules }
{
    total_bonus(game, setup.modules.as_slice())
}

#[tactic(auto, unfolding(game_types::specs::Modules::module_sum, game_types::specs::Modules::checked_modules))]
/// The hundredths of each kind of effect that the modules of a set-up add, each module as often as it is there.
///
/// # Errors
///
/// `TooMany` (U1) exactly where there are more modules than the machine has slots, with the module at which their number
/// first passes the slots. Else, for the first module that doesn't fit: `Kind` (U2) with the first kind of effect that it
/// has and the machine doesn't take, or `Limited` (U3) where it may not be used for the recipe.
pub fn sum_modules(game: &Game, setup: &Setup) -> Result<Bonus, ModuleFault>
    requires sound { IsSound game.now }
    requires setup { IsSoundSetup game.now setup.now }
    ensures { result ≡ module_sum game.now setup.now }
{
    let machine = game.machine(setup.machine);
    let modules = setup.modules.as_slice();
    check_slots(modules, machine.slots)?;
    modules_fit(game, &machine.allowed, &setup.activity, modules)?;
    Ok(total_bonus(game, modules))
}
