//! The modules that are put into machines and beacons.
ghost use Rattle.std.specs.Prelude.{◌≡◌, ◌≤◌, ◌+◌, ◌*◌, Ok, All, IfOk, ◌+ℤ◌, ◌*ℤ◌, pos, unsigned_abs};
ghost use Rattle.game_types.specs.Modules.{slots_hold, hundredths_of, module_count, of_kind, named};
ghost use Rattle.game_types.specs.Sound.{IsSound, IsModule, IsSmall, IsSoundBonus};

use crate::{Bonus, EffectKind, FitFault, Game, ModuleFault};
use plan_base::GoodId;

/// Whether there are no more modules than slots.
///
/// # Errors
///
/// `TooMany` exactly where there are more, with the module at which their number first passes the slots.
pub fn check_slots(modules: &[(GoodId, u32)], slots: u32) -> Result<(), ModuleFault>
    ensures fault { result ≡ slots_hold slots modules.now }
    ensures counted { IfOk result (λ _. module_count modules.now ≤ slots) }
{
    let mut left = slots;
    for (good, count) in modules {
        if left < *count {
            return Err(ModuleFault::TooMany(*good));
        }
        left -= *count;
    }
    Ok(())
}

/// What doesn't fit, with the module's name.
pub fn named(good: GoodId, fit: Result<(), FitFault>) -> Result<(), ModuleFault>
    ensures { result ≡ named good fit }
{
    match fit {
        Ok(()) => Ok(()),
        Err(FitFault::Kind(kind)) => Err(ModuleFault::Kind(good, kind)),
        Err(FitFault::Limited) => Err(ModuleFault::Limited(good)),
    }
}

impl Bonus {
    /// The hundredths of a kind of effect.
    pub fn of_kind(&self, kind: EffectKind) -> i64
        requires { IsSoundBonus self.now }
        ensures value { result ≡ of_kind kind self.now }
        ensures small { IsSmall result }
    {
        match kind {
            EffectKind::Speed => self.speed,
            EffectKind::Productivity => self.productivity,
            EffectKind::Consumption => self.consumption,
            EffectKind::Pollution => self.pollution,
        }
    }
}

// A sum of hundredths and those of some modules more.
fn with_modules(sum: i64, hundredths: i64, count: u32) -> i64
    requires small { IsSmall hundredths }
    requires room { unsigned_abs sum + 100_000_000 * count ≤ 6_553_500_000_000 }
    ensures { result ≡ sum +ℤ (hundredths *ℤ pos count) }
{
    sum + hundredths * count as i64
}

/// The hundredths of a kind of effect of all modules together, each as often as it is there.
pub fn total_hundredths(game: &Game, modules: &[(GoodId, u32)], kind: EffectKind) -> i64
    requires sound { IsSound game.now }
    requires modules { All (λ m. IsModule game.now m.0) modules.now }
    requires few { module_count modules.now ≤ 65_535 }
    ensures { result ≡ hundredths_of game.now kind modules.now }
{
    let mut sum = 0;
    for (good, count) in modules {
        sum = with_modules(sum, game.module(*good).bonus.of_kind(kind), *count);
    }
    sum
}
