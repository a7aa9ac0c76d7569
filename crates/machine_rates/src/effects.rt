//! The effects of modules and beacons on a machine.
ghost use Rattle.std.specs.Prelude.{◌≡◌};
ghost use Rattle.fractions.specs.Fraction.{zero_fraction, one_fraction};
ghost use Rattle.game_types.specs.Rates.{bonus_with, multiplier, productivity_with, effects_with};

use fractions::Ratio;
use game_types::steps::{added, at_least, divided};
use game_types::{BeaconSum, Bonus, Effects, Wide};

#[tactic(auto, using(game_types::proofs::StepLemmas::positive_whole), unfolding(game_types::specs::Rates::bonus_with))]
// What beacons add, plus the hundredths of modules.
fn bonus_with(beacons: &Ratio, hundredths: i64) -> Result<Ratio, Wide>
    ensures { result ≡ bonus_with beacons.now hundredths }
{
    let modules = divided(3, &Ratio::whole(hundredths), &Ratio::whole(100))?;
    added(3, beacons, &modules)
}

#[tactic(auto, unfolding(game_types::specs::Rates::multiplier))]
// One more than the bonus, and at least a fifth.
fn multiplier(beacons: &Ratio, hundredths: i64) -> Result<Ratio, Wide>
    ensures { result ≡ multiplier beacons.now hundredths }
{
    let bonus = bonus_with(beacons, hundredths)?;
    let value = added(3, &bonus, &Ratio::one())?;
    Ok(at_least(&Ratio::part(1, 5), &value))
}

#[tactic(auto, unfolding(game_types::specs::Rates::productivity_with))]
// The bonus and what the machine has without modules, and at least 0.
fn productivity_with(base: &Ratio, beacons: &Ratio, hundredths: i64) -> Result<Ratio, Wide>
    ensures { result ≡ productivity_with base.now beacons.now hundredths }
{
    let bonus = bonus_with(beacons, hundredths)?;
    let value = added(3, &bonus, base)?;
    Ok(at_least(&Ratio::zero(), &value))
}

#[tactic(auto, unfolding(game_types::specs::Rates::effects_with))]
/// The effects on a machine: with what it has of productivity without modules, the hundredths of its modules, and what its
/// beacons add. Speed, consumption and pollution are at least 1/5, productivity at least 0.
///
/// # Errors
///
/// `Wide` with step 3 exactly where a number of it is past the limits.
pub fn effects_of(base: &Ratio, modules: &Bonus, beacons: &BeaconSum) -> Result<Effects, Wide>
    ensures { result ≡ effects_with base.now modules.now beacons.now }
{
    let speed = multiplier(&beacons.speed, modules.speed)?;
    let productivity = productivity_with(base, &beacons.productivity, modules.productivity)?;
    let consumption = multiplier(&beacons.consumption, modules.consumption)?;
    let pollution = multiplier(&beacons.pollution, modules.pollution)?;
    Ok(Effects {
        speed,
        productivity,
        consumption,
        pollution,
    })
}

/// The effects on a pump, which takes no modules: all is as without any.
pub fn plain_effects() -> Effects
    ensures { result ≡ record { speed = one_fraction; productivity = zero_fraction; consumption = one_fraction; pollution = one_fraction } }
{
    Effects {
        speed: Ratio::one(),
        productivity: Ratio::zero(),
        consumption: Ratio::one(),
        pollution: Ratio::one(),
    }
}
