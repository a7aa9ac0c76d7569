//! What beacons add to the effects on a machine.
ghost use Rattle.std.specs.Prelude.{◌≡◌, ◌≤◌, All, Ok};
ghost use Rattle.fractions.specs.Fraction.{Fraction, zero_fraction};
ghost use Rattle.game_types.specs.Beacons.{beacon_effectivity, passed_on, group_bonus, group_bonuses_fit, bonuses_fit, bonus_sum, bonus_sums, beacon_sum_of, checked_beacons};
ghost use Rattle.game_types.specs.Modules.{module_count};
ghost use Rattle.game_types.specs.Sound.{IsSound, IsSoundSetup, IsSoundGroup};

use crate::check_beacons;
use fractions::Ratio;
use game_types::steps::{added, divided, multiplied};
use game_types::{
    BeaconFault, BeaconGroup, BeaconSum, EffectKind, Game, MachineKind, Setup, Wide,
    total_hundredths,
};

// How much of its modules' effects a beacon passes on.
fn beacon_effectivity(kind: &MachineKind) -> Ratio
    ensures { result ≡ beacon_effectivity kind.now }
{
    match kind {
        MachineKind::Beacon { effectivity } => *effectivity,
        _ => Ratio::zero(),
    }
}

#[tactic(auto, using(game_types::proofs::StepLemmas::positive_whole), unfolding(game_types::specs::Beacons::passed_on))]
// Step 1: what some beacons pass on of the hundredths of the modules of one.
fn passed_on(effectivity: &Ratio, count: u32, hundredths: i64) -> Result<Ratio, Wide>
    ensures { result ≡ passed_on effectivity.now count hundredths }
{
    let all = multiplied(1, &Ratio::whole(hundredths), &Ratio::whole(count as i64))?;
    let bonus = divided(1, &all, &Ratio::whole(100))?;
    multiplied(1, &bonus, effectivity)
}

#[tactic(auto, unfolding(game_types::specs::Beacons::group_bonus))]
// Step 1: what a group adds to a kind of effect.
fn group_bonus(game: &Game, kind: EffectKind, group: &BeaconGroup) -> Result<Ratio, Wide>
    requires sound { IsSound game.now }
    requires group { IsSoundGroup game.now group.now }
    requires few { module_count group.now.modules ≤ 65_535 }
    ensures { result ≡ group_bonus game.now kind group.now }
{
    let effectivity = beacon_effectivity(&game.machine(group.beacon).kind);
    let hundredths = total_hundredths(game, group.modules.as_slice(), kind);
    passed_on(&effectivity, group.count, hundredths)
}

#[tactic(auto, unfolding(game_types::specs::Beacons::group_bonuses_fit))]
// Step 1 of a group for every kind of effect.
fn group_bonuses_fit(game: &Game, group: &BeaconGroup) -> Result<(), Wide>
    requires sound { IsSound game.now }
    requires group { IsSoundGroup game.now group.now }
    requires few { module_count group.now.modules ≤ 65_535 }
    ensures { result ≡ group_bonuses_fit game.now group.now }
{
    group_bonus(game, EffectKind::Speed, group)?;
    group_bonus(game, EffectKind::Productivity, group)?;
    group_bonus(game, EffectKind::Consumption, group)?;
    group_bonus(game, EffectKind::Pollution, group)?;
    Ok(())
}

// Step 1 of all groups.
fn bonuses_fit(game: &Game, groups: &[BeaconGroup]) -> Result<(), Wide>
    requires sound { IsSound game.now }
    requires groups { All (IsSoundGroup game.now) groups.now }
    requires few { All (λ group. module_count group.modules ≤ 65_535) groups.now }
    ensures { result ≡ bonuses_fit game.now groups.now }
{
    for group in groups {
        group_bonuses_fit(game, group)?;
    }
    Ok(())
}

// Step 2: what all groups add to a kind of effect.
fn bonus_sum(game: &Game, kind: EffectKind, groups: &[BeaconGroup]) -> Result<Ratio, Wide>
    requires sound { IsSound game.now }
    requires groups { All (IsSoundGroup game.now) groups.now }
    requires few { All (λ group. module_count group.modules ≤ 65_535) groups.now }
    ensures { result ≡ bonus_sum game.now kind groups.now }
{
    let mut sum = Ratio::zero();
    for group in groups {
        let bonus = group_bonus(game, kind, group)?;
        sum = added(2, &sum, &bonus)?;
    }
    Ok(sum)
}

#[tactic(auto, unfolding(game_types::specs::Beacons::bonus_sums))]
// Steps 1 and 2 of all kinds of effects.
fn bonus_sums(game: &Game, groups: &[BeaconGroup]) -> Result<BeaconSum, Wide>
    requires sound { IsSound game.now }
    requires groups { All (IsSoundGroup game.now) groups.now }
    requires few { All (λ group. module_count group.modules ≤ 65_535) groups.now }
    ensures { result ≡ bonus_sums game.now groups.now }
{
    bonuses_fit(game, groups)?;
    let speed = bonus_sum(game, EffectKind::Speed, groups)?;
    let productivity = bonus_sum(game, EffectKind::Productivity, groups)?;
    let consumption = bonus_sum(game, EffectKind::Consumption, groups)?;
    let pollution = bonus_sum(game, EffectKind::Pollution, groups)?;
    Ok(BeaconSum {
        speed,
        productivity,
        consumption,
        pollution,
    })
}

/// What the beacons of a set-up add to each kind of effect, as `beacon_sum` tells it. The set-up must pass `check_beacons`.
///
/// # Errors
///
/// `Wide` with the step exactly where there is a number past the limits: 1 in what a group adds, 2 in the sums.
pub fn beacon_bonus(game: &Game, setup: &Setup) -> Result<BeaconSum, Wide>
    requires sound { IsSound game.now }
    requires setup { IsSoundSetup game.now setup.now }
    requires checked { checked_beacons game.now setup.now ≡ Ok tt }
    ensures { result ≡ bonus_sums game.now setup.now.beacons }
{
    bonus_sums(game, setup.beacons.as_slice())
}

#[tactic(auto, unfolding(game_types::specs::Beacons::beacon_sum_of))]
/// What the beacons of a set-up add to each kind of effect: of each group the hundredths of one beacon's modules times the
/// group's count, divided by 100, times the beacon's effectivity.
///
/// # Errors
///
/// Exactly those of `check_beacons`. Else `Wide` with the step exactly where there is a number past the limits: 1 in what
/// a group adds, 2 in the sums.
pub fn beacon_sum(game: &Game, setup: &Setup) -> Result<BeaconSum, BeaconFault>
    requires sound { IsSound game.now }
    requires setup { IsSoundSetup game.now setup.now }
    ensures { result ≡ beacon_sum_of game.now setup.now }
{
    check_beacons(game, setup)?;
    match beacon_bonus(game, setup) {
        Ok(sums) => Ok(sums),
        Err(wide) => Err(BeaconFault::Wide(wide)),
    }
}
