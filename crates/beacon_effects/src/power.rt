//! What power beacons take.
ghost use Rattle.std.specs.Prelude.{◌≡◌, ◌<◌, Ok, All};
ghost use Rattle.fractions.specs.Fraction.{zero_fraction};
ghost use Rattle.game_types.specs.Beacons.{group_power, beacon_power_of, checked_beacons};
ghost use Rattle.game_types.specs.Steps.{sum_of};
ghost use Rattle.game_types.specs.Sound.{IsSound, IsSoundSetup, IsSoundGroup};

use fractions::Ratio;
use game_types::steps::{added, divided, multiplied};
use game_types::{BeaconGroup, Game, Setup, Wide};

#[tactic(auto, using(game_types::proofs::StepLemmas::positive_whole), unfolding(game_types::specs::Beacons::group_power))]
// A machine's part of the power that a group of beacons takes, in watts.
fn group_power(game: &Game, group: &BeaconGroup) -> Result<Ratio, Wide>
    requires sound { IsSound game.now }
    requires group { IsSoundGroup game.now group.now }
    requires shared { 0 < group.now.share }
    ensures { result ≡ group_power game.now group.now }
{
    let beacons = divided(
        9,
        &Ratio::whole(group.count as i64),
        &Ratio::whole(group.share as i64),
    )?;
    multiplied(9, &beacons, &game.machine(group.beacon).usage)
}

// A machine's part of the power that all groups of beacons take, in watts.
fn power_sum(game: &Game, groups: &[BeaconGroup]) -> Result<Ratio, Wide>
    requires sound { IsSound game.now }
    requires groups { All (IsSoundGroup game.now) groups.now }
    requires shared { All (λ group. 0 < group.share) groups.now }
    ensures { result ≡ sum_of 9 (group_power game.now) zero_fraction groups.now }
{
    let mut sum = Ratio::zero();
    for group in groups {
        let power = group_power(game, group)?;
        sum = added(9, &sum, &power)?;
    }
    Ok(sum)
}

#[tactic(auto, unfolding(game_types::specs::Beacons::beacon_power_of))]
/// A machine's part of the power that the beacons of a set-up take, in watts: of each group count divided by share times the
/// power of one beacon. The set-up must pass `check_beacons`.
///
/// # Errors
///
/// `Wide` with step 9 exactly where a number of it is past the limits.
pub fn beacon_power(game: &Game, setup: &Setup) -> Result<Ratio, Wide>
    requires sound { IsSound game.now }
    requires setup { IsSoundSetup game.now setup.now }
    requires checked { checked_beacons game.now setup.now ≡ Ok tt }
    ensures { result ≡ beacon_power_of game.now setup.now }
{
    power_sum(game, setup.beacons.as_slice())
}
