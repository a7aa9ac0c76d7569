//! The beacons round a machine: whether their modules fit, what they add to the effects on the machine, what power they
//! take.
#![tactic(auto)]

mod checks;
mod power;
mod sums;

pub use checks::check_beacons;
pub use game_types::{BeaconFault, BeaconSum};
pub use power::beacon_power;
pub use sums::{beacon_bonus, beacon_sum};
