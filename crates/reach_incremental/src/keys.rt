//! The key of a node for all lanes, and the ranks that it gets.
ghost use Rattle.std.specs.Prelude.{◌≡◌, ℕ, ◌-◌, ◌^◌, ◌<◌, ◌≤◌, false, slice_index, slice_index_or};
ghost use Rattle.reach_incremental.specs.Keys.{as_key, lane_key, least_below, next_in_lane};

use crate::lanes::Lanes;
use reach_ranks::earlier;

/// The key of a node in one lane, and 0 where it has none.
fn lane_key(live: bool, kept: u32, by_row: u32) -> u32
    ensures { result ≡ lane_key live kept by_row }
{
    if live && kept != by_row {
        earlier(kept, by_row)
    } else {
        0
    }
}

/// The least key of a node in the live lanes, and 0 where it has none.
pub fn least_key(live: &[bool; 16], kept: &Lanes, by_row: &Lanes) -> u32
    ensures { result ≡ least_below (λ l. lane_key (slice_index_or live.now l false) (slice_index kept.now l) (slice_index by_row.now l)) 16 }
{
    let mut least = 0;
    for l in 0..16 {
        least = earlier(least, lane_key(live[l], kept[l], by_row[l]));
    }
    least
}

/// What a node that was taken out under a key gets in a lane whose own key this is.
fn next_in_lane(own: u32, kept: u32, key: u32) -> u32
    ensures { result ≡ next_in_lane own kept key }
{
    if own != key {
        kept
    } else if kept == key {
        0
    } else {
        key
    }
}

/// What a node that was taken out under a key gets in each lane.
pub fn next_lanes(live: &[bool; 16], kept: &Lanes, by_row: &Lanes, key: u32) -> Lanes
    ensures small { (l : ℕ) → slice_index result l ≤ 2 ^ 32 - 1 }
    ensures next { (l : ℕ) → l < 16 → slice_index result l ≡ next_in_lane (lane_key (slice_index_or live.now l false) (slice_index kept.now l) (slice_index by_row.now l)) (slice_index kept.now l) key }
{
    let mut next = [0; 16];
    for l in 0..16 {
        next[l] = next_in_lane(lane_key(live[l], kept[l], by_row[l]), kept[l], key);
    }
    next
}

/// The key that a number stands for, where 0 is none.
pub fn as_key(key: u32) -> Option<u32>
    ensures { result ≡ as_key key }
{
    if key == 0 { None } else { Some(key) }
}
