//! The ranks of one node in sixteen worlds, and what is done to all of them at once.
ghost use Rattle.std.specs.Prelude.{◌≡◌, ℕ, ◌+◌, ◌-◌, ◌^◌, ◌<◌, ◌&&◌, ◌||◌, length, slice_index};
ghost use Rattle.reach_ranks.specs.Ranks.{is_one_to, within};
ghost use Rattle.reach_incremental.specs.Lanes.{lane};

use plan_base::NodeId;
use reach_ranks::{earlier, later, next_rank};

/// How many worlds stand side by side.
pub const LANES: usize = 16;

/// The rank of one node in each of sixteen worlds, which stand in one line of a processor's memory.
pub type Lanes = [u32; 16];

/// Which nodes are barred and which are granted, and for each lane the node that is barred in its world as well.
#[derive(Clone, Copy)]
pub struct LaneMarks<'a> {
    pub barred: &'a [bool],
    pub granted: &'a [bool],
    pub extras: &'a [Option<NodeId>; 16],
}

/// The earlier of a rank and one more than another.
fn earlier_next(a: u32, b: u32) -> u32
    ensures { (k : ℕ) → k < 2 ^ 32 - 1 → is_one_to (k + 1) result ≡ (is_one_to (k + 1) a || is_one_to k b) }
{
    earlier(a, next_rank(b))
}

/// In each lane the later of the two.
pub fn take_later(to: &mut Lanes, from: &Lanes)
    ensures { (l k : ℕ) → l < 16 → is_one_to k (slice_index to.new l) ≡ (is_one_to k (slice_index to.old l) && is_one_to k (slice_index from.now l)) }
{
    for l in 0..16 {
        to[l] = later(to[l], from[l]);
    }
}

/// In each lane the later of the rank there and one more than that of the member.
pub fn take_later_next(to: &mut Lanes, from: &Lanes)
    ensures { (l k : ℕ) → l < 16 → k < 2 ^ 32 - 1 → is_one_to (k + 1) (slice_index to.new l) ≡ (is_one_to (k + 1) (slice_index to.old l) && is_one_to k (slice_index from.now l)) }
{
    for l in 0..16 {
        to[l] = later(to[l], next_rank(from[l]));
    }
}

/// In each lane the earlier of the rank there and one more than that of the member.
pub fn take_earlier_next(to: &mut Lanes, from: &Lanes)
    ensures { (l k : ℕ) → l < 16 → k < 2 ^ 32 - 1 → is_one_to (k + 1) (slice_index to.new l) ≡ (is_one_to (k + 1) (slice_index to.old l) || is_one_to k (slice_index from.now l)) }
{
    for l in 0..16 {
        to[l] = earlier_next(to[l], from[l]);
    }
}

/// `take_later_next` of one of the nodes.
pub fn take_later_member(to: &mut Lanes, ranks: &[Lanes], member: NodeId)
    requires { member.0 < length ranks.now }
    ensures { (l k : ℕ) → l < 16 → k < 2 ^ 32 - 1 → is_one_to (k + 1) (slice_index to.new l) ≡ (is_one_to (k + 1) (slice_index to.old l) && within (lane l ranks.now) k member.0) }
{
    take_later_next(to, &ranks[member.0 as usize]);
}

/// `take_earlier_next` of one of the nodes.
pub fn take_earlier_member(to: &mut Lanes, ranks: &[Lanes], member: NodeId)
    requires { member.0 < length ranks.now }
    ensures { (l k : ℕ) → l < 16 → k < 2 ^ 32 - 1 → is_one_to (k + 1) (slice_index to.new l) ≡ (is_one_to (k + 1) (slice_index to.old l) || within (lane l ranks.now) k member.0) }
{
    take_earlier_next(to, &ranks[member.0 as usize]);
}
