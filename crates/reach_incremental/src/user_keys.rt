//! The keys of the nodes that use a node, after it got other ranks in some lanes.
ghost use Rattle.std.specs.Prelude.{◌≡◌, ℕ, ◌<◌, ◌≤◌, ◌==◌, ◌&&◌, not, false, true, All, length, slice_index, slice_index_or, slice_set};
ghost use Rattle.index_heap.specs.Keys.{key_at};
ghost use Rattle.reach_ranks.specs.Ranks.{is_one_to};
ghost use Rattle.reach_ranks.specs.Given.{is_by, key_after};
ghost use Rattle.reach_incremental.specs.Lanes.{lane};
ghost use Rattle.reach_incremental.specs.Keys.{key_when_some_come, sooner, GivesLaneKeys};

use crate::lanes::Lanes;
use index_heap::Heap;
use plan_base::NodeId;
use reach_ranks::{earlier, floor_of, put};

/// Whether the rank is another and is the key.
fn comes(was: u32, is: u32, key: u32) -> bool
    ensures { result ≡ (not (was == is) && (is == key)) }
{
    was != is && is == key
}

/// Whether some lane gets the key as its rank.
pub fn does_any_come(was: &Lanes, is: &Lanes, key: u32) -> bool
    ensures { (l : ℕ) → l < 16 → (slice_index was.now l == slice_index is.now l) ≡ false → (slice_index is.now l == key) ≡ true → result ≡ true }
{
    let mut any = false;
    for l in 0..16 {
        any |= comes(was[l], is[l], key);
    }
    any
}

/// Whether the lane gets the key as its rank, and the user has no rank of 1 to `next` there.
fn is_late(was: u32, is: u32, key: u32, next: u32, rank: u32) -> bool
    ensures { result ≡ ((not (was == is) && (is == key)) && not (is_one_to next rank)) }
{
    was != is && is == key && !(0 < rank && rank <= next)
}

/// Whether it is so in some lane.
fn is_any_late(was: &Lanes, is: &Lanes, key: u32, next: u32, ranks: &Lanes) -> bool
    ensures { (l : ℕ) → l < 16 → (slice_index was.now l == slice_index is.now l) ≡ false → (slice_index is.now l == key) ≡ true → is_one_to next (slice_index ranks.now l) ≡ false → result ≡ true }
{
    let mut any = false;
    for l in 0..16 {
        any |= is_late(was[l], is[l], key, next, ranks[l]);
    }
    any
}

/// The user's rank where the lane loses the key as its rank and the user's is later, and else 0.
fn lost_rank(was: u32, is: u32, key: u32, rank: u32) -> u32
    ensures { (was == is) ≡ false → (is == key) ≡ false → key < rank → result ≡ rank }
{
    if was != is && is != key && key < rank {
        rank
    } else {
        0
    }
}

/// The earliest of these, and 0 where there is none.
fn first_lost(was: &Lanes, is: &Lanes, key: u32, ranks: &Lanes) -> u32
    ensures { (l : ℕ) → l < 16 → (slice_index was.now l == slice_index is.now l) ≡ false → (slice_index is.now l == key) ≡ false → key < slice_index ranks.now l → (0 < result) × (result ≤ slice_index ranks.now l) }
{
    let mut first = 0;
    for l in 0..16 {
        first = earlier(first, lost_rank(was[l], is[l], key, ranks[l]));
    }
    first
}

/// The earlier of a key and a rank, where the rank 0 is none.
fn sooner(key: Option<u32>, rank: u32) -> Option<u32>
    ensures { result ≡ sooner key rank }
{
    match key {
        _ if rank == 0 => key,
        None => Some(rank),
        Some(other) => Some(other.min(rank)),
    }
}

/// The key of a user where some lane gets its rank.
fn key_when_some_come(key: Option<u32>, next: u32, late: bool) -> Option<u32>
    ensures { result ≡ key_when_some_come key next late }
{
    match key {
        None if late => Some(next),
        None => None,
        Some(other) => Some(other.min(next)),
    }
}

/// The key of a user that has this key, floor and these ranks, after a node got other ranks under the key `by`.
fn user_key(
    was: &Lanes,
    is: &Lanes,
    by: u32,
    come: bool,
    low: u32,
    ranks: &Lanes,
    key: Option<u32>,
) -> Option<u32>
    requires { (l : ℕ) → l < 16 → (slice_index was.now l == slice_index is.now l) ≡ false → (slice_index is.now l == by) ≡ true → come ≡ true }
    ensures lower { is_by result key ≡ true }
    ensures each { (l : ℕ) → l < 16 → (slice_index was.now l == slice_index is.now l) ≡ false → is_by result (key_after (slice_index is.now l == by) by low key (slice_index ranks.now l)) ≡ true }
{
    let lost = first_lost(was, is, by, ranks);
    if !come || low == 0 {
        return sooner(key, lost);
    }
    let next = by.saturating_add(1).max(low);
    let late = is_any_late(was, is, by, next, ranks);
    sooner(key_when_some_come(key, next, late), lost)
}

/// Gives a user its key after a node got other ranks under the key `by`.
fn give_key(
    ranks: &[Lanes],
    floor: &[u32],
    heap: &mut Heap,
    user: NodeId,
    was: &Lanes,
    is: &Lanes,
    by: u32,
    come: bool,
)
    requires node { user.0 < length heap.old }
    requires ranks { length ranks.now ≡ length heap.old }
    requires come { (l : ℕ) → l < 16 → (slice_index was.now l == slice_index is.now l) ≡ false → (slice_index is.now l == by) ≡ true → come ≡ true }
    ensures put { heap.new ≡ slice_set heap.old user.0 (key_at heap.new user.0) }
    ensures lower { is_by (key_at heap.new user.0) (key_at heap.old user.0) ≡ true }
    ensures each { (l : ℕ) → l < 16 → (slice_index was.now l == slice_index is.now l) ≡ false →
        is_by (key_at heap.new user.0) (key_after (slice_index is.now l == by) by (slice_index_or floor.now user.0 1) (key_at heap.old user.0) (slice_index (lane l ranks.now) user.0)) ≡ true }
{
    let key = heap.key_of(user);
    let low = floor_of(floor, user);
    let after = user_key(was, is, by, come, low, &ranks[user.0 as usize], key);
    if after != key {
        put(heap, user, after);
    }
}

/// The same for each of the users.
pub fn give_keys(
    ranks: &[Lanes],
    floor: &[u32],
    heap: &mut Heap,
    users: &[NodeId],
    was: &Lanes,
    is: &Lanes,
    by: u32,
)
    requires users { All (λ u. u.0 < length heap.old) users.now }
    requires ranks { length ranks.now ≡ length heap.old }
    ensures keys { GivesLaneKeys by floor.now ranks.now was.now is.now users.now heap.old heap.new }
{
    let come = does_any_come(was, is, by);
    for user in users {
        give_key(ranks, floor, heap, *user, was, is, by, come);
    }
}
