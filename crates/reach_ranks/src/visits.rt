//! Visits: the node of the least key gets its rank, and the nodes that use it get their keys, until none has a key.
ghost use Rattle.std.specs.Prelude.{◌≡◌, ℕ, ◌+◌, ◌-◌, ◌^◌, ◌<◌, ◌≤◌, None, false, true, All, length, replicate, slice_index, slice_index_or, slice_set};
ghost use Rattle.index_heap.specs.Keys.{key_at};
ghost use Rattle.reach_ranks.specs.Rounds.{world_under, IsWhole};
ghost use Rattle.reach_ranks.specs.Ranks.{AreRanks};
ghost use Rattle.reach_ranks.specs.Given.{given, key_after, key_of, left_to_do, work_left, HoldsBounds, HoldsKeys, GivesKeys, Refreshes};
ghost use Rattle.reach_ranks.specs.Floors.{AreAbove, IsFloor};

use crate::given::given_rank;
use crate::keys::{floor_of, is_key, next_kept, put, right_key};
use crate::marks::WorldMarks;
use graph_store::Rows;
use index_heap::Heap;
use plan_base::{NodeId, Steps};

/// Gives the node the key that these ranks give it, or takes its key away.
pub fn refresh<R: Rows<L>, L>(
    ranks: &[u32],
    rows: &R,
    marks: WorldMarks<'_>,
    heap: &mut Heap,
    node: NodeId,
    steps: &mut Steps<L>,
)
    requires node { node.0 < length (R.rows rows.now) }
    requires ranks { length ranks.now ≡ length (R.rows rows.now) }
    requires heap { length heap.old ≡ length (R.rows rows.now) }
    requires marks { IsWhole (world_under (R.rows rows.now) marks) }
    ensures key { let by_row = given (world_under (R.rows rows.now) marks.entry) (2 ^ 32 - 1) ranks.now node.0 in
        heap.new ≡ slice_set heap.old node.0 (key_of (slice_index ranks.now node.0) by_row) }
    ensures step { steps.new ≤ steps.old + 1 }
    ensures later { steps.old ≤ steps.new }
{
    let by_row = given_rank(ranks, rows, marks, node, steps);
    put(heap, node, right_key(ranks[node.0 as usize], by_row));
}

/// The same for each of the nodes.
pub fn refresh_all<R: Rows<L>, L>(
    ranks: &[u32],
    rows: &R,
    marks: WorldMarks<'_>,
    heap: &mut Heap,
    nodes: &[NodeId],
    steps: &mut Steps<L>,
)
    requires nodes { All (λ n. n.0 < length (R.rows rows.now)) nodes.now }
    requires ranks { length ranks.now ≡ length (R.rows rows.now) }
    requires heap { length heap.old ≡ length (R.rows rows.now) }
    requires marks { IsWhole (world_under (R.rows rows.now) marks) }
    ensures keys { Refreshes (world_under (R.rows rows.now) marks.entry) (2 ^ 32 - 1) ranks.now nodes.now heap.old heap.new }
    ensures small { (n : ℕ) → slice_index ranks.now n ≤ 2 ^ 32 - 1 }
    ensures steps { steps.new ≤ steps.old + length nodes.now }
    ensures later { steps.old ≤ steps.new }
{
    for node in nodes {
        refresh(ranks, rows, marks, heap, *node, steps);
    }
}

/// The key of a user that has this key, rank and floor, after a node got its rank `k` or lost it.
fn key_after(comes: bool, k: u32, floor: u32, key: Option<u32>, rank: u32) -> Option<u32>
    ensures { result ≡ key_after comes k floor key rank }
{
    if comes {
        let next = k.saturating_add(1).max(floor);
        match key {
            _ if floor == 0 => key,
            None if 0 < rank && rank <= next => None,
            None => Some(next),
            Some(other) => Some(other.min(next)),
        }
    } else {
        match key {
            _ if rank <= k => key,
            None => Some(rank),
            Some(other) => Some(other.min(rank)),
        }
    }
}

/// Gives a user its key after a node got its rank `k` or lost it.
fn give_key(ranks: &[u32], floor: &[u32], heap: &mut Heap, user: NodeId, comes: bool, k: u32)
    requires node { user.0 < length heap.old }
    requires ranks { length ranks.now ≡ length heap.old }
    ensures { heap.new ≡ slice_set heap.old user.0 (key_after comes k (slice_index_or floor.now user.0 1) (key_at heap.old user.0) (slice_index ranks.now user.0)) }
{
    let key = heap.key_of(user);
    let low = floor_of(floor, user);
    let after = key_after(comes, k, low, key, ranks[user.0 as usize]);
    if after != key {
        put(heap, user, after);
    }
}

/// The same for each of the users.
fn give_keys(ranks: &[u32], floor: &[u32], heap: &mut Heap, users: &[NodeId], comes: bool, k: u32)
    requires users { All (λ u. u.0 < length heap.old) users.now }
    requires ranks { length ranks.now ≡ length heap.old }
    ensures keys { GivesKeys comes k floor.now ranks.now users.now heap.old heap.new }
{
    for user in users {
        give_key(ranks, floor, heap, *user, comes, k);
    }
}

/// Takes out the node of the least key, where one has a key. Where the key is right the node gets its next rank, and
/// the nodes that use it get keys by which they are looked at again, none of them before its floor; else the node gets
/// its right key.
fn visit_least<R: Rows<L>, L>(
    ranks: &mut [u32],
    rows: &R,
    marks: WorldMarks<'_>,
    floor: &[u32],
    heap: &mut Heap,
    steps: &mut Steps<L>,
) -> bool
    requires marks { IsWhole (world_under (R.rows rows.now) marks) }
    requires keys { HoldsBounds (world_under (R.rows rows.now) marks) (2 ^ 32 - 1) ranks.old heap.old }
    requires floor { IsFloor (world_under (R.rows rows.now) marks) (2 ^ 32 - 1) floor.now }
    requires above { AreAbove floor.now ranks.old }
    ensures keys { HoldsBounds (world_under (R.rows rows.now) marks.entry) (2 ^ 32 - 1) ranks.new heap.new }
    ensures above { AreAbove floor.now ranks.new }
    ensures none { result ≡ false → (n : ℕ) → n < length (R.rows rows.now) → key_at heap.new n ≡ None }
    ensures steps { let w = world_under (R.rows rows.now) marks.entry in
        steps.new + left_to_do w ranks.new heap.new ≤ steps.old + left_to_do w ranks.old heap.old }
    ensures nearer { let w = world_under (R.rows rows.now) marks.entry in
        result ≡ true → left_to_do w ranks.new heap.new < left_to_do w ranks.old heap.old }
    ensures later { steps.old ≤ steps.new }
{
    let _count = rows.len();
    match heap.take_least() {
        None => false,
        Some((node, key)) => {
            let by_row = given_rank(ranks, rows, marks, node, steps);
            let kept = ranks[node.0 as usize];
            if !is_key(right_key(kept, by_row), key) {
                put(heap, node, right_key(kept, by_row));
                return true;
            }
            let next = next_kept(kept, key);
            ranks[node.0 as usize] = next;
            put(heap, node, right_key(next, by_row));
            let users = rows.users(node, steps);
            give_keys(ranks, floor, heap, users, next == key, key);
            true
        }
    }
}

/// Visits nodes until none has a key, where no rank is below the floor.
///
/// The floor is a rank for each node, or for none, such that no row gives a node a rank below it where no rank is. So a
/// node needn't be looked at before its floor: with the ranks of a world that bars less, most are looked at once.
pub fn settle_above<R: Rows<L>, L>(
    ranks: &mut [u32],
    rows: &R,
    marks: WorldMarks<'_>,
    floor: &[u32],
    heap: &mut Heap,
    steps: &mut Steps<L>,
)
    requires marks { IsWhole (world_under (R.rows rows.now) marks) }
    requires keys { HoldsKeys (world_under (R.rows rows.now) marks) (2 ^ 32 - 1) ranks.old heap.old }
    requires few { length (R.rows rows.now) < 2 ^ 32 - 1 }
    requires floor { IsFloor (world_under (R.rows rows.now) marks) (2 ^ 32 - 1) floor.now }
    requires above { AreAbove floor.now ranks.old }
    ensures ranks { AreRanks (world_under (R.rows rows.now) marks.entry) ranks.new }
    ensures heap { heap.new ≡ replicate (length (R.rows rows.now)) None }
    ensures steps { steps.new ≤ steps.old + work_left (world_under (R.rows rows.now) marks.entry) ranks.old }
    ensures later { steps.old ≤ steps.new }
{
    'visits: while visit_least(ranks, rows, marks, floor, heap, steps) {}
}

/// Visits nodes until none has a key.
pub fn settle<R: Rows<L>, L>(
    ranks: &mut [u32],
    rows: &R,
    marks: WorldMarks<'_>,
    heap: &mut Heap,
    steps: &mut Steps<L>,
)
    requires marks { IsWhole (world_under (R.rows rows.now) marks) }
    requires keys { HoldsKeys (world_under (R.rows rows.now) marks) (2 ^ 32 - 1) ranks.old heap.old }
    requires few { length (R.rows rows.now) < 2 ^ 32 - 1 }
    ensures ranks { AreRanks (world_under (R.rows rows.now) marks.entry) ranks.new }
    ensures heap { heap.new ≡ replicate (length (R.rows rows.now)) None }
    ensures steps { steps.new ≤ steps.old + work_left (world_under (R.rows rows.now) marks.entry) ranks.old }
    ensures later { steps.old ≤ steps.new }
{
    settle_above(ranks, rows, marks, &[], heap, steps);
}
