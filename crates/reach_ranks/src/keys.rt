//! The keys of nodes in the heap, and the floors of their ranks.
ghost use Rattle.std.specs.Prelude.{◌≡◌, ◌<◌, Some, length, slice_index_or, slice_set};
ghost use Rattle.reach_ranks.specs.Given.{is_same_key, key_of, next_kept};

use crate::order::earlier;
use index_heap::Heap;
use plan_base::NodeId;

/// The key where the kept rank is another, and else none.
pub fn next_kept(kept: u32, key: u32) -> u32
    ensures { result ≡ next_kept kept key }
{
    if kept == key { 0 } else { key }
}

/// The key of a node by its kept and its given rank.
pub fn right_key(kept: u32, by_row: u32) -> Option<u32>
    ensures { result ≡ key_of kept by_row }
{
    if kept == by_row {
        None
    } else {
        Some(earlier(kept, by_row))
    }
}

/// Whether this is the key.
pub fn is_key(right: Option<u32>, key: u32) -> bool
    ensures { result ≡ is_same_key right (Some key) }
{
    match right {
        Some(k) => k == key,
        None => false,
    }
}

/// Gives the node this key, or takes its key away.
pub fn put(heap: &mut Heap, node: NodeId, key: Option<u32>)
    requires { node.0 < length heap.old }
    ensures { heap.new ≡ slice_set heap.old node.0 key }
{
    match key {
        Some(k) => heap.set(node, k),
        None => heap.drop_key(node),
    }
}

/// The rank below which a node's can't be.
pub fn floor_of(floor: &[u32], node: NodeId) -> u32
    ensures { result ≡ slice_index_or floor.now node.0 1 }
{
    let place = node.0 as usize;
    if place < floor.len() { floor[place] } else { 1 }
}
