//! What lists of nodes have in common: the nodes that are in each of them, in node order.
ghost use Rattle.std.specs.Prelude.{◌≡◌, ℕ, ◌<◌, ◌≤◌, All, IfOk, filter, length, nat_lt, true};
ghost use Rattle.graph_store.specs.Lists.{AreCommon, IsPlaceOf, Rise, has_node, is_among, is_in_all, list_at, number_at};

use crate::lists::list_at;
use plan_base::{NoMemory, NodeId};
use std::alloc::Global;

fn is_below(nodes: &[NodeId], place: usize, node: NodeId) -> bool
    requires { place < length nodes.now }
    ensures { result ≡ nat_lt (number_at nodes.now place) node.0 }
{
    nodes[place].0 < node.0
}

/// The place of a node in a list that rises, from a place on before which all are below it. It goes in steps that double, and
// then halves what is left: the time is about the logarithm of how far it goes.
pub fn place_of(nodes: &[NodeId], from: usize, node: NodeId) -> usize
    requires rise { Rise nodes.now }
    requires within { from ≤ length nodes.now }
    requires below { (i : ℕ) → i < from → number_at nodes.now i < node.0 }
    ensures { IsPlaceOf node.0 nodes.now result }
{
    let mut low = from;
    let mut high = nodes.len();
    let mut step = 0;
    while low < high {
        let ahead = usize::min(step, (high - low) / 2);
        if is_below(nodes, low + ahead, node) {
            low += ahead + 1;
            step = 2 * ahead + 1;
        } else {
            high = low + ahead;
        }
    }
    low
}

/// Whether a node is at its place in a list that rises.
pub fn is_there(nodes: &[NodeId], place: usize, node: NodeId) -> bool
    requires rise { Rise nodes.now }
    requires place { IsPlaceOf node.0 nodes.now place }
    ensures { result ≡ has_node nodes.now node.0 }
{
    if place < nodes.len() {
        nodes[place].0 == node.0
    } else {
        false
    }
}

// The nodes of a list that are in another.
fn common(alloc: Global, nodes: &[NodeId], others: &[NodeId]) -> Result<Vec<NodeId>, NoMemory>
    requires nodes { Rise nodes.now }
    requires others { Rise others.now }
    ensures { IfOk result (λ kept. kept.items ≡ filter (λ n. has_node others.now n.0) nodes.now) }
{
    let mut kept = Vec::new(alloc);
    let mut place = 0;
    for node in nodes {
        place = place_of(others, place, *node);
        if is_there(others, place, *node) {
            kept.push(*node)?;
        }
    }
    Ok(kept)
}

// The nodes that are in the lists of all these numbers.
fn kept_in_all(
    alloc: Global,
    lists: &[Vec<NodeId>],
    numbers: &[u32],
    nodes: Vec<NodeId>,
) -> Result<Vec<NodeId>, NoMemory>
    requires rise { (k : ℕ) → k < length lists.now → Rise (list_at lists.now k) }
    requires within { All (λ k. k < length lists.now) numbers.now }
    requires nodes { Rise nodes.items }
    ensures { IfOk result (λ kept. kept.items ≡ filter (λ n. is_in_all lists.now numbers.now n.0) nodes.items) }
{
    let mut kept = nodes;
    for number in numbers {
        let others = &lists[*number as usize];
        kept = common(alloc, kept.as_slice(), others.as_slice())?;
    }
    Ok(kept)
}

fn list_length(lists: &[Vec<NodeId>], number: u32) -> usize {
    match lists.get(number as usize) {
        Some(list) => list.len(),
        None => 0,
    }
}

// One of these numbers whose list is the shortest.
fn shortest(lists: &[Vec<NodeId>], numbers: &[u32]) -> u32
    requires { 0 < length numbers.now }
    ensures { is_among numbers.now result ≡ true }
{
    let mut best = numbers[0];
    for number in numbers {
        if list_length(lists, *number) < list_length(lists, best) {
            best = *number;
        }
    }
    best
}

/// The nodes that are in the lists of all these numbers, in order. The time is about the length of the shortest list for each.
pub fn in_all(
    alloc: Global,
    lists: &[Vec<NodeId>],
    numbers: &[u32],
) -> Result<Vec<NodeId>, NoMemory>
    requires rise { (k : ℕ) → k < length lists.now → Rise (list_at lists.now k) }
    requires within { All (λ k. k < length lists.now) numbers.now }
    requires some { 0 < length numbers.now }
    ensures { IfOk result (λ nodes. AreCommon lists.now numbers.now nodes.items) }
{
    let first = shortest(lists, numbers);
    let nodes = list_at(alloc, lists, first)?;
    let kept = kept_in_all(alloc, lists, numbers, nodes)?;
    Ok(kept)
}
