//! The things that pass a test, from lists that hold their nodes and perhaps others.
ghost use Rattle.std.specs.Prelude.{◌≡◌, ℕ, ◌<◌, IfOk, length, true};
ghost use Rattle.graph_store.specs.Lists.{Rise, has_node, list_at};
ghost use Rattle.graph_store.specs.Members.{those};

use crate::lists::list_at;
use crate::passing::Test;
use plan_base::{NoMemory, NodeId};
use std::alloc::Global;

// Whether a node is that of a thing that passes a test.
fn is_of_those<T, P: Test<T>>(node: NodeId, first: u32, things: &[T], test: &P) -> bool
    ensures { result ≡ has_node (those (P.passes test.now) first things.now) node.0 }
{
    if node.0 < first {
        return false;
    }
    let place = (node.0 - first) as usize;
    if place < things.len() {
        test.passes(&things[place])
    } else {
        false
    }
}

// The nodes of the things that pass a test, from nodes among which they all are.
fn those_among<T, P: Test<T>>(
    alloc: Global,
    nodes: &[NodeId],
    first: u32,
    things: &[T],
    test: &P,
) -> Result<Vec<NodeId>, NoMemory>
    requires rise { Rise nodes.now }
    requires all { (n : ℕ) → has_node (those (P.passes test.now) first things.now) n ≡ true → has_node nodes.now n ≡ true }
    ensures { IfOk result (λ kept. kept.items ≡ those (P.passes test.now) first things.now) }
{
    let mut kept = Vec::new(alloc);
    for node in nodes {
        if is_of_those(*node, first, things, test) {
            kept.push(*node)?;
        }
    }
    Ok(kept)
}

/// The nodes of the things that pass a test, from the list of a number, among whose nodes they all are. It may be said to have no others.
pub fn those_at<T, P: Test<T>>(
    alloc: Global,
    exact: bool,
    lists: &[Vec<NodeId>],
    number: u32,
    first: u32,
    things: &[T],
    test: &P,
) -> Result<Vec<NodeId>, NoMemory>
    requires number { number < length lists.now }
    requires rise { Rise (list_at lists.now number) }
    requires all { (n : ℕ) → has_node (those (P.passes test.now) first things.now) n ≡ true → has_node (list_at lists.now number) n ≡ true }
    requires exactly { exact ≡ true → list_at lists.now number ≡ those (P.passes test.now) first things.now }
    ensures { IfOk result (λ nodes. nodes.items ≡ those (P.passes test.now) first things.now) }
{
    let nodes = list_at(alloc, lists, number)?;
    if exact {
        return Ok(nodes);
    }
    let kept = those_among(alloc, nodes.as_slice(), first, things, test)?;
    Ok(kept)
}
