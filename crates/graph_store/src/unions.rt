//! Lists of nodes put together: in node order, each node once.
ghost use Rattle.std.specs.Prelude.{◌≡◌, ◌++◌, IfOk, OnOk, map};
ghost use Rattle.graph_store.specs.Lists.{list_at, HoldInOrder};

use crate::lists::{distinct, list_of};
use plan_base::{NoMemory, NodeId};
use std::alloc::Global;

/// Puts the numbers of nodes at the end.
pub fn push_numbers(numbers: &mut Vec<u32>, nodes: &[NodeId]) -> Result<(), NoMemory>
    ensures { OnOk result (numbers.new.items ≡ numbers.old.items ++ map (λ n. n.0) nodes.now) }
{
    for node in nodes {
        numbers.push(node.0)?;
    }
    Ok(())
}

/// Puts the numbers of the nodes of a list at the end.
pub fn push_list(numbers: &mut Vec<u32>, lists: &[Vec<NodeId>], number: u32) -> Result<(), NoMemory>
    ensures { OnOk result (numbers.new.items ≡ numbers.old.items ++ map (λ n. n.0) (list_at lists.now number)) }
{
    push_numbers(numbers, list_of(lists, number))
}

/// The nodes with these numbers, in order and each once.
pub fn in_order(alloc: Global, numbers: Vec<u32>) -> Result<Vec<NodeId>, NoMemory>
    ensures { IfOk result (λ nodes. HoldInOrder numbers.items nodes.items) }
{
    let sorted = distinct(numbers);
    let all = sorted.as_slice();
    let mut nodes = Vec::new(alloc);
    for number in all {
        nodes.push(NodeId(*number))?;
    }
    Ok(nodes)
}
