//! Lists that rise, with a node put in its place.
ghost use Rattle.std.specs.Prelude.{◌≡◌, ℕ, ◌<◌, OnOk, length, true};
ghost use Rattle.graph_store.specs.Lists.{Rise, Widen, has_node, list_at};

use crate::common::{is_there, place_of};
use plan_base::{NoMemory, NodeId};

// Puts a node at its place in a list that rises, unless it is there.
fn put_node(list: &mut Vec<NodeId>, node: NodeId) -> Result<(), NoMemory>
    requires { Rise list.old.items }
    ensures rise { Rise list.new.items }
    ensures kept { (n : ℕ) → has_node list.old.items n ≡ true → has_node list.new.items n ≡ true }
    ensures put { OnOk result (has_node list.new.items node.0 ≡ true) }
{
    let place = place_of(list.as_slice(), 0, node);
    if !is_there(list.as_slice(), place, node) {
        list.insert(place, node)?;
    }
    Ok(())
}

/// Puts a node at its place in the list of a number, which rises, unless it is there.
pub fn put_node_at(lists: &mut [Vec<NodeId>], number: u32, node: NodeId) -> Result<(), NoMemory>
    requires number { number < length lists.old }
    requires rise { Rise (list_at lists.old number) }
    ensures widen { Widen lists.old lists.new }
    ensures put { OnOk result (has_node (list_at lists.new number) node.0 ≡ true) }
{
    put_node(&mut lists[number as usize], node)
}
