//! Fluids by their temperatures: those within bounds are found by halves among nodes whose coolest comes first.
ghost use Rattle.std.specs.Prelude.{◌≡◌, ℕ, ◌<◌, ◌≤◌, None, true, false, IfOk, filter, length, map};
ghost use Rattle.std.specs.Ordering.{is_lt};
ghost use Rattle.game_types.specs.Temperatures.{is_cooler, is_within};
ghost use Rattle.depend_index.specs.Coolest.{AreCoolestFirst, AreSorted, IsCoolestFirst, temperature_of};
ghost use Rattle.graph_store.specs.Lists.{has_node, number_at};

use fractions::Ratio;
use game_types::{Fluid, is_within};
use plan_base::{NoMemory, NodeId};
use std::alloc::Global;
use std::cmp::Ordering;

// The temperature of the fluid that a node is, by the number of the first fluid's node; 0 where it is none.
#[tactic(auto, unfolding(crate::specs::Coolest::temperature_of))]
fn temperature_of(fluids: &[Fluid], first: u32, node: NodeId) -> Ratio
    ensures { result ≡ temperature_of fluids.now first node.0 }
{
    match fluids.get(node.0.saturating_sub(first) as usize) {
        Some(fluid) => fluid.at,
        None => Ratio::zero(),
    }
}

fn compared(fluids: &[Fluid], first: u32, one: NodeId, other: NodeId) -> Ordering
    ensures { is_lt result ≡ is_cooler (temperature_of fluids.now first one.0) (temperature_of fluids.now first other.0) }
{
    let at = temperature_of(fluids, first, one);
    at.cmp(&temperature_of(fluids, first, other))
}

fn put_coolest_first(fluids: &[Fluid], first: u32, nodes: &mut [NodeId])
    ensures same { (n : ℕ) → has_node nodes.new n ≡ has_node nodes.old n }
    ensures order { AreCoolestFirst fluids.now first nodes.new }
{
    nodes.sort_unstable_by(|one, other| compared(fluids, first, *one, *other));
}

fn coolest_first(
    alloc: Global,
    fluids: &[Fluid],
    first: u32,
    nodes: &[NodeId],
) -> Result<Vec<NodeId>, NoMemory>
    ensures { IfOk result (λ sorted. IsCoolestFirst fluids.now first nodes.now sorted.items) }
{
    let mut sorted = Vec::from_slice(alloc, nodes)?;
    put_coolest_first(fluids, first, sorted.as_mut_slice());
    Ok(sorted)
}

/// The nodes of each list, the coolest first.
pub fn sorted_lists(
    alloc: Global,
    fluids: &[Fluid],
    first: u32,
    lists: &[Vec<NodeId>],
) -> Result<Vec<Vec<NodeId>>, NoMemory>
    ensures { IfOk result (λ sorted. AreSorted fluids.now first lists.now sorted.items) }
{
    let mut all = Vec::new(alloc);
    for list in lists {
        let sorted = coolest_first(alloc, fluids, first, list.as_slice())?;
        all.push(sorted)?;
    }
    Ok(all)
}

fn is_node_within(
    fluids: &[Fluid],
    first: u32,
    low: &Option<Ratio>,
    high: &Option<Ratio>,
    node: NodeId,
) -> bool
    ensures { result ≡ is_within low.now high.now (temperature_of fluids.now first node.0) }
{
    is_within(low, high, &temperature_of(fluids, first, node))
}

// How many nodes are too cool.
fn too_cool_count(fluids: &[Fluid], first: u32, low: &Option<Ratio>, nodes: &[NodeId]) -> usize
    requires { AreCoolestFirst fluids.now first nodes.now }
    ensures within { result ≤ length nodes.now }
    ensures cool { (i : ℕ) → i < result → is_within low.now None (temperature_of fluids.now first (number_at nodes.now i)) ≡ false }
    ensures warm { (i : ℕ) → result ≤ i → i < length nodes.now → is_within low.now None (temperature_of fluids.now first (number_at nodes.now i)) ≡ true }
{
    nodes.partition_point(|node| !is_node_within(fluids, first, low, &None, *node))
}

/// The numbers of the nodes within bounds. The time is about their number and the logarithm of that of all nodes.
pub fn numbers_within(
    alloc: Global,
    fluids: &[Fluid],
    first: u32,
    low: &Option<Ratio>,
    high: &Option<Ratio>,
    nodes: &[NodeId],
) -> Result<Vec<u32>, NoMemory>
    requires { AreCoolestFirst fluids.now first nodes.now }
    ensures { IfOk result (λ numbers. numbers.items ≡ map (λ n. n.0) (filter (λ n. is_within low.now high.now (temperature_of fluids.now first n.0)) nodes.now)) }
{
    let from = too_cool_count(fluids, first, low, nodes);
    let mut numbers = Vec::new(alloc);
    for place in from..nodes.len() {
        let node = nodes[place];
        if !is_node_within(fluids, first, low, high, node) {
            return Ok(numbers);
        }
        numbers.push(node.0)?;
    }
    Ok(numbers)
}
