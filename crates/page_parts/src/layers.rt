//! The layers of a graph that is laid out: each node stands behind all that it takes, but where a circle is cut.
use crate::Done;
use crate::layout::{Graph, at, set};
use plan_base::NoMemory;
use std::alloc::Global;

// How many arrows lead to each node.
fn counts_in(alloc: Global, graph: &Graph) -> Result<Vec<u32>, NoMemory> {
    let mut counts = vec![in alloc; 0u32; graph.heights.len()]?;
    for arrow in graph.arrows.as_slice() {
        let count = at(counts.as_slice(), arrow.to);
        set(counts.as_mut_slice(), arrow.to, count.saturating_add(1));
    }
    Ok(counts)
}

// The first node that has no number in the order yet and waits for nothing; else the first card of those that wait for least.
fn next_node(graph: &Graph, waits: &[u32], placed: &[u32]) -> Option<usize> {
    let mut best = None;
    let mut least = u32::MAX;
    for node in 0..graph.heights.len() {
        let wait = at(waits, node);
        if at(placed, node) == 0 && wait < least && (wait == 0 || node < graph.first_joint) {
            best = Some(node);
            least = wait;
        }
    }
    best
}

// What follows a node that was placed stands behind it, and waits for one less.
fn move_followers(
    graph: &Graph,
    node: usize,
    waits: &mut [u32],
    placed: &[u32],
    layers: &mut [u32],
) {
    let behind = at(layers, node).saturating_add(1);
    for arrow in graph.arrows.as_slice() {
        if arrow.from == node {
            set(waits, arrow.to, at(waits, arrow.to).saturating_sub(1));
            if at(placed, arrow.to) == 0 {
                set(layers, arrow.to, at(layers, arrow.to).max(behind));
            }
        }
    }
}

// Moves a node to the right, until just before the first that follows it.
fn move_right(graph: &Graph, node: usize, layers: &mut [u32]) {
    let own = at(layers, node);
    let mut first = u32::MAX;
    for arrow in graph.arrows.as_slice() {
        let other = at(layers, arrow.to);
        if arrow.from == node && other > own {
            first = first.min(other);
        }
    }
    if first < u32::MAX {
        set(layers, node, first.saturating_sub(1));
    }
}

fn place_node(
    graph: &Graph,
    node: usize,
    waits: &mut [u32],
    placed: &mut [u32],
    layers: &mut [u32],
    order: &mut Vec<usize>,
) -> Done {
    order.push(node)?;
    set(placed, node, 1);
    move_followers(graph, node, waits, placed, layers);
    Ok(())
}

// Gives each node its place in the order, and its layer. Answers whether each got one.
fn place_nodes(
    graph: &Graph,
    waits: &mut [u32],
    placed: &mut [u32],
    layers: &mut [u32],
    order: &mut Vec<usize>,
) -> Result<bool, NoMemory> {
    for _ in 0..graph.heights.len() {
        match next_node(graph, waits, placed) {
            Some(node) => place_node(graph, node, waits, placed, layers, order)?,
            None => return Ok(false),
        }
    }
    Ok(true)
}

fn place_all(
    alloc: Global,
    graph: &Graph,
    layers: &mut [u32],
    order: &mut Vec<usize>,
) -> Result<bool, NoMemory> {
    let mut placed = vec![in alloc; 0u32; graph.heights.len()]?;
    let mut waits = counts_in(alloc, graph)?;
    place_nodes(
        graph,
        waits.as_mut_slice(),
        placed.as_mut_slice(),
        layers,
        order,
    )
}

fn move_all_right(graph: &Graph, order: &[usize], layers: &mut [u32]) {
    for node in order.iter().rev() {
        move_right(graph, *node, layers);
    }
}

fn set_layers(alloc: Global, graph: &Graph, layers: &mut [u32]) -> Done {
    let mut order: Vec<usize> = Vec::new(alloc);
    if place_all(alloc, graph, layers, &mut order)? {
        move_all_right(graph, order.as_slice(), layers);
    }
    Ok(())
}

/// The layer of each node: behind all that it takes, but where a circle is cut.
pub(crate) fn layers_of(alloc: Global, graph: &Graph) -> Result<Vec<u32>, NoMemory> {
    let mut layers = vec![in alloc; 0u32; graph.heights.len()]?;
    set_layers(alloc, graph, layers.as_mut_slice())?;
    Ok(layers)
}
