//! Where the cards of a chart stand: in layers from left to right, each behind what it takes.
ghost use Rattle.std.specs.Prelude.{◌≤◌};

use crate::Done;
use crate::layers::layers_of;
use plan_base::NoMemory;
use std::alloc::Global;

/// An arrow from a node to another.
#[derive(Clone, Copy, Debug, PartialEq, Eq)]
pub struct Arrow {
    pub from: usize,
    pub to: usize,
}

/// A graph to be laid out: the height of each node, and its arrows. Nodes from `first_joint` on are joints, where goods meet.
#[derive(Drop)]
pub struct Graph {
    pub heights: Vec<u32>,
    pub first_joint: usize,
    pub arrows: Vec<Arrow>,
}

/// The layer of each node, and how far from the top it stands.
#[derive(Drop)]
pub struct Layout {
    pub layers: Vec<u32>,
    pub tops: Vec<u32>,
}

// Between two nodes of a layer.
const GAP: u32 = 14;

/// The number at a place, 0 past the last.
pub fn at(list: &[u32], place: usize) -> u32 {
    match list.get(place) {
        Some(number) => *number,
        None => 0,
    }
}

/// Sets the number at a place, where it is there.
pub(crate) fn set(list: &mut [u32], place: usize, number: u32) {
    if place < list.len() {
        list[place] = number;
    }
}

// The end of an arrow that is moved, and the other.
fn ends(arrow: Arrow, from_left: bool) -> (usize, usize) {
    if from_left {
        (arrow.to, arrow.from)
    } else {
        (arrow.from, arrow.to)
    }
}

fn is_before(other: u32, layer: u32, from_left: bool) -> bool {
    if from_left {
        other < layer
    } else {
        other > layer
    }
}

// The middle of a node.
fn middle_of(graph: &Graph, tops: &[u32], node: usize) -> u32 {
    at(tops, node).saturating_add(at(graph.heights.as_slice(), node) / 2)
}

// Whether an arrow joins a node of a layer with one on the side that it is drawn to.
fn is_pulling(layers: &[u32], layer: u32, near: usize, far: usize, from_left: bool) -> bool {
    at(layers, near) == layer && is_before(at(layers, far), layer, from_left)
}

fn add(numbers: &mut [u32], node: usize, more: u32) {
    let sum = at(numbers, node).saturating_add(more);
    set(numbers, node, sum);
}

// Where the middle of each node of a layer is drawn to: the middles of what it is joined with on one side together, and how many
// these are.
fn pull(
    graph: &Graph,
    layout: &Layout,
    layer: u32,
    from_left: bool,
    sums: &mut [u32],
    counts: &mut [u32],
) {
    for arrow in graph.arrows.as_slice() {
        let (near, far) = ends(*arrow, from_left);
        if is_pulling(layout.layers.as_slice(), layer, near, far, from_left) {
            add(sums, near, middle_of(graph, layout.tops.as_slice(), far));
            add(counts, near, 1);
        }
    }
}

// Where the middle of a node is to be.
fn drawn_to(middle: u32, sum: u32, count: u32) -> u32 {
    if count == 0 { middle } else { sum / count }
}

fn is_member(graph: &Graph, layout: &Layout, layer: u32, node: usize) -> bool {
    let is_card = node < graph.first_joint;
    at(layout.layers.as_slice(), node) == layer && is_card == (layer % 2 == 0)
}

// The nodes of a layer, each with where its middle is drawn to.
fn add_members(
    graph: &Graph,
    layout: &Layout,
    layer: u32,
    sums: &[u32],
    counts: &[u32],
    members: &mut Vec<(u32, usize)>,
) -> Done {
    for node in 0..graph.heights.len() {
        if is_member(graph, layout, layer, node) {
            let middle = middle_of(graph, layout.tops.as_slice(), node);
            members.push((drawn_to(middle, at(sums, node), at(counts, node)), node))?;
        }
    }
    Ok(())
}

fn find_members(
    alloc: Global,
    graph: &Graph,
    layout: &Layout,
    layer: u32,
    from_left: bool,
    members: &mut Vec<(u32, usize)>,
) -> Done {
    let mut sums = vec![in alloc; 0u32; graph.heights.len()]?;
    let mut counts = vec![in alloc; 0u32; graph.heights.len()]?;
    pull(
        graph,
        layout,
        layer,
        from_left,
        sums.as_mut_slice(),
        counts.as_mut_slice(),
    );
    add_members(
        graph,
        layout,
        layer,
        sums.as_slice(),
        counts.as_slice(),
        members,
    )
}

// Puts nodes below one another, each near where it is drawn to.
fn stack(graph: &Graph, members: &[(u32, usize)], tops: &mut [u32]) {
    let mut free = 0;
    for member in members {
        let height = at(graph.heights.as_slice(), member.1);
        let top = member.0.saturating_sub(height / 2).max(free);
        set(tops, member.1, top);
        free = top.saturating_add(height).saturating_add(GAP);
    }
}

// Puts the nodes of a layer below one another, each near where it is drawn to.
fn settle(alloc: Global, graph: &Graph, layout: &mut Layout, layer: u32, from_left: bool) -> Done {
    let mut members: Vec<(u32, usize)> = Vec::new(alloc);
    find_members(alloc, graph, layout, layer, from_left, &mut members)?;
    members.sort_by_key(|member| member.0)?;
    stack(graph, members.as_slice(), layout.tops.as_mut_slice());
    Ok(())
}

/// The last layer.
pub fn last_layer(layout: &Layout) -> u32
    ensures { result ≤ 1_000_000 }
{
    let mut last = 0;
    for layer in layout.layers.as_slice() {
        last = last.max((*layer).min(1_000_000));
    }
    last
}

// Moves all nodes up, until one stands at the top.
fn move_up(graph: &Graph, tops: &mut [u32]) {
    let mut least = u32::MAX;
    for node in 0..graph.first_joint {
        least = least.min(at(tops, node));
    }
    for node in 0..tops.len() {
        set(tops, node, at(tops, node).saturating_sub(least));
    }
}

// Settles all layers from the left.
fn settle_rightward(alloc: Global, graph: &Graph, layout: &mut Layout, last: u32) -> Done
    requires { last ≤ 1_000_000 }
{
    for layer in 0..last + 1 {
        settle(alloc, graph, layout, layer, true)?;
    }
    Ok(())
}

// Settles all layers from the right.
fn settle_leftward(alloc: Global, graph: &Graph, layout: &mut Layout, last: u32) -> Done
    requires { last ≤ 1_000_000 }
{
    for left in 0..last + 1 {
        settle(alloc, graph, layout, last - left, false)?;
    }
    Ok(())
}

// Settles all layers: from the left, from the right, and from the left once more.
fn settle_all(alloc: Global, graph: &Graph, layout: &mut Layout) -> Done {
    let last = last_layer(layout);
    settle_rightward(alloc, graph, layout, last)?;
    settle_leftward(alloc, graph, layout, last)?;
    settle_rightward(alloc, graph, layout, last)
}

/// Lays a graph out.
pub fn laid_out(alloc: Global, graph: &Graph) -> Result<Layout, NoMemory> {
    let layers = layers_of(alloc, graph)?;
    let tops = vec![in alloc; 0u32; graph.heights.len()]?;
    let mut layout = Layout { layers, tops };
    settle_all(alloc, graph, &mut layout)?;
    move_up(graph, layout.tops.as_mut_slice());
    Ok(layout)
}
