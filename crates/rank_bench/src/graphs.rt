//! Graphs made from a seed.
ghost use Rattle.std.specs.Prelude.{◌≡◌, ◌<◌, true, All};
ghost use Rattle.graph_store.specs.Rows.{AreMembersBelow, HasMembersBelow};

use graph_store::{Graph, Group, Row};
use plan_base::{Items, NodeId};
use std::alloc::{AllocError, Global};
use std::io;

/// Numbers that look random, the same for the same seed.
#[derive(Drop)]
pub struct Numbers {
    state: u64,
}

impl Numbers {
    /// The numbers of a seed.
    pub fn of_seed(seed: u64) -> Numbers {
        Numbers { state: seed }
    }

    /// The next number below `bound`, which is not 0.
    pub fn below(&mut self, bound: u32) -> u32
        requires { 0 < bound }
        ensures { result < bound }
    {
        self.state = self
            .state
            .wrapping_mul(6_364_136_223_846_793_005)
            .wrapping_add(1_442_695_040_888_963_407);
        let high = (self.state >> 33) as u32;
        high % bound
    }
}

/// Whether each member of the group is one of the first nodes.
fn is_group_below(count: u32, group: &Group) -> bool
    ensures { result ≡ true → All (λ m. m.0 < count) group.now.members }
{
    group.members.as_slice().iter().all(|m| m.0 < count)
}

/// Whether each member of the row is one of the first nodes.
fn is_row_below(count: u32, row: &Row) -> bool
    ensures { result ≡ true → HasMembersBelow count row.now }
{
    for group in row.groups.as_slice() {
        if !is_group_below(count, group) {
            return false;
        }
    }
    true
}

/// Whether each member of each row is one of the first nodes.
fn are_rows_below(count: u32, rows: &[Row]) -> bool
    ensures { result ≡ true → AreMembersBelow count rows.now }
{
    for row in rows {
        if !is_row_below(count, row) {
            return false;
        }
    }
    true
}

/// A group of members among the first nodes.
fn group(
    alloc: Global,
    numbers: &mut Numbers,
    all: bool,
    size: u32,
    bound: u32,
) -> Result<Group, AllocError>
    requires { 0 < bound }
{
    let mut members = Vec::new(alloc);
    for _ in 0..size {
        members.push(NodeId(numbers.below(bound)))?;
    }
    Ok(Group {
        all,
        members: Items::from_vec(members),
    })
}

/// The row of a node: none of the first sixty-fourth needs anything; each other needs one node before it, and any
/// of `size` nodes, of which most come before it.
fn row(
    alloc: Global,
    numbers: &mut Numbers,
    node: u32,
    count: u32,
    size: u32,
) -> Result<Row, AllocError>
    requires { node < count }
{
    let mut groups = Vec::new(alloc);
    if node > count / 64 {
        groups.push(group(alloc, numbers, true, 1, node)?)?;
        let bound = if numbers.below(8) == 0 { count } else { node };
        groups.push(group(alloc, numbers, false, size, bound)?)?;
    }
    Ok(Row {
        groups: Items::from_vec(groups),
    })
}

/// The rows of a graph with `count` nodes and about `size + 1` members a node.
pub fn rows(
    alloc: Global,
    numbers: &mut Numbers,
    count: u32,
    size: u32,
) -> Result<Vec<Row>, AllocError> {
    let mut rows = Vec::new(alloc);
    for node in 0..count {
        rows.push(row(alloc, numbers, node, count, size)?)?;
    }
    Ok(rows)
}

/// Rows of which each but the first and last needs the first, and the last needs any one of these.
pub fn wide_rows(alloc: Global, count: u32) -> Result<Vec<Row>, AllocError> {
    let mut rows = Vec::new(alloc);
    let mut members = Vec::new(alloc);
    rows.push(one_group(alloc, true, Vec::new(alloc))?)?;
    for node in 1..count {
        rows.push(one_group(alloc, true, vec![in alloc; NodeId(0)]?)?)?;
        members.push(NodeId(node))?;
    }
    rows.push(one_group(alloc, false, members)?)?;
    Ok(rows)
}

/// A row of one group.
fn one_group(alloc: Global, all: bool, members: Vec<NodeId>) -> Result<Row, AllocError> {
    let members = Items::from_vec(members);
    let groups = vec![in alloc; Group { all, members }]?;
    Ok(Row {
        groups: Items::from_vec(groups),
    })
}

/// The error where memory could not be had.
pub fn no_memory() -> io::Error {
    io::Error::from(AllocError)
}

/// The graph of rows; none where it could not be made.
pub fn graph_of(alloc: Global, rows: Vec<Row>) -> Option<Graph> {
    if rows.len() < 4_000_000_000 && are_rows_below(rows.len() as u32, &rows) {
        Graph::make(alloc, rows).ok()
    } else {
        None
    }
}
