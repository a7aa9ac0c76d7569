//! Replies that list and count what is reached.
ghost use Rattle.std.specs.Prelude.{◌≡◌, ◌+◌, ◌*◌, ◌^◌, ◌<◌, ◌-◌, ◌≤◌, ◌++◌, ◌∷◌, [], IfOk, OnOk, if◌then◌else◌};
ghost use Rattle.plan_base.specs.Shape.{node_count};
ghost use Rattle.game_types.specs.Nodes.{shape_of};
ghost use Rattle.planner_core.specs.Replies.{list_reply, reached_count, reached_from, reached_marks, bits_at, bits_of, summary_reply};
ghost use Rattle.planning_state.specs.Worlds.{is_reached, rank_of};

use plan_base::{Items, Kind, NoMemory, NodeId};
use plan_lines::Reply;
use planning_state::Planning;
use std::alloc::Global;

/// The reached nodes of a kind, in node order.
///
/// # Errors
///
/// `NoMemory` where memory could not be had.
pub fn list_reply(alloc: Global, planning: &Planning, kind: Kind) -> Result<Reply, NoMemory>
    ensures { IfOk result (λ told. told ≡ list_reply planning.now.book kind) }
{
    let (first, end) = planning.nodes_of(kind);
    let nodes = reached_from(alloc, planning, first, end)?;
    Ok(Reply::List {
        kind,
        nodes: Items::from_vec(nodes),
    })
}

// The node and its rank behind the others, where it is reached.
fn push_reached(
    planning: &Planning,
    nodes: &mut Vec<(NodeId, u32)>,
    node: NodeId,
) -> Result<(), NoMemory>
    requires { node.0 < node_count (shape_of planning.now.book.game) }
    ensures { OnOk result (nodes.new.items ≡ nodes.old.items ++ (if is_reached planning.now.book node.0 then (node, rank_of planning.now.book node.0) ∷ [] else [])) }
{
    if planning.is_reached(node) {
        nodes.push((node, planning.rank(node)))?;
    }
    Ok(())
}

fn reached_from(
    alloc: Global,
    planning: &Planning,
    first: u32,
    end: u32,
) -> Result<Vec<(NodeId, u32)>, NoMemory>
    requires order { first ≤ end }
    requires nodes { end ≤ node_count (shape_of planning.now.book.game) }
    ensures { IfOk result (λ nodes. nodes.items ≡ reached_from planning.now.book first (end - first)) }
{
    let mut nodes = Vec::new(alloc);
    for n in first..end {
        push_reached(planning, &mut nodes, NodeId(n))?;
    }
    Ok(nodes)
}

// Whether the node is reached, behind the others.
fn push_mark(planning: &Planning, marks: &mut Vec<bool>, node: NodeId) -> Result<(), NoMemory>
    requires { node.0 < node_count (shape_of planning.now.book.game) }
    ensures { OnOk result (marks.new.items ≡ marks.old.items ++ is_reached planning.now.book node.0 ∷ []) }
{
    marks.push(planning.is_reached(node))?;
    Ok(())
}

/// Whether each node is reached, in node order.
///
/// # Errors
///
/// `NoMemory` where memory could not be had.
pub fn reached_marks(alloc: Global, planning: &Planning) -> Result<Vec<bool>, NoMemory>
    ensures { IfOk result (λ marks. marks.items ≡ reached_marks planning.now.book) }
{
    let mut marks = Vec::new(alloc);
    let end = planning.node_count();
    for n in 0..end {
        push_mark(planning, &mut marks, NodeId(n))?;
    }
    Ok(marks)
}

// How many nodes are reached, and how many milestones lie in their masks.
struct Totals {
    reached: u32,
    bits: u64,
}

// One more node.
fn with_node(planning: &Planning, totals: &mut Totals, node: NodeId)
    requires node { node.0 < node_count (shape_of planning.now.book.game) }
    requires few_nodes { node.0 < 2 ^ 32 - 1 }
    requires reached { totals.old.reached ≤ node.0 }
    requires bits { totals.old.bits ≤ 256 * node.0 }
    ensures reached { totals.new.reached ≡ totals.old.reached + (if is_reached planning.now.book node.0 then 1 else 0) }
    ensures bits { totals.new.bits ≡ totals.old.bits + bits_at planning.now node.0 }
    ensures few { bits_at planning.now node.0 ≤ 256 }
{
    if planning.is_reached(node) {
        totals.reached += 1;
        totals.bits += u64::from(planning.mask_len(node));
    }
}

fn totals_of(planning: &Planning) -> Totals
    ensures reached { result.reached ≡ reached_count planning.now.book }
    ensures bits { result.bits ≡ bits_of planning.now }
{
    let mut totals = Totals {
        reached: 0,
        bits: 0,
    };
    let end = planning.node_count();
    for n in 0..end {
        with_node(planning, &mut totals, NodeId(n));
    }
    totals
}

/// How many nodes are reached, and what there is besides. So many entries are done and undone.
pub fn summary_reply(planning: &Planning, done: u64, undone: u64) -> Reply
    ensures { result ≡ summary_reply planning.now done undone }
{
    let Totals { reached, bits } = totals_of(planning);
    Reply::Summary {
        reached,
        nodes: planning.node_count(),
        milestones: planning.milestone_count(),
        bits,
        tables: planning.tables().len() as u32,
        done,
        undone,
    }
}
