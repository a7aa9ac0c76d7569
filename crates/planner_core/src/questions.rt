//! Replies to questions about nodes and milestones, which leave all as it is.
ghost use Rattle.std.specs.Prelude.{◌≡◌, ◌+◌, ◌<◌, ◌≤◌, All, IfOk, map};
ghost use Rattle.plan_base.specs.Shape.{node_count};
ghost use Rattle.game_types.specs.Nodes.{shape_of};
ghost use Rattle.plan_lines.specs.declared.reply.Reply.TheVariants as reply;
ghost use Rattle.state_changes.specs.Actions.{node_named};
ghost use Rattle.planner_core.specs.Replies.{mask_reply, missing_lines, missing_reply, why_line, AboutNode, IsWhyReply, reply_work};
ghost use Rattle.planning_state.specs.Worlds.{is_reached, rank_of};

use crate::refusals::not_found;
use graph_store::Group;
use plan_base::{Items, NoMemory, NodeId, Steps};
use plan_lines::{Object, Reply};
use planning_state::Planning;
use std::alloc::Global;

/// The round that reaches a node.
///
/// # Errors
///
/// `NoMemory` where memory could not be had.
pub fn reach_reply(alloc: Global, planning: &Planning, object: &Object) -> Result<Reply, NoMemory>
    ensures { IfOk result (AboutNode planning.now.book.game (node_named planning.now.book.game object.now) (λ node told. told ≡ reply.Reach node (rank_of planning.now.book node.0))) }
{
    match planning.node(object) {
        Ok(node) => Ok(Reply::Reach {
            node,
            rank: planning.rank(node),
        }),
        Err(fault) => not_found(planning.game(), fault),
    }
}

/// The milestones that a node needs.
///
/// # Errors
///
/// `NoMemory` where memory could not be had.
pub fn mask_reply(alloc: Global, planning: &Planning, object: &Object) -> Result<Reply, NoMemory>
    ensures { IfOk result (AboutNode planning.now.book.game (node_named planning.now.book.game object.now) (λ node told. told ≡ mask_reply planning.now node (is_reached planning.now.book node.0))) }
{
    match planning.node(object) {
        Ok(node) => mask_of(alloc, planning, node),
        Err(fault) => not_found(planning.game(), fault),
    }
}

fn mask_of(alloc: Global, planning: &Planning, node: NodeId) -> Result<Reply, NoMemory>
    requires { node.0 < node_count (shape_of planning.now.book.game) }
    ensures { IfOk result (λ told. told ≡ mask_reply planning.now node (is_reached planning.now.book node.0)) }
{
    if planning.is_reached(node) {
        let milestones = planning.mask(node)?;
        Ok(Reply::Mask {
            node,
            reached: true,
            milestones: Items::from_vec(milestones),
        })
    } else {
        Ok(Reply::Mask {
            node,
            reached: false,
            milestones: Items::from_vec(Vec::new(alloc)),
        })
    }
}

/// Why a node is reached.
///
/// # Errors
///
/// `NoMemory` where memory could not be had.
pub fn why_reply<L>(
    alloc: Global,
    planning: &Planning,
    object: &Object,
    steps: &mut Steps<L>,
) -> Result<Reply, NoMemory>
    ensures why { IfOk result (AboutNode planning.now.book.game (node_named planning.now.book.game object.now) (λ node told. IsWhyReply planning.now node (is_reached planning.now.book node.0) told)) }
    ensures steps { IfOk result (λ told. steps.new ≤ steps.old + reply_work told) }
    ensures later { steps.old ≤ steps.new }
{
    match planning.node(object) {
        Ok(node) => why_of(alloc, planning, node, steps),
        Err(fault) => not_found(planning.game(), fault),
    }
}

fn why_of<L>(
    alloc: Global,
    planning: &Planning,
    node: NodeId,
    steps: &mut Steps<L>,
) -> Result<Reply, NoMemory>
    requires { node.0 < node_count (shape_of planning.now.book.game) }
    ensures why { IfOk result (λ told. IsWhyReply planning.now node (is_reached planning.now.book node.0) told) }
    ensures steps { IfOk result (λ told. steps.new ≤ steps.old + reply_work told) }
    ensures later { steps.old ≤ steps.new }
{
    if planning.is_reached(node) {
        let nodes = planning.why(node, steps)?;
        let lines = why_lines(alloc, planning, nodes.as_slice())?;
        Ok(Reply::Why {
            node,
            nodes: Items::from_vec(lines),
        })
    } else {
        Ok(Reply::Why {
            node,
            nodes: Items::from_vec(Vec::new(alloc)),
        })
    }
}

fn why_lines(
    alloc: Global,
    planning: &Planning,
    nodes: &[NodeId],
) -> Result<Vec<(NodeId, u32, bool)>, NoMemory>
    requires { All (λ m. m.0 < node_count (shape_of planning.now.book.game)) nodes.now }
    ensures { IfOk result (λ lines. lines.items ≡ map (why_line planning.now.book) nodes.now) }
{
    let mut lines = Vec::with_capacity(alloc, nodes.len())?;
    for node in nodes {
        lines.push((*node, planning.rank(*node), planning.is_granted(*node)))?;
    }
    Ok(lines)
}

/// The milestones, in order.
///
/// # Errors
///
/// `NoMemory` where memory could not be had.
pub fn milestones_reply(alloc: Global, planning: &Planning) -> Result<Reply, NoMemory>
    ensures { IfOk result (λ told. told ≡ reply.Milestones planning.now.milestones) }
{
    let nodes = milestones(alloc, planning)?;
    Ok(Reply::Milestones(Items::from_vec(nodes)))
}

fn milestones(alloc: Global, planning: &Planning) -> Result<Vec<NodeId>, NoMemory>
    ensures { IfOk result (λ nodes. nodes.items ≡ planning.now.milestones) }
{
    let mut nodes = Vec::new(alloc);
    for place in 0..planning.milestone_count() {
        nodes.push(planning.milestone(place))?;
    }
    Ok(nodes)
}

/// What a node lacks.
///
/// # Errors
///
/// `NoMemory` where memory could not be had.
pub fn missing_reply<L>(
    alloc: Global,
    planning: &Planning,
    object: &Object,
    steps: &mut Steps<L>,
) -> Result<Reply, NoMemory>
    ensures missing { IfOk result (AboutNode planning.now.book.game (node_named planning.now.book.game object.now) (λ node told. told ≡ missing_reply planning.now node (is_reached planning.now.book node.0))) }
    ensures steps { IfOk result (λ told. steps.new ≤ steps.old + reply_work told) }
    ensures later { steps.old ≤ steps.new }
{
    match planning.node(object) {
        Ok(node) => missing_of(alloc, planning, node, steps),
        Err(fault) => not_found(planning.game(), fault),
    }
}

fn missing_of<L>(
    alloc: Global,
    planning: &Planning,
    node: NodeId,
    steps: &mut Steps<L>,
) -> Result<Reply, NoMemory>
    requires { node.0 < node_count (shape_of planning.now.book.game) }
    ensures missing { IfOk result (λ told. told ≡ missing_reply planning.now node (is_reached planning.now.book node.0)) }
    ensures steps { IfOk result (λ told. steps.new ≤ steps.old + reply_work told) }
    ensures later { steps.old ≤ steps.new }
{
    let forbidden = planning.is_forbidden(node);
    if planning.is_reached(node) {
        Ok(Reply::Missing {
            node,
            reached: true,
            forbidden,
            groups: Items::from_vec(Vec::new(alloc)),
        })
    } else {
        let groups = planning.missing(node, steps)?;
        let lines = missing_lines(alloc, groups.as_slice())?;
        Ok(Reply::Missing {
            node,
            reached: false,
            forbidden,
            groups: Items::from_vec(lines),
        })
    }
}

fn copied(alloc: Global, nodes: &[NodeId]) -> Result<Items<NodeId>, NoMemory>
    ensures { IfOk result (λ copy. copy ≡ nodes.now) }
{
    let mut copy = Vec::new(alloc);
    copy.extend_from_slice(nodes)?;
    Ok(Items::from_vec(copy))
}

fn missing_lines(alloc: Global, groups: &[Group]) -> Result<Vec<(bool, Items<NodeId>)>, NoMemory>
    ensures { IfOk result (λ lines. lines.items ≡ missing_lines groups.now) }
{
    let mut lines = Vec::new(alloc);
    for group in groups {
        let members = copied(alloc, group.members.as_slice())?;
        lines.push((group.all, members))?;
    }
    Ok(lines)
}
