//! The rank and the mask of a node.
ghost use Rattle.std.specs.Prelude.{◌≡◌, ◌<◌, IfNone, IfOk, IfSome, None, Some, false, option_map};
ghost use Rattle.plan_base.specs.Shape.{node_count};
ghost use Rattle.game_types.specs.Nodes.{find_node, shape_of};
ghost use Rattle.game_types.specs.Sound.{IsSound};
ghost use Rattle.planning_state.specs.Worlds.{rank_of};
ghost use Rattle.planner_core.specs.Lines.{is_free};
ghost use Rattle.planner_core.specs.Told.{mask_of, place_of, places_of, told_mask, told_milestones, told_rank};

use crate::asking::{ask_mask, ask_milestones, ask_rank};
use crate::planner::Planner;
use game_types::Game;
use plan_base::{Kind, NoMemory, NodeId, Steps, Text};
use plan_lines::{Object, Reply};
use std::alloc::Global;

// A node that is there, as a script names it.
#[tactic(auto, unfolding(game_types::specs::Nodes::find_node))]
fn named_object(alloc: Global, game: &Game, node: NodeId) -> Result<Object, NoMemory>
    requires sound { IsSound game.now }
    requires within { node.0 < node_count (shape_of game.now) }
    ensures { IfOk result (λ object. find_node game.now object.kind object.name ≡ Some node) }
{
    let (kind, _) = game.shape().kind_of(node);
    let name = Text::copy(alloc, game.name_of(node))?;
    Ok(Object { kind, name })
}

/// A node as a script names it; past the last, a technology without a name.
///
/// # Errors
///
/// `NoMemory` where memory could not be had.
pub fn object_of(alloc: Global, game: &Game, node: NodeId) -> Result<Object, NoMemory>
    requires { IsSound game.now }
    ensures { IfOk result (λ object. node.0 < node_count (shape_of game.now) → find_node game.now object.kind object.name ≡ Some node) }
{
    if node.0 < game.shape().len() {
        return named_object(alloc, game, node);
    }
    let name = Text::copy(alloc, "")?;
    Ok(Object {
        kind: Kind::Tech,
        name,
    })
}

// The rank that a reply tells; 0 where it tells none.
fn told_rank(reply: &Reply) -> u32
    ensures { result ≡ told_rank reply.now }
{
    match reply {
        Reply::Reach { rank, .. } => *rank,
        _ => 0,
    }
}

/// The rank of a node, 0 where it isn't reached.
///
/// # Errors
///
/// `NoMemory` where memory could not be had.
#[tactic(auto, using(crate::proofs::Telling::rank_told))]
pub fn rank_of<L>(
    alloc: Global,
    planner: &mut Planner,
    node: NodeId,
    steps: &mut Steps<L>,
) -> Result<u32, NoMemory>
    ensures stays { planner.new ≡ planner.old }
    ensures rank { IfOk result (λ rank. planner.old.batch ≡ None → node.0 < node_count (shape_of planner.old.state.book.game) → rank ≡ rank_of planner.old.state.book node.0) }
{
    let object = object_of(alloc, planner.game(), node)?;
    let reply = ask_rank(planner, object, steps)?;
    Ok(told_rank(&reply))
}

// The place of a node among the milestones.
fn place_of(milestones: &[NodeId], node: NodeId) -> Option<usize>
    ensures { result ≡ place_of milestones.now node }
{
    milestones
        .iter()
        .position(|milestone| milestone.0 == node.0)
}

/// The places of nodes among the milestones.
///
/// # Errors
///
/// `NoMemory` where memory could not be had.
pub fn places_of(
    alloc: Global,
    milestones: &[NodeId],
    nodes: &[NodeId],
) -> Result<Vec<usize>, NoMemory>
    ensures { IfOk result (λ places. places.items ≡ places_of milestones.now nodes.now) }
{
    Ok(
        nodes
            .iter()
            .filter_map(|node| place_of(milestones, *node))
            .collect(alloc)?,
    )
}

// The milestones that a reply tells of a node.
fn told_mask(alloc: Global, reply: &Reply) -> Result<Vec<NodeId>, NoMemory>
    ensures { IfOk result (λ nodes. nodes.items ≡ told_mask reply.now) }
{
    match reply {
        Reply::Mask { milestones, .. } => copied(alloc, milestones.as_slice()),
        _ => Ok(Vec::new(alloc)),
    }
}

/// The milestones without which a node isn't reached; none where it isn't reached at all.
///
/// # Errors
///
/// `NoMemory` where memory could not be had.
#[tactic(auto, using(crate::proofs::Telling::mask_told))]
pub fn mask_of<L>(
    alloc: Global,
    planner: &mut Planner,
    node: NodeId,
    steps: &mut Steps<L>,
) -> Result<Vec<NodeId>, NoMemory>
    ensures stays { planner.new ≡ planner.old }
    ensures mask { IfOk result (λ mask. planner.old.batch ≡ None → node.0 < node_count (shape_of planner.old.state.book.game) → mask.items ≡ mask_of planner.old.state node.0) }
{
    let object = object_of(alloc, planner.game(), node)?;
    let reply = ask_mask(planner, object, steps)?;
    told_mask(alloc, &reply)
}

fn copied(alloc: Global, nodes: &[NodeId]) -> Result<Vec<NodeId>, NoMemory>
    ensures { IfOk result (λ copy. copy.items ≡ nodes.now) }
{
    Ok(Vec::from_slice(alloc, nodes)?)
}

// The milestones that a reply tells.
fn told_milestones(alloc: Global, reply: &Reply) -> Result<Option<Vec<NodeId>>, NoMemory>
    ensures { IfOk result (λ told. option_map (λ nodes. nodes.items) told ≡ told_milestones reply.now) }
{
    match reply {
        Reply::Milestones(nodes) => Ok(Some(copied(alloc, nodes.as_slice())?)),
        _ => Ok(None),
    }
}

/// All milestones, in the order in which they were added. None just while a batch is open.
///
/// # Errors
///
/// `NoMemory` where memory could not be had.
#[tactic(auto, using(crate::proofs::Telling::milestones_told))]
pub fn milestones_of<L>(
    alloc: Global,
    planner: &mut Planner,
    steps: &mut Steps<L>,
) -> Result<Option<Vec<NodeId>>, NoMemory>
    ensures stays { planner.new ≡ planner.old }
    ensures milestones { IfOk result (λ told. IfSome told (λ nodes. (planner.old.batch ≡ None) × (nodes.items ≡ planner.old.state.milestones))) }
    ensures none { IfOk result (λ told. IfNone told (is_free planner.old.batch ≡ false)) }
{
    let reply = ask_milestones(planner, steps)?;
    told_milestones(alloc, &reply)
}
