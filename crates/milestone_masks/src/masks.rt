//! The milestones in whose worlds a node has no rank.
ghost use Rattle.std.specs.Prelude.{◌≡◌, ◌<◌, ◌≤◌, ◌∷◌, ◌++◌, if◌then◌else◌, Some, [], not, filter, length, map, slice_get, IfOk, OnOk};
ghost use Rattle.milestone_masks.specs.declared.worlds.Milestone.{Milestone};
ghost use Rattle.milestone_masks.specs.Worlds.{ranked};

use crate::milestones::Milestones;
use plan_base::NodeId;
use std::alloc::{AllocError, Global};

/// Adds the milestone at a place in the order where the node has no rank in its world.
fn push_masked(
    nodes: &mut Vec<NodeId>,
    milestones: &Milestones,
    k: usize,
    node: NodeId,
) -> Result<(), AllocError>
    requires place { k < length milestones.now.items }
    requires node { node.0 < milestones.now.nodes }
    ensures { (m : Milestone) → slice_get milestones.now.items k ≡ Some m → OnOk result (nodes.new.items ≡ nodes.old.items ++ (if ranked m.ranks node.0 then [] else m.node ∷ [])) }
{
    if milestones.rank(k, node) != 0 {
        return Ok(());
    }
    nodes.push(milestones.node(k))?;
    Ok(())
}

/// 1 where the node has no rank in the world of the milestone at a place in the order, and else 0.
fn mask_bit(milestones: &Milestones, k: usize, node: NodeId) -> u32
    requires place { k < length milestones.now.items }
    requires node { node.0 < milestones.now.nodes }
    ensures bit { (m : Milestone) → slice_get milestones.now.items k ≡ Some m → result ≡ (if ranked m.ranks node.0 then 0 else 1) }
    ensures few { result ≤ 1 }
{
    if milestones.rank(k, node) == 0 { 1 } else { 0 }
}

/// The milestones in whose world the node has no rank.
pub fn mask_in(
    alloc: Global,
    milestones: &Milestones,
    node: NodeId,
) -> Result<Vec<NodeId>, AllocError>
    requires { node.0 < milestones.now.nodes }
    ensures { IfOk result (λ nodes. nodes.items ≡ map (λ m. m.node) (filter (λ m. not (ranked m.ranks node.0)) milestones.now.items)) }
{
    let mut nodes = Vec::new(alloc);
    for k in 0..milestones.len() {
        push_masked(&mut nodes, milestones, k, node)?;
    }
    Ok(nodes)
}

/// How many milestones there are in whose world the node has no rank.
pub fn mask_len_in(milestones: &Milestones, node: NodeId) -> u32
    requires node { node.0 < milestones.now.nodes }
    requires few { length milestones.now.items ≤ 256 }
    ensures count { result ≡ length (map (λ m. m.node) (filter (λ m. not (ranked m.ranks node.0)) milestones.now.items)) }
    ensures few { result ≤ 256 }
{
    let mut count = 0;
    for k in 0..milestones.len() {
        count += mask_bit(milestones, k, node);
    }
    count
}
