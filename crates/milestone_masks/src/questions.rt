//! Questions about a node: its mask, why it is reached, and what it lacks.
ghost use Rattle.std.specs.Prelude.{◌≡◌, ◌+◌, ◌-◌, ◌^◌, ◌<◌, ◌≤◌, ◌↔◌, Some, length, min, slice_get, slice_index, IfOk, IsTrue};
ghost use Rattle.milestone_masks.specs.declared.worlds.Milestone.{Milestone};
ghost use Rattle.milestone_masks.specs.Worlds.{mask_of, missing_in, ranked};
ghost use Rattle.milestone_masks.specs.Why.{IsWhy};

use crate::masks::{mask_in, mask_len_in};
use crate::missing::missing_of;
use crate::why::why_of;
use crate::worlds::Worlds;
use graph_store::{Group, Rows};
use plan_base::{NoMemory, NodeId, Steps};
use std::alloc::{AllocFailed, Global};

impl Worlds {
    /// Whether the node isn't reached in the world of the milestone at a place.
    pub fn in_mask(&self, node: NodeId, k: u32) -> bool
        requires node { node.0 < length self.now.base }
        requires place { k < length self.now.milestones }
        ensures { (m : Milestone) → slice_get self.now.milestones k ≡ Some m → (IsTrue result ↔ (slice_index m.ranks node.0 ≡ 0)) }
    {
        self.milestones.rank(k as usize, node) == 0
    }

    /// The milestones in whose world the node isn't reached, in order.
    ///
    /// # Errors
    ///
    /// `NoMemory` where memory could not be had.
    pub fn mask(&self, alloc: Global, node: NodeId) -> Result<Vec<NodeId>, NoMemory>
        requires { node.0 < length self.now.base }
        ensures { IfOk result (λ nodes. nodes.items ≡ mask_of self.now node.0) }
    {
        let _base = &self.base;
        let nodes = mask_in(alloc, &self.milestones, node)?;
        Ok(nodes)
    }

    /// How many milestones there are in whose world the node isn't reached.
    pub fn mask_len(&self, node: NodeId) -> u32
        requires { node.0 < length self.now.base }
        ensures count { result ≡ length (mask_of self.now node.0) }
        ensures few { result ≤ 256 }
    {
        let _base = &self.base;
        mask_len_in(&self.milestones, node)
    }

    /// Why a node is reached: the least set that holds the node and, for each of its nodes that isn't granted, all
    /// members of each All group of that node's row, and of each Any group the reached member of least rank, the lower
    /// node among equals. The nodes stand by rank, then by node. It takes at most one step for each of them.
    ///
    /// # Errors
    ///
    /// `NoMemory` where memory could not be had.
    pub fn why<R: Rows<L>, L>(
        &self,
        alloc: Global,
        rows: &R,
        granted: &[bool],
        node: NodeId,
        steps: &mut Steps<L>,
    ) -> Result<Vec<NodeId>, NoMemory>
        requires ranks { length self.now.base ≡ length (R.rows rows.now) }
        requires granted { length granted.now ≡ length (R.rows rows.now) }
        requires node { node.0 < length (R.rows rows.now) }
        ensures why { IfOk result (λ nodes. IsWhy (R.rows rows.now) granted.now self.now.base node.0 nodes.items) }
        ensures steps { IfOk result (λ nodes. steps.new ≤ steps.old + length nodes.items) }
        ensures later { steps.old ≤ steps.new }
    {
        let nodes = why_of(alloc, &self.base, rows, granted, node, steps)?;
        Ok(nodes)
    }

    /// What a node lacks: the groups of its row that the nodes that are reached don't satisfy, in order, each with its
    /// members that aren't reached. It takes one step.
    ///
    /// # Errors
    ///
    /// `NoMemory` where memory could not be had.
    pub fn missing<R: Rows<L>, L>(
        &self,
        alloc: Global,
        rows: &R,
        node: NodeId,
        steps: &mut Steps<L>,
    ) -> Result<Vec<Group>, NoMemory>
        requires node { node.0 < length (R.rows rows.now) }
        requires ranks { length self.now.base ≡ length (R.rows rows.now) }
        ensures missing { IfOk result (λ groups. groups.items ≡ missing_in (ranked self.now.base) (slice_get (R.rows rows.now) node.0)) }
        ensures step { steps.new ≡ min (steps.old + 1) (2 ^ 64 - 1) }
        ensures later { steps.old ≤ steps.new }
    {
        let _count = rows.len();
        let row = rows.row(node, steps);
        let groups = missing_of(alloc, &self.base, row)?;
        Ok(groups)
    }
}
