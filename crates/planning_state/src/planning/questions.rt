//! Questions to a planning state.

ghost use Rattle.std.specs.Prelude.{◌≡◌, ◌+◌, ◌<◌, ◌≤◌, All, false, None, Some, IfOk, length, slice_get, slice_index_or};
ghost use Rattle.plan_base.specs.Outcomes.{Gives};
ghost use Rattle.plan_base.specs.Shape.{count_of, first_of, node_count};
ghost use Rattle.game_types.specs.Nodes.{shape_of};
ghost use Rattle.depend_rows.specs.Rows.{rows_of};
ghost use Rattle.milestone_masks.specs.Why.{IsWhy};
ghost use Rattle.milestone_masks.specs.Worlds.{missing_in};
ghost use Rattle.state_changes.specs.Actions.{node_named};
ghost use Rattle.planning_state.specs.Worlds.{is_reached, mask_in, rank_of, ranks_in, world_of};

use super::Planning;
use graph_store::Group;
use plan_base::{Denied, Kind, NoMemory, NodeId, Steps};
use plan_lines::Object;
use state_changes::{Refusal, node_named, nodes_of};

impl Planning {
    /// The node that an object names.
    ///
    /// # Errors
    ///
    /// `Unknown` where nothing has the name. Or `NoMemory`.
    pub fn node(&self, object: &Object) -> Result<NodeId, Denied<Refusal>>
        ensures node { Gives (node_named self.now.book.game object.now) result }
        ensures within { IfOk result (λ node. node.0 < node_count (shape_of self.now.book.game)) }
    {
        node_named(self.alloc, &self.book.game, object)
    }

    /// The number of the first round that holds the node, and 0 where none does.
    pub fn rank(&self, node: NodeId) -> u32
        requires { node.0 < node_count (shape_of self.now.book.game) }
        ensures { result ≡ rank_of self.now.book node.0 }
    {
        self.worlds.rank(node)
    }

    /// Whether the node is reached.
    pub fn is_reached(&self, node: NodeId) -> bool
        requires { node.0 < node_count (shape_of self.now.book.game) }
        ensures { result ≡ is_reached self.now.book node.0 }
    {
        0 < self.worlds.rank(node)
    }

    /// Whether the node is barred by a mark.
    pub fn is_forbidden(&self, node: NodeId) -> bool
        requires { node.0 < node_count (shape_of self.now.book.game) }
        ensures { result ≡ slice_index_or self.now.book.barred node.0 false }
    {
        self.book.barred.as_slice()[node.0 as usize]
    }

    /// Whether the node is granted by a mark.
    pub fn is_granted(&self, node: NodeId) -> bool
        requires { node.0 < node_count (shape_of self.now.book.game) }
        ensures { result ≡ slice_index_or self.now.book.granted node.0 false }
    {
        self.book.granted.as_slice()[node.0 as usize]
    }

    /// The milestones in whose world the node isn't reached, in order.
    ///
    /// # Errors
    ///
    /// `NoMemory` where memory could not be had.
    pub fn mask(&self, node: NodeId) -> Result<Vec<NodeId>, NoMemory>
        requires { node.0 < node_count (shape_of self.now.book.game) }
        ensures { IfOk result (λ nodes. nodes.items ≡ mask_in self.now node.0) }
    {
        self.worlds.mask(self.alloc, node)
    }

    /// How many milestones lie in the mask of a node.
    pub fn mask_len(&self, node: NodeId) -> u32
        requires { node.0 < node_count (shape_of self.now.book.game) }
        ensures count { result ≡ length (mask_in self.now node.0) }
        ensures few { result ≤ 256 }
    {
        self.worlds.mask_len(node)
    }

    /// Why a node is reached: the least set that supports it. It takes at most one step for each of its nodes.
    ///
    /// # Errors
    ///
    /// `NoMemory` where memory could not be had.
    pub fn why<L>(&self, node: NodeId, steps: &mut Steps<L>) -> Result<Vec<NodeId>, NoMemory>
        requires { node.0 < node_count (shape_of self.now.book.game) }
        ensures why { IfOk result (λ nodes. IsWhy (rows_of self.now.book.game) self.now.book.granted (ranks_in (world_of self.now.book None)) node.0 nodes.items) }
        ensures nodes { IfOk result (λ nodes. All (λ m. m.0 < node_count (shape_of self.now.book.game)) nodes.items) }
        ensures steps { IfOk result (λ nodes. steps.new ≤ steps.old + length nodes.items) }
        ensures later { steps.old ≤ steps.new }
    {
        self.worlds.why(
            self.alloc,
            &self.graph,
            self.book.granted.as_slice(),
            node,
            steps,
        )
    }

    /// What a node lacks: the groups of its row that the reached nodes don't satisfy, each with its members that aren't
    /// reached. It takes one step.
    ///
    /// # Errors
    ///
    /// `NoMemory` where memory could not be had.
    pub fn missing<L>(&self, node: NodeId, steps: &mut Steps<L>) -> Result<Vec<Group>, NoMemory>
        requires { node.0 < node_count (shape_of self.now.book.game) }
        ensures missing { IfOk result (λ groups. groups.items ≡ missing_in (is_reached self.now.book) (slice_get (rows_of self.now.book.game) node.0)) }
        ensures step { steps.new ≤ steps.old + 1 }
        ensures later { steps.old ≤ steps.new }
    {
        self.worlds.missing(self.alloc, &self.graph, node, steps)
    }

    /// How many nodes there are.
    pub fn node_count(&self) -> u32
        ensures { result ≡ node_count (shape_of self.now.book.game) }
    {
        self.book.game.shape().len()
    }

    /// The number of the first node of a kind, and the one behind its last.
    pub fn nodes_of(&self, kind: Kind) -> (u32, u32)
        ensures first { result.0 ≡ first_of (shape_of self.now.book.game) kind }
        ensures end { result.1 ≡ first_of (shape_of self.now.book.game) kind + count_of (shape_of self.now.book.game) kind }
        ensures nodes { result.1 ≤ node_count (shape_of self.now.book.game) }
    {
        nodes_of(&self.book.game.shape(), kind)
    }

    /// How many milestones there are.
    pub fn milestone_count(&self) -> u32
        ensures { result ≡ length self.now.milestones }
    {
        self.worlds.count()
    }

    /// The milestone at a place in their order.
    pub fn milestone(&self, place: u32) -> NodeId
        requires { place < length self.now.milestones }
        ensures { slice_get self.now.milestones place ≡ Some result }
    {
        self.worlds.milestone(place)
    }
}
