//! The nodes that were found so far, in a list with room for more.
ghost use Rattle.std.specs.Prelude.{◌≡◌, ◌++◌, ◌∷◌, [], ℕ, ◌+◌, ◌<◌, ◌≤◌, length, take, if◌then◌else◌, slice_index_or, IfOk, OnOk};

use plan_base::NodeId;
use std::alloc::{AllocError, Global};
use std::marker::Model;

/// Nodes, to which others are added without a branch that can't be foretold: each is written at the end, and the end moves on where it is
/// wanted.
#[derive(Drop)]
pub struct FoundList {
    listed: Vec<NodeId>,
    count: usize,
}

impl Model for FoundList {
    ghost use Rattle.std.specs.Prelude.{List, ◌≤◌, length, take};
    ghost use Rattle.plan_base.specs.declared.NodeId.{NodeId};

    ghost Value = { List NodeId };

    ghost view = { λ f. take f.count f.listed.items };

    ghost invariant = { λ f. f.count ≤ length f.listed.items };
}

/// Makes room for as many nodes again.
fn make_room(listed: &mut Vec<NodeId>) -> Result<(), AllocError>
    ensures room { OnOk result (length listed.old.items < length listed.new.items) }
    ensures kept { OnOk result (take (length listed.old.items) listed.new.items ≡ listed.old.items) }
    ensures longer { length listed.old.items ≤ length listed.new.items }
{
    listed.push(NodeId(0))?;
    let room = listed.len().saturating_mul(2);
    listed.resize(room, NodeId(0))
}

/// Writes a node at the end, which moves on where the node is wanted.
fn put(listed: &mut [NodeId], count: usize, node: NodeId, is_wanted: bool) -> usize
    requires { count < length listed.old }
    ensures within { result ≤ length listed.new }
    ensures put { take result listed.new ≡ (if is_wanted then take count listed.old ++ node ∷ [] else take count listed.old) }
{
    listed[count] = node;
    count + is_wanted as usize
}

impl FoundList {
    /// No nodes.
    pub fn new(alloc: Global) -> FoundList
        ensures { result ≡ [] }
    {
        FoundList {
            listed: Vec::new(alloc),
            count: 0,
        }
    }

    /// How many nodes there are.
    pub fn len(&self) -> usize
        ensures { result ≡ length self.now }
    {
        self.count
    }

    /// The nodes.
    pub fn as_slice(&self) -> &[NodeId]
        ensures { result.now ≡ self.now }
    {
        &self.listed[..self.count]
    }

    /// The nodes as a list.
    pub fn into_vec(self) -> Vec<NodeId>
        ensures { result.items ≡ self }
    {
        let mut nodes = self.listed;
        nodes.truncate(self.count);
        nodes
    }

    /// Adds a node, if it is wanted.
    pub fn add(&mut self, node: NodeId, is_wanted: bool) -> Result<(), AllocError>
        ensures { OnOk result (self.new ≡ (if is_wanted then self.old ++ node ∷ [] else self.old)) }
    {
        if self.count == self.listed.len() {
            make_room(&mut self.listed)?;
        }
        self.count = put(&mut self.listed, self.count, node, is_wanted);
        Ok(())
    }
}
