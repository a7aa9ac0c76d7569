//! The list of ranks.
ghost use Rattle.std.specs.Prelude.{◌≡◌, ◌<◌, length, slice_index, IfOk};

use plan_base::NodeId;
use std::alloc::{AllocError, Global};
use std::marker::Model;

/// The rank of each node of one world: the number of the first round that holds it, and 0 where none does. It is seen as
/// the list of the ranks.
#[derive(Debug, Drop)]
pub struct Ranks {
    /// The rank of each node, by its number.
    pub of: Vec<u32>,
}

impl Model for Ranks {
    ghost use Rattle.std.specs.Prelude.{List, ℕ};

    ghost Value = { List ℕ };

    ghost view = { λ r. r.of.items };
}

impl Ranks {
    /// How many nodes there are.
    pub fn len(&self) -> usize
        ensures { result ≡ length self.now }
    {
        self.of.len()
    }

    /// The rank of a node.
    pub fn rank(&self, node: NodeId) -> u32
        requires { node.0 < length self.now }
        ensures { result ≡ slice_index self.now node.0 }
    {
        self.of[node.0 as usize]
    }

    /// The rank of each node, by its number.
    pub fn as_slice(&self) -> &[u32]
        ensures { result.now ≡ self.now }
    {
        &self.of
    }

    /// The same ranks again.
    ///
    /// # Errors
    ///
    /// `AllocError` where memory could not be had.
    pub fn copy(&self, alloc: Global) -> Result<Ranks, AllocError>
        ensures { IfOk result (λ copy. copy ≡ self.now) }
    {
        let mut of = Vec::new(alloc);
        of.extend_from_slice(&self.of)?;
        Ok(Ranks { of })
    }
}
