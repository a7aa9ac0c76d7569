//! The worlds of all milestones.
ghost use Rattle.std.specs.Bool.{OnTrue};
ghost use Rattle.std.specs.Prelude.{◌≡◌, ◌≢◌, ℕ, ◌+◌, ◌*◌, ◌-◌, ◌^◌, ◌<◌, ◌≤◌, ◌∷◌, List, None, Some, [], All, insert, length, remove, slice_get, slice_index, IfErr, IfOk, OnErr, OnOk};
ghost use Rattle.reach_ranks.specs.Rounds.{world_with, IsWhole};
ghost use Rattle.reach_ranks.specs.Ranks.{AreRanks};
ghost use Rattle.reach_ranks.specs.Given.{size_of};
ghost use Rattle.milestone_masks.specs.Worlds.{milestones_of, place_of, size_of_all, AddAnswer, AgreeInWorlds, AreWorlds};

use crate::additions::add;
use crate::milestones::Milestones;
use graph_store::Rows;
use index_heap::Heap;
use plan_base::{NoMemory, NodeId, Steps};
use reach_incremental::repair;
use reach_ranks::{Marks, Ranks, WorldMarks};
use std::alloc::{AllocFailed, Global};
use std::marker::Model;

/// The most milestones that there can be.
pub const MILESTONE_LIMIT: usize = 256;

/// A milestone, with the ranks of the world in which it is barred.
#[derive(Drop)]
pub struct Milestone {
    pub node: NodeId,
    pub ranks: Ranks,
}

/// Why a milestone was not added or dropped.
#[derive(Clone, Copy, Debug, PartialEq, Eq)]
pub enum MilestoneFault {
    /// Memory could not be had.
    NoMemory,
    /// There are as many milestones as there can be.
    Full,
    /// The node is a milestone already.
    Already,
    /// The node is no milestone.
    NotOne,
}

/// The ranks of the base world and of each milestone's world.
#[derive(Drop)]
pub struct Worlds {
    heap: Heap,
    pub(crate) base: Ranks,
    pub(crate) milestones: Milestones,
}

impl Model for Worlds {
    ghost use Rattle.milestone_masks.specs.Worlds.{Kept};

    ghost Value = { Kept };

    ghost use Rattle.milestone_masks.specs.Kept.{IsKept};

    ghost view = { λ w. record { base = w.base; milestones = w.milestones.items } };

    ghost invariant = { λ w. IsKept w.heap w.base w.milestones.nodes w.milestones.items };
}

impl Worlds {
    /// The base world alone.
    ///
    /// # Errors
    ///
    /// `NoMemory` where memory could not be had.
    pub fn make(alloc: Global, base: Ranks) -> Result<Worlds, NoMemory>
        requires { length base < 2 ^ 32 - 1 }
        ensures base { IfOk result (λ worlds. worlds.base ≡ base) }
        ensures none { IfOk result (λ worlds. worlds.milestones ≡ []) }
    {
        let nodes = base.len();
        let heap = Heap::make(alloc, nodes as u32)?;
        Ok(Worlds {
            heap,
            base,
            milestones: Milestones::new(alloc, nodes),
        })
    }

    /// The same ranks of the same milestones again.
    ///
    /// # Errors
    ///
    /// `NoMemory` where memory could not be had.
    pub fn copy(&self, alloc: Global) -> Result<Worlds, NoMemory>
        ensures { IfOk result (λ copy. copy ≡ self.now) }
    {
        let base = self.base.copy(alloc)?;
        let heap = Heap::make(alloc, base.len() as u32)?;
        let milestones = self.milestones.copy(alloc)?;
        Ok(Worlds {
            heap,
            base,
            milestones,
        })
    }

    /// Whether the same nodes are milestones in the same order.
    pub fn has_milestones_of(&self, other: &Worlds) -> bool
        ensures { OnTrue result (milestones_of self.now ≡ milestones_of other.now) }
    {
        self.milestones.has_nodes_of(&other.milestones)
    }

    /// The rank of a node in the base world.
    pub fn rank(&self, node: NodeId) -> u32
        requires { node.0 < length self.now.base }
        ensures { result ≡ slice_index self.now.base node.0 }
    {
        self.base.rank(node)
    }

    /// How many milestones there are.
    pub fn count(&self) -> u32
        ensures count { result ≡ length self.now.milestones }
        ensures few { result ≤ 256 }
    {
        self.milestones.len() as u32
    }

    /// The milestone at a place in their order.
    pub fn milestone(&self, k: u32) -> NodeId
        requires { k < length self.now.milestones }
        ensures { slice_get (milestones_of self.now) k ≡ Some result }
    {
        self.milestones.node(k as usize)
    }

    /// Makes the node a milestone at a place in their order, with the ranks of its world.
    ///
    /// The ranks of the base world are copied and repaired, so that it takes at most six times the size of barring
    /// this node in steps.
    ///
    /// # Errors
    ///
    /// `Already` where the node is a milestone, else `Full` where there are as many as there can be; `NoMemory`
    /// where memory could not be had. Then nothing changes.
    pub fn add_world<R: Rows<L>, L>(
        &mut self,
        alloc: Global,
        rows: &R,
        marks: Marks<'_>,
        node: NodeId,
        place: u32,
        steps: &mut Steps<L>,
    ) -> Result<(), MilestoneFault>
        requires marks { IsWhole (world_with (R.rows rows.now) marks None) }
        requires worlds { AreWorlds (R.rows rows.now) marks.barred.now marks.granted.now self.old }
        requires node { node.0 < length (R.rows rows.now) }
        requires place { place ≤ length self.old.milestones }
        ensures answer { AddAnswer result self.old.milestones node.0 }
        ensures added { OnOk result (milestones_of self.new ≡ insert (milestones_of self.old) place node) }
        ensures worlds { AreWorlds (R.rows rows.now) marks.entry.barred.now marks.entry.granted.now self.new }
        ensures err { OnErr result (self.new ≡ self.old) }
        ensures no_step { IfErr result (λ fault. fault ≢ MilestoneFault.NoMemory → steps.new ≡ steps.old) }
        ensures steps { (ranks : List ℕ) → AreRanks (world_with (R.rows rows.now) marks.entry (Some node)) ranks
            → steps.new ≤ steps.old + 6 * size_of (R.rows rows.now) (node ∷ []) self.old.base ranks }
        ensures later { steps.old ≤ steps.new }
    {
        add(
            &mut self.heap,
            &self.base,
            &mut self.milestones,
            alloc,
            rows,
            marks,
            node,
            place as usize,
            steps,
        )
    }

    /// Makes the node no milestone any more, and tells its old place.
    ///
    /// # Errors
    ///
    /// `NotOne` where the node is no milestone. Then nothing changes.
    pub fn drop_world(&mut self, node: NodeId) -> Result<u32, MilestoneFault>
        ensures place { IfOk result (λ place. place_of self.old.milestones node.0 ≡ Some place) }
        ensures dropped { IfOk result (λ place. self.new.milestones ≡ remove self.old.milestones place) }
        ensures base { self.new.base ≡ self.old.base }
        ensures fault { IfErr result (λ fault. fault ≡ MilestoneFault.NotOne) }
        ensures none { OnErr result (place_of self.old.milestones node.0 ≡ None) }
        ensures err { OnErr result (self.new ≡ self.old) }
    {
        match self.milestones.place_of(node) {
            None => Err(MilestoneFault::NotOne),
            Some(place) => {
                self.milestones.remove(place);
                Ok(place as u32)
            }
        }
    }

    /// Leaves the ranks of each world as the rows and marks are now, after a change of the nodes' rows and marks.
    pub fn repair_all<R: Rows<L>, L>(
        &mut self,
        rows: &R,
        marks: Marks<'_>,
        changed: &[NodeId],
        steps: &mut Steps<L>,
    )
        requires marks { IsWhole (world_with (R.rows rows.now) marks None) }
        requires changed { All (λ n. n.0 < length (R.rows rows.now)) changed.now }
        requires agree { AgreeInWorlds (R.rows rows.now) marks.barred.now marks.granted.now changed.now self.old }
        ensures worlds { AreWorlds (R.rows rows.now) marks.entry.barred.now marks.entry.granted.now self.new }
        ensures milestones { milestones_of self.new ≡ milestones_of self.old }
        ensures steps { steps.new ≤ steps.old + 6 * size_of_all (R.rows rows.now) changed.now self.old self.new }
        ensures later { steps.old ≤ steps.new }
    {
        let _count = rows.len();
        let in_base = WorldMarks {
            barred: marks.barred,
            granted: marks.granted,
            extra: None,
        };
        repair(
            &mut self.base,
            rows,
            in_base,
            &mut self.heap,
            changed,
            steps,
        );
        self.milestones
            .repair_each(&self.base, rows, marks, &mut self.heap, changed, steps);
    }
}
