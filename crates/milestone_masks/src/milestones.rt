//! The milestones in their order, with the ranks of their worlds.
ghost use Rattle.std.specs.Prelude.{◌≡◌, ◌+◌, ◌*◌, ◌<◌, ◌≤◌, None, Some, [], All, insert, length, map, remove, replicate, slice_get, slice_index, IfOk, OnErr, OnOk};
ghost use Rattle.std.specs.Bool.{OnTrue};
ghost use Rattle.reach_ranks.specs.Rounds.{world_with, IsWhole};
ghost use Rattle.reach_ranks.specs.Ranks.{AgreeBut, AreRanks};
ghost use Rattle.reach_ranks.specs.Given.{sum_below};
ghost use Rattle.milestone_masks.specs.Worlds.{place_of, size_in_world};

use crate::blocks::{Block, copy_blocks};
use crate::slot_repairs::repair_slots;
use crate::slots::{Slot, are_same, insert_slot, place_in, rank_at, remove_slot};
use crate::worlds::Milestone;
use graph_store::Rows;
use index_heap::Heap;
use plan_base::{NoMemory, NodeId, Steps};
use reach_ranks::{Marks, Ranks};
use std::alloc::{AllocError, Global};
use std::marker::Model;

/// The milestones in their order, with the ranks of their worlds.
#[derive(Drop)]
pub struct Milestones {
    nodes: usize,
    slots: Vec<Slot>,
    blocks: Vec<Block>,
}

impl Model for Milestones {
    ghost use Rattle.milestone_masks.specs.Held.{Held, milestones_in, AreSlots};

    ghost Value = { Held };

    ghost view = { λ m. record { nodes = m.nodes; items = milestones_in m.blocks.items m.slots.items } };

    ghost invariant = { λ m. AreSlots m.nodes m.blocks.items m.slots.items };
}

impl Milestones {
    /// No milestones, over so many nodes.
    pub fn new(alloc: Global, nodes: usize) -> Milestones
        ensures nodes { result.nodes ≡ nodes }
        ensures none { result.items ≡ [] }
    {
        Milestones {
            nodes,
            slots: Vec::new(alloc),
            blocks: Vec::new(alloc),
        }
    }

    /// The same milestones again, with the same ranks.
    pub fn copy(&self, alloc: Global) -> Result<Milestones, AllocError>
        ensures { IfOk result (λ copy. copy ≡ self.now) }
    {
        let mut slots = Vec::new(alloc);
        slots.extend_from_slice(&self.slots)?;
        let blocks = copy_blocks(&self.blocks, alloc)?;
        Ok(Milestones {
            nodes: self.nodes,
            slots,
            blocks,
        })
    }

    /// How many milestones there are.
    pub fn len(&self) -> usize
        ensures { result ≡ length self.now.items }
    {
        self.slots.len()
    }

    /// The milestone at a place in the order.
    pub fn node(&self, k: usize) -> NodeId
        requires { k < length self.now.items }
        ensures { (m : Milestone) → slice_get self.now.items k ≡ Some m → result ≡ m.node }
    {
        let slot = self.slots[k];
        slot.node
    }

    /// The rank of a node in the world of the milestone at a place in the order.
    pub fn rank(&self, k: usize, node: NodeId) -> u32
        requires place { k < length self.now.items }
        requires node { node.0 < self.now.nodes }
        ensures { (m : Milestone) → slice_get self.now.items k ≡ Some m → result ≡ slice_index m.ranks node.0 }
    {
        let slot = self.slots[k];
        rank_at(&self.blocks, slot, self.nodes, node)
    }

    /// Whether the same nodes are milestones in the same order.
    pub fn has_nodes_of(&self, other: &Milestones) -> bool
        ensures { OnTrue result (map (λ m. m.node) self.now.items ≡ map (λ m. m.node) other.now.items) }
    {
        are_same(&self.slots, &other.slots)
    }

    /// The place of a milestone in the order.
    pub fn place_of(&self, node: NodeId) -> Option<usize>
        ensures { result ≡ place_of self.now.items node.0 }
    {
        place_in(&self.slots, node)
    }

    /// Adds a milestone with the ranks of its world at a place in the order.
    pub fn insert(
        &mut self,
        alloc: Global,
        place: usize,
        milestone: Milestone,
    ) -> Result<(), NoMemory>
        requires place { place ≤ length self.old.items }
        requires long { length milestone.ranks ≡ self.old.nodes }
        ensures nodes { self.new.nodes ≡ self.old.nodes }
        ensures ok { OnOk result (self.new.items ≡ insert self.old.items place milestone) }
        ensures err { OnErr result (self.new.items ≡ self.old.items) }
    {
        insert_slot(
            &mut self.blocks,
            &mut self.slots,
            alloc,
            place,
            milestone.node,
            &milestone.ranks,
        )
    }

    /// Drops the milestone at a place in the order.
    pub fn remove(&mut self, place: usize)
        requires { place < length self.old.items }
        ensures nodes { self.new.nodes ≡ self.old.nodes }
        ensures removed { self.new.items ≡ remove self.old.items place }
    {
        remove_slot(&mut self.blocks, &mut self.slots, self.nodes, place);
    }

    /// Repairs the ranks of each milestone's world, where those of the base world are right.
    pub fn repair_each<R: Rows<L>, L>(
        &mut self,
        base: &Ranks,
        rows: &R,
        marks: Marks<'_>,
        heap: &mut Heap,
        changed: &[NodeId],
        steps: &mut Steps<L>,
    )
        requires nodes { self.old.nodes ≡ length (R.rows rows.now) }
        requires marks { IsWhole (world_with (R.rows rows.now) marks None) }
        requires base { AreRanks (world_with (R.rows rows.now) marks None) base.now }
        requires heap { heap.old ≡ replicate (length (R.rows rows.now)) None }
        requires changed { All (λ n. n.0 < length (R.rows rows.now)) changed.now }
        requires agree { All (λ m. AgreeBut (world_with (R.rows rows.now) marks (Some m.node)) changed.now m.ranks) self.old.items }
        ensures nodes { self.new.nodes ≡ self.old.nodes }
        ensures ranks { All (λ m. AreRanks (world_with (R.rows rows.now) marks.entry (Some m.node)) m.ranks) self.new.items }
        ensures milestones { map (λ m. m.node) self.new.items ≡ map (λ m. m.node) self.old.items }
        ensures heap { heap.new ≡ heap.old }
        ensures steps { steps.new ≤ steps.old
            + 6 * sum_below (size_in_world (R.rows rows.now) changed.now self.old.items self.new.items) (length self.old.items) }
        ensures later { steps.old ≤ steps.new }
    {
        repair_slots(
            &mut self.blocks,
            &self.slots,
            base,
            rows,
            marks,
            heap,
            changed,
            steps,
        );
    }
}
