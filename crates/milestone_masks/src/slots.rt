//! The slots: each is a milestone, and the lane of a block that has its ranks.
ghost use Rattle.std.specs.Prelude.{◌≡◌, ℕ, ◌<◌, ◌≤◌, ◌==◌, None, true, false, insert, length, map, position, remove, slice_get, slice_index, OnErr, OnOk};
ghost use Rattle.std.specs.Bool.{OnTrue};
ghost use Rattle.milestone_masks.specs.Held.{extra_at, has_slot, milestones_in, ranks_at, rows_of, AreBlocks, AreSlots};

use crate::blocks::{Block, make_room, occupy};
use plan_base::{NoMemory, NodeId};
use reach_ranks::Ranks;
use std::alloc::Global;

/// A milestone, and the lane of a block that has its ranks.
#[derive(Clone, Copy)]
pub struct Slot {
    pub node: NodeId,
    pub block: usize,
    pub lane: usize,
}

/// Adds a milestone with these ranks at a place in the order.
pub fn insert_slot(
    blocks: &mut Vec<Block>,
    slots: &mut Vec<Slot>,
    alloc: Global,
    order: usize,
    node: NodeId,
    ranks: &Ranks,
) -> Result<(), NoMemory>
    requires kept { AreSlots (length ranks.now) blocks.old.items slots.old.items }
    requires order { order ≤ length slots.old.items }
    ensures kept { AreSlots (length ranks.now) blocks.new.items slots.new.items }
    ensures ok { OnOk result (milestones_in blocks.new.items slots.new.items ≡ insert (milestones_in blocks.old.items slots.old.items) order (record { node = node; ranks = ranks.now })) }
    ensures err { OnErr result (milestones_in blocks.new.items slots.new.items ≡ milestones_in blocks.old.items slots.old.items) }
{
    let Ok(place) = make_room(blocks, alloc, ranks.len()) else {
        return Err(NoMemory);
    };
    let slot = Slot {
        node,
        block: place.block,
        lane: place.lane,
    };
    let Ok(()) = slots.insert(order, slot) else {
        return Err(NoMemory);
    };
    occupy(blocks, place, node, ranks);
    Ok(())
}

/// Whether some slot is this lane.
fn has_slot(slots: &[Slot], block: usize, lane: usize) -> bool
    ensures { result ≡ has_slot slots.now block lane }
{
    slots.iter().any(|s| s.block == block && s.lane == lane)
}

/// Makes a lane idle that no slot is.
fn leave(blocks: &mut [Block], slots: &[Slot], block: usize, lane: usize)
    requires block { block < length blocks.old }
    requires lane { lane < 16 }
    ensures long { length blocks.new ≡ length blocks.old }
    ensures ranks { (b : ℕ) → rows_of (slice_get blocks.new b) ≡ rows_of (slice_get blocks.old b) }
    ensures others { (b l : ℕ) → (b ≡ block → l ≡ lane → ⊥) → extra_at blocks.new b l ≡ extra_at blocks.old b l }
    ensures kept { has_slot slots.now block lane ≡ true → extra_at blocks.new block lane ≡ extra_at blocks.old block lane }
    ensures left { has_slot slots.now block lane ≡ false → extra_at blocks.new block lane ≡ None }
{
    if !has_slot(slots, block, lane) {
        blocks[block].extras[lane] = None;
    }
}

/// Drops the milestone at a place in the order. Its lane is idle from then on; no ranks are moved.
pub fn remove_slot(blocks: &mut [Block], slots: &mut Vec<Slot>, nodes: usize, order: usize)
    requires kept { AreSlots nodes blocks.old slots.old.items }
    requires order { order < length slots.old.items }
    ensures kept { AreSlots nodes blocks.new slots.new.items }
    ensures removed { milestones_in blocks.new slots.new.items ≡ remove (milestones_in blocks.old slots.old.items) order }
{
    let slot = slots[order];
    slots.remove(order);
    leave(blocks, slots, slot.block, slot.lane);
}

/// The rank of a node in a slot's world.
pub fn rank_at(blocks: &[Block], slot: Slot, nodes: usize, node: NodeId) -> u32
    requires inside { (slot.block < length blocks.now) × (slot.lane < 16) }
    requires blocks { AreBlocks nodes blocks.now }
    requires node { node.0 < nodes }
    ensures { result ≡ slice_index (ranks_at blocks.now slot.block slot.lane) node.0 }
{
    let block = &blocks[slot.block];
    let row = &block.ranks[node.0 as usize];
    row[slot.lane]
}

/// Whether the slots are of the same milestones in the same order.
pub fn are_same(left: &[Slot], right: &[Slot]) -> bool
    ensures { OnTrue result (map (λ s. s.node) left.now ≡ map (λ s. s.node) right.now) }
{
    if left.len() != right.len() {
        return false;
    }
    for k in 0..left.len() {
        if left[k].node.0 != right[k].node.0 {
            return false;
        }
    }
    true
}

/// The place of a milestone among the slots.
pub fn place_in(slots: &[Slot], node: NodeId) -> Option<usize>
    ensures { result ≡ position (λ s. s.node.0 == node.0) slots.now }
{
    slots.iter().position(|s| s.node.0 == node.0)
}
