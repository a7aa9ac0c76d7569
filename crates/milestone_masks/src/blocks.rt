//! Blocks of sixteen worlds: lanes that are idle, and what gives one to a milestone.
ghost use Rattle.std.specs.Prelude.{◌≡◌, ℕ, ◌<◌, None, Some, length, slice_index, slice_index_or, IfOk, IfSome};
ghost use Rattle.reach_incremental.specs.Lanes.{lane, AreSmall};
ghost use Rattle.milestone_masks.specs.Held.{extra_at, AreBlocks, AreCopies, Grows, Occupies};

use plan_base::NodeId;
use reach_incremental::Lanes;
use reach_ranks::Ranks;
use std::alloc::{AllocError, Global};

/// The ranks of sixteen worlds, by node, and the milestone of each; a lane without one is idle.
#[derive(Drop)]
pub struct Block {
    pub ranks: Vec<Lanes>,
    pub extras: [Option<NodeId>; 16],
}

/// A lane of a block.
#[derive(Clone, Copy)]
pub struct Place {
    pub block: usize,
    pub lane: usize,
}

/// The first idle lane.
fn idle_lane(extras: &[Option<NodeId>; 16]) -> Option<usize>
    ensures { IfSome result (λ l. (l < 16) × (slice_index_or extras.now l None ≡ None)) }
{
    for l in 0..16 {
        if extras[l].is_none() {
            return Some(l);
        }
    }
    None
}

/// The first idle lane of the blocks.
fn idle_place(blocks: &[Block]) -> Option<Place>
    ensures { IfSome result (λ place. (place.block < length blocks.now) × (place.lane < 16) × (extra_at blocks.now place.block place.lane ≡ None)) }
{
    for b in 0..blocks.len() {
        if let Some(l) = idle_lane(&blocks[b].extras) {
            return Some(Place { block: b, lane: l });
        }
    }
    None
}

/// No ranks, for so many nodes.
fn no_ranks(alloc: Global, nodes: usize) -> Result<Vec<Lanes>, AllocError>
    ensures long { IfOk result (λ ranks. length ranks.items ≡ nodes) }
    ensures small { IfOk result (λ ranks. AreSmall ranks.items) }
{
    let mut ranks = Vec::new(alloc);
    for _ in 0..nodes {
        ranks.push([0; 16])?;
    }
    Ok(ranks)
}

/// A block all of whose lanes are idle.
fn idle_block(alloc: Global, nodes: usize) -> Result<Block, AllocError>
    ensures long { IfOk result (λ block. length block.ranks.items ≡ nodes) }
    ensures small { IfOk result (λ block. AreSmall block.ranks.items) }
    ensures idle { IfOk result (λ block. (l : ℕ) → slice_index_or block.extras l None ≡ None) }
{
    let ranks = no_ranks(alloc, nodes)?;
    let extras: [Option<NodeId>; 16] = [None; 16];
    Ok(Block { ranks, extras })
}

/// The block again, with the same ranks and milestones.
fn copy_block(block: &Block, alloc: Global) -> Result<Block, AllocError>
    ensures ranks { IfOk result (λ copy. copy.ranks.items ≡ block.now.ranks.items) }
    ensures extras { IfOk result (λ copy. copy.extras ≡ block.now.extras) }
{
    let mut ranks = Vec::new(alloc);
    ranks.extend_from_slice(&block.ranks)?;
    let extras = block.extras;
    Ok(Block { ranks, extras })
}

/// The same blocks again.
pub fn copy_blocks(blocks: &[Block], alloc: Global) -> Result<Vec<Block>, AllocError>
    ensures { IfOk result (λ copies. AreCopies (length blocks.now) blocks.now copies.items) }
{
    let mut copies = Vec::new(alloc);
    for block in blocks {
        copies.push(copy_block(block, alloc)?)?;
    }
    Ok(copies)
}

/// An idle lane, of a new block where no other has one.
pub fn make_room(blocks: &mut Vec<Block>, alloc: Global, nodes: usize) -> Result<Place, AllocError>
    requires { AreBlocks nodes blocks.old.items }
    ensures grows { Grows nodes blocks.old.items blocks.new.items }
    ensures place { IfOk result (λ place. (place.block < length blocks.new.items) × (place.lane < 16) × (extra_at blocks.new.items place.block place.lane ≡ None)) }
{
    if let Some(place) = idle_place(blocks) {
        return Ok(place);
    }
    let block = idle_block(alloc, nodes)?;
    let last = blocks.len();
    blocks.push(block)?;
    Ok(Place {
        block: last,
        lane: 0,
    })
}

/// Writes one rank.
fn put_rank(row: &mut Lanes, l: usize, rank: u32)
    requires { l < 16 }
    ensures here { slice_index row.new l ≡ rank }
    ensures others { (m : ℕ) → (m ≡ l → ⊥) → slice_index row.new m ≡ slice_index row.old m }
{
    row[l] = rank;
}

/// Writes the ranks of a world into a lane.
fn write_lane(to: &mut [Lanes], l: usize, from: &Ranks)
    requires lane { l < 16 }
    requires long { length to.old ≡ length from.now }
    requires small { AreSmall to.old }
    ensures long { length to.new ≡ length to.old }
    ensures here { lane l to.new ≡ from.now }
    ensures others { (m : ℕ) → (m ≡ l → ⊥) → lane m to.new ≡ lane m to.old }
    ensures small { AreSmall to.new }
{
    let ranks = from.as_slice();
    for n in 0..to.len() {
        put_rank(&mut to[n], l, ranks[n]);
    }
}

/// Names the milestone of a lane.
fn name(extras: &mut [Option<NodeId>; 16], l: usize, node: NodeId)
    requires { l < 16 }
    ensures here { slice_index_or extras.new l None ≡ Some node }
    ensures others { (m : ℕ) → (m ≡ l → ⊥) → slice_index_or extras.new m None ≡ slice_index_or extras.old m None }
{
    extras[l] = Some(node);
}

/// Gives a lane of a block to a milestone.
fn fill(block: &mut Block, l: usize, node: NodeId, ranks: &Ranks)
    requires lane { l < 16 }
    requires long { length block.old.ranks.items ≡ length ranks.now }
    requires small { AreSmall block.old.ranks.items }
    ensures long { length block.new.ranks.items ≡ length ranks.now }
    ensures small { AreSmall block.new.ranks.items }
    ensures here { lane l block.new.ranks.items ≡ ranks.now }
    ensures others { (m : ℕ) → (m ≡ l → ⊥) → lane m block.new.ranks.items ≡ lane m block.old.ranks.items }
    ensures extra { slice_index_or block.new.extras l None ≡ Some node }
    ensures extras { (m : ℕ) → (m ≡ l → ⊥) → slice_index_or block.new.extras m None ≡ slice_index_or block.old.extras m None }
{
    name(&mut block.extras, l, node);
    write_lane(&mut block.ranks, l, ranks);
}

/// Gives an idle lane to a milestone.
pub fn occupy(blocks: &mut [Block], place: Place, node: NodeId, ranks: &Ranks)
    requires inside { (place.block < length blocks.old) × (place.lane < 16) }
    requires blocks { AreBlocks (length ranks.now) blocks.old }
    ensures { Occupies (length ranks.now) place.block place.lane node ranks.now blocks.old blocks.new }
{
    fill(&mut blocks[place.block], place.lane, node, ranks);
}
