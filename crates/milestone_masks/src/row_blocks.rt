//! Nodes visited in blocks, so that their rows are on their way from memory at the same time.
ghost use Rattle.std.specs.Prelude.{◌≡◌, ◌+◌, ◌-◌, ◌<◌, ◌≤◌, List, true, All, drop, length, map, take, IfOk, OnOk};
ghost use Rattle.graph_store.specs.declared.Row.{Row};
ghost use Rattle.graph_store.specs.Rows.{HasMembersBelow};
ghost use Rattle.milestone_masks.specs.Found.{stood_on, AreRowsOf, AreSeen, Grows};

use crate::found_list::FoundList;
use crate::supports::visit;
use graph_store::{PackedRow, Rows};
use plan_base::{NodeId, Steps};
use reach_ranks::Ranks;
use std::alloc::{AllocError, Global};

/// The rows of so many nodes from a place on, in order.
fn rows_of<'a, R: Rows<L>, L>(
    alloc: Global,
    rows: &'a R,
    nodes: &[NodeId],
    start: usize,
    count: usize,
    steps: &mut Steps<L>,
) -> Result<Vec<&'a PackedRow>, AllocError>
    requires nodes { All (λ m. m.0 < length (R.rows rows.now)) nodes.now }
    requires within { start + count ≤ length nodes.now }
    ensures long { IfOk result (λ block. length block.items ≡ count) }
    ensures members { IfOk result (λ block. All (λ r. HasMembersBelow (length (R.rows rows.now)) r.now) block.items) }
    ensures rows { IfOk result (λ block. AreRowsOf (R.rows rows.now) (take count (drop start nodes.now)) (map (λ r. r.now) block.items)) }
    ensures steps { steps.new ≤ steps.old + count }
    ensures later { steps.old ≤ steps.new }
{
    let _count = rows.len();
    let mut block = Vec::with_capacity(alloc, count)?;
    for k in 0..count {
        let node = nodes[start + k];
        block.push(rows.packed(node, steps))?;
    }
    Ok(block)
}

/// Whether each of these rows is at hand, as it is then.
///
/// None of the reads waits for another, nor does the end of the loop wait for them, so that all rows come from memory together.
fn are_at_hand(block: &[&PackedRow]) -> bool
    ensures { result ≡ true }
{
    for row in block {
        if !row.is_at_hand() {
            return false;
        }
    }
    true
}

/// Adds what the nodes from a place on stand on, whose rows these are.
fn visit_rows(
    found: &mut FoundList,
    seen: &mut [bool],
    ranks: &Ranks,
    granted: &[bool],
    start: usize,
    block: &[&PackedRow],
) -> Result<(), AllocError>
    requires seen { AreSeen found.old seen.old }
    requires ranks { length ranks.now ≡ length seen.old }
    requires granted { length granted.now ≡ length seen.old }
    requires within { start + length block.now ≤ length found.old }
    requires members { All (λ r. HasMembersBelow (length seen.old) r.now) block.now }
    ensures seen { OnOk result (AreSeen found.new seen.new) }
    ensures grows { OnOk result ((rows : List Row) → AreRowsOf rows (take (length block.now) (drop start found.old)) (map (λ r. r.now) block.now)
        → Grows (stood_on rows granted.now ranks.now (take (length block.now) (drop start found.old))) found.old found.new) }
{
    for k in 0..block.len() {
        let node = found.as_slice()[start + k];
        visit(found, seen, ranks, granted, node, block[k])?;
    }
    Ok(())
}

/// Adds what the nodes from a place to another stand on.
pub fn visit_block<R: Rows<L>, L>(
    alloc: Global,
    found: &mut FoundList,
    seen: &mut [bool],
    ranks: &Ranks,
    rows: &R,
    granted: &[bool],
    start: usize,
    end: usize,
    steps: &mut Steps<L>,
) -> Result<(), AllocError>
    requires seen { AreSeen found.old seen.old }
    requires long { length seen.old ≡ length (R.rows rows.now) }
    requires ranks { length ranks.now ≡ length (R.rows rows.now) }
    requires granted { length granted.now ≡ length (R.rows rows.now) }
    requires start { start ≤ end }
    requires end { end ≤ length found.old }
    ensures seen { OnOk result (AreSeen found.new seen.new) }
    ensures grows { OnOk result (Grows (stood_on (R.rows rows.now) granted.now ranks.now (take (end - start) (drop start found.old))) found.old found.new) }
    ensures steps { steps.new ≤ steps.old + (end - start) }
    ensures later { steps.old ≤ steps.new }
{
    let _count = rows.len();
    let block = rows_of(alloc, rows, found.as_slice(), start, end - start, steps)?;
    if are_at_hand(&block) {
        visit_rows(found, seen, ranks, granted, start, &block)
    } else {
        Ok(())
    }
}
