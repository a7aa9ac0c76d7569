//! The rows and the ranks, settled after the book changed.
ghost use Rattle.std.specs.Prelude.{◌≡◌, ◌+◌, ◌*◌, ◌≤◌, ◌<◌, All, AllPairs, ◌≢◌, IfSome, OnErr, OnOk, length};
ghost use Rattle.plan_base.specs.Shape.{node_count};
ghost use Rattle.game_types.specs.Nodes.{shape_of};
ghost use Rattle.data_edit.specs.Books.{IsSoundBook};
ghost use Rattle.depend_index.specs.Indexed.{IsIndex};
ghost use Rattle.depend_rows.specs.Rows.{rows_of};
ghost use Rattle.milestone_masks.specs.Worlds.{milestones_of, size_of_all, AgreeInWorlds, AreWorlds};
ghost use Rattle.planning_state.specs.Books.{AreRowsBut};
ghost use Rattle.planning_state.specs.Remembered.{AreMarksBut, AreRight, Remembers};

use crate::remembered::Remembered;
use data_edit::Book;
use depend_index::Index;
use depend_rows::rows_for;
use graph_store::{ReplaceRows, Rows};
use milestone_masks::Worlds;
use plan_base::{NoMemory, NodeId, Steps};
use reach_ranks::Marks;
use std::alloc::Global;

// Puts the rows of the book in the place of those of these nodes. Where there are none it takes no time.
fn settle_rows<R: ReplaceRows<L>, L>(
    alloc: Global,
    book: &Book,
    index: &Index,
    graph: &mut R,
    nodes: &[NodeId],
    steps: &mut Steps<L>,
) -> Result<(), NoMemory>
    requires sound { IsSoundBook book.now }
    requires index { IsIndex book.now.game index.now }
    requires as_long { length (R.rows graph.old) ≡ node_count (shape_of book.now.game) }
    requires nodes { All (λ n. n.0 < node_count (shape_of book.now.game)) nodes.now }
    requires once { AllPairs (λ m n. m.0 ≢ n.0) nodes.now }
    requires rows { AreRowsBut nodes.now book.now (R.rows graph.old) }
    ensures rows { OnOk result (R.rows graph.new ≡ rows_of book.now.game) }
    ensures err { OnErr result (R.rows graph.new ≡ R.rows graph.old) }
    ensures steps { OnOk result (steps.new ≤ steps.old + length nodes.now) }
    ensures later { steps.old ≤ steps.new }
{
    if nodes.is_empty() {
        return Ok(());
    }
    let changes = rows_for(alloc, book, index, nodes, steps)?;
    graph.replace(changes)?;
    Ok(())
}

// Repairs the ranks of all worlds where the rows are those of the book, and notes its marks.
fn repair<R: Rows<L>, L>(
    alloc: Global,
    book: &Book,
    graph: &R,
    worlds: &mut Worlds,
    remembered: &mut Remembered,
    nodes: &[NodeId],
    steps: &mut Steps<L>,
)
    requires sound { IsSoundBook book.now }
    requires rows { R.rows graph.now ≡ rows_of book.now.game }
    requires nodes { All (λ n. n.0 < node_count (shape_of book.now.game)) nodes.now }
    requires agree { AgreeInWorlds (rows_of book.now.game) book.now.barred book.now.granted nodes.now worlds.old }
    requires before { IfSome remembered.old.before (λ b. AreRight (rows_of book.now.game) b.marks b.worlds) }
    requires except { IfSome remembered.old.marks (AreMarksBut nodes.now book.now) }
    ensures worlds { AreWorlds (rows_of book.now.game) book.now.barred book.now.granted worlds.new }
    ensures remembers { Remembers book.now (rows_of book.now.game) remembered.new }
    ensures milestones { milestones_of worlds.new ≡ milestones_of worlds.old }
    ensures steps { steps.new ≤ steps.old + 6 * size_of_all (rows_of book.now.game) nodes.now worlds.old worlds.new }
    ensures later { steps.old ≤ steps.new }
{
    let before = steps.taken();
    let marks = Marks {
        barred: book.barred.as_slice(),
        granted: book.granted.as_slice(),
    };
    worlds.repair_all(graph, marks, nodes, steps);
    remembered.note(alloc, book, nodes, steps.taken().saturating_sub(before));
}

// Leaves the ranks as the book is now, where the rows are: those that are remembered where they are right, else they are repaired.
fn settle_marks<R: Rows<L>, L>(
    alloc: Global,
    book: &Book,
    graph: &R,
    worlds: &mut Worlds,
    remembered: &mut Remembered,
    nodes: &[NodeId],
    steps: &mut Steps<L>,
)
    requires sound { IsSoundBook book.now }
    requires rows { R.rows graph.now ≡ rows_of book.now.game }
    requires nodes { All (λ n. n.0 < node_count (shape_of book.now.game)) nodes.now }
    requires agree { AgreeInWorlds (rows_of book.now.game) book.now.barred book.now.granted nodes.now worlds.old }
    requires marks { IfSome remembered.old.marks (λ m. AreRight (rows_of book.now.game) m worlds.old) }
    requires before { IfSome remembered.old.before (λ b. AreRight (rows_of book.now.game) b.marks b.worlds) }
    requires except { IfSome remembered.old.marks (AreMarksBut nodes.now book.now) }
    ensures worlds { AreWorlds (rows_of book.now.game) book.now.barred book.now.granted worlds.new }
    ensures remembers { Remembers book.now (rows_of book.now.game) remembered.new }
    ensures milestones { milestones_of worlds.new ≡ milestones_of worlds.old }
    ensures steps { steps.new ≤ steps.old + 6 * size_of_all (rows_of book.now.game) nodes.now worlds.old worlds.new }
    ensures later { steps.old ≤ steps.new }
{
    if !nodes.is_empty() {
        if remembered.recall(book, worlds, nodes) {
            return;
        }
        remembered.remember(alloc, worlds);
    }
    repair(alloc, book, graph, worlds, remembered, nodes, steps);
}

/// Leaves the rows and the ranks of all worlds as the book is now, where the rows are so but for the first of these nodes, and
/// the ranks but for the second.
pub(crate) fn settle<R: ReplaceRows<L>, L>(
    alloc: Global,
    book: &Book,
    index: &Index,
    graph: &mut R,
    worlds: &mut Worlds,
    remembered: &mut Remembered,
    others: &[NodeId],
    nodes: &[NodeId],
    steps: &mut Steps<L>,
) -> Result<(), NoMemory>
    requires sound { IsSoundBook book.now }
    requires index { IsIndex book.now.game index.now }
    requires as_long { length (R.rows graph.old) ≡ node_count (shape_of book.now.game) }
    requires nodes { All (λ n. n.0 < node_count (shape_of book.now.game)) nodes.now }
    requires others { All (λ n. n.0 < node_count (shape_of book.now.game)) others.now }
    requires once { AllPairs (λ m n. m.0 ≢ n.0) others.now }
    requires rows { AreRowsBut others.now book.now (R.rows graph.old) }
    requires agree { AgreeInWorlds (rows_of book.now.game) book.now.barred book.now.granted nodes.now worlds.old }
    requires marks { IfSome remembered.old.marks (λ m. AreRight (R.rows graph.old) m worlds.old) }
    requires before { IfSome remembered.old.before (λ b. AreRight (R.rows graph.old) b.marks b.worlds) }
    requires except { IfSome remembered.old.marks (AreMarksBut nodes.now book.now) }
    ensures rows { OnOk result (R.rows graph.new ≡ rows_of book.now.game) }
    ensures remembers { OnOk result (Remembers book.now (R.rows graph.new) remembered.new) }
    ensures worlds { OnOk result (AreWorlds (rows_of book.now.game) book.now.barred book.now.granted worlds.new) }
    ensures milestones { milestones_of worlds.new ≡ milestones_of worlds.old }
    ensures err { OnErr result ((R.rows graph.new ≡ R.rows graph.old) × (worlds.new ≡ worlds.old) × (remembered.new ≡ remembered.old)) }
    ensures steps { OnOk result (steps.new ≤ steps.old + length others.now + 6 * size_of_all (rows_of book.now.game) nodes.now worlds.old worlds.new) }
    ensures later { steps.old ≤ steps.new }
{
    if others.is_empty() {
        settle_marks(alloc, book, graph, worlds, remembered, nodes, steps);
        return Ok(());
    }
    settle_rows(alloc, book, index, graph, others, steps)?;
    remembered.forget();
    repair(alloc, book, graph, worlds, remembered, nodes, steps);
    Ok(())
}
