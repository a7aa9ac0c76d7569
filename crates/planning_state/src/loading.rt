//! What is kept beside a book that was just loaded: its rows, the index that they are put together from, the ranks of its base world, and the
//! starts of the lines of its nodes.
ghost use Rattle.std.specs.Prelude.{◌≡◌, ◌+◌, ◌*◌, ◌<◌, ◌≤◌, [], IfOk, MatchResult, length};
ghost use Rattle.plan_base.specs.Shape.{node_count};
ghost use Rattle.graph_store.specs.Rows.{AreMembersBelow, member_count};
ghost use Rattle.game_types.specs.Nodes.{shape_of};
ghost use Rattle.data_edit.specs.Books.{IsSoundBook};
ghost use Rattle.depend_index.specs.Indexed.{IsIndex};
ghost use Rattle.depend_rows.specs.Rows.{rows_of};
ghost use Rattle.milestone_masks.specs.Worlds.{AreWorlds};
ghost use Rattle.plan_report.specs.LineStarts.{line_starts};

use crate::LoadFault;
use data_edit::Book;
use depend_index::Index;
use depend_rows::{RowsFault, rows_within};
use graph_store::{Graph, Row, Rows};
use milestone_masks::Worlds;
use plan_base::{NoMemory, Steps};
use plan_report::LineStarts;
use reach_ranks::{WorldMarks, ranks_afresh};
use std::alloc::Global;

// The rows of a book as a graph, and the ranks of its base world.
fn graph_and_worlds<L>(
    alloc: Global,
    book: &Book,
    rows: Vec<Row>,
    steps: &mut Steps<L>,
) -> Result<(Graph, Worlds), NoMemory>
    requires sound { IsSoundBook book.now }
    requires rows { rows.items ≡ rows_of book.now.game }
    requires as_long { length rows.items ≡ node_count (shape_of book.now.game) }
    requires members { AreMembersBelow (length rows.items) rows.items }
    ensures graph { IfOk result (λ made. made.0 ≡ rows_of book.now.game) }
    ensures worlds { IfOk result (λ made. AreWorlds (rows_of book.now.game) book.now.barred book.now.granted made.1) }
    ensures none { IfOk result (λ made. made.1.milestones ≡ []) }
    ensures steps { IfOk result (λ _. steps.new ≤ steps.old + 4 * (node_count (shape_of book.now.game) + member_count (rows_of book.now.game))) }
    ensures later { steps.old ≤ steps.new }
{
    let graph = Graph::make(alloc, rows)?;
    let worlds = first_worlds(alloc, book, &graph, steps)?;
    Ok((graph, worlds))
}

/// What is kept beside a book.
pub struct Kept {
    pub index: Index,
    pub graph: Graph,
    pub worlds: Worlds,
    pub starts: LineStarts,
}

/// What is kept beside a book with no milestones.
pub fn kept_beside<L>(alloc: Global, book: &Book, steps: &mut Steps<L>) -> Result<Kept, LoadFault>
    requires { IsSoundBook book.now }
    ensures members { MatchResult result
        (λ _. member_count (rows_of book.now.game) ≤ 4_194_304)
        (λ fault. fault ≡ LoadFault.Members → 4_194_304 < member_count (rows_of book.now.game)) }
    ensures index { IfOk result (λ kept. IsIndex book.now.game kept.index) }
    ensures graph { IfOk result (λ kept. kept.graph ≡ rows_of book.now.game) }
    ensures worlds { IfOk result (λ kept. AreWorlds (rows_of book.now.game) book.now.barred book.now.granted kept.worlds) }
    ensures none { IfOk result (λ kept. kept.worlds.milestones ≡ []) }
    ensures starts { IfOk result (λ kept. kept.starts ≡ line_starts book.now.game) }
    ensures steps { IfOk result (λ _. steps.new ≤ steps.old + node_count (shape_of book.now.game) + 4 * (node_count (shape_of book.now.game) + member_count (rows_of book.now.game))) }
    ensures later { steps.old ≤ steps.new }
{
    let (rows, index) = match rows_within(alloc, book, steps) {
        Ok(made) => made,
        Err(fault) => return Err(load_fault(fault)),
    };
    let starts = match LineStarts::make(alloc, &book.game) {
        Ok(starts) => starts,
        Err(NoMemory) => return Err(LoadFault::NoMemory),
    };
    match graph_and_worlds(alloc, book, rows, steps) {
        Ok((graph, worlds)) => Ok(Kept {
            index,
            graph,
            worlds,
            starts,
        }),
        Err(NoMemory) => Err(LoadFault::NoMemory),
    }
}

fn load_fault(fault: RowsFault) -> LoadFault
    ensures { result ≡ LoadFault.Members → fault ≡ RowsFault.TooMany }
{
    match fault {
        RowsFault::TooMany => LoadFault::Members,
        RowsFault::NoMemory => LoadFault::NoMemory,
    }
}

// The ranks of the base world, with no milestones.
fn first_worlds<R: Rows<L>, L>(
    alloc: Global,
    book: &Book,
    graph: &R,
    steps: &mut Steps<L>,
) -> Result<Worlds, NoMemory>
    requires sound { IsSoundBook book.now }
    requires rows { R.rows graph.now ≡ rows_of book.now.game }
    ensures worlds { IfOk result (λ worlds. AreWorlds (rows_of book.now.game) book.now.barred book.now.granted worlds) }
    ensures none { IfOk result (λ worlds. worlds.milestones ≡ []) }
    ensures steps { IfOk result (λ _. steps.new ≤ steps.old + 4 * (node_count (shape_of book.now.game) + member_count (rows_of book.now.game))) }
    ensures later { steps.old ≤ steps.new }
{
    let marks = WorldMarks {
        barred: book.barred.as_slice(),
        granted: book.granted.as_slice(),
        extra: None,
    };
    let ranks = ranks_afresh(alloc, graph, marks, steps)?;
    Worlds::make(alloc, ranks)
}
