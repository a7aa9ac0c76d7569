//! What takes changes back.
use data_edit::Inverse;
use plan_base::NodeId;
use planner_tables::TableUndo;

/// What takes one change back.
#[derive(Drop)]
pub enum Undo {
    /// A part of the book, as it was before.
    Part(Inverse),
    /// A part of the tables, as it was before.
    OfTables(TableUndo),
    /// The node became a milestone.
    Added(NodeId),
    /// The node was a milestone, at this place in their order.
    Taken { node: NodeId, place: u32 },
}
