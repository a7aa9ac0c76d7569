//! What a line of a script asks for.
use crate::{Change, Object};
use plan_base::{Kind, Text};

/// A line's command. The fields of a variant are the words of the line in order.
#[derive(Drop)]
pub enum Command {
    Reach(Object),
    Why(Object),
    Missing(Object),
    Mask(Object),
    List(Kind),
    Milestones,
    Summary,
    Rate { table: Text, label: Text },
    Solve { table: Text, budget: u32 },
    Quiet(bool),
    Undo,
    Redo,
    Batch,
    End,
    Cancel,
    Change(Change),
}
