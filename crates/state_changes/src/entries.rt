//! What an entry changes, and what takes it back.
ghost use Rattle.std.specs.Prelude.{◌≡◌, ◌∷◌, [], true};
ghost use Rattle.std.specs.List.{list_all};
ghost use Rattle.planner_tables.specs.Effects.{is_of_tables};
ghost use Rattle.state_changes.specs.Actions.{can_be_held};
ghost use Rattle.state_changes.specs.Effects.{is_entry};
ghost use Rattle.state_changes.specs.Entries.{IsBackOf, IsEntryOf};

use crate::undos::Undo;
use plan_base::NodeId;
use plan_lines::{Change, Object};

/// What an entry changes.
pub enum Entry<'a> {
    /// A milestone is added.
    Add(&'a Object),
    /// A milestone is taken away.
    Take(&'a Object),
    /// The book and the tables are changed.
    Held,
}

/// Whether a batch may hold the change.
pub fn can_be_held(change: &Change) -> bool
    ensures { result ≡ can_be_held change.now }
{
    match change {
        Change::Milestone(_) => false,
        Change::Unmilestone(_) => false,
        _ => true,
    }
}

/// Whether the change is one of tables.
pub(crate) fn is_of_tables(change: &Change) -> bool
    ensures { result ≡ is_of_tables change.now }
{
    match change {
        Change::Table(_) => true,
        Change::Untable(_) => true,
        Change::Row { .. } => true,
        Change::Unrow { .. } => true,
        Change::Price { .. } => true,
        Change::Want { .. } => true,
        Change::Import { .. } => true,
        Change::Surplus { .. } => true,
        Change::Power { .. } => true,
        _ => false,
    }
}

/// What an entry changes.
pub fn entry_of(changes: &[Change]) -> Entry<'_>
    requires { is_entry changes.now ≡ true }
    ensures { IsEntryOf changes.now result }
{
    if changes.len() == 1 {
        match &changes[0] {
            Change::Milestone(object) => return Entry::Add(object),
            Change::Unmilestone(object) => return Entry::Take(object),
            _ => {}
        }
    }
    Entry::Held
}

/// What takes an entry back.
pub enum Back {
    /// The node is no milestone any more.
    Drops(NodeId),
    /// The node is a milestone again, at this place in their order.
    Puts { node: NodeId, place: u32 },
    /// Parts of the book and of the tables are put back.
    Parts,
}

/// What takes an entry back.
pub fn back_of(undos: &[Undo]) -> Back
    ensures { IsBackOf undos.now result }
{
    if undos.len() == 1 {
        match &undos[0] {
            Undo::Added(node) => return Back::Drops(*node),
            Undo::Taken { node, place } => {
                return Back::Puts {
                    node: *node,
                    place: *place,
                };
            }
            Undo::Part(_) => {}
            Undo::OfTables(_) => {}
        }
    }
    Back::Parts
}
