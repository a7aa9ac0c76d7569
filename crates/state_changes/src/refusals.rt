//! Why a change is refused.
ghost use Rattle.std.specs.Prelude.{◌≡◌};
ghost use Rattle.state_changes.specs.Faults.{edit_fault, entry_fault, milestone_fault, tables_fault};

use data_edit::EditFault;
use edit_undo::EntryFault;
use milestone_masks::MilestoneFault;
use plan_base::Denied;
use plan_lines::Object;
use planner_tables::TableRefusal;

/// Why a change is refused.
#[derive(Drop)]
pub enum Refusal {
    /// X1: nothing of the game has this name.
    Unknown(Object),
    /// X3, X2 or X4: the book can't be edited so.
    OfEdit(EditFault),
    /// M2, M1 or M3: the milestones can't be changed so.
    OfMilestone(MilestoneFault),
    /// The tables can't be changed so, for the cause and by the code that tables tell.
    OfTables(TableRefusal),
}

/// The fault of an entry whose change at this place was not carried out.
pub fn entry_fault(place: u32, fault: Denied<Refusal>) -> EntryFault<Refusal>
    ensures { result ≡ entry_fault place fault }
{
    match fault {
        Denied::Refused(refusal) => EntryFault::At(place, refusal),
        Denied::NoMemory => EntryFault::NoMemory,
    }
}

/// The fault of a change of a book that could not be edited so.
pub(crate) fn edit_fault(fault: Denied<EditFault>) -> Denied<Refusal>
    ensures { result ≡ edit_fault fault }
{
    match fault {
        Denied::Refused(fault) => Denied::Refused(Refusal::OfEdit(fault)),
        Denied::NoMemory => Denied::NoMemory,
    }
}

/// The fault of a change of the milestones that could not be made.
pub fn milestone_fault(fault: MilestoneFault) -> Denied<Refusal>
    ensures { result ≡ milestone_fault fault }
{
    match fault {
        MilestoneFault::Full => Denied::Refused(Refusal::OfMilestone(MilestoneFault::Full)),
        MilestoneFault::Already => {
            Denied::Refused(Refusal::OfMilestone(MilestoneFault::Already))
        }
        MilestoneFault::NotOne => { Denied::Refused(Refusal::OfMilestone(MilestoneFault::NotOne)) }
        MilestoneFault::NoMemory => Denied::NoMemory,
    }
}

/// The fault of a change of the tables that could not be made.
pub(crate) fn tables_fault(fault: Denied<TableRefusal>) -> Denied<Refusal>
    ensures { result ≡ tables_fault fault }
{
    match fault {
        Denied::Refused(refusal) => Denied::Refused(Refusal::OfTables(refusal)),
        Denied::NoMemory => Denied::NoMemory,
    }
}
