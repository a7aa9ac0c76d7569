//! Why a table isn't changed, as a planner tells it: with the name that nothing has.
ghost use Rattle.std.specs.Prelude.{◌≡◌};
ghost use Rattle.table_rows.specs.declared.refusals.TableRefusal.{TableRefusal as RefusalOf};
ghost use Rattle.planner_tables.specs.Causes.{cause, denied_as};

use crate::TableRefusal;
use plan_base::{Denied, Text};
use plan_lines::Object;
use production_table::TableFault;
use std::alloc::Global;

/// A name of which there is no table, or no row.
pub(crate) fn no_name(alloc: Global, name: &Text) -> Denied<TableRefusal>
    ensures { (refusal : RefusalOf) → result ≡ Denied.Refused refusal → TableRefusal.NoName name.now ≡ refusal }
{
    match Text::copy(alloc, name.as_str()) {
        Ok(copy) => Denied::Refused(TableRefusal::NoName(copy)),
        Err(_) => Denied::NoMemory,
    }
}

// A good that has no price.
fn no_price(alloc: Global, object: &Object) -> Denied<TableRefusal>
    ensures { (refusal : RefusalOf) → result ≡ Denied.Refused refusal → TableRefusal.NoPrice object.now ≡ refusal }
{
    match object.copy(alloc) {
        Ok(copy) => Denied::Refused(TableRefusal::NoPrice(copy)),
        Err(_) => Denied::NoMemory,
    }
}

// A refusal of a table that names nothing that it doesn't know.
fn plain_fault(fault: TableFault) -> Denied<TableRefusal>
    ensures { (refusal unknown : RefusalOf) → result ≡ Denied.Refused refusal → cause unknown fault ≡ refusal }
{
    match fault {
        TableFault::Unknown => Denied::NoMemory,
        TableFault::Negative => Denied::Refused(TableRefusal::Negative),
        TableFault::Full => Denied::Refused(TableRefusal::Full),
        TableFault::LabelUsed => Denied::Refused(TableRefusal::NameUsed),
        TableFault::Setup(fault) => Denied::Refused(TableRefusal::Setup(fault)),
        TableFault::Wide { label, step } => Denied::Refused(TableRefusal::Wide { label, step }),
    }
}

/// A refusal of a table, which may not know a row.
pub(crate) fn row_refusal(alloc: Global, label: &Text, fault: TableFault) -> Denied<TableRefusal>
    ensures { (refusal : RefusalOf) → result ≡ Denied.Refused refusal → cause (TableRefusal.NoName label.now) fault ≡ refusal }
{
    match fault {
        TableFault::Unknown => no_name(alloc, label),
        other => plain_fault(other),
    }
}

// A refusal of a table, of whose goods one may have no price.
fn good_refusal(alloc: Global, object: &Object, fault: TableFault) -> Denied<TableRefusal>
    ensures { (refusal : RefusalOf) → result ≡ Denied.Refused refusal → cause (TableRefusal.NoPrice object.now) fault ≡ refusal }
{
    match fault {
        TableFault::Unknown => no_price(alloc, object),
        other => plain_fault(other),
    }
}

/// Why a table isn't changed, which may not know a row.
pub(crate) fn row_fault(
    alloc: Global,
    label: &Text,
    fault: Denied<TableFault>,
) -> Denied<TableRefusal>
    ensures { (refusal : RefusalOf) → result ≡ Denied.Refused refusal → denied_as (TableRefusal.NoName label.now) fault ≡ Denied.Refused refusal }
{
    match fault {
        Denied::Refused(fault) => row_refusal(alloc, label, fault),
        Denied::NoMemory => Denied::NoMemory,
    }
}

/// Why a table isn't changed, of whose goods one may have no price.
pub(crate) fn good_fault(
    alloc: Global,
    object: &Object,
    fault: Denied<TableFault>,
) -> Denied<TableRefusal>
    ensures { (refusal : RefusalOf) → result ≡ Denied.Refused refusal → denied_as (TableRefusal.NoPrice object.now) fault ≡ Denied.Refused refusal }
{
    match fault {
        Denied::Refused(fault) => good_refusal(alloc, object, fault),
        Denied::NoMemory => Denied::NoMemory,
    }
}
