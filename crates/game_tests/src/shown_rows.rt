//! A row of a table as it is shown.
use crate::shown_words::{labelled, named, number, object, word};
use plan_base::{Items, NoMemory, Text};
use plan_lines::{Object, RowPart};
use std::alloc::Global;

fn counted(out: &mut String, alloc: Global, module: &Object, count: u32) -> Result<(), NoMemory> {
    object(out, module)?;
    number(out, alloc, count)
}

fn beacon(
    out: &mut String,
    alloc: Global,
    machine: &Object,
    count: u32,
    share: u32,
) -> Result<(), NoMemory> {
    out.push_str("|beacon ")?;
    named(out, machine)?;
    number(out, alloc, count)?;
    number(out, alloc, share)
}

fn fluid_first(out: &mut String, fluid: &Object) -> Result<(), NoMemory> {
    out.push_str("|at ")?;
    named(out, fluid)
}

fn part(out: &mut String, alloc: Global, part: &RowPart) -> Result<(), NoMemory> {
    match part {
        RowPart::Fuel(_) => Ok(()),
        RowPart::Module(item, count) => counted(out, alloc, item, *count),
        RowPart::Beacon {
            machine,
            count,
            share,
        } => beacon(out, alloc, machine, *count, *share),
        RowPart::In(item, count) => counted(out, alloc, item, *count),
        RowPart::At(fluid) => fluid_first(out, fluid),
    }
}

fn is_fuel(part: &RowPart) -> bool {
    matches!(part, RowPart::Fuel(_))
}

fn fuel(out: &mut String, part: Option<&RowPart>) -> Result<(), NoMemory> {
    match part {
        Some(RowPart::Fuel(item)) => object(out, item),
        _ => word(out, "-"),
    }
}

// The fuel or a dash, and then the other parts in order.
fn parts(out: &mut String, alloc: Global, parts: &[RowPart]) -> Result<(), NoMemory> {
    fuel(out, parts.iter().find(|part| is_fuel(part)))?;
    for one in parts {
        part(out, alloc, one)?;
    }
    Ok(())
}

/// Shows the command that makes a row.
pub fn row(
    out: &mut String,
    alloc: Global,
    labels: (&Text, &Text),
    does: (&Object, &Object),
    others: &Items<RowPart>,
) -> Result<(), NoMemory> {
    labelled(out, "row", labels.0, labels.1)?;
    object(out, does.0)?;
    object(out, does.1)?;
    parts(out, alloc, others.as_slice())
}
