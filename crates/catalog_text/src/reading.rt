//! Reading what is shown of all things of a dump.
use crate::fields::{Shown, ShownFields};
use crate::keys::{SHOWN, wanted};
use crate::named::Named;
use crate::prototypes::{Lists, lists_of, shown_prototype};
use crate::trees::{members_of, value_at};
use json_text::{JsonCode, JsonFault, Tree, read_tree};
use plan_base::{Kind, NoMemory};
use std::alloc::Global;

// The kind of the things of a section.
fn kind_in(fields: &mut ShownFields, kind: Kind) -> &mut Named<Shown> {
    match kind {
        Kind::Fluid => &mut fields.fluids,
        Kind::Recipe => &mut fields.recipes,
        Kind::Source => &mut fields.sources,
        Kind::Machine => &mut fields.machines,
        Kind::Tech => &mut fields.techs,
        _ => &mut fields.items,
    }
}

fn read_prototype(
    alloc: Global,
    lists: &Lists,
    kind: Kind,
    name: &str,
    prototype: &Tree,
    fields: &mut ShownFields,
) -> Result<(), NoMemory> {
    let shown = shown_prototype(alloc, lists, kind, prototype)?;
    kind_in(fields, kind).put(name, shown)
}

fn read_section(
    alloc: Global,
    lists: &Lists,
    kind: Kind,
    section: &Tree,
    fields: &mut ShownFields,
) -> Result<(), NoMemory> {
    for member in members_of(section) {
        read_prototype(alloc, lists, kind, member.0.as_str(), &member.1, fields)?;
    }
    Ok(())
}

fn read_sections(
    alloc: Global,
    dump: &Tree,
    lists: &Lists,
    fields: &mut ShownFields,
) -> Result<(), NoMemory> {
    for (name, kind) in SHOWN.iter() {
        if let Some(section) = value_at(dump, name) {
            read_section(alloc, lists, *kind, section, fields)?;
        }
    }
    Ok(())
}

fn shown_in(alloc: Global, dump: &Tree) -> Result<ShownFields, NoMemory> {
    let lists = lists_of(alloc, dump)?;
    let mut fields = ShownFields::new(alloc);
    read_sections(alloc, dump, &lists, &mut fields)?;
    Ok(fields)
}

// Nothing is shown of what is no JSON.
fn nothing_in(alloc: Global, fault: &JsonFault) -> Result<ShownFields, NoMemory> {
    match fault.code {
        JsonCode::NoMemory => Err(NoMemory),
        _ => Ok(ShownFields::new(alloc)),
    }
}

/// What is shown of the things of a dump. Of what is no JSON nothing is.
///
/// # Errors
///
/// `NoMemory` where memory could not be had.
pub fn read_shown(alloc: Global, dump: &[u8]) -> Result<ShownFields, NoMemory> {
    let wanted = wanted(alloc)?;
    match read_tree(alloc, dump, &wanted) {
        Ok(tree) => shown_in(alloc, &tree),
        Err(fault) => nothing_in(alloc, &fault),
    }
}
