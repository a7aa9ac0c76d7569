//! The sections and the fields that are read.
use json_text::Wanted;
use plan_base::{Kind, NoMemory, Text};
use std::alloc::Global;

/// The sections whose prototypes are shown, each with the kind of what its prototypes become.
pub static SHOWN: [(&str, Kind); 39] = [
    ("item", Kind::Item),
    ("ammo", Kind::Item),
    ("capsule", Kind::Item),
    ("gun", Kind::Item),
    ("item-with-entity-data", Kind::Item),
    ("item-with-label", Kind::Item),
    ("item-with-inventory", Kind::Item),
    ("blueprint-book", Kind::Item),
    ("item-with-tags", Kind::Item),
    ("selection-tool", Kind::Item),
    ("blueprint", Kind::Item),
    ("copy-paste-tool", Kind::Item),
    ("deconstruction-item", Kind::Item),
    ("upgrade-item", Kind::Item),
    ("module", Kind::Item),
    ("rail-planner", Kind::Item),
    ("spidertron-remote", Kind::Item),
    ("tool", Kind::Item),
    ("armor", Kind::Item),
    ("repair-tool", Kind::Item),
    ("fluid", Kind::Fluid),
    ("recipe", Kind::Recipe),
    ("resource", Kind::Source),
    ("tree", Kind::Source),
    ("simple-entity", Kind::Source),
    ("fish", Kind::Source),
    ("assembling-machine", Kind::Machine),
    ("furnace", Kind::Machine),
    ("rocket-silo", Kind::Machine),
    ("mining-drill", Kind::Machine),
    ("offshore-pump", Kind::Machine),
    ("boiler", Kind::Machine),
    ("generator", Kind::Machine),
    ("burner-generator", Kind::Machine),
    ("solar-panel", Kind::Machine),
    ("reactor", Kind::Machine),
    ("lab", Kind::Machine),
    ("beacon", Kind::Machine),
    ("technology", Kind::Tech),
];

/// The section of the groups of things, of their subgroups, and of belts.
pub const GROUPS: &str = "item-group";

pub const SUBGROUPS: &str = "item-subgroup";

pub const BELTS: &str = "transport-belt";

static OTHERS: [&str; 3] = [GROUPS, SUBGROUPS, BELTS];

static FIELDS: [&str; 9] = [
    "order",
    "subgroup",
    "group",
    "hidden",
    "flags",
    "normal",
    "stack_size",
    "place_result",
    "speed",
];

fn push_text(texts: &mut Vec<Text>, alloc: Global, text: &str) -> Result<(), NoMemory> {
    texts.push(Text::copy(alloc, text)?)?;
    Ok(())
}

fn push_texts(texts: &mut Vec<Text>, alloc: Global, more: &[&str]) -> Result<(), NoMemory> {
    for text in more {
        push_text(texts, alloc, text)?;
    }
    Ok(())
}

fn shown_sections(alloc: Global) -> Result<Vec<Text>, NoMemory> {
    let mut sections = Vec::new(alloc);
    for section in SHOWN.iter() {
        push_text(&mut sections, alloc, section.0)?;
    }
    push_texts(&mut sections, alloc, &OTHERS)?;
    Ok(sections)
}

fn shown_fields(alloc: Global) -> Result<Vec<Text>, NoMemory> {
    let mut fields = Vec::new(alloc);
    push_texts(&mut fields, alloc, &FIELDS)?;
    Ok(fields)
}

/// What is kept of a dump.
pub fn wanted(alloc: Global) -> Result<Wanted, NoMemory> {
    let sections = shown_sections(alloc)?;
    let fields = shown_fields(alloc)?;
    Ok(Wanted { sections, fields })
}
