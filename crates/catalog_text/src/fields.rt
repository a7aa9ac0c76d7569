//! What is shown of things, by their kinds and names.
use crate::named::Named;
use fractions::Ratio;
use plan_base::{Kind, Text};
use std::alloc::Global;

/// What is shown of a thing.
#[derive(Drop)]
pub struct Shown {
    /// The order of its group, its group, the order of its subgroup, its subgroup and its own order; empty where it has no subgroup.
    pub order: Vec<Text>,
    pub hidden: bool,
    /// How many stand in one slot.
    pub stack: Option<Ratio>,
    /// Items a second that it carries as a belt.
    pub belt: Option<Ratio>,
}

/// What is shown of all things of a dump.
#[derive(Drop)]
pub struct ShownFields {
    pub items: Named<Shown>,
    pub fluids: Named<Shown>,
    pub recipes: Named<Shown>,
    pub sources: Named<Shown>,
    pub machines: Named<Shown>,
    pub techs: Named<Shown>,
}

impl ShownFields {
    /// Nothing is shown of anything.
    pub fn new(alloc: Global) -> ShownFields {
        ShownFields {
            items: Named::new(alloc),
            fluids: Named::new(alloc),
            recipes: Named::new(alloc),
            sources: Named::new(alloc),
            machines: Named::new(alloc),
            techs: Named::new(alloc),
        }
    }
}

// The name of a fluid without its temperature.
fn base_name(name: &str) -> &str {
    match name.rsplit_once('@') {
        Some((base, _)) => base,
        None => name,
    }
}

// What is shown of a fluid; of a variant what is shown of its base.
fn fluid_shown<'a>(fluids: &'a Named<Shown>, name: &str) -> Option<&'a Shown> {
    match fluids.find(name) {
        Some(shown) => Some(shown),
        None => fluids.find(base_name(name)),
    }
}

/// What is shown of the thing of a kind with a name, where something is.
pub fn shown_of<'a>(fields: &'a ShownFields, kind: Kind, name: &str) -> Option<&'a Shown> {
    match kind {
        Kind::Special => None,
        Kind::Item => fields.items.find(name),
        Kind::Fluid => fluid_shown(&fields.fluids, name),
        Kind::Recipe => fields.recipes.find(name),
        Kind::Source => fields.sources.find(name),
        Kind::Machine => fields.machines.find(name),
        Kind::Tech => fields.techs.find(name),
    }
}
