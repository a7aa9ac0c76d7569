//! The prototypes of a dump, list by list, with ids in place of names.
ghost use Rattle.std.specs.Prelude.{◌≡◌, ◌<◌, ◌∷◌, ◌++◌, [], IfErr, IfOk, Some, length, slice_get};
ghost use Rattle.prototype_fields.specs.Values.{Gives, Reading};
ghost use Rattle.craft_reader.specs.declared.fault.DumpCode.TheVariants.{NoMemory as out_of_memory};
ghost use Rattle.craft_reader.specs.Faults.{GivesDump, in_prototype};
ghost use Rattle.machine_reader.specs.Sections.{section_text};
ghost use Rattle.game_reader.specs.Links.{each_linked, linked_item, linked_machine, linked_recipe, linked_source, linked_tech};

use crate::{Families, link_item, link_machine, link_recipe, link_source, link_tech};
use craft_reader::{DumpCode, DumpFault, RawRecipe, RawTech};
use dump_reader::{RawItem, RawSource};
use game_types::{Item, Machine, Recipe, Source, Tech};
use machine_reader::{RawMachine, Section};
use name_table::Names;
use plan_base::Items;
use prototype_fields::FieldFault;
use std::alloc::Global;

// What is read of a prototype, or its fault in the dump.
fn in_prototype<T>(
    alloc: Global,
    section: Section,
    name: &str,
    read: Result<T, FieldFault>,
) -> Result<T, DumpFault>
    ensures { (meant : Reading T) → Gives meant read → GivesDump (in_prototype (section_text section) name.now meant) result }
{
    match read {
        Ok(value) => Ok(value),
        Err(fault) => Err(DumpFault::of_field(alloc, section.text(), name, fault)),
    }
}

// One more at the end.
fn put<T: Drop>(alloc: Global, list: &mut Vec<T>, value: T) -> Result<(), DumpFault>
    ensures list { IfOk result (λ done. list.new.items ≡ list.old.items ++ value ∷ []) }
    ensures memory { IfErr result (λ fault. fault.code ≡ out_of_memory) }
{
    match list.push(value) {
        Ok(()) => Ok(()),
        Err(_) => Err(DumpFault::of_code(alloc, DumpCode::NoMemory)),
    }
}

// The name at a place.
fn name_at(names: &Names, place: usize) -> &str
    requires { place < length names.now }
    ensures { slice_get names.now place ≡ Some result.now }
{
    prove!(place < names.len() as usize);
    names.name_of(place as u32)
}

// The name at the place behind those of a list.
fn next_name<'n, T>(names: &'n Names, linked: &Vec<T>) -> &'n str
    requires { length linked.now.items < length names.now }
    ensures { slice_get names.now (length linked.now.items) ≡ Some result.now }
{
    name_at(names, linked.len())
}

// An item of a name.
fn named_item(alloc: Global, names: &Families, name: &str, item: RawItem) -> Result<Item, DumpFault>
    ensures { GivesDump (in_prototype (section_text item.section) name.now (linked_item names.now item)) result }
{
    let section = item.section;
    in_prototype(alloc, section, name, link_item(alloc, names, &item))
}

/// All items, beside their names.
pub fn link_items(
    alloc: Global,
    names: &Families,
    items: Vec<RawItem>,
) -> Result<Items<Item>, DumpFault>
    requires { length items.items ≡ length names.now.items }
    ensures { GivesDump (each_linked (λ item. item.section) (linked_item names.now) items.items names.now.items) result }
{
    let mut linked = Vec::new(alloc);
    for item in items {
        let name = next_name(&names.items, &linked);
        match named_item(alloc, names, name, item) {
            Ok(item) => put(alloc, &mut linked, item)?,
            Err(fault) => return Err(fault),
        }
    }
    Ok(Items::from_vec(linked))
}

// A recipe of a name.
fn named_recipe(
    alloc: Global,
    names: &Families,
    name: &str,
    recipe: RawRecipe,
) -> Result<Recipe, DumpFault>
    ensures { GivesDump (in_prototype (section_text Section.Recipe) name.now (linked_recipe names.now recipe)) result }
{
    in_prototype(
        alloc,
        Section::Recipe,
        name,
        link_recipe(alloc, names, &recipe),
    )
}

/// All recipes.
pub fn link_recipes(
    alloc: Global,
    names: &Families,
    recipes: Vec<RawRecipe>,
) -> Result<Items<Recipe>, DumpFault>
    requires { length recipes.items ≡ length names.now.recipes }
    ensures { GivesDump (each_linked (λ _. Section.Recipe) (linked_recipe names.now) recipes.items names.now.recipes) result }
{
    let mut linked = Vec::new(alloc);
    for recipe in recipes {
        let name = next_name(&names.recipes, &linked);
        match named_recipe(alloc, names, name, recipe) {
            Ok(recipe) => put(alloc, &mut linked, recipe)?,
            Err(fault) => return Err(fault),
        }
    }
    Ok(Items::from_vec(linked))
}

// What is mined, of a name.
fn named_source(
    alloc: Global,
    names: &Families,
    name: &str,
    source: RawSource,
) -> Result<Source, DumpFault>
    ensures { GivesDump (in_prototype (section_text source.section) name.now (linked_source names.now source)) result }
{
    let section = source.section;
    in_prototype(alloc, section, name, link_source(alloc, names, &source))
}

/// All that is mined.
pub fn link_sources(
    alloc: Global,
    names: &Families,
    sources: Vec<RawSource>,
) -> Result<Items<Source>, DumpFault>
    requires { length sources.items ≡ length names.now.sources }
    ensures { GivesDump (each_linked (λ source. source.section) (linked_source names.now) sources.items names.now.sources) result }
{
    let mut linked = Vec::new(alloc);
    for source in sources {
        let name = next_name(&names.sources, &linked);
        match named_source(alloc, names, name, source) {
            Ok(source) => put(alloc, &mut linked, source)?,
            Err(fault) => return Err(fault),
        }
    }
    Ok(Items::from_vec(linked))
}

// A machine of a name.
fn named_machine(
    alloc: Global,
    names: &Families,
    name: &str,
    machine: RawMachine,
) -> Result<Machine, DumpFault>
    ensures { GivesDump (in_prototype (section_text machine.section) name.now (linked_machine names.now machine)) result }
{
    let section = machine.section;
    in_prototype(alloc, section, name, link_machine(alloc, names, machine))
}

/// All machines.
pub fn link_machines(
    alloc: Global,
    names: &Families,
    machines: Vec<RawMachine>,
) -> Result<Items<Machine>, DumpFault>
    requires { length machines.items ≡ length names.now.machines }
    ensures { GivesDump (each_linked (λ machine. machine.section) (linked_machine names.now) machines.items names.now.machines) result }
{
    let mut linked = Vec::new(alloc);
    for machine in machines {
        let name = next_name(&names.machines, &linked);
        match named_machine(alloc, names, name, machine) {
            Ok(machine) => put(alloc, &mut linked, machine)?,
            Err(fault) => return Err(fault),
        }
    }
    Ok(Items::from_vec(linked))
}

// A technology of a name.
fn named_tech(alloc: Global, names: &Families, name: &str, tech: RawTech) -> Result<Tech, DumpFault>
    ensures { GivesDump (in_prototype (section_text Section.Technology) name.now (linked_tech names.now tech)) result }
{
    in_prototype(
        alloc,
        Section::Technology,
        name,
        link_tech(alloc, names, &tech),
    )
}

/// All technologies.
pub fn link_techs(
    alloc: Global,
    names: &Families,
    techs: Vec<RawTech>,
) -> Result<Items<Tech>, DumpFault>
    requires { length techs.items ≡ length names.now.techs }
    ensures { GivesDump (each_linked (λ _. Section.Technology) (linked_tech names.now) techs.items names.now.techs) result }
{
    let mut linked = Vec::new(alloc);
    for tech in techs {
        let name = next_name(&names.techs, &linked);
        match named_tech(alloc, names, name, tech) {
            Ok(tech) => put(alloc, &mut linked, tech)?,
            Err(fault) => return Err(fault),
        }
    }
    Ok(Items::from_vec(linked))
}
