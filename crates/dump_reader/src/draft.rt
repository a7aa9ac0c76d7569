//! The first pass over a dump: its prototypes with names in place of ids, one after another.
ghost use Rattle.std.specs.Prelude.{◌≡◌, ◌∷◌, ◌++◌, [], IfOk, length, option_map};
ghost use Rattle.json_text.specs.SpanSeen.{spans_seen};
ghost use Rattle.prototype_fields.specs.Seen.{object_seen};
ghost use Rattle.prototype_fields.specs.Values.{Gives, seen_as, with_names};
ghost use Rattle.dump_reader.specs.Draft.{draft_seen, empty_game, taken, taken_beside, with_item, with_fluid, with_recipe, with_tech, source_taken, source_of, one_more, with_source, with_machine, categories_at, with_character, with_prototype};

use crate::goods::{read_fluid, read_item};
use crate::raw::{RawItem, RawSource};
use crate::sources::{read_plant, read_resource};
use craft_reader::{RawRecipe, RawTech, raw_recipe, raw_tech};
use game_types::{Fluid, NODE_LIMIT};
use machine_reader::{Class, RawMachine, Section, read_machine};
use name_table::{NAME_LIMIT, NameFault, Names};
use plan_base::{Items, NoMemory};
use prototype_fields::{FieldCode, FieldFault, Fields, Key, Within};
use std::alloc::{AllocError, Global};

/// What is known of a dump while it is read.
#[derive(Drop)]
pub struct Draft {
    pub items: Vec<RawItem>,
    pub fluids: Vec<Fluid>,
    pub recipes: Vec<RawRecipe>,
    pub sources: Vec<RawSource>,
    pub machines: Vec<RawMachine>,
    pub techs: Vec<RawTech>,
    /// The categories that characters craft.
    pub crafting: Vec<u32>,
    /// The categories that characters mine.
    pub mining: Vec<u32>,
    pub item_names: Names,
    pub fluid_names: Names,
    pub recipe_names: Names,
    pub source_names: Names,
    pub machine_names: Names,
    pub tech_names: Names,
    pub categories: Names,
    /// How many nodes there are so far.
    pub nodes: u32,
}

// Takes a new name of a family, for one node more.
#[tactic(auto, unfolding(crate::specs::Draft::taken))]
fn take(names: &mut Names, nodes: &mut u32, name: &str) -> Result<(), FieldFault>
    ensures { Gives (taken names.old nodes.old name.now) (seen_as (λ done. (names.new, nodes.new)) result) }
{
    if names.find(name).is_some() {
        return Err(FieldFault::of_element(FieldCode::Twice, Within::Prototype));
    }
    if NODE_LIMIT <= *nodes || NAME_LIMIT as u32 <= names.len() {
        return Err(FieldFault::of_element(FieldCode::Limit, Within::Prototype));
    }
    match names.intern(name) {
        Ok(_) => {
            *nodes += 1;
            Ok(())
        }
        Err(NameFault::Full) => { Err(FieldFault::of_element(FieldCode::Limit, Within::Prototype)) }
        Err(NameFault::NoMemory) => Err(FieldFault::no_memory()),
    }
}

// The same where two lists are of one family.
#[tactic(auto, unfolding(crate::specs::Draft::taken_beside))]
fn take_beside(
    names: &mut Names,
    others: &Names,
    nodes: &mut u32,
    name: &str,
) -> Result<(), FieldFault>
    ensures { Gives (taken_beside names.old others.now nodes.old name.now) (seen_as (λ done. (names.new, nodes.new)) result) }
{
    if others.find(name).is_some() {
        return Err(FieldFault::of_element(FieldCode::Twice, Within::Prototype));
    }
    take(names, nodes, name)
}

#[tactic(auto, unfolding(crate::specs::Draft::with_item))]
fn add_item(
    alloc: Global,
    section: Section,
    name: &str,
    fields: &Fields<'_, '_>,
    draft: &mut Draft,
) -> Result<(), FieldFault>
    ensures { Gives (with_item section name.now (object_seen fields.now) (draft_seen draft.old)) (seen_as (λ done. draft_seen draft.new) result) }
{
    take(&mut draft.item_names, &mut draft.nodes, name)?;
    let item = read_item(alloc, section, fields, &mut draft.categories)?;
    draft.items.push(item)?;
    Ok(())
}

#[tactic(auto, unfolding(crate::specs::Draft::with_fluid))]
fn add_fluid(name: &str, fields: &Fields<'_, '_>, draft: &mut Draft) -> Result<(), FieldFault>
    ensures { Gives (with_fluid name.now (object_seen fields.now) (draft_seen draft.old)) (seen_as (λ done. draft_seen draft.new) result) }
{
    take(&mut draft.fluid_names, &mut draft.nodes, name)?;
    let fluid = read_fluid(fields)?;
    draft.fluids.push(fluid)?;
    Ok(())
}

#[tactic(auto, unfolding(crate::specs::Draft::with_recipe))]
fn add_recipe(
    alloc: Global,
    name: &str,
    fields: &Fields<'_, '_>,
    draft: &mut Draft,
) -> Result<(), FieldFault>
    ensures { Gives (with_recipe name.now (object_seen fields.now) (draft_seen draft.old)) (seen_as (λ done. draft_seen draft.new) result) }
{
    take(&mut draft.recipe_names, &mut draft.nodes, name)?;
    let recipe = raw_recipe(alloc, fields, &mut draft.categories)?;
    draft.recipes.push(recipe)?;
    Ok(())
}

#[tactic(auto, unfolding(crate::specs::Draft::with_tech))]
fn add_tech(
    alloc: Global,
    name: &str,
    fields: &Fields<'_, '_>,
    draft: &mut Draft,
) -> Result<(), FieldFault>
    ensures { Gives (with_tech name.now (object_seen fields.now) (draft_seen draft.old)) (seen_as (λ done. draft_seen draft.new) result) }
{
    take(&mut draft.tech_names, &mut draft.nodes, name)?;
    let tech = raw_tech(alloc, fields)?;
    draft.techs.push(tech)?;
    Ok(())
}

// The name of what is mined, where it can be mined.
#[tactic(auto, unfolding(crate::specs::Draft::source_taken))]
fn take_source(name: &str, fields: &Fields<'_, '_>, draft: &mut Draft) -> Result<(), FieldFault>
    ensures taken { Gives (source_taken (object_seen fields.now) name.now (draft_seen draft.old)) (seen_as (λ done. (draft.new.source_names, draft.new.nodes)) result) }
    ensures same { draft_seen draft.new ≡ record (draft_seen draft.old) { source_names = draft.new.source_names; nodes = draft.new.nodes } }
{
    match fields.field(Key::Minable) {
        Some(_) => take_beside(
            &mut draft.source_names,
            &draft.machine_names,
            &mut draft.nodes,
            name,
        ),
        None => Ok(()),
    }
}

#[tactic(auto, unfolding(crate::specs::Draft::source_of))]
fn read_source(
    alloc: Global,
    section: Section,
    fields: &Fields<'_, '_>,
    names: &mut Names,
) -> Result<Option<RawSource>, FieldFault>
    ensures { Gives (source_of section (object_seen fields.now) names.old) (with_names names.new result) }
{
    match section {
        Section::Resource => read_resource(alloc, section, fields, names),
        _ => read_plant(alloc, section, fields),
    }
}

fn push_source(sources: &mut Vec<RawSource>, source: Option<RawSource>) -> Result<(), AllocError>
    ensures { IfOk result (λ done. sources.new.items ≡ one_more sources.old.items source) }
{
    match source {
        Some(source) => {
            sources.push(source)?;
            Ok(())
        }
        None => Ok(()),
    }
}

#[tactic(auto, unfolding(crate::specs::Draft::with_source))]
fn add_source(
    alloc: Global,
    section: Section,
    name: &str,
    fields: &Fields<'_, '_>,
    draft: &mut Draft,
) -> Result<(), FieldFault>
    ensures { Gives (with_source section name.now (object_seen fields.now) (draft_seen draft.old)) (seen_as (λ done. draft_seen draft.new) result) }
{
    take_source(name, fields, draft)?;
    let source = read_source(alloc, section, fields, &mut draft.categories)?;
    push_source(&mut draft.sources, source)?;
    Ok(())
}

#[tactic(auto, unfolding(crate::specs::Draft::with_machine))]
fn add_machine(
    alloc: Global,
    section: Section,
    name: &str,
    fields: &Fields<'_, '_>,
    draft: &mut Draft,
) -> Result<(), FieldFault>
    ensures { Gives (with_machine section name.now (object_seen fields.now) (draft_seen draft.old)) (seen_as (λ done. draft_seen draft.new) result) }
{
    take_beside(
        &mut draft.machine_names,
        &draft.source_names,
        &mut draft.nodes,
        name,
    )?;
    let machine = read_machine(alloc, section, fields, &mut draft.categories)?;
    draft.machines.push(machine)?;
    Ok(())
}

// Puts numbers behind others.
fn put_behind(numbers: &mut Vec<u32>, more: &Items<u32>) -> Result<(), AllocError>
    ensures { IfOk result (λ done. numbers.new.items ≡ numbers.old.items ++ more.now) }
{
    numbers.extend_from_slice(more.as_slice())
}

// The categories of a list, of which there may be none.
#[tactic(auto, unfolding(crate::specs::Draft::categories_at))]
fn read_categories(
    alloc: Global,
    fields: &Fields<'_, '_>,
    key: Key,
    names: &mut Names,
) -> Result<Items<u32>, FieldFault>
    ensures { Gives (categories_at (object_seen fields.now) key names.old) (with_names names.new result) }
{
    let elements = fields.list_or_empty(key)?;
    fields.categories(alloc, key, elements, names)
}

#[tactic(auto, unfolding(crate::specs::Draft::with_character))]
fn add_character(
    alloc: Global,
    fields: &Fields<'_, '_>,
    draft: &mut Draft,
) -> Result<(), FieldFault>
    ensures { Gives (with_character (object_seen fields.now) (draft_seen draft.old)) (seen_as (λ done. draft_seen draft.new) result) }
{
    let categories = &mut draft.categories;
    let crafting = read_categories(alloc, fields, Key::CraftingCategories, categories)?;
    let mining = read_categories(alloc, fields, Key::MiningCategories, categories)?;
    put_behind(&mut draft.crafting, &crafting)?;
    put_behind(&mut draft.mining, &mining)?;
    Ok(())
}

/// One prototype more.
#[tactic(auto, unfolding(crate::specs::Draft::with_prototype))]
pub fn add_prototype(
    alloc: Global,
    section: Section,
    name: &str,
    fields: &Fields<'_, '_>,
    draft: &mut Draft,
) -> Result<(), FieldFault>
    ensures { Gives (with_prototype section name.now (object_seen fields.now) (draft_seen draft.old)) (seen_as (λ done. draft_seen draft.new) result) }
{
    match section.class() {
        Class::Items => add_item(alloc, section, name, fields, draft),
        Class::Fluids => add_fluid(name, fields, draft),
        Class::Recipes => add_recipe(alloc, name, fields, draft),
        Class::Sources => add_source(alloc, section, name, fields, draft),
        Class::Machines => add_machine(alloc, section, name, fields, draft),
        Class::Characters => add_character(alloc, fields, draft),
        Class::Technologies => add_tech(alloc, name, fields, draft),
    }
}

impl Draft {
    /// Nothing but the three special nodes.
    pub fn make(alloc: Global) -> Draft
        ensures { draft_seen result ≡ empty_game }
    {
        Draft {
            items: Vec::new(alloc),
            fluids: Vec::new(alloc),
            recipes: Vec::new(alloc),
            sources: Vec::new(alloc),
            machines: Vec::new(alloc),
            techs: Vec::new(alloc),
            crafting: Vec::new(alloc),
            mining: Vec::new(alloc),
            item_names: Names::make(alloc),
            fluid_names: Names::make(alloc),
            recipe_names: Names::make(alloc),
            source_names: Names::make(alloc),
            machine_names: Names::make(alloc),
            tech_names: Names::make(alloc),
            categories: Names::make(alloc),
            nodes: 3,
        }
    }
}
