//! The first pass over the tree of a dump.
ghost use Rattle.std.specs.Prelude.{◌≡◌, ◌≢◌, [], IfErr, IfOk, map};
ghost use Rattle.json_text.specs.SpanSeen.{members_seen, span_seen, text_seen};
ghost use Rattle.prototype_fields.specs.Values.{Gives, seen_as};
ghost use Rattle.craft_reader.specs.Faults.{GivesDump, IsBare, fault_in};
ghost use Rattle.dump_reader.specs.Draft.{draft_seen};
ghost use Rattle.dump_reader.specs.Dump.{each_after, member_of, named_of, no_object, prototype_of, section_of, sections, raw_game};
ghost use Rattle.machine_reader.specs.Sections.{section_text};
ghost use Rattle.dump_reader.specs.Sound.{IsSoundDraft};

use crate::draft::{Draft, add_prototype};
use craft_reader::{DumpCode, DumpFault};
use json_text::{SpanMember, SpanTree};
use machine_reader::Section;
use prototype_fields::{FieldCode, FieldFault, Fields, Within, as_object, if_utf8, value_at};
use std::alloc::Global;

// A prototype.
#[tactic(auto, unfolding(crate::specs::Dump::prototype_of))]
fn add_value(
    alloc: Global,
    section: Section,
    name: &str,
    value: &SpanTree<'_>,
    draft: &mut Draft,
) -> Result<(), FieldFault>
    ensures { Gives (prototype_of section name.now (span_seen value.now) (draft_seen draft.old)) (seen_as (λ done. draft_seen draft.new) result) }
{
    let fields = Fields::of_element(Within::Prototype, value)?;
    add_prototype(alloc, section, name, &fields, draft)
}

// What is no object.
fn no_object(alloc: Global, section: &str) -> DumpFault
    ensures fault { result.code ≢ DumpCode.NoMemory → result ≡ fault_in section.now [] no_object }
    ensures bare { IsBare result }
{
    let fault = FieldFault::of_element(FieldCode::WrongKind, Within::Prototype);
    DumpFault::of_field(alloc, section, "", fault)
}

// A prototype of a name.
#[tactic(auto, unfolding(crate::specs::Dump::named_of))]
fn add_named(
    alloc: Global,
    section: Section,
    name: &str,
    value: &SpanTree<'_>,
    draft: &mut Draft,
) -> Result<(), DumpFault>
    ensures gives { GivesDump (named_of section name.now (span_seen value.now) (draft_seen draft.old)) (seen_as (λ done. draft_seen draft.new) result) }
    ensures bare { IfErr result IsBare }
{
    match add_value(alloc, section, name, value, draft) {
        Ok(()) => Ok(()),
        Err(fault) => Err(DumpFault::of_field(alloc, section.text(), name, fault)),
    }
}

// A member of a section.
#[tactic(auto, unfolding(crate::specs::Dump::member_of))]
fn add_member(
    alloc: Global,
    section: Section,
    member: &SpanMember<'_>,
    draft: &mut Draft,
) -> Result<(), DumpFault>
    ensures gives { GivesDump (member_of section (text_seen member.now.key, span_seen member.now.value) (draft_seen draft.old)) (seen_as (λ done. draft_seen draft.new) result) }
    ensures bare { IfErr result IsBare }
{
    match if_utf8(member.key.as_bytes()) {
        Some(name) => add_named(alloc, section, name, &member.value, draft),
        None => Err(no_object(alloc, section.text())),
    }
}

// The members of a section, one after another.
fn add_members(
    alloc: Global,
    section: Section,
    members: &[SpanMember<'_>],
    draft: &mut Draft,
) -> Result<(), DumpFault>
    ensures gives { GivesDump (each_after (member_of section) (members_seen members.now) (draft_seen draft.old)) (seen_as (λ done. draft_seen draft.new) result) }
    ensures bare { IfErr result IsBare }
{
    for member in members {
        match add_member(alloc, section, member, draft) {
            Ok(()) => {}
            Err(fault) => return Err(fault),
        }
    }
    Ok(())
}

// A section, which may be absent.
#[tactic(auto, unfolding(crate::specs::Dump::section_of))]
fn add_section(
    alloc: Global,
    top: &[SpanMember<'_>],
    section: Section,
    draft: &mut Draft,
) -> Result<(), DumpFault>
    ensures gives { GivesDump (section_of (members_seen top.now) section (draft_seen draft.old)) (seen_as (λ done. draft_seen draft.new) result) }
    ensures bare { IfErr result IsBare }
{
    let Some(value) = value_at(section.text(), top) else {
        return Ok(());
    };
    match as_object(value) {
        Some(members) => add_members(alloc, section, members, draft),
        None => Err(no_object(alloc, section.text())),
    }
}

/// The sections that are read, in order.
const SECTIONS: [Section; 40] = [
    Section::Item,
    Section::Ammo,
    Section::Capsule,
    Section::Gun,
    Section::ItemWithEntityData,
    Section::ItemWithLabel,
    Section::ItemWithInventory,
    Section::BlueprintBook,
    Section::ItemWithTags,
    Section::SelectionTool,
    Section::Blueprint,
    Section::CopyPasteTool,
    Section::DeconstructionItem,
    Section::UpgradeItem,
    Section::Module,
    Section::RailPlanner,
    Section::SpidertronRemote,
    Section::Tool,
    Section::Armor,
    Section::RepairTool,
    Section::Fluid,
    Section::Recipe,
    Section::Resource,
    Section::Tree,
    Section::SimpleEntity,
    Section::Fish,
    Section::AssemblingMachine,
    Section::Furnace,
    Section::RocketSilo,
    Section::MiningDrill,
    Section::OffshorePump,
    Section::Boiler,
    Section::Generator,
    Section::BurnerGenerator,
    Section::SolarPanel,
    Section::Reactor,
    Section::Lab,
    Section::Beacon,
    Section::Character,
    Section::Technology,
];

// Sections, one after another.
fn add_sections(
    alloc: Global,
    top: &[SpanMember<'_>],
    sections: &[Section],
    draft: &mut Draft,
) -> Result<(), DumpFault>
    ensures gives { GivesDump (each_after (section_of (members_seen top.now)) sections.now (draft_seen draft.old)) (seen_as (λ done. draft_seen draft.new) result) }
    ensures bare { IfErr result IsBare }
{
    for section in sections {
        match add_section(alloc, top, *section, draft) {
            Ok(()) => {}
            Err(fault) => return Err(fault),
        }
    }
    Ok(())
}

/// All that a tree of JSON says of a game, with names in place of ids. It is sound: there are as many names as prototypes,
/// few enough nodes, and each number is within its range.
///
/// # Errors
///
/// The first fault of the first pass, with its section and the name of its prototype.
#[tactic(auto, unfolding(crate::specs::Dump::raw_game))]
pub fn read_draft(alloc: Global, tree: &SpanTree<'_>) -> Result<Draft, DumpFault>
    ensures gives { GivesDump (raw_game (span_seen tree.now)) (seen_as draft_seen result) }
    ensures sound { IfOk result (λ draft. IsSoundDraft (draft_seen draft)) }
    ensures bare { IfErr result IsBare }
{
    let Some(top) = as_object(tree) else {
        return Err(no_object(alloc, ""));
    };
    let mut draft = Draft::make(alloc);
    match add_sections(alloc, top, SECTIONS.as_slice(), &mut draft) {
        Ok(()) => Ok(draft),
        Err(fault) => Err(fault),
    }
}
