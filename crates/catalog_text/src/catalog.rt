//! The catalog: its sections, and the names of the milestones among them.
ghost use Rattle.std.specs.Prelude.{◌≡◌, ◌++◌, IfNone, IfOk, IfSome, None, OnOk, codes, false, string_bytes};
ghost use Rattle.json.specs.Print.{quoted};
ghost use Rattle.game_types.specs.Sound.{IsSound};
ghost use Rattle.planner_core.specs.Lines.{is_free};
ghost use Rattle.catalog_members.specs.Members.{id_text};
ghost use Rattle.catalog_text.specs.Catalog.{AreSources, IsCatalog, WritesBack, WritesFront, list_text, names, with_commas};

use crate::fields::ShownFields;
use crate::sections::{Sources, push_later, write_section};
use catalog_members::id_text;
use depend_index::Index;
use game_types::Game;
use plan_base::{Kind, NoMemory, NodeId, Steps};
use planner_core::{Planner, milestones_of};
use serde_json::Value;
use std::alloc::Global;

// The name of a node as a text of JSON.
fn quoted_name(alloc: Global, game: &Game, node: NodeId) -> Result<String, NoMemory>
    requires { IsSound game.now }
    ensures { IfOk result (λ name. string_bytes name ≡ quoted (id_text game.now node)) }
{
    let name = Value::String(id_text(alloc, game, node)?);
    Ok(name.to_string(alloc)?)
}

// Writes the names of nodes, with commas between.
fn write_names(
    alloc: Global,
    game: &Game,
    nodes: &[NodeId],
    text: &mut String,
) -> Result<(), NoMemory>
    requires { IsSound game.now }
    ensures { OnOk result (string_bytes text.new ≡ string_bytes text.old ++ with_commas false (names game.now nodes.now)) }
{
    for (place, node) in nodes.iter().enumerate() {
        let name = quoted_name(alloc, game, *node)?;
        push_later(text, place > 0, name.as_str())?;
    }
    Ok(())
}

// Writes the names of the milestones as a list.
#[tactic(auto, unfolding(crate::specs::Catalog::list_text))]
fn write_milestones(
    alloc: Global,
    game: &Game,
    milestones: &[NodeId],
    text: &mut String,
) -> Result<(), NoMemory>
    requires { IsSound game.now }
    ensures { OnOk result (string_bytes text.new ≡ (string_bytes text.old ++ codes ",\"milestones\":") ++ list_text (names game.now milestones.now)) }
{
    text.push_str(",\"milestones\":")?;
    text.push_str("[")?;
    write_names(alloc, game, milestones, text)?;
    text.push_str("]")?;
    Ok(())
}

// Writes the sections before the milestones.
fn write_front<L>(
    alloc: Global,
    planner: &mut Planner,
    sources: &Sources<'_>,
    text: &mut String,
    steps: &mut Steps<L>,
) -> Result<(), NoMemory>
    requires free { planner.old.batch ≡ None }
    requires sources { AreSources planner.old.state sources.now.index.now sources.now.milestones.now }
    ensures stays { planner.new ≡ planner.old }
    ensures written { OnOk result (WritesFront planner.old.state sources.now.index.now (string_bytes text.old) (string_bytes text.new)) }
{
    write_section(
        alloc,
        planner,
        sources,
        "{\"fluid\":",
        Kind::Fluid,
        text,
        steps,
    )?;
    let item = ",\"format\":\"factoplan-catalog\",\"item\":";
    write_section(alloc, planner, sources, item, Kind::Item, text, steps)?;
    write_section(
        alloc,
        planner,
        sources,
        ",\"machine\":",
        Kind::Machine,
        text,
        steps,
    )
}

// Writes what comes behind the milestones.
fn write_back<L>(
    alloc: Global,
    planner: &mut Planner,
    sources: &Sources<'_>,
    text: &mut String,
    steps: &mut Steps<L>,
) -> Result<(), NoMemory>
    requires free { planner.old.batch ≡ None }
    requires sources { AreSources planner.old.state sources.now.index.now sources.now.milestones.now }
    ensures stays { planner.new ≡ planner.old }
    ensures written { OnOk result (WritesBack planner.old.state sources.now.index.now (string_bytes text.old) (string_bytes text.new)) }
{
    write_section(
        alloc,
        planner,
        sources,
        ",\"recipe\":",
        Kind::Recipe,
        text,
        steps,
    )?;
    write_section(
        alloc,
        planner,
        sources,
        ",\"source\":",
        Kind::Source,
        text,
        steps,
    )?;
    write_section(
        alloc,
        planner,
        sources,
        ",\"special\":",
        Kind::Special,
        text,
        steps,
    )?;
    write_section(
        alloc,
        planner,
        sources,
        ",\"tech\":",
        Kind::Tech,
        text,
        steps,
    )?;
    text.push_str(",\"version\":1}\n")?;
    Ok(())
}

// The catalog from its sources.
fn text_from<L>(
    alloc: Global,
    planner: &mut Planner,
    sources: &Sources<'_>,
    steps: &mut Steps<L>,
) -> Result<String, NoMemory>
    requires free { planner.old.batch ≡ None }
    requires sources { AreSources planner.old.state sources.now.index.now sources.now.milestones.now }
    ensures stays { planner.new ≡ planner.old }
    ensures catalog { IfOk result (λ text. IsCatalog planner.old.state (string_bytes text)) }
{
    let mut text = String::new(alloc);
    write_front(alloc, planner, sources, &mut text, steps)?;
    write_milestones(alloc, planner.game(), sources.milestones, &mut text)?;
    write_back(alloc, planner, sources, &mut text, steps)?;
    Ok(text)
}

// The catalog with these milestones.
fn text_behind<L>(
    alloc: Global,
    planner: &mut Planner,
    milestones: &[NodeId],
    shown: &ShownFields,
    steps: &mut Steps<L>,
) -> Result<String, NoMemory>
    requires free { planner.old.batch ≡ None }
    requires milestones { milestones.now ≡ planner.old.state.milestones }
    ensures stays { planner.new ≡ planner.old }
    ensures catalog { IfOk result (λ text. IsCatalog planner.old.state (string_bytes text)) }
{
    let index = Index::make(alloc, planner.game())?;
    let sources = Sources {
        index: &index,
        milestones,
        shown,
    };
    text_from(alloc, planner, &sources, steps)
}

/// The catalog of a planner's game as one line of JSON. None just while a batch is open.
///
/// # Errors
///
/// `NoMemory` where memory could not be had.
pub fn catalog_text<L>(
    alloc: Global,
    planner: &mut Planner,
    shown: &ShownFields,
    steps: &mut Steps<L>,
) -> Result<Option<String>, NoMemory>
    ensures stays { planner.new ≡ planner.old }
    ensures catalog { IfOk result (λ told. IfSome told (λ text. IsCatalog planner.old.state (string_bytes text))) }
    ensures none { IfOk result (λ told. IfNone told (is_free planner.old.batch ≡ false)) }
{
    let Some(milestones) = milestones_of(alloc, planner, steps)? else {
        return Ok(None);
    };
    let text = text_behind(alloc, planner, milestones.as_slice(), shown, steps)?;
    Ok(Some(text))
}
