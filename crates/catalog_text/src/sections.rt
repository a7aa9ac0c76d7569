//! The sections of the catalog: the things of a kind as a list.
ghost use Rattle.std.specs.Prelude.{◌≡◌, ◌<◌, ◌++◌, ℕ, IfOk, None, OnOk, string_bytes};
ghost use Rattle.plan_base.specs.Shape.{count_of, node_count};
ghost use Rattle.plan_base.specs.declared.shape.Kind.{Kind};
ghost use Rattle.game_types.specs.Nodes.{shape_of};
ghost use Rattle.game_types.specs.Sound.{IsSound};
ghost use Rattle.depend_index.specs.Indexed.{IsIndex};
ghost use Rattle.state_changes.specs.States.{State};
ghost use Rattle.planner_core.specs.Told.{mask_of, places_of};
ghost use Rattle.serde_json.specs.Written.{comma_if};
ghost use Rattle.catalog_things.specs.Nodes.{thing_node};
ghost use Rattle.catalog_text.specs.Catalog.{AreSources, WritesSection, WritesThing, WritesThings};
ghost use Rattle.catalog_text.specs.Things.{IsThing, IsThingText};

use crate::fields::{ShownFields, shown_of};
use crate::things::{Thing, thing_text};
use catalog_things::thing_node;
use depend_index::Index;
use game_types::Game;
use plan_base::{Kind, NoMemory, NodeId, Steps};
use planner_core::{Planner, mask_of, places_of, rank_of};
use std::alloc::Global;

/// What a catalog is written from, beside the planner.
#[derive(Clone, Copy)]
pub struct Sources<'a> {
    pub index: &'a Index,
    pub milestones: &'a [NodeId],
    pub shown: &'a ShownFields,
}

// The places of the milestones without which a node isn't reached.
fn mask_places<L>(
    alloc: Global,
    planner: &mut Planner,
    milestones: &[NodeId],
    node: NodeId,
    steps: &mut Steps<L>,
) -> Result<Vec<usize>, NoMemory>
    requires free { planner.old.batch ≡ None }
    requires milestones { milestones.now ≡ planner.old.state.milestones }
    requires node { node.0 < node_count (shape_of planner.old.state.book.game) }
    ensures stays { planner.new ≡ planner.old }
    ensures places { IfOk result (λ places. places.items ≡ places_of planner.old.state.milestones (mask_of planner.old.state node.0)) }
{
    let mask = mask_of(alloc, planner, node, steps)?;
    places_of(alloc, milestones, mask.as_slice())
}

// The node of the thing of a kind with a number.
fn node_of(game: &Game, kind: Kind, number: u32) -> NodeId
    requires sound { IsSound game.now }
    requires number { number < count_of (shape_of game.now) kind }
    ensures node { result ≡ thing_node game.now kind number }
    ensures within { result.0 < node_count (shape_of game.now) }
{
    thing_node(game, kind, number)
}

// A thing as the planner has it.
fn thing_of<L>(
    alloc: Global,
    planner: &mut Planner,
    milestones: &[NodeId],
    kind: Kind,
    number: u32,
    steps: &mut Steps<L>,
) -> Result<Thing, NoMemory>
    requires free { planner.old.batch ≡ None }
    requires milestones { milestones.now ≡ planner.old.state.milestones }
    requires number { number < count_of (shape_of planner.old.state.book.game) kind }
    ensures stays { planner.new ≡ planner.old }
    ensures thing { IfOk result (λ thing. IsThing planner.old.state kind number thing) }
{
    let node = node_of(planner.game(), kind, number);
    let rank = rank_of(alloc, planner, node, steps)?;
    let mask = mask_places(alloc, planner, milestones, node, steps)?;
    Ok(Thing {
        kind,
        number,
        node,
        rank,
        mask,
    })
}

// The name of a node; empty past the last.
fn name_of(game: &Game, node: NodeId) -> &str
    requires { IsSound game.now }
{
    if node.0 < game.shape().len() {
        game.name_of(node)
    } else {
        ""
    }
}

// The text of a thing that is known.
fn known_text(
    alloc: Global,
    game: &Game,
    index: &Index,
    thing: &Thing,
    shown: &ShownFields,
) -> Result<String, NoMemory>
    requires sound { IsSound game.now }
    requires index { IsIndex game.now index.now }
    ensures { IfOk result (λ text. (s : State) (kind : Kind) (number : ℕ) → s.book.game ≡ game.now → IsThing s kind number thing.now → IsThingText s index.now kind number (string_bytes text)) }
{
    let name = name_of(game, thing.node);
    let shown = shown_of(shown, thing.kind, name);
    thing_text(alloc, game, index, thing, shown)
}

/// Writes a text behind others, with a comma where some come before it.
pub fn push_later(text: &mut String, is_later: bool, more: &str) -> Result<(), NoMemory>
    ensures { OnOk result (string_bytes text.new ≡ string_bytes text.old ++ (comma_if is_later ++ more.now)) }
{
    if is_later {
        text.push_str(",")?;
    }
    text.push_str(more)?;
    Ok(())
}

// Writes a thing behind others.
fn write_thing<L>(
    alloc: Global,
    planner: &mut Planner,
    sources: &Sources<'_>,
    kind: Kind,
    number: u32,
    text: &mut String,
    steps: &mut Steps<L>,
) -> Result<(), NoMemory>
    requires free { planner.old.batch ≡ None }
    requires sources { AreSources planner.old.state sources.now.index.now sources.now.milestones.now }
    requires number { number < count_of (shape_of planner.old.state.book.game) kind }
    ensures stays { planner.new ≡ planner.old }
    ensures written { OnOk result (WritesThing planner.old.state sources.now.index.now kind number (string_bytes text.old) (string_bytes text.new)) }
{
    let thing = thing_of(alloc, planner, sources.milestones, kind, number, steps)?;
    let known = known_text(alloc, planner.game(), sources.index, &thing, sources.shown)?;
    push_later(text, number > 0, known.as_str())
}

// Writes the things of a kind, of which there are so many.
fn write_things<L>(
    alloc: Global,
    planner: &mut Planner,
    sources: &Sources<'_>,
    kind: Kind,
    count: u32,
    text: &mut String,
    steps: &mut Steps<L>,
) -> Result<(), NoMemory>
    requires free { planner.old.batch ≡ None }
    requires sources { AreSources planner.old.state sources.now.index.now sources.now.milestones.now }
    requires count { count ≡ count_of (shape_of planner.old.state.book.game) kind }
    ensures stays { planner.new ≡ planner.old }
    ensures written { OnOk result (WritesThings planner.old.state sources.now.index.now kind count (string_bytes text.old) (string_bytes text.new)) }
{
    for number in 0..count {
        write_thing(alloc, planner, sources, kind, number, text, steps)?;
    }
    Ok(())
}

/// Writes the things of a kind as a list, behind what comes before it.
pub fn write_section<L>(
    alloc: Global,
    planner: &mut Planner,
    sources: &Sources<'_>,
    head: &str,
    kind: Kind,
    text: &mut String,
    steps: &mut Steps<L>,
) -> Result<(), NoMemory>
    requires free { planner.old.batch ≡ None }
    requires sources { AreSources planner.old.state sources.now.index.now sources.now.milestones.now }
    ensures stays { planner.new ≡ planner.old }
    ensures written { OnOk result (WritesSection planner.old.state sources.now.index.now head.now kind (string_bytes text.old) (string_bytes text.new)) }
{
    let count = planner.game().shape().count_of(kind);
    text.push_str(head)?;
    text.push_str("[")?;
    write_things(alloc, planner, sources, kind, count, text, steps)?;
    text.push_str("]")?;
    Ok(())
}
