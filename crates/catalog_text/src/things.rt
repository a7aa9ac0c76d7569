//! The text of a thing.
ghost use Rattle.std.specs.Prelude.{◌≡◌, ◌<◌, ◌+◌, IfOk, OnOk, if◌then◌else◌, length, nat_lt, slice_get, string_bytes};
ghost use Rattle.std.specs.Option.{option_copied};
ghost use Rattle.game_types.specs.Sound.{IsSound};
ghost use Rattle.depend_index.specs.Indexed.{IsIndex};
ghost use Rattle.serde_json.specs.View.{members_view};
ghost use Rattle.catalog_members.specs.Texts.{IsTextOf};
ghost use Rattle.catalog_things.specs.Ways.{with_recipe, with_source, with_tech};
ghost use Rattle.catalog_things.specs.Machines.{with_machine};
ghost use Rattle.catalog_text.specs.Things.{thing_value, with_fluid_where, with_head, with_item_where, with_kind};

use crate::fields::Shown;
use crate::shown::put_shown_where;
use catalog_members::{Members, put_count, put_id, put_places, text_of};
use catalog_things::{
    put_fluid, put_item, put_machine, put_recipe, put_source, put_special, put_tech,
};
use depend_index::Index;
use game_types::Game;
use plan_base::{EntityId, GoodId, Kind, NoMemory, NodeId, RecipeId, SourceId, TechId};
use serde_json::Map;
use std::alloc::Global;

/// A thing: its kind and its number among those, its node, at which rank it is reached and without which milestones it isn't.
#[derive(Drop)]
pub struct Thing {
    pub kind: Kind,
    pub number: u32,
    pub node: NodeId,
    pub rank: u32,
    pub mask: Vec<usize>,
}

#[tactic(auto, unfolding(crate::specs::Things::with_head))]
fn put_head(
    members: &mut Members,
    alloc: Global,
    game: &Game,
    thing: &Thing,
) -> Result<(), NoMemory>
    requires { IsSound game.now }
    ensures { OnOk result (members_view members.new.entries ≡ with_head game.now thing.now.node thing.now.rank thing.now.mask.items (members_view members.old.entries)) }
{
    put_id(members, alloc, "id", game, thing.node)?;
    put_count(members, alloc, "rank", thing.rank)?;
    put_places(members, alloc, "mask", thing.mask.as_slice())
}

fn put_item_at(
    members: &mut Members,
    alloc: Global,
    game: &Game,
    number: u32,
) -> Result<(), NoMemory>
    requires { IsSound game.now }
    ensures { OnOk result (members_view members.new.entries ≡ with_item_where game.now (slice_get game.now.items number) (members_view members.old.entries)) }
{
    match game.items.as_slice().get(number as usize) {
        Some(item) => put_item(members, alloc, game, item),
        None => Ok(()),
    }
}

fn put_fluid_at(
    members: &mut Members,
    alloc: Global,
    game: &Game,
    index: &Index,
    number: u32,
) -> Result<(), NoMemory>
    requires sound { IsSound game.now }
    requires index { IsIndex game.now index.now }
    ensures { OnOk result (members_view members.new.entries ≡ with_fluid_where game.now (length game.now.items + number) (slice_get game.now.fluids number) (members_view members.old.entries)) }
{
    let shape = game.shape();
    if number < shape.fluids {
        let good = GoodId(shape.items + number);
        let fluid = &game.fluids.as_slice()[number as usize];
        put_fluid(members, alloc, game, index, good, fluid)
    } else {
        Ok(())
    }
}

fn put_recipe_at(
    members: &mut Members,
    alloc: Global,
    game: &Game,
    index: &Index,
    number: u32,
) -> Result<(), NoMemory>
    requires sound { IsSound game.now }
    requires index { IsIndex game.now index.now }
    ensures { OnOk result (members_view members.new.entries ≡ (if nat_lt number (length game.now.recipes) then with_recipe game.now index.now (record { 0 = number }) (members_view members.old.entries) else members_view members.old.entries)) }
{
    if number < game.shape().recipes {
        put_recipe(members, alloc, game, index, RecipeId(number))
    } else {
        Ok(())
    }
}

fn put_source_at(
    members: &mut Members,
    alloc: Global,
    game: &Game,
    number: u32,
) -> Result<(), NoMemory>
    requires { IsSound game.now }
    ensures { OnOk result (members_view members.new.entries ≡ (if nat_lt number (length game.now.sources) then with_source game.now (record { 0 = number }) (members_view members.old.entries) else members_view members.old.entries)) }
{
    if number < game.shape().sources {
        put_source(members, alloc, game, SourceId(number))
    } else {
        Ok(())
    }
}

fn put_machine_at(
    members: &mut Members,
    alloc: Global,
    game: &Game,
    index: &Index,
    number: u32,
) -> Result<(), NoMemory>
    requires sound { IsSound game.now }
    requires index { IsIndex game.now index.now }
    ensures { OnOk result (members_view members.new.entries ≡ (if nat_lt number (length game.now.machines) then with_machine game.now (record { 0 = number }) (members_view members.old.entries) else members_view members.old.entries)) }
{
    if number < game.shape().machines {
        put_machine(members, alloc, game, index, EntityId(number))
    } else {
        Ok(())
    }
}

fn put_tech_at(
    members: &mut Members,
    alloc: Global,
    game: &Game,
    number: u32,
) -> Result<(), NoMemory>
    requires { IsSound game.now }
    ensures { OnOk result (members_view members.new.entries ≡ (if nat_lt number (length game.now.techs) then with_tech game.now (record { 0 = number }) (members_view members.old.entries) else members_view members.old.entries)) }
{
    if number < game.shape().techs {
        put_tech(members, alloc, game, TechId(number))
    } else {
        Ok(())
    }
}

// Puts what a thing of a kind has.
#[tactic(auto, unfolding(crate::specs::Things::with_kind))]
fn put_kind(
    members: &mut Members,
    alloc: Global,
    game: &Game,
    index: &Index,
    kind: Kind,
    number: u32,
) -> Result<(), NoMemory>
    requires sound { IsSound game.now }
    requires index { IsIndex game.now index.now }
    ensures { OnOk result (members_view members.new.entries ≡ with_kind game.now index.now kind number (members_view members.old.entries)) }
{
    match kind {
        Kind::Special => put_special(members, alloc, game, number),
        Kind::Item => put_item_at(members, alloc, game, number),
        Kind::Fluid => put_fluid_at(members, alloc, game, index, number),
        Kind::Recipe => put_recipe_at(members, alloc, game, index, number),
        Kind::Source => put_source_at(members, alloc, game, number),
        Kind::Machine => put_machine_at(members, alloc, game, index, number),
        Kind::Tech => put_tech_at(members, alloc, game, number),
    }
}

/// The text of a thing.
///
/// # Errors
///
/// `NoMemory` where memory could not be had.
#[tactic(auto, unfolding(crate::specs::Things::thing_value))]
pub fn thing_text(
    alloc: Global,
    game: &Game,
    index: &Index,
    thing: &Thing,
    shown: Option<&Shown>,
) -> Result<String, NoMemory>
    requires sound { IsSound game.now }
    requires index { IsIndex game.now index.now }
    ensures { IfOk result (λ text. IsTextOf (thing_value game.now index.now (option_copied shown.entry) thing.now.kind thing.now.number thing.now.node thing.now.rank thing.now.mask.items) (string_bytes text)) }
{
    let mut members = Map::new(alloc);
    put_head(&mut members, alloc, game, thing)?;
    put_kind(&mut members, alloc, game, index, thing.kind, thing.number)?;
    put_shown_where(&mut members, alloc, shown)?;
    text_of(alloc, members)
}
