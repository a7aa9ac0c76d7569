//! The exchanges of a table that was not settled, as JSON.
ghost use Rattle.std.specs.Prelude.{◌≡◌, [], IfOk, OnOk, map, slice_index_or, string_bytes};
ghost use Rattle.game_types.specs.Sound.{IsSound};
ghost use Rattle.plan_report.specs.Plans.{column_kind};
ghost use Rattle.plan_lines.specs.declared.reply.RefusalCode.TheVariants as codes_of;
ghost use Rattle.serde_json.specs.Data.{no_members};
ghost use Rattle.serde_json.specs.View.{members_view, view};
ghost use Rattle.report_json.specs.Replies.{column_id, exchange_value, with_column, with_exchange, with_out_of_budget, with_place, with_too_wide, with_trail};

use crate::refusals::put_code;
use crate::values::{good_id, push, put_list, put_whole, value_of};
use catalog_members::{Members, put_object, put_text};
use game_types::Game;
use linear_table::{Column, Exchange, Place};
use plan_base::{NoMemory, Text};
use plan_lines::RefusalCode;
use serde_json::{Map, Value};
use std::alloc::Global;

// ---- what is past the limits

fn column_kind(column: Column) -> &'static str
    ensures { result.now ≡ column_kind column }
{
    match column {
        Column::Line(_) => "row",
        Column::Import(_) => "import",
        Column::Surplus(_) => "surplus",
        Column::Unit(_) => "unit",
    }
}

// The label of a row, empty past the last.
fn label_at(labels: &[Text], row: u32) -> &str
    ensures { result.now ≡ slice_index_or labels.now row [] }
{
    match labels.get(row as usize) {
        Some(label) => label.as_str(),
        None => "",
    }
}

// The name of a column: the label of its row, or its good.
fn column_id(
    alloc: Global,
    game: &Game,
    labels: &[Text],
    column: Column,
) -> Result<String, NoMemory>
    requires { IsSound game.now }
    ensures { IfOk result (λ text. string_bytes text ≡ column_id game.now labels.now column) }
{
    match column {
        Column::Line(row) => Ok(String::from_str(alloc, label_at(labels, row))?),
        Column::Import(good) => good_id(alloc, game, good),
        Column::Surplus(good) => good_id(alloc, game, good),
        Column::Unit(good) => good_id(alloc, game, good),
    }
}

#[tactic(auto, unfolding(crate::specs::Replies::with_column))]
fn put_column(
    members: &mut Members,
    alloc: Global,
    game: &Game,
    labels: &[Text],
    column: Column,
) -> Result<(), NoMemory>
    requires { IsSound game.now }
    ensures { OnOk result (members_view members.new.entries ≡ with_column game.now labels.now column (members_view members.old.entries)) }
{
    put_text(members, alloc, "column", column_kind(column))?;
    let name = column_id(alloc, game, labels, column)?;
    put_text(members, alloc, "name", name.as_str())
}

fn column_members(
    alloc: Global,
    game: &Game,
    labels: &[Text],
    column: Column,
) -> Result<Members, NoMemory>
    requires { IsSound game.now }
    ensures { IfOk result (λ inner. members_view inner.entries ≡ with_column game.now labels.now column no_members) }
{
    let mut members = Map::new(alloc);
    put_column(&mut members, alloc, game, labels, column)?;
    Ok(members)
}

#[tactic(auto, unfolding(crate::specs::Replies::with_exchange))]
fn put_exchange(
    members: &mut Members,
    alloc: Global,
    game: &Game,
    labels: &[Text],
    exchange: Exchange,
) -> Result<(), NoMemory>
    requires { IsSound game.now }
    ensures { OnOk result (members_view members.new.entries ≡ with_exchange game.now labels.now exchange (members_view members.old.entries)) }
{
    let enter = column_members(alloc, game, labels, exchange.enter)?;
    put_object(members, alloc, "enter", enter)?;
    let leave = column_members(alloc, game, labels, exchange.leave)?;
    put_object(members, alloc, "leave", leave)
}

fn exchange_members(
    alloc: Global,
    game: &Game,
    labels: &[Text],
    exchange: Exchange,
) -> Result<Members, NoMemory>
    requires { IsSound game.now }
    ensures { IfOk result (λ inner. members_view inner.entries ≡ with_exchange game.now labels.now exchange no_members) }
{
    let mut members = Map::new(alloc);
    put_exchange(&mut members, alloc, game, labels, exchange)?;
    Ok(members)
}

fn exchange_value(
    alloc: Global,
    game: &Game,
    labels: &[Text],
    exchange: Exchange,
) -> Result<Value, NoMemory>
    requires { IsSound game.now }
    ensures { IfOk result (λ value. view value ≡ exchange_value game.now labels.now exchange) }
{
    let members = exchange_members(alloc, game, labels, exchange)?;
    Ok(value_of(members))
}

#[tactic(auto, using(crate::proofs::Listing::none_told, crate::proofs::Listing::one_told, crate::proofs::Listing::all_told))]
fn exchange_values(
    alloc: Global,
    game: &Game,
    labels: &[Text],
    trail: &[Exchange],
) -> Result<Vec<Value>, NoMemory>
    requires { IsSound game.now }
    ensures { IfOk result (λ list. map view list.items ≡ map (exchange_value game.now labels.now) trail.now) }
{
    let mut list = Vec::new(alloc);
    for exchange in trail {
        push(&mut list, exchange_value(alloc, game, labels, *exchange)?)?;
    }
    Ok(list)
}

#[tactic(auto, unfolding(crate::specs::Replies::with_trail))]
fn put_trail(
    members: &mut Members,
    alloc: Global,
    game: &Game,
    labels: &[Text],
    trail: &[Exchange],
) -> Result<(), NoMemory>
    requires { IsSound game.now }
    ensures { OnOk result (members_view members.new.entries ≡ with_trail game.now labels.now trail.now (members_view members.old.entries)) }
{
    let list = exchange_values(alloc, game, labels, trail)?;
    put_list(members, alloc, "trail", list)
}

#[tactic(auto, unfolding(crate::specs::Replies::with_place))]
fn put_place(
    members: &mut Members,
    alloc: Global,
    game: &Game,
    labels: &[Text],
    place: Place,
) -> Result<(), NoMemory>
    requires { IsSound game.now }
    ensures { OnOk result (members_view members.new.entries ≡ with_place game.now labels.now place (members_view members.old.entries)) }
{
    match place {
        Place::Entry { column, row } => {
            put_text(members, alloc, "number", "entry")?;
            put_column(members, alloc, game, labels, column)?;
            put_whole(members, alloc, "row", u64::from(row))
        }
        Place::Value { row } => {
            put_text(members, alloc, "number", "value")?;
            put_whole(members, alloc, "row", u64::from(row))
        }
        Place::Reduced { column } => {
            put_text(members, alloc, "number", "reduced")?;
            put_column(members, alloc, game, labels, column)
        }
        Place::Total => put_text(members, alloc, "number", "total"),
    }
}

fn place_members(
    alloc: Global,
    game: &Game,
    labels: &[Text],
    place: Place,
) -> Result<Members, NoMemory>
    requires { IsSound game.now }
    ensures { IfOk result (λ inner. members_view inner.entries ≡ with_place game.now labels.now place no_members) }
{
    let mut members = Map::new(alloc);
    put_place(&mut members, alloc, game, labels, place)?;
    Ok(members)
}

#[tactic(auto, unfolding(crate::specs::Replies::with_too_wide))]
pub fn put_too_wide(
    members: &mut Members,
    alloc: Global,
    game: &Game,
    labels: &[Text],
    trail: &[Exchange],
    next: Exchange,
    place: Place,
) -> Result<(), NoMemory>
    requires { IsSound game.now }
    ensures { OnOk result (members_view members.new.entries ≡ with_too_wide game.now labels.now trail.now next place (members_view members.old.entries)) }
{
    put_code(members, alloc, RefusalCode::V1)?;
    put_trail(members, alloc, game, labels, trail)?;
    let next = exchange_members(alloc, game, labels, next)?;
    put_object(members, alloc, "next", next)?;
    let place = place_members(alloc, game, labels, place)?;
    put_object(members, alloc, "place", place)
}

#[tactic(auto, unfolding(crate::specs::Replies::with_out_of_budget))]
pub fn put_out_of_budget(
    members: &mut Members,
    alloc: Global,
    game: &Game,
    labels: &[Text],
    trail: &[Exchange],
) -> Result<(), NoMemory>
    requires { IsSound game.now }
    ensures { OnOk result (members_view members.new.entries ≡ with_out_of_budget game.now labels.now trail.now (members_view members.old.entries)) }
{
    put_code(members, alloc, RefusalCode::V2)?;
    put_trail(members, alloc, game, labels, trail)
}
