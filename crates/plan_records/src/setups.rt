//! The set-up of a row as texts.
ghost use Rattle.std.specs.Prelude.{◌≡◌, ◌++◌, ◌∷◌, ◌==◌, [], codes, IfOk, OnOk, decimal, fold, length, slice_index_or, string_bytes};
ghost use Rattle.csv.specs.Records.{fields_of};
ghost use Rattle.game_types.specs.Sound.{IsSound};
ghost use Rattle.plan_report.specs.Nodes.{name_at};
ghost use Rattle.game_types.specs.Nodes.{special_names};
ghost use Rattle.plan_records.specs.Setups.{activity_id, beacons_text, fuel_text, group_text, joined, module_text, modules_text, thing_id, with_no_setup, with_setup};

use crate::fields::{push_blank, push_field};
use csv::StringRecord;
use game_types::{Activity, BeaconGroup, Game, Setup};
use name_table::Names;
use plan_base::{GoodId, Kind, NoMemory};
use plan_report::kind_word;
use report_json::good_id;
use std::alloc::Global;

// The name of a special thing, empty past the last.
fn special_name(place: u32) -> &'static str
    ensures { result.now ≡ slice_index_or special_names place [] }
{
    match place {
        0 => "character",
        1 => "electricity",
        2 => "heat",
        _ => "",
    }
}

// The name at a place among names, empty past the last.
fn listed_name(names: &Names, place: u32) -> &str
    ensures { result.now ≡ slice_index_or names.now place [] }
{
    if place < names.len() {
        names.name_of(place)
    } else {
        ""
    }
}

// The name of the thing of a kind at a place, empty past the last.
fn name_at(game: &Game, kind: Kind, place: u32) -> &str
    ensures { result.now ≡ name_at game.now kind place }
{
    match kind {
        Kind::Special => special_name(place),
        Kind::Item => listed_name(&game.item_names, place),
        Kind::Fluid => listed_name(&game.fluid_names, place),
        Kind::Recipe => listed_name(&game.recipe_names, place),
        Kind::Source => listed_name(&game.source_names, place),
        Kind::Machine => listed_name(&game.machine_names, place),
        Kind::Tech => listed_name(&game.tech_names, place),
    }
}

// The thing of a kind at a place.
#[tactic(auto, unfolding(crate::specs::Setups::thing_id))]
fn thing_id(alloc: Global, game: &Game, kind: Kind, place: u32) -> Result<String, NoMemory>
    ensures { IfOk result (λ text. string_bytes text ≡ thing_id game.now kind place) }
{
    let word = kind_word(kind);
    let name = name_at(game, kind, place);
    Ok(format!(in alloc; "{word}:{name}")?)
}

fn activity_id(alloc: Global, game: &Game, activity: Activity) -> Result<String, NoMemory>
    requires { IsSound game.now }
    ensures { IfOk result (λ text. string_bytes text ≡ activity_id game.now activity) }
{
    match activity {
        Activity::Craft(recipe) => thing_id(alloc, game, Kind::Recipe, recipe.0),
        Activity::Mine(source) => thing_id(alloc, game, Kind::Source, source.0),
        Activity::Pump(good) => good_id(alloc, game, good),
        Activity::Generate => thing_id(alloc, game, Kind::Special, 1),
        Activity::Boil(good) => good_id(alloc, game, good),
        Activity::Research(tech) => thing_id(alloc, game, Kind::Tech, tech.0),
    }
}

fn fuel_text(alloc: Global, game: &Game, fuel: Option<GoodId>) -> Result<String, NoMemory>
    requires { IsSound game.now }
    ensures { IfOk result (λ text. string_bytes text ≡ fuel_text game.now fuel) }
{
    match fuel {
        Some(fuel) => good_id(alloc, game, fuel),
        None => Ok(String::new(alloc)),
    }
}

// Puts a piece behind others, with a plus between.
#[tactic(auto, unfolding(crate::specs::Setups::joined))]
fn join(text: &mut String, piece: &str) -> Result<(), NoMemory>
    ensures { OnOk result (string_bytes text.new ≡ joined (string_bytes text.old) piece.now) }
{
    if text.is_empty() {
        text.push_str(piece)?;
    } else {
        write!(text, " + {piece}")?;
    }
    Ok(())
}

fn module_text(alloc: Global, game: &Game, pair: &(GoodId, u32)) -> Result<String, NoMemory>
    requires { IsSound game.now }
    ensures { IfOk result (λ text. string_bytes text ≡ module_text game.now pair.now) }
{
    let module = good_id(alloc, game, pair.0)?;
    let count = pair.1;
    Ok(format!(in alloc; "{count} {module}")?)
}

#[tactic(auto, using(crate::proofs::Folding::fold_next), unfolding(crate::specs::Setups::modules_text))]
fn modules_text(alloc: Global, game: &Game, modules: &[(GoodId, u32)]) -> Result<String, NoMemory>
    requires { IsSound game.now }
    ensures { IfOk result (λ text. string_bytes text ≡ modules_text game.now modules.now) }
{
    let mut text = String::new(alloc);
    for pair in modules {
        let piece = module_text(alloc, game, pair)?;
        join(&mut text, piece.as_str())?;
    }
    Ok(text)
}

fn group_text(alloc: Global, game: &Game, group: &BeaconGroup) -> Result<String, NoMemory>
    requires { IsSound game.now }
    ensures { IfOk result (λ text. string_bytes text ≡ group_text game.now group.now) }
{
    let count = group.count;
    let beacon = thing_id(alloc, game, Kind::Machine, group.beacon.0)?;
    let share = group.share;
    let modules = modules_text(alloc, game, group.modules.as_slice())?;
    Ok(format!(in alloc; "{count} {beacon} shared by {share} with {modules}")?)
}

#[tactic(auto, using(crate::proofs::Folding::fold_next), unfolding(crate::specs::Setups::beacons_text))]
fn beacons_text(alloc: Global, game: &Game, groups: &[BeaconGroup]) -> Result<String, NoMemory>
    requires { IsSound game.now }
    ensures { IfOk result (λ text. string_bytes text ≡ beacons_text game.now groups.now) }
{
    let mut text = String::new(alloc);
    for group in groups {
        let piece = group_text(alloc, game, group)?;
        join(&mut text, piece.as_str())?;
    }
    Ok(text)
}

/// Puts the set-up of a row: what it does, its machine, its fuel, its modules and its beacons.
#[tactic(auto, unfolding(crate::specs::Setups::with_setup))]
pub fn push_setup(
    fields: &mut StringRecord,
    alloc: Global,
    game: &Game,
    setup: &Setup,
) -> Result<(), NoMemory>
    requires { IsSound game.now }
    ensures { OnOk result (fields_of fields.new ≡ with_setup game.now setup.now (fields_of fields.old)) }
{
    let activity = activity_id(alloc, game, setup.activity)?;
    push_field(fields, activity.as_str())?;
    let machine = thing_id(alloc, game, Kind::Machine, setup.machine.0)?;
    push_field(fields, machine.as_str())?;
    let fuel = fuel_text(alloc, game, setup.fuel)?;
    push_field(fields, fuel.as_str())?;
    let modules = modules_text(alloc, game, setup.modules.as_slice())?;
    push_field(fields, modules.as_str())?;
    let beacons = beacons_text(alloc, game, setup.beacons.as_slice())?;
    push_field(fields, beacons.as_str())
}

/// Puts that there is no set-up.
#[tactic(auto, unfolding(crate::specs::Setups::with_no_setup))]
pub fn push_no_setup(fields: &mut StringRecord) -> Result<(), NoMemory>
    ensures { OnOk result (fields_of fields.new ≡ with_no_setup (fields_of fields.old)) }
{
    push_blank(fields)?;
    push_blank(fields)?;
    push_blank(fields)?;
    push_blank(fields)?;
    push_blank(fields)
}
