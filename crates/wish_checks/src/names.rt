//! Names of goods, activities and rows.
ghost use Rattle.game_types.specs.Sound.{IsSound};

use game_types::{Activity, Game, Setup};
use plan_base::{EntityId, GoodId, Kind, NoMemory, RecipeId, Text};
use plan_report::object_word;
use std::alloc::Global;

/// The kind and the name of the thing of a kind at a place, empty past the last.
pub fn name_at(game: &Game, kind: Kind, place: u32) -> &str {
    let names = match kind {
        Kind::Special => return "electricity",
        Kind::Item => &game.item_names,
        Kind::Fluid => &game.fluid_names,
        Kind::Recipe => &game.recipe_names,
        Kind::Source => &game.source_names,
        Kind::Machine => &game.machine_names,
        Kind::Tech => &game.tech_names,
    };
    if place < names.len() {
        names.name_of(place)
    } else {
        ""
    }
}

// The kind of a good of a table, and its place among those.
fn good_place(game: &Game, good: GoodId) -> (Kind, u32)
    requires { IsSound game.now }
{
    let shape = game.shape();
    let power = shape.items + shape.fluids;
    if good.0 < shape.items {
        (Kind::Item, good.0)
    } else if good.0 < power {
        (Kind::Fluid, good.0 - shape.items)
    } else if good.0 == power {
        (Kind::Special, 1)
    } else {
        (Kind::Tech, good.0 - power - 1)
    }
}

/// The name of a good of a table, without its kind.
pub fn good_name(game: &Game, good: GoodId) -> &str
    requires { IsSound game.now }
{
    let (kind, place) = good_place(game, good);
    name_at(game, kind, place)
}

/// A good of a table as a word.
pub fn good_text(alloc: Global, game: &Game, good: GoodId) -> Result<String, NoMemory>
    requires { IsSound game.now }
{
    let (kind, place) = good_place(game, good);
    Ok(object_word(alloc, kind, name_at(game, kind, place))?)
}

/// A machine as a word.
pub fn machine_text(alloc: Global, game: &Game, machine: EntityId) -> Result<String, NoMemory> {
    Ok(object_word(
        alloc,
        Kind::Machine,
        name_at(game, Kind::Machine, machine.0),
    )?)
}

/// A recipe as a word.
pub fn recipe_text(alloc: Global, game: &Game, recipe: RecipeId) -> Result<String, NoMemory> {
    Ok(object_word(alloc, Kind::Recipe, name_at(game, Kind::Recipe, recipe.0))?)
}

// The kind of what a set-up does, and its place among those.
fn activity_place(game: &Game, activity: Activity) -> (Kind, u32)
    requires { IsSound game.now }
{
    match activity {
        Activity::Craft(recipe) => (Kind::Recipe, recipe.0),
        Activity::Mine(source) => (Kind::Source, source.0),
        Activity::Pump(good) => good_place(game, good),
        Activity::Boil(good) => good_place(game, good),
        Activity::Generate => (Kind::Special, 1),
        Activity::Research(tech) => (Kind::Tech, tech.0),
    }
}

/// What a set-up does as a word.
pub fn activity_text(alloc: Global, game: &Game, activity: Activity) -> Result<String, NoMemory>
    requires { IsSound game.now }
{
    let (kind, place) = activity_place(game, activity);
    Ok(object_word(alloc, kind, name_at(game, kind, place))?)
}

// What makes electricity is named by the fluid that it takes in, else by its machine.
fn power_name<'a>(game: &'a Game, machine: EntityId, at: &[GoodId]) -> &'a str
    requires { IsSound game.now }
{
    match at.first() {
        Some(fluid) => good_name(game, *fluid),
        None => name_at(game, Kind::Machine, machine.0),
    }
}

fn label_verb(activity: Activity) -> &'static str {
    match activity {
        Activity::Craft(_) => "",
        Activity::Mine(_) => "mine:",
        Activity::Pump(_) => "pump:",
        Activity::Boil(_) => "heat:",
        Activity::Generate => "power:",
        Activity::Research(_) => "study:",
    }
}

fn label_name<'a>(game: &'a Game, setup: &Setup) -> &'a str
    requires { IsSound game.now }
{
    match setup.activity {
        Activity::Craft(recipe) => name_at(game, Kind::Recipe, recipe.0),
        Activity::Mine(source) => name_at(game, Kind::Source, source.0),
        Activity::Pump(good) => good_name(game, good),
        Activity::Boil(good) => good_name(game, good),
        Activity::Generate => power_name(game, setup.machine, setup.at.as_slice()),
        Activity::Research(tech) => name_at(game, Kind::Tech, tech.0),
    }
}

/// Writes the label of a row: the recipe's name, or what is done and with what.
pub fn push_label(game: &Game, setup: &Setup, label: &mut String) -> Result<(), NoMemory>
    requires { IsSound game.now }
{
    label.push_str(label_verb(setup.activity))?;
    label.push_str(label_name(game, setup))?;
    Ok(())
}

fn count_of(game: &Game, kind: Kind) -> u32
    requires { IsSound game.now }
{
    match kind {
        Kind::Special => 1,
        kind => game.shape().count_of(kind),
    }
}

/// The names of a kind, each at its place. Of the special things only electricity is there.
///
/// # Errors
///
/// `NoMemory` where memory could not be had.
pub fn names_of(alloc: Global, game: &Game, kind: Kind) -> Result<Vec<Text>, NoMemory>
    requires { IsSound game.now }
{
    let mut names = Vec::new(alloc);
    for place in 0..count_of(game, kind) {
        names.push(Text::copy(alloc, name_at(game, kind, place))?)?;
    }
    Ok(names)
}

// The most names that are told to be like one.
const LIKE: usize = 8;

fn add_like(alloc: Global, name: &str, text: &str, found: &mut Vec<Text>) -> Result<(), NoMemory> {
    if found.len() < LIKE && name != text && name.contains(text) {
        found.push(Text::copy(alloc, name)?)?;
    }
    Ok(())
}

fn add_all_like(
    alloc: Global,
    game: &Game,
    kind: Kind,
    text: &str,
    found: &mut Vec<Text>,
) -> Result<(), NoMemory>
    requires { IsSound game.now }
{
    for place in 0..count_of(game, kind) {
        add_like(alloc, name_at(game, kind, place), text, found)?;
    }
    Ok(())
}

/// Names of a kind that have a text in them, at most eight.
pub fn like_names(alloc: Global, game: &Game, kind: Kind, text: &str) -> Result<Vec<Text>, NoMemory>
    requires { IsSound game.now }
{
    let mut found = Vec::new(alloc);
    add_all_like(alloc, game, kind, text, &mut found)?;
    Ok(found)
}
