//! Things with their kinds and names.
ghost use Rattle.std.specs.Prelude.{◌≡◌, ◌∷◌, ◌++◌, [], IfOk, slice_index_or, string_bytes};
ghost use Rattle.game_types.specs.Sound.{IsSound};
ghost use Rattle.page_rows.specs.Things.{activity_thing, good_thing, marked_text, picture_text, special_name, thing_name, thing_text};

use game_types::{Activity, Game};
use name_table::Names;
use page_parts::escaped;
use plan_base::{GoodId, Kind, NoMemory};
use plan_report::kind_word;
use std::alloc::Global;

/// A thing of a game: its kind, and its place among those of the kind.
#[derive(Clone, Copy, Debug, PartialEq, Eq)]
pub struct Thing {
    pub kind: Kind,
    pub index: u32,
}

// The name at a place, empty past the last.
fn name_in(names: &Names, index: u32) -> &str
    ensures { result.now ≡ slice_index_or names.now index [] }
{
    if index < names.len() {
        names.name_of(index)
    } else {
        ""
    }
}

// The names of the special things. Electricity is a good.
fn special_name(index: u32) -> &'static str
    ensures { result.now ≡ special_name index }
{
    if index == 0 {
        "character"
    } else if index == 2 {
        "heat"
    } else {
        "electricity"
    }
}

/// The name of a thing.
pub fn thing_name(game: &Game, thing: Thing) -> &str
    ensures { result.now ≡ thing_name game.now thing.kind thing.index }
{
    match thing.kind {
        Kind::Special => special_name(thing.index),
        Kind::Item => name_in(&game.item_names, thing.index),
        Kind::Fluid => name_in(&game.fluid_names, thing.index),
        Kind::Recipe => name_in(&game.recipe_names, thing.index),
        Kind::Source => name_in(&game.source_names, thing.index),
        Kind::Machine => name_in(&game.machine_names, thing.index),
        Kind::Tech => name_in(&game.tech_names, thing.index),
    }
}

/// The thing that a good of a table is.
#[tactic(auto, unfolding(crate::specs::Things::good_thing))]
pub fn good_thing(game: &Game, good: GoodId) -> Thing
    requires { IsSound game.now }
    ensures { result ≡ good_thing game.now good }
{
    let shape = game.shape();
    let power = shape.items + shape.fluids;
    if good.0 < shape.items {
        Thing {
            kind: Kind::Item,
            index: good.0,
        }
    } else if good.0 < power {
        Thing {
            kind: Kind::Fluid,
            index: good.0 - shape.items,
        }
    } else if good.0 == power {
        Thing {
            kind: Kind::Special,
            index: 1,
        }
    } else {
        Thing {
            kind: Kind::Tech,
            index: good.0 - (power + 1),
        }
    }
}

/// The thing that a row makes, mines, pumps, heats or researches.
pub fn activity_thing(game: &Game, activity: Activity) -> Thing
    requires { IsSound game.now }
    ensures { result ≡ activity_thing game.now activity }
{
    match activity {
        Activity::Craft(recipe) => Thing {
            kind: Kind::Recipe,
            index: recipe.0,
        },
        Activity::Mine(source) => Thing {
            kind: Kind::Source,
            index: source.0,
        },
        Activity::Pump(good) => good_thing(game, good),
        Activity::Generate => Thing {
            kind: Kind::Special,
            index: 1,
        },
        Activity::Boil(good) => good_thing(game, good),
        Activity::Research(tech) => Thing {
            kind: Kind::Tech,
            index: tech.0,
        },
    }
}

// The place of the picture of a thing.
fn picture_text(alloc: Global, kind: &str, index: u32) -> Result<String, NoMemory>
    ensures { IfOk result (λ text. string_bytes text ≡ picture_text kind.now index) }
{
    Ok(format!(in alloc;
        "<svg class=\"i\" aria-hidden=\"true\"><use href=\"#{kind}-{index}\"/></svg>"
    )?)
}

// A name behind the place of a picture.
fn marked_text(alloc: Global, kind: &str, name: &str, picture: &str) -> Result<String, NoMemory>
    ensures { IfOk result (λ text. string_bytes text ≡ marked_text kind.now name.now picture.now) }
{
    Ok(format!(in alloc; "<span class=\"{kind}\" title=\"{kind}:{name}\">{picture}{name}</span>")?)
}

/// A thing with its name, marked by its kind, and with a place for its picture.
///
/// # Errors
///
/// `NoMemory` where memory could not be had.
#[tactic(auto, unfolding(crate::specs::Things::thing_text))]
pub fn thing_text(alloc: Global, game: &Game, thing: Thing) -> Result<String, NoMemory>
    ensures { IfOk result (λ text. string_bytes text ≡ thing_text game.now thing.kind thing.index) }
{
    let kind = kind_word(thing.kind);
    let name = escaped(alloc, thing_name(game, thing))?;
    let picture = picture_text(alloc, kind, thing.index)?;
    marked_text(alloc, kind, name.as_str(), picture.as_str())
}
