//! The pictures of things, each once on a page.
ghost use Rattle.game_types.specs.Sound.{IsSound};

use base64::engine::general_purpose::STANDARD;
use game_types::{BeaconGroup, Game, Setup};
use page_parts::Done;
use page_rows::{Piece, Thing, activity_thing, good_thing, put, thing_name};
use plan_base::{EntityId, GoodId, Kind, Text};
use plan_charts::Shown;
use plan_report::kind_word;
use production_table::TableRow;
use std::alloc::Global;

/// A thing of a page, with its name.
#[derive(Drop)]
pub struct PageThing {
    pub thing: Thing,
    pub name: Text,
}

// The things of a page that are known so far.
#[derive(Drop)]
struct Notes<'a> {
    alloc: Global,
    game: &'a Game,
}

// A thing comes in, once.
fn note(notes: &Notes<'_>, things: &mut Vec<PageThing>, thing: Thing) -> Done {
    if things.iter().any(|other| other.thing == thing) {
        return Ok(());
    }
    let name = Text::copy(notes.alloc, thing_name(notes.game, thing))?;
    things.push(PageThing { thing, name })?;
    Ok(())
}

fn note_machine(notes: &Notes<'_>, things: &mut Vec<PageThing>, machine: EntityId) -> Done {
    let thing = Thing {
        kind: Kind::Machine,
        index: machine.0,
    };
    note(notes, things, thing)
}

fn note_goods(notes: &Notes<'_>, things: &mut Vec<PageThing>, goods: &[GoodId]) -> Done
    requires { IsSound notes.now.game.now }
{
    for good in goods {
        note(notes, things, good_thing(notes.game, *good))?;
    }
    Ok(())
}

fn note_modules(notes: &Notes<'_>, things: &mut Vec<PageThing>, modules: &[(GoodId, u32)]) -> Done
    requires { IsSound notes.now.game.now }
{
    for (module, _) in modules {
        note(notes, things, good_thing(notes.game, *module))?;
    }
    Ok(())
}

fn note_beacons(notes: &Notes<'_>, things: &mut Vec<PageThing>, groups: &[BeaconGroup]) -> Done
    requires { IsSound notes.now.game.now }
{
    for group in groups {
        note_machine(notes, things, group.beacon)?;
        note_modules(notes, things, group.modules.as_slice())?;
    }
    Ok(())
}

fn note_fuel(notes: &Notes<'_>, things: &mut Vec<PageThing>, fuel: Option<GoodId>) -> Done
    requires { IsSound notes.now.game.now }
{
    match fuel {
        Some(fuel) => note(notes, things, good_thing(notes.game, fuel)),
        None => Ok(()),
    }
}

fn note_setup(notes: &Notes<'_>, things: &mut Vec<PageThing>, setup: &Setup) -> Done
    requires { IsSound notes.now.game.now }
{
    note(notes, things, activity_thing(notes.game, setup.activity))?;
    note_machine(notes, things, setup.machine)?;
    note_modules(notes, things, setup.modules.as_slice())?;
    note_beacons(notes, things, setup.beacons.as_slice())?;
    note_fuel(notes, things, setup.fuel)?;
    note_goods(notes, things, setup.at.as_slice())
}

fn note_rows(notes: &Notes<'_>, things: &mut Vec<PageThing>, rows: &[TableRow]) -> Done
    requires { IsSound notes.now.game.now }
{
    for row in rows {
        note_setup(notes, things, &row.setup)?;
    }
    Ok(())
}

/// The things of a plan come in, each once.
pub fn note_plan(alloc: Global, things: &mut Vec<PageThing>, shown: &Shown<'_>) -> Done
    requires { IsSound shown.now.game.now }
{
    let notes = Notes {
        alloc,
        game: shown.game,
    };
    note_rows(&notes, things, shown.table.rows.as_slice())?;
    note_goods(&notes, things, shown.linear.goods.as_slice())
}

fn push_plain(alloc: Global, out: &mut String, text: &str) -> Done {
    put(alloc, out, &[Piece::Text(text)])
}

// The name of the picture of a thing.
fn push_symbol(alloc: Global, out: &mut String, thing: Thing) -> Done {
    push_plain(alloc, out, "<symbol id=\"")?;
    push_plain(alloc, out, kind_word(thing.kind))?;
    put(
        alloc,
        out,
        &[
            Piece::Text("-"),
            Piece::Count(thing.index as u64),
            Piece::Text(
                "\" viewBox=\"0 0 64 64\"><image width=\"64\" height=\"64\" href=\"data:image/png;base64,",
            ),
        ],
    )
}

/// Writes the picture of a thing, a PNG of these bytes.
pub fn push_picture(alloc: Global, out: &mut String, thing: Thing, bytes: &[u8]) -> Done {
    push_symbol(alloc, out, thing)?;
    let text = STANDARD.encode(alloc, bytes)?;
    push_plain(alloc, out, text.as_str())?;
    push_plain(alloc, out, "\"/></symbol>\n")
}
