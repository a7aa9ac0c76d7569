//! The replies to the lines of a script as one page.
ghost use Rattle.game_types.specs.Sound.{IsSound};
ghost use Rattle.planner_tables.specs.Effects.{AreSoundTables, IsSoundOn};

use crate::fault::OutputFault;
use crate::lines::{LineWork, answered, over_lines};
use crate::output::Output;
use crate::pictures::add_pictures;
use crate::tables::{linear_form, place_of, with_form};
use game_types::Game;
use plan_base::{NoMemory, Steps};
use plan_lines::Reply;
use plan_pages::Page;
use planner_core::Planner;
use production_table::Table;
use program_runs::Work;
use script_runner::is_refusal;
use std::alloc::Global;
use std::rt::Files;
use std::str::from_utf8;

// A line of the script.
#[derive(Clone, Copy)]
struct Line<'a> {
    number: u32,
    words: &'a str,
}

// Puts the plan of a table on the page, with the table where it has a linear form.
fn add_plan(
    alloc: Global,
    game: &Game,
    table: &Table,
    line: &Line<'_>,
    reply: &Reply,
    page: &mut Page,
) -> Result<(), NoMemory>
    requires sound { IsSound game.now }
    requires table { IsSoundOn game.now table.now }
{
    let linear = linear_form(alloc, game, table)?;
    let solved = with_form(table, &linear);
    page.add(alloc, line.number, line.words, game, solved, reply)
}

// Puts the plan of the table of a name on the page.
fn add_plan_among(
    alloc: Global,
    game: &Game,
    tables: &[Table],
    name: &str,
    line: &Line<'_>,
    reply: &Reply,
    page: &mut Page,
) -> Result<(), NoMemory>
    requires sound { IsSound game.now }
    requires tables { AreSoundTables game.now tables.now }
{
    match place_of(tables, name) {
        Some(place) => add_plan(alloc, game, &tables[place], line, reply, page),
        None => Ok(()),
    }
}

// Puts the plan of a planner's table on the page.
fn add_solved(
    alloc: Global,
    planner: &Planner,
    name: &str,
    line: &Line<'_>,
    reply: &Reply,
    page: &mut Page,
) -> Result<(), NoMemory> {
    let game = planner.game();
    let tables = planner.tables();
    add_plan_among(alloc, game, tables, name, line, reply, page)
}

// The words of a line.
fn words_of(line: &[u8]) -> &str {
    from_utf8(line).unwrap_or("(no UTF-8)")
}

// Puts the reply to a line on the page.
fn add_reply(
    alloc: Global,
    planner: &Planner,
    line: &Line<'_>,
    reply: &Reply,
    page: &mut Page,
) -> Result<(), NoMemory> {
    match reply {
        Reply::Solved { table, .. } => {
            add_solved(alloc, planner, table.as_str(), line, reply, page)
        }
        _ => page.add(alloc, line.number, line.words, planner.game(), None, reply),
    }
}

// Each line is answered, and its reply put on the page.
#[derive(Drop)]
struct PageLines {
    page: Page,
}

impl LineWork for PageLines {
    fn take_line<L>(
        &mut self,
        alloc: Global,
        planner: &mut Planner,
        number: u32,
        line: &[u8],
        steps: &mut Steps<L>,
    ) -> Result<bool, OutputFault> {
        let reply = answered(alloc, planner, number, line, steps)?;
        let line = Line {
            number,
            words: words_of(line),
        };
        add_reply(alloc, planner, &line, &reply, &mut self.page)?;
        Ok(is_refusal(&reply))
    }
}

// The text of a page, with the pictures of a folder where one is named.
fn page_text<R: Files>(
    rt: &R,
    alloc: Global,
    page: &mut Page,
    icons: Option<&str>,
) -> Result<String, NoMemory> {
    if let Some(folder) = icons {
        add_pictures(rt, alloc, folder, page)?;
    }
    page.text(alloc)
}

/// The page of a script, with the pictures of a folder where one is named.
#[derive(Drop)]
pub struct ScriptPage<'a> {
    pub icons: Option<&'a str>,
}

impl<R: Files> Work<R> for ScriptPage<'_> {
    type Made = Result<Output, OutputFault>;

    fn make<L>(
        &self,
        rt: &R,
        alloc: Global,
        planner: &mut Planner,
        script: Vec<u8>,
        steps: &mut Steps<L>,
    ) -> Result<Output, OutputFault> {
        let mut lines = PageLines {
            page: Page::new(alloc),
        };
        let refused = over_lines(alloc, planner, script.as_slice(), &mut lines, steps)?;
        let text = page_text(rt, alloc, &mut lines.page, self.icons)?.into_bytes();
        Ok(Output { text, refused })
    }
}
