//! The words that ask for an output, as clap reads them.
use crate::costs::Form;
use clap::{Arg, ArgMatches, Command};
use command_words::{command, dump_word, flag, option, script_word, with_files, word};
use std::alloc::{AllocError, Global};

const FLOW_NOTES: &str = "Exit status, beside those of all commands:
  8  there is no such table, or no plan of it within the limits

more: docs/PAGES.md";

const CSV_NOTES: &str = "Exit status, beside those of all commands:
  8  there is no such table, or no plan of it within the limits

more: docs/DATA.md";

const COSTS_NOTES: &str = "Exit status, beside those of all commands:
  1  some line of the script is refused (the costs are written)

more: docs/DATA.md";

const CATALOG_NOTES: &str = "Exit status, beside those of all commands:
  1  some line of the script is refused (the catalog is printed)

more: docs/CATALOG.md";

// The word that names a table.
fn table_word<'a>(alloc: Global) -> Arg<'a> {
    word(alloc, "TABLE", "the name of a table of the script")
}

// A command of a dump and a script, which may be left out.
fn with_dump<'a>(alloc: Global, command: Command<'a>) -> Result<Command<'a>, AllocError> {
    command
        .arg(dump_word(alloc))?
        .arg(script_word(alloc).required(false))
}

fn page<'a>(alloc: Global) -> Result<Command<'a>, AllocError> {
    let icons = option(
        alloc,
        "icons",
        "DIR",
        "pictures of things: the game's folder script-output behind factorio --dump-icon-sprites",
    );
    let command = command(
        alloc,
        "page",
        "Writes all that the script asks as one page of HTML, with flow charts",
        "more: docs/PAGES.md",
    )?;
    with_files(alloc, command)?.arg(icons)
}

fn flow<'a>(alloc: Global) -> Result<Command<'a>, AllocError> {
    let command = command(
        alloc,
        "flow",
        "Writes the plan of a table as a graph for Graphviz",
        FLOW_NOTES,
    )?;
    with_files(alloc, command)?.arg(table_word(alloc))
}

fn json<'a>(alloc: Global) -> Result<Command<'a>, AllocError> {
    let command = command(
        alloc,
        "json",
        "Writes the reply to each line as an object of JSON, for other programs",
        "more: docs/DATA.md",
    )?;
    with_files(alloc, command)
}

fn csv<'a>(alloc: Global) -> Result<Command<'a>, AllocError> {
    let command = command(
        alloc,
        "csv",
        "Writes a table with its plan as comma-separated values, for spreadsheets",
        CSV_NOTES,
    )?;
    with_files(alloc, command)?.arg(table_word(alloc))
}

fn costs<'a>(alloc: Global) -> Result<Command<'a>, AllocError> {
    let json = flag(
        alloc,
        "json",
        "JSON Lines in place of comma-separated values",
    );
    let command = command(
        alloc,
        "costs",
        "Writes what a unit of each reached good takes, as an estimate",
        COSTS_NOTES,
    )?;
    with_dump(alloc, command)?.arg(json)
}

fn catalog<'a>(alloc: Global) -> Result<Command<'a>, AllocError> {
    let command = command(
        alloc,
        "catalog",
        "Prints the game, as the lines of SCRIPT leave it, as one object of JSON",
        CATALOG_NOTES,
    )?;
    with_dump(alloc, command)
}

/// A command with the commands that ask for an output below it.
///
/// # Errors
///
/// `AllocError` where memory could not be had.
pub fn with_outputs<'a>(alloc: Global, command: Command<'a>) -> Result<Command<'a>, AllocError> {
    command
        .subcommand(page(alloc)?)?
        .subcommand(flow(alloc)?)?
        .subcommand(json(alloc)?)?
        .subcommand(csv(alloc)?)?
        .subcommand(costs(alloc)?)?
        .subcommand(catalog(alloc)?)
}

/// The table that is asked for.
pub fn asked_table<'a>(matches: &ArgMatches<'a>) -> &'a str {
    matches.get_str("TABLE").unwrap_or("")
}

/// How costs are written.
pub fn asked_form(matches: &ArgMatches<'_>) -> Form {
    if matches.get_flag("json") {
        Form::Json
    } else {
        Form::Csv
    }
}
