//! The words and the options of a wish, as clap reads them.
use clap::{Arg, ArgAction, Command};
use command_words::{flag, option};
use std::alloc::{AllocError, Global};

static BEACON_NAMES: [&str; 4] = ["MACHINE", "COUNT", "SHARE", "ITEM"];

static WISH_NAMES: [&str; 2] = ["GOOD", "RATE"];

// An option with a value behind its name, which may stand several times.
fn options<'a>(alloc: Global, id: &'a str, value: &'a str, help: &'a str) -> Arg<'a> {
    option(alloc, id, value, help).action(ArgAction::Append)
}

fn wishes<'a>(alloc: Global) -> Arg<'a> {
    Arg::new(alloc, "wish")
        .value_names(WISH_NAMES.as_slice())
        .num_args(1..)
        .help(
            "item:NAME, fluid:NAME, tech:NAME or special:electricity, and units a second, as 5, 1/3, 45/min or 2.5k/h",
        )
}

fn beacon<'a>(alloc: Global) -> Arg<'a> {
    Arg::new(alloc, "beacon")
        .long("beacon")
        .num_args(4)
        .value_names(BEACON_NAMES.as_slice())
        .help(
            "COUNT beacons round each machine that takes them, each shared by SHARE machines and full of ITEM",
        )
}

// What is wished for.
fn with_wishes<'a>(alloc: Global, command: Command<'a>) -> Result<Command<'a>, AllocError> {
    command
        .arg(wishes(alloc))?
        .arg(option(
            alloc,
            "belt",
            "ITEM",
            "a good that has no rate fills this belt",
        ))?
        .arg(option(alloc, "table", "NAME", "the name of the table").default_value("wish"))
}

// More rows for a table that stands.
fn with_more<'a>(alloc: Global, command: Command<'a>) -> Result<Command<'a>, AllocError> {
    let good = option(
        alloc,
        "rows-for",
        "GOOD",
        "more rows for a table: those that make this good",
    )
    .requires_arg("into")?;
    let table = option(alloc, "into", "TABLE", "the table that gets more rows").requires_arg(
        "rows-for",
    )?;
    command.arg(good)?.arg(table)
}

// How the machines are set up.
fn with_machines<'a>(alloc: Global, command: Command<'a>) -> Result<Command<'a>, AllocError> {
    command
        .arg(options(
            alloc,
            "by",
            "MACHINE",
            "a machine to take before faster ones; may stand several times",
        ))?
        .arg(options(
            alloc,
            "module",
            "ITEM",
            "the module that fills each machine that takes it; a second where the first isn't allowed",
        ))?
        .arg(beacon(alloc))?
        .arg(option(
            alloc,
            "fuel",
            "ITEM",
            "the fuel of each burner that takes it",
        ))
}

// Which recipes are rows.
fn with_recipes<'a>(alloc: Global, command: Command<'a>) -> Result<Command<'a>, AllocError> {
    command
        .arg(options(
            alloc,
            "without",
            "RECIPE",
            "a recipe that is no row; may stand several times",
        ))?
        .arg(options(
            alloc,
            "only",
            "RECIPE",
            "what this recipe gives is made by no other; may stand several times",
        ))?
        .arg(option(
            alloc,
            "rows",
            "N",
            "the most rows, 40 where no number is named",
        ))?
        .arg(option(
            alloc,
            "cheapest",
            "WHAT",
            "the plan takes least of this: power, pollution or machines",
        ))
}

// Where the walk back ends.
fn with_ends<'a>(alloc: Global, command: Command<'a>) -> Result<Command<'a>, AllocError> {
    command
        .arg(options(
            alloc,
            "import",
            "GOOD=PRICE",
            "take a good as it is, at a price of one unit; may stand several times",
        ))?
        .arg(flag(alloc, "dig", "mine what sources give"))?
        .arg(flag(alloc, "power", "make the electric power in the table"))
}

/// A command with the words and the options of a wish behind its own.
///
/// # Errors
///
/// `AllocError` where memory could not be had.
pub fn with_wish<'a>(alloc: Global, command: Command<'a>) -> Result<Command<'a>, AllocError> {
    let command = with_wishes(alloc, command)?;
    let command = with_more(alloc, command)?;
    let command = with_machines(alloc, command)?;
    let command = with_recipes(alloc, command)?;
    with_ends(alloc, command)
}

/// The command of a question in a session, whose dump and script are known: its words are those of a wish alone.
///
/// # Errors
///
/// `AllocError` where memory could not be had.
pub fn question<'a>(alloc: Global) -> Result<Command<'a>, AllocError> {
    let command = Command::new(alloc, "?wish").about(
        "Tells the lines of a script that make a table of each GOOD at RATE a second",
    );
    with_wish(alloc, command)
}
