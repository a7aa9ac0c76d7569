//! The words that ask for a table, as clap reads them.
use clap::{Arg, Command};
use command_words::{command, dump_word};
use std::alloc::{AllocError, Global};
use wish_words::with_wish;

const NOTES: &str = "Exit status, beside those of all commands:
  1  a line of the script is refused, a batch is open behind it, or it has a table of the name
  8  the good can't be made, or no table that was tried has a plan

more: docs/WISH.md";

/// The command that asks for a table.
///
/// # Errors
///
/// `AllocError` where memory could not be had.
pub fn table_command<'a>(alloc: Global) -> Result<Command<'a>, AllocError> {
    let script = Arg::new(alloc, "SCRIPT")
        .long("script")
        .value_name("FILE")
        .help("lines that come first");
    let command = command(
        alloc,
        "table",
        "Writes the lines of a script that make a table for RATE units of each GOOD a second",
        NOTES,
    )?;
    with_wish(alloc, command.arg(dump_word(alloc))?.arg(script)?)
}
