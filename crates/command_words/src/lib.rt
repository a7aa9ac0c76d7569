//! What the commands of the program are made of: their names, words and options, as clap reads them.
#![tactic(auto)]

use clap::{Arg, ArgAction, Command};
use std::alloc::{AllocError, Global};

/// The name of the program.
pub const PROGRAM: &str = "factoplan";

/// A command of the program, with what it does and what its help says at its end.
///
/// # Errors
///
/// `AllocError` where memory could not be had.
pub fn command<'a>(
    alloc: Global,
    name: &'a str,
    about: &'a str,
    notes: &'a str,
) -> Result<Command<'a>, AllocError> {
    Command::new(alloc, name)
        .about(about)
        .after_help(notes)
        .display_name(PROGRAM)
}

/// A word that must be there.
pub fn word<'a>(alloc: Global, name: &'a str, help: &'a str) -> Arg<'a> {
    Arg::new(alloc, name).required(true).help(help)
}

/// The word that names the dump of a run.
pub fn dump_word<'a>(alloc: Global) -> Arg<'a> {
    word(
        alloc,
        "DUMP",
        "the file data-raw-dump.json that factorio --dump-data writes",
    )
}

/// The word that names the script of a run.
pub fn script_word<'a>(alloc: Global) -> Arg<'a> {
    word(
        alloc,
        "SCRIPT",
        "a file with a command a line; may be /dev/stdin",
    )
}

/// An option with a value behind its name.
pub fn option<'a>(alloc: Global, name: &'a str, value: &'a str, help: &'a str) -> Arg<'a> {
    Arg::new(alloc, name)
        .long(name)
        .value_name(value)
        .help(help)
}

/// An option with no value.
pub fn flag<'a>(alloc: Global, name: &'a str, help: &'a str) -> Arg<'a> {
    Arg::new(alloc, name)
        .long(name)
        .action(ArgAction::SetTrue)
        .help(help)
}

/// A command of a dump and a script.
///
/// # Errors
///
/// `AllocError` where memory could not be had.
pub fn with_files<'a>(alloc: Global, command: Command<'a>) -> Result<Command<'a>, AllocError> {
    command.arg(dump_word(alloc))?.arg(script_word(alloc))
}
