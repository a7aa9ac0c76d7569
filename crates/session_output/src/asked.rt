//! The words that ask for a session, as clap reads them.
use clap::Command;
use command_words::{command, dump_word};
use std::alloc::{AllocError, Global};

const NOTES: &str = "Exit status, beside those of all commands:
  1  some line of a script was refused

more: docs/SESSION.md";

/// The command that asks for a session.
///
/// # Errors
///
/// `AllocError` where memory could not be had.
pub fn session_command<'a>(alloc: Global) -> Result<Command<'a>, AllocError> {
    let command = command(
        alloc,
        "session",
        "Answers each line of standard input before it reads the next, as a planner that stays",
        NOTES,
    )?;
    command.arg(dump_word(alloc))
}
