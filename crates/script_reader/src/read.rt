//! One line of the script.
ghost use Rattle.script_reader.specs.Reading.{Answers};
ghost use Rattle.script_reader.specs.Lines.{command_of_line, command_spelled, utf8};

use crate::ScriptFault;
use crate::commands::read_words;
use crate::split::{begins_comment, behind_separators, split_words};
use plan_lines::Command;
use std::alloc::Global;
use std::str::from_utf8;

fn check_utf8(line: &[u8]) -> Result<(), ScriptFault>
    ensures { Answers (utf8 line.now) result }
{
    match from_utf8(line) {
        Ok(_) => Ok(()),
        Err(_) => Err(ScriptFault::BadQuoting),
    }
}

fn read_command(alloc: Global, line: &[u8]) -> Result<Option<Command>, ScriptFault>
    ensures { Answers (command_spelled line.now) result }
{
    let words = split_words(alloc, line)?;
    let command = read_words(alloc, words.as_slice())?;
    Ok(Some(command))
}

/// The command of a line, or none where the line is blank or a comment.
///
/// # Errors
///
/// The first of these that the line has. `BadQuoting` where it is not in UTF-8 or a word is badly quoted, `UnknownCommand`
/// where the first word is no command, `WrongWords` where the number of words is wrong or a fixed word is missing, and then
/// word by word `BadObject` and `BadNumber`. `NoMemory` where memory could not be had.
pub fn read_line(alloc: Global, line: &[u8]) -> Result<Option<Command>, ScriptFault>
    ensures { Answers (command_of_line line.now) result }
{
    check_utf8(line)?;
    if begins_comment(behind_separators(line)) {
        Ok(None)
    } else {
        read_command(alloc, line)
    }
}
