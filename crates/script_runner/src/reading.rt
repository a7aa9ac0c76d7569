//! What a line is read as.
ghost use Rattle.std.specs.Prelude.{◌≡◌, IfOk};
ghost use Rattle.script_reader.specs.Lines.{command_of_line};
ghost use Rattle.planner_core.specs.Replies.{refused_as};
ghost use Rattle.script_runner.specs.Answers.{fault_code, is_no_memory};

use plan_base::NoMemory;
use plan_lines::{Command, Detail, RefusalCode, Reply};
use script_reader::{ScriptFault, read_line};
use std::alloc::Global;

/// A line's command, none where it is blank or a comment, or why it has none; never want of memory.
pub type Reading = Result<Option<Command>, ScriptFault>;

fn is_no_memory(fault: ScriptFault) -> bool
    ensures { result ≡ is_no_memory fault }
{
    match fault {
        ScriptFault::NoMemory => true,
        _ => false,
    }
}

/// Reads a line.
///
/// # Errors
///
/// `NoMemory` where memory could not be had.
pub fn reading_of(alloc: Global, line: &[u8]) -> Result<Reading, NoMemory>
    ensures { IfOk result (λ reading. command_of_line line.now reading) }
{
    match read_line(alloc, line) {
        Ok(command) => Ok(Ok(command)),
        Err(fault) => {
            if is_no_memory(fault) {
                Err(NoMemory)
            } else {
                Ok(Err(fault))
            }
        }
    }
}

/// The code of a line that can't be read.
pub fn fault_code(fault: ScriptFault) -> RefusalCode
    ensures { result ≡ fault_code fault }
{
    match fault {
        ScriptFault::UnknownCommand => RefusalCode::Q1,
        ScriptFault::WrongWords => RefusalCode::Q2,
        ScriptFault::BadNumber => RefusalCode::Q3,
        ScriptFault::BadQuoting => RefusalCode::Q4,
        ScriptFault::BadObject => RefusalCode::Q5,
        ScriptFault::NoMemory => RefusalCode::Q1,
    }
}

/// The reply to a line that can't be read.
pub fn refused_for(fault: ScriptFault) -> Reply
    ensures { result ≡ refused_as (fault_code fault) }
{
    Reply::Refused {
        code: fault_code(fault),
        detail: Detail::Bare,
        at: None,
    }
}
