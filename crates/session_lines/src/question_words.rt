//! The words of a question: what the first asks for, and what those behind it are read as.
use crate::answers::refusal;
use crate::forced::Reading;
use plan_base::NoMemory;
use plan_lines::{Command, RefusalCode, Reply};
use script_reader::ScriptFault;
use script_runner::reading_of;
use std::alloc::Global;

/// What a question asks for, by its first word.
#[derive(Clone, Copy, Debug, PartialEq, Eq)]
pub enum Question {
    Catalog,
    State,
    Flow,
    WhyNot,
    Limits,
    Wish,
}

/// The first word of a line, and what stands behind it.
pub fn front_word(line: &[u8]) -> (&[u8], &[u8]) {
    for (place, byte) in line.iter().enumerate() {
        if *byte == b' ' || *byte == b'\t' {
            return line.split_at(place);
        }
    }
    (line, &[])
}

/// What a question asks for whose first word this is, where there is such a question.
pub fn asked_by(word: &[u8]) -> Option<Question> {
    match word {
        b"?catalog" => Some(Question::Catalog),
        b"?state" => Some(Question::State),
        b"?flow" => Some(Question::Flow),
        b"?why-not" => Some(Question::WhyNot),
        b"?limits" => Some(Question::Limits),
        b"?wish" => Some(Question::Wish),
        _ => None,
    }
}

// Words behind the word of a command of a script, as a line of it.
fn line_of(alloc: Global, command: &[u8], words: &[u8]) -> Result<Vec<u8>, NoMemory> {
    let mut line = Vec::new(alloc);
    line.extend_from_slice(command)?;
    line.extend_from_slice(words)?;
    Ok(line)
}

/// What the words of a question are read as behind the word of a command of a script.
pub fn read_as(alloc: Global, command: &[u8], words: &[u8]) -> Result<Reading, NoMemory> {
    let line = line_of(alloc, command, words)?;
    reading_of(alloc, line.as_slice())
}

// The code of what can't be read.
fn fault_code(fault: ScriptFault) -> RefusalCode {
    match fault {
        ScriptFault::UnknownCommand => RefusalCode::Q1,
        ScriptFault::WrongWords => RefusalCode::Q2,
        ScriptFault::BadNumber => RefusalCode::Q3,
        ScriptFault::BadQuoting => RefusalCode::Q4,
        ScriptFault::BadObject => RefusalCode::Q5,
        ScriptFault::NoMemory => RefusalCode::Q1,
    }
}

/// The refusal of what can't be read.
pub fn unread(reading: Reading) -> Reply {
    match reading {
        Err(fault) => refusal(fault_code(fault)),
        Ok(_) => refusal(RefusalCode::Q2),
    }
}

/// The refusal of words behind a question that takes none.
pub fn unwanted(alloc: Global, words: &[u8]) -> Result<Option<Reply>, NoMemory> {
    match read_as(alloc, b"milestones", words)? {
        Ok(Some(Command::Milestones)) => Ok(None),
        other => Ok(Some(unread(other))),
    }
}
