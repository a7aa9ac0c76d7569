//! What a session keeps beside its planner, and how it answers a line.
use crate::forced::Forced;
use crate::questions::answer_question;
use crate::script::{Told, answer_script};
use crate::wishes::Wishes;
use catalog_text::ShownFields;
use plan_base::{NoMemory, Steps, Text};
use planner_core::Planner;
use std::alloc::Global;
use std::str::from_utf8;

/// The most lines that the script of a session may have.
pub const LINES: u32 = 100_000;

/// The most bytes that the lines of the script of a session may have, newlines among them, and that one line may have.
pub const BYTES: usize = 16_777_216;

/// How a session ends.
#[derive(Clone, Copy, Debug, PartialEq, Eq)]
pub enum SessionEnd {
    /// The input ended, and no line of the script was refused.
    Done,
    /// The input ended, and some line of the script was refused.
    SomeRefused,
    ReadFault,
    WriteFault,
    NoMemory,
    /// The script has more lines than it may have.
    TooManyLines,
    /// The lines of the script, or one line, have more bytes than they may have.
    TooManyBytes,
}

/// What a session keeps beside its planner.
#[derive(Drop)]
pub struct Session<W> {
    forced: Forced,
    shown: ShownFields,
    wishes: W,
    /// How many lines of the script came.
    number: u32,
    /// How many bytes they have.
    bytes: usize,
    /// Whether some line of the script was refused.
    refused: bool,
}

impl<W: Wishes> Session<W> {
    /// A session before its first line.
    pub fn new(alloc: Global, shown: ShownFields, wishes: W) -> Session<W> {
        Session {
            forced: Forced::new(alloc),
            shown,
            wishes,
            number: 0,
            bytes: 0,
            refused: false,
        }
    }

    // Notes what a line of the script did.
    fn note(&mut self, told: &Told, number: u32, line: &[u8]) -> Result<(), NoMemory> {
        if told.refused {
            self.refused = true;
            self.forced.note_refused(told.deed);
            return Ok(());
        }
        let text = from_utf8(line).unwrap_or("");
        self.forced.note(told.deed, number, text)
    }

    // Counts a line of the script of so many bytes. Answers its number.
    fn count(&mut self, bytes: usize) -> Result<u32, SessionEnd> {
        if self.number >= LINES {
            return Err(SessionEnd::TooManyLines);
        }
        self.bytes = self.bytes.saturating_add(bytes);
        if self.bytes > BYTES {
            return Err(SessionEnd::TooManyBytes);
        }
        self.number += 1;
        Ok(self.number)
    }

    /// How a session ends whose input has ended.
    pub fn end(&self) -> SessionEnd {
        if self.refused {
            SessionEnd::SomeRefused
        } else {
            SessionEnd::Done
        }
    }
}

// Answers the line of a script with this number.
fn answer_numbered<W: Wishes, L>(
    alloc: Global,
    planner: &mut Planner,
    session: &mut Session<W>,
    number: u32,
    line: &[u8],
    steps: &mut Steps<L>,
) -> Result<Text, NoMemory> {
    let told = answer_script(alloc, planner, number, line, steps)?;
    session.note(&told, number, line)?;
    let Told {
        text,
        refused: _,
        deed: _,
    } = told;
    Ok(text)
}

fn or_end(answer: Result<Text, NoMemory>) -> Result<Text, SessionEnd> {
    match answer {
        Ok(text) => Ok(text),
        Err(NoMemory) => Err(SessionEnd::NoMemory),
    }
}

fn is_question(line: &[u8]) -> bool {
    match line.first() {
        Some(first) => *first == b'?',
        None => false,
    }
}

/// Answers a line, which came with so many bytes.
pub fn answer<W: Wishes, L>(
    alloc: Global,
    planner: &mut Planner,
    session: &mut Session<W>,
    line: &[u8],
    bytes: usize,
    steps: &mut Steps<L>,
) -> Result<Text, SessionEnd> {
    if is_question(line) {
        let answer = answer_question(
            alloc,
            planner,
            &session.forced,
            &session.shown,
            &session.wishes,
            line,
            steps,
        );
        return or_end(answer);
    }
    let number = session.count(bytes)?;
    or_end(answer_numbered(alloc, planner, session, number, line, steps))
}
