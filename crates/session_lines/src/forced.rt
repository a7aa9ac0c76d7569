//! The lines in force: those of the entries of the history that are done, those of the entries that are undone, and those that an open
//! batch holds.
use plan_base::{NoMemory, Text};
use plan_lines::Command;
use script_reader::ScriptFault;
use std::alloc::Global;

/// A line's command, none where it is blank or a comment, or why it has none.
pub type Reading = Result<Option<Command>, ScriptFault>;

/// A line with its number.
#[derive(Drop)]
pub struct ForcedLine {
    pub number: u32,
    pub text: Text,
}

/// What a line does to the lines in force where it isn't refused.
#[derive(Clone, Copy, Debug, PartialEq, Eq)]
pub enum Deed {
    /// It asks, or it is blank.
    Nothing,
    /// It edits.
    Edit,
    Undo,
    Redo,
    Batch,
    End,
    Cancel,
    Quiet(bool),
}

fn deed_of_command(command: &Command) -> Deed {
    match command {
        Command::Change(_) => Deed::Edit,
        Command::Undo => Deed::Undo,
        Command::Redo => Deed::Redo,
        Command::Batch => Deed::Batch,
        Command::End => Deed::End,
        Command::Cancel => Deed::Cancel,
        Command::Quiet(on) => Deed::Quiet(*on),
        _ => Deed::Nothing,
    }
}

/// What a line does that is read so.
pub fn deed_of(reading: &Reading) -> Deed {
    match reading {
        Ok(Some(command)) => deed_of_command(command),
        _ => Deed::Nothing,
    }
}

/// The lines in force.
#[derive(Drop)]
pub struct Forced {
    alloc: Global,
    /// The lines of each entry that is done.
    pub done: Vec<Vec<ForcedLine>>,
    /// The lines of each entry that is undone, the next to be done again last.
    pub undone: Vec<Vec<ForcedLine>>,
    /// The lines that an open batch holds.
    pub batch: Option<Vec<ForcedLine>>,
    pub quiet: bool,
}

impl Forced {
    /// No lines.
    pub fn new(alloc: Global) -> Forced {
        Forced {
            alloc,
            done: Vec::new(alloc),
            undone: Vec::new(alloc),
            batch: None,
            quiet: false,
        }
    }

    // One more entry.
    fn enter(&mut self, entry: Vec<ForcedLine>) -> Result<(), NoMemory> {
        self.done.push(entry)?;
        self.undone = Vec::new(self.alloc);
        Ok(())
    }

    // One more entry of one line.
    fn enter_line(&mut self, line: ForcedLine) -> Result<(), NoMemory> {
        let mut entry = Vec::new(self.alloc);
        entry.push(line)?;
        self.enter(entry)
    }

    // An edit, which an open batch holds.
    fn edit(&mut self, line: ForcedLine) -> Result<(), NoMemory> {
        match &mut self.batch {
            Some(held) => {
                held.push(line)?;
                Ok(())
            }
            None => self.enter_line(line),
        }
    }

    // The batch as an entry, unless it is empty.
    fn end(&mut self) -> Result<(), NoMemory> {
        match self.batch.take() {
            Some(held) => {
                if held.is_empty() {
                    Ok(())
                } else {
                    self.enter(held)
                }
            }
            None => Ok(()),
        }
    }

    fn undo(&mut self) -> Result<(), NoMemory> {
        if let Some(entry) = self.done.pop() {
            self.undone.push(entry)?;
        }
        Ok(())
    }

    fn redo(&mut self) -> Result<(), NoMemory> {
        if let Some(entry) = self.undone.pop() {
            self.done.push(entry)?;
        }
        Ok(())
    }

    /// Notes a line that was done.
    ///
    /// # Errors
    ///
    /// `NoMemory` where memory could not be had.
    pub fn note(&mut self, deed: Deed, number: u32, line: &str) -> Result<(), NoMemory> {
        match deed {
            Deed::Nothing => Ok(()),
            Deed::Edit => {
                let text = Text::copy(self.alloc, line)?;
                self.edit(ForcedLine { number, text })
            }
            Deed::Undo => self.undo(),
            Deed::Redo => self.redo(),
            Deed::Batch => {
                self.batch = Some(Vec::new(self.alloc));
                Ok(())
            }
            Deed::End => self.end(),
            Deed::Cancel => {
                self.batch = None;
                Ok(())
            }
            Deed::Quiet(on) => {
                self.quiet = on;
                Ok(())
            }
        }
    }

    /// Notes a line that was refused: a refused `end` drops what the batch holds.
    pub fn note_refused(&mut self, deed: Deed) {
        if deed == Deed::End {
            self.batch = None;
        }
    }
}
