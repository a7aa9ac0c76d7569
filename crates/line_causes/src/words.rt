use plan_base::{NoMemory, Text};
use std::alloc::Global;
use std::str::from_utf8;

/// How a line is no line of words.
#[derive(Clone, Copy, Debug, PartialEq, Eq)]
pub enum QuoteFault {
    /// It is not in UTF-8.
    NotUtf8,
    /// A quote stands in a word that has none at its front.
    Within,
    /// A quote is not closed.
    Open,
    /// A word goes on behind its closing quote.
    Behind,
    /// A backslash stands before a letter that it may not stand before.
    Escape,
}

/// A word of a line, and the column at which it begins.
#[derive(Drop)]
pub struct LineWord {
    pub column: usize,
    pub text: Text,
}

/// Where a line is no line of words, where that can be told, and how.
#[derive(Clone, Copy, Debug, PartialEq, Eq)]
pub struct Unread {
    pub column: Option<usize>,
    pub fault: QuoteFault,
}

// Where in a word a line is.
#[derive(Clone, Copy)]
enum State {
    Between,
    Bare,
    Quoted,
    Escaped,
    Closed,
}

// The words so far, and the one that is read.
#[derive(Drop)]
struct Scan {
    alloc: Global,
    words: Vec<LineWord>,
    bytes: Vec<u8>,
    begun: usize,
    state: State,
}

fn is_separator(byte: u8) -> bool {
    byte == b' ' || byte == b'\t'
}

// What a letter behind a backslash stands for.
fn escaped(letter: u8) -> Option<u8> {
    match letter {
        b'"' | b'\\' => Some(letter),
        b'n' => Some(b'\n'),
        b't' => Some(b'\t'),
        b'r' => Some(b'\r'),
        _ => None,
    }
}

impl Scan {
    fn make(alloc: Global) -> Scan {
        Scan {
            alloc,
            words: Vec::new(alloc),
            bytes: Vec::new(alloc),
            begun: 0,
            state: State::Between,
        }
    }

    // Ends the word that is read.
    fn end_word(&mut self) -> Result<(), NoMemory> {
        let text = match from_utf8(&self.bytes) {
            Ok(text) => Text::copy(self.alloc, text)?,
            Err(_) => Text::copy(self.alloc, "")?,
        };
        let column = self.begun;
        self.words.push(LineWord { column, text })?;
        self.bytes.clear();
        self.state = State::Between;
        Ok(())
    }

    fn push(&mut self, byte: u8, state: State) -> Result<Option<QuoteFault>, NoMemory> {
        self.bytes.push(byte)?;
        self.state = state;
        Ok(None)
    }

    fn between(&mut self, column: usize, byte: u8) -> Result<Option<QuoteFault>, NoMemory> {
        if is_separator(byte) {
            return Ok(None);
        }
        self.begun = column;
        if byte == b'"' {
            self.state = State::Quoted;
            Ok(None)
        } else {
            self.push(byte, State::Bare)
        }
    }

    fn bare(&mut self, byte: u8) -> Result<Option<QuoteFault>, NoMemory> {
        if is_separator(byte) {
            self.end_word()?;
            return Ok(None);
        }
        if byte == b'"' {
            Ok(Some(QuoteFault::Within))
        } else {
            self.push(byte, State::Bare)
        }
    }

    fn quoted(&mut self, byte: u8) -> Result<Option<QuoteFault>, NoMemory> {
        match byte {
            b'"' => {
                self.state = State::Closed;
                Ok(None)
            }
            b'\\' => {
                self.state = State::Escaped;
                Ok(None)
            }
            _ => self.push(byte, State::Quoted),
        }
    }

    fn escape(&mut self, byte: u8) -> Result<Option<QuoteFault>, NoMemory> {
        match escaped(byte) {
            Some(letter) => self.push(letter, State::Quoted),
            None => Ok(Some(QuoteFault::Escape)),
        }
    }

    fn closed(&mut self, byte: u8) -> Result<Option<QuoteFault>, NoMemory> {
        if is_separator(byte) {
            self.end_word()?;
            Ok(None)
        } else {
            Ok(Some(QuoteFault::Behind))
        }
    }

    // Reads one byte more.
    fn step(&mut self, column: usize, byte: u8) -> Result<Option<QuoteFault>, NoMemory> {
        match self.state {
            State::Between => self.between(column, byte),
            State::Bare => self.bare(byte),
            State::Quoted => self.quoted(byte),
            State::Escaped => self.escape(byte),
            State::Closed => self.closed(byte),
        }
    }

    // Whether the line ends within quotes, where its last word is ended.
    fn end(&mut self) -> Result<bool, NoMemory> {
        match self.state {
            State::Between => Ok(false),
            State::Bare | State::Closed => {
                self.end_word()?;
                Ok(false)
            }
            State::Quoted | State::Escaped => Ok(true),
        }
    }
}

/// The words of a line, or how it is no line of words.
///
/// # Errors
///
/// `NoMemory` where memory could not be had.
pub fn words_of(alloc: Global, line: &[u8]) -> Result<Result<Vec<LineWord>, Unread>, NoMemory> {
    if from_utf8(line).is_err() {
        return Ok(Err(Unread {
            column: None,
            fault: QuoteFault::NotUtf8,
        }));
    }
    let mut scan = Scan::make(alloc);
    let mut column: usize = 0;
    for byte in line {
        column = column.saturating_add(1);
        if let Some(fault) = scan.step(column, *byte)? {
            return Ok(Err(Unread {
                column: Some(column),
                fault,
            }));
        }
    }
    if scan.end()? {
        let column = Some(scan.begun);
        return Ok(Err(Unread {
            column,
            fault: QuoteFault::Open,
        }));
    }
    Ok(Ok(scan.words))
}
