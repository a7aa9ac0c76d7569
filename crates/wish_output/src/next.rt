//! The command that goes on from what is printed.
use std::alloc::{AllocError, Global};

// Whether a byte of a word stands for itself in a shell.
fn is_plain(byte: u8) -> bool {
    byte.is_ascii_alphanumeric() || matches!(byte, b'/' | b'.' | b'-' | b'_' | b'+' | b'@')
}

fn is_control(byte: u8) -> bool {
    byte < 32 || byte == 127
}

fn push_letter(letter: char, text: &mut String) -> Result<(), AllocError> {
    if letter == '\'' {
        text.push_str("'\\''")?;
    } else {
        text.push(letter)?;
    }
    Ok(())
}

// A word between quotes of a shell.
fn quoted(alloc: Global, word: &str) -> Result<String, AllocError> {
    let mut text = String::new(alloc);
    text.push('\'')?;
    for letter in word.chars() {
        push_letter(letter, &mut text)?;
    }
    text.push('\'')?;
    Ok(text)
}

// A word as a shell takes it, on one line.
fn shell_word(alloc: Global, word: &str) -> Result<String, AllocError> {
    if !word.is_empty() && word.bytes().all(|byte| is_plain(byte)) {
        String::from_str(alloc, word)
    } else if word.bytes().any(|byte| is_control(byte)) {
        String::from_str(alloc, "DUMP")
    } else {
        quoted(alloc, word)
    }
}

/// The words that ask for more rows of the table, by the name of its dump. What is printed stands in a file that they call `FILE`, since they can't know its name.
///
/// # Errors
///
/// `AllocError` where memory could not be had.
pub fn command_for(alloc: Global, dump: &str) -> Result<String, AllocError> {
    let dump = shell_word(alloc, dump)?;
    format!(in alloc; "factoplan table {dump} --script FILE")
}
