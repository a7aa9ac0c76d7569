//! A line as its words.
ghost use Rattle.std.specs.Prelude.{◌≡◌, ◌≢◌, ◌⊎◌, ◌++◌, ◌∷◌, [], List, ℕ, None, Some, Err, IfErr, IfOk, MatchOption};
ghost use Rattle.std.specs.Str.{IsUtf8};
ghost use Rattle.script_reader.specs.Words.{escaped, ends_word, is_plain, is_separator};
ghost use Rattle.script_reader.specs.Scan.{behind_by, first_word, front_by, unquote, AreFront};
ghost use Rattle.script_reader.specs.Reading.{Answers};
ghost use Rattle.script_reader.specs.Lines.{begins_comment, spelled, IsQuotingFault};

use crate::ScriptFault;
use plan_base::{Items, Text};
use std::alloc::Global;

fn is_separator(byte: u8) -> bool
    ensures { result ≡ is_separator byte }
{
    byte == b' ' || byte == b'\t'
}

fn is_plain(byte: u8) -> bool
    ensures { result ≡ is_plain byte }
{
    !(is_separator(byte) || byte == b'"')
}

// What stands behind the separators at the front.
pub fn behind_separators(line: &[u8]) -> &[u8]
    ensures { result.now ≡ behind_by is_separator line.now }
{
    let mut rest = line;
    while let Some((first, behind)) = rest.split_first() {
        if !is_separator(*first) {
            return rest;
        }
        rest = behind;
    }
    rest
}

/// Whether nothing is left, or a comment.
pub fn begins_comment(rest: &[u8]) -> bool
    ensures { result ≡ begins_comment rest.now }
{
    match rest.first() {
        Some(first) => *first == b'#',
        None => true,
    }
}

// What a letter behind a backslash stands for.
fn escaped(letter: u8) -> Option<u8>
    ensures { result ≡ escaped letter }
{
    match letter {
        b'"' => Some(b'"'),
        b'\\' => Some(b'\\'),
        b'n' => Some(b'\n'),
        b't' => Some(b'\t'),
        b'r' => Some(b'\r'),
        _ => None,
    }
}

// How many bytes at the front need no quotes.
fn plain_count(text: &[u8]) -> usize
    ensures { AreFront is_plain text.now result }
{
    let mut count = 0;
    while count < text.len() && is_plain(text[count]) {
        count += 1;
    }
    count
}

// The word behind an opening quote, and what stands behind the closing one.
fn quoted(alloc: Global, text: &[u8]) -> Result<(Vec<u8>, &[u8]), ScriptFault>
    ensures found { IfOk result (λ p. unquote text.now ≡ Some (p.0.items, p.1.now)) }
    ensures refused { result ≡ Err ScriptFault.BadQuoting → unquote text.now ≡ None }
    ensures only { IfErr result IsQuotingFault }
{
    let mut word = Vec::new(alloc);
    let mut rest = text;
    loop {
        let Some((first, behind)) = rest.split_first() else {
            return Err(ScriptFault::BadQuoting);
        };
        if *first == b'"' {
            return Ok((word, behind));
        }
        if *first == b'\\' {
            let Some((letter, further)) = behind.split_first() else {
                return Err(ScriptFault::BadQuoting);
            };
            let Some(byte) = escaped(*letter) else {
                return Err(ScriptFault::BadQuoting);
            };
            match word.push(byte) {
                Ok(()) => {}
                Err(_) => return Err(ScriptFault::NoMemory),
            }
            rest = further;
        } else {
            match word.push(*first) {
                Ok(()) => {}
                Err(_) => return Err(ScriptFault::NoMemory),
            }
            rest = behind;
        }
    }
}

// Whether a word may end before this.
fn ends_word(rest: &[u8]) -> bool
    ensures { result ≡ ends_word rest.now }
{
    match rest.first() {
        Some(first) => is_separator(*first),
        None => true,
    }
}

// A bare word, and what stands behind it.
fn bare(alloc: Global, text: &[u8]) -> Result<(Vec<u8>, &[u8]), ScriptFault>
    ensures found { IfOk result (λ p. (p.0.items ≡ front_by is_plain text.now) × (p.1.now ≡ behind_by is_plain text.now)) }
    ensures only { IfErr result (λ fault. fault ≡ ScriptFault.NoMemory) }
{
    let (front, behind) = text.split_at(plain_count(text));
    match Vec::from_slice(alloc, front) {
        Ok(word) => Ok((word, behind)),
        Err(_) => Err(ScriptFault::NoMemory),
    }
}

// The word at the front of what begins with no separator, and what stands behind it.
fn front_word(alloc: Global, text: &[u8]) -> Result<(Vec<u8>, &[u8]), ScriptFault>
    ensures found { IfOk result (λ p. first_word text.now ≡ Some (p.0.items, p.1.now)) }
    ensures refused { result ≡ Err ScriptFault.BadQuoting → first_word text.now ≡ None }
    ensures only { IfErr result IsQuotingFault }
{
    let Some((first, inner)) = text.split_first() else {
        return Err(ScriptFault::BadQuoting);
    };
    let found = if *first == b'"' {
        quoted(alloc, inner)
    } else {
        bare(alloc, text)
    };
    let (word, behind) = found?;
    if ends_word(behind) {
        Ok((word, behind))
    } else {
        Err(ScriptFault::BadQuoting)
    }
}

// Bytes as a text, where they are in UTF-8.
fn text_of_bytes(bytes: Vec<u8>) -> Option<Text>
    ensures { MatchOption result (¬ IsUtf8 bytes.items) (λ text. (text ≡ bytes.items) × IsUtf8 bytes.items) }
{
    match String::from_utf8(bytes) {
        Ok(text) => Some(Text::from_string(text)),
        Err(_) => None,
    }
}

/// The words of a line.
pub fn split_words(alloc: Global, line: &[u8]) -> Result<Items<Text>, ScriptFault>
    ensures { Answers (spelled line.now) result }
{
    let mut words = Vec::new(alloc);
    let mut rest = behind_separators(line);
    while !rest.is_empty() {
        let (bytes, behind) = front_word(alloc, rest)?;
        let Some(word) = text_of_bytes(bytes) else {
            return Err(ScriptFault::BadQuoting);
        };
        match words.push(word) {
            Ok(()) => {}
            Err(_) => return Err(ScriptFault::NoMemory),
        }
        rest = behind_separators(behind);
    }
    Ok(Items::from_vec(words))
}
