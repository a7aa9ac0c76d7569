//! Which of some names a word is most like: the one to which least edits lead, whatever the case, and a dash for each
//! blank and underscore.
#![tactic(auto)]

ghost use Rattle.std.specs.Prelude.{◌≡◌, ◌≤◌, ◌<◌, ◌/◌, ◌↔◌, length, map, nat_lt, None, IfOk};
ghost use Rattle.std.specs.Bool.{IsTrue};
ghost use Rattle.std.specs.List.{IsFirstBest};
ghost use Rattle.line_causes.specs.Likeness.{IsNearest, edits, plain, plain_byte};

use plan_base::{NoMemory, Text};
use std::alloc::Global;
use strsim::generic_levenshtein;

// In bytes.
const LONGEST_WORD: usize = 200;

/// A name that is like a word: its place among the names, and how many edits lead from the word to it.
#[derive(Clone, Copy, Debug, PartialEq, Eq)]
pub struct Likeness {
    pub place: usize,
    pub edits: usize,
}

impl Likeness {
    /// Whether so few edits lead from a word to the name that it may have been meant: one for three bytes of the word.
    pub fn is_near(&self, word: &str) -> bool
        ensures { IsTrue result ↔ (self.now.edits ≤ length word.now / 3) }
    {
        self.edits <= word.len() / 3
    }
}

fn plain_byte(byte: u8) -> u8
    ensures { result ≡ plain_byte byte }
{
    if byte == b' ' || byte == b'_' {
        b'-'
    } else {
        byte.to_ascii_lowercase()
    }
}

fn plain(alloc: Global, text: &str) -> Result<Vec<u8>, NoMemory>
    ensures { IfOk result (λ bytes. bytes.items ≡ plain text.now) }
{
    let letters = text.as_bytes();
    let mut bytes = Vec::new(alloc);
    for byte in letters {
        bytes.push(plain_byte(*byte))?;
    }
    Ok(bytes)
}

// The edits from a word, of which the plain bytes are given, to a name.
fn edits_to(alloc: Global, word: &[u8], name: &str) -> Result<usize, NoMemory>
    ensures { IfOk result (λ count. count ≡ edits word.now (plain name.now)) }
{
    let name = plain(alloc, name)?;
    Ok(generic_levenshtein(alloc, word, name.as_slice())?)
}

fn all_edits(alloc: Global, word: &[u8], names: &[Text]) -> Result<Vec<usize>, NoMemory>
    ensures { IfOk result (λ counts. counts.items ≡ map (λ name. edits word.now (plain name)) names.now) }
{
    let mut counts = Vec::new(alloc);
    for name in names {
        counts.push(edits_to(alloc, word, name.as_str())?)?;
    }
    Ok(counts)
}

// The first place of the least number.
fn least(counts: &[usize]) -> usize
    requires { 0 < length counts.now }
    ensures { IsFirstBest nat_lt counts.now (length counts.now) result }
{
    let mut best = 0;
    for place in 1..counts.len() {
        if counts[place] < counts[best] {
            best = place;
        }
    }
    best
}

/// The first of the names to which least edits lead from a word. None where there are no names, or the word has more than 200 bytes: it would take
/// time by its length times those of all names.
///
/// # Errors
///
/// `NoMemory` where memory could not be had.
pub fn nearest(alloc: Global, word: &str, names: &[Text]) -> Result<Option<Likeness>, NoMemory>
    ensures short { length word.now ≤ 200 → IfOk result (IsNearest word.now names.now) }
    ensures long { 200 < length word.now → IfOk result (λ found. found ≡ None) }
{
    if word.len() > LONGEST_WORD {
        return Ok(None);
    }
    let word = plain(alloc, word)?;
    let counts = all_edits(alloc, word.as_slice(), names)?;
    if counts.is_empty() {
        return Ok(None);
    }
    let place = least(counts.as_slice());
    let edits = counts[place];
    Ok(Some(Likeness { place, edits }))
}
