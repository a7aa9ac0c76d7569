//! Words as they are printed.
ghost use Rattle.std.specs.Prelude.{◌≡◌, ◌++◌, ◌∷◌, [], IfOk, OnOk, encode_utf8, not, string_bytes};
ghost use Rattle.std.specs.List.{flat_map, list_all};
ghost use Rattle.script_reader.specs.Fields.{kind_word};
ghost use Rattle.plan_report.specs.Words.{in_quotes, is_bare, needs_quotes, object_word, printed_word, quoted};

use plan_base::Kind;
use std::alloc::{AllocError, Global};

/// The word that stands before the colon in the name of an object.
pub fn kind_word(kind: Kind) -> &'static str
    ensures { result.now ≡ kind_word kind }
{
    match kind {
        Kind::Special => "special",
        Kind::Item => "item",
        Kind::Fluid => "fluid",
        Kind::Recipe => "recipe",
        Kind::Source => "source",
        Kind::Machine => "machine",
        Kind::Tech => "tech",
    }
}

// Whether a byte stands between quotes alone.
fn needs_quotes(byte: u8) -> bool
    ensures { result ≡ needs_quotes byte }
{
    byte == b' ' || byte == b'\t' || byte == b'\n' || byte == b'\r' || byte == b'"' || byte == b'\\'
}

// Whether no byte stands between quotes alone.
fn need_no_quotes(bytes: &[u8]) -> bool
    ensures { result ≡ list_all (λ byte. not (needs_quotes byte)) bytes.now }
{
    bytes.iter().all(|byte| !needs_quotes(*byte))
}

// Whether the word is printed as it is.
fn is_bare(word: &[u8]) -> bool
    ensures { result ≡ is_bare word.now }
{
    match word.first() {
        Some(first) => *first != b'#' && need_no_quotes(word),
        None => false,
    }
}

fn push_in_quotes(text: &mut String, letter: char) -> Result<(), AllocError>
    ensures { OnOk result (string_bytes text.new ≡ string_bytes text.old ++ flat_map in_quotes (encode_utf8 letter)) }
{
    match letter {
        '"' => text.push_str("\\\""),
        '\\' => text.push_str("\\\\"),
        '\n' => text.push_str("\\n"),
        '\t' => text.push_str("\\t"),
        '\r' => text.push_str("\\r"),
        _ => text.push(letter),
    }
}

// The word between quotes.
fn quoted(alloc: Global, word: &str) -> Result<String, AllocError>
    ensures { IfOk result (λ text. string_bytes text ≡ quoted word.now) }
{
    let mut text = String::new(alloc);
    text.push('"')?;
    for letter in word.chars() {
        push_in_quotes(&mut text, letter)?;
    }
    text.push('"')?;
    Ok(text)
}

// Puts the word between quotes behind a text.
fn push_quoted(alloc: Global, text: &mut String, word: &str) -> Result<(), AllocError>
    ensures { OnOk result (string_bytes text.new ≡ string_bytes text.old ++ quoted word.now) }
{
    let word = quoted(alloc, word)?;
    text.push_str(word.as_str())
}

/// Puts the word behind a text as it is printed: as it is, or between quotes where a reader of words would not take it as one word as it is.
#[tactic(auto, unfolding(crate::specs::Words::printed_word))]
pub fn push_printed_word(alloc: Global, text: &mut String, word: &str) -> Result<(), AllocError>
    ensures { OnOk result (string_bytes text.new ≡ string_bytes text.old ++ printed_word word.now) }
{
    if is_bare(word.as_bytes()) {
        text.push_str(word)
    } else {
        push_quoted(alloc, text, word)
    }
}

/// The word as it is printed.
pub fn printed_word(alloc: Global, word: &str) -> Result<String, AllocError>
    ensures { IfOk result (λ text. string_bytes text ≡ printed_word word.now) }
{
    let mut text = String::new(alloc);
    push_printed_word(alloc, &mut text, word)?;
    Ok(text)
}

// The kind of an object and the colon behind it.
fn kind_start(kind: Kind) -> &'static str
    ensures { result.now ≡ kind_word kind ++ 58 ∷ [] }
{
    match kind {
        Kind::Special => "special:",
        Kind::Item => "item:",
        Kind::Fluid => "fluid:",
        Kind::Recipe => "recipe:",
        Kind::Source => "source:",
        Kind::Machine => "machine:",
        Kind::Tech => "tech:",
    }
}

// Puts the name of an object behind a text as it is.
fn push_bare_object(text: &mut String, kind: Kind, name: &str) -> Result<(), AllocError>
    ensures { OnOk result (string_bytes text.new ≡ string_bytes text.old ++ (kind_word kind ++ 58 ∷ name.now)) }
{
    text.push_str(kind_start(kind))?;
    text.push_str(name)
}

// The name of an object between quotes.
fn quoted_object(alloc: Global, kind: Kind, name: &str) -> Result<String, AllocError>
    ensures { IfOk result (λ text. string_bytes text ≡ quoted (kind_word kind ++ 58 ∷ name.now)) }
{
    let kind = kind_word(kind);
    let word = format!(in alloc; "{kind}:{name}")?;
    quoted(alloc, word.as_str())
}

#[tactic(auto, using(crate::proofs::WordLemmas::bare_object, crate::proofs::WordLemmas::quoted_object))]
/// Puts the name of an object behind a text as it is printed: its kind, a colon and its name, with the quotes round the whole word.
pub fn push_object_word(
    alloc: Global,
    text: &mut String,
    kind: Kind,
    name: &str,
) -> Result<(), AllocError>
    ensures { OnOk result (string_bytes text.new ≡ string_bytes text.old ++ object_word kind name.now) }
{
    // No kind has a byte that needs quotes.
    if need_no_quotes(name.as_bytes()) {
        push_bare_object(text, kind, name)
    } else {
        let word = quoted_object(alloc, kind, name)?;
        text.push_str(word.as_str())
    }
}

/// The name of an object as it is printed.
pub fn object_word(alloc: Global, kind: Kind, name: &str) -> Result<String, AllocError>
    ensures { IfOk result (λ text. string_bytes text ≡ object_word kind name.now) }
{
    let mut text = String::new(alloc);
    push_object_word(alloc, &mut text, kind, name)?;
    Ok(text)
}
