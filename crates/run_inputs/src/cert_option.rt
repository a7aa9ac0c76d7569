// The option that names a certificate.
ghost use Rattle.std.specs.Prelude.{◌≡◌, ◌++◌, IfOk, OnOk, Some, option_map};
ghost use Rattle.run_inputs.specs.AskedWords.{found_seen, plain_seen};
ghost use Rattle.run_inputs.specs.Words.{cert_here, is_option, is_value, taken, value_first, value_within, without_cert};

use plan_base::{NoMemory, Text};
use std::alloc::Global;

/// The words without the option, and the name of the file that it gives.
#[derive(Drop)]
pub struct PlainWords {
    pub words: Vec<Text>,
    pub cert: Option<Text>,
}

// A file, and the words behind it.
#[derive(Clone, Copy)]
struct Found<'a> {
    file: &'a str,
    behind: &'a [Text],
}

// A word of two or more characters that begins with a dash.
fn is_option(word: &[u8]) -> bool
    ensures { result ≡ is_option word.now }
{
    match word {
        [b'-', _, ..] => true,
        _ => false,
    }
}

// A word that may be the value of an option.
fn is_value(word: &str) -> bool
    ensures { result ≡ is_value word.now }
{
    !word.is_empty() && !is_option(word.as_bytes())
}

// The value that stands first.
fn value_first(words: &[Text]) -> Option<Found<'_>>
    ensures { option_map found_seen result ≡ value_first words.now }
{
    let [file, behind @ ..] = words else {
        return None;
    };
    let file = file.as_str();
    if is_value(file) {
        Some(Found { file, behind })
    } else {
        None
    }
}

// What `--cert=FILE` gives.
fn value_within<'a>(word: &'a str, behind: &'a [Text]) -> Option<Found<'a>>
    ensures { option_map found_seen result ≡ value_within word.now behind.now }
{
    let file = word.strip_prefix("--cert=")?;
    if file.is_empty() {
        None
    } else {
        Some(Found { file, behind })
    }
}

// The option where it stands first.
fn cert_here<'a>(word: &'a str, behind: &'a [Text]) -> Option<Found<'a>>
    ensures { option_map found_seen result ≡ cert_here word.now behind.now }
{
    if word == "--cert" {
        value_first(behind)
    } else {
        value_within(word, behind)
    }
}

// Copies of the words behind those that are there.
fn append(alloc: Global, plain: &mut Vec<Text>, words: &[Text]) -> Result<(), NoMemory>
    ensures { OnOk result (plain.new.items ≡ plain.old.items ++ words.now) }
{
    for word in words {
        let copy = Text::copy(alloc, word.as_str())?;
        plain.push(copy)?;
    }
    Ok(())
}

// Takes the option out of the words, and puts the others behind those that are there.
fn take_cert(alloc: Global, plain: &mut Vec<Text>, words: &[Text]) -> Result<Option<Text>, NoMemory>
    ensures { IfOk result (λ cert. (plain.new.items ≡ plain.old.items ++ (taken words.now).words) × (cert ≡ (taken words.now).cert)) }
{
    let mut rest = words;
    while let [word, behind @ ..] = rest {
        if word.as_str() == "--" {
            break;
        }
        if let Some(found) = cert_here(word.as_str(), behind) {
            append(alloc, plain, found.behind)?;
            return Ok(Some(Text::copy(alloc, found.file)?));
        }
        let copy = Text::copy(alloc, word.as_str())?;
        plain.push(copy)?;
        rest = behind;
    }
    append(alloc, plain, rest)?;
    Ok(None)
}

/// Takes the first `--cert FILE` or `--cert=FILE` out of the words that stand before the first `--`. The first word, which is the
/// program's name, isn't looked at.
///
/// # Errors
///
/// `NoMemory` where memory could not be had.
pub fn plain_words(alloc: Global, words: &[Text]) -> Result<PlainWords, NoMemory>
    ensures { IfOk result (λ plain. plain_seen plain ≡ without_cert words.now) }
{
    let mut plain = Vec::new(alloc);
    let (program, rest) = words.split_at(words.len().min(1));
    append(alloc, &mut plain, program)?;
    let cert = take_cert(alloc, &mut plain, rest)?;
    Ok(PlainWords { words: plain, cert })
}
