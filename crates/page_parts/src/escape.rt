//! Text that stands for itself on a page, between the quotes of an attribute, in a drawing and in a graph.
ghost use Rattle.std.specs.Prelude.{◌≡◌, ◌++◌, true, IfOk, OnOk, encode_utf8, string_bytes};
ghost use Rattle.std.specs.List.{flat_map, list_all};
ghost use Rattle.page_parts.specs.Escape.{escaped, is_harmless, reference};

use crate::Done;
use plan_base::NoMemory;
use std::alloc::{AllocError, Global};

fn push_escaped(text: &mut String, letter: char) -> Result<(), AllocError>
    ensures { OnOk result (string_bytes text.new ≡ string_bytes text.old ++ flat_map reference (encode_utf8 letter)) }
{
    match letter {
        '&' => text.push_str("&amp;"),
        '<' => text.push_str("&lt;"),
        '>' => text.push_str("&gt;"),
        '"' => text.push_str("&quot;"),
        '\'' => text.push_str("&#39;"),
        '\\' => text.push_str("&#92;"),
        _ => text.push(letter),
    }
}

// The text with references in place of letters.
fn references(alloc: Global, plain: &str) -> Result<String, NoMemory>
    ensures { IfOk result (λ text. string_bytes text ≡ escaped plain.now) }
{
    let mut text = String::new(alloc);
    for letter in plain.chars() {
        push_escaped(&mut text, letter)?;
    }
    Ok(text)
}

/// The text with a character reference in place of each letter that could end it or mean something else. No `<`, `>`, quote or
/// backslash is left.
#[tactic(auto, using(crate::proofs::EscapeLemmas::harmless_text))]
pub fn escaped(alloc: Global, plain: &str) -> Result<String, NoMemory>
    ensures text { IfOk result (λ text. string_bytes text ≡ escaped plain.now) }
    ensures harmless { IfOk result (λ text. list_all is_harmless (string_bytes text) ≡ true) }
{
    let text = references(alloc, plain)?;
    Ok(text)
}

// A letter as it stands in a label.
fn push_labelled(text: &mut String, letter: char) -> Result<(), AllocError> {
    match letter {
        '\\' => text.push_str("\\\\"),
        '\0'..='\x1f' => text.push('\u{fffd}'),
        _ => text.push(letter),
    }
}

/// A text as it stands in a label: Graphviz reads two backslashes as one, and breaks lines or ends at letters below the space.
pub fn label(alloc: Global, plain: &str) -> Result<String, NoMemory>
    ensures harmless { IfOk result (λ text. list_all is_harmless (string_bytes text) ≡ true) }
{
    let mut text = String::new(alloc);
    push_labels(&mut text, plain)?;
    escaped(alloc, text.as_str())
}

fn push_labels(text: &mut String, plain: &str) -> Done {
    for letter in plain.chars() {
        push_labelled(text, letter)?;
    }
    Ok(())
}

/// The first letters of a text, and dots where some are left out.
pub fn cut(alloc: Global, plain: &str, most: usize) -> Result<String, NoMemory> {
    let mut text = String::new(alloc);
    push_first(&mut text, plain, most)?;
    Ok(text)
}

fn push_first(text: &mut String, plain: &str, most: usize) -> Done {
    let mut left = most;
    for letter in plain.chars() {
        if left == 0 {
            text.push_str("…")?;
            return Ok(());
        }
        text.push(letter)?;
        left -= 1;
    }
    Ok(())
}
