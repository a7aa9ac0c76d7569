//! Texts of others in the labels of a graph.
ghost use Rattle.std.specs.Prelude.{◌≡◌, ◌++◌, IfOk, OnOk, encode_utf8, string_bytes};
ghost use Rattle.std.specs.List.{flat_map};
ghost use Rattle.page_rows.specs.Labels.{label_text, labelled};

use page_parts::escaped;
use plan_base::NoMemory;
use std::alloc::{AllocError, Global};

// A letter as it stands in a label.
fn push_labelled(text: &mut String, letter: char) -> Result<(), AllocError>
    ensures { OnOk result (string_bytes text.new ≡ string_bytes text.old ++ flat_map labelled (encode_utf8 letter)) }
{
    match letter {
        '\\' => text.push_str("\\\\"),
        '\0'..='\x1f' => text.push_str("\u{fffd}"),
        _ => text.push(letter),
    }
}

fn labels(alloc: Global, plain: &str) -> Result<String, NoMemory>
    ensures { IfOk result (λ text. string_bytes text ≡ flat_map labelled plain.now) }
{
    let mut text = String::new(alloc);
    for letter in plain.chars() {
        push_labelled(&mut text, letter)?;
    }
    Ok(text)
}

/// A text of others as it stands in a label: Graphviz reads two backslashes as one, and breaks lines or ends at letters below the
/// space, in whose place a mark stands.
///
/// # Errors
///
/// `NoMemory` where memory could not be had.
pub fn label_text(alloc: Global, plain: &str) -> Result<String, NoMemory>
    ensures { IfOk result (λ text. string_bytes text ≡ label_text plain.now) }
{
    let text = labels(alloc, plain)?;
    escaped(alloc, text.as_str())
}
