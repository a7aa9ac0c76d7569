//! The words in which commands are shown.
use fractions::Ratio;
use plan_base::{Kind, NoMemory, Text};
use plan_lines::Object;
use std::alloc::Global;

/// The word of a kind.
pub fn kind(kind: Kind) -> &'static str {
    match kind {
        Kind::Special => "special",
        Kind::Item => "item",
        Kind::Fluid => "fluid",
        Kind::Recipe => "recipe",
        Kind::Source => "source",
        Kind::Machine => "machine",
        Kind::Tech => "tech",
    }
}

/// Shows an object.
pub fn named(out: &mut String, object: &Object) -> Result<(), NoMemory> {
    out.push_str(kind(object.kind))?;
    out.push_str(":")?;
    Ok(out.push_str(object.name.as_str())?)
}

/// Shows an object behind a bar.
pub fn object(out: &mut String, object: &Object) -> Result<(), NoMemory> {
    out.push_str("|")?;
    named(out, object)
}

/// Shows a word behind a bar.
pub fn word(out: &mut String, word: &str) -> Result<(), NoMemory> {
    out.push_str("|")?;
    Ok(out.push_str(word)?)
}

/// Shows a number behind a bar.
pub fn ratio(out: &mut String, alloc: Global, ratio: &Ratio) -> Result<(), NoMemory> {
    let text = ratio.print(alloc)?;
    word(out, text.as_str())
}

/// Shows a number behind a bar, or a dash where there is none.
pub fn ratio_or_none(
    out: &mut String,
    alloc: Global,
    value: &Option<Ratio>,
) -> Result<(), NoMemory> {
    match value {
        Some(value) => ratio(out, alloc, value),
        None => word(out, "-"),
    }
}

/// Shows behind a bar whether something is on.
pub fn switch(out: &mut String, on: bool) -> Result<(), NoMemory> {
    word(out, if on { "on" } else { "off" })
}

/// Shows a whole number behind a space.
pub fn number(out: &mut String, alloc: Global, number: u32) -> Result<(), NoMemory> {
    let text = format!(in alloc; " {number}")?;
    Ok(out.push_str(text.as_str())?)
}

/// Shows the first word of a command, and an object.
pub fn begin(out: &mut String, first: &str, node: &Object) -> Result<(), NoMemory> {
    out.push_str(first)?;
    object(out, node)
}

/// Shows the first word of a command, and a text.
pub fn begin_text(out: &mut String, first: &str, text: &Text) -> Result<(), NoMemory> {
    out.push_str(first)?;
    word(out, text.as_str())
}

/// Shows the first word of a command, a table, and a label in it.
pub fn labelled(out: &mut String, first: &str, table: &Text, label: &Text) -> Result<(), NoMemory> {
    begin_text(out, first, table)?;
    word(out, label.as_str())
}

/// Shows the first word of a command, an object, and whether it is on.
pub fn begin_switch(
    out: &mut String,
    first: &str,
    node: &Object,
    on: bool,
) -> Result<(), NoMemory> {
    begin(out, first, node)?;
    switch(out, on)
}

/// Shows the first word of a command, and the next.
pub fn begin_word(out: &mut String, first: &str, next: &str) -> Result<(), NoMemory> {
    out.push_str(first)?;
    word(out, next)
}

/// Shows a command of one word.
pub fn alone(out: &mut String, first: &str) -> Result<(), NoMemory> {
    Ok(out.push_str(first)?)
}
