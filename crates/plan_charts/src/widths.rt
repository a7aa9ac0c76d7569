//! How wide a text is nearly, in tenths of a point of the drawing, so that names end before amounts.
use page_parts::Done;
use plan_base::NoMemory;
use std::alloc::Global;

// A letter of the drawing's size, at least as wide as the usual ones of the system.
fn letter_width(letter: char) -> u32 {
    match letter {
        'i' | 'j' | 'l' | 't' | 'f' | 'r' | '.' | ',' | ':' | '\'' | '|' | ' ' | '-' => 48,
        'm' | 'w' | 'M' | 'W' | '@' => 112,
        'A'..='Z' => 84,
        '\0'..='\x7f' => 70,
        _ => 125,
    }
}

/// The width of a text.
pub fn width_of(text: &str) -> u32 {
    let mut width = 0u32;
    for letter in text.chars() {
        width = width.saturating_add(letter_width(letter));
    }
    width
}

fn push_within(out: &mut String, text: &str, most: u32) -> Done {
    let mut width = 0u32;
    for letter in text.chars() {
        width = width.saturating_add(letter_width(letter));
        if width > most {
            out.push_str("…")?;
            return Ok(());
        }
        out.push(letter)?;
    }
    Ok(())
}

/// The text, or so many of its first letters that they and three dots are within a width.
pub fn within(alloc: Global, text: &str, most: u32) -> Result<String, NoMemory> {
    let mut out = String::new(alloc);
    if width_of(text) <= most {
        out.push_str(text)?;
    } else {
        push_within(&mut out, text, most.saturating_sub(125))?;
    }
    Ok(out)
}
