//! What the texts of tests stand for.
use json_text::Wanted;
use plan_base::{NoMemory, Text};
use std::alloc::Global;

fn digit(byte: u8) -> u8 {
    match byte {
        b'0' => 0,
        b'1' => 1,
        b'2' => 2,
        b'3' => 3,
        b'4' => 4,
        b'5' => 5,
        b'6' => 6,
        b'7' => 7,
        b'8' => 8,
        b'9' => 9,
        b'a' => 10,
        b'b' => 11,
        b'c' => 12,
        b'd' => 13,
        b'e' => 14,
        _ => 15,
    }
}

/// The bytes that a text stands for, where `%` and two digits stand for one.
pub fn bytes(alloc: Global, text: &str) -> Result<Vec<u8>, NoMemory> {
    let mut bytes = Vec::new(alloc);
    // how many digits are still to come, and what the first of them stands for
    let mut left = 0;
    let mut high = 0;
    for byte in text.as_bytes() {
        if left == 2 {
            high = digit(*byte) << 4;
            left = 1;
        } else if left == 1 {
            bytes.push(high | digit(*byte))?;
            left = 0;
        } else if *byte == b'%' {
            left = 2;
        } else {
            bytes.push(*byte)?;
        }
    }
    Ok(bytes)
}

/// The number that a word writes.
pub fn digits(word: &str) -> usize {
    word.parse().unwrap_or(usize::MAX)
}

fn names(alloc: Global, name: &str) -> Result<Vec<Text>, NoMemory> {
    let name = Text::copy(alloc, name)?;
    let mut names = Vec::new(alloc);
    names.push(name)?;
    Ok(names)
}

/// The section `item` and the field `f` are kept.
pub fn wanted(alloc: Global) -> Result<Wanted, NoMemory> {
    let sections = names(alloc, "item")?;
    let fields = names(alloc, "f")?;
    Ok(Wanted { sections, fields })
}
