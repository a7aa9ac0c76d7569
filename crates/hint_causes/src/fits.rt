//! What stands at the places of a line, and whether a word may stand there.
use fractions::read_ratio;
use line_causes::{LineWord, Slot, form_of, slot_code};
use plan_base::NoMemory;
use plan_lines::RefusalCode;
use script_reader::{CommandWord, Place, count_at, kind_of, object_at};
use std::alloc::Global;

fn is_number(word: &str) -> bool {
    read_ratio(word.as_bytes()).is_ok()
}

fn is_count(word: &str) -> bool {
    count_at(word, 0, 65_535).is_some()
}

// The place of an object that stands there, where one does.
fn place_of(slot: Slot) -> Option<Place> {
    match slot {
        Slot::Node => Some(Place::Node),
        Slot::Good => Some(Place::Good),
        Slot::TableGood => Some(Place::TableGood),
        Slot::Recipe => Some(Place::OneRecipe),
        Slot::Tech => Some(Place::OneTech),
        Slot::Item => Some(Place::OneItem),
        Slot::Fluid => Some(Place::OneFluid),
        Slot::Machine => Some(Place::OneMachine),
        Slot::Activity => Some(Place::Activity),
        _ => None,
    }
}

// Whether a word that is no object may stand there.
fn fits_plain(slot: Slot, word: &str) -> bool {
    match slot {
        Slot::Kind => kind_of(word).is_some(),
        Slot::Amount => word == "drop" || is_number(word),
        Slot::Number | Slot::Price => is_number(word),
        Slot::PriceOrOff => word == "off" || is_number(word),
        Slot::Count | Slot::Share => is_count(word),
        Slot::Budget => count_at(word, 1, 100_000).is_some(),
        Slot::By => word == "by",
        Slot::Switch => word == "on" || word == "off",
        _ => true,
    }
}

fn fits(alloc: Global, slot: Slot, word: &str) -> bool {
    match place_of(slot) {
        Some(place) => object_at(alloc, word, place).is_ok(),
        None => fits_plain(slot, word),
    }
}

// What stands behind the word that names a part of a row.
fn part_form(key: &str) -> &'static [Slot] {
    match key {
        "fuel" => &[Slot::Item],
        "module" | "in" => &[Slot::Item, Slot::Count],
        "beacon" => &[Slot::Machine, Slot::Count, Slot::Share],
        "at" => &[Slot::Fluid],
        _ => &[],
    }
}

// Adds what stands at the words of the parts of a row.
fn add_parts(words: &[LineWord], slots: &mut Vec<Slot>) -> Result<(), NoMemory> {
    let mut expected: &[Slot] = &[];
    for word in words {
        if let [slot, rest @ ..] = expected {
            slots.push(*slot)?;
            expected = rest;
        } else {
            slots.push(Slot::Parts)?;
            expected = part_form(word.text.as_str());
        }
    }
    Ok(())
}

/// What stands at the words behind the first of a line, one behind another.
pub fn slots_of(
    alloc: Global,
    command: CommandWord,
    words: &[LineWord],
) -> Result<Vec<Slot>, NoMemory> {
    let mut slots = Vec::new(alloc);
    for slot in form_of(command) {
        if *slot == Slot::Parts {
            add_parts(words.get(6..).unwrap_or(&[]), &mut slots)?;
        } else {
            slots.push(*slot)?;
        }
    }
    Ok(slots)
}

/// The first word that is not what stands at its place, of a line that is refused with such a code.
pub fn misfit<'a>(
    alloc: Global,
    command: CommandWord,
    words: &'a [LineWord],
    code: RefusalCode,
) -> Result<Option<(&'a LineWord, Slot)>, NoMemory> {
    let slots = slots_of(alloc, command, words)?;
    for (word, slot) in words.iter().skip(1).zip(slots.iter()) {
        if slot_code(*slot) == code && !fits(alloc, *slot, word.text.as_str()) {
            return Ok(Some((word, *slot)));
        }
    }
    Ok(None)
}

/// The first of the words that is a number or stands for one, of a line of a command.
pub fn number_among<'a>(
    alloc: Global,
    command: CommandWord,
    words: &'a [LineWord],
) -> Result<Option<&'a LineWord>, NoMemory> {
    let slots = slots_of(alloc, command, words)?;
    for (word, slot) in words.iter().skip(1).zip(slots.iter()) {
        if slot_code(*slot) == RefusalCode::Q3 {
            return Ok(Some(word));
        }
    }
    Ok(None)
}

// Whether words may be missing from there on.
fn may_end(slot: Slot) -> bool {
    slot == Slot::Budget || slot == Slot::Parts
}

/// Behind how many words of a command another word stands than is to, or none; and that word, where there is one.
pub fn stops_at(command: CommandWord, words: &[LineWord]) -> (usize, Option<&LineWord>) {
    let form = form_of(command);
    let mut at: usize = 0;
    for slot in form {
        let word = words.get(at.saturating_add(1));
        match word {
            Some(word) => {
                if slot_code(*slot) == RefusalCode::Q2 && !fits_plain(*slot, word.text.as_str()) {
                    return (at, Some(word));
                }
            }
            None => {
                if !may_end(*slot) {
                    return (at, None);
                }
            }
        }
        at = at.saturating_add(1);
    }
    match form.last() {
        Some(Slot::Parts) => (form.len().saturating_sub(1), words.get(6)),
        _ => (form.len(), words.get(form.len().saturating_add(1))),
    }
}
