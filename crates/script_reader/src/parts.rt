//! The words of a row's parts, part by part.
ghost use Rattle.std.specs.Prelude.{◌≡◌, ◌<◌, ◌∷◌, length, count_by, drop, nat_le, MatchOption};
ghost use Rattle.std.specs.List.{before_first, list_any};
ghost use Rattle.script_reader.specs.Reading.{Answers};
ghost use Rattle.script_reader.specs.PartWords.{all_parts, first_part, is_beacon, is_fuel, is_in, written_part};
ghost use Rattle.script_reader.specs.Arguments.{parts_behind};

use crate::ScriptFault;
use plan_base::{Items, Text};
use plan_lines::{copy_text, two_copies};
use std::alloc::Global;

/// The words of a part, behind the one that names it.
#[derive(Drop)]
pub enum PartWords {
    Fuel(Text),
    Module(Text, Text),
    Beacon(Text, Text, Text),
    In(Text, Text),
    At(Text),
}

impl PartWords {
    // How many words there are, with the one that names the part.
    fn len(&self) -> usize
        ensures { result ≡ length (written_part self.now) }
    {
        match self {
            PartWords::Fuel(_) => 2,
            PartWords::Module(_, _) => 3,
            PartWords::Beacon(_, _, _) => 4,
            PartWords::In(_, _) => 3,
            PartWords::At(_) => 2,
        }
    }

    fn is_fuel(&self) -> bool
        ensures { result ≡ is_fuel self.now }
    {
        match self {
            PartWords::Fuel(_) => true,
            _ => false,
        }
    }

    fn is_beacon(&self) -> bool
        ensures { result ≡ is_beacon self.now }
    {
        match self {
            PartWords::Beacon(_, _, _) => true,
            _ => false,
        }
    }

    fn is_in(&self) -> bool
        ensures { result ≡ is_in self.now }
    {
        match self {
            PartWords::In(_, _) => true,
            _ => false,
        }
    }
}

fn front_one(words: &[Text]) -> Option<&Text>
    ensures { MatchOption result (length words.now < 1) (λ a. words.now ≡ a.now ∷ drop 1 words.now) }
{
    match words {
        [a, ..] => Some(a),
        _ => None,
    }
}

fn front_two(words: &[Text]) -> Option<(&Text, &Text)>
    ensures { MatchOption result (length words.now < 2) (λ p. words.now ≡ p.0.now ∷ p.1.now ∷ drop 2 words.now) }
{
    match words {
        [a, b, ..] => Some((a, b)),
        _ => None,
    }
}

fn front_three(words: &[Text]) -> Option<(&Text, &Text, &Text)>
    ensures { MatchOption result (length words.now < 3) (λ p. words.now ≡ p.0.now ∷ p.1.now ∷ p.2.now ∷ drop 3 words.now) }
{
    match words {
        [a, b, c, ..] => Some((a, b, c)),
        _ => None,
    }
}

fn has_one_fuel(parts: &[PartWords]) -> bool
    ensures { result ≡ nat_le (count_by is_fuel parts.now) 1 }
{
    parts.iter().filter(|part| part.is_fuel()).count() <= 1
}

fn has_in_first(parts: &[PartWords]) -> bool
    ensures { result ≡ list_any is_in (before_first is_beacon parts.now) }
{
    parts
        .iter()
        .take_while(|part| !part.is_beacon())
        .any(|part| part.is_in())
}

// The part that the words begin with.
fn first_part_of(alloc: Global, words: &[Text]) -> Result<PartWords, ScriptFault>
    ensures { Answers (first_part words.now) result }
{
    let Some((key, rest)) = words.split_first() else {
        return Err(ScriptFault::WrongWords);
    };
    match key.as_str() {
        "fuel" => {
            let Some(item) = front_one(rest) else {
                return Err(ScriptFault::WrongWords);
            };
            match copy_text(alloc, item) {
                Ok(item) => Ok(PartWords::Fuel(item)),
                Err(_) => Err(ScriptFault::NoMemory),
            }
        }
        "at" => {
            let Some(fluid) = front_one(rest) else {
                return Err(ScriptFault::WrongWords);
            };
            match copy_text(alloc, fluid) {
                Ok(fluid) => Ok(PartWords::At(fluid)),
                Err(_) => Err(ScriptFault::NoMemory),
            }
        }
        "module" => {
            let Some((item, number)) = front_two(rest) else {
                return Err(ScriptFault::WrongWords);
            };
            match two_copies(alloc, item, number) {
                Ok((item, number)) => Ok(PartWords::Module(item, number)),
                Err(_) => Err(ScriptFault::NoMemory),
            }
        }
        "in" => {
            let Some((item, number)) = front_two(rest) else {
                return Err(ScriptFault::WrongWords);
            };
            match two_copies(alloc, item, number) {
                Ok((item, number)) => Ok(PartWords::In(item, number)),
                Err(_) => Err(ScriptFault::NoMemory),
            }
        }
        "beacon" => {
            let Some((machine, number, share)) = front_three(rest) else {
                return Err(ScriptFault::WrongWords);
            };
            let Ok(machine) = copy_text(alloc, machine) else {
                return Err(ScriptFault::NoMemory);
            };
            match two_copies(alloc, number, share) {
                Ok((number, share)) => Ok(PartWords::Beacon(machine, number, share)),
                Err(_) => Err(ScriptFault::NoMemory),
            }
        }
        _ => Err(ScriptFault::WrongWords),
    }
}

// The parts that the words are.
fn split_parts(alloc: Global, words: &[Text]) -> Result<Items<PartWords>, ScriptFault>
    ensures { Answers (all_parts words.now) result }
{
    let mut parts = Vec::new(alloc);
    let mut rest = words;
    while !rest.is_empty() {
        let part = first_part_of(alloc, rest)?;
        let (_, behind) = rest.split_at(part.len());
        rest = behind;
        match parts.push(part) {
            Ok(()) => {}
            Err(_) => return Err(ScriptFault::NoMemory),
        }
    }
    Ok(Items::from_vec(parts))
}

/// The parts behind `by` and a machine.
pub fn parts_after(
    alloc: Global,
    by: &Text,
    words: &[Text],
) -> Result<Items<PartWords>, ScriptFault>
    ensures { Answers (parts_behind by.now words.now) result }
{
    if by.as_str() != "by" {
        return Err(ScriptFault::WrongWords);
    }
    let parts = split_parts(alloc, words)?;
    if has_in_first(parts.as_slice()) {
        return Err(ScriptFault::WrongWords);
    }
    if has_one_fuel(parts.as_slice()) {
        Ok(parts)
    } else {
        Err(ScriptFault::WrongWords)
    }
}
