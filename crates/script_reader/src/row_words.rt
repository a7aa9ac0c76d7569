//! The words of a row, and its parts as what they name.
ghost use Rattle.std.specs.Prelude.{◌≡◌, ◌<◌, ◌∷◌, [], length, MatchOption, IfErr, OnOk, Ok, Err};
ghost use Rattle.script_reader.specs.Reading.{Answers};
ghost use Rattle.script_reader.specs.Arguments.{add_part, add_parts, beacon_words, part_words, row_words};

use crate::ScriptFault;
use crate::fields::Place;
use crate::parts::{PartWords, parts_after};
use crate::word_values::{number_at, object_word};
use plan_base::{Items, Text};
use plan_lines::{Object, RowPart, copy_text};
use std::alloc::Global;

fn fuel_of(alloc: Global, item: &Text) -> Result<RowPart, ScriptFault>
    ensures { Answers (part_words (PartWords.Fuel item.now)) result }
{
    let item = object_word(alloc, item, Place::OneItem)?;
    Ok(RowPart::Fuel(item))
}

fn module_of(alloc: Global, item: &Text, number: &Text) -> Result<RowPart, ScriptFault>
    ensures { Answers (part_words (PartWords.Module item.now number.now)) result }
{
    let item = object_word(alloc, item, Place::OneItem)?;
    let count = number_at(number)?;
    Ok(RowPart::Module(item, count))
}

fn in_of(alloc: Global, item: &Text, number: &Text) -> Result<RowPart, ScriptFault>
    ensures { Answers (part_words (PartWords.In item.now number.now)) result }
{
    let item = object_word(alloc, item, Place::OneItem)?;
    let count = number_at(number)?;
    Ok(RowPart::In(item, count))
}

fn beacon_of(
    alloc: Global,
    machine: &Text,
    number: &Text,
    share: &Text,
) -> Result<RowPart, ScriptFault>
    ensures { Answers (beacon_words machine.now number.now share.now) result }
{
    let machine = object_word(alloc, machine, Place::OneMachine)?;
    let count = number_at(number)?;
    let share = number_at(share)?;
    Ok(RowPart::Beacon {
        machine,
        count,
        share,
    })
}

fn at_of(alloc: Global, fluid: &Text) -> Result<RowPart, ScriptFault>
    ensures { Answers (part_words (PartWords.At fluid.now)) result }
{
    let fluid = object_word(alloc, fluid, Place::OneFluid)?;
    Ok(RowPart::At(fluid))
}

fn part_of(alloc: Global, part: &PartWords) -> Result<RowPart, ScriptFault>
    ensures { Answers (part_words part.now) result }
{
    match part {
        PartWords::Fuel(item) => fuel_of(alloc, item),
        PartWords::Module(item, number) => module_of(alloc, item, number),
        PartWords::Beacon(machine, number, share) => beacon_of(alloc, machine, number, share),
        PartWords::In(item, number) => in_of(alloc, item, number),
        PartWords::At(fluid) => at_of(alloc, fluid),
    }
}

// One part more.
fn add_one(alloc: Global, parts: &mut Vec<RowPart>, words: &PartWords) -> Result<(), ScriptFault>
    ensures ok { OnOk result (Answers (add_part parts.old.items words.now) (Ok parts.new.items)) }
    ensures fault { IfErr result (λ fault. Answers (add_part parts.old.items words.now) (Err fault)) }
{
    let part = part_of(alloc, words)?;
    let Ok(()) = parts.push(part) else {
        return Err(ScriptFault::NoMemory);
    };
    Ok(())
}

// One part after another.
fn read_parts(alloc: Global, words: &[PartWords]) -> Result<Items<RowPart>, ScriptFault>
    ensures { Answers (add_parts [] words.now) result }
{
    let mut parts = Vec::new(alloc);
    for part in words {
        add_one(alloc, &mut parts, part)?;
    }
    Ok(Items::from_vec(parts))
}

fn five(words: &[Text]) -> Option<(&Text, &Text, &Text, &Text, &Text, &[Text])>
    ensures { MatchOption result (length words.now < 5) (λ p. words.now ≡ p.0.now ∷ p.1.now ∷ p.2.now ∷ p.3.now ∷ p.4.now ∷ p.5.now) }
{
    match words {
        [a, b, c, d, e, rest @ ..] => Some((a, b, c, d, e, rest)),
        _ => None,
    }
}

/// A row.
pub fn row_of(
    alloc: Global,
    words: &[Text],
) -> Result<(Text, Text, Object, Object, Items<RowPart>), ScriptFault>
    ensures { Answers (row_words words.now) result }
{
    let Some((table, label, activity, by, machine, rest)) = five(words) else {
        return Err(ScriptFault::WrongWords);
    };
    let written = parts_after(alloc, by, rest)?;
    let activity = object_word(alloc, activity, Place::Activity)?;
    let machine = object_word(alloc, machine, Place::OneMachine)?;
    let parts = read_parts(alloc, written.as_slice())?;
    let Ok(table) = copy_text(alloc, table) else {
        return Err(ScriptFault::NoMemory);
    };
    let Ok(label) = copy_text(alloc, label) else {
        return Err(ScriptFault::NoMemory);
    };
    Ok((table, label, activity, machine, parts))
}
