//! One word behind a command word, as a value.
ghost use Rattle.std.specs.Prelude.{codes};
ghost use Rattle.script_reader.specs.Reading.{Answers};
ghost use Rattle.script_reader.specs.Arguments.{count, kind, object, ratio, ratio_or, switch};

use crate::ScriptFault;
use crate::fields::{Place, count_at, kind_of, object_at};
use fractions::{Ratio, read_ratio};
use plan_base::{Kind, Text};
use plan_lines::Object;
use std::alloc::Global;

/// The object that a word names.
pub fn object_word(alloc: Global, word: &Text, place: Place) -> Result<Object, ScriptFault>
    ensures { Answers (object place word.now) result }
{
    object_at(alloc, word.as_str(), place)
}

/// A number.
#[tactic(auto, unfolding(crate::specs::Reading::Answers, crate::specs::Reading::the_one, crate::specs::Reading::gives, crate::specs::Reading::refuses, crate::specs::Reading::no_word))]
pub fn ratio_at(word: &Text) -> Result<Ratio, ScriptFault>
    ensures { Answers (ratio word.now) result }
{
    match read_ratio(word.as_str().as_bytes()) {
        Ok(value) => Ok(value),
        Err(_) => Err(ScriptFault::BadNumber),
    }
}

/// A number, or `drop`.
#[tactic(auto, unfolding(crate::specs::Reading::Answers, crate::specs::Reading::the_one, crate::specs::Reading::gives, crate::specs::Reading::refuses, crate::specs::Reading::no_word))]
pub fn amount_at(word: &Text) -> Result<Option<Ratio>, ScriptFault>
    ensures { Answers (ratio_or (codes "drop") word.now) result }
{
    if word.as_str() == "drop" {
        return Ok(None);
    }
    let value = ratio_at(word)?;
    Ok(Some(value))
}

/// A number, or `off`.
#[tactic(auto, unfolding(crate::specs::Reading::Answers, crate::specs::Reading::the_one, crate::specs::Reading::gives, crate::specs::Reading::refuses, crate::specs::Reading::no_word))]
pub fn price_at(word: &Text) -> Result<Option<Ratio>, ScriptFault>
    ensures { Answers (ratio_or (codes "off") word.now) result }
{
    if word.as_str() == "off" {
        return Ok(None);
    }
    let value = ratio_at(word)?;
    Ok(Some(value))
}

/// `on` or `off`.
#[tactic(auto, unfolding(crate::specs::Reading::Answers, crate::specs::Reading::the_one, crate::specs::Reading::gives, crate::specs::Reading::refuses, crate::specs::Reading::no_word))]
pub fn switch_at(word: &Text) -> Result<bool, ScriptFault>
    ensures { Answers (switch word.now) result }
{
    match word.as_str() {
        "on" => Ok(true),
        "off" => Ok(false),
        _ => Err(ScriptFault::WrongWords),
    }
}

/// How many exchanges the solver may make.
#[tactic(auto, unfolding(crate::specs::Reading::Answers, crate::specs::Reading::the_one, crate::specs::Reading::gives, crate::specs::Reading::refuses, crate::specs::Reading::no_word))]
pub fn budget_at(word: &Text) -> Result<u32, ScriptFault>
    ensures { Answers (count 1 100000 word.now) result }
{
    match count_at(word.as_str(), 1, 100_000) {
        Some(steps) => Ok(steps),
        None => Err(ScriptFault::BadNumber),
    }
}

/// How many there are.
#[tactic(auto, unfolding(crate::specs::Reading::Answers, crate::specs::Reading::the_one, crate::specs::Reading::gives, crate::specs::Reading::refuses, crate::specs::Reading::no_word))]
pub fn number_at(word: &Text) -> Result<u32, ScriptFault>
    ensures { Answers (count 0 65535 word.now) result }
{
    match count_at(word.as_str(), 0, 65_535) {
        Some(number) => Ok(number),
        None => Err(ScriptFault::BadNumber),
    }
}

/// The kind that a word names.
#[tactic(auto, unfolding(crate::specs::Reading::Answers, crate::specs::Reading::the_one, crate::specs::Reading::gives, crate::specs::Reading::refuses, crate::specs::Reading::no_word))]
pub fn kind_at(word: &Text) -> Result<Kind, ScriptFault>
    ensures { Answers (kind word.now) result }
{
    match kind_of(word.as_str()) {
        Some(kind) => Ok(kind),
        None => Err(ScriptFault::BadObject),
    }
}
