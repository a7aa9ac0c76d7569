//! One word as an object, a number or a choice.
ghost use Rattle.std.specs.Prelude.{◌≡◌, ℕ, ◌<◌, ◌^◌, List, ◌++◌, ◌∷◌, IfSome, IfNone, Some, Ok, Err, IsTrue, ◌↔◌, IfOk, codes, MatchOption, IsSomeAnd, length, ◌==◌};
ghost use Rattle.std.specs.List.{position_or_len, before_first, after_first};
ghost use Rattle.std.specs.Str.Parse.{AllDigits, digits_value};
ghost use Rattle.fractions.specs.Numeral.{IsWholePart};
ghost use Rattle.plan_base.specs.declared.shape.Kind.{Kind};
ghost use Rattle.script_reader.specs.Fields.{kind_word, IsName, WritesObject, IsObjectAt, WritesCount, is_electricity, takes};
ghost use Rattle.script_reader.specs.Reading.{Answers};
ghost use Rattle.script_reader.specs.Arguments.{object};

use crate::ScriptFault;
use fractions::{is_whole_part, split_digits};
use plan_base::{Kind, Text};
use plan_lines::Object;
use std::alloc::Global;

/// Where an object stands in a line.
#[derive(Clone, Copy)]
pub enum Place {
    Node,
    Good,
    OneRecipe,
    OneTech,
    OneItem,
    OneFluid,
    OneMachine,
    Activity,
    TableGood,
}

// Whether the name is that of the special node of electricity.
fn is_electricity(name: &str) -> bool
    ensures { result ≡ is_electricity name.now }
{
    name == "electricity"
}

impl Place {
    // Whether objects of a kind with a name may stand there.
    fn takes(self, kind: Kind, name: &str) -> bool
        ensures { result ≡ takes self kind name.now }
    {
        match self {
            Place::Node => true,
            Place::Good => match kind {
                Kind::Item => true,
                Kind::Fluid => true,
                _ => false,
            },
            Place::OneRecipe => match kind {
                Kind::Recipe => true,
                _ => false,
            },
            Place::OneTech => match kind {
                Kind::Tech => true,
                _ => false,
            },
            Place::OneItem => match kind {
                Kind::Item => true,
                _ => false,
            },
            Place::OneFluid => match kind {
                Kind::Fluid => true,
                _ => false,
            },
            Place::OneMachine => match kind {
                Kind::Machine => true,
                _ => false,
            },
            Place::Activity => match kind {
                Kind::Recipe => true,
                Kind::Source => true,
                Kind::Fluid => true,
                Kind::Tech => true,
                Kind::Special => is_electricity(name),
                _ => false,
            },
            Place::TableGood => match kind {
                Kind::Item => true,
                Kind::Fluid => true,
                Kind::Tech => true,
                Kind::Special => is_electricity(name),
                _ => false,
            },
        }
    }
}

/// The kind that a word names.
pub fn kind_of(word: &str) -> Option<Kind>
    ensures found { IfSome result (λ kind. word.now ≡ kind_word kind) }
    ensures every { (kind : Kind) → word.now ≡ kind_word kind → result ≡ Some kind }
{
    match word {
        "special" => Some(Kind::Special),
        "item" => Some(Kind::Item),
        "fluid" => Some(Kind::Fluid),
        "recipe" => Some(Kind::Recipe),
        "source" => Some(Kind::Source),
        "machine" => Some(Kind::Machine),
        "tech" => Some(Kind::Tech),
        _ => None,
    }
}

// The parts of a word before and behind its first colon.
fn split_colon(word: &str) -> Option<(&str, &str)>
    ensures { MatchOption result (position_or_len (λ b. b == 58) word.now ≡ length word.now) (λ p. (p.0.now ≡ before_first (λ b. b == 58) word.now) × (p.1.now ≡ after_first (λ b. b == 58) word.now) × (position_or_len (λ b. b == 58) word.now < length word.now)) }
{
    word.split_once(':')
}

// Whether there may be an object of a kind with this name.
fn is_name(kind: Kind, name: &str) -> bool
    ensures { IsTrue result ↔ IsName kind name.now }
{
    match kind {
        Kind::Special => match name {
            "character" => true,
            "electricity" => true,
            "heat" => true,
            _ => false,
        },
        _ => true,
    }
}

// The kind and the name of an object.
fn object_parts(word: &str) -> Option<(Kind, &str)>
    ensures found { IfSome result (λ p. WritesObject word.now p.0 p.1.now) }
    ensures every { (kind : Kind) (name : List ℕ) → WritesObject word.now kind name → IsSomeAnd result (λ p. (p.0 ≡ kind) × (p.1.now ≡ name)) }
{
    let Some((first, name)) = split_colon(word) else {
        return None;
    };
    let Some(kind) = kind_of(first) else {
        return None;
    };
    if is_name(kind, name) {
        Some((kind, name))
    } else {
        None
    }
}

/// The object that a word names.
#[tactic(auto, unfolding(crate::specs::Reading::Answers, crate::specs::Reading::the_one, crate::specs::Reading::gives, crate::specs::Reading::refuses, crate::specs::Reading::no_word))]
pub fn object_at(alloc: Global, word: &str, place: Place) -> Result<Object, ScriptFault>
    ensures { Answers (object place word.now) result }
{
    let Some((kind, name)) = object_parts(word) else {
        return Err(ScriptFault::BadObject);
    };
    if !place.takes(kind, name) {
        return Err(ScriptFault::BadObject);
    }
    match Text::copy(alloc, name) {
        Ok(name) => Ok(Object { kind, name }),
        Err(_) => Err(ScriptFault::NoMemory),
    }
}

// Whether a word is digits with no leading zero.
fn is_whole(word: &str) -> bool
    ensures { IsTrue result ↔ IsWholePart word.now }
{
    let (digits, rest) = split_digits(word.as_bytes());
    rest.is_empty() && is_whole_part(digits)
}

/// The whole number from `least` to `most` that a word writes.
pub fn count_at(word: &str, least: u32, most: u32) -> Option<u32>
    ensures found { IfSome result (WritesCount least most word.now) }
    ensures every { (count : ℕ) → WritesCount least most word.now count → result ≡ Some count }
{
    if !is_whole(word) {
        return None;
    }
    match word.parse::<u32>() {
        Ok(count) => if least <= count && count <= most {
            Some(count)
        } else {
            None
        },
        Err(_) => None,
    }
}
