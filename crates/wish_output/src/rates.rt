//! How many items a full belt carries.
ghost use Rattle.std.specs.Prelude.{◌≡◌, IfOk, IfSome, map, pos};
ghost use Rattle.fractions.specs.Fraction.{whole_fraction, ◌*ʳ◌};
ghost use Rattle.json_text.specs.Seen.{wishes};
ghost use Rattle.json_text.specs.SpanSeen.{span_seen};
ghost use Rattle.wish_output.specs.Belts.{Carries, IsBeltRate, belt_wishes, speed_in};

use crate::trees::speed_in;
use fractions::Ratio;
use json_text::{JsonCode, SpanTree, Wanted, read_spans};
use plan_base::{NoMemory, Text};
use std::alloc::Global;

/// The sections of a dump that are read.
pub const SECTIONS: [&str; 2] = ["item", "transport-belt"];

/// The fields of prototypes that are read.
pub const FIELDS: [&str; 2] = ["place_result", "speed"];

// A text for each key.
fn texts(alloc: Global, keys: &[&str]) -> Result<Vec<Text>, NoMemory>
    ensures { IfOk result (λ texts. texts.items ≡ map (λ key. key.now) keys.now) }
{
    let mut texts = Vec::new(alloc);
    for key in keys {
        texts.push(Text::copy(alloc, key)?)?;
    }
    Ok(texts)
}

// What is kept of a dump.
#[tactic(auto, using(crate::proofs::BeltLemmas::sections_are, crate::proofs::BeltLemmas::fields_are))]
fn belt_wanted(alloc: Global) -> Result<Wanted, NoMemory>
    ensures { IfOk result (λ wanted. wishes wanted ≡ belt_wishes) }
{
    let sections = texts(alloc, SECTIONS.as_slice())?;
    let fields = texts(alloc, FIELDS.as_slice())?;
    Ok(Wanted { sections, fields })
}

// The items a second on a belt of a speed, where that is above 0 and within the limits of numbers.
fn rate_at(speed: &Ratio) -> Option<Ratio>
    ensures { IfSome result (λ rate. rate ≡ speed.now *ʳ whole_fraction (pos 480)) }
{
    if !speed.is_positive() {
        return None;
    }
    match speed.mul(&Ratio::whole(480)) {
        Ok(rate) => Some(rate),
        Err(_) => None,
    }
}

// The items a second on the belt that an item places.
fn rate_in(item: &str, dump: &SpanTree<'_>) -> Option<Ratio>
    ensures { IfSome result (Carries (speed_in item.now (span_seen dump.now))) }
{
    match speed_in(item, dump) {
        Some(speed) => rate_at(&speed),
        None => None,
    }
}

/// Why a dump tells nothing of belts.
#[derive(Clone, Copy, Debug, PartialEq, Eq)]
pub enum BeltFault {
    /// It is no JSON.
    NoDump,
    NoMemory,
}

impl From<NoMemory> for BeltFault {
    fn from(_: NoMemory) -> BeltFault {
        BeltFault::NoMemory
    }
}

/// The items a second on the full belt that an item places. None where the dump has no such belt.
///
/// # Errors
///
/// `NoDump` where the dump is no JSON, or `NoMemory`.
#[tactic(auto, using(crate::proofs::BeltLemmas::told))]
pub fn belt_rate(alloc: Global, dump: &[u8], item: &str) -> Result<Option<Ratio>, BeltFault>
    ensures { IfOk result (λ found. IfSome found (IsBeltRate dump.now item.now)) }
{
    let wanted = belt_wanted(alloc)?;
    match read_spans(alloc, dump, &wanted) {
        Ok(tree) => Ok(rate_in(item, &tree)),
        Err(fault) => match fault.code {
            JsonCode::NoMemory => Err(BeltFault::NoMemory),
            _ => Err(BeltFault::NoDump),
        },
    }
}
