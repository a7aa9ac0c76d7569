//! The text of the rates of a row.
ghost use Rattle.std.specs.Prelude.{◌≡◌, ◌∷◌, ◌++◌, [], IfOk, string_bytes};
ghost use Rattle.plan_report.specs.Layout.{line_then, reply_text};
ghost use Rattle.plan_report.specs.Replies.{consumption_words, effects_words, fuel_words, rate_line, rates_words};

use crate::numbers::number_end;
use crate::printed_word;
use fractions::Ratio;
use game_types::{Effects, Rates};
use plan_base::NoMemory;
use std::alloc::Global;

// The end of a line: what a row takes beside its machines.
fn fuel_end(alloc: Global, rates: &Rates, beacons: &Ratio) -> Result<String, NoMemory>
    ensures { IfOk result (λ text. string_bytes text ≡ line_then (fuel_words rates.now beacons.now) []) }
{
    let end = String::from_str(alloc, "\n")?;
    let end = number_end(alloc, "beacons", beacons, end)?;
    let end = number_end(alloc, "emits", &rates.pollution, end)?;
    number_end(alloc, "fuel", &rates.fuel, end)
}

// The end of a line: what a row takes.
fn rates_end(alloc: Global, rates: &Rates, beacons: &Ratio) -> Result<String, NoMemory>
    ensures { IfOk result (λ text. string_bytes text ≡ line_then (rates_words rates.now beacons.now) []) }
{
    let end = fuel_end(alloc, rates, beacons)?;
    let end = number_end(alloc, "drain", &rates.drain, end)?;
    let end = number_end(alloc, "power", &rates.power, end)?;
    number_end(alloc, "machines", &rates.machines, end)
}

// The end of a line: the use of power and the pollution of a row, and what it takes.
fn consumption_end(
    alloc: Global,
    effects: &Effects,
    rates: &Rates,
    beacons: &Ratio,
) -> Result<String, NoMemory>
    ensures { IfOk result (λ text. string_bytes text ≡ line_then (consumption_words effects.now ++ rates_words rates.now beacons.now) []) }
{
    let end = rates_end(alloc, rates, beacons)?;
    let end = number_end(alloc, "pollution", &effects.pollution, end)?;
    number_end(alloc, "consumption", &effects.consumption, end)
}

// The end of a line: the effects on a row, and what it takes.
fn effects_end(
    alloc: Global,
    effects: &Effects,
    rates: &Rates,
    beacons: &Ratio,
) -> Result<String, NoMemory>
    ensures { IfOk result (λ text. string_bytes text ≡ line_then (effects_words effects.now ++ rates_words rates.now beacons.now) []) }
{
    let end = consumption_end(alloc, effects, rates, beacons)?;
    let end = number_end(alloc, "productivity", &effects.productivity, end)?;
    number_end(alloc, "speed", &effects.speed, end)
}

/// The rates of a row, as they are told.
pub fn rate_text(
    alloc: Global,
    line: u32,
    table: &str,
    label: &str,
    effects: &Effects,
    rates: &Rates,
    beacons: &Ratio,
) -> Result<String, NoMemory>
    ensures { IfOk result (λ text. string_bytes text ≡ reply_text line (rate_line table.now label.now effects.now rates.now beacons.now ∷ [])) }
{
    let table = printed_word(alloc, table)?;
    let label = printed_word(alloc, label)?;
    let effects = effects_end(alloc, effects, rates, beacons)?;
    Ok(format!(in alloc; "{line} rate {table} {label}{effects}")?)
}
