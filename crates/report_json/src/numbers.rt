//! Numbers, exact and as decimals.
ghost use Rattle.std.specs.Prelude.{◌≡◌, IfOk, OnOk, string_bytes};
ghost use Rattle.serde_json.specs.View.{members_view};
ghost use Rattle.serde_json.specs.Data.{no_members};
ghost use Rattle.report_json.specs.Numbers.{decimal_of};
ghost use Rattle.report_json.specs.Values.{with_figure, with_number, with_parts};

use crate::values::put_null;
use catalog_members::{Members, put_amount, put_object, put_text};
use fractions::Ratio;
use page_parts::decimal;
use plan_base::NoMemory;
use serde_json::Map;
use std::alloc::Global;

/// The nearest decimal of three places, halves away from 0.
///
/// # Errors
///
/// `NoMemory` where memory could not be had.
pub fn decimal_of(alloc: Global, number: &Ratio) -> Result<String, NoMemory>
    ensures { IfOk result (λ text. string_bytes text ≡ decimal_of number.now) }
{
    decimal(alloc, number)
}

#[tactic(auto, unfolding(crate::specs::Values::with_parts))]
fn put_parts(members: &mut Members, alloc: Global, number: &Ratio) -> Result<(), NoMemory>
    ensures { OnOk result (members_view members.new.entries ≡ with_parts number.now (members_view members.old.entries)) }
{
    let text = decimal_of(alloc, number)?;
    put_text(members, alloc, "decimal", text.as_str())?;
    put_amount(members, alloc, "exact", number)
}

fn number_parts(alloc: Global, number: &Ratio) -> Result<Members, NoMemory>
    ensures { IfOk result (λ parts. members_view parts.entries ≡ with_parts number.now no_members) }
{
    let mut parts = Map::new(alloc);
    put_parts(&mut parts, alloc, number)?;
    Ok(parts)
}

/// Puts a number: its exact text, in lowest terms, and its nearest decimal.
///
/// # Errors
///
/// `NoMemory` where memory could not be had.
#[tactic(auto, unfolding(crate::specs::Values::with_number))]
pub fn put_number(
    members: &mut Members,
    alloc: Global,
    key: &str,
    number: &Ratio,
) -> Result<(), NoMemory>
    ensures { OnOk result (members_view members.new.entries ≡ with_number key.now number.now (members_view members.old.entries)) }
{
    let parts = number_parts(alloc, number)?;
    put_object(members, alloc, key, parts)
}

/// Puts a figure, null where it is past the limits of fractions.
#[tactic(auto, unfolding(crate::specs::Values::with_figure, crate::specs::Values::with_number, catalog_members::specs::Members::with_object))]
pub fn put_figure(
    members: &mut Members,
    alloc: Global,
    key: &str,
    figure: &Option<Ratio>,
) -> Result<(), NoMemory>
    ensures { OnOk result (members_view members.new.entries ≡ with_figure key.now figure.now (members_view members.old.entries)) }
{
    match figure {
        Some(number) => put_number(members, alloc, key, number),
        None => put_null(members, alloc, key),
    }
}
