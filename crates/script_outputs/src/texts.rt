//! Costs as text.
ghost use Rattle.std.specs.Prelude.{◌≡◌, ◌++◌, ◌∷◌, [], IfOk, OnOk, Some, map, string_bytes};
ghost use Rattle.std.specs.List.{flat_map};
ghost use Rattle.csv.specs.Records.{fields_of};
ghost use Rattle.game_types.specs.Sound.{IsSound};
ghost use Rattle.plan_records.specs.Texts.{record_text};
ghost use Rattle.serde_json.specs.View.{members_view};
ghost use Rattle.catalog_members.specs.Texts.{IsTextOf};
ghost use Rattle.script_outputs.specs.Costs.{cost_fields, cost_value, costs_text, estimate_fields};

use crate::estimates::Cost;
use catalog_members::text_of;
use csv::StringRecord;
use fractions::Ratio;
use game_types::Game;
use plan_base::NoMemory;
use plan_records::record_text;
use report_json::{decimal_of, good_id, put_figure, put_good};
use serde_json::Map;
use std::alloc::Global;

fn push_field(fields: &mut StringRecord, text: &str) -> Result<(), NoMemory>
    ensures { OnOk result (fields_of fields.new ≡ fields_of fields.old ++ text.now ∷ []) }
{
    Ok(fields.push_field(text)?)
}

fn push_both(fields: &mut StringRecord, first: &str, second: &str) -> Result<(), NoMemory>
    ensures { OnOk result (fields_of fields.new ≡ fields_of fields.old ++ (first.now ∷ second.now ∷ [])) }
{
    push_field(fields, first)?;
    push_field(fields, second)
}

fn push_number(fields: &mut StringRecord, alloc: Global, number: &Ratio) -> Result<(), NoMemory>
    ensures { OnOk result (fields_of fields.new ≡ fields_of fields.old ++ estimate_fields (Some number.now)) }
{
    let exact = number.print(alloc)?;
    let decimal = decimal_of(alloc, number)?;
    push_both(fields, exact.as_str(), decimal.as_str())
}

fn push_estimate(
    fields: &mut StringRecord,
    alloc: Global,
    estimate: &Option<Ratio>,
) -> Result<(), NoMemory>
    ensures { OnOk result (fields_of fields.new ≡ fields_of fields.old ++ estimate_fields estimate.now) }
{
    match estimate {
        Some(number) => push_number(fields, alloc, number),
        None => push_both(fields, "", ""),
    }
}

fn cost_record(alloc: Global, game: &Game, cost: &Cost) -> Result<StringRecord, NoMemory>
    requires { IsSound game.now }
    ensures { IfOk result (λ fields. fields_of fields ≡ cost_fields game.now cost.now) }
{
    let good = good_id(alloc, game, cost.0)?;
    let mut fields = StringRecord::new(alloc);
    push_field(&mut fields, good.as_str())?;
    push_estimate(&mut fields, alloc, &cost.1)?;
    Ok(fields)
}

fn cost_text(alloc: Global, game: &Game, cost: &Cost) -> Result<Vec<u8>, NoMemory>
    requires { IsSound game.now }
    ensures { IfOk result (λ text. text.items ≡ record_text (cost_fields game.now cost.now)) }
{
    let fields = cost_record(alloc, game, cost)?;
    record_text(alloc, &fields)
}

#[tactic(auto, using(plan_report::proofs::Texts::text_first, plan_report::proofs::Texts::text_more, plan_report::proofs::Texts::text_end))]
fn records_text(alloc: Global, game: &Game, costs: &[Cost]) -> Result<Vec<u8>, NoMemory>
    requires { IsSound game.now }
    ensures { IfOk result (λ text. text.items ≡ flat_map record_text (map (cost_fields game.now) costs.now)) }
{
    let mut text = Vec::new(alloc);
    for cost in costs {
        let line = cost_text(alloc, game, cost)?;
        text.extend_from_slice(line.as_slice())?;
    }
    Ok(text)
}

/// The costs as comma-separated values, with the names of the fields first.
///
/// # Errors
///
/// `NoMemory` where memory could not be had.
#[tactic(auto, unfolding(crate::specs::Costs::costs_text))]
pub fn csv_text(alloc: Global, game: &Game, costs: &[Cost]) -> Result<Vec<u8>, NoMemory>
    requires { IsSound game.now }
    ensures { IfOk result (λ text. text.items ≡ costs_text game.now costs.now) }
{
    let records = records_text(alloc, game, costs)?;
    let mut text = Vec::new(alloc);
    text.extend_from_slice(b"good,estimate,estimate_decimal\n")?;
    text.extend_from_slice(records.as_slice())?;
    Ok(text)
}

#[tactic(auto, unfolding(crate::specs::Costs::cost_value))]
fn object_text(alloc: Global, game: &Game, cost: &Cost) -> Result<String, NoMemory>
    requires { IsSound game.now }
    ensures { IfOk result (λ text. IsTextOf (cost_value game.now cost.now) (string_bytes text)) }
{
    let mut members = Map::new(alloc);
    put_good(&mut members, alloc, "good", game, cost.0)?;
    put_figure(&mut members, alloc, "estimate", &cost.1)?;
    text_of(alloc, members)
}

/// The costs as JSON Lines: an object for each good.
///
/// # Errors
///
/// `NoMemory` where memory could not be had.
pub fn json_text(alloc: Global, game: &Game, costs: &[Cost]) -> Result<Vec<u8>, NoMemory>
    requires { IsSound game.now }
{
    let mut text = Vec::new(alloc);
    for cost in costs {
        let object = object_text(alloc, game, cost)?;
        text.extend_from_slice(object.as_bytes())?;
        text.push(b'\n')?;
    }
    Ok(text)
}
