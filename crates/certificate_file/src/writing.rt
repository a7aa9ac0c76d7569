//! Writing a certificate.
ghost use Rattle.std.specs.Prelude.{◌≡◌, ◌≤◌, false, true, Some, ◌++◌, ◌∷◌, [], IfOk, OnOk, OnErr, codes, string_bytes, vec_capacity, vec_len, ◌<◌};
ghost use Rattle.serde_json.specs.Data.{array, object, number, string, unsigned, boolean, depth, member, no_members, put as with_member};
ghost use Rattle.serde_json.specs.View.{items_view, view, members_view};
ghost use Rattle.serde_json.specs.Written.{compact_text, has_float};
ghost use Rattle.serde_json.specs.Read.{max_depth, read};
ghost use Rattle.std.specs.Str.{IsUtf8};
ghost use Rattle.fractions.specs.Limits.{IsNarrow};
ghost use Rattle.fractions.specs.Print.{printed};
ghost use Rattle.certificate_file.specs.Said.{HaveLines, IsCertificate};
ghost use Rattle.certificate_file.specs.Tree.{certificate_tree, entries_tree, entry_tree, fractions_tree, plan_tree};
ghost use Rattle.certificate_file.specs.Narrow.{AreNarrow, IsNarrowClaim, AreNarrowEntries, IsNarrowPlan};

use crate::{CertEntry, Claim};
use fractions::Ratio;
use linear_table::Plan;
use plan_base::{NoMemory, Text};
use serde_json::{Map, Value, json};
use std::alloc::Global;

fn fraction_value(alloc: Global, fraction: &Ratio) -> Result<Value, NoMemory>
    ensures value { IfOk result (λ value. view value ≡ string (printed fraction.now)) }
    ensures narrow { IsNarrow fraction.now }
{
    let _numerator = fraction.numerator();
    let _denominator = fraction.denominator();
    let text = fraction.print(alloc)?;
    Ok(Value::try_from_str(alloc, text.as_str())?)
}

fn push(list: &mut Vec<Value>, value: Value) -> Result<(), NoMemory>
    ensures { OnOk result (list.new.items ≡ list.old.items ++ value ∷ []) }
{
    Ok(serde_json::push(list, value)?)
}

fn fractions_value(alloc: Global, fractions: &[Ratio]) -> Result<Value, NoMemory>
    ensures { IfOk result (λ value. (view value ≡ array (fractions_tree fractions.now)) × AreNarrow fractions.now) }
{
    let mut list = Vec::new(alloc);
    for fraction in fractions {
        push(&mut list, fraction_value(alloc, fraction)?)?;
    }
    Ok(Value::Array(list))
}

fn put(map: &mut Map<String, Value>, alloc: Global, key: &str, value: Value) -> Result<(), NoMemory>
    ensures { OnOk result (members_view map.new.entries ≡ with_member key.now (view value) (members_view map.old.entries)) }
{
    Ok(serde_json::put(map, alloc, key, value)?)
}

fn plan_object(alloc: Global, cost: Value, prices: Value, rates: Value) -> Result<Value, NoMemory>
    ensures { IfOk result (λ value. view value ≡ object (member (codes "cost") (view cost) (member (codes "prices") (view prices) (member (codes "rates") (view rates) no_members)))) }
{
    let mut map = Map::new(alloc);
    put(&mut map, alloc, "cost", cost)?;
    put(&mut map, alloc, "prices", prices)?;
    put(&mut map, alloc, "rates", rates)?;
    Ok(Value::Object(map))
}

fn plan_value(alloc: Global, plan: &Plan) -> Result<Value, NoMemory>
    ensures { IfOk result (λ value. (view value ≡ plan_tree plan.now) × IsNarrowPlan plan.now) }
{
    let cost = fraction_value(alloc, &plan.cost)?;
    let prices = fractions_value(alloc, plan.prices.as_slice())?;
    let rates = fractions_value(alloc, plan.rates.as_slice())?;
    plan_object(alloc, cost, prices, rates)
}

fn planned_value(alloc: Global, line: u32, plan: &Plan) -> Result<Value, NoMemory>
    ensures { IfOk result (λ value. (view value ≡ object (member (codes "line") (number (unsigned line)) (member (codes "plan") (plan_tree plan.now) no_members))) × IsNarrowPlan plan.now) }
{
    let plan = plan_value(alloc, plan)?;
    Ok(json!(in alloc; {"line": line, "plan": plan})?)
}

fn infeasible_value(alloc: Global, line: u32, prices: &[Ratio]) -> Result<Value, NoMemory>
    ensures { IfOk result (λ value. (view value ≡ object (member (codes "infeasible") (array (fractions_tree prices.now)) (member (codes "line") (number (unsigned line)) no_members))) × AreNarrow prices.now) }
{
    let prices = fractions_value(alloc, prices)?;
    Ok(json!(in alloc; {"infeasible": prices, "line": line})?)
}

fn open_value(alloc: Global, line: u32) -> Result<Value, NoMemory>
    ensures { IfOk result (λ value. view value ≡ object (member (codes "line") (number (unsigned line)) (member (codes "open") (boolean true) no_members))) }
{
    Ok(json!(in alloc; {"line": line, "open": true})?)
}

fn entry_value(alloc: Global, entry: &CertEntry) -> Result<Value, NoMemory>
    ensures { IfOk result (λ value. (view value ≡ entry_tree entry.now) × IsNarrowClaim entry.now.claim) }
{
    match &entry.claim {
        Claim::Planned(plan) => planned_value(alloc, entry.line, plan),
        Claim::Infeasible(prices) => infeasible_value(alloc, entry.line, prices.as_slice()),
        Claim::Unsettled => open_value(alloc, entry.line),
    }
}

fn entries_value(alloc: Global, entries: &[CertEntry]) -> Result<Value, NoMemory>
    ensures { IfOk result (λ value. (view value ≡ array (entries_tree entries.now)) × AreNarrowEntries entries.now) }
{
    let mut list = Vec::new(alloc);
    for entry in entries {
        push(&mut list, entry_value(alloc, entry)?)?;
    }
    Ok(Value::Array(list))
}

fn certificate_value(alloc: Global, entries: &[CertEntry]) -> Result<Value, NoMemory>
    ensures { IfOk result (λ value. (view value ≡ certificate_tree entries.now) × AreNarrowEntries entries.now) }
{
    let answers = entries_value(alloc, entries)?;
    Ok(json!(in alloc; {"answers": answers, "version": 1u32})?)
}

// The text of a value.
fn text_of(alloc: Global, value: &Value) -> Result<Text, NoMemory>
    ensures utf8 { IfOk result IsUtf8 }
    ensures text { IfOk result (λ text. has_float (view value.now) ≡ false → text ≡ compact_text (view value.now)) }
    ensures reads_back { IfOk result (λ text. depth (view value.now) ≤ max_depth → read text ≡ Some (view value.now)) }
{
    let text = Text::from_string(value.to_string(alloc)?);
    let _seen = text.as_str();
    Ok(text)
}

/// The text of a certificate: compact, with the keys of each object in alphabetical order.
///
/// # Errors
///
/// `NoMemory` where memory could not be had.
pub fn write_cert(alloc: Global, entries: &[CertEntry]) -> Result<Text, NoMemory>
    ensures text { IfOk result (λ text. text ≡ compact_text (certificate_tree entries.now)) }
    ensures said { IfOk result (λ text. HaveLines entries.now → IsCertificate text entries.now) }
{
    let value = certificate_value(alloc, entries)?;
    text_of(alloc, &value)
}
