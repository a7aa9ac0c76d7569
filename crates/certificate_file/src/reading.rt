//! Reading a certificate.
ghost use Rattle.std.specs.Prelude.{◌≡◌, ◌≢◌, ◌↔◌, IsTrue, ◌++◌, ◌∷◌, [], ◌≤◌, IfOk, IfSome, MatchOption, MatchResult, is_some, OnErr, OnOk, None, Some, Err, codes, ℕ, length, vec_capacity, vec_len, ◌<◌, option_map};
ghost use Rattle.fractions.specs.Fraction.{Fraction};
ghost use Rattle.serde_json.specs.Data.{Data, array, boolean, number, unsigned};
ghost use Rattle.serde_json.specs.Find.{get};
ghost use Rattle.serde_json.specs.View.{items_view, view};
ghost use Rattle.certificate_file.specs.Reading.{ReadsBy};
ghost use Rattle.certificate_file.specs.Said.{EachSays, Has, IsCertificate, IsCertFault, SaysCertificate, SaysClaim, SaysEntry, SaysFraction, SaysList, SaysPlan, IsLineOf, IsJson};

use crate::{CertEntry, CertFault, Claim, LAST_LINE};
use fractions::{Ratio, read_printed};
use linear_table::Plan;
use plan_base::{Items, NoMemory};
use serde_json::Value;
use std::alloc::Global;

// Puts an item into the room that was reserved for it.
fn put<T: Drop>(list: &mut Vec<T>, item: T)
    requires { vec_len list.old < vec_capacity list.old }
    ensures { list.new.items ≡ list.old.items ++ item ∷ [] }
{
    match list.push(item) {
        Ok(()) => {}
        Err(_) => unreachable!(),
    }
}

// One more item.
fn add<T: Drop>(list: &mut Vec<T>, item: T) -> Result<(), NoMemory>
    ensures { OnOk result (list.new.items ≡ list.old.items ++ item ∷ []) }
{
    if list.reserve(1).is_err() {
        return Err(NoMemory);
    }
    put(list, item);
    Ok(())
}

fn fraction_in(value: &Value) -> Option<Ratio>
    ensures { MatchOption result ((x : Fraction) → ¬ SaysFraction (view value.now) x) (SaysFraction (view value.now)) }
{
    let text = value.as_str()?;
    read_printed(text.as_bytes())
}

fn fractions_of(alloc: Global, values: &[Value]) -> Result<Items<Ratio>, CertFault>
    ensures { ReadsBy (EachSays SaysFraction (items_view values.now)) result }
{
    let mut found = Vec::new(alloc);
    for value in values {
        let Some(fraction) = fraction_in(value) else {
            return Err(CertFault::BadForm);
        };
        if add(&mut found, fraction).is_err() {
            return Err(CertFault::NoMemory);
        }
    }
    Ok(Items::from_vec(found))
}

fn fractions_in(alloc: Global, value: &Value) -> Result<Items<Ratio>, CertFault>
    ensures { ReadsBy (SaysList SaysFraction (view value.now)) result }
{
    match value.as_array() {
        Some(values) => fractions_of(alloc, values),
        None => Err(CertFault::BadForm),
    }
}

// The number without a sign, a point or an exponent that a member is.
fn number_at(value: &Value, key: &str) -> Option<u64>
    ensures { MatchOption result ((n : ℕ) → get key.now (view value.now) ≢ Some (number (unsigned n))) (λ n. get key.now (view value.now) ≡ Some (number (unsigned n))) }
{
    value.get(key)?.as_u64()
}

fn fraction_at(value: &Value, key: &str) -> Result<Ratio, CertFault>
    ensures { ReadsBy (λ x. Has key.now (view value.now) (λ m. SaysFraction m x)) result }
{
    let Some(member) = value.get(key) else {
        return Err(CertFault::BadForm);
    };
    fraction_in(member).ok_or(CertFault::BadForm)
}

fn fractions_at(alloc: Global, value: &Value, key: &str) -> Result<Items<Ratio>, CertFault>
    ensures { ReadsBy (λ xs. Has key.now (view value.now) (λ m. SaysList SaysFraction m xs)) result }
{
    match value.get(key) {
        Some(member) => fractions_in(alloc, member),
        None => Err(CertFault::BadForm),
    }
}

fn plan_in(alloc: Global, value: &Value) -> Result<Plan, CertFault>
    ensures { ReadsBy (SaysPlan (view value.now)) result }
{
    let rates = match fractions_at(alloc, value, "rates") {
        Ok(rates) => rates,
        Err(fault) => return Err(fault),
    };
    let cost = match fraction_at(value, "cost") {
        Ok(cost) => cost,
        Err(fault) => return Err(fault),
    };
    let prices = match fractions_at(alloc, value, "prices") {
        Ok(prices) => prices,
        Err(fault) => return Err(fault),
    };
    Ok(Plan {
        rates,
        cost,
        prices,
    })
}

fn plan_claim(alloc: Global, plan: &Value) -> Result<Claim, CertFault>
    ensures { ReadsBy (SaysClaim (Some (view plan.now)) None None) result }
{
    let plan = plan_in(alloc, plan)?;
    Ok(Claim::Planned(plan))
}

fn infeasible_claim(alloc: Global, prices: &Value) -> Result<Claim, CertFault>
    ensures { ReadsBy (SaysClaim None (Some (view prices.now)) None) result }
{
    let prices = fractions_in(alloc, prices)?;
    Ok(Claim::Infeasible(prices))
}

fn open_claim(mark: &Value) -> Result<Claim, CertFault>
    ensures { ReadsBy (SaysClaim None None (Some (view mark.now))) result }
{
    match mark.as_bool() {
        Some(true) => Ok(Claim::Unsettled),
        _ => Err(CertFault::BadForm),
    }
}

fn has(value: &Value, key: &str) -> bool
    ensures { result ≡ is_some (get key.now (view value.now)) }
{
    value.get(key).is_some()
}

// A plan, where nothing else is claimed.
fn only_plan(alloc: Global, entry: &Value, plan: &Value) -> Result<Claim, CertFault>
    ensures { ReadsBy (SaysClaim (Some (view plan.now)) (get (codes "infeasible") (view entry.now)) (get (codes "open") (view entry.now))) result }
{
    if has(entry, "infeasible") || has(entry, "open") {
        return Err(CertFault::BadForm);
    }
    plan_claim(alloc, plan)
}

// Prices that show that there is no plan, where nothing else is claimed.
fn only_prices(alloc: Global, entry: &Value, prices: &Value) -> Result<Claim, CertFault>
    ensures { ReadsBy (SaysClaim None (Some (view prices.now)) (get (codes "open") (view entry.now))) result }
{
    if has(entry, "open") {
        return Err(CertFault::BadForm);
    }
    infeasible_claim(alloc, prices)
}

fn other_claim(alloc: Global, entry: &Value) -> Result<Claim, CertFault>
    ensures { ReadsBy (SaysClaim None (get (codes "infeasible") (view entry.now)) (get (codes "open") (view entry.now))) result }
{
    if let Some(prices) = entry.get("infeasible") {
        return only_prices(alloc, entry, prices);
    }
    match entry.get("open") {
        Some(mark) => open_claim(mark),
        None => Err(CertFault::BadForm),
    }
}

fn claim_in(alloc: Global, entry: &Value) -> Result<Claim, CertFault>
    ensures { ReadsBy (SaysClaim (get (codes "plan") (view entry.now)) (get (codes "infeasible") (view entry.now)) (get (codes "open") (view entry.now))) result }
{
    match entry.get("plan") {
        Some(plan) => only_plan(alloc, entry, plan),
        None => other_claim(alloc, entry),
    }
}

// The line that a value says.
fn line_in(entry: &Value) -> Result<u32, CertFault>
    ensures { ReadsBy (IsLineOf (view entry.now)) result }
{
    match number_at(entry, "line") {
        Some(line) if 1 <= line && line <= LAST_LINE => Ok(line as u32),
        _ => Err(CertFault::BadForm),
    }
}

fn entry_in(alloc: Global, entry: &Value) -> Result<CertEntry, CertFault>
    ensures { ReadsBy (SaysEntry (view entry.now)) result }
{
    let line = match line_in(entry) {
        Ok(line) => line,
        Err(fault) => return Err(fault),
    };
    let claim = claim_in(alloc, entry)?;
    Ok(CertEntry { line, claim })
}

fn entries_of(alloc: Global, values: &[Value]) -> Result<Items<CertEntry>, CertFault>
    ensures { ReadsBy (EachSays SaysEntry (items_view values.now)) result }
{
    let mut found = Vec::new(alloc);
    for value in values {
        let entry = match entry_in(alloc, value) {
            Ok(entry) => entry,
            Err(fault) => return Err(fault),
        };
        if add(&mut found, entry).is_err() {
            return Err(CertFault::NoMemory);
        }
    }
    Ok(Items::from_vec(found))
}

fn answers_in(alloc: Global, value: &Value) -> Result<Items<CertEntry>, CertFault>
    ensures { ReadsBy (SaysList SaysEntry (view value.now)) result }
{
    match value.as_array() {
        Some(values) => entries_of(alloc, values),
        None => Err(CertFault::BadForm),
    }
}

fn is_version(value: &Value) -> bool
    ensures said { IsTrue result ↔ (get (codes "version") (view value.now) ≡ Some (number (unsigned 1))) }
{
    match number_at(value, "version") {
        Some(version) => version == 1,
        None => false,
    }
}

fn certificate_in(alloc: Global, value: &Value) -> Result<Items<CertEntry>, CertFault>
    ensures { ReadsBy (SaysCertificate (view value.now)) result }
{
    if !is_version(value) {
        return Err(CertFault::BadForm);
    }
    match value.get("answers") {
        Some(answers) => answers_in(alloc, answers),
        None => Err(CertFault::BadForm),
    }
}

fn value_in(alloc: Global, bytes: &[u8]) -> Result<Value, CertFault>
    ensures { MatchResult result (λ value. IsJson bytes.now (view value)) (λ fault. (fault ≢ CertFault.BadForm) × IsCertFault bytes.now fault) }
{
    match Value::from_slice(alloc, bytes) {
        Ok(value) => Ok(value),
        Err(error) => {
            if error.is_memory() {
                Err(CertFault::NoMemory)
            } else {
                Err(CertFault::NotJson)
            }
        }
    }
}

/// The entries of a certificate.
///
/// # Errors
///
/// `NotJson` exactly where the bytes are no JSON in UTF-8 of at most 127 levels, `BadForm` exactly where the JSON isn't a certificate,
/// and `NoMemory` where memory could not be had.
pub fn read_cert(alloc: Global, bytes: &[u8]) -> Result<Items<CertEntry>, CertFault>
    ensures { MatchResult result (IsCertificate bytes.now) (IsCertFault bytes.now) }
{
    let value = value_in(alloc, bytes)?;
    certificate_in(alloc, &value)
}
