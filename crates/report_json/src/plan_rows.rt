//! The rows of a plan, each with what it uses.
ghost use Rattle.std.specs.Prelude.{◌≡◌, IfOk, OnOk, map};
ghost use Rattle.std.specs.List.{zip};
ghost use Rattle.serde_json.specs.View.{members_view, view};
ghost use Rattle.report_json.specs.Replies.{row_value, with_row, with_rows, with_uses};

use crate::numbers::{put_figure, put_number};
use crate::values::{push, put_list, value_of};
use catalog_members::{Members, put_text};
use fractions::Ratio;
use plan_base::{NoMemory, Text};
use plan_lines::Figures;
use serde_json::{Map, Value};
use std::alloc::Global;

/// Puts what machines use.
#[tactic(auto, unfolding(crate::specs::Replies::with_uses))]
pub fn put_uses(members: &mut Members, alloc: Global, figures: &Figures) -> Result<(), NoMemory>
    ensures { OnOk result (members_view members.new.entries ≡ with_uses figures.now (members_view members.old.entries)) }
{
    put_figure(members, alloc, "power", &figures.power)?;
    put_figure(members, alloc, "drain", &figures.drain)?;
    put_figure(members, alloc, "beacons", &figures.beacons)?;
    put_figure(members, alloc, "pollution", &figures.pollution)
}

#[tactic(auto, unfolding(crate::specs::Replies::with_row))]
fn put_row(
    members: &mut Members,
    alloc: Global,
    label: &str,
    rate: &Ratio,
    figures: &Figures,
) -> Result<(), NoMemory>
    ensures { OnOk result (members_view members.new.entries ≡ with_row label.now rate.now figures.now (members_view members.old.entries)) }
{
    put_text(members, alloc, "row", label)?;
    put_number(members, alloc, "rate", rate)?;
    put_figure(members, alloc, "machines", &figures.machines)?;
    put_figure(members, alloc, "count", &figures.count)?;
    put_uses(members, alloc, figures)
}

fn row_value(alloc: Global, label: &str, rate: &Ratio, figures: &Figures) -> Result<Value, NoMemory>
    ensures { IfOk result (λ value. view value ≡ row_value (label.now, (rate.now, figures.now))) }
{
    let mut members = Map::new(alloc);
    put_row(&mut members, alloc, label, rate, figures)?;
    Ok(value_of(members))
}

#[tactic(auto, using(crate::proofs::Listing::one_given))]
fn row_values(
    alloc: Global,
    labels: &[Text],
    rates: &[Ratio],
    rows: &[Figures],
) -> Result<Vec<Value>, NoMemory>
    ensures { IfOk result (λ list. map view list.items ≡ map row_value (zip labels.now (zip rates.now rows.now))) }
{
    let mut list = Vec::new(alloc);
    for (label, (rate, figures)) in labels.iter().zip(rates.iter().zip(rows)) {
        push(&mut list, row_value(alloc, label.as_str(), rate, figures)?)?;
    }
    Ok(list)
}

/// Puts the rows of a plan.
#[tactic(auto, unfolding(crate::specs::Replies::with_rows))]
pub fn put_rows(
    members: &mut Members,
    alloc: Global,
    labels: &[Text],
    rates: &[Ratio],
    rows: &[Figures],
) -> Result<(), NoMemory>
    ensures { OnOk result (members_view members.new.entries ≡ with_rows labels.now rates.now rows.now (members_view members.old.entries)) }
{
    let list = row_values(alloc, labels, rates, rows)?;
    put_list(members, alloc, "rows", list)
}
