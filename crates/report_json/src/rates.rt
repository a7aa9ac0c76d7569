//! The rates of one row.
ghost use Rattle.std.specs.Prelude.{◌≡◌, IfOk, OnOk};
ghost use Rattle.serde_json.specs.Data.{no_members};
ghost use Rattle.serde_json.specs.View.{members_view};
ghost use Rattle.report_json.specs.Replies.{with_effects, with_rate, with_takes};

use crate::numbers::put_number;
use crate::values::put_kind;
use catalog_members::{Members, put_object, put_text};
use fractions::Ratio;
use game_types::{Effects, Rates};
use plan_base::NoMemory;
use serde_json::Map;
use std::alloc::Global;

#[tactic(auto, unfolding(crate::specs::Replies::with_effects))]
fn put_effects(members: &mut Members, alloc: Global, effects: &Effects) -> Result<(), NoMemory>
    ensures { OnOk result (members_view members.new.entries ≡ with_effects effects.now (members_view members.old.entries)) }
{
    put_number(members, alloc, "speed", &effects.speed)?;
    put_number(members, alloc, "productivity", &effects.productivity)?;
    put_number(members, alloc, "consumption", &effects.consumption)?;
    put_number(members, alloc, "pollution", &effects.pollution)
}

fn effects_members(alloc: Global, effects: &Effects) -> Result<Members, NoMemory>
    ensures { IfOk result (λ inner. members_view inner.entries ≡ with_effects effects.now no_members) }
{
    let mut members = Map::new(alloc);
    put_effects(&mut members, alloc, effects)?;
    Ok(members)
}

#[tactic(auto, unfolding(crate::specs::Replies::with_takes))]
fn put_takes(
    members: &mut Members,
    alloc: Global,
    rates: &Rates,
    beacons: &Ratio,
) -> Result<(), NoMemory>
    ensures { OnOk result (members_view members.new.entries ≡ with_takes rates.now beacons.now (members_view members.old.entries)) }
{
    put_number(members, alloc, "machines", &rates.machines)?;
    put_number(members, alloc, "power", &rates.power)?;
    put_number(members, alloc, "drain", &rates.drain)?;
    put_number(members, alloc, "fuel", &rates.fuel)?;
    put_number(members, alloc, "emits", &rates.pollution)?;
    put_number(members, alloc, "beacons", beacons)
}

fn takes_members(alloc: Global, rates: &Rates, beacons: &Ratio) -> Result<Members, NoMemory>
    ensures { IfOk result (λ inner. members_view inner.entries ≡ with_takes rates.now beacons.now no_members) }
{
    let mut members = Map::new(alloc);
    put_takes(&mut members, alloc, rates, beacons)?;
    Ok(members)
}

/// Puts the rates of one row for one craft per second.
#[tactic(auto, unfolding(crate::specs::Replies::with_rate))]
pub fn put_rate(
    members: &mut Members,
    alloc: Global,
    table: &str,
    label: &str,
    effects: &Effects,
    rates: &Rates,
    beacons: &Ratio,
) -> Result<(), NoMemory>
    ensures { OnOk result (members_view members.new.entries ≡ with_rate table.now label.now effects.now rates.now beacons.now (members_view members.old.entries)) }
{
    put_kind(members, alloc, "rate")?;
    put_text(members, alloc, "table", table)?;
    put_text(members, alloc, "row", label)?;
    let effects = effects_members(alloc, effects)?;
    put_object(members, alloc, "effects", effects)?;
    let takes = takes_members(alloc, rates, beacons)?;
    put_object(members, alloc, "takes", takes)
}
