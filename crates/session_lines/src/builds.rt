//! The beacons to build for a plan.
ghost use Rattle.game_types.specs.Sound.{IsSound};

use crate::answers::{Done, push_outcome, push_text, push_word};
use crate::planned::{Planned, row_of};
use fractions::Ratio;
use game_types::{BeaconGroup, Game};
use linear_table::LinearColumn;
use page_parts::machine_name;
use plan_base::Kind;
use plan_lines::Figures;
use plan_report::object_word;
use production_table::TableRow;
use std::alloc::Global;

// So many beacons for whole machines: each stands at so many of them as share it.
fn beacons_for(machines: &Ratio, group: &BeaconGroup) -> Option<Ratio> {
    let count = Ratio::whole(group.count as i64);
    let share = Ratio::whole(group.share as i64);
    if !share.is_positive() {
        return None;
    }
    let all = machines.mul(&count).ok()?;
    let each = all.div(&share).ok()?;
    Some(each.ceil())
}

fn beacons_of(figures: Option<&Figures>, group: &BeaconGroup) -> Option<Ratio> {
    match figures {
        Some(figures) => match &figures.count {
            Some(machines) => beacons_for(machines, group),
            None => None,
        },
        None => None,
    }
}

fn push_group(
    alloc: Global,
    out: &mut String,
    game: &Game,
    label: &str,
    group: &BeaconGroup,
    figures: Option<&Figures>,
) -> Done
    requires { IsSound game.now }
{
    let beacon = object_word(alloc, Kind::Machine, machine_name(game, group.beacon))?;
    push_text(out, "  build")?;
    push_word(alloc, out, label)?;
    push_text(out, " ")?;
    push_text(out, beacon.as_str())?;
    push_outcome(alloc, out, &beacons_of(figures, group))?;
    push_text(out, "\n")
}

fn push_groups(
    alloc: Global,
    out: &mut String,
    game: &Game,
    row: &TableRow,
    figures: Option<&Figures>,
) -> Done
    requires { IsSound game.now }
{
    for group in row.setup.beacons.as_slice() {
        push_group(alloc, out, game, row.label.as_str(), group, figures)?;
    }
    Ok(())
}

// The beacons of a row that is at work.
fn push_beacons(
    alloc: Global,
    out: &mut String,
    planned: &Planned<'_>,
    column: &LinearColumn,
) -> Done
    requires { IsSound planned.now.game.now }
{
    match row_of(planned, column) {
        Some((row, place)) => push_groups(alloc, out, planned.game, row, planned.rows.get(place)),
        None => Ok(()),
    }
}

/// Writes the beacons of the rows that are at work.
pub fn push_builds(alloc: Global, out: &mut String, planned: &Planned<'_>) -> Done
    requires { IsSound planned.now.game.now }
{
    let columns = planned.linear.columns.as_slice();
    let rates = planned.plan.rates.as_slice();
    for (column, rate) in columns.iter().zip(rates) {
        if !rate.is_zero() {
            push_beacons(alloc, out, planned, column)?;
        }
    }
    Ok(())
}
