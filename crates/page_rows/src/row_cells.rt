//! A row of a plan at its rate, cell by cell.
ghost use Rattle.std.specs.Prelude.{◌≡◌, IfOk, string_bytes};
ghost use Rattle.game_types.specs.Sound.{IsSound};
ghost use Rattle.page_rows.specs.Rows.{activity_text, around_text, counts_text, idle_word, is_electric, label_text, place_text, powers_text, row_text, uses_text, work_text};

use crate::cells::{amount_cell, figure_cell, power_cell};
use crate::setups::setup_text;
use crate::things::{activity_thing, thing_text};
use fractions::{Ratio, is_zero};
use game_types::{Activity, Game};
use page_parts::escaped;
use plan_base::NoMemory;
use plan_lines::Figures;
use production_table::TableRow;
use std::alloc::Global;

/// Where a row stands: the line of its table, and its number in it.
pub(crate) fn place_text(alloc: Global, line: u32, number: usize) -> Result<String, NoMemory>
    ensures { IfOk result (λ text. string_bytes text ≡ place_text line number) }
{
    Ok(format!(in alloc; "{line}-{number}")?)
}

fn is_electric(activity: &Activity) -> bool
    ensures { result ≡ is_electric activity.now }
{
    match activity {
        Activity::Generate => true,
        _ => false,
    }
}

// The mark of a row that stands still.
fn idle_word(rate: &Ratio) -> &'static str
    ensures { result.now ≡ idle_word rate.now }
{
    if is_zero(rate) { " class=\"idle\"" } else { "" }
}

// The label of a row, with a link to its card where it has one.
#[tactic(auto, unfolding(crate::specs::Rows::label_text))]
fn label_text(alloc: Global, place: &str, label: &str, rate: &Ratio) -> Result<String, NoMemory>
    ensures { IfOk result (λ text. string_bytes text ≡ label_text place.now label.now rate.now) }
{
    let label = escaped(alloc, label)?;
    if is_zero(rate) {
        Ok(format!(in alloc; "<th data-l=\"row\" data-v=\"{label}\">{label}</th>")?)
    } else {
        Ok(format!(in alloc;
            "<th data-l=\"row\" data-v=\"{label}\"><a href=\"#c{place}\">{label}</a></th>"
        )?)
    }
}

fn activity_text(alloc: Global, game: &Game, activity: Activity) -> Result<String, NoMemory>
    requires { IsSound game.now }
    ensures { IfOk result (λ text. string_bytes text ≡ activity_text game.now activity) }
{
    let thing = activity_thing(game, activity);
    thing_text(alloc, game, thing)
}

// What a row does, by what, with a note, and how often.
#[tactic(auto, unfolding(crate::specs::Rows::work_text))]
fn work_text(
    alloc: Global,
    game: &Game,
    row: &TableRow,
    rate: &Ratio,
    note: &str,
) -> Result<String, NoMemory>
    requires { IsSound game.now }
    ensures { IfOk result (λ text. string_bytes text ≡ work_text game.now row.now rate.now note.now) }
{
    let does = activity_text(alloc, game, row.setup.activity)?;
    let by = setup_text(alloc, game, &row.setup)?;
    let electric = is_electric(&row.setup.activity);
    let often = amount_cell(alloc, "crafts", electric, rate)?;
    Ok(format!(in alloc;
        "<td data-l=\"does\">{does}</td><td data-l=\"by\">{by}{note}</td>{often}"
    )?)
}

// How many machines a row has.
fn counts_text(alloc: Global, figures: &Figures) -> Result<String, NoMemory>
    ensures { IfOk result (λ text. string_bytes text ≡ counts_text figures.now) }
{
    let machines = figure_cell(alloc, "machines", &figures.machines)?;
    let count = figure_cell(alloc, "to build", &figures.count)?;
    Ok(format!(in alloc; "{machines}{count}")?)
}

// The power that machines take, and what they take beside it.
fn powers_text(alloc: Global, figures: &Figures) -> Result<String, NoMemory>
    ensures { IfOk result (λ text. string_bytes text ≡ powers_text figures.now) }
{
    let power = power_cell(alloc, "power", &figures.power)?;
    let drain = power_cell(alloc, "drain", &figures.drain)?;
    Ok(format!(in alloc; "{power}{drain}")?)
}

// The power of the beacons round machines, and their pollution.
fn around_text(alloc: Global, figures: &Figures) -> Result<String, NoMemory>
    ensures { IfOk result (λ text. string_bytes text ≡ around_text figures.now) }
{
    let beacons = power_cell(alloc, "beacons", &figures.beacons)?;
    let pollution = figure_cell(alloc, "pollution/min", &figures.pollution)?;
    Ok(format!(in alloc; "{beacons}{pollution}")?)
}

/// What machines take: power, drain, beacons and pollution.
pub(crate) fn uses_text(alloc: Global, figures: &Figures) -> Result<String, NoMemory>
    ensures { IfOk result (λ text. string_bytes text ≡ uses_text figures.now) }
{
    let powers = powers_text(alloc, figures)?;
    let around = around_text(alloc, figures)?;
    Ok(format!(in alloc; "{powers}{around}")?)
}

/// A row at its rate.
#[tactic(auto, unfolding(crate::specs::Rows::row_text))]
pub(crate) fn row_text(
    alloc: Global,
    game: &Game,
    place: &str,
    row: &TableRow,
    rate: &Ratio,
    figures: &Figures,
    note: &str,
) -> Result<String, NoMemory>
    requires { IsSound game.now }
    ensures { IfOk result (λ text. string_bytes text ≡ row_text game.now place.now row.now rate.now figures.now note.now) }
{
    let idle = idle_word(rate);
    let label = label_text(alloc, place, row.label.as_str(), rate)?;
    let work = work_text(alloc, game, row, rate, note)?;
    let counts = counts_text(alloc, figures)?;
    let uses = uses_text(alloc, figures)?;
    Ok(format!(in alloc; "<tr data-f{idle} id=\"r{place}\">{label}{work}{counts}{uses}</tr>\n")?)
}
