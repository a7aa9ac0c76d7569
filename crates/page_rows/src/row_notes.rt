//! The note of a row that has no machines of its own: where it is done.
ghost use Rattle.std.specs.Prelude.{◌≡◌, IfOk, slice_get, string_bytes};
ghost use Rattle.page_rows.specs.Rows.{has_none, link_at, link_by, link_with, links_text, note_text, place_link};

use crate::row_cells::place_text;
use fractions::{Ratio, is_zero};
use page_parts::escaped;
use plan_base::NoMemory;
use plan_lines::Figures;
use production_table::TableRow;
use std::alloc::Global;

// Whether a row has no machines of its own.
fn has_none(machines: &Option<Ratio>) -> bool
    ensures { result ≡ has_none machines.now }
{
    match machines {
        Some(machines) => is_zero(machines),
        None => false,
    }
}

#[tactic(auto, unfolding(crate::specs::Rows::place_link))]
fn place_link(alloc: Global, line: u32, number: usize, row: &TableRow) -> Result<String, NoMemory>
    ensures { IfOk result (λ text. string_bytes text ≡ place_link line number row.now) }
{
    let place = place_text(alloc, line, number)?;
    let label = escaped(alloc, row.label.as_str())?;
    Ok(format!(in alloc; " <a href=\"#r{place}\">{label}</a>")?)
}

// A link to another row, where it has machines of the same kind.
fn link_by(
    alloc: Global,
    line: u32,
    number: usize,
    row: &TableRow,
    other: &TableRow,
    figures: &Figures,
) -> Result<String, NoMemory>
    ensures { IfOk result (λ text. string_bytes text ≡ link_by line number row.now other.now figures.now) }
{
    if other.setup.machine.0 == row.setup.machine.0 && !has_none(&figures.machines) {
        place_link(alloc, line, number, other)
    } else {
        Ok(String::new(alloc))
    }
}

fn link_with(
    alloc: Global,
    line: u32,
    number: usize,
    row: &TableRow,
    other: &TableRow,
    figures: &[Figures],
) -> Result<String, NoMemory>
    ensures { IfOk result (λ text. string_bytes text ≡ link_with line number row.now other.now (slice_get figures.now number)) }
{
    match figures.get(number) {
        Some(figures) => link_by(alloc, line, number, row, other, figures),
        None => Ok(String::new(alloc)),
    }
}

#[tactic(auto, unfolding(crate::specs::Rows::link_at))]
fn link_at(
    alloc: Global,
    line: u32,
    rows: &[TableRow],
    figures: &[Figures],
    row: &TableRow,
    number: usize,
) -> Result<String, NoMemory>
    ensures { IfOk result (λ text. string_bytes text ≡ link_at line rows.now figures.now row.now number) }
{
    match rows.get(number) {
        Some(other) => link_with(alloc, line, number, row, other, figures),
        None => Ok(String::new(alloc)),
    }
}

// Links to the rows with machines of the kind of a row.
#[tactic(auto, using(crate::proofs::Below::below_first, crate::proofs::Below::below_more, crate::proofs::Below::below_end))]
fn links_text(
    alloc: Global,
    line: u32,
    rows: &[TableRow],
    figures: &[Figures],
    row: &TableRow,
) -> Result<String, NoMemory>
    ensures { IfOk result (λ text. string_bytes text ≡ links_text line rows.now figures.now row.now) }
{
    let mut text = String::new(alloc);
    for number in 0..rows.len() {
        let link = link_at(alloc, line, rows, figures, row, number)?;
        text.push_str(link.as_str())?;
    }
    Ok(text)
}

/// Where a row is done that has no machines of its own, as a launch.
#[tactic(auto, unfolding(crate::specs::Rows::note_text))]
pub(crate) fn note_text(
    alloc: Global,
    line: u32,
    rows: &[TableRow],
    figures: &[Figures],
    row: &TableRow,
    rate: &Ratio,
    own: &Figures,
) -> Result<String, NoMemory>
    ensures { IfOk result (λ text. string_bytes text ≡ note_text line rows.now figures.now row.now rate.now own.now) }
{
    if has_none(&own.machines) && !is_zero(rate) {
        let links = links_text(alloc, line, rows, figures, row)?;
        Ok(format!(in alloc; "<small>in the machines of{links}</small>")?)
    } else {
        Ok(String::new(alloc))
    }
}
