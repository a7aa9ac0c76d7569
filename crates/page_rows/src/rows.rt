//! The rows of a plan, and what all of them take together.
ghost use Rattle.std.specs.Prelude.{◌≡◌, IfOk, slice_get, slice_index_or, string_bytes};
ghost use Rattle.fractions.specs.Fraction.{zero_fraction};
ghost use Rattle.game_types.specs.Sound.{IsSound};
ghost use Rattle.page_rows.specs.Rows.{note_text, place_text, row_at, row_text, row_with, rows_text, total_text};

use crate::row_cells::{place_text, row_text, uses_text};
use crate::row_notes::note_text;
use fractions::Ratio;
use game_types::Game;
use plan_base::NoMemory;
use plan_lines::Figures;
use production_table::TableRow;
use std::alloc::Global;

// The rate at a place, 0 past the last.
fn rate_at(rates: &[Ratio], number: usize) -> Ratio
    ensures { result ≡ slice_index_or rates.now number zero_fraction }
{
    match rates.get(number) {
        Some(rate) => *rate,
        None => Ratio::zero(),
    }
}

// A row with its note.
fn noted_row(
    alloc: Global,
    game: &Game,
    line: u32,
    rows: &[TableRow],
    figures: &[Figures],
    place: &str,
    row: &TableRow,
    rate: &Ratio,
    own: &Figures,
) -> Result<String, NoMemory>
    requires { IsSound game.now }
    ensures { IfOk result (λ text. string_bytes text ≡ row_text game.now place.now row.now rate.now own.now (note_text line rows.now figures.now row.now rate.now own.now)) }
{
    let note = note_text(alloc, line, rows, figures, row, rate, own)?;
    row_text(alloc, game, place, row, rate, own, note.as_str())
}

// A row with its figures, nothing where there are none.
fn row_with(
    alloc: Global,
    game: &Game,
    line: u32,
    rows: &[TableRow],
    figures: &[Figures],
    row: &TableRow,
    rate: &Ratio,
    number: usize,
) -> Result<String, NoMemory>
    requires { IsSound game.now }
    ensures { IfOk result (λ text. string_bytes text ≡ row_with game.now line rows.now figures.now (place_text line number) row.now rate.now (slice_get figures.now number)) }
{
    let place = place_text(alloc, line, number)?;
    match figures.get(number) {
        Some(own) => noted_row(
            alloc,
            game,
            line,
            rows,
            figures,
            place.as_str(),
            row,
            rate,
            own,
        ),
        None => Ok(String::new(alloc)),
    }
}

// The row of a number, nothing past the last.
#[tactic(auto, unfolding(crate::specs::Rows::row_at))]
fn row_at(
    alloc: Global,
    game: &Game,
    line: u32,
    rows: &[TableRow],
    rates: &[Ratio],
    figures: &[Figures],
    number: usize,
) -> Result<String, NoMemory>
    requires { IsSound game.now }
    ensures { IfOk result (λ text. string_bytes text ≡ row_at game.now line rows.now rates.now figures.now number) }
{
    let rate = rate_at(rates, number);
    match rows.get(number) {
        Some(row) => row_with(alloc, game, line, rows, figures, row, &rate, number),
        None => Ok(String::new(alloc)),
    }
}

/// The rows of a plan of the table of a line, each at its rate and with its figures.
///
/// # Errors
///
/// `NoMemory` where memory could not be had.
#[tactic(auto, using(crate::proofs::Below::below_first, crate::proofs::Below::below_more, crate::proofs::Below::below_end))]
pub fn rows_text(
    alloc: Global,
    game: &Game,
    line: u32,
    rows: &[TableRow],
    rates: &[Ratio],
    figures: &[Figures],
) -> Result<String, NoMemory>
    requires { IsSound game.now }
    ensures { IfOk result (λ text. string_bytes text ≡ rows_text game.now line rows.now rates.now figures.now) }
{
    let mut text = String::new(alloc);
    for number in 0..rows.len() {
        let row = row_at(alloc, game, line, rows, rates, figures, number)?;
        text.push_str(row.as_str())?;
    }
    Ok(text)
}

/// What all rows take together.
///
/// # Errors
///
/// `NoMemory` where memory could not be had.
pub fn total_text(alloc: Global, total: &Figures) -> Result<String, NoMemory>
    ensures { IfOk result (λ text. string_bytes text ≡ total_text total.now) }
{
    let uses = uses_text(alloc, total)?;
    Ok(format!(in alloc;
        "<tr><th data-l=\"row\">total</th><td class=\"e\" colspan=\"5\"></td>{uses}</tr>\n"
    )?)
}
