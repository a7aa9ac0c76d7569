//! Pieces of text behind one another.
ghost use Rattle.std.specs.Prelude.{◌≡◌, ◌++◌, IfOk, OnOk, string_bytes};
ghost use Rattle.std.specs.List.{flat_map};
ghost use Rattle.page_rows.specs.Pieces.{piece_text, text_of};

use crate::labels::label_text;
use crate::numbers::{exact_text, near_text};
use fractions::Ratio;
use page_parts::{Done, escaped};
use plan_base::NoMemory;
use std::alloc::Global;

/// A piece of a page, a drawing or a graph.
#[derive(Clone, Copy)]
pub enum Piece<'a> {
    /// A text of this program, as it is.
    Text(&'a str),
    /// A text of others.
    Name(&'a str),
    /// A text of others in a label of a graph.
    Label(&'a str),
    /// A whole number.
    Count(u64),
    /// A fraction as it is printed.
    Exact(&'a Ratio),
    /// A fraction as a decimal.
    Near(&'a Ratio),
}

fn piece_text(alloc: Global, piece: &Piece<'_>) -> Result<String, NoMemory>
    ensures { IfOk result (λ text. string_bytes text ≡ piece_text piece.now) }
{
    match piece {
        Piece::Text(text) => Ok(String::from_str(alloc, text)?),
        Piece::Name(name) => escaped(alloc, name),
        Piece::Label(name) => label_text(alloc, name),
        Piece::Count(count) => Ok(format!(in alloc; "{count}")?),
        Piece::Exact(number) => exact_text(alloc, number),
        Piece::Near(number) => near_text(alloc, number),
    }
}

// The pieces behind one another.
fn text_of(alloc: Global, pieces: &[Piece<'_>]) -> Result<String, NoMemory>
    ensures { IfOk result (λ text. string_bytes text ≡ text_of pieces.now) }
{
    let mut text = String::new(alloc);
    for piece in pieces {
        let part = piece_text(alloc, piece)?;
        text.push_str(part.as_str())?;
    }
    Ok(text)
}

/// Writes pieces behind one another.
///
/// # Errors
///
/// `NoMemory` where memory could not be had.
pub fn put(alloc: Global, out: &mut String, pieces: &[Piece<'_>]) -> Done
    ensures { OnOk result (string_bytes out.new ≡ string_bytes out.old ++ text_of pieces.now) }
{
    let text = text_of(alloc, pieces)?;
    out.push_str(text.as_str())?;
    Ok(())
}
