//! What a page or a graph is written of: pieces behind one another.
use crate::Done;
use crate::amounts::Amount;
use crate::decimals::decimal;
use crate::escape::{cut, escaped, label};
use fractions::Ratio;
use plan_base::{Kind, NoMemory};
use plan_lines::RefusalCode;
use plan_report::kind_word;
use std::alloc::Global;

/// A piece of a page, a drawing or a graph.
#[derive(Clone, Copy)]
pub enum Piece<'a> {
    /// A text of this program, as it is.
    Text(&'a str),
    /// A text of others.
    Name(&'a str),
    /// So many letters of a text of others.
    Short(&'a str, usize),
    /// A text of others in a label of a graph.
    Label(&'a str),
    /// A name, marked by its kind.
    Thing(Kind, &'a str),
    /// A whole number.
    Count(u64),
    /// A number: a whole one as it is, any other as a decimal with the fraction beside it.
    Number(&'a Ratio),
    /// A cell with a number, or with a word where it is past the limits of fractions.
    Cell(&'a Option<Ratio>),
    /// An amount without its sign: the fraction, and a decimal where it isn't whole.
    Amount(&'a Amount),
    /// An amount without its sign in few letters.
    Rough(&'a Amount),
    /// The letters of a refusal.
    Code(RefusalCode),
}

/// Writes pieces behind one another.
pub fn put(alloc: Global, out: &mut String, pieces: &[Piece<'_>]) -> Done {
    for piece in pieces {
        push_piece(alloc, out, piece)?;
    }
    Ok(())
}

fn push_piece(alloc: Global, out: &mut String, piece: &Piece<'_>) -> Done {
    match piece {
        Piece::Text(text) => push_text(out, text),
        Piece::Name(name) => push_text_of(out, escaped(alloc, name)),
        Piece::Short(name, most) => push_short(alloc, out, name, *most),
        Piece::Label(name) => push_text_of(out, label(alloc, name)),
        Piece::Thing(kind, name) => push_thing(alloc, out, *kind, name),
        Piece::Count(count) => push_count(out, *count),
        _ => push_figure(alloc, out, piece),
    }
}

fn push_figure(alloc: Global, out: &mut String, piece: &Piece<'_>) -> Done {
    match piece {
        Piece::Number(number) => push_number(alloc, out, number),
        Piece::Cell(figure) => push_cell(alloc, out, figure),
        Piece::Amount(amount) => push_amount(alloc, out, amount),
        Piece::Rough(amount) => push_rough(alloc, out, amount),
        Piece::Code(code) => push_code(out, *code),
        _ => Ok(()),
    }
}

/// Writes a text of this program, as it is.
pub fn push_text(out: &mut String, text: &str) -> Done {
    out.push_str(text)?;
    Ok(())
}

// A text that was made for it.
fn push_text_of(out: &mut String, made: Result<String, NoMemory>) -> Done {
    let text = made?;
    push_text(out, text.as_str())
}

fn push_texts(out: &mut String, texts: &[&str]) -> Done {
    for text in texts {
        push_text(out, text)?;
    }
    Ok(())
}

fn push_short(alloc: Global, out: &mut String, name: &str, most: usize) -> Done {
    let short = cut(alloc, name, most)?;
    push_text_of(out, escaped(alloc, short.as_str()))
}

fn push_thing(alloc: Global, out: &mut String, kind: Kind, name: &str) -> Done {
    let kind = kind_word(kind);
    let name = escaped(alloc, name)?;
    let name = name.as_str();
    push_texts(
        out,
        &[
            "<span class=\"",
            kind,
            "\" title=\"",
            kind,
            ":",
            name,
            "\">",
            name,
            "</span>",
        ],
    )
}

fn push_count(out: &mut String, count: u64) -> Done {
    write!(out, "{count}")?;
    Ok(())
}

fn push_code(out: &mut String, code: RefusalCode) -> Done {
    write!(out, "{code:?}")?;
    Ok(())
}

fn push_exact(alloc: Global, out: &mut String, number: &Ratio) -> Done {
    let exact = number.print(alloc)?;
    push_text(out, exact.as_str())
}

fn push_near(alloc: Global, out: &mut String, number: &Ratio) -> Done {
    push_text_of(out, decimal(alloc, number))
}

fn is_whole(number: &Ratio) -> bool {
    number.denominator() == 1
}

fn push_number(alloc: Global, out: &mut String, number: &Ratio) -> Done {
    if is_whole(number) {
        return push_exact(alloc, out, number);
    }
    push_near(alloc, out, number)?;
    push_text(out, " <i>")?;
    push_exact(alloc, out, number)?;
    push_text(out, "</i>")
}

fn push_cell(alloc: Global, out: &mut String, figure: &Option<Ratio>) -> Done {
    push_text(out, "<td>")?;
    match figure {
        Some(number) => push_number(alloc, out, number)?,
        None => push_text(out, "wide")?,
    }
    push_text(out, "</td>")
}

// A number without its sign.
fn size_of(number: &Ratio) -> Ratio {
    if number.is_neg() {
        number.neg()
    } else {
        *number
    }
}

fn push_amount(alloc: Global, out: &mut String, amount: &Amount) -> Done {
    match amount {
        Amount::Exact(number) => push_both(alloc, out, &size_of(number)),
        Amount::Wide => push_text(out, "wide"),
    }
}

fn push_both(alloc: Global, out: &mut String, size: &Ratio) -> Done {
    push_exact(alloc, out, size)?;
    if is_whole(size) {
        return Ok(());
    }
    push_text(out, " (")?;
    push_near(alloc, out, size)?;
    push_text(out, ")")
}

fn push_rough(alloc: Global, out: &mut String, amount: &Amount) -> Done {
    match amount {
        Amount::Exact(number) => push_one(alloc, out, &size_of(number)),
        Amount::Wide => push_text(out, "wide"),
    }
}

fn push_one(alloc: Global, out: &mut String, size: &Ratio) -> Done {
    if is_whole(size) {
        push_exact(alloc, out, size)
    } else {
        push_near(alloc, out, size)
    }
}
