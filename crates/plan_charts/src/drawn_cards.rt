//! The cards of a drawing, each with what flows into it and out of it.
use crate::amounts::amount_texts;
use crate::cards::{Card, CardKind, Chart};
use crate::sizes::{CARD, INSIDE, PICTURE, Point, corner_of, height_of, line_middle};
use crate::strokes::push_plain;
use crate::widths::within;
use page_layout::Board;
use page_parts::{Done, Flow};
use page_rows::{Piece, put};
use plan_base::Kind;
use plan_report::kind_word;
use std::alloc::Global;

/// The kind of a good of a chart.
pub fn kind_of(chart: &Chart, good: usize) -> Kind {
    match chart.goods.as_slice().get(good) {
        Some(good) => good.thing.kind,
        None => Kind::Tech,
    }
}

/// The name of a good of a chart.
pub fn name_of<'a>(chart: &'a Chart, good: usize) -> &'a str {
    match chart.goods.as_slice().get(good) {
        Some(good) => good.name.as_str(),
        None => "",
    }
}

fn index_of(chart: &Chart, good: usize) -> u32 {
    match chart.goods.as_slice().get(good) {
        Some(good) => good.thing.index,
        None => 0,
    }
}

fn card_word(kind: CardKind) -> &'static str {
    match kind {
        CardKind::Row => "row",
        CardKind::Import => "import",
        CardKind::Surplus => "surplus",
        CardKind::Want => "want",
    }
}

// A text of a card at a place, which ends there or begins there.
fn push_text_head<'a>(
    alloc: Global,
    out: &mut String,
    kind: &'a str,
    mark: &'a str,
    x: u32,
    base: u32,
) -> Done {
    put(
        alloc,
        out,
        &[
            Piece::Text("<text class=\""),
            Piece::Text(kind),
            Piece::Text(mark),
            Piece::Text("\" x=\""),
            Piece::Count(x as u64),
            Piece::Text("\" y=\""),
            Piece::Count(base as u64),
            Piece::Text("\">"),
        ],
    )
}

// The place of the picture of a good.
fn push_icon(
    alloc: Global,
    out: &mut String,
    kind: &str,
    index: u32,
    left: u32,
    base: u32,
) -> Done {
    put(
        alloc,
        out,
        &[
            Piece::Text("<use class=\"i\" href=\"#"),
            Piece::Text(kind),
            Piece::Text("-"),
            Piece::Count(index as u64),
            Piece::Text("\" x=\""),
            Piece::Count(left as u64),
            Piece::Text("\" y=\""),
            Piece::Count(base.saturating_sub(12) as u64),
            Piece::Text("\" width=\"15\" height=\"15\"/>"),
        ],
    )
}

// The end of a text: a name, or so much of it as there is room for.
fn push_name(alloc: Global, out: &mut String, name: &str, most: u32) -> Done {
    let name = within(alloc, name, most)?;
    put(
        alloc,
        out,
        &[Piece::Name(name.as_str()), Piece::Text("</text>\n")],
    )
}

// A line of a card: a good on the side where it flows, and how much on the other.
fn push_card_line(alloc: Global, out: &mut String, chart: &Chart, base: u32, flow: &Flow) -> Done {
    let good = flow.good as usize;
    let kind = kind_of(chart, good);
    let word = kind_word(kind);
    let amount = amount_texts(alloc, kind == Kind::Special, &flow.amount)?;
    let most = (10 * (INSIDE - PICTURE - 14)).saturating_sub(amount.width);
    let name = name_of(chart, good);
    let index = index_of(chart, good);
    if flow.gives {
        push_icon(alloc, out, word, index, CARD - 25, base)?;
        push_text_head(alloc, out, word, " right", CARD - 10, base)?;
        push_name(alloc, out, name, most)?;
        push_text_head(alloc, out, "amount", "", 10, base)?;
    } else {
        push_icon(alloc, out, word, index, 10, base)?;
        push_text_head(alloc, out, word, " left", 10, base)?;
        push_name(alloc, out, name, most)?;
        push_text_head(alloc, out, "amount", " end", CARD - 10, base)?;
    }
    put(
        alloc,
        out,
        &[Piece::Text(amount.text.as_str()), Piece::Text("</text>\n")],
    )
}

fn push_card_lines(alloc: Global, out: &mut String, chart: &Chart, card: &Card) -> Done {
    for (line, flow) in card.flows.as_slice().iter().enumerate() {
        let base = line_middle(card, line).saturating_add(4);
        push_card_line(alloc, out, chart, base, flow)?;
    }
    Ok(())
}

// A card that is a row leads to its row, others lead nowhere.
fn push_open(alloc: Global, out: &mut String, line: u32, card: &Card) -> Done {
    match card.row {
        Some(row) => put(
            alloc,
            out,
            &[
                Piece::Text("<a class=\"card row\" id=\"c"),
                Piece::Count(line as u64),
                Piece::Text("-"),
                Piece::Count(row as u64),
                Piece::Text("\" href=\"#r"),
                Piece::Count(line as u64),
                Piece::Text("-"),
                Piece::Count(row as u64),
                Piece::Text("\""),
            ],
        ),
        None => put(
            alloc,
            out,
            &[
                Piece::Text("<g class=\"card "),
                Piece::Text(card_word(card.kind)),
                Piece::Text("\""),
            ],
        ),
    }
}

fn push_close(alloc: Global, out: &mut String, card: &Card) -> Done {
    let end = match card.row {
        Some(_) => "</a>\n",
        None => "</g>\n",
    };
    push_plain(alloc, out, end)
}

fn push_card_head(alloc: Global, out: &mut String, card: &Card, corner: Point) -> Done {
    put(
        alloc,
        out,
        &[
            Piece::Text(" transform=\"translate("),
            Piece::Count(corner.0 as u64),
            Piece::Text(" "),
            Piece::Count(corner.1 as u64),
            Piece::Text(")\"><title>"),
            Piece::Name(card.title.as_str()),
            Piece::Text(" "),
            Piece::Name(card.about.as_str()),
            Piece::Text("</title><rect width=\""),
            Piece::Count(CARD as u64),
            Piece::Text("\" height=\""),
            Piece::Count(height_of(card) as u64),
            Piece::Text("\" rx=\"7\"/>\n<text class=\"name\" x=\"10\" y=\"18\">"),
        ],
    )?;
    push_name(alloc, out, card.title.as_str(), 8 * INSIDE)
}

fn push_about(alloc: Global, out: &mut String, about: &str) -> Done {
    if about.is_empty() {
        return Ok(());
    }
    push_plain(alloc, out, "<text class=\"what\" x=\"10\" y=\"34\">")?;
    push_name(alloc, out, about, 10 * INSIDE)
}

fn push_card(
    alloc: Global,
    out: &mut String,
    line: u32,
    chart: &Chart,
    board: &Board,
    place: usize,
    card: &Card,
) -> Done {
    push_open(alloc, out, line, card)?;
    push_card_head(alloc, out, card, corner_of(board, place))?;
    push_about(alloc, out, card.about.as_str())?;
    push_card_lines(alloc, out, chart, card)?;
    push_close(alloc, out, card)
}

/// Writes the cards of a chart.
pub fn push_cards(
    alloc: Global,
    out: &mut String,
    line: u32,
    chart: &Chart,
    board: &Board,
) -> Done {
    for (place, card) in chart.cards.as_slice().iter().enumerate() {
        push_card(alloc, out, line, chart, board, place, card)?;
    }
    Ok(())
}
