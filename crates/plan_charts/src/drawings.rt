//! A chart as a drawing.
use crate::cards::{Card, Chart};
use crate::drawn_cards::push_cards;
use crate::sizes::{CHANNEL, EDGE, Point, height_of, left_of, line_middle};
use crate::strokes::{push_lines, push_plain};
use page_layout::{Board, End, placed};
use page_parts::Done;
use page_rows::{Piece, put};
use plan_base::NoMemory;
use std::alloc::Global;

fn add_ends(ends: &mut Vec<End>, place: usize, card: &Card) -> Done {
    for (line, flow) in card.flows.as_slice().iter().enumerate() {
        ends.push(End {
            card: place,
            good: flow.good as usize,
            gives: flow.gives,
            below: line_middle(card, line),
        })?;
    }
    Ok(())
}

fn ends_of(alloc: Global, cards: &[Card]) -> Result<Vec<End>, NoMemory> {
    let mut ends = Vec::new(alloc);
    for (place, card) in cards.iter().enumerate() {
        add_ends(&mut ends, place, card)?;
    }
    Ok(ends)
}

fn heights_of(alloc: Global, cards: &[Card]) -> Result<Vec<u32>, NoMemory> {
    let mut heights = Vec::new(alloc);
    for card in cards {
        heights.push(height_of(card))?;
    }
    Ok(heights)
}

// The lowest end of all that stands on a board.
fn bottom(board: &Board, heights: &[u32]) -> u32 {
    let mut bottom = 0u32;
    for (top, height) in board.tops.as_slice().iter().zip(heights) {
        bottom = bottom.max(top.saturating_add(*height));
    }
    for lane in board.lanes.as_slice() {
        bottom = bottom.max(lane.middle);
    }
    for joint in board.joints.as_slice() {
        bottom = bottom.max(joint.middle);
    }
    bottom
}

fn push_head(alloc: Global, out: &mut String, table: &str, size: Point) -> Done {
    let width = Piece::Count(size.0 as u64);
    let height = Piece::Count(size.1 as u64);
    put(
        alloc,
        out,
        &[
            Piece::Text("<svg xmlns=\"http://www.w3.org/2000/svg\" class=\"flow\" width=\""),
            width,
            Piece::Text("\" height=\""),
            height,
            Piece::Text("\" viewBox=\"0 0 "),
            width,
            Piece::Text(" "),
            height,
            Piece::Text("\" role=\"group\" aria-label=\"flow chart of "),
            Piece::Name(table),
            Piece::Text("\">\n"),
        ],
    )
}

fn push_board(
    alloc: Global,
    out: &mut String,
    line: u32,
    table: &str,
    chart: &Chart,
    board: &Board,
    heights: &[u32],
) -> Done {
    let width = left_of(board.column_count()).saturating_sub(CHANNEL / 2 - EDGE);
    let height = bottom(board, heights).saturating_add(2 * EDGE);
    push_head(alloc, out, table, (width, height))?;
    push_lines(alloc, out, chart, board)?;
    push_cards(alloc, out, line, chart, board)?;
    push_plain(alloc, out, "</svg>\n")
}

/// Writes the drawing of a chart of the plan of a line.
///
/// # Errors
///
/// `NoMemory` where memory could not be had.
pub fn push_drawing(
    alloc: Global,
    out: &mut String,
    line: u32,
    table: &str,
    chart: &Chart,
) -> Done {
    let cards = chart.cards.as_slice();
    let heights = heights_of(alloc, cards)?;
    let ends = ends_of(alloc, cards)?;
    let goods = chart.goods.len();
    let board = placed(alloc, heights.as_slice(), goods, ends.as_slice())?;
    push_board(alloc, out, line, table, chart, &board, heights.as_slice())
}
