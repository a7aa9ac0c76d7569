//! The lines of a drawing: from card to card, along lanes and through joints.

use crate::cards::{Card, Chart};
use crate::dot::push_amount;
use crate::drawn_cards::{kind_of, name_of};
use crate::sizes::{CARD, EDGE, Point, joint_point, left_of, line_middle, middle_of};
use page_layout::{Board, Joint, Lane, channel_of, number_at};
use page_parts::{Done, Flow};
use page_rows::{Piece, put};
use plan_report::kind_word;
use std::alloc::Global;

pub fn push_plain(alloc: Global, out: &mut String, text: &str) -> Done {
    put(alloc, out, &[Piece::Text(text)])
}

// A point, behind a letter that says how it is reached.
fn push_point(alloc: Global, out: &mut String, letter: &str, point: Point) -> Done {
    put(
        alloc,
        out,
        &[
            Piece::Text(letter),
            Piece::Count(point.0 as u64),
            Piece::Text(" "),
            Piece::Count(point.1 as u64),
        ],
    )
}

// A curve from a point to another on its right, level at both.
fn push_curve(alloc: Global, out: &mut String, from: Point, to: Point) -> Done {
    let bend = to.0.saturating_sub(from.0) / 2;
    push_point(alloc, out, "C", (from.0.saturating_add(bend), from.1))?;
    push_point(alloc, out, " ", (to.0.saturating_sub(bend), to.1))?;
    push_point(alloc, out, " ", to)
}

// ---- the lines of a good

// The end of a line at a card, and at its joint, from left to right.
fn end_points(board: &Board, card: usize, below: u32, flow: &Flow) -> (Point, Point) {
    let column = number_at(board.columns.as_slice(), card);
    let joint = joint_point(board, flow.good as usize, channel_of(column, flow.gives));
    let top = number_at(board.tops.as_slice(), card).saturating_add(EDGE);
    let left = left_of(column);
    let middle = top.saturating_add(below);
    if flow.gives {
        ((left.saturating_add(CARD), middle), joint)
    } else {
        (joint, (left, middle))
    }
}

fn push_end(
    alloc: Global,
    out: &mut String,
    chart: &Chart,
    board: &Board,
    card: usize,
    below: u32,
    flow: &Flow,
) -> Done {
    let (from, to) = end_points(board, card, below, flow);
    push_plain(alloc, out, "<path d=\"")?;
    push_point(alloc, out, "M", from)?;
    push_curve(alloc, out, from, to)?;
    put(
        alloc,
        out,
        &[
            Piece::Text("\"><title>"),
            Piece::Name(name_of(chart, flow.good as usize)),
            Piece::Text(": "),
        ],
    )?;
    push_amount(alloc, out, &flow.amount)?;
    push_plain(alloc, out, " per second</title></path>\n")
}

fn push_card_ends(
    alloc: Global,
    out: &mut String,
    chart: &Chart,
    board: &Board,
    good: usize,
    place: usize,
    card: &Card,
) -> Done {
    for (line, flow) in card.flows.as_slice().iter().enumerate() {
        if flow.good as usize == good {
            let below = line_middle(card, line);
            push_end(alloc, out, chart, board, place, below, flow)?;
        }
    }
    Ok(())
}

fn push_ends(alloc: Global, out: &mut String, chart: &Chart, board: &Board, good: usize) -> Done {
    for (place, card) in chart.cards.as_slice().iter().enumerate() {
        push_card_ends(alloc, out, chart, board, good, place, card)?;
    }
    Ok(())
}

// A lane with the curves to the joints on both of its sides.
fn push_lane(alloc: Global, out: &mut String, board: &Board, lane: &Lane) -> Done {
    let left = left_of(lane.column);
    let middle = lane.middle.saturating_add(EDGE);
    let from = joint_point(board, lane.good, lane.column);
    let to = joint_point(board, lane.good, lane.column.saturating_add(1));
    push_plain(alloc, out, "<path d=\"")?;
    push_point(alloc, out, "M", from)?;
    push_curve(alloc, out, from, (left, middle))?;
    push_point(alloc, out, "L", (left.saturating_add(CARD), middle))?;
    push_curve(alloc, out, (left.saturating_add(CARD), middle), to)?;
    push_plain(alloc, out, "\"/>\n")
}

fn push_lanes(alloc: Global, out: &mut String, board: &Board, good: usize) -> Done {
    for lane in board.lanes.as_slice() {
        if lane.good == good {
            push_lane(alloc, out, board, lane)?;
        }
    }
    Ok(())
}

fn push_joint(alloc: Global, out: &mut String, joint: &Joint) -> Done {
    put(
        alloc,
        out,
        &[
            Piece::Text("<circle cx=\""),
            Piece::Count(middle_of(joint.channel) as u64),
            Piece::Text("\" cy=\""),
            Piece::Count(joint.middle.saturating_add(EDGE) as u64),
            Piece::Text("\" r=\"2.5\"/>\n"),
        ],
    )
}

// A point where more than two lines come together.
fn push_joints(alloc: Global, out: &mut String, board: &Board, good: usize) -> Done {
    for joint in board.joints.as_slice() {
        if joint.good == good && joint.lines > 2 {
            push_joint(alloc, out, joint)?;
        }
    }
    Ok(())
}

fn push_good_lines(
    alloc: Global,
    out: &mut String,
    chart: &Chart,
    board: &Board,
    good: usize,
) -> Done {
    put(
        alloc,
        out,
        &[
            Piece::Text("<g class=\"line "),
            Piece::Text(kind_word(kind_of(chart, good))),
            Piece::Text("\"><title>"),
            Piece::Name(name_of(chart, good)),
            Piece::Text("</title>\n"),
        ],
    )?;
    push_ends(alloc, out, chart, board, good)?;
    push_lanes(alloc, out, board, good)?;
    push_joints(alloc, out, board, good)?;
    push_plain(alloc, out, "</g>\n")
}

pub fn push_lines(alloc: Global, out: &mut String, chart: &Chart, board: &Board) -> Done {
    for good in 0..chart.goods.len() {
        push_good_lines(alloc, out, chart, board, good)?;
    }
    Ok(())
}
