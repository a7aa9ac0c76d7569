//! Sizes, in points of the drawing, and where things stand on it.
use crate::cards::Card;
use page_layout::{Board, number_at};

/// The width of a card.
pub const CARD: u32 = 236;

/// The width of a channel between two columns.
pub const CHANNEL: u32 = 84;

// The height of the head of a card that says what it is about.
const HEAD: u32 = 40;

// The height of a line of a card.
const LINE: u32 = 17;

/// The width of the edge round all that is drawn.
pub const EDGE: u32 = 14;

/// The room for the picture of a good.
pub const PICTURE: u32 = 18;

/// The width inside a card.
pub const INSIDE: u32 = CARD - 20;

/// A point of the drawing.
pub type Point = (u32, u32);

fn head_of(card: &Card) -> u32 {
    if card.about.as_str().is_empty() {
        HEAD - LINE
    } else {
        HEAD
    }
}

/// How high a card is.
pub fn height_of(card: &Card) -> u32 {
    let lines = card.flows.len().min(2_000) as u32;
    head_of(card).saturating_add(LINE * lines).saturating_add(8)
}

/// How far below the top of a card the middle of a line of it is.
pub fn line_middle(card: &Card, line: usize) -> u32 {
    let line = line.min(2_000) as u32;
    head_of(card)
        .saturating_add(line.saturating_mul(LINE))
        .saturating_add(LINE / 2)
}

/// The left side of a column.
pub fn left_of(column: u32) -> u32 {
    column
        .saturating_mul(CARD + CHANNEL)
        .saturating_add(CHANNEL / 2 + EDGE)
}

/// The middle of a channel.
pub fn middle_of(channel: u32) -> u32 {
    left_of(channel).saturating_sub(CHANNEL / 2)
}

/// Where the joint of a good in a channel stands.
pub fn joint_point(board: &Board, good: usize, channel: u32) -> Point {
    (
        middle_of(channel),
        board.joint_middle(good, channel).saturating_add(EDGE),
    )
}

/// The corner of the card at a place.
pub fn corner_of(board: &Board, place: usize) -> Point {
    (
        left_of(number_at(board.columns.as_slice(), place)),
        number_at(board.tops.as_slice(), place).saturating_add(EDGE),
    )
}
