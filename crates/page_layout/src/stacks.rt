//! The cards and lanes of a column, one below another, each near what it is joined with.
use crate::board::{Board, End, Lane, number_at};
use crate::means::{Mean, card_means, mean_at, move_joints};
use page_parts::Done;
use std::alloc::Global;

// Between cards of a column, and beside a lane.
const GAP: u32 = 16;

const LANE: u32 = 8;

// What stands in a column: a card, or a lane behind the cards.
#[derive(Clone, Copy)]
struct Item {
    place: usize,
    is_card: bool,
    height: u32,
    /// Where its middle is drawn to.
    drawn: u32,
}

fn card_item(board: &Board, heights: &[u32], means: &[Mean], card: usize) -> Item {
    let height = number_at(heights, card);
    let middle = number_at(board.tops.as_slice(), card).saturating_add(height / 2);
    Item {
        place: card,
        is_card: true,
        height,
        drawn: mean_at(means, card, middle),
    }
}

fn lane_item(board: &Board, place: usize, lane: &Lane) -> Item {
    let left = board.joint_middle(lane.good, lane.column);
    let right = board.joint_middle(lane.good, lane.column.saturating_add(1));
    Item {
        place,
        is_card: false,
        height: LANE,
        drawn: (left / 2).saturating_add(right / 2),
    }
}

fn add_cards(
    board: &Board,
    heights: &[u32],
    means: &[Mean],
    column: u32,
    items: &mut Vec<Item>,
) -> Done {
    for card in 0..heights.len() {
        if number_at(board.columns.as_slice(), card) == column {
            items.push(card_item(board, heights, means, card))?;
        }
    }
    Ok(())
}

fn add_lanes(board: &Board, column: u32, items: &mut Vec<Item>) -> Done {
    for (place, lane) in board.lanes.as_slice().iter().enumerate() {
        if lane.column == column {
            items.push(lane_item(board, place, lane))?;
        }
    }
    Ok(())
}

// What stands between two things of a column.
fn gap(above: bool, below: bool) -> u32 {
    if above && below { GAP } else { LANE }
}

// The least tops from above: each where it is drawn to, and below the one before it.
fn tops_downward(items: &[Item], tops: &mut Vec<u32>) -> Done {
    let mut free = 0u32;
    let mut above = true;
    for item in items {
        let wanted = item.drawn.saturating_sub(item.height / 2);
        let top = wanted.max(free.saturating_add(gap(above, item.is_card)));
        tops.push(top)?;
        free = top.saturating_add(item.height);
        above = item.is_card;
    }
    Ok(())
}

// The greatest tops from below, in the order from below: each where it is drawn to, and above the one behind it.
fn tops_upward(items: &[Item], tops: &mut Vec<u32>) -> Done {
    let mut free = u32::MAX;
    let mut below = true;
    for item in items.iter().rev() {
        let wanted = item.drawn.saturating_sub(item.height / 2);
        let room = item.height.saturating_add(gap(item.is_card, below));
        let top = wanted.min(free.saturating_sub(room));
        tops.push(top)?;
        free = top;
        below = item.is_card;
    }
    Ok(())
}

fn set_top(tops: &mut [u32], place: usize, top: u32) {
    if place < tops.len() {
        tops[place] = top;
    }
}

fn set_lane(lanes: &mut [Lane], place: usize, middle: u32) {
    if place < lanes.len() {
        lanes[place].middle = middle;
    }
}

fn set_item(board: &mut Board, item: &Item, top: u32) {
    if item.is_card {
        set_top(board.tops.as_mut_slice(), item.place, top);
    } else {
        set_lane(
            board.lanes.as_mut_slice(),
            item.place,
            top.saturating_add(LANE / 2),
        );
    }
}

// Each thing of a column stands between its least and its greatest top.
fn set_items(board: &mut Board, items: &[Item], down: &[u32], up: &[u32]) {
    for place in 0..items.len() {
        let behind = items.len() - 1 - place;
        let top = (number_at(down, place) / 2).saturating_add(number_at(up, behind) / 2);
        set_item(board, &items[place], top);
    }
}

fn place_items(alloc: Global, board: &mut Board, items: &[Item]) -> Done {
    let mut down = Vec::new(alloc);
    let mut up = Vec::new(alloc);
    tops_downward(items, &mut down)?;
    tops_upward(items, &mut up)?;
    set_items(board, items, down.as_slice(), up.as_slice());
    Ok(())
}

/// Puts the things of a column near what they are joined with, one below another.
pub fn place_column(
    alloc: Global,
    board: &mut Board,
    heights: &[u32],
    ends: &[End],
    column: u32,
) -> Done {
    let means = card_means(alloc, board, heights, ends)?;
    let mut items = Vec::new(alloc);
    add_cards(board, heights, means.as_slice(), column, &mut items)?;
    add_lanes(board, column, &mut items)?;
    items.sort_by_key(|item| item.drawn)?;
    place_items(alloc, board, items.as_slice())?;
    move_joints(alloc, board, ends)
}
