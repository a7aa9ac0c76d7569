//! How far from the top cards, lanes and joints are: each near those that it is joined with, and none on another.
use crate::board::{Board, End, Joint, Lane};
use crate::columns::{add_goods, columns_of};
use crate::means::move_joints;
use crate::stacks::place_column;
use page_parts::Done;
use plan_base::NoMemory;
use std::alloc::Global;

// All places are told from here while they are found, so that none is above the top.
const BASE: u32 = 1_000_000;

// Between the joints of a channel.
const JOINT: u32 = 7;

// How often all is put near what it is joined with.
const ROUNDS: u32 = 10;

fn place_rightward(alloc: Global, board: &mut Board, heights: &[u32], ends: &[End]) -> Done {
    for column in 0..board.column_count() {
        place_column(alloc, board, heights, ends, column)?;
    }
    Ok(())
}

fn place_leftward(alloc: Global, board: &mut Board, heights: &[u32], ends: &[End]) -> Done {
    let count = board.column_count();
    for behind in 0..count {
        place_column(alloc, board, heights, ends, count - 1 - behind)?;
    }
    Ok(())
}

fn place_all(alloc: Global, board: &mut Board, heights: &[u32], ends: &[End]) -> Done {
    for _ in 0..ROUNDS {
        place_rightward(alloc, board, heights, ends)?;
        place_leftward(alloc, board, heights, ends)?;
    }
    Ok(())
}

// All cards begin beside one another.
fn first_tops(tops: &mut Vec<u32>, heights: &[u32]) -> Done {
    for height in heights {
        tops.push(BASE.saturating_sub(*height / 2))?;
    }
    Ok(())
}

// So do all lanes.
fn first_middles(lanes: &mut [Lane]) {
    for place in 0..lanes.len() {
        lanes[place].middle = BASE;
    }
}

// The joints of a channel, one below another.
fn spread_channel(alloc: Global, joints: &mut [Joint], channel: u32) -> Done {
    let mut order: Vec<(u32, usize)> = Vec::new(alloc);
    for place in 0..joints.len() {
        if joints[place].channel == channel {
            order.push((joints[place].middle, place))?;
        }
    }
    order.sort_by_key(|pair| pair.0)?;
    let mut free = 0u32;
    for (middle, place) in order.as_slice() {
        let at = (*middle).max(free);
        if *place < joints.len() {
            joints[*place].middle = at;
        }
        free = at.saturating_add(JOINT);
    }
    Ok(())
}

fn spread_joints(alloc: Global, board: &mut Board) -> Done {
    let count = board.column_count();
    for channel in 0..count.saturating_add(1) {
        spread_channel(alloc, board.joints.as_mut_slice(), channel)?;
    }
    Ok(())
}

// The least of all places.
fn least(board: &Board) -> u32 {
    let mut least = u32::MAX;
    for top in board.tops.as_slice() {
        least = least.min(*top);
    }
    for lane in board.lanes.as_slice() {
        least = least.min(lane.middle);
    }
    for joint in board.joints.as_slice() {
        least = least.min(joint.middle);
    }
    least
}

fn move_tops(tops: &mut [u32], by: u32) {
    for place in 0..tops.len() {
        tops[place] = tops[place].saturating_sub(by);
    }
}

fn move_lanes(lanes: &mut [Lane], by: u32) {
    for place in 0..lanes.len() {
        lanes[place].middle = lanes[place].middle.saturating_sub(by);
    }
}

fn move_all_joints(joints: &mut [Joint], by: u32) {
    for place in 0..joints.len() {
        joints[place].middle = joints[place].middle.saturating_sub(by);
    }
}

fn move_up(board: &mut Board, by: u32) {
    move_tops(board.tops.as_mut_slice(), by);
    move_lanes(board.lanes.as_mut_slice(), by);
    move_all_joints(board.joints.as_mut_slice(), by);
}

/// Lays a chart out: cards of these heights, goods, and the ends of lines at cards.
///
/// # Errors
///
/// `NoMemory` where memory could not be had.
pub fn placed(
    alloc: Global,
    heights: &[u32],
    goods: usize,
    ends: &[End],
) -> Result<Board, NoMemory> {
    let mut board = Board {
        columns: columns_of(alloc, heights, goods, ends)?,
        tops: Vec::new(alloc),
        lanes: Vec::new(alloc),
        joints: Vec::new(alloc),
        firsts: Vec::new(alloc),
    };
    first_tops(&mut board.tops, heights)?;
    add_goods(&mut board, ends, goods)?;
    first_middles(board.lanes.as_mut_slice());
    move_joints(alloc, &mut board, ends)?;
    place_all(alloc, &mut board, heights, ends)?;
    spread_joints(alloc, &mut board)?;
    let by = least(&board);
    move_up(&mut board, by);
    Ok(board)
}
