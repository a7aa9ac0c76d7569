//! The columns of cards, and through which channels and columns the lines of each good run.
use crate::board::{Board, End, Joint, Lane, channel_of, number_at};
use page_parts::Done;
use page_parts::layout::{Arrow, Graph, laid_out};
use plan_base::NoMemory;
use std::alloc::Global;

fn arrow_of(end: &End, first_joint: usize) -> Arrow {
    let joint = first_joint.saturating_add(end.good);
    if end.gives {
        Arrow {
            from: end.card,
            to: joint,
        }
    } else {
        Arrow {
            from: joint,
            to: end.card,
        }
    }
}

fn add_arrows(arrows: &mut Vec<Arrow>, ends: &[End], first_joint: usize) -> Done {
    for end in ends {
        arrows.push(arrow_of(end, first_joint))?;
    }
    Ok(())
}

fn add_heights(all: &mut Vec<u32>, heights: &[u32], goods: usize) -> Done {
    for height in heights {
        all.push(*height)?;
    }
    for _ in 0..goods {
        all.push(0)?;
    }
    Ok(())
}

fn add_columns(columns: &mut Vec<u32>, layers: &[u32], cards: usize) -> Done {
    for card in 0..cards {
        columns.push(number_at(layers, card) / 2)?;
    }
    Ok(())
}

/// The column of each card: behind all that it takes, but where a circle is cut.
pub fn columns_of(
    alloc: Global,
    heights: &[u32],
    goods: usize,
    ends: &[End],
) -> Result<Vec<u32>, NoMemory> {
    let mut graph = Graph {
        heights: Vec::new(alloc),
        first_joint: heights.len(),
        arrows: Vec::new(alloc),
    };
    add_heights(&mut graph.heights, heights, goods)?;
    add_arrows(&mut graph.arrows, ends, heights.len())?;
    let layout = laid_out(alloc, &graph)?;
    let mut columns = Vec::new(alloc);
    add_columns(&mut columns, layout.layers.as_slice(), heights.len())?;
    Ok(columns)
}

// The first and the last channel that the lines of a good run through; none where there are no lines.
fn span(columns: &[u32], ends: &[End], good: usize) -> Option<(u32, u32)> {
    let mut low = u32::MAX;
    let mut high = 0u32;
    for end in ends {
        if end.good == good {
            let channel = channel_of(number_at(columns, end.card), end.gives);
            low = low.min(channel);
            high = high.max(channel);
        }
    }
    if low <= high { Some((low, high)) } else { None }
}

fn add_joints(joints: &mut Vec<Joint>, good: usize, low: u32, high: u32) -> Done {
    for channel in low..high {
        joints.push(Joint {
            good,
            channel,
            middle: 0,
            lines: 0,
        })?;
    }
    joints.push(Joint {
        good,
        channel: high,
        middle: 0,
        lines: 0,
    })?;
    Ok(())
}

fn add_lanes(lanes: &mut Vec<Lane>, good: usize, low: u32, high: u32) -> Done {
    for column in low..high {
        lanes.push(Lane {
            good,
            column,
            middle: 0,
        })?;
    }
    Ok(())
}

// The joints and the lanes of a good, which run through all channels from the first to the last of its lines.
fn add_good(board: &mut Board, ends: &[End], good: usize) -> Done {
    match span(board.columns.as_slice(), ends, good) {
        Some((low, high)) => {
            board.firsts.push((board.joints.len(), low))?;
            add_joints(&mut board.joints, good, low, high)?;
            add_lanes(&mut board.lanes, good, low, high)
        }
        None => {
            board.firsts.push((usize::MAX, 0))?;
            Ok(())
        }
    }
}

/// The joints and the lanes of all goods.
pub fn add_goods(board: &mut Board, ends: &[End], goods: usize) -> Done {
    for good in 0..goods {
        add_good(board, ends, good)?;
    }
    Ok(())
}
