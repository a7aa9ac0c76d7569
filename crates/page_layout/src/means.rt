//! Where joints and cards are drawn to: the means of the heights of what they are joined with.
use crate::board::{Board, End, Joint, channel_of, number_at};
use page_parts::Done;
use plan_base::NoMemory;
use std::alloc::Global;

/// A sum of numbers and how many they are.
#[derive(Clone, Copy)]
pub struct Mean {
    sum: u64,
    count: u32,
}

impl Mean {
    fn new() -> Mean {
        Mean { sum: 0, count: 0 }
    }

    fn add(&mut self, number: u32) {
        self.sum = self.sum.saturating_add(number as u64);
        self.count = self.count.saturating_add(1);
    }

    // The mean, or another number where there is nothing.
    fn or(&self, other: u32) -> u32 {
        if self.count == 0 {
            other
        } else {
            (self.sum / self.count as u64).min(u32::MAX as u64) as u32
        }
    }
}

fn add_at(means: &mut [Mean], place: usize, number: u32) {
    if place < means.len() {
        means[place].add(number);
    }
}

/// The mean at a place, or another number where there is nothing.
pub fn mean_at(means: &[Mean], place: usize, other: u32) -> u32 {
    match means.get(place) {
        Some(mean) => mean.or(other),
        None => other,
    }
}

fn count_at(means: &[Mean], place: usize) -> u32 {
    match means.get(place) {
        Some(mean) => mean.count,
        None => 0,
    }
}

fn middle_of_end(board: &Board, end: &End) -> u32 {
    number_at(board.tops.as_slice(), end.card).saturating_add(end.below)
}

fn joint_of_end(board: &Board, end: &End) -> usize {
    let column = number_at(board.columns.as_slice(), end.card);
    board.joint_place(end.good, channel_of(column, end.gives))
}

// Where the joints are drawn to: the middles of the lines that end in each.
fn joint_means(alloc: Global, board: &Board, ends: &[End]) -> Result<Vec<Mean>, NoMemory> {
    let mut means = vec![in alloc; Mean::new(); board.joints.len()]?;
    for end in ends {
        let place = joint_of_end(board, end);
        add_at(means.as_mut_slice(), place, middle_of_end(board, end));
    }
    for lane in board.lanes.as_slice() {
        let left = board.joint_place(lane.good, lane.column);
        add_at(means.as_mut_slice(), left, lane.middle);
        add_at(means.as_mut_slice(), left.saturating_add(1), lane.middle);
    }
    Ok(means)
}

fn set_joints(joints: &mut [Joint], means: &[Mean]) {
    for place in 0..joints.len() {
        joints[place].middle = mean_at(means, place, joints[place].middle);
        joints[place].lines = count_at(means, place);
    }
}

/// Moves each joint to where it is drawn to.
pub fn move_joints(alloc: Global, board: &mut Board, ends: &[End]) -> Done {
    let means = joint_means(alloc, board, ends)?;
    set_joints(board.joints.as_mut_slice(), means.as_slice());
    Ok(())
}

/// Where the middles of cards are drawn to: each line of a card to the height of its joint.
pub fn card_means(
    alloc: Global,
    board: &Board,
    heights: &[u32],
    ends: &[End],
) -> Result<Vec<Mean>, NoMemory> {
    let mut means = vec![in alloc; Mean::new(); heights.len()]?;
    for end in ends {
        let column = number_at(board.columns.as_slice(), end.card);
        let joint = board.joint_middle(end.good, channel_of(column, end.gives));
        let half = number_at(heights, end.card) / 2;
        let middle = joint.saturating_sub(end.below).saturating_add(half);
        add_at(means.as_mut_slice(), end.card, middle);
    }
    Ok(means)
}
