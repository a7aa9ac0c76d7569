//! A chart that is to be laid out, and where all of it stands.

/// An end of a line at a card.
#[derive(Clone, Copy, Debug, PartialEq, Eq)]
pub struct End {
    pub card: usize,
    pub good: usize,
    /// Whether the good comes out of the card, on its right; else it goes in on its left.
    pub gives: bool,
    /// How far below the top of the card it is.
    pub below: u32,
}

/// A part of a line that passes a column between its cards.
#[derive(Clone, Copy, Debug, PartialEq, Eq)]
pub struct Lane {
    pub good: usize,
    pub column: u32,
    /// How far from the top it runs.
    pub middle: u32,
}

/// Where the lines of a good come together in a channel. Channel 0 is left of column 0.
#[derive(Clone, Copy, Debug, PartialEq, Eq)]
pub struct Joint {
    pub good: usize,
    pub channel: u32,
    /// How far from the top it is.
    pub middle: u32,
    /// How many lines end there.
    pub lines: u32,
}

/// A chart in its places.
#[derive(Drop)]
pub struct Board {
    /// The column of each card.
    pub columns: Vec<u32>,
    /// How far from the top each card stands.
    pub tops: Vec<u32>,
    pub lanes: Vec<Lane>,
    pub joints: Vec<Joint>,
    /// The first joint of each good, and the channel that it is in.
    pub firsts: Vec<(usize, u32)>,
}

impl Board {
    /// The place of the joint of a good in a channel, among all.
    pub fn joint_place(&self, good: usize, channel: u32) -> usize {
        match self.firsts.get(good) {
            Some((first, low)) => first.saturating_add(channel.saturating_sub(*low) as usize),
            None => usize::MAX,
        }
    }

    /// How far from the top the joint of a good in a channel is.
    pub fn joint_middle(&self, good: usize, channel: u32) -> u32 {
        match self.joints.get(self.joint_place(good, channel)) {
            Some(joint) => joint.middle,
            None => 0,
        }
    }

    /// The number of columns.
    pub fn column_count(&self) -> u32 {
        let mut count = 0u32;
        for column in self.columns.as_slice() {
            count = count.max(column.saturating_add(1));
        }
        count
    }
}

/// The number at a place, 0 past the last.
pub fn number_at(list: &[u32], place: usize) -> u32 {
    match list.get(place) {
        Some(number) => *number,
        None => 0,
    }
}

/// The channel in which a line ends at a card of a column.
pub fn channel_of(column: u32, gives: bool) -> u32 {
    if gives {
        column.saturating_add(1)
    } else {
        column
    }
}
