//! Where the cards of a chart stand and which way its lines run: cards in columns from left to right, lines through the channels
//! between columns, and through lanes between the cards of a column that they pass.
#![tactic(auto)]

mod board;
mod columns;
mod means;
mod places;
mod stacks;

pub use board::{Board, End, Joint, Lane, channel_of, number_at};
pub use places::placed;
