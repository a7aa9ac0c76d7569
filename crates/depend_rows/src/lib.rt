//! What each node of a game needs: its dependency row.
#![tactic(auto)]

mod goods;
mod ingredient_groups;
mod machines;
mod members;
mod recipes;
mod rows;
mod sources;
mod techs;
mod touching;

pub use rows::{
    MEMBER_LIMIT, RowsFault, members_are_nodes, row_of, rows_all, rows_for, rows_within,
};
pub use touching::{
    edits_leave_the_rest, edits_touch_no_others, touched, touched_all,
    touched_nodes_are_of_the_edits,
};
