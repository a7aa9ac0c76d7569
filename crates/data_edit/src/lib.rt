//! Edits of a game and of its marks, each with its inverse.
//!
//! A book is a game with a mark on each node that is barred and on each node that is granted. `apply_edit` changes a book
//! in place, or says why it refuses; `restore` takes the edit back.
#![tactic(auto)]

mod applying;
mod books;
mod edits;
mod entries;
mod exchanges;
mod laws;
mod parts;
mod replacements;

pub use applying::{apply_edit, restore};
pub use books::Book;
pub use edits::{Edit, EditFault, LIST_LIMIT};
pub use exchanges::exchange;
pub use laws::{edits_keep_names, edits_keep_the_rest, effects_are_changes};
pub use parts::{Inverse, RecipePart};
