//! The cause by which a line of a script is refused, where on the line it is, and the word that was likely meant.
//!
//! What is said of a cause, and of which code it is, is in `line_causes/specs/Causes`: a cause is of the code of the refusal. Where on the
//! line it is, and which word was likely meant, are guesses.
#![tactic(auto)]

mod fits;
mod found;
mod games;
mod names;
mod short;
mod unknown;
mod unread;

pub use fits::{misfit, number_among, stops_at};
pub use found::{Found, Line, found_of};
pub use games::{fuel_for, is_bare, machine_for, machine_of, variant_given};
pub use names::{
    like_command, like_label, like_object, like_table, like_word, node_text, object_text,
};
pub use short::short_of;
