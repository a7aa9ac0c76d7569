//! The replies to a script as a page, with each plan as tables and as a drawing.
//!
//! Names come from dumps and scripts of others. Each is a piece of its kind, which `put` of `page_rows` escapes.
#![tactic(auto)]

mod answers;
mod builds;
mod entries;
mod goods;
mod meanings;
mod page;
mod parts;
mod pictures;
mod plans;
mod refusals;
mod style;

pub use page::Page;
pub use pictures::PageThing;
