//! The first pass over a dump: its prototypes with names in place of ids.
#![tactic(auto)]

mod draft;
mod goods;
mod passes;
mod raw;
mod sources;

pub use draft::Draft;
pub use passes::read_draft;
pub use raw::{RawItem, RawModule, RawSource};
