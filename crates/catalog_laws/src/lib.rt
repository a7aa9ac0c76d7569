//! Laws of catalogs: the whole text is JSON that reads back as the object that the definitions say of the state.
#![tactic(auto)]

mod laws;

pub use laws::{catalogs_are_shallow, catalogs_read_back, things_are_shallow, things_read_back};
