//! From the bytes of a dump to the typed game.
#![tactic(auto)]

mod dump;
mod families;
mod goods;
mod keys;
mod laws;
mod links;
mod machines;
mod prototype_lists;
mod ways;

pub use dump::read_dump;
pub use families::Families;
pub use goods::link_item;
pub use laws::one_game;
pub use machines::link_machine;
pub use ways::{link_recipe, link_source, link_tech};
