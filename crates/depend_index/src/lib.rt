//! The nodes that the rows of a game are put together from, in lists by number, and what is looked up in them.
#![tactic(auto)]

mod among;
mod index;
mod keys;
mod kinds;
mod listed;
mod machine_keys;
mod marks;
mod noting;
mod places;
mod products;
mod temperatures;

pub use among::{recipes_giving, techs_unlocking};
pub use index::Index;
pub use marks::is_marked;
pub use places::{first_fluid, first_machine, first_recipe, first_source, first_tech, good_count};
pub use temperatures::numbers_within;
