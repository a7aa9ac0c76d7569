//! The things of a game as objects of JSON: what each is, what it takes and gives, and what may be chosen with it.
//!
//! The choices are what the rows of tables may be made of: the machines that do an activity, the fuels and the modules of a machine, and the
//! goods that may stand for an ingredient. A law says that a row whose parts are offered is refused for none of them.
#![tactic(auto)]

mod amounts;
mod doers;
mod fits;
mod goods;
mod laws;
mod machine_kinds;
mod machines;
mod makers;
mod nodes;
mod offers;
mod parts;
mod products;
mod recipes;
mod techs;

pub use doers::{does, machines_for};
pub use fits::fits_of;
pub use goods::{put_fluid, put_item, put_special};
pub use laws::offered_rows_are_not_refused;
pub use machines::put_machine;
pub use makers::{character_crafts, character_mines};
pub use nodes::{good_node, thing_node};
pub use offers::{fuels_of, modules_of};
pub use recipes::{put_recipe, put_source};
pub use techs::put_tech;
