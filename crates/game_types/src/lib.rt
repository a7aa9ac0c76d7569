//! The typed game: what the prototypes of a dump mean to the planner, and the set-up of one row of a table.
//!
//! Energies are in joules, powers in watts, times in seconds, pollution in units per minute, temperatures in degrees.
//! Ids are places in the lists of the game that holds them; a category is its number among the names of the categories.
#![tactic(auto)]

mod choices;
mod copies;
mod effects;
mod fitting;
mod games;
mod goods;
mod installed;
mod lookups;
mod machinery;
mod making;
mod recipes;
mod refusals;
mod research;
mod setups;
pub mod steps;
mod table_goods;

pub use choices::{choice_of, choices_are_fits, is_within};
pub use effects::{Allowed, BeaconSum, Bonus, EffectKind, Effects, Rates, Wide};
pub use fitting::{FitFault, first_refused, fits};
pub use games::{Game, NODE_LIMIT};
pub use goods::{Fluid, Fuel, Item, Module};
pub use installed::{check_slots, named, total_hundredths};
pub use machinery::{Energy, Machine, MachineKind};
pub use making::{holds, takes_fuel};
pub use recipes::{Part, Product, Recipe, Source};
pub use refusals::{BeaconFault, FuelFault, MachineFault, ModuleFault};
pub use research::{Character, Tech};
pub use setups::{Activity, BeaconGroup, Setup};
