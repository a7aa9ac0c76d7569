//! What is wished for, and set-ups for it: what is reached, the machine that does something best, and which recipes only take back what
//! others do.
#![tactic(auto)]

mod choosing;
mod doing;
mod dressing;
mod fitting;
mod fuels;
mod imports;
mod laws;
mod machine_ranks;
mod ranks;
mod reach;
mod setups;
mod undoing;
mod wish;

pub use choosing::best_setup;
pub use fitting::is_fitting;
pub use imports::{is_import, price_in};
pub use laws::the_best_is_found;
pub use ranks::Rank;
pub use reach::{
    State, gives, is_good_marked, is_good_reached, is_marked, is_mined, is_reached, mark,
    mark_good, mined_goods, reached_fuels,
};
pub use setups::{column_in, expected_units, figures_of};
pub use undoing::is_undoing;
pub use wish::{Cheapest, Met, Reason, Unmade, Wish, WishBeacon, WishFault};
