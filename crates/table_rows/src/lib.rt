//! Rows of production tables: whether a set-up can stand in one, what one craft of it takes, and its column, which is what one
//! craft adds to each good. What the words of lines about tables name, and why such a line is refused.
#![tactic(auto)]

mod columns;
mod contributions;
mod faults;
mod given_taken;
mod named_setups;
mod names;
mod rates;
mod refusals;
mod setups;

pub use columns::{has_at, place_in};
pub use contributions::{RowColumn, column_of, row_of};
pub use faults::{RowFault, SetupFault};
pub use named_setups::setup_named;
pub use names::good_named;
pub use rates::{RowRates, rates_of_row, row_rates};
pub use refusals::{TableRefusal, code_of, detail_of, refused};
pub use setups::check_setup;
