//! The words of a wish, as clap reads them, and what they ask for. What the words name is looked for later, where the game is known; and it is
//! said in words that they name nothing, or that the wish can't be met.
#![tactic(auto)]

mod asked;
mod faults;
mod likeness;
mod naming;
mod objects;
mod options;
mod rates;
mod saying;
mod words;

pub use asked::{
    AskedBeacon, AskedChoice, AskedImport, AskedMore, AskedSetup, AskedWish, Least, WishRequest,
};
pub use faults::{Wanted, WordFault};
pub use likeness::{Like, nearest_object};
pub use naming::wish_of;
pub use objects::NameFault;
pub use options::{question, with_wish};
pub use rates::{is_writable, read_rate};
pub use saying::{say_name_fault, say_wish_fault};
pub use words::read_asked;
