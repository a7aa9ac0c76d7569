//! The fields of a prototype: how each kind of value is read of a tree of JSON, and which faults it may have.
#![tactic(auto)]

mod amounts;
mod fault;
mod fields;
mod inner;
mod lists;
mod names;
mod numbers;
mod trees;

pub use fault::{FieldCode, FieldFault};
pub use fields::{Fields, LIST_LIMIT};
pub use names::{Key, Within};
pub use numbers::{energy, is_amount, is_less, numeral, small_whole, tenth, thirtieth};
pub use trees::{as_bytes, as_flag, as_list, as_number, as_object, as_text, if_utf8, value_at};
