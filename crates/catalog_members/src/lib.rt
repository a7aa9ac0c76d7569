//! The members of a thing of a catalog, put into an object of JSON one by one. What isn't so has no member.
#![tactic(auto)]

mod ids;
mod lists;
mod members;
mod texts;

pub use ids::id_text;
pub use lists::{put_ids, put_items, put_places, put_words};
pub use members::{
    Members, put_amount, put_amount_where, put_count, put_id, put_id_where, put_number, put_object,
    put_text, put_true,
};
pub use texts::text_of;
