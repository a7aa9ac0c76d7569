//! Why a line of a script is refused, in words: what each code says and what more is known of a cause, and what stands where on a line;
//! which of some names a word is most like.
//!
//! The texts are in `specs/`: `Causes` (by the code of a refusal), `Forms` (what stands where on a line), `Likeness`.
#![tactic(auto)]

mod cause_texts;
mod causes;
mod forms;
mod likeness;
mod words;

pub use cause_texts::cause_text;
pub use causes::{Cause, Short, code_of, code_words};
pub use forms::{Slot, form_of, slot_code};
pub use likeness::{Likeness, nearest};
pub use words::{LineWord, QuoteFault, Unread, words_of};
