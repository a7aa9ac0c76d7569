//! What answers wishes.
use catalog_text::ShownFields;
use plan_base::NoMemory;
use plan_lines::RefusalCode;
use planner_core::Planner;
use std::alloc::Global;

/// The answer to a wish.
#[derive(Drop)]
pub enum Wished {
    /// The lines that make a table for it.
    Lines(String),
    /// The question is refused.
    Refused(RefusalCode),
    /// Its words are wrong, or nothing meets it: why.
    Unmet(String),
}

/// What answers wishes by a planner.
pub trait Wishes {
    /// Answers the words behind the first of a question that wishes.
    ///
    /// # Errors
    ///
    /// `NoMemory` where memory could not be had.
    fn answer_wish(
        &self,
        alloc: Global,
        planner: &Planner,
        shown: &ShownFields,
        words: &[u8],
    ) -> Result<Wished, NoMemory>;
}
