//! Laws of the solver's rule: it ends, and with enough budget it settles each table on which no exchange forms an entry wide.
#![tactic(auto)]

mod laws;

pub use laws::{answers_settle, budgets_settle, the_rule_ends};
