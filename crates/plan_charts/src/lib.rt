//! A plan as a chart: cards with what flows into them and out of them, drawn and as a graph for Graphviz. A law says
//! that edges balance: what they bring to a good is what they take of it.
//!
//! Names come from dumps and scripts of others. Each is a piece of its kind, which `put` of `page_rows` escapes.
#![tactic(auto)]

mod amounts;
mod cards;
mod dot;
mod drawings;
mod drawn_cards;
mod edge_laws;
mod sizes;
mod strokes;
mod widths;

pub use cards::{Card, CardKind, Chart, ChartGood, Shown, chart_of};
pub use dot::dot_text;
pub use drawings::push_drawing;
pub use edge_laws::edges_balance;
