//! The small types that every crate of the planner speaks of: typed ids, the numbering of the nodes of a game,
//! text, lists that contracts see as lists, why a call is denied, and a counter of steps.
#![tactic(auto)]

mod denied;
mod ids;
mod items;
mod shape;
mod steps;
mod text;

pub use denied::Denied;
pub use ids::{EntityId, GoodId, NodeId, RecipeId, SourceId, TableId, TechId, World};
pub use items::Items;
pub use shape::{Kind, Shape};
pub use steps::Steps;
pub use text::{NoMemory, Text, text_of};
