//! Technologies, and what the character does by hand.
use fractions::Ratio;
use plan_base::{GoodId, Items, RecipeId, TechId};

/// A technology.
#[derive(Drop)]
pub struct Tech {
    /// Whether it can be researched at all.
    pub enabled: bool,
    pub prerequisites: Items<TechId>,
    /// The recipes that it makes known.
    pub unlocks: Items<RecipeId>,
    /// The science packs that one unit takes.
    pub ingredients: Items<(GoodId, Ratio)>,
    /// How many units it takes, where that is a plain number.
    pub count: Option<Ratio>,
    /// The seconds that one unit takes at a research speed of 1.
    pub time: Ratio,
}

/// What the character does by hand: the categories of recipes and of sources.
#[derive(Drop)]
pub struct Character {
    pub crafting: Items<u32>,
    pub mining: Items<u32>,
}
