//! Ways to get goods: recipes, and sources that are mined.
use fractions::Ratio;
use plan_base::{EntityId, GoodId, Items};

/// What one craft takes of a good.
#[derive(Clone, Copy)]
pub struct Part {
    pub good: GoodId,
    pub amount: Ratio,
    /// The least temperature that is taken, in degrees.
    pub low: Option<Ratio>,
    /// The highest temperature that is taken, in degrees.
    pub high: Option<Ratio>,
}

/// What one craft gives of a good: an amount between two bounds, with a probability.
#[derive(Clone, Copy)]
pub struct Product {
    pub good: GoodId,
    pub low: Ratio,
    pub high: Ratio,
    pub probability: Ratio,
    /// How much of it productivity doesn't add to.
    pub catalyst: Ratio,
    /// In degrees.
    pub temperature: Option<Ratio>,
}

/// A way to make goods from goods.
#[derive(Drop)]
pub struct Recipe {
    pub category: u32,
    /// The seconds that one craft takes at a crafting speed of 1.
    pub time: Ratio,
    /// Whether it is known without research.
    pub enabled: bool,
    /// What the pollution of a machine is multiplied by.
    pub emissions: Ratio,
    pub ingredients: Items<Part>,
    pub products: Items<Product>,
    /// Of the launch of a rocket, the silo that launches it, which is the only machine that crafts it.
    pub launch: Option<EntityId>,
}

/// What is mined: an ore patch, a tree, a rock, a fish.
#[derive(Drop)]
pub struct Source {
    /// Whether drills mine it.
    pub drilled: bool,
    /// The category of drills that mine it.
    pub category: u32,
    /// The seconds that one operation takes at a mining speed of 1.
    pub time: Ratio,
    /// Whether the map has it.
    pub placed: bool,
    pub products: Items<Product>,
    /// The fluid that one operation takes, and how much of it.
    pub fluid: Option<(GoodId, Ratio)>,
}
