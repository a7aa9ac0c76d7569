//! Items and fluids.
use crate::{Bonus, Product};
use fractions::Ratio;
use plan_base::{EntityId, GoodId, Items, RecipeId};

/// What burning one item gives.
#[derive(Clone, Copy)]
pub struct Fuel {
    /// The category of burners that take it.
    pub category: u32,
    /// The energy of one item, in joules.
    pub value: Ratio,
    /// What the pollution of a burner is multiplied by.
    pub emissions: Ratio,
}

/// What a module does, and where it may go.
#[derive(Drop)]
pub struct Module {
    pub bonus: Bonus,
    /// The only recipes that it may be used for; any recipe where this is empty.
    pub limitation: Items<RecipeId>,
    /// Recipes that it may not be used for.
    pub blacklist: Items<RecipeId>,
}

/// A solid good.
#[derive(Drop)]
pub struct Item {
    /// The machine that it is placed as.
    pub place: Option<EntityId>,
    pub fuel: Option<Fuel>,
    /// The item that is left when it was burnt.
    pub burnt: Option<GoodId>,
    pub module: Option<Module>,
    /// What a rocket brings back that was launched with one.
    pub launch: Items<Product>,
}

/// A fluid, or what of it has one temperature. A fluid that is made at several temperatures has a base record, which stands for
/// the fluid at any of them, and a variant for each temperature.
#[derive(Clone, Copy)]
pub struct Fluid {
    /// The energy of one unit when it is burnt, in joules.
    pub fuel_value: Ratio,
    /// The energy that heats one unit by one degree, in joules.
    pub heat_capacity: Ratio,
    /// In degrees.
    pub default_temperature: Ratio,
    /// Of a variant, its base.
    pub of: Option<GoodId>,
    /// The temperature that it has, in degrees; of a base the default.
    pub at: Ratio,
}
