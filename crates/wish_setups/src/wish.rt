//! What is wished for, and what meets it.
use fractions::Ratio;
use plan_base::{EntityId, GoodId, Items, NoMemory, RecipeId};
use production_table::Table;
use std::alloc::Global;

/// Beacons round each machine that takes their effects, each of them full of one module.
#[derive(Clone, Copy)]
pub struct WishBeacon {
    pub beacon: EntityId,
    /// How many of them reach a machine.
    pub count: u32,
    /// How many machines share each of them.
    pub share: u32,
    pub module: GoodId,
}

/// What a plan is to take least of.
#[derive(Clone, Copy, Debug, PartialEq, Eq)]
pub enum Cheapest {
    /// What comes from outside, at its prices.
    Cost,
    /// Electric power.
    Power,
    Pollution,
    Machines,
}

/// So much of some goods a second, and how they are to be made.
#[derive(Drop)]
pub struct Wish {
    /// Items, fluids, electricity or units of technologies, each once, and the units a second of each, above 0.
    pub wants: Items<(GoodId, Ratio)>,
    /// Machines that are taken before others, an earlier one before a later one.
    pub by: Items<EntityId>,
    /// The slots of each machine are filled with the first of these modules that it takes.
    pub modules: Items<GoodId>,
    pub beacon: Option<WishBeacon>,
    /// The fuel of each burner that takes it.
    pub fuel: Option<GoodId>,
    /// What is taken as it is, with the price of one unit.
    pub imports: Items<(GoodId, Ratio)>,
    /// Recipes that are no rows.
    pub without: Items<RecipeId>,
    /// What one of these recipes gives is made by no other recipe.
    pub only: Items<RecipeId>,
    /// Marks for each recipe whether the game hides it: then it is a row only where it is one of those.
    pub hidden: Items<bool>,
    /// The most rows.
    pub rows: u32,
    pub cheapest: Cheapest,
    /// Whether drills mine what sources give.
    pub dig: bool,
    /// Whether electric power is made in the table.
    pub power: bool,
}

impl Wish {
    /// A wish for nothing.
    pub fn nothing(alloc: Global) -> Wish {
        Wish {
            wants: Items::from_vec(Vec::new(alloc)),
            by: Items::from_vec(Vec::new(alloc)),
            modules: Items::from_vec(Vec::new(alloc)),
            beacon: None,
            fuel: None,
            imports: Items::from_vec(Vec::new(alloc)),
            without: Items::from_vec(Vec::new(alloc)),
            only: Items::from_vec(Vec::new(alloc)),
            hidden: Items::from_vec(Vec::new(alloc)),
            rows: 1,
            cheapest: Cheapest::Cost,
            dig: false,
            power: false,
        }
    }
}

/// Why no row gives a good.
#[derive(Clone, Copy, Debug, PartialEq, Eq)]
pub enum Reason {
    /// The state doesn't reach it.
    Unreached,
    /// It is made by hand: no reached machine crafts the recipes that give it, of which this is the first.
    ByHand(RecipeId),
    /// What gives it takes heat, as this machine does, and can't be a row.
    ByHeat(EntityId),
    /// What gives it takes the energy of a fluid, as this machine does, and can't be a row.
    ByFluid(EntityId),
    /// The game hides the recipes that give it, of which this is the first.
    Hidden(RecipeId),
    /// The wish excludes what gives it.
    Excluded,
    /// Nothing gives it that can be a row.
    NoWay,
}

/// A good that can't be made.
#[derive(Clone, Copy, Debug, PartialEq, Eq)]
pub struct Unmade {
    pub wished: GoodId,
    /// The nearest good of those that it is made from that nothing gives, which may be itself.
    pub good: GoodId,
    pub reason: Reason,
}

/// Why there is no table for a wish.
#[derive(Drop)]
pub enum WishFault {
    Unmade(Unmade),
    /// No table that was tried has a plan. The prices that show it speak of these goods, each with an estimate of what one unit
    /// takes, rounded to three digits.
    NoPlan(Items<(GoodId, Ratio)>),
    /// Each table that was tried meets the limits of the solver.
    Unsolved,
    /// The table that stands has no room.
    Full,
    NoMemory,
}

impl From<NoMemory> for WishFault {
    fn from(_: NoMemory) -> WishFault {
        WishFault::NoMemory
    }
}

/// A table that meets a wish.
#[derive(Drop)]
pub struct Met {
    pub table: Table,
    /// The goods at the rim, which could be made and are imported, in the order of goods. Their prices are estimates of what one unit
    /// takes, rounded to three digits.
    pub rim: Items<(GoodId, Ratio)>,
    /// The watts that whole machines and their beacons draw by the plan, where the table makes its electric power.
    pub draw: Option<Ratio>,
    /// The watts that are wanted beside those of the wish, so that what whole machines draw is made.
    pub reserve: Ratio,
}
