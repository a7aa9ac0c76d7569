//! One row of a production table: a machine, what it does, its fuel, its modules and beacons.
use plan_base::{EntityId, GoodId, Items, RecipeId, SourceId, TechId};

/// What a machine is set to do.
#[derive(Clone, Copy, Debug, PartialEq, Eq)]
pub enum Activity {
    Craft(RecipeId),
    Mine(SourceId),
    /// Pumps a fluid.
    Pump(GoodId),
    /// Makes electricity.
    Generate,
    /// Heats a fluid.
    Boil(GoodId),
    Research(TechId),
}

/// Beacons of one kind round a machine.
#[derive(Drop)]
pub struct BeaconGroup {
    pub beacon: EntityId,
    /// How many of them reach the machine.
    pub count: u32,
    /// How many machines share each of them.
    pub share: u32,
    /// The modules in each of them, with their counts.
    pub modules: Items<(GoodId, u32)>,
}

/// A machine and what it is set to do.
#[derive(Drop)]
pub struct Setup {
    pub activity: Activity,
    pub machine: EntityId,
    pub fuel: Option<GoodId>,
    /// The modules in the machine, with their counts.
    pub modules: Items<(GoodId, u32)>,
    pub beacons: Items<BeaconGroup>,
    /// The fluids that it takes where an ingredient allows several, those before others that come first.
    pub at: Items<GoodId>,
}
