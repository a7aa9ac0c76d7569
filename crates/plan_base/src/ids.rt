//! Strongly typed ids. Each is a place in a list that its name tells; the list's owner says how long it is.
ghost use Rattle.std.specs.Prelude.{◌≡◌};
ghost use Rattle.plan_base.specs.Shape.{character_node, electricity_node, heat_node};

/// A node of the dependency graph: a special node, a good, a recipe, a source, a machine or a technology.
#[derive(Clone, Copy, Debug, PartialEq, Eq, PartialOrd, Ord, Hash)]
pub struct NodeId(pub u32);

impl NodeId {
    /// The player's character, from whom everything begins.
    pub fn character() -> NodeId
        ensures { result ≡ character_node }
    {
        NodeId(0)
    }

    /// Electric power.
    pub fn electricity() -> NodeId
        ensures { result ≡ electricity_node }
    {
        NodeId(1)
    }

    /// Heat, as of a reactor.
    pub fn heat() -> NodeId
        ensures { result ≡ heat_node }
    {
        NodeId(2)
    }
}

/// An item or a fluid; items come before fluids.
#[derive(Clone, Copy, Debug, PartialEq, Eq, PartialOrd, Ord, Hash)]
pub struct GoodId(pub u32);

/// A recipe of the game.
#[derive(Clone, Copy, Debug, PartialEq, Eq, PartialOrd, Ord, Hash)]
pub struct RecipeId(pub u32);

/// A source of goods that is mined: an ore patch, a tree, a rock.
#[derive(Clone, Copy, Debug, PartialEq, Eq, PartialOrd, Ord, Hash)]
pub struct SourceId(pub u32);

/// A machine: whatever crafts, mines, pumps, burns, generates or researches.
#[derive(Clone, Copy, Debug, PartialEq, Eq, PartialOrd, Ord, Hash)]
pub struct EntityId(pub u32);

/// A technology of the game.
#[derive(Clone, Copy, Debug, PartialEq, Eq, PartialOrd, Ord, Hash)]
pub struct TechId(pub u32);

/// A production table.
#[derive(Clone, Copy, Debug, PartialEq, Eq, PartialOrd, Ord, Hash)]
pub struct TableId(pub u32);

/// A world in which one milestone is barred.
#[derive(Clone, Copy, Debug, PartialEq, Eq, PartialOrd, Ord, Hash)]
pub struct World(pub u32);
