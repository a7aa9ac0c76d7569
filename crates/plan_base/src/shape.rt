//! How the nodes of a game are numbered.
ghost use Rattle.std.specs.Prelude.{◌≡◌, ◌+◌, ◌<◌, ◌≤◌, ◌^◌};
ghost use Rattle.plan_base.specs.Shape.{count_of, first_of, node_count};

use crate::NodeId;

/// What a node of the dependency graph is.
#[derive(Clone, Copy, Debug, PartialEq, Eq)]
pub enum Kind {
    /// The character, electricity and heat.
    Special,
    /// A solid good.
    Item,
    /// A fluid good.
    Fluid,
    /// A way to make goods from goods.
    Recipe,
    /// What is mined.
    Source,
    /// What does the work.
    Machine,
    /// A technology.
    Tech,
}

/// How many things of each kind a game has.
///
/// Nodes are numbered in this order: character 0, electricity 1, heat 2, then items, fluids, recipes, sources,
/// machines, technologies. So good `g` is node `3 + g`.
#[derive(Clone, Copy, Debug, PartialEq, Eq)]
pub struct Shape {
    pub items: u32,
    pub fluids: u32,
    pub recipes: u32,
    pub sources: u32,
    pub machines: u32,
    pub techs: u32,
}

impl Shape {
    /// How many nodes there are.
    pub fn len(&self) -> u32
        requires { node_count self.now < 2 ^ 32 }
        ensures { result ≡ node_count self.now }
    {
        3 + self.items + self.fluids + self.recipes + self.sources + self.machines + self.techs
    }

    /// The kind of a node and its index among the nodes of that kind.
    pub fn kind_of(&self, node: NodeId) -> (Kind, u32)
        requires count { node_count self.now < 2 ^ 32 }
        requires node { node.0 < node_count self.now }
        ensures place { node.0 ≡ first_of self.now result.0 + result.1 }
        ensures index { result.1 < count_of self.now result.0 }
    {
        let fluids = 3 + self.items;
        let recipes = fluids + self.fluids;
        let sources = recipes + self.recipes;
        let machines = sources + self.sources;
        let techs = machines + self.machines;
        if node.0 < 3 {
            (Kind::Special, node.0)
        } else if node.0 < fluids {
            (Kind::Item, node.0 - 3)
        } else if node.0 < recipes {
            (Kind::Fluid, node.0 - fluids)
        } else if node.0 < sources {
            (Kind::Recipe, node.0 - recipes)
        } else if node.0 < machines {
            (Kind::Source, node.0 - sources)
        } else if node.0 < techs {
            (Kind::Machine, node.0 - machines)
        } else {
            (Kind::Tech, node.0 - techs)
        }
    }

    /// How many things of a kind there are.
    pub fn count_of(&self, kind: Kind) -> u32
        ensures { result ≡ count_of self.now kind }
    {
        match kind {
            Kind::Special => 3,
            Kind::Item => self.items,
            Kind::Fluid => self.fluids,
            Kind::Recipe => self.recipes,
            Kind::Source => self.sources,
            Kind::Machine => self.machines,
            Kind::Tech => self.techs,
        }
    }

    /// The number of the first node of a kind.
    pub fn first_of(&self, kind: Kind) -> u32
        requires count { node_count self.now < 2 ^ 32 }
        ensures first { result ≡ first_of self.now kind }
        ensures nodes { result + count_of self.now kind ≤ node_count self.now }
    {
        match kind {
            Kind::Special => 0,
            Kind::Item => 3,
            Kind::Fluid => 3 + self.items,
            Kind::Recipe => 3 + self.items + self.fluids,
            Kind::Source => 3 + self.items + self.fluids + self.recipes,
            Kind::Machine => 3 + self.items + self.fluids + self.recipes + self.sources,
            Kind::Tech => {
                3 + self.items + self.fluids + self.recipes + self.sources + self.machines
            }
        }
    }

    /// The node of a kind with this index.
    pub fn node_of(&self, kind: Kind, index: u32) -> NodeId
        requires count { node_count self.now < 2 ^ 32 }
        requires index { index < count_of self.now kind }
        ensures { result.0 ≡ first_of self.now kind + index }
    {
        NodeId(self.first_of(kind) + index)
    }
}
