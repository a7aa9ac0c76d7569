//! The game as a whole, and the names of its nodes.
ghost use Rattle.std.specs.Prelude.{◌≡◌, ◌<◌, ℕ, ◌+◌, ◌∷◌, [], Some, None, IfSome, option_map, slice_get, codes};
ghost use Rattle.name_table.specs.Names.{place_of};
ghost use Rattle.plan_base.specs.Shape.{count_of, node_count};
ghost use Rattle.game_types.specs.Nodes.{shape_of, find_node, names_of, node_names, node_at, special_names};
ghost use Rattle.game_types.specs.Sound.{IsSound};

use crate::{Character, Fluid, Item, Machine, Recipe, Source, Tech};
use name_table::Names;
use plan_base::{Items, Kind, NodeId, Shape};

/// The most nodes that a game has.
pub const NODE_LIMIT: u32 = 131_072;

/// All that the planner knows of a dump. Each list has its names beside it.
#[derive(Drop)]
pub struct Game {
    pub items: Items<Item>,
    pub fluids: Items<Fluid>,
    pub recipes: Items<Recipe>,
    pub sources: Items<Source>,
    pub machines: Items<Machine>,
    pub techs: Items<Tech>,
    pub character: Character,
    pub item_names: Names,
    pub fluid_names: Names,
    pub recipe_names: Names,
    pub source_names: Names,
    pub machine_names: Names,
    pub tech_names: Names,
    /// The names of the categories of recipes, sources and fuels.
    pub categories: Names,
}

// The place of a special node's name.
fn special_place(name: &str) -> Option<u32>
    ensures place { result ≡ place_of special_names name.now }
    ensures within { IfSome result (λ index. index < 3) }
{
    match name {
        "character" => Some(0),
        "electricity" => Some(1),
        "heat" => Some(2),
        _ => None,
    }
}

// The name of a special node.
fn special_name(index: u32) -> &'static str
    requires { index < 3 }
    ensures { slice_get special_names index ≡ Some result.now }
{
    match index {
        0 => "character",
        1 => "electricity",
        _ => "heat",
    }
}

impl Game {
    /// How many things of each kind there are.
    pub fn shape(&self) -> Shape
        requires { IsSound self.now }
        ensures { result ≡ shape_of self.now }
    {
        Shape {
            items: self.items.len() as u32,
            fluids: self.fluids.len() as u32,
            recipes: self.recipes.len() as u32,
            sources: self.sources.len() as u32,
            machines: self.machines.len() as u32,
            techs: self.techs.len() as u32,
        }
    }

    /// The place of a name among the names of a kind, where it is there.
    pub fn place_of(&self, kind: Kind, name: &str) -> Option<u32>
        requires { IsSound self.now }
        ensures place { result ≡ place_of (names_of self.now kind) name.now }
        ensures within { IfSome result (λ index. index < count_of (shape_of self.now) kind) }
    {
        match kind {
            Kind::Special => special_place(name),
            Kind::Item => self.item_names.find(name),
            Kind::Fluid => self.fluid_names.find(name),
            Kind::Recipe => self.recipe_names.find(name),
            Kind::Source => self.source_names.find(name),
            Kind::Machine => self.machine_names.find(name),
            Kind::Tech => self.tech_names.find(name),
        }
    }

    // The name at a place among the names of a kind.
    fn name_at(&self, kind: Kind, index: u32) -> &str
        requires sound { IsSound self.now }
        requires within { index < count_of (shape_of self.now) kind }
        ensures name { slice_get (names_of self.now kind) index ≡ Some result.now }
        ensures place { place_of (names_of self.now kind) result.now ≡ Some index }
    {
        match kind {
            Kind::Special => special_name(index),
            Kind::Item => self.item_names.name_of(index),
            Kind::Fluid => self.fluid_names.name_of(index),
            Kind::Recipe => self.recipe_names.name_of(index),
            Kind::Source => self.source_names.name_of(index),
            Kind::Machine => self.machine_names.name_of(index),
            Kind::Tech => self.tech_names.name_of(index),
        }
    }

    /// The node of a kind with a name, where there is one.
    pub fn find(&self, kind: Kind, name: &str) -> Option<NodeId>
        requires { IsSound self.now }
        ensures node { result ≡ find_node self.now kind name.now }
        ensures within { IfSome result (λ node. node.0 < node_count (shape_of self.now)) }
    {
        match self.place_of(kind, name) {
            Some(index) => Some(self.shape().node_of(kind, index)),
            None => None,
        }
    }

    /// The name of a node. Its kind and this name find the node again.
    pub fn name_of(&self, node: NodeId) -> &str
        requires sound { IsSound self.now }
        requires within { node.0 < node_count (shape_of self.now) }
        ensures name { (kind : Kind) (index : ℕ) → index < count_of (shape_of self.now) kind
            → node ≡ node_at self.now kind index → slice_get (names_of self.now kind) index ≡ Some result.now }
        ensures found { (kind : Kind) (index : ℕ) → index < count_of (shape_of self.now) kind
            → node ≡ node_at self.now kind index → find_node self.now kind result.now ≡ Some node }
    {
        let (kind, index) = self.shape().kind_of(node);
        self.name_at(kind, index)
    }
}
