//! The goods of tables: items, fluids, electric power, units of technologies.
ghost use Rattle.std.specs.Prelude.{◌≡◌, ◌<◌, length};
ghost use Rattle.plan_base.specs.Shape.{node_count};
ghost use Rattle.game_types.specs.Goods.{electricity, good_count, node_of_good, units_good};
ghost use Rattle.game_types.specs.Nodes.{shape_of};
ghost use Rattle.game_types.specs.Sound.{IsSound};

use crate::Game;
use plan_base::{GoodId, Kind, NodeId, TechId};

impl Game {
    /// Electric power, in watts.
    #[tactic(auto, unfolding(crate::specs::Goods::electricity))]
    pub fn electricity(&self) -> GoodId
        requires { IsSound self.now }
        ensures good { result ≡ electricity self.now }
        ensures within { result.0 < good_count self.now }
    {
        let shape = self.shape();
        GoodId(shape.items + shape.fluids)
    }

    /// One unit of a technology.
    #[tactic(auto, unfolding(crate::specs::Goods::units_good))]
    pub fn units_good(&self, tech: TechId) -> GoodId
        requires sound { IsSound self.now }
        requires within { tech.0 < length self.now.techs }
        ensures good { result ≡ units_good self.now tech }
        ensures within { result.0 < good_count self.now }
    {
        let shape = self.shape();
        GoodId(shape.items + shape.fluids + 1 + tech.0)
    }

    /// How many goods a table can speak of.
    pub fn good_count(&self) -> u32
        requires { IsSound self.now }
        ensures { result ≡ good_count self.now }
    {
        let shape = self.shape();
        shape.items + shape.fluids + 1 + shape.techs
    }

    /// The node by which a good of a table is named: an item, a fluid, electricity, a technology.
    #[tactic(auto, unfolding(crate::specs::Goods::node_of_good))]
    pub fn good_node(&self, good: GoodId) -> NodeId
        requires sound { IsSound self.now }
        requires within { good.0 < good_count self.now }
        ensures node { result ≡ node_of_good self.now good }
        ensures within { result.0 < node_count (shape_of self.now) }
    {
        let shape = self.shape();
        let power = shape.items + shape.fluids;
        if good.0 < power {
            NodeId(3 + good.0)
        } else if good.0 == power {
            NodeId::electricity()
        } else {
            shape.node_of(Kind::Tech, good.0 - (power + 1))
        }
    }
}
