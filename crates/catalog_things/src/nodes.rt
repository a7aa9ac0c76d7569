//! The nodes of things by their kinds and numbers.
ghost use Rattle.std.specs.Prelude.{◌≡◌, ◌-◌, if◌then◌else◌, nat_lt, length};
ghost use Rattle.game_types.specs.Nodes.{shape_of};
ghost use Rattle.game_types.specs.Sound.{IsSound};
ghost use Rattle.catalog_things.specs.Nodes.{good_node, thing_node};

use game_types::Game;
use plan_base::{GoodId, Kind, NodeId};

/// The node of the thing of a kind with a number; past the last, the node behind all.
pub fn thing_node(game: &Game, kind: Kind, number: u32) -> NodeId
    requires { IsSound game.now }
    ensures { result ≡ thing_node game.now kind number }
{
    let shape = game.shape();
    if number < shape.count_of(kind) {
        shape.node_of(kind, number)
    } else {
        NodeId(shape.len())
    }
}

/// The node of an item or a fluid.
pub fn good_node(game: &Game, good: GoodId) -> NodeId
    requires { IsSound game.now }
    ensures { result ≡ good_node game.now good }
{
    let items = game.shape().items;
    if good.0 < items {
        thing_node(game, Kind::Item, good.0)
    } else {
        thing_node(game, Kind::Fluid, good.0 - items)
    }
}
