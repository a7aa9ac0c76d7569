//! The things that changes name.
ghost use Rattle.std.specs.Prelude.{◌≡◌, ◌+◌, ◌<◌, ◌≤◌, ◌^◌, Bool, IfOk};
ghost use Rattle.plan_base.specs.Outcomes.{Gives};
ghost use Rattle.plan_base.specs.Shape.{count_of, first_of, node_count};
ghost use Rattle.game_types.specs.Nodes.{shape_of};
ghost use Rattle.game_types.specs.Sound.{IsSound};
ghost use Rattle.state_changes.specs.Actions.{good_named, is_fluid, node_named, place_named, recipe_named, tech_named};

use crate::refusals::Refusal;
use game_types::Game;
use plan_base::{Denied, GoodId, Kind, NodeId, RecipeId, Shape, TechId};
use plan_lines::Object;
use std::alloc::Global;

/// The number of the first node of a kind, and the one behind its last.
pub fn nodes_of(shape: &Shape, kind: Kind) -> (u32, u32)
    requires { node_count shape.now < 2 ^ 32 }
    ensures first { result.0 ≡ first_of shape.now kind }
    ensures end { result.1 ≡ first_of shape.now kind + count_of shape.now kind }
    ensures nodes { result.1 ≤ node_count shape.now }
{
    let first = shape.first_of(kind);
    (first, first + shape.count_of(kind))
}

/// The node that an object names.
///
/// # Errors
///
/// `Unknown` where nothing has the name. Or `NoMemory`.
#[tactic(auto, unfolding(crate::specs::Actions::node_named))]
pub fn node_named(alloc: Global, game: &Game, object: &Object) -> Result<NodeId, Denied<Refusal>>
    requires { IsSound game.now }
    ensures node { Gives (node_named game.now object.now) result }
    ensures within { IfOk result (λ node. node.0 < node_count (shape_of game.now)) }
{
    match game.find(object.kind, object.name.as_str()) {
        Some(node) => Ok(node),
        None => match object.copy(alloc) {
            Ok(copy) => Err(Denied::Refused(Refusal::Unknown(copy))),
            Err(_) => Err(Denied::NoMemory),
        },
    }
}

// The place of an object's name among those of a kind.
#[tactic(auto, unfolding(crate::specs::Actions::place_named))]
fn place_named(
    alloc: Global,
    game: &Game,
    kind: Kind,
    object: &Object,
) -> Result<u32, Denied<Refusal>>
    requires { IsSound game.now }
    ensures place { Gives (place_named game.now kind object.now) result }
    ensures within { IfOk result (λ place. place < count_of (shape_of game.now) kind) }
{
    match game.place_of(kind, object.name.as_str()) {
        Some(place) => Ok(place),
        None => match object.copy(alloc) {
            Ok(copy) => Err(Denied::Refused(Refusal::Unknown(copy))),
            Err(_) => Err(Denied::NoMemory),
        },
    }
}

/// The recipe that an object names.
#[tactic(auto, unfolding(crate::specs::Actions::recipe_named))]
pub(crate) fn recipe_named(
    alloc: Global,
    game: &Game,
    object: &Object,
) -> Result<RecipeId, Denied<Refusal>>
    requires { IsSound game.now }
    ensures { Gives (recipe_named game.now object.now) result }
{
    let place = place_named(alloc, game, Kind::Recipe, object)?;
    Ok(RecipeId(place))
}

/// The technology that an object names.
#[tactic(auto, unfolding(crate::specs::Actions::tech_named))]
pub(crate) fn tech_named(
    alloc: Global,
    game: &Game,
    object: &Object,
) -> Result<TechId, Denied<Refusal>>
    requires { IsSound game.now }
    ensures { Gives (tech_named game.now object.now) result }
{
    let place = place_named(alloc, game, Kind::Tech, object)?;
    Ok(TechId(place))
}

fn is_fluid(kind: Kind) -> bool
    ensures { result ≡ is_fluid kind }
{
    match kind {
        Kind::Fluid => true,
        _ => false,
    }
}

/// The good that an object names.
#[tactic(auto, unfolding(crate::specs::Actions::good_named))]
pub(crate) fn good_named(
    alloc: Global,
    game: &Game,
    object: &Object,
) -> Result<GoodId, Denied<Refusal>>
    requires { IsSound game.now }
    ensures { Gives (good_named game.now object.now) result }
{
    if is_fluid(object.kind) {
        let place = place_named(alloc, game, Kind::Fluid, object)?;
        Ok(GoodId(game.items.len() as u32 + place))
    } else {
        let place = place_named(alloc, game, Kind::Item, object)?;
        Ok(GoodId(place))
    }
}
