//! Things by name.
ghost use Rattle.std.specs.Prelude.{◌≡◌, ◌-◌, IfOk, string_bytes};
ghost use Rattle.plan_base.specs.Shape.{first_of};
ghost use Rattle.game_types.specs.Nodes.{shape_of};
ghost use Rattle.game_types.specs.Sound.{IsSound};
ghost use Rattle.plan_report.specs.Nodes.{kind_at, name_at};
ghost use Rattle.catalog_members.specs.Members.{id_text, name_of_kind};

use game_types::Game;
use plan_base::{Kind, NoMemory, NodeId};
use plan_report::kind_word;
use std::alloc::Global;

// The kind and the name of a node. A node past the last counts as a technology without a name.
fn kind_and_name(game: &Game, node: NodeId) -> (Kind, &str)
    requires { IsSound game.now }
    ensures kind { result.0 ≡ kind_at (shape_of game.now) node.0 }
    ensures name { result.1.now ≡ name_at game.now result.0 (node.0 - first_of (shape_of game.now) result.0) }
{
    let shape = game.shape();
    if node.0 < shape.len() {
        (shape.kind_of(node).0, game.name_of(node))
    } else {
        (Kind::Tech, "")
    }
}

/// A thing as `KIND:NAME`, without quotes.
///
/// # Errors
///
/// `NoMemory` where memory could not be had.
#[tactic(auto, unfolding(crate::specs::Members::id_text))]
pub fn id_text(alloc: Global, game: &Game, node: NodeId) -> Result<String, NoMemory>
    requires { IsSound game.now }
    ensures { IfOk result (λ text. string_bytes text ≡ id_text game.now node) }
{
    let (kind, name) = kind_and_name(game, node);
    let kind = kind_word(kind);
    Ok(format!(in alloc; "{kind}:{name}")?)
}
