// The nodes and the goods of a game as words.
ghost use Rattle.std.specs.Prelude.{◌≡◌, ◌+◌, ◌<◌, ◌-◌, ◌++◌, IfOk, OnOk, string_bytes};
ghost use Rattle.plan_base.specs.Shape.{first_of};
ghost use Rattle.game_types.specs.Nodes.{shape_of};
ghost use Rattle.game_types.specs.Sound.{IsSound};
ghost use Rattle.plan_report.specs.LineStarts.{line_start};
ghost use Rattle.plan_report.specs.Nodes.{good_word, kind_at, name_at, node_word};

use crate::words::push_object_word;
use game_types::Game;
use plan_base::{GoodId, Kind, NodeId};
use std::alloc::{AllocError, Global};

// The kind and the name of a node. A node past the last counts as a technology without a name.
fn kind_and_name(game: &Game, node: NodeId) -> (Kind, &str)
    requires { IsSound game.now }
    ensures kind { result.0 ≡ kind_at (shape_of game.now) node.0 }
    ensures name { result.1.now ≡ name_at game.now result.0 (node.0 - first_of (shape_of game.now) result.0) }
{
    let shape = game.shape();
    if node.0 < shape.len() {
        (shape.kind_of(node).0, game.name_of(node))
    } else {
        (Kind::Tech, "")
    }
}

/// Puts the word of a node behind a text.
#[tactic(auto, unfolding(crate::specs::Nodes::node_word))]
pub fn push_node_word(
    alloc: Global,
    text: &mut String,
    game: &Game,
    node: NodeId,
) -> Result<(), AllocError>
    requires { IsSound game.now }
    ensures { OnOk result (string_bytes text.new ≡ string_bytes text.old ++ node_word game.now node) }
{
    let (kind, name) = kind_and_name(game, node);
    push_object_word(alloc, text, kind, name)
}

/// Puts the start of the further line that is about a node behind a text.
pub fn push_line_start(
    alloc: Global,
    text: &mut String,
    game: &Game,
    node: NodeId,
) -> Result<(), AllocError>
    requires { IsSound game.now }
    ensures { OnOk result (string_bytes text.new ≡ string_bytes text.old ++ line_start game.now node.0) }
{
    text.push_str("  ")?;
    push_node_word(alloc, text, game, node)
}

/// The word of a node.
pub fn node_word(alloc: Global, game: &Game, node: NodeId) -> Result<String, AllocError>
    requires { IsSound game.now }
    ensures { IfOk result (λ text. string_bytes text ≡ node_word game.now node) }
{
    let mut text = String::new(alloc);
    push_node_word(alloc, &mut text, game, node)?;
    Ok(text)
}

// The name of a technology, empty past the last.
fn tech_name(game: &Game, index: u32) -> &str
    requires { IsSound game.now }
    ensures { result.now ≡ name_at game.now Kind.Tech index }
{
    if index < game.tech_names.len() {
        game.tech_names.name_of(index)
    } else {
        ""
    }
}

/// Puts the word of a good of a table behind a text: an item, a fluid, electric power or a technology.
#[tactic(auto, unfolding(crate::specs::Nodes::good_word))]
pub fn push_good_word(
    alloc: Global,
    text: &mut String,
    game: &Game,
    good: GoodId,
) -> Result<(), AllocError>
    requires { IsSound game.now }
    ensures { OnOk result (string_bytes text.new ≡ string_bytes text.old ++ good_word game.now good) }
{
    let shape = game.shape();
    let power = shape.items + shape.fluids;
    if good.0 < power {
        push_node_word(alloc, text, game, NodeId(3 + good.0))
    } else if good.0 == power {
        push_object_word(alloc, text, Kind::Special, "electricity")
    } else {
        push_object_word(
            alloc,
            text,
            Kind::Tech,
            tech_name(game, good.0 - (power + 1)),
        )
    }
}

/// The word of a good of a table.
pub fn good_word(alloc: Global, game: &Game, good: GoodId) -> Result<String, AllocError>
    requires { IsSound game.now }
    ensures { IfOk result (λ text. string_bytes text ≡ good_word game.now good) }
{
    let mut text = String::new(alloc);
    push_good_word(alloc, &mut text, game, good)?;
    Ok(text)
}
