//! Lists of nodes.
ghost use Rattle.std.specs.Prelude.{◌≡◌, IfOk, OnOk, map};
ghost use Rattle.game_types.specs.Sound.{IsSound};
ghost use Rattle.serde_json.specs.View.{items_view, members_view, view};
ghost use Rattle.catalog_members.specs.Members.{id_value};
ghost use Rattle.report_json.specs.Values.{with_nodes};

use crate::values::{push, put_list};
use catalog_members::{Members, id_text};
use game_types::Game;
use plan_base::{NoMemory, NodeId};
use serde_json::Value;
use std::alloc::Global;

fn id_value(alloc: Global, game: &Game, node: NodeId) -> Result<Value, NoMemory>
    requires { IsSound game.now }
    ensures { IfOk result (λ value. view value ≡ id_value game.now node) }
{
    let text = id_text(alloc, game, node)?;
    Ok(Value::String(text))
}

#[tactic(auto, using(crate::proofs::Listing::none_told, crate::proofs::Listing::one_told, crate::proofs::Listing::all_told))]
fn id_values(alloc: Global, game: &Game, nodes: &[NodeId]) -> Result<Vec<Value>, NoMemory>
    requires { IsSound game.now }
    ensures { IfOk result (λ list. map view list.items ≡ map (id_value game.now) nodes.now) }
{
    let mut list = Vec::new(alloc);
    for node in nodes {
        push(&mut list, id_value(alloc, game, *node)?)?;
    }
    Ok(list)
}

/// Puts nodes by their names.
#[tactic(auto, unfolding(crate::specs::Values::with_nodes))]
pub fn put_nodes(
    members: &mut Members,
    alloc: Global,
    key: &str,
    game: &Game,
    nodes: &[NodeId],
) -> Result<(), NoMemory>
    requires { IsSound game.now }
    ensures { OnOk result (members_view members.new.entries ≡ with_nodes key.now game.now nodes.now (members_view members.old.entries)) }
{
    let list = id_values(alloc, game, nodes)?;
    put_list(members, alloc, key, list)
}
