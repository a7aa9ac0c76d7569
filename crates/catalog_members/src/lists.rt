//! Members that are lists. An empty list has no member.
ghost use Rattle.std.specs.Prelude.{◌≡◌, ◌++◌, ◌∷◌, [], IfOk, OnOk};
ghost use Rattle.game_types.specs.Sound.{IsSound};
ghost use Rattle.serde_json.specs.View.{items_view, members_view, view};
ghost use Rattle.catalog_members.specs.Members.{id_value, items_tree, place_value, with_ids, with_items, with_places, with_words, word_value};

use crate::ids::id_text;
use crate::members::{Members, put};
use game_types::Game;
use plan_base::{NoMemory, NodeId, Text};
use serde_json::Value;
use std::alloc::Global;

fn push(list: &mut Vec<Value>, value: Value) -> Result<(), NoMemory>
    ensures { OnOk result (list.new.items ≡ list.old.items ++ value ∷ []) }
{
    Ok(serde_json::push(list, value)?)
}

/// Puts a list of values, unless it is empty.
#[tactic(auto, unfolding(crate::specs::Members::with_items))]
pub fn put_items(
    members: &mut Members,
    alloc: Global,
    key: &str,
    items: Vec<Value>,
) -> Result<(), NoMemory>
    ensures { OnOk result (members_view members.new.entries ≡ with_items key.now (items_view items.items) (members_view members.old.entries)) }
{
    if items.as_slice().is_empty() {
        Ok(())
    } else {
        put(members, alloc, key, Value::Array(items))
    }
}

fn id_value(alloc: Global, game: &Game, node: NodeId) -> Result<Value, NoMemory>
    requires { IsSound game.now }
    ensures { IfOk result (λ value. view value ≡ id_value game.now node) }
{
    let text = id_text(alloc, game, node)?;
    Ok(Value::String(text))
}

#[tactic(auto, using(crate::proofs::Listing::none_written, crate::proofs::Listing::one_written, crate::proofs::Listing::all_written))]
fn id_values(alloc: Global, game: &Game, nodes: &[NodeId]) -> Result<Vec<Value>, NoMemory>
    requires { IsSound game.now }
    ensures { IfOk result (λ list. items_view list.items ≡ items_tree (id_value game.now) nodes.now) }
{
    let mut list = Vec::new(alloc);
    for node in nodes {
        push(&mut list, id_value(alloc, game, *node)?)?;
    }
    Ok(list)
}

/// Puts things by their names, unless there are none.
#[tactic(auto, unfolding(crate::specs::Members::with_ids))]
pub fn put_ids(
    members: &mut Members,
    alloc: Global,
    key: &str,
    game: &Game,
    nodes: &[NodeId],
) -> Result<(), NoMemory>
    requires { IsSound game.now }
    ensures { OnOk result (members_view members.new.entries ≡ with_ids key.now game.now nodes.now (members_view members.old.entries)) }
{
    let list = id_values(alloc, game, nodes)?;
    put_items(members, alloc, key, list)
}

fn place_value(place: usize) -> Value
    ensures { view result ≡ place_value place }
{
    Value::from(place)
}

#[tactic(auto, using(crate::proofs::Listing::none_written, crate::proofs::Listing::one_written, crate::proofs::Listing::all_written))]
fn place_values(alloc: Global, places: &[usize]) -> Result<Vec<Value>, NoMemory>
    ensures { IfOk result (λ list. items_view list.items ≡ items_tree place_value places.now) }
{
    let mut list = Vec::new(alloc);
    for place in places {
        push(&mut list, place_value(*place))?;
    }
    Ok(list)
}

/// Puts whole numbers, unless there are none.
#[tactic(auto, unfolding(crate::specs::Members::with_places))]
pub fn put_places(
    members: &mut Members,
    alloc: Global,
    key: &str,
    numbers: &[usize],
) -> Result<(), NoMemory>
    ensures { OnOk result (members_view members.new.entries ≡ with_places key.now numbers.now (members_view members.old.entries)) }
{
    let list = place_values(alloc, numbers)?;
    put_items(members, alloc, key, list)
}

fn word_value(alloc: Global, text: &Text) -> Result<Value, NoMemory>
    ensures { IfOk result (λ value. view value ≡ word_value text.now) }
{
    Ok(Value::try_from_str(alloc, text.as_str())?)
}

#[tactic(auto, using(crate::proofs::Listing::none_written, crate::proofs::Listing::one_written, crate::proofs::Listing::all_written))]
fn word_values(alloc: Global, texts: &[Text]) -> Result<Vec<Value>, NoMemory>
    ensures { IfOk result (λ list. items_view list.items ≡ items_tree word_value texts.now) }
{
    let mut list = Vec::new(alloc);
    for text in texts {
        push(&mut list, word_value(alloc, text)?)?;
    }
    Ok(list)
}

/// Puts texts, unless there are none.
#[tactic(auto, unfolding(crate::specs::Members::with_words))]
pub fn put_words(
    members: &mut Members,
    alloc: Global,
    key: &str,
    texts: &[Text],
) -> Result<(), NoMemory>
    ensures { OnOk result (members_view members.new.entries ≡ with_words key.now texts.now (members_view members.old.entries)) }
{
    let list = word_values(alloc, texts)?;
    put_items(members, alloc, key, list)
}
