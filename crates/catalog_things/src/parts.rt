//! What is taken: amounts of goods, and ingredients with the goods that may stand for them.
ghost use Rattle.std.specs.Prelude.{◌≡◌, ◌++◌, ◌∷◌, [], IfOk, OnOk};
ghost use Rattle.game_types.specs.Sound.{IsSound};
ghost use Rattle.serde_json.specs.Data.{object};
ghost use Rattle.serde_json.specs.View.{items_view, members_view, view};
ghost use Rattle.catalog_members.specs.Members.{items_tree};
ghost use Rattle.catalog_things.specs.Parts.{good_value, is_alone, part_value, with_fits, with_good, with_goods, with_part, with_parts};

use crate::fits::fits_of;
use crate::nodes::good_node;
use catalog_members::{Members, put_amount, put_amount_where, put_id, put_ids, put_items};
use depend_index::Index;
use fractions::Ratio;
use game_types::{Game, Part};
use plan_base::{GoodId, NoMemory, NodeId};
use serde_json::{Map, Value};
use std::alloc::Global;

/// An object of members.
pub fn value_of(members: Members) -> Value
    ensures { view result ≡ object (members_view members.entries) }
{
    Value::Object(members)
}

/// Puts a value behind others.
pub fn push(list: &mut Vec<Value>, value: Value) -> Result<(), NoMemory>
    ensures { OnOk result (list.new.items ≡ list.old.items ++ value ∷ []) }
{
    Ok(serde_json::push(list, value)?)
}

/// Puts an amount of a good.
#[tactic(auto, unfolding(crate::specs::Parts::with_good))]
pub fn put_good(
    members: &mut Members,
    alloc: Global,
    game: &Game,
    good: GoodId,
    amount: &Ratio,
) -> Result<(), NoMemory>
    requires { IsSound game.now }
    ensures { OnOk result (members_view members.new.entries ≡ with_good game.now good amount.now (members_view members.old.entries)) }
{
    put_amount(members, alloc, "amount", amount)?;
    put_id(members, alloc, "good", game, good_node(game, good))
}

fn good_value(alloc: Global, game: &Game, part: &(GoodId, Ratio)) -> Result<Value, NoMemory>
    requires { IsSound game.now }
    ensures { IfOk result (λ value. view value ≡ good_value game.now part.now) }
{
    let mut members = Map::new(alloc);
    put_good(&mut members, alloc, game, part.0, &part.1)?;
    Ok(value_of(members))
}

#[tactic(auto, using(catalog_members::proofs::Listing::none_written, catalog_members::proofs::Listing::one_written, catalog_members::proofs::Listing::all_written))]
fn good_values(
    alloc: Global,
    game: &Game,
    goods: &[(GoodId, Ratio)],
) -> Result<Vec<Value>, NoMemory>
    requires { IsSound game.now }
    ensures { IfOk result (λ list. items_view list.items ≡ items_tree (good_value game.now) goods.now) }
{
    let mut list = Vec::new(alloc);
    for part in goods {
        push(&mut list, good_value(alloc, game, part)?)?;
    }
    Ok(list)
}

/// Puts amounts of goods, unless there are none.
#[tactic(auto, unfolding(crate::specs::Parts::with_goods))]
pub fn put_goods(
    members: &mut Members,
    alloc: Global,
    key: &str,
    game: &Game,
    goods: &[(GoodId, Ratio)],
) -> Result<(), NoMemory>
    requires { IsSound game.now }
    ensures { OnOk result (members_view members.new.entries ≡ with_goods key.now game.now goods.now (members_view members.old.entries)) }
{
    let list = good_values(alloc, game, goods)?;
    put_items(members, alloc, key, list)
}

// Whether nodes are one alone.
fn is_alone(nodes: &[NodeId], node: NodeId) -> bool
    ensures { result ≡ is_alone nodes.now node }
{
    match nodes {
        [] => false,
        [only] => only.0 == node.0,
        [_, _, ..] => false,
    }
}

// Puts the goods that stand for a good, unless it is that good alone.
#[tactic(auto, unfolding(crate::specs::Parts::with_fits))]
fn put_fits(
    members: &mut Members,
    alloc: Global,
    game: &Game,
    good: GoodId,
    fits: &[NodeId],
) -> Result<(), NoMemory>
    requires { IsSound game.now }
    ensures { OnOk result (members_view members.new.entries ≡ with_fits game.now good fits.now (members_view members.old.entries)) }
{
    if is_alone(fits, good_node(game, good)) {
        Ok(())
    } else {
        put_ids(members, alloc, "fits", game, fits)
    }
}

#[tactic(auto, unfolding(crate::specs::Parts::with_part))]
fn put_part(
    members: &mut Members,
    alloc: Global,
    game: &Game,
    index: &Index,
    part: &Part,
) -> Result<(), NoMemory>
    requires { IsSound game.now }
    ensures { OnOk result (members_view members.new.entries ≡ with_part game.now index.now part.now (members_view members.old.entries)) }
{
    let fits = fits_of(alloc, game, index, part, good_node(game, part.good))?;
    put_good(members, alloc, game, part.good, &part.amount)?;
    put_amount_where(members, alloc, "low", &part.low)?;
    put_amount_where(members, alloc, "high", &part.high)?;
    put_fits(members, alloc, game, part.good, fits.as_slice())
}

fn part_value(alloc: Global, game: &Game, index: &Index, part: &Part) -> Result<Value, NoMemory>
    requires { IsSound game.now }
    ensures { IfOk result (λ value. view value ≡ part_value game.now index.now part.now) }
{
    let mut members = Map::new(alloc);
    put_part(&mut members, alloc, game, index, part)?;
    Ok(value_of(members))
}

#[tactic(auto, using(catalog_members::proofs::Listing::none_written, catalog_members::proofs::Listing::one_written, catalog_members::proofs::Listing::all_written))]
fn part_values(
    alloc: Global,
    game: &Game,
    index: &Index,
    parts: &[Part],
) -> Result<Vec<Value>, NoMemory>
    requires { IsSound game.now }
    ensures { IfOk result (λ list. items_view list.items ≡ items_tree (part_value game.now index.now) parts.now) }
{
    let mut list = Vec::new(alloc);
    for part in parts {
        push(&mut list, part_value(alloc, game, index, part)?)?;
    }
    Ok(list)
}

/// Puts ingredients, unless there are none.
#[tactic(auto, unfolding(crate::specs::Parts::with_parts))]
pub fn put_parts(
    members: &mut Members,
    alloc: Global,
    game: &Game,
    index: &Index,
    parts: &[Part],
) -> Result<(), NoMemory>
    requires { IsSound game.now }
    ensures { OnOk result (members_view members.new.entries ≡ with_parts game.now index.now parts.now (members_view members.old.entries)) }
{
    let list = part_values(alloc, game, index, parts)?;
    put_items(members, alloc, "in", list)
}
