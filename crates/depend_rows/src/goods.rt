//! What goods need: any that gives them.
ghost use Rattle.std.specs.Prelude.{◌≡◌, ◌<◌, ◌++◌, IfOk, OnOk, length, nat_lt};
ghost use Rattle.game_types.specs.Sound.{IsSound};
ghost use Rattle.depend_index.specs.Indexed.{IsIndex};
ghost use Rattle.game_types.specs.Temperatures.{is_base};
ghost use Rattle.graph_store.specs.Lists.{list_at};
ghost use Rattle.depend_index.specs.Goods.{good_count, leavers, putters, variants};
ghost use Rattle.depend_rows.specs.Goods.{givers, good_row, makers};

use crate::members::{any_of, row_with};
use depend_index::{Index, recipes_giving};
use game_types::Game;
use graph_store::{Row, list_at, list_of};
use plan_base::{NoMemory, NodeId};
use std::alloc::Global;

// Whether the list of a number has any nodes.
fn has_nodes(lists: &[Vec<NodeId>], number: u32) -> bool
    ensures { result ≡ nat_lt 0 (length (list_at lists.now number)) }
{
    list_of(lists, number).len() > 0
}

/// Whether a good is a base.
#[tactic(auto, using(crate::proofs::BaseLemmas::base_has_variants))]
pub fn is_base(game: &Game, index: &Index, good: u32) -> bool
    requires index { IsIndex game.now index.now }
    requires good { good < good_count game.now }
    ensures { result ≡ is_base game.now good }
{
    let _game = game;
    has_nodes(index.variants.as_slice(), good)
}

// Appends the list of a number.
fn push_list_at(nodes: &mut Vec<NodeId>, lists: &[Vec<NodeId>], number: u32) -> Result<(), NoMemory>
    ensures { IfOk result (λ done. nodes.new.items ≡ nodes.old.items ++ list_at lists.now number) }
{
    nodes.extend_from_slice(list_of(lists, number))?;
    Ok(())
}

// Appends the recipes and the sources that give a good.
#[tactic(auto, unfolding(crate::specs::Goods::makers))]
fn push_makers(
    alloc: Global,
    nodes: &mut Vec<NodeId>,
    game: &Game,
    index: &Index,
    good: u32,
) -> Result<(), NoMemory>
    requires sound { IsSound game.now }
    requires index { IsIndex game.now index.now }
    requires good { good < good_count game.now }
    ensures { OnOk result (nodes.new.items ≡ nodes.old.items ++ makers game.now good) }
{
    let recipes = recipes_giving(alloc, game, index, good)?;
    nodes.extend_from_slice(recipes.as_slice())?;
    push_list_at(nodes, index.source_makers.as_slice(), good)
}

// What gives a base.
fn base_givers(
    alloc: Global,
    game: &Game,
    index: &Index,
    good: u32,
) -> Result<Vec<NodeId>, NoMemory>
    requires sound { IsSound game.now }
    requires index { IsIndex game.now index.now }
    requires good { good < good_count game.now }
    ensures { IfOk result (λ nodes. nodes.items ≡ variants game.now good ++ makers game.now good) }
{
    let mut nodes = list_at(alloc, index.variants.as_slice(), good)?;
    push_makers(alloc, &mut nodes, game, index, good)?;
    Ok(nodes)
}

// What gives any other good.
fn plain_givers(
    alloc: Global,
    game: &Game,
    index: &Index,
    good: u32,
) -> Result<Vec<NodeId>, NoMemory>
    requires sound { IsSound game.now }
    requires index { IsIndex game.now index.now }
    requires good { good < good_count game.now }
    ensures { IfOk result (λ nodes. nodes.items ≡ leavers game.now good ++ makers game.now good ++ putters game.now good) }
{
    let mut nodes = list_at(alloc, index.leavers.as_slice(), good)?;
    push_makers(alloc, &mut nodes, game, index, good)?;
    push_list_at(&mut nodes, index.putters.as_slice(), good)?;
    Ok(nodes)
}

// What gives a good.
#[tactic(auto, unfolding(crate::specs::Goods::givers))]
fn givers(alloc: Global, game: &Game, index: &Index, good: u32) -> Result<Vec<NodeId>, NoMemory>
    requires sound { IsSound game.now }
    requires index { IsIndex game.now index.now }
    requires good { good < good_count game.now }
    ensures { IfOk result (λ nodes. nodes.items ≡ givers game.now good) }
{
    if is_base(game, index, good) {
        base_givers(alloc, game, index, good)
    } else {
        plain_givers(alloc, game, index, good)
    }
}

/// The row of a good.
#[tactic(auto, unfolding(crate::specs::Goods::good_row))]
pub fn good_row(alloc: Global, game: &Game, index: &Index, good: u32) -> Result<Row, NoMemory>
    requires sound { IsSound game.now }
    requires index { IsIndex game.now index.now }
    requires good { good < good_count game.now }
    ensures { IfOk result (λ row. row ≡ good_row game.now good) }
{
    let group = any_of(givers(alloc, game, index, good)?);
    let mut groups = Vec::new(alloc);
    groups.push(group)?;
    Ok(row_with(groups))
}
