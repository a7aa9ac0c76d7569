//! What mines a source: the row of each source.
ghost use Rattle.std.specs.Prelude.{◌≡◌, ◌<◌, IfOk, Some};
ghost use Rattle.game_types.specs.Making.{character_mines, kind_mines};
ghost use Rattle.game_types.specs.Sound.{IsSound, IsSoundSource};
ghost use Rattle.depend_index.specs.Indexed.{IsIndex};
ghost use Rattle.graph_store.specs.Lists.{list_at, AreAllLists};
ghost use Rattle.depend_index.specs.Marks.{AreMarks};
ghost use Rattle.depend_index.specs.Kinds.{is_drill_of};
ghost use Rattle.graph_store.specs.Members.{those};
ghost use Rattle.depend_index.specs.Goods.{first_machine};
ghost use Rattle.depend_rows.specs.Members.{any_of};
ghost use Rattle.depend_rows.specs.Goods.{miners, source_row};

use crate::members::{all_of_good, any_of, row_with, with_character};
use depend_index::{Index, first_machine, is_marked};
use game_types::{Character, Game, Source};
use graph_store::{Row, list_at};
use plan_base::{NoMemory, NodeId};
use std::alloc::Global;

// ---- sources

fn character_mines(character: &Character, marks: &[bool], source: &Source) -> bool
    requires { AreMarks character.now.mining marks.now }
    ensures { result ≡ character_mines character.now source.now }
{
    !source.drilled
        || (is_marked(marks, character.mining.as_slice(), source.category)
            && source.fluid.is_none())
}

// The lists of drills: of all, or of those that take a fluid.
fn drills_of<'a>(game: &Game, index: &'a Index, boxed: bool) -> &'a [Vec<NodeId>]
    requires { IsIndex game.now index.now }
    ensures { AreAllLists (λ category. those (λ machine. is_drill_of boxed machine.kind category) (first_machine game.now) game.now.machines) result.now }
{
    let _game = game;
    if boxed {
        index.boxed_drills.as_slice()
    } else {
        index.drills.as_slice()
    }
}

// The drills that mine a source.
fn drills_mining(
    alloc: Global,
    game: &Game,
    index: &Index,
    source: &Source,
) -> Result<Vec<NodeId>, NoMemory>
    requires sound { IsSound game.now }
    requires index { IsIndex game.now index.now }
    ensures { IfOk result (λ nodes. nodes.items ≡ those (λ machine. kind_mines machine.kind source.now) (first_machine game.now) game.now.machines) }
{
    let boxed = source.fluid.is_some();
    let drills = drills_of(game, index, boxed);
    if !source.drilled {
        Ok(Vec::new(alloc))
    } else {
        let nodes = list_at(alloc, drills, source.category)?;
        Ok(nodes)
    }
}

// The character and the drills that mine a source.
#[tactic(auto, unfolding(crate::specs::Goods::miners))]
fn miners(
    alloc: Global,
    game: &Game,
    index: &Index,
    source: &Source,
) -> Result<Vec<NodeId>, NoMemory>
    requires sound { IsSound game.now }
    requires index { IsIndex game.now index.now }
    ensures { IfOk result (λ nodes. nodes.items ≡ miners game.now source.now) }
{
    let by_hand = character_mines(&game.character, index.mining.as_slice(), source);
    let machines = drills_mining(alloc, game, index, source)?;
    with_character(alloc, by_hand, machines)
}

/// The row of a source.
#[tactic(auto, unfolding(crate::specs::Goods::source_row))]
pub fn source_row(
    alloc: Global,
    game: &Game,
    index: &Index,
    source: &Source,
) -> Result<Row, NoMemory>
    requires sound { IsSound game.now }
    requires index { IsIndex game.now index.now }
    requires source { IsSoundSource game.now source.now }
    ensures { IfOk result (λ row. row ≡ source_row game.now source.now) }
{
    let makers = any_of(miners(alloc, game, index, source)?);
    let mut groups = Vec::new(alloc);
    groups.push(makers)?;
    if let Some((fluid, _)) = source.fluid {
        groups.push(all_of_good(alloc, fluid)?)?;
    }
    if !source.placed {
        groups.push(any_of(Vec::new(alloc)))?;
    }
    Ok(row_with(groups))
}
