//! What technologies need.
ghost use Rattle.std.specs.Prelude.{◌≡◌, IfOk, map};
ghost use Rattle.game_types.specs.Sound.{IsSound, IsSoundTech};
ghost use Rattle.depend_index.specs.Indexed.{IsIndex};
ghost use Rattle.depend_rows.specs.Machines.{labs, prerequisites, science_packs, tech_row};

use crate::members::{all_of, any_of, row_with};
use depend_index::{Index, first_machine, first_tech, good_count};
use fractions::Ratio;
use game_types::{Game, Tech};
use graph_store::{Row, in_each, named};
use plan_base::{GoodId, NoMemory, NodeId, TechId};
use std::alloc::Global;

fn numbers_of_techs(alloc: Global, techs: &[TechId]) -> Result<Vec<u32>, NoMemory>
    ensures { IfOk result (λ numbers. numbers.items ≡ map (λ t. t.0) techs.now) }
{
    let mut numbers = Vec::new(alloc);
    for tech in techs {
        numbers.push(tech.0)?;
    }
    Ok(numbers)
}

#[tactic(auto, unfolding(crate::specs::Machines::prerequisites))]
fn prerequisites(alloc: Global, game: &Game, tech: &Tech) -> Result<Vec<NodeId>, NoMemory>
    requires sound { IsSound game.now }
    requires tech { IsSoundTech game.now tech.now }
    ensures { IfOk result (λ nodes. nodes.items ≡ prerequisites game.now tech.now) }
{
    let numbers = numbers_of_techs(alloc, tech.prerequisites.as_slice())?;
    named(alloc, first_tech(game), game.techs.len() as u32, numbers)
}

fn goods_of_parts(alloc: Global, parts: &[(GoodId, Ratio)]) -> Result<Vec<u32>, NoMemory>
    ensures { IfOk result (λ goods. goods.items ≡ map (λ part. part.0.0) parts.now) }
{
    let mut goods = Vec::new(alloc);
    for part in parts {
        goods.push(part.0.0)?;
    }
    Ok(goods)
}

#[tactic(auto, unfolding(crate::specs::Machines::science_packs))]
fn science_packs(alloc: Global, game: &Game, tech: &Tech) -> Result<Vec<NodeId>, NoMemory>
    requires sound { IsSound game.now }
    requires tech { IsSoundTech game.now tech.now }
    ensures { IfOk result (λ nodes. nodes.items ≡ science_packs game.now tech.now) }
{
    let goods = goods_of_parts(alloc, tech.ingredients.as_slice())?;
    named(alloc, 3, good_count(game), goods)
}

// The labs that research a technology.
#[tactic(auto, unfolding(crate::specs::Machines::labs))]
fn labs(alloc: Global, game: &Game, index: &Index, tech: &Tech) -> Result<Vec<NodeId>, NoMemory>
    requires sound { IsSound game.now }
    requires index { IsIndex game.now index.now }
    requires tech { IsSoundTech game.now tech.now }
    ensures { IfOk result (λ nodes. nodes.items ≡ labs game.now tech.now) }
{
    let goods = goods_of_parts(alloc, tech.ingredients.as_slice())?;
    if goods.is_empty() {
        Ok(Vec::from_slice(alloc, index.labs.as_slice())?)
    } else {
        let nodes = in_each(
            alloc,
            first_machine(game),
            index.takers.as_slice(),
            index.taker_words.as_slice(),
            goods.as_slice(),
        )?;
        Ok(nodes)
    }
}

/// The row of a technology.
#[tactic(auto, unfolding(crate::specs::Machines::tech_row))]
pub fn tech_row(alloc: Global, game: &Game, index: &Index, tech: &Tech) -> Result<Row, NoMemory>
    requires sound { IsSound game.now }
    requires index { IsIndex game.now index.now }
    requires tech { IsSoundTech game.now tech.now }
    ensures { IfOk result (λ row. row ≡ tech_row game.now tech.now) }
{
    let mut groups = Vec::new(alloc);
    groups.push(all_of(prerequisites(alloc, game, tech)?))?;
    groups.push(all_of(science_packs(alloc, game, tech)?))?;
    groups.push(any_of(labs(alloc, game, index, tech)?))?;
    if !tech.enabled {
        groups.push(any_of(Vec::new(alloc)))?;
    }
    Ok(row_with(groups))
}
