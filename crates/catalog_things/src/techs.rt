//! Technologies.
ghost use Rattle.std.specs.Prelude.{◌≡◌, ◌<◌, IfOk, OnOk, length};
ghost use Rattle.game_types.specs.Sound.{IsSound};
ghost use Rattle.serde_json.specs.View.{members_view};
ghost use Rattle.catalog_things.specs.Goods.{recipe_nodes};
ghost use Rattle.catalog_things.specs.Ways.{tech_at, tech_nodes, with_links, with_tech, with_unit};

use crate::nodes::thing_node;
use crate::parts::put_goods;
use crate::recipes::put_by;
use catalog_members::{Members, put_amount, put_amount_where, put_ids, put_true};
use game_types::{Activity, Game, Tech};
use plan_base::{Kind, NoMemory, NodeId, RecipeId, TechId};
use std::alloc::Global;

#[tactic(auto, unfolding(crate::specs::Ways::tech_nodes))]
fn tech_nodes(alloc: Global, game: &Game, techs: &[TechId]) -> Result<Vec<NodeId>, NoMemory>
    requires { IsSound game.now }
    ensures { IfOk result (λ nodes. nodes.items ≡ tech_nodes game.now techs.now) }
{
    Ok(
        techs
            .iter()
            .map(|tech| thing_node(game, Kind::Tech, tech.0))
            .collect(alloc)?,
    )
}

/// The nodes of recipes.
#[tactic(auto, unfolding(crate::specs::Goods::recipe_nodes))]
pub fn recipe_nodes(
    alloc: Global,
    game: &Game,
    recipes: &[RecipeId],
) -> Result<Vec<NodeId>, NoMemory>
    requires { IsSound game.now }
    ensures { IfOk result (λ nodes. nodes.items ≡ recipe_nodes game.now recipes.now) }
{
    Ok(
        recipes
            .iter()
            .map(|recipe| thing_node(game, Kind::Recipe, recipe.0))
            .collect(alloc)?,
    )
}

#[tactic(auto, unfolding(crate::specs::Ways::with_unit))]
fn put_unit(members: &mut Members, alloc: Global, game: &Game, tech: &Tech) -> Result<(), NoMemory>
    requires { IsSound game.now }
    ensures { OnOk result (members_view members.new.entries ≡ with_unit game.now tech.now (members_view members.old.entries)) }
{
    put_true(members, alloc, "enabled", tech.enabled)?;
    put_goods(members, alloc, "in", game, tech.ingredients.as_slice())?;
    put_amount_where(members, alloc, "count", &tech.count)?;
    put_amount(members, alloc, "time", &tech.time)
}

#[tactic(auto, unfolding(crate::specs::Ways::with_links))]
fn put_links(members: &mut Members, alloc: Global, game: &Game, tech: &Tech) -> Result<(), NoMemory>
    requires { IsSound game.now }
    ensures { OnOk result (members_view members.new.entries ≡ with_links game.now tech.now (members_view members.old.entries)) }
{
    let needs = tech_nodes(alloc, game, tech.prerequisites.as_slice())?;
    put_ids(members, alloc, "needs", game, needs.as_slice())?;
    let unlocks = recipe_nodes(alloc, game, tech.unlocks.as_slice())?;
    put_ids(members, alloc, "unlocks", game, unlocks.as_slice())
}

#[tactic(auto, unfolding(crate::specs::Ways::tech_at))]
fn tech_at(game: &Game, number: TechId) -> &Tech
    requires { number.0 < length game.now.techs }
    ensures { result.now ≡ tech_at game.now number }
{
    &game.techs.as_slice()[number.0 as usize]
}

/// Puts the members of a technology.
#[tactic(auto, unfolding(crate::specs::Ways::with_tech))]
pub fn put_tech(
    members: &mut Members,
    alloc: Global,
    game: &Game,
    number: TechId,
) -> Result<(), NoMemory>
    requires sound { IsSound game.now }
    requires number { number.0 < length game.now.techs }
    ensures { OnOk result (members_view members.new.entries ≡ with_tech game.now number (members_view members.old.entries)) }
{
    let tech = tech_at(game, number);
    put_unit(members, alloc, game, tech)?;
    put_links(members, alloc, game, tech)?;
    put_by(members, alloc, game, Activity::Research(number))
}
