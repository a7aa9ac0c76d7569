//! Names of nodes and goods.
ghost use Rattle.game_types.specs.Sound.{IsSound};

use game_types::{Activity, Game};
use plan_base::{EntityId, GoodId, Kind, NodeId, RecipeId, SourceId, TechId};

/// The kind and the name of a node. A node past the last counts as a technology without a name.
pub fn node_parts(game: &Game, node: NodeId) -> (Kind, &str)
    requires { IsSound game.now }
{
    let shape = game.shape();
    if node.0 < shape.len() {
        (shape.kind_of(node).0, game.name_of(node))
    } else {
        (Kind::Tech, "")
    }
}

/// The kind and the name of a good of a table.
pub fn good_parts(game: &Game, good: GoodId) -> (Kind, &str)
    requires { IsSound game.now }
{
    if good.0 < game.good_count() {
        node_parts(game, game.good_node(good))
    } else {
        (Kind::Tech, "")
    }
}

/// The name of a machine.
pub fn machine_name(game: &Game, machine: EntityId) -> &str
    requires { IsSound game.now }
{
    if machine.0 < game.machine_names.len() {
        game.machine_names.name_of(machine.0)
    } else {
        ""
    }
}

// The name of a recipe, of a source and of a technology.
fn recipe_name(game: &Game, recipe: RecipeId) -> &str {
    if recipe.0 < game.recipe_names.len() {
        game.recipe_names.name_of(recipe.0)
    } else {
        ""
    }
}

fn source_name(game: &Game, source: SourceId) -> &str {
    if source.0 < game.source_names.len() {
        game.source_names.name_of(source.0)
    } else {
        ""
    }
}

fn tech_name(game: &Game, tech: TechId) -> &str {
    if tech.0 < game.tech_names.len() {
        game.tech_names.name_of(tech.0)
    } else {
        ""
    }
}

/// What a row does: its recipe, its source, its fluid or its technology.
pub fn activity_parts(game: &Game, activity: Activity) -> (Kind, &str)
    requires { IsSound game.now }
{
    match activity {
        Activity::Craft(recipe) => (Kind::Recipe, recipe_name(game, recipe)),
        Activity::Mine(source) => (Kind::Source, source_name(game, source)),
        Activity::Pump(good) => good_parts(game, good),
        Activity::Boil(good) => good_parts(game, good),
        Activity::Generate => (Kind::Special, "electricity"),
        Activity::Research(tech) => (Kind::Tech, tech_name(game, tech)),
    }
}
