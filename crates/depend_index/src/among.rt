//! The recipes that give a good and the technologies that unlock a recipe, from lists that may hold others too.
ghost use Rattle.std.specs.Prelude.{◌≡◌, ◌<◌, ◌==◌, IfOk, length};
ghost use Rattle.std.specs.List.{list_any};
ghost use Rattle.game_types.specs.Making.{gives};
ghost use Rattle.game_types.specs.Sound.{IsSound};
ghost use Rattle.graph_store.specs.Members.{those};
ghost use Rattle.depend_index.specs.Indexed.{IsIndex};
ghost use Rattle.depend_index.specs.Goods.{first_recipe, good_count, unlockers};

use crate::index::Index;
use crate::places::{first_recipe, first_tech};
use crate::products::is_expected;
use game_types::{Game, Product, Recipe, Tech};
use graph_store::{Test, those_at};
use plan_base::{NoMemory, NodeId, RecipeId};
use std::alloc::Global;

// Whether recipes give a good.
#[derive(Drop)]
struct Give {
    good: u32,
}

fn gives(products: &[Product], good: u32) -> bool
    ensures { result ≡ gives products.now good }
{
    products
        .iter()
        .any(|product| product.good.0 == good && is_expected(product))
}

impl Test<Recipe> for Give {
    ghost passes = { λ t recipe. gives recipe.products t.good };

    fn passes(&self, recipe: &Recipe) -> bool {
        gives(recipe.products.as_slice(), self.good)
    }
}

/// The recipes that give a good.
pub fn recipes_giving(
    alloc: Global,
    game: &Game,
    index: &Index,
    good: u32,
) -> Result<Vec<NodeId>, NoMemory>
    requires sound { IsSound game.now }
    requires index { IsIndex game.now index.now }
    requires good { good < good_count game.now }
    ensures { IfOk result (λ nodes. nodes.items ≡ those (λ recipe. gives recipe.products good) (first_recipe game.now) game.now.recipes) }
{
    let lists = index.recipe_makers.as_slice();
    let first = first_recipe(game);
    let test = Give { good };
    those_at(
        alloc,
        index.exact,
        lists,
        good,
        first,
        game.recipes.as_slice(),
        &test,
    )
}

// Whether technologies unlock a recipe.
#[derive(Drop)]
struct Unlock {
    recipe: u32,
}

fn unlocks(recipes: &[RecipeId], number: u32) -> bool
    ensures { result ≡ list_any (λ r. r.0 == number) recipes.now }
{
    recipes.iter().any(|recipe| recipe.0 == number)
}

impl Test<Tech> for Unlock {
    ghost passes = { λ t tech. list_any (λ r. r.0 == t.recipe) tech.unlocks };

    fn passes(&self, tech: &Tech) -> bool {
        unlocks(tech.unlocks.as_slice(), self.recipe)
    }
}

/// The technologies that unlock a recipe.
#[tactic(auto, unfolding(crate::specs::Goods::unlockers))]
pub fn techs_unlocking(
    alloc: Global,
    game: &Game,
    index: &Index,
    number: u32,
) -> Result<Vec<NodeId>, NoMemory>
    requires sound { IsSound game.now }
    requires index { IsIndex game.now index.now }
    requires number { number < length game.now.recipes }
    ensures { IfOk result (λ nodes. nodes.items ≡ unlockers game.now number) }
{
    let lists = index.unlockers.as_slice();
    let first = first_tech(game);
    let test = Unlock { recipe: number };
    those_at(
        alloc,
        index.exact,
        lists,
        number,
        first,
        game.techs.as_slice(),
        &test,
    )
}
