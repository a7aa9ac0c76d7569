//! The nodes that rows are put together from, made once in time in proportion to the game.
ghost use Rattle.std.specs.Prelude.{◌≡◌, ◌+◌, ◌==◌, IfOk, false, length, true};
ghost use Rattle.std.specs.List.{list_any};
ghost use Rattle.game_types.specs.Making.{gives};
ghost use Rattle.game_types.specs.Sound.{IsSound};
ghost use Rattle.graph_store.specs.Members.{those};
ghost use Rattle.depend_index.specs.Goods.{first_machine, first_recipe, first_source, first_tech, good_count, leavers, putters, variants};
ghost use Rattle.depend_index.specs.Machines.{burning_fluids, placers};
ghost use Rattle.depend_index.specs.Kinds.{crafts_all_of, crafts_alone, is_drill_of, is_fuel_of, is_lab, takes};
ghost use Rattle.graph_store.specs.Lists.{AreAllLists, AreLists, HoldThose};
ghost use Rattle.depend_index.specs.Marks.{AreMarks};
ghost use Rattle.graph_store.specs.Words.{AreWords};
ghost use Rattle.depend_index.specs.Coolest.{AreSorted};

use crate::kinds::{all_labs, burning_fluids};
use crate::listed::{
    coolest_variants, crafters, drills, fixed, fuels, leavers, placers, putters, recipe_makers,
    source_makers, takers, unlockers, variants, words_of_takers,
};
use crate::marks::marks_of;
use crate::places::{first_machine, first_recipe, first_source, first_tech, good_count};
use game_types::Game;
use plan_base::{NoMemory, NodeId};
use std::alloc::Global;

/// The nodes that rows are put together from.
#[derive(Drop)]
pub struct Index {
    /// For each good, the items that leave it when they are burnt.
    pub leavers: Vec<Vec<NodeId>>,
    /// For each good, its variants.
    pub variants: Vec<Vec<NodeId>>,
    /// For each good, its variants, the coolest first.
    pub coolest_variants: Vec<Vec<NodeId>>,
    /// For each good, the recipes that give it, and perhaps others.
    pub recipe_makers: Vec<Vec<NodeId>>,
    /// For each good, the sources that give it.
    pub source_makers: Vec<Vec<NodeId>>,
    /// For each good, the machines that put it out.
    pub putters: Vec<Vec<NodeId>>,
    /// For each recipe, the technologies that unlock it, and perhaps others.
    pub unlockers: Vec<Vec<NodeId>>,
    /// Whether there are none of these others.
    pub exact: bool,
    /// For each machine, the items that are placed as it.
    pub placers: Vec<Vec<NodeId>>,
    /// For each category, the machines that craft all its recipes.
    pub crafters: Vec<Vec<NodeId>>,
    /// For each recipe, the machines that craft it alone.
    pub fixed: Vec<Vec<NodeId>>,
    /// For each category, its drills.
    pub drills: Vec<Vec<NodeId>>,
    /// For each category, its drills that take a fluid.
    pub boxed_drills: Vec<Vec<NodeId>>,
    /// For each category, its fuels that have any energy.
    pub fuels: Vec<Vec<NodeId>>,
    /// The fluids that burn.
    pub burning: Vec<NodeId>,
    /// The labs.
    pub labs: Vec<NodeId>,
    /// For each item, the labs that take it.
    pub takers: Vec<Vec<NodeId>>,
    /// For each item, those labs as bits, from the first machine on, where they are many.
    pub taker_words: Vec<Vec<u64>>,
    /// For each category, whether the character crafts its recipes.
    pub crafting: Vec<bool>,
    /// For each category, whether the character mines its sources.
    pub mining: Vec<bool>,
}

// ---- the lists together

// The lists of goods.
#[derive(Drop)]
struct OfGoods {
    leavers: Vec<Vec<NodeId>>,
    variants: Vec<Vec<NodeId>>,
    coolest_variants: Vec<Vec<NodeId>>,
    source_makers: Vec<Vec<NodeId>>,
    putters: Vec<Vec<NodeId>>,
}

fn of_goods(alloc: Global, game: &Game) -> Result<OfGoods, NoMemory>
    requires { IsSound game.now }
    ensures leavers { IfOk result (λ made. AreLists (leavers game.now) (good_count game.now) made.leavers.items) }
    ensures variants { IfOk result (λ made. AreLists (variants game.now) (good_count game.now) made.variants.items) }
    ensures coolest_variants { IfOk result (λ made. AreSorted game.now.fluids (3 + length game.now.items) made.variants.items made.coolest_variants.items) }
    ensures source_makers { IfOk result (λ made. AreLists (λ good. those (λ source. gives source.products good) (first_source game.now) game.now.sources) (good_count game.now) made.source_makers.items) }
    ensures putters { IfOk result (λ made. AreLists (putters game.now) (good_count game.now) made.putters.items) }
{
    let leavers = leavers(alloc, game)?;
    let variants = variants(alloc, game)?;
    let coolest_variants = coolest_variants(alloc, game, variants.as_slice())?;
    let source_makers = source_makers(alloc, game)?;
    let putters = putters(alloc, game)?;
    Ok(OfGoods {
        leavers,
        variants,
        coolest_variants,
        source_makers,
        putters,
    })
}

// The lists of what edits change, and of recipes and machines.
#[derive(Drop)]
struct OfRecipes {
    recipe_makers: Vec<Vec<NodeId>>,
    unlockers: Vec<Vec<NodeId>>,
    placers: Vec<Vec<NodeId>>,
    fixed: Vec<Vec<NodeId>>,
}

fn of_recipes(alloc: Global, game: &Game) -> Result<OfRecipes, NoMemory>
    requires { IsSound game.now }
    ensures recipe_makers { IfOk result (λ made. HoldThose true (λ recipe good. gives recipe.products good) (first_recipe game.now) game.now.recipes (good_count game.now) made.recipe_makers.items) }
    ensures unlockers { IfOk result (λ made. HoldThose true (λ tech number. list_any (λ r. r.0 == number) tech.unlocks) (first_tech game.now) game.now.techs (length game.now.recipes) made.unlockers.items) }
    ensures placers { IfOk result (λ made. AreLists (placers game.now) (length game.now.machines) made.placers.items) }
    ensures fixed { IfOk result (λ made. AreLists (λ number. those (λ machine. crafts_alone game.now.recipes machine.kind number) (first_machine game.now) game.now.machines) (length game.now.recipes) made.fixed.items) }
{
    let recipe_makers = recipe_makers(alloc, game)?;
    let unlockers = unlockers(alloc, game)?;
    let placers = placers(alloc, game)?;
    let fixed = fixed(alloc, game)?;
    Ok(OfRecipes {
        recipe_makers,
        unlockers,
        placers,
        fixed,
    })
}

// The lists of categories.
#[derive(Drop)]
struct OfCategories {
    crafters: Vec<Vec<NodeId>>,
    drills: Vec<Vec<NodeId>>,
    boxed_drills: Vec<Vec<NodeId>>,
    fuels: Vec<Vec<NodeId>>,
}

fn of_categories(alloc: Global, game: &Game) -> Result<OfCategories, NoMemory>
    requires { IsSound game.now }
    ensures crafters { IfOk result (λ made. AreAllLists (λ category. those (λ machine. crafts_all_of machine.kind category) (first_machine game.now) game.now.machines) made.crafters.items) }
    ensures drills { IfOk result (λ made. AreAllLists (λ category. those (λ machine. is_drill_of false machine.kind category) (first_machine game.now) game.now.machines) made.drills.items) }
    ensures boxed_drills { IfOk result (λ made. AreAllLists (λ category. those (λ machine. is_drill_of true machine.kind category) (first_machine game.now) game.now.machines) made.boxed_drills.items) }
    ensures fuels { IfOk result (λ made. AreAllLists (λ category. those (λ item. is_fuel_of item.fuel category) 3 game.now.items) made.fuels.items) }
{
    let crafters = crafters(alloc, game)?;
    let drills_of_all = drills(alloc, game, false)?;
    let boxed_drills = drills(alloc, game, true)?;
    let fuels = fuels(alloc, game)?;
    Ok(OfCategories {
        crafters,
        drills: drills_of_all,
        boxed_drills,
        fuels,
    })
}

// The fluids that burn, and the lists of labs.
#[derive(Drop)]
struct OfLabs {
    burning: Vec<NodeId>,
    labs: Vec<NodeId>,
    takers: Vec<Vec<NodeId>>,
    taker_words: Vec<Vec<u64>>,
}

fn of_labs(alloc: Global, game: &Game) -> Result<OfLabs, NoMemory>
    requires { IsSound game.now }
    ensures burning { IfOk result (λ made. made.burning.items ≡ burning_fluids game.now) }
    ensures labs { IfOk result (λ made. made.labs.items ≡ those (λ machine. is_lab machine.kind) (first_machine game.now) game.now.machines) }
    ensures takers { IfOk result (λ made. AreLists (λ good. those (λ machine. takes machine.kind good) (first_machine game.now) game.now.machines) (length game.now.items) made.takers.items) }
    ensures taker_words { IfOk result (λ made. AreWords (first_machine game.now) made.takers.items made.taker_words.items) }
{
    let burning = burning_fluids(alloc, game)?;
    let labs = all_labs(alloc, game)?;
    let takers = takers(alloc, game)?;
    let taker_words = words_of_takers(alloc, game, takers.as_slice())?;
    Ok(OfLabs {
        burning,
        labs,
        takers,
        taker_words,
    })
}

// What the character crafts and mines.
#[derive(Drop)]
struct OfCharacter {
    crafting: Vec<bool>,
    mining: Vec<bool>,
}

fn of_character(alloc: Global, game: &Game) -> Result<OfCharacter, NoMemory>
    requires { IsSound game.now }
    ensures crafting { IfOk result (λ made. AreMarks game.now.character.crafting made.crafting.items) }
    ensures mining { IfOk result (λ made. AreMarks game.now.character.mining made.mining.items) }
{
    let categories = game.categories.len();
    let crafting = marks_of(alloc, categories, game.character.crafting.as_slice())?;
    let mining = marks_of(alloc, categories, game.character.mining.as_slice())?;
    Ok(OfCharacter { crafting, mining })
}

impl Index {
    ghost use Rattle.depend_index.specs.Indexed.{IsIndex};

    /// The index of a game.
    ///
    /// # Errors
    ///
    /// `NoMemory` where memory could not be had.
    pub fn make(alloc: Global, game: &Game) -> Result<Index, NoMemory>
        requires { IsSound game.now }
        ensures { IfOk result (IsIndex game.now) }
    {
        let of_goods = of_goods(alloc, game)?;
        let of_recipes = of_recipes(alloc, game)?;
        let of_categories = of_categories(alloc, game)?;
        let of_labs = of_labs(alloc, game)?;
        let of_character = of_character(alloc, game)?;
        Ok(Index {
            leavers: of_goods.leavers,
            variants: of_goods.variants,
            coolest_variants: of_goods.coolest_variants,
            recipe_makers: of_recipes.recipe_makers,
            source_makers: of_goods.source_makers,
            putters: of_goods.putters,
            unlockers: of_recipes.unlockers,
            exact: true,
            placers: of_recipes.placers,
            crafters: of_categories.crafters,
            fixed: of_recipes.fixed,
            drills: of_categories.drills,
            boxed_drills: of_categories.boxed_drills,
            fuels: of_categories.fuels,
            burning: of_labs.burning,
            labs: of_labs.labs,
            takers: of_labs.takers,
            taker_words: of_labs.taker_words,
            crafting: of_character.crafting,
            mining: of_character.mining,
        })
    }
}
