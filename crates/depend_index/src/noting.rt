//! An index kept through edits: what they may make recipes give and technologies unlock is noted in it.
ghost use Rattle.std.specs.Prelude.{◌≡◌, ℕ, ◌+◌, ◌<◌, ◌^◌, IfOk, OnOk, length, true};
ghost use Rattle.std.specs.List.{list_any};
ghost use Rattle.plan_base.specs.Shape.{first_of, node_count};
ghost use Rattle.plan_base.specs.declared.shape.Kind.TheVariants.{Recipe as RecipeKind, Tech as TechKind};
ghost use Rattle.game_types.specs.Nodes.{shape_of};
ghost use Rattle.game_types.specs.declared.games.Game.{Game};
ghost use Rattle.depend_index.specs.Alike.{AlikeBut, is_of_product, is_of_unlock};
ghost use Rattle.depend_index.specs.Indexed.{IsIndex};
ghost use Rattle.graph_store.specs.Lists.{Rise, Widen, has_node, list_at};

use crate::index::Index;
use data_edit::Edit;
use graph_store::put_node_at;
use plan_base::{GoodId, Kind, NoMemory, NodeId, RecipeId, Shape, TechId};

// Notes that a recipe may give a good. What names nothing is passed over.
fn note_maker(
    lists: &mut [Vec<NodeId>],
    shape: &Shape,
    recipe: RecipeId,
    good: GoodId,
) -> Result<(), NoMemory>
    requires few { node_count shape.now < 2 ^ 32 }
    requires rise { (k : ℕ) → k < length lists.old → Rise (list_at lists.old k) }
    ensures widen { Widen lists.old lists.new }
    ensures noted { OnOk result (recipe.0 < shape.now.recipes → good.0 < length lists.old → has_node (list_at lists.new good.0) (first_of shape.now RecipeKind + recipe.0) ≡ true) }
{
    if recipe.0 < shape.recipes && (good.0 as usize) < lists.len() {
        put_node_at(lists, good.0, shape.node_of(Kind::Recipe, recipe.0))
    } else {
        Ok(())
    }
}

// Notes that a technology may unlock a recipe. What names nothing is passed over.
fn note_unlocker(
    lists: &mut [Vec<NodeId>],
    shape: &Shape,
    tech: TechId,
    recipe: RecipeId,
) -> Result<(), NoMemory>
    requires few { node_count shape.now < 2 ^ 32 }
    requires rise { (k : ℕ) → k < length lists.old → Rise (list_at lists.old k) }
    ensures widen { Widen lists.old lists.new }
    ensures noted { OnOk result (tech.0 < shape.now.techs → recipe.0 < length lists.old → has_node (list_at lists.new recipe.0) (first_of shape.now TechKind + tech.0) ≡ true) }
{
    if tech.0 < shape.techs && (recipe.0 as usize) < lists.len() {
        put_node_at(lists, recipe.0, shape.node_of(Kind::Tech, tech.0))
    } else {
        Ok(())
    }
}

fn note_product(lists: &mut [Vec<NodeId>], shape: &Shape, edit: &Edit) -> Result<(), NoMemory>
    requires few { node_count shape.now < 2 ^ 32 }
    requires rise { (k : ℕ) → k < length lists.old → Rise (list_at lists.old k) }
    ensures widen { Widen lists.old lists.new }
    ensures noted { OnOk result ((r x : ℕ) → is_of_product r x edit.now ≡ true → r < shape.now.recipes → x < length lists.old → has_node (list_at lists.new x) (first_of shape.now RecipeKind + r) ≡ true) }
{
    match edit {
        Edit::SetProduct { recipe, good, .. } => note_maker(lists, shape, *recipe, *good),
        Edit::DropProduct { recipe, good } => note_maker(lists, shape, *recipe, *good),
        _ => Ok(()),
    }
}

fn note_unlock(lists: &mut [Vec<NodeId>], shape: &Shape, edit: &Edit) -> Result<(), NoMemory>
    requires few { node_count shape.now < 2 ^ 32 }
    requires rise { (k : ℕ) → k < length lists.old → Rise (list_at lists.old k) }
    ensures widen { Widen lists.old lists.new }
    ensures noted { OnOk result ((t r : ℕ) → is_of_unlock t r edit.now ≡ true → t < shape.now.techs → r < length lists.old → has_node (list_at lists.new r) (first_of shape.now TechKind + t) ≡ true) }
{
    match edit {
        Edit::SetUnlock { tech, recipe, .. } => note_unlocker(lists, shape, *tech, *recipe),
        _ => Ok(()),
    }
}

// Notes the products that edits name.
fn note_products(lists: &mut [Vec<NodeId>], shape: &Shape, edits: &[Edit]) -> Result<(), NoMemory>
    requires few { node_count shape.now < 2 ^ 32 }
    requires rise { (k : ℕ) → k < length lists.old → Rise (list_at lists.old k) }
    ensures widen { Widen lists.old lists.new }
    ensures noted { OnOk result ((r x : ℕ) → list_any (is_of_product r x) edits.now ≡ true → r < shape.now.recipes → x < length lists.old → has_node (list_at lists.new x) (first_of shape.now RecipeKind + r) ≡ true) }
{
    for edit in edits {
        note_product(lists, shape, edit)?;
    }
    Ok(())
}

// Notes the unlocked recipes that edits name.
fn note_unlocks(lists: &mut [Vec<NodeId>], shape: &Shape, edits: &[Edit]) -> Result<(), NoMemory>
    requires few { node_count shape.now < 2 ^ 32 }
    requires rise { (k : ℕ) → k < length lists.old → Rise (list_at lists.old k) }
    ensures widen { Widen lists.old lists.new }
    ensures noted { OnOk result ((t r : ℕ) → list_any (is_of_unlock t r) edits.now ≡ true → t < shape.now.techs → r < length lists.old → has_node (list_at lists.new r) (first_of shape.now TechKind + t) ≡ true) }
{
    for edit in edits {
        note_unlock(lists, shape, edit)?;
    }
    Ok(())
}

impl Index {
    /// Notes what edits name, so that this is also the index of a game that they lead to, or that they lead back to. It is
    /// still the index of the games that it was the index of. The time is about the length of the lists that the edits name.
    ///
    /// # Errors
    ///
    /// `NoMemory` where memory could not be had.
    pub fn note(&mut self, shape: &Shape, edits: &[Edit]) -> Result<(), NoMemory>
        requires few { node_count shape.now < 2 ^ 32 }
        requires index { (old : Game) × IsIndex old self.old × (shape_of old ≡ shape.now) }
        ensures still { (old : Game) → shape_of old ≡ shape.now → IsIndex old self.old → IsIndex old self.new }
        ensures noted { OnOk result ((old new : Game) → shape_of old ≡ shape.now → IsIndex old self.old → AlikeBut edits.now old new → IsIndex new self.new) }
    {
        self.exact = false;
        note_products(self.recipe_makers.as_mut_slice(), shape, edits)?;
        note_unlocks(self.unlockers.as_mut_slice(), shape, edits)
    }
}
