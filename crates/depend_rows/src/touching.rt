//! Which nodes an edit touches.
ghost use Rattle.std.specs.Prelude.{◌≡◌, ◌≢◌, ℕ, ◌<◌, ◌^◌, ◌++◌, ◌∷◌, [], All, AllPairs, List, IfOk, Ok, OnOk};
ghost use Rattle.std.specs.List.{list_any};
ghost use Rattle.plan_base.specs.Shape.{node_count};
ghost use Rattle.data_edit.specs.declared.books.Book.{Book};
ghost use Rattle.data_edit.specs.declared.edits.Edit.{Edit};
ghost use Rattle.data_edit.specs.Books.{IsSoundBook};
ghost use Rattle.plan_base.specs.declared.shape.Shape.{Shape};
ghost use Rattle.graph_store.specs.Rows.{has_node};
ghost use Rattle.data_edit.specs.Edits.{effect};
ghost use Rattle.depend_index.specs.Alike.{AlikeBut};
ghost use Rattle.depend_rows.specs.Touched.{TouchesAll, good_node_in, numbers_below, recipe_node, touched_by, touched_by_all, touched_numbers};

use data_edit::Edit;
use graph_store::named;
use plan_base::{GoodId, Kind, NoMemory, NodeId, RecipeId, Shape};
use std::alloc::Global;

fn push_recipe(nodes: &mut Vec<NodeId>, shape: &Shape, recipe: RecipeId) -> Result<(), NoMemory>
    requires { node_count shape.now < 2 ^ 32 }
    ensures { OnOk result (nodes.new.items ≡ nodes.old.items ++ recipe_node shape.now recipe) }
{
    if recipe.0 < shape.recipes {
        nodes.push(shape.node_of(Kind::Recipe, recipe.0))?;
    }
    Ok(())
}

fn push_good(nodes: &mut Vec<NodeId>, shape: &Shape, good: GoodId) -> Result<(), NoMemory>
    requires { node_count shape.now < 2 ^ 32 }
    ensures { OnOk result (nodes.new.items ≡ nodes.old.items ++ good_node_in shape.now good) }
{
    if good.0 < shape.items + shape.fluids {
        nodes.push(NodeId(3 + good.0))?;
    }
    Ok(())
}

// The node of a recipe.
fn recipe_alone(alloc: Global, shape: &Shape, recipe: RecipeId) -> Result<Vec<NodeId>, NoMemory>
    requires { node_count shape.now < 2 ^ 32 }
    ensures { IfOk result (λ nodes. nodes.items ≡ recipe_node shape.now recipe) }
{
    let mut nodes = Vec::new(alloc);
    push_recipe(&mut nodes, shape, recipe)?;
    Ok(nodes)
}

// The node of a recipe, and then that of a good.
fn recipe_and_good(
    alloc: Global,
    shape: &Shape,
    recipe: RecipeId,
    good: GoodId,
) -> Result<Vec<NodeId>, NoMemory>
    requires { node_count shape.now < 2 ^ 32 }
    ensures { IfOk result (λ nodes. nodes.items ≡ recipe_node shape.now recipe ++ good_node_in shape.now good) }
{
    let mut nodes = recipe_alone(alloc, shape, recipe)?;
    push_good(&mut nodes, shape, good)?;
    Ok(nodes)
}

fn one_node(alloc: Global, node: NodeId) -> Result<Vec<NodeId>, NoMemory>
    ensures { IfOk result (λ nodes. nodes.items ≡ node ∷ []) }
{
    let mut nodes = Vec::new(alloc);
    nodes.push(node)?;
    Ok(nodes)
}

/// The nodes whose row or mark an edit may change: the recipe for an edit of its ingredients, its products, what unlocks
/// it, and whether it is known from the start, followed by the good for an edit of products; the node for a mark; nothing
/// for a time. An id that names nothing has no node.
///
/// # Errors
///
/// `NoMemory` where memory could not be had.
pub fn touched(alloc: Global, edit: &Edit, shape: &Shape) -> Result<Vec<NodeId>, NoMemory>
    requires { node_count shape.now < 2 ^ 32 }
    ensures { IfOk result (λ nodes. nodes.items ≡ touched_by shape.now edit.now) }
{
    match edit {
        Edit::SetIngredient { recipe, .. } => recipe_alone(alloc, shape, *recipe),
        Edit::DropIngredient { recipe, .. } => recipe_alone(alloc, shape, *recipe),
        Edit::SetProduct { recipe, good, .. } => recipe_and_good(alloc, shape, *recipe, *good),
        Edit::DropProduct { recipe, good } => recipe_and_good(alloc, shape, *recipe, *good),
        Edit::SetUnlock { recipe, .. } => recipe_alone(alloc, shape, *recipe),
        Edit::SetTime { .. } => Ok(Vec::new(alloc)),
        Edit::SetEnabled { recipe, .. } => recipe_alone(alloc, shape, *recipe),
        Edit::Forbid(node) => one_node(alloc, *node),
        Edit::Permit(node) => one_node(alloc, *node),
        Edit::Grant(node) => one_node(alloc, *node),
        Edit::Revoke(node) => one_node(alloc, *node),
    }
}

// Appends the numbers of these nodes, of those that are nodes at all.
fn push_numbers(numbers: &mut Vec<u32>, count: u32, nodes: &[NodeId]) -> Result<(), NoMemory>
    requires { All (λ k. k < count) numbers.old.items }
    ensures numbers { OnOk result (numbers.new.items ≡ numbers.old.items ++ numbers_below count nodes.now) }
    ensures below { OnOk result (All (λ k. k < count) numbers.new.items) }
{
    for node in nodes {
        if node.0 < count {
            numbers.push(node.0)?;
        }
    }
    Ok(())
}

// The numbers of the nodes that edits touch, one edit after another.
fn touched_numbers(alloc: Global, edits: &[Edit], shape: &Shape) -> Result<Vec<u32>, NoMemory>
    requires { node_count shape.now < 2 ^ 32 }
    ensures numbers { IfOk result (λ numbers. numbers.items ≡ touched_numbers shape.now edits.now) }
    ensures below { IfOk result (λ numbers. All (λ k. k < node_count shape.now) numbers.items) }
{
    let count = shape.len();
    let mut numbers = Vec::new(alloc);
    for edit in edits {
        let nodes = touched(alloc, edit, shape)?;
        push_numbers(&mut numbers, count, nodes.as_slice())?;
    }
    Ok(numbers)
}

/// The nodes that any of these edits touches, in node order and each once.
///
/// # Errors
///
/// `NoMemory` where memory could not be had.
#[tactic(auto, unfolding(crate::specs::Touched::touched_by_all))]
pub fn touched_all(alloc: Global, edits: &[Edit], shape: &Shape) -> Result<Vec<NodeId>, NoMemory>
    requires { node_count shape.now < 2 ^ 32 }
    ensures { IfOk result (λ nodes. nodes.items ≡ touched_by_all shape.now edits.now) }
{
    let numbers = touched_numbers(alloc, edits, shape)?;
    named(alloc, 0, shape.len(), numbers)
}

/// What edits touch in all are nodes, each once: those that one of the edits touches.
pub fn touched_nodes_are_of_the_edits()
    ensures touched { (shape : Shape) (edits : List Edit) (n : ℕ) → n < node_count shape → has_node (touched_by_all shape edits) n ≡ list_any (λ edit. has_node (touched_by shape edit) n) edits }
    ensures nodes { (shape : Shape) (edits : List Edit) → All (λ n. n.0 < node_count shape) (touched_by_all shape edits) }
    ensures once { (shape : Shape) (edits : List Edit) → AllPairs (λ m n. m.0 ≢ n.0) (touched_by_all shape edits) }
{}

/// An accepted edit of a sound book leaves the row and the marks of each node that it doesn't touch as they were.
pub fn edits_touch_no_others()
    ensures { (edit : Edit) (book : Book) → IsSoundBook book → TouchesAll edit book }
{}

/// An accepted edit leaves all of a game but what it names.
pub fn edits_leave_the_rest()
    ensures { (edit : Edit) (book new : Book) → effect edit book ≡ Ok new → AlikeBut (edit ∷ []) book.game new.game }
{}
