//! The rows of all nodes, and of one.
ghost use Rattle.std.specs.Prelude.{◌≡◌, ℕ, ◌+◌, ◌-◌, ◌^◌, ◌≤◌, ◌<◌, All, IfOk, MatchOption, MatchResult, length, map, min, slice_get};
ghost use Rattle.plan_base.specs.Shape.{node_count};
ghost use Rattle.game_types.specs.Nodes.{shape_of};
ghost use Rattle.game_types.specs.Sound.{IsSound, IsSoundMachine, IsSoundRecipe, IsSoundSource, IsSoundTech};
ghost use Rattle.game_types.specs.Lookups.{machine_at, recipe_at, source_at};
ghost use Rattle.data_edit.specs.Books.{IsSoundBook};
ghost use Rattle.graph_store.specs.Rows.{AreMembersBelow, HasMembersBelow, member_count, row_members};
ghost use Rattle.depend_index.specs.Indexed.{IsIndex};
ghost use Rattle.data_edit.specs.declared.books.Book.{Book};
ghost use Rattle.depend_rows.specs.Rows.{row_beside, row_of, rows_of, special_row, tech_at};

use crate::goods::good_row;
use crate::machines::{electricity_row, heat_row, machine_row};
use crate::members::row_with;
use crate::recipes::recipe_row;
use crate::sources::source_row;
use crate::techs::tech_row;
use data_edit::Book;
use depend_index::{Index, first_machine, first_recipe, first_source, first_tech};
use game_types::{Game, Machine, Recipe, Source, Tech};
use graph_store::Row;
use plan_base::{EntityId, NoMemory, NodeId, RecipeId, SourceId, Steps};
use std::alloc::Global;

/// The most members that the rows of a dump have in all.
pub const MEMBER_LIMIT: usize = 4_194_304;

/// Why there are no rows.
#[derive(Clone, Copy, Debug, PartialEq, Eq)]
pub enum RowsFault {
    /// They have more than `MEMBER_LIMIT` members in all.
    TooMany,
    /// Memory could not be had.
    NoMemory,
}

fn recipe_at(game: &Game, number: u32) -> &Recipe
    requires sound { IsSound game.now }
    requires within { number < length game.now.recipes }
    ensures value { result.now ≡ recipe_at game.now (record { 0 = number }) }
    ensures there { slice_get game.now.recipes number ≡ Some result.now }
    ensures sound { IsSoundRecipe game.now result.now }
{
    game.recipe(RecipeId(number))
}

fn source_at(game: &Game, number: u32) -> &Source
    requires sound { IsSound game.now }
    requires within { number < length game.now.sources }
    ensures value { result.now ≡ source_at game.now (record { 0 = number }) }
    ensures sound { IsSoundSource game.now result.now }
{
    game.source(SourceId(number))
}

fn machine_at(game: &Game, number: u32) -> &Machine
    requires sound { IsSound game.now }
    requires within { number < length game.now.machines }
    ensures value { result.now ≡ machine_at game.now (record { 0 = number }) }
    ensures sound { IsSoundMachine game.now result.now }
{
    game.machine(EntityId(number))
}

fn tech_at(game: &Game, number: u32) -> &Tech
    requires sound { IsSound game.now }
    requires within { number < length game.now.techs }
    ensures value { result.now ≡ tech_at game.now number }
    ensures sound { IsSoundTech game.now result.now }
{
    &game.techs.as_slice()[number as usize]
}

// The row of the character, of electricity or of heat.
fn special_row(alloc: Global, game: &Game, node: u32) -> Result<Row, NoMemory>
    requires { IsSound game.now }
    ensures { IfOk result (λ row. row ≡ special_row game.now node) }
{
    if node == 0 {
        Ok(row_with(Vec::new(alloc)))
    } else if node == 1 {
        electricity_row(alloc, game)
    } else {
        heat_row(alloc, game)
    }
}

// The row of a node.
#[tactic(auto, unfolding(crate::specs::Rows::row_of))]
fn row_at(alloc: Global, game: &Game, index: &Index, node: u32) -> Result<Row, NoMemory>
    requires sound { IsSound game.now }
    requires index { IsIndex game.now index.now }
    requires node { node < node_count (shape_of game.now) }
    ensures { IfOk result (λ row. row ≡ row_of game.now node) }
{
    let recipes = first_recipe(game);
    let sources = first_source(game);
    let machines = first_machine(game);
    let techs = first_tech(game);
    if node < 3 {
        special_row(alloc, game, node)
    } else if node < recipes {
        good_row(alloc, game, index, node - 3)
    } else if node < sources {
        let number = node - recipes;
        recipe_row(alloc, game, index, number, recipe_at(game, number))
    } else if node < machines {
        source_row(alloc, game, index, source_at(game, node - sources))
    } else if node < techs {
        let number = node - machines;
        machine_row(alloc, game, index, number, machine_at(game, number))
    } else {
        tech_row(alloc, game, index, tech_at(game, node - techs))
    }
}

// Adds the members of a row to a count, unless that passes a limit.
fn add_members(count: usize, row: &Row, limit: usize) -> Option<usize>
    requires { count ≤ limit }
    ensures { MatchOption result (limit < count + row_members row.now) (λ sum. (sum ≡ count + row_members row.now) × (sum ≤ limit)) }
{
    let groups = row.groups.as_slice();
    let mut sum = count;
    for group in groups {
        if group.members.len() > limit - sum {
            return None;
        }
        sum += group.members.len();
    }
    Some(sum)
}

// The row of every node, in order, by the index of the game, unless they have more members than a limit in all. No more memory is
// taken than for so many members and one row.
fn rows_up_to<L>(
    alloc: Global,
    book: &Book,
    index: &Index,
    limit: usize,
    steps: &mut Steps<L>,
) -> Result<Vec<Row>, RowsFault>
    requires sound { IsSoundBook book.now }
    requires index { IsIndex book.now.game index.now }
    ensures rows { MatchResult result
        (λ rows. (rows.items ≡ rows_of book.now.game) × (member_count (rows_of book.now.game) ≤ limit))
        (λ fault. fault ≡ RowsFault.TooMany → limit < member_count (rows_of book.now.game)) }
    ensures steps { IfOk result (λ _. steps.new ≡ min (steps.old + node_count (shape_of book.now.game)) (2 ^ 64 - 1)) }
    ensures later { steps.old ≤ steps.new }
{
    let nodes = book.game.shape().len();
    let mut rows = Vec::new(alloc);
    let mut members = 0;
    for node in 0..nodes {
        let Ok(row) = row_at(alloc, &book.game, index, node) else {
            return Err(RowsFault::NoMemory);
        };
        steps.tick();
        match add_members(members, &row, limit) {
            Some(sum) => members = sum,
            None => return Err(RowsFault::TooMany),
        }
        let Ok(()) = rows.push(row) else {
            return Err(RowsFault::NoMemory);
        };
    }
    Ok(rows)
}

// The same, and the index of the game.
fn rows_and_index<L>(
    alloc: Global,
    book: &Book,
    limit: usize,
    steps: &mut Steps<L>,
) -> Result<(Vec<Row>, Index), RowsFault>
    requires { IsSoundBook book.now }
    ensures rows { MatchResult result
        (λ made. (made.0.items ≡ rows_of book.now.game) × (member_count (rows_of book.now.game) ≤ limit))
        (λ fault. fault ≡ RowsFault.TooMany → limit < member_count (rows_of book.now.game)) }
    ensures index { IfOk result (λ made. IsIndex book.now.game made.1) }
    ensures graph { IfOk result (λ made. (length made.0.items ≡ node_count (shape_of book.now.game)) × AreMembersBelow (length made.0.items) made.0.items) }
    ensures steps { IfOk result (λ _. steps.new ≡ min (steps.old + node_count (shape_of book.now.game)) (2 ^ 64 - 1)) }
    ensures later { steps.old ≤ steps.new }
{
    let Ok(index) = Index::make(alloc, &book.game) else {
        return Err(RowsFault::NoMemory);
    };
    let rows = rows_up_to(alloc, book, &index, limit, steps)?;
    Ok((rows, index))
}

/// The row of every node, in order. Each row is one step.
///
/// # Errors
///
/// `NoMemory` where memory could not be had.
pub fn rows_all<L>(alloc: Global, book: &Book, steps: &mut Steps<L>) -> Result<Vec<Row>, NoMemory>
    requires { IsSoundBook book.now }
    ensures rows { IfOk result (λ rows. rows.items ≡ rows_of book.now.game) }
    ensures graph { IfOk result (λ rows. (length rows.items ≡ node_count (shape_of book.now.game)) × AreMembersBelow (length rows.items) rows.items) }
    ensures steps { IfOk result (λ _. steps.new ≡ min (steps.old + node_count (shape_of book.now.game)) (2 ^ 64 - 1)) }
    ensures later { steps.old ≤ steps.new }
{
    match rows_and_index(alloc, book, usize::MAX, steps) {
        Ok((rows, _)) => Ok(rows),
        Err(_) => Err(NoMemory),
    }
}

/// The same, where the rows have few enough members, and the index that they were put together from. No more memory is taken than for `MEMBER_LIMIT` members and one row.
///
/// # Errors
///
/// `TooMany` exactly where they have more than `MEMBER_LIMIT` members; `NoMemory` where memory could not be had.
pub fn rows_within<L>(
    alloc: Global,
    book: &Book,
    steps: &mut Steps<L>,
) -> Result<(Vec<Row>, Index), RowsFault>
    requires { IsSoundBook book.now }
    ensures rows { MatchResult result
        (λ made. (made.0.items ≡ rows_of book.now.game) × (member_count (rows_of book.now.game) ≤ 4_194_304))
        (λ fault. fault ≡ RowsFault.TooMany → 4_194_304 < member_count (rows_of book.now.game)) }
    ensures index { IfOk result (λ made. IsIndex book.now.game made.1) }
    ensures graph { IfOk result (λ made. (length made.0.items ≡ node_count (shape_of book.now.game)) × AreMembersBelow (length made.0.items) made.0.items) }
    ensures steps { IfOk result (λ _. steps.new ≡ min (steps.old + node_count (shape_of book.now.game)) (2 ^ 64 - 1)) }
    ensures later { steps.old ≤ steps.new }
{
    rows_and_index(alloc, book, MEMBER_LIMIT, steps)
}

/// The row of a node, by the index of its game. It is one step.
///
/// # Errors
///
/// `NoMemory` where memory could not be had.
pub fn row_of<L>(
    alloc: Global,
    book: &Book,
    index: &Index,
    node: NodeId,
    steps: &mut Steps<L>,
) -> Result<Row, NoMemory>
    requires sound { IsSoundBook book.now }
    requires index { IsIndex book.now.game index.now }
    requires node { node.0 < node_count (shape_of book.now.game) }
    ensures row { IfOk result (λ row. row ≡ row_of book.now.game node.0) }
    ensures members { IfOk result (HasMembersBelow (node_count (shape_of book.now.game))) }
    ensures steps { IfOk result (λ _. steps.new ≡ min (steps.old + 1) (2 ^ 64 - 1)) }
    ensures later { steps.old ≤ steps.new }
{
    let row = row_at(alloc, &book.game, index, node.0)?;
    steps.tick();
    Ok(row)
}

/// The rows of these nodes, each beside its node, by the index of their game. Each row is one step.
///
/// # Errors
///
/// `NoMemory` where memory could not be had.
pub fn rows_for<L>(
    alloc: Global,
    book: &Book,
    index: &Index,
    nodes: &[NodeId],
    steps: &mut Steps<L>,
) -> Result<Vec<(NodeId, Row)>, NoMemory>
    requires sound { IsSoundBook book.now }
    requires index { IsIndex book.now.game index.now }
    requires nodes { All (λ n. n.0 < node_count (shape_of book.now.game)) nodes.now }
    ensures rows { IfOk result (λ rows. rows.items ≡ map (row_beside book.now.game) nodes.now) }
    ensures steps { IfOk result (λ _. steps.new ≤ steps.old + length nodes.now) }
    ensures later { steps.old ≤ steps.new }
{
    let mut rows = Vec::new(alloc);
    for node in nodes {
        let row = row_at(alloc, &book.game, index, node.0)?;
        steps.tick();
        rows.push((*node, row))?;
    }
    Ok(rows)
}

/// The rows of a sound book have only nodes as members.
pub fn members_are_nodes()
    ensures { (book : Book) → IsSoundBook book → (n : ℕ) → n < node_count (shape_of book.game) → HasMembersBelow (node_count (shape_of book.game)) (row_of book.game n) }
{}
