//! Rows with all their numbers in one list as well, which comes from memory at once.
ghost use Rattle.std.specs.Prelude.{◌≡◌, ◌++◌, ◌∷◌, true, List, IfOk, OnOk, length};
ghost use Rattle.graph_store.specs.declared.Group.{Group};
ghost use Rattle.graph_store.specs.declared.Row.{Row};
ghost use Rattle.graph_store.specs.Packed.{head_of, pack_group, packed_groups, packed_row, IsFirstGroup};

use crate::unions::push_numbers;
use crate::{Group, Row};
use plan_base::{NoMemory, NodeId};
use std::alloc::Global;
use std::marker::Model;

/// A row, with its numbers in one list beside it. It is seen as the row.
#[derive(Drop)]
pub struct PackedRow {
    groups: Row,
    words: Vec<u32>,
}

impl Model for PackedRow {
    ghost use Rattle.std.specs.Prelude.{◌≡◌};
    ghost use Rattle.graph_store.specs.declared.Row.{Row};

    ghost Value = { Row };

    ghost use Rattle.graph_store.specs.Packed.{packed_row};

    ghost view = { λ p. p.groups };

    ghost invariant = { λ p. p.words.items ≡ packed_row p.groups };
}

impl PackedRow {
    /// Packs a row.
    ///
    /// # Errors
    ///
    /// `NoMemory` where memory could not be had, or a group has so many members that a number can't say it.
    pub fn make(alloc: Global, row: Row) -> Result<PackedRow, NoMemory>
        ensures { IfOk result (λ packed. packed ≡ row) }
    {
        let words = words_of(alloc, &row)?;
        Ok(PackedRow { groups: row, words })
    }

    /// The row.
    pub fn row(&self) -> &Row
        ensures { result.now ≡ self.now }
    {
        &self.groups
    }

    /// How many groups the row has.
    pub fn group_count(&self) -> usize
        ensures { result ≡ length self.now.groups }
    {
        self.groups.groups.len()
    }

    /// Whether there are as many numbers as the first of them says, which is always so. That reads the first number, which is at hand then.
    pub fn is_at_hand(&self) -> bool
        ensures { result ≡ true }
    {
        has_first_group(self.words(), &self.groups)
    }

    /// The numbers of the row: for each group a head, then its members.
    pub fn words(&self) -> &[u32]
        ensures { result.now ≡ packed_row self.now }
    {
        self.words.as_slice()
    }
}

// The head of a group of so many members.
fn head_of(all: bool, count: usize) -> Result<u32, NoMemory>
    ensures { IfOk result (λ head. head ≡ head_of all count) }
{
    if count >= 2_147_483_648 {
        return Err(NoMemory);
    }
    let flag = if all { 1 } else { 0 };
    Ok(2 * count as u32 + flag)
}

// Puts the numbers of a group at the end.
fn push_group(words: &mut Vec<u32>, group: &Group) -> Result<(), NoMemory>
    ensures { OnOk result (words.new.items ≡ words.old.items ++ pack_group group.now) }
{
    let members = group.members.as_slice();
    let head = head_of(group.all, members.len())?;
    words.push(head)?;
    push_numbers(words, members)
}

// About how many numbers a row has.
fn size_of(row: &Row) -> usize {
    let mut size = 0usize;
    for group in row.groups.as_slice() {
        size = size.saturating_add(group.members.len()).saturating_add(1);
    }
    size
}

// The numbers of a row.
fn words_of(alloc: Global, row: &Row) -> Result<Vec<u32>, NoMemory>
    ensures { IfOk result (λ words. words.items ≡ packed_row row.now) }
{
    let mut words = Vec::with_capacity(alloc, size_of(row))?;
    for group in row.groups.as_slice() {
        push_group(&mut words, group)?;
    }
    Ok(words)
}

// Whether the numbers of a row are as many as the first of them says, as they are.
fn has_first_group(words: &[u32], row: &Row) -> bool
    requires { words.now ≡ packed_row row.now }
    ensures { result ≡ true }
{
    let _row = row;
    match words.split_first() {
        Some((head, behind)) => (*head / 2) as usize <= behind.len(),
        None => true,
    }
}

/// Rows, packed.
pub fn pack_rows(alloc: Global, rows: Vec<Row>) -> Result<Vec<PackedRow>, NoMemory>
    ensures { IfOk result (λ packed. packed.items ≡ rows.items) }
{
    let mut packed = Vec::with_capacity(alloc, rows.len())?;
    for row in rows {
        packed.push(PackedRow::make(alloc, row)?)?;
    }
    Ok(packed)
}

/// Rows for nodes, packed.
pub fn pack_changes(
    alloc: Global,
    changes: Vec<(NodeId, Row)>,
) -> Result<Vec<(NodeId, PackedRow)>, NoMemory>
    ensures { IfOk result (λ packed. packed.items ≡ changes.items) }
{
    let mut packed = Vec::with_capacity(alloc, changes.len())?;
    for change in changes {
        let (node, row) = change;
        packed.push((node, PackedRow::make(alloc, row)?))?;
    }
    Ok(packed)
}

/// Takes the first group from the numbers of groups: whether all of its members are needed, the numbers of the members, and the numbers of the
/// groups after it.
pub fn first_group(words: &[u32]) -> (bool, &[u32], &[u32])
    ensures { (group : Group) (others : List Group) → words.now ≡ packed_groups (group ∷ others)
        → IsFirstGroup group others result.0 result.1.now result.2.now }
{
    let Some((head, behind)) = words.split_first() else {
        return (true, words, words);
    };
    let count = (*head / 2) as usize;
    if count <= behind.len() {
        let (members, rest) = behind.split_at(count);
        (*head % 2 == 1, members, rest)
    } else {
        (true, behind, behind)
    }
}
