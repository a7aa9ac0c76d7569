//! The ranks before the last change of marks, so that taking it back, or doing it again, takes no repair.
//!
//! Which ranks are remembered is a guess. What is put in their place was right under the same marks, rows and milestones.
ghost use Rattle.std.specs.Prelude.{◌≡◌, ◌<◌, None, false, true, All, List, IfOk, IfSome, length, slice_index_or, slice_set};
ghost use Rattle.std.specs.Bool.{OnTrue};
ghost use Rattle.graph_store.specs.declared.Row.{Row};
ghost use Rattle.milestone_masks.specs.Worlds.{milestones_of, AreWorlds};
ghost use Rattle.planning_state.specs.Remembered.{AreMarksBut, AreMarksOf, AreRight, Remembers};

use data_edit::Book;
use milestone_masks::Worlds;
use plan_base::{NoMemory, NodeId};
use std::alloc::Global;
use std::mem::swap;

/// Which nodes are barred and which are granted.
#[derive(Drop)]
pub struct Marks {
    pub barred: Vec<bool>,
    pub granted: Vec<bool>,
}

/// The ranks of all worlds under marks that a book had.
#[derive(Drop)]
pub struct Before {
    pub marks: Marks,
    pub worlds: Worlds,
}

/// The marks of the book as it is, the ranks before its last change, and how many steps repairs took that no copy was made for.
/// Each of the two is left out where memory could not be had.
#[derive(Drop)]
pub struct Remembered {
    pub marks: Option<Marks>,
    pub before: Option<Before>,
    pub spare: u64,
}

// The most nodes that a copy of ranks has in its blocks: 32 megabytes.
const NODE_LIMIT: u64 = 524_288;

// A list of marks again.
fn copy_list(alloc: Global, marks: &[bool]) -> Result<Vec<bool>, NoMemory>
    ensures { IfOk result (λ copy. copy.items ≡ marks.now) }
{
    let mut copy = Vec::new(alloc);
    copy.extend_from_slice(marks)?;
    Ok(copy)
}

// The marks of a book.
fn marks_of(alloc: Global, book: &Book) -> Result<Marks, NoMemory>
    ensures { IfOk result (AreMarksOf book.now) }
{
    let barred = copy_list(alloc, book.barred.as_slice())?;
    let granted = copy_list(alloc, book.granted.as_slice())?;
    Ok(Marks { barred, granted })
}

// Takes the marks of a node from the book.
fn take_mark(marks: &mut Marks, book: &Book, node: NodeId)
    requires barred { node.0 < length book.now.barred }
    requires long { (length marks.old.barred.items ≡ length book.now.barred) × (length marks.old.granted.items ≡ length book.now.barred) × (length book.now.granted ≡ length book.now.barred) }
    ensures barred { marks.new.barred.items ≡ slice_set marks.old.barred.items node.0 (slice_index_or book.now.barred node.0 false) }
    ensures granted { marks.new.granted.items ≡ slice_set marks.old.granted.items node.0 (slice_index_or book.now.granted node.0 false) }
{
    let place = node.0 as usize;
    marks.barred[place] = book.barred.as_slice()[place];
    marks.granted[place] = book.granted.as_slice()[place];
}

// Takes the marks of the nodes from the book, where those of the others are the book's.
fn take_marks(marks: &mut Marks, book: &Book, nodes: &[NodeId])
    requires marks { AreMarksBut nodes.now book.now marks.old }
    requires nodes { All (λ n. n.0 < length book.now.barred) nodes.now }
    ensures { AreMarksOf book.now marks.new }
{
    for node in nodes {
        take_mark(marks, book, *node);
    }
}

// The same ranks again, beside the same marks.
fn copied(alloc: Global, marks: &Marks, worlds: &Worlds) -> Result<Before, NoMemory>
    ensures { (rows : List Row) → AreRight rows marks.now worlds.now → IfOk result (λ before. AreRight rows before.marks before.worlds) }
{
    let barred = copy_list(alloc, &marks.barred)?;
    let granted = copy_list(alloc, &marks.granted)?;
    let worlds = worlds.copy(alloc)?;
    let marks = Marks { barred, granted };
    Ok(Before { marks, worlds })
}

// How many steps of repairs a copy costs; none where it would be too large.
fn cost_of(marks: &Marks, worlds: &Worlds) -> Option<u64> {
    let blocks = (u64::from(worlds.count()) + 31) / 16;
    let nodes = (marks.barred.len() as u64).saturating_mul(blocks);
    if nodes > NODE_LIMIT {
        None
    } else {
        Some(nodes / 8)
    }
}

// Whether a list has a mark at a node.
fn is_marked(marks: &[bool], node: NodeId) -> bool {
    let place = node.0 as usize;
    place < marks.len() && marks[place]
}

// Whether both lists have the same marks at these nodes.
fn are_alike(left: &[bool], right: &[bool], nodes: &[NodeId]) -> bool {
    for node in nodes {
        if is_marked(left, *node) != is_marked(right, *node) {
            return false;
        }
    }
    true
}

// Whether both lists have the same marks.
fn are_same(left: &[bool], right: &[bool]) -> bool
    ensures { OnTrue result (left.now ≡ right.now) }
{
    if left.len() != right.len() {
        return false;
    }
    for n in 0..left.len() {
        if left[n] != right[n] {
            return false;
        }
    }
    true
}

// Whether the marks are those of the book. They are looked at first at the nodes that were changed.
fn has_marks(marks: &Marks, book: &Book, nodes: &[NodeId]) -> bool
    ensures { OnTrue result (AreMarksOf book.now marks.now) }
{
    let barred = &marks.barred[..];
    let granted = &marks.granted[..];
    if !are_alike(barred, book.barred.as_slice(), nodes)
        || !are_alike(granted, book.granted.as_slice(), nodes)
    {
        return false;
    }
    are_same(barred, book.barred.as_slice()) && are_same(granted, book.granted.as_slice())
}

// Exchanges the ranks before with those as they are, where both are of the same milestones and the former are under the book's marks.
fn exchange(
    marks: &mut Marks,
    before: &mut Before,
    book: &Book,
    worlds: &mut Worlds,
    nodes: &[NodeId],
) -> bool
    ensures right { (rows : List Row) → AreRight rows before.old.marks before.old.worlds → result ≡ true → AreRight rows marks.new worlds.new }
    ensures before { (rows : List Row) → AreRight rows before.old.marks before.old.worlds → AreRight rows marks.old worlds.old → AreRight rows before.new.marks before.new.worlds }
    ensures marks { OnTrue result (AreMarksOf book.now marks.new) }
    ensures milestones { milestones_of worlds.new ≡ milestones_of worlds.old }
    ensures not { result ≡ false → (marks.new ≡ marks.old) × (worlds.new ≡ worlds.old) }
{
    if !has_marks(&before.marks, book, nodes) || !before.worlds.has_milestones_of(worlds) {
        return false;
    }
    swap(marks, &mut before.marks);
    swap(worlds, &mut before.worlds);
    true
}

impl Remembered {
    /// Nothing.
    pub fn none() -> Remembered
        ensures marks { result.marks ≡ None }
        ensures before { result.before ≡ None }
    {
        Remembered {
            marks: None,
            before: None,
            spare: 0,
        }
    }

    /// Puts the ranks before the last change in the place of those of the worlds, and remembers these, where the book has the same
    /// marks and milestones again. Answers whether it did.
    pub fn recall(&mut self, book: &Book, worlds: &mut Worlds, nodes: &[NodeId]) -> bool
        ensures right { (rows : List Row) → IfSome self.old.before (λ b. AreRight rows b.marks b.worlds) → result ≡ true → AreWorlds rows book.now.barred book.now.granted worlds.new }
        ensures remembers { (rows : List Row) → IfSome self.old.marks (λ m. AreRight rows m worlds.old) → IfSome self.old.before (λ b. AreRight rows b.marks b.worlds) → result ≡ true → Remembers book.now rows self.new }
        ensures milestones { milestones_of worlds.new ≡ milestones_of worlds.old }
        ensures not { result ≡ false → worlds.new ≡ worlds.old }
        ensures still { (rows : List Row) → IfSome self.old.marks (λ m. AreRight rows m worlds.old) → IfSome self.old.before (λ b. AreRight rows b.marks b.worlds) → result ≡ false → IfSome self.new.before (λ b. AreRight rows b.marks b.worlds) }
        ensures marks { result ≡ false → self.new.marks ≡ self.old.marks }
    {
        match (&mut self.marks, &mut self.before) {
            (Some(marks), Some(before)) => exchange(marks, before, book, worlds, nodes),
            _ => false,
        }
    }

    /// Remembers the ranks as they are, where repairs took as many steps as a copy costs.
    pub fn remember(&mut self, alloc: Global, worlds: &Worlds)
        ensures marks { self.new.marks ≡ self.old.marks }
        ensures before { (rows : List Row) → IfSome self.old.marks (λ m. AreRight rows m worlds.now) → IfSome self.old.before (λ b. AreRight rows b.marks b.worlds) → IfSome self.new.before (λ b. AreRight rows b.marks b.worlds) }
    {
        let Some(marks) = &self.marks else {
            return;
        };
        match cost_of(marks, worlds) {
            Some(cost) if cost <= self.spare => {
                if let Ok(before) = copied(alloc, marks, worlds) {
                    self.spare -= cost;
                    self.before = Some(before);
                }
            }
            _ => {}
        }
    }

    /// Forgets the ranks before the last change.
    pub fn forget(&mut self)
        ensures before { self.new.before ≡ None }
        ensures marks { self.new.marks ≡ self.old.marks }
    {
        self.before = None;
    }

    /// Notes the marks of the book as it is at the nodes that were changed, behind a repair of so many steps.
    pub fn note(&mut self, alloc: Global, book: &Book, nodes: &[NodeId], steps: u64)
        requires marks { IfSome self.old.marks (AreMarksBut nodes.now book.now) }
        requires nodes { All (λ n. n.0 < length book.now.barred) nodes.now }
        ensures marks { IfSome self.new.marks (AreMarksOf book.now) }
        ensures before { self.new.before ≡ self.old.before }
    {
        self.spare = self.spare.saturating_add(steps);
        if let Some(marks) = &mut self.marks {
            take_marks(marks, book, nodes);
            return;
        }
        if let Ok(marks) = marks_of(alloc, book) {
            self.marks = Some(marks);
        }
    }
}
