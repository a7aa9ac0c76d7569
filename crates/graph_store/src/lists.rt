//! Lists of nodes by number, made in one pass over the things that are about the numbers.
ghost use Rattle.std.specs.Prelude.{◌≡◌, ℕ, ◌+◌, ◌++◌, ◌^◌, ◌<◌, ◌≤◌, false, ◌==◌, ◌∷◌, [], Bool, IfOk, OnOk, if◌then◌else◌, length, replicate, slice_index_or, slice_set};
ghost use Rattle.std.specs.List.{list_any};
ghost use Rattle.std.specs.List.Sorted.{IsStrictlyIncreasing};
ghost use Rattle.graph_store.specs.Members.{those};
ghost use Rattle.graph_store.specs.Lists.{contents, is_among, list_at, AreAllLists, AreLists, Extends};

use plan_base::{NoMemory, NodeId};
use std::alloc::Global;

/// What numbers things are about.
pub trait Keys<T> {
    /// Whether a thing is about a number.
    ghost about: { Self → T → ℕ → Bool };

    /// The numbers that a thing is about, in any order.
    fn keys(&self, alloc: Global, thing: &T) -> Result<Vec<u32>, NoMemory>
        ensures { IfOk result (λ keys. (k : ℕ) → is_among keys.items k ≡ about self.now thing.now k) };
}

/// The numbers in order, each once.
pub fn distinct(numbers: Vec<u32>) -> Vec<u32>
    ensures rises { IsStrictlyIncreasing result.items }
    ensures same { (k : ℕ) → is_among result.items k ≡ is_among numbers.items k }
{
    let mut sorted = numbers;
    sorted.sort_unstable();
    sorted.dedup();
    sorted
}

fn push_at(lists: &mut [Vec<NodeId>], place: usize, node: NodeId) -> Result<(), NoMemory>
    requires { place < length lists.old }
    ensures { OnOk result (contents lists.new ≡ slice_set (contents lists.old) place (slice_index_or (contents lists.old) place [] ++ node ∷ [])) }
{
    lists[place].push(node)?;
    Ok(())
}

// Puts a node at the end of the lists of these numbers, of those that have one.
fn push_to_each(lists: &mut [Vec<NodeId>], numbers: &[u32], node: NodeId) -> Result<(), NoMemory>
    requires { IsStrictlyIncreasing numbers.now }
    ensures { OnOk result (Extends (λ k. if is_among numbers.now k then node ∷ [] else []) lists.old lists.new) }
{
    for number in numbers {
        let place = *number as usize;
        if place < lists.len() {
            push_at(lists, place, node)?;
        }
    }
    Ok(())
}

/// Puts the nodes of things, numbered from the first on, at the end of the lists of the numbers that they are about.
pub fn extend_lists<T, K: Keys<T>>(
    alloc: Global,
    lists: &mut [Vec<NodeId>],
    first: u32,
    things: &[T],
    keys: &K,
) -> Result<(), NoMemory>
    requires { first + length things.now < 2 ^ 32 }
    ensures { OnOk result (Extends (λ k. those (λ thing. K.about keys.now thing k) first things.now) lists.old lists.new) }
{
    let mut node = first;
    for thing in things {
        let numbers = distinct(keys.keys(alloc, thing)?);
        push_to_each(lists, numbers.as_slice(), NodeId(node))?;
        node += 1;
    }
    Ok(())
}

/// So many empty lists.
pub fn empty_lists(alloc: Global, count: usize) -> Result<Vec<Vec<NodeId>>, NoMemory>
    ensures { IfOk result (λ lists. AreLists (λ _. []) count lists.items) }
{
    let mut lists = Vec::new(alloc);
    for number in 0..count {
        let _place = number;
        lists.push(Vec::new(alloc))?;
    }
    Ok(lists)
}

/// The lists of so many numbers, with the nodes of the things that are about them.
pub fn lists_of<T, K: Keys<T>>(
    alloc: Global,
    count: usize,
    first: u32,
    things: &[T],
    keys: &K,
) -> Result<Vec<Vec<NodeId>>, NoMemory>
    requires { first + length things.now < 2 ^ 32 }
    ensures { IfOk result (λ lists. AreLists (λ k. those (λ thing. K.about keys.now thing k) first things.now) count lists.items) }
{
    let mut lists = empty_lists(alloc, count)?;
    extend_lists(alloc, lists.as_mut_slice(), first, things, keys)?;
    Ok(lists)
}

fn greater(end: usize, other: usize) -> usize
    ensures end { end ≤ result }
    ensures other { other ≤ result }
{
    if end < other { other } else { end }
}

// What all of these numbers are below.
fn end_of(numbers: &[u32]) -> usize
    ensures { (k : ℕ) → result ≤ k → is_among numbers.now k ≡ false }
{
    let mut end = 0;
    for number in numbers {
        end = greater(end, *number as usize + 1);
    }
    end
}

// What all numbers that things are about are below.
fn end_of_keys<T, K: Keys<T>>(alloc: Global, things: &[T], keys: &K) -> Result<usize, NoMemory>
    ensures { IfOk result (λ end. (k : ℕ) → end ≤ k → list_any (λ thing. K.about keys.now thing k) things.now ≡ false) }
{
    let mut end = 0;
    for thing in things {
        let numbers = keys.keys(alloc, thing)?;
        end = greater(end, end_of(numbers.as_slice()));
    }
    Ok(end)
}

/// The lists of all numbers that things are about, with their nodes.
pub fn all_lists_of<T, K: Keys<T>>(
    alloc: Global,
    first: u32,
    things: &[T],
    keys: &K,
) -> Result<Vec<Vec<NodeId>>, NoMemory>
    requires { first + length things.now < 2 ^ 32 }
    ensures { IfOk result (λ lists. AreAllLists (λ k. those (λ thing. K.about keys.now thing k) first things.now) lists.items) }
{
    let end = end_of_keys(alloc, things, keys)?;
    let lists = lists_of(alloc, end, first, things, keys)?;
    Ok(lists)
}

/// The list of a number, which is empty where there is none.
pub fn list_of(lists: &[Vec<NodeId>], number: u32) -> &[NodeId]
    ensures { result.now ≡ list_at lists.now number }
{
    match lists.get(number as usize) {
        Some(list) => list.as_slice(),
        None => &[],
    }
}

/// A copy of the list of a number.
pub fn list_at(alloc: Global, lists: &[Vec<NodeId>], number: u32) -> Result<Vec<NodeId>, NoMemory>
    ensures { IfOk result (λ nodes. nodes.items ≡ list_at lists.now number) }
{
    Ok(Vec::from_slice(alloc, list_of(lists, number))?)
}
