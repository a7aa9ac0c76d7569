//! Lists of nodes as words, with a bit for each node from a first one on: what long lists have in common is found by `&`.
ghost use Rattle.std.specs.Prelude.{◌≡◌, ℕ, ◌+◌, ◌*◌, ◌/◌, ◌<◌, ◌≤◌, ◌^◌, ◌==◌, ◌||◌, ◌++◌, ◌∷◌, [], All, IfOk, OnOk, false, true, if◌then◌else◌, length, nat_lt, slice_index_or};
ghost use Rattle.std.specs.Int.{bit_at};
ghost use Rattle.std.specs.Int.Bits.{bit_and};
ghost use Rattle.std.specs.List.{list_all};
ghost use Rattle.graph_store.specs.Lists.{AreCommon, Rise, has_node, list_at};
ghost use Rattle.graph_store.specs.Words.{AreWords, IsWords, bit_in, has_bit, has_words, in_word, in_words, words_at};

use crate::common::in_all;
use plan_base::{NoMemory, NodeId};
use std::alloc::Global;

// ---- words of lists

fn set_bit(words: &mut [u64], place: u32)
    requires { place / 64 < length words.old }
    ensures bits { (p : ℕ) → bit_in words.new p ≡ ((p == place) || bit_in words.old p) }
    ensures length { length words.new ≡ length words.old }
{
    let word = (place / 64) as usize;
    let old = words[word];
    words[word] = old | 1 << (place % 64);
}

// Sets the bits of nodes in words that are clear, and answers whether all of them have one.
fn set_bits(words: &mut [u64], first: u32, nodes: &[NodeId]) -> bool
    requires { (p : ℕ) → bit_in words.old p ≡ false }
    ensures words { result ≡ true → IsWords first nodes.now words.new }
    ensures length { length words.new ≡ length words.old }
{
    for node in nodes {
        if node.0 < first {
            return false;
        }
        let place = node.0 - first;
        if (place / 64) as usize >= words.len() {
            return false;
        }
        set_bit(words, place);
    }
    true
}

// So many words with the bits of nodes; none where some node has no bit there.
fn words_with(
    alloc: Global,
    count: usize,
    first: u32,
    nodes: &[NodeId],
) -> Result<Vec<u64>, NoMemory>
    ensures words { IfOk result (λ words. 0 < length words.items → IsWords first nodes.now words.items) }
    ensures few { IfOk result (λ words. length words.items ≤ count) }
{
    let mut words = vec![in alloc; 0u64; count]?;
    if set_bits(words.as_mut_slice(), first, nodes) {
        Ok(words)
    } else {
        Ok(Vec::new(alloc))
    }
}

// The words of a list that has as many nodes as there are words, and none of a shorter one.
fn words_of(alloc: Global, count: usize, first: u32, nodes: &[NodeId]) -> Result<Vec<u64>, NoMemory>
    ensures words { IfOk result (λ words. 0 < length words.items → IsWords first nodes.now words.items) }
    ensures few { IfOk result (λ words. length words.items ≤ count) }
{
    if nodes.len() < count {
        Ok(Vec::new(alloc))
    } else {
        words_with(alloc, count, first, nodes)
    }
}

/// The words of those lists that have as many nodes as there are words, so that they take no more memory than twice the
/// lists.
pub fn words_of_all(
    alloc: Global,
    count: usize,
    first: u32,
    lists: &[Vec<NodeId>],
) -> Result<Vec<Vec<u64>>, NoMemory>
    requires { first + 64 * count ≤ 2 ^ 32 }
    ensures { IfOk result (λ words. AreWords first lists.now words.items) }
{
    let mut all = Vec::new(alloc);
    for list in lists {
        let words = words_of(alloc, count, first, list.as_slice())?;
        all.push(words)?;
    }
    Ok(all)
}

// ---- nodes of words

fn is_set(word: u64, bit: u32) -> bool
    requires { bit < 64 }
    ensures { result ≡ (bit_at word bit == 1) }
{
    (word >> bit) & 1 == 1
}

// Appends a node, where it is wanted.
fn push_where(nodes: &mut Vec<NodeId>, wanted: bool, node: NodeId) -> Result<(), NoMemory>
    ensures { OnOk result (nodes.new.items ≡ (if wanted then nodes.old.items ++ node ∷ [] else nodes.old.items)) }
{
    if wanted {
        nodes.push(node)?;
    }
    Ok(())
}

// Appends the nodes of the bits of a word, of which the lowest is that of a first one.
fn push_bits(nodes: &mut Vec<NodeId>, first: u32, word: u64) -> Result<(), NoMemory>
    requires { first + 64 ≤ 2 ^ 32 }
    ensures { OnOk result (nodes.new.items ≡ nodes.old.items ++ in_word first word) }
{
    for bit in 0..64u32 {
        push_where(nodes, is_set(word, bit), NodeId(first + bit))?;
    }
    Ok(())
}

// The same. A word with no bit takes no time.
fn push_word(nodes: &mut Vec<NodeId>, first: u32, word: u64) -> Result<(), NoMemory>
    requires { first + 64 ≤ 2 ^ 32 }
    ensures { OnOk result (nodes.new.items ≡ nodes.old.items ++ in_word first word) }
{
    if word == 0 {
        return Ok(());
    }
    push_bits(nodes, first, word)
}

// The nodes of the bits of words.
fn nodes_of(alloc: Global, first: u32, words: &[u64]) -> Result<Vec<NodeId>, NoMemory>
    requires { first + 64 * length words.now ≤ 2 ^ 32 }
    ensures { IfOk result (λ nodes. nodes.items ≡ in_words first words.now) }
{
    let mut nodes = Vec::new(alloc);
    for place in 0..words.len() {
        let word = words[place];
        push_word(&mut nodes, first + 64 * place as u32, word)?;
    }
    Ok(nodes)
}

// ---- what lists have in common

fn word_at(words: &[u64], place: usize) -> u64
    ensures { result ≡ slice_index_or words.now place 0 }
{
    match words.get(place) {
        Some(word) => *word,
        None => 0,
    }
}

fn common(alloc: Global, words: &[u64], others: &[u64]) -> Result<Vec<u64>, NoMemory>
    ensures bits { IfOk result (λ kept. (w : ℕ) → slice_index_or kept.items w 0 ≡ bit_and (slice_index_or words.now w 0) (slice_index_or others.now w 0)) }
    ensures length { IfOk result (λ kept. length kept.items ≡ length words.now) }
{
    let mut kept = Vec::new(alloc);
    for place in 0..words.len() {
        kept.push(words[place] & word_at(others, place))?;
    }
    Ok(kept)
}

fn has_words(words: &[Vec<u64>], number: u32) -> bool
    ensures { result ≡ has_words words.now number }
{
    match words.get(number as usize) {
        Some(words) => words.len() > 0,
        None => false,
    }
}

// Whether the lists of all these numbers have words.
fn have_words(words: &[Vec<u64>], numbers: &[u32]) -> bool
    ensures { result ≡ list_all (has_words words.now) numbers.now }
{
    numbers.iter().all(|number| has_words(words, *number))
}

// The words that are common to the lists of all these numbers.
fn common_of_all(alloc: Global, words: &[Vec<u64>], numbers: &[u32]) -> Result<Vec<u64>, NoMemory>
    requires within { All (λ k. k < length words.now) numbers.now }
    requires some { 0 < length numbers.now }
    ensures bits { IfOk result (λ kept. (first k : ℕ) → has_bit first kept.items k ≡ list_all (λ j. has_bit first (words_at words.now j) k) numbers.now) }
    ensures length { IfOk result (λ kept. length kept.items ≡ length (words_at words.now (slice_index_or numbers.now 0 0))) }
{
    let first = &words[numbers[0] as usize];
    let mut kept = Vec::from_slice(alloc, first.as_slice())?;
    for number in numbers {
        let others = &words[*number as usize];
        kept = common(alloc, kept.as_slice(), others.as_slice())?;
    }
    Ok(kept)
}

// The nodes that are in the lists of all these numbers, which have words.
fn in_all_words(
    alloc: Global,
    first: u32,
    lists: &[Vec<NodeId>],
    words: &[Vec<u64>],
    numbers: &[u32],
) -> Result<Vec<NodeId>, NoMemory>
    requires words { AreWords first lists.now words.now }
    requires full { list_all (has_words words.now) numbers.now ≡ true }
    requires within { All (λ k. k < length lists.now) numbers.now }
    requires some { 0 < length numbers.now }
    ensures { IfOk result (λ nodes. AreCommon lists.now numbers.now nodes.items) }
{
    let _lists = lists;
    let kept = common_of_all(alloc, words, numbers)?;
    let nodes = nodes_of(alloc, first, kept.as_slice())?;
    Ok(nodes)
}

/// The nodes that are in the lists of all these numbers, in order. Where all of them have words the time is about the number of
/// the words of each list and the nodes; else it is about the length of the shortest list for each, which has less nodes
/// than words.
pub fn in_each(
    alloc: Global,
    first: u32,
    lists: &[Vec<NodeId>],
    words: &[Vec<u64>],
    numbers: &[u32],
) -> Result<Vec<NodeId>, NoMemory>
    requires words { AreWords first lists.now words.now }
    requires rise { (k : ℕ) → k < length lists.now → Rise (list_at lists.now k) }
    requires within { All (λ k. k < length lists.now) numbers.now }
    requires some { 0 < length numbers.now }
    ensures { IfOk result (λ nodes. AreCommon lists.now numbers.now nodes.items) }
{
    if have_words(words, numbers) {
        in_all_words(alloc, first, lists, words, numbers)
    } else {
        in_all(alloc, lists, numbers)
    }
}
