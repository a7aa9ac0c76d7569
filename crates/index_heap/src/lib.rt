//! A queue of nodes by key, as a tree of the least entries.
#![tactic(auto)]

ghost use Rattle.std.specs.Prelude.{◌≡◌, ℕ, ◌+◌, ◌-◌, ◌*◌, ◌%◌, ◌<◌, ◌≤◌, ◌^◌, ◌↔◌, None, Some, length, slice_set, replicate, IfOk, IfSome, IfNone, IsTrue};
ghost use Rattle.std.specs.Bool.{OnTrue};
ghost use Rattle.index_heap.specs.Keys.{key_at, IsLeastAt, HasNoKeys};
ghost use Rattle.index_heap.specs.Tree.{decoded, encoded, entry_at, lesser_entry, may_wait, sibling, with_node, AreLesser, IsHeap};

use plan_base::{NoMemory, NodeId};
use std::alloc::Global;
use std::marker::Model;

/// The entry of the lesser key, the lower node among equals.
fn lesser_entry(a: Option<(u32, u32)>, b: Option<(u32, u32)>) -> Option<(u32, u32)>
    ensures { result ≡ lesser_entry a b }
{
    match a {
        None => b,
        Some(p) => match b {
            None => Some(p),
            Some(q) => {
                if p.0 < q.0 || (p.0 == q.0 && p.1 <= q.1) {
                    Some(p)
                } else {
                    Some(q)
                }
            }
        },
    }
}

/// The number of a node's key, which grows by key, then by node; the last number where it has none.
fn encoded(key: Option<u32>, node: u32) -> u64
    ensures { result ≡ encoded (with_node key node) }
{
    match key {
        None => u64::MAX,
        Some(k) => u64::from(k) * 4_294_967_296 + u64::from(node),
    }
}

/// The entry of a number.
fn decoded(number: u64) -> Option<(u32, u32)>
    ensures { result ≡ decoded number }
{
    if number == u64::MAX {
        None
    } else {
        let key = (number / 4_294_967_296) as u32;
        let node = (number % 4_294_967_296) as u32;
        Some((key, node))
    }
}

/// The other place below the same one.
fn sibling(place: usize) -> usize
    requires { place < 2 ^ 33 }
    ensures { result ≡ sibling place }
{
    place + 1 - 2 * (place % 2)
}

/// Puts a number at a leaf, and the lesser numbers above it, up to the first of these that stays.
fn put(tree: &mut [u64], n: usize, at: usize, number: u64)
    requires few { n < 2 ^ 32 }
    requires long { length tree.old ≡ 2 * n }
    requires leaf { n ≤ at }
    requires inside { at < 2 * n }
    requires before { AreLesser tree.old n }
    ensures long { length tree.new ≡ 2 * n }
    ensures after { AreLesser tree.new n }
    ensures here { entry_at tree.new at ≡ number }
    ensures others { (i : ℕ) → n ≤ i → i < 2 * n → (i ≡ at → ⊥) → entry_at tree.new i ≡ entry_at tree.old i }
{
    tree[at] = number;
    let mut least = number;
    let mut j = at;
    'climb: while j > 1 {
        least = least.min(tree[sibling(j)]);
        j = j / 2;
        if tree[j] == least {
            return;
        }
        tree[j] = least;
    }
}

/// The entry of a node's key.
fn with_node(key: Option<u32>, node: u32) -> Option<(u32, u32)>
    ensures { result ≡ with_node key node }
{
    match key {
        None => None,
        Some(k) => Some((k, node)),
    }
}

/// Whether two keys are the same.
fn is_same_key(a: Option<u32>, b: Option<u32>) -> bool
    ensures { OnTrue result (a ≡ b) }
{
    match a {
        None => b.is_none(),
        Some(p) => match b {
            None => false,
            Some(q) => p == q,
        },
    }
}

/// Whether a node that has this key can wait beside the tree: it does so, or no node does and it isn't in the tree.
fn may_wait(waiting: Option<(u32, u32)>, node: u32, key: Option<u32>) -> bool
    ensures { result ≡ may_wait waiting node key }
{
    match waiting {
        Some(entry) => entry.1 == node,
        None => key.is_none(),
    }
}

/// Readies the tree, and who waits beside it, for the node's next key. Where one node after another gets a key and loses it,
/// the tree stays as it is.
fn place(
    keys: &[Option<u32>],
    tree: &mut [u64],
    waiting: &mut Option<(u32, u32)>,
    node: u32,
    key: Option<u32>,
)
    requires heap { IsHeap keys.now tree.old waiting.old }
    requires node { node < length keys.now }
    ensures { IsHeap (slice_set keys.now node key) tree.new waiting.new }
{
    let kept = keys[node as usize];
    if may_wait(*waiting, node, kept) {
        *waiting = with_node(key, node);
        return;
    }
    if is_same_key(kept, key) {
        return;
    }
    let n = keys.len();
    put(tree, n, n + node as usize, encoded(key, node));
}

/// Gives the node this key, or none.
fn write(
    keys: &mut [Option<u32>],
    tree: &mut [u64],
    waiting: &mut Option<(u32, u32)>,
    node: u32,
    key: Option<u32>,
)
    requires heap { IsHeap keys.old tree.old waiting.old }
    requires node { node < length keys.old }
    ensures heap { IsHeap keys.new tree.new waiting.new }
    ensures keys { keys.new ≡ slice_set keys.old node key }
{
    place(keys, tree, waiting, node, key);
    keys[node as usize] = key;
}

/// The entry of the least key, the lower node among equals.
fn least(keys: &[Option<u32>], tree: &[u64], waiting: Option<(u32, u32)>) -> Option<(u32, u32)>
    requires { IsHeap keys.now tree.now waiting }
    ensures some { IfSome result (λ pair. IsLeastAt keys.now (length keys.now) pair.1 pair.0) }
    ensures none { IfNone result (HasNoKeys keys.now) }
{
    if keys.len() == 0 {
        return None;
    }
    lesser_entry(waiting, decoded(tree[1]))
}

/// Nodes below a number, some of which have a key. It is seen as the list of their keys.
#[derive(Drop)]
pub struct Heap {
    keys: Vec<Option<u32>>,
    tree: Vec<u64>,
    waiting: Option<(u32, u32)>,
}

impl Model for Heap {
    ghost use Rattle.std.specs.Prelude.{List, Option, ℕ};
    ghost use Rattle.index_heap.specs.Tree.{IsHeap};

    ghost Value = { List (Option ℕ) };

    ghost view = { λ h. h.keys.items };

    ghost invariant = { λ h. IsHeap h.keys.items h.tree.items h.waiting };
}

impl Heap {
    /// A queue for the nodes below `n`, in which no node has a key.
    ///
    /// It is the only call that takes memory.
    ///
    /// # Errors
    ///
    /// `NoMemory` where memory could not be had.
    pub fn make(alloc: Global, n: u32) -> Result<Heap, NoMemory>
        ensures { IfOk result (λ heap. heap ≡ replicate n None) }
    {
        let none: Option<u32> = None;
        let keys = vec![in alloc; none; n as usize]?;
        let tree = vec![in alloc; u64::MAX; 2 * n as usize]?;
        Ok(Heap {
            keys,
            tree,
            waiting: None,
        })
    }

    /// Gives the node this key.
    pub fn set(&mut self, node: NodeId, key: u32)
        requires { node.0 < length self.old }
        ensures { self.new ≡ slice_set self.old node.0 (Some key) }
    {
        write(
            &mut self.keys,
            &mut self.tree,
            &mut self.waiting,
            node.0,
            Some(key),
        );
    }

    /// Takes the node's key away.
    pub fn drop_key(&mut self, node: NodeId)
        requires { node.0 < length self.old }
        ensures { self.new ≡ slice_set self.old node.0 None }
    {
        write(
            &mut self.keys,
            &mut self.tree,
            &mut self.waiting,
            node.0,
            None,
        );
    }

    /// Whether no node has a key.
    pub fn is_empty(&self) -> bool
        ensures { IsTrue result ↔ HasNoKeys self.now }
    {
        least(&self.keys, &self.tree, self.waiting).is_none()
    }

    /// The key of the node, where it has one.
    pub fn key_of(&self, node: NodeId) -> Option<u32>
        requires { node.0 < length self.now }
        ensures { result ≡ key_at self.now node.0 }
    {
        self.keys[node.0 as usize]
    }

    /// Takes out the node of the least key, the lower node among equals.
    pub fn take_least(&mut self) -> Option<(NodeId, u32)>
        ensures none { IfNone result (self.new ≡ self.old) }
        ensures empty { IfNone result (HasNoKeys self.old) }
        ensures some { IfSome result (λ pair. self.new ≡ slice_set self.old pair.0.0 None) }
        ensures least { IfSome result (λ pair. IsLeastAt self.old (length self.old) pair.0.0 pair.1) }
    {
        match least(&self.keys, &self.tree, self.waiting) {
            None => None,
            Some((key, node)) => {
                self.drop_key(NodeId(node));
                Some((NodeId(node), key))
            }
        }
    }
}
