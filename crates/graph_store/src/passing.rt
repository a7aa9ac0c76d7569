//! The nodes of things that pass a test, in node order.
ghost use Rattle.std.specs.Prelude.{◌≡◌, ◌+◌, ◌++◌, ◌^◌, ◌<◌, Bool, IfOk, OnOk, length};
ghost use Rattle.graph_store.specs.Members.{those};

use plan_base::{NoMemory, NodeId};
use std::alloc::Global;

/// A test of things.
pub trait Test<T> {
    /// Whether a thing passes.
    ghost passes: { Self → T → Bool };

    /// Whether a thing passes.
    fn passes(&self, thing: &T) -> bool
        ensures { result ≡ passes self.now thing.now };
}

/// Appends the nodes, numbered from the first on, of the things that pass a test.
pub fn push_those<T, P: Test<T>>(
    nodes: &mut Vec<NodeId>,
    first: u32,
    things: &[T],
    test: &P,
) -> Result<(), NoMemory>
    requires { first + length things.now < 2 ^ 32 }
    ensures { OnOk result (nodes.new.items ≡ nodes.old.items ++ those (P.passes test.now) first things.now) }
{
    let mut node = first;
    for thing in things {
        if test.passes(thing) {
            nodes.push(NodeId(node))?;
        }
        node += 1;
    }
    Ok(())
}

/// The nodes, numbered from the first on, of the things that pass a test.
pub fn those<T, P: Test<T>>(
    alloc: Global,
    first: u32,
    things: &[T],
    test: &P,
) -> Result<Vec<NodeId>, NoMemory>
    requires { first + length things.now < 2 ^ 32 }
    ensures { IfOk result (λ nodes. nodes.items ≡ those (P.passes test.now) first things.now) }
{
    let mut nodes = Vec::new(alloc);
    push_those(&mut nodes, first, things, test)?;
    Ok(nodes)
}
