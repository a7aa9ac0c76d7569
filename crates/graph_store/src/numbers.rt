//! The nodes of things with some numbers.
ghost use Rattle.std.specs.Prelude.{◌≡◌, ◌+◌, ◌^◌, ◌<◌, ◌==◌, All, IfOk, filter};
ghost use Rattle.std.specs.List.{list_any, range_with_len};
ghost use Rattle.graph_store.specs.Members.{named};

use plan_base::{NoMemory, NodeId};
use std::alloc::Global;

// The numbers in order, each once.
fn sorted_numbers(count: u32, numbers: Vec<u32>) -> Vec<u32>
    requires { All (λ k. k < count) numbers.items }
    ensures numbers { result.items ≡ filter (λ i. list_any (λ j. j == i) numbers.items) (range_with_len 0 count) }
    ensures below { All (λ k. k < count) result.items }
{
    let mut sorted = numbers;
    sorted.sort_unstable();
    sorted.dedup();
    sorted
}

/// The nodes, numbered from the first on, of the things with these numbers, in order and each once.
pub fn named(
    alloc: Global,
    first: u32,
    count: u32,
    numbers: Vec<u32>,
) -> Result<Vec<NodeId>, NoMemory>
    requires numbers { All (λ k. k < count) numbers.items }
    requires few { first + count < 2 ^ 32 }
    ensures { IfOk result (λ nodes. nodes.items ≡ named first count numbers.items) }
{
    let sorted = sorted_numbers(count, numbers);
    let all = sorted.as_slice();
    let mut nodes = Vec::new(alloc);
    for number in all {
        nodes.push(NodeId(first + *number))?;
    }
    Ok(nodes)
}
