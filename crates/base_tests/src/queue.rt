//! The queue of nodes by key.
use index_heap::Heap;
use plan_base::NodeId;
use std::test::Fail;

// Keys by node, and the order in which the nodes are taken out.
#[test]
fn takes_the_least_first_and_the_lower_node_among_equals(rt: HostRuntime) -> Result<(), Fail> {
    let mut heap = Heap::make(rt.alloc(), 5)?;
    assert!(rt; heap.is_empty());
    heap.set(NodeId(3), 7);
    heap.set(NodeId(0), 9);
    heap.set(NodeId(4), 2);
    heap.set(NodeId(1), 7);
    heap.set(NodeId(2), 1);
    heap.set(NodeId(4), 8);
    heap.drop_key(NodeId(2));
    assert!(rt; heap.key_of(NodeId(4)) == Some(8));
    assert!(rt; heap.key_of(NodeId(2)) == None);
    for want in [Some((1, 7)), Some((3, 7)), Some((4, 8)), Some((0, 9)), None] {
        let taken = heap.take_least().map(|pair| (pair.0.0, pair.1));
        assert!(rt; taken == want);
    }
    assert!(rt; heap.is_empty());
    Ok(())
}

#[test]
fn a_queue_for_no_nodes_is_empty(rt: HostRuntime) -> Result<(), Fail> {
    let mut heap = Heap::make(rt.alloc(), 0)?;
    assert!(rt; heap.is_empty());
    assert!(rt; heap.take_least().is_none());
    Ok(())
}
