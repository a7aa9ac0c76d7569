//! Lists, texts, nodes and steps.
use plan_base::{Items, Kind, NoMemory, NodeId, Shape, Steps, Text, text_of};
use std::alloc::Global;
use std::process::Abort;
use std::test::Fail;

#[derive(Drop)]
struct Counted;

fn numbers(alloc: Global) -> Result<Items<u32>, NoMemory> {
    let mut numbers = Vec::new(alloc);
    numbers.push(7)?;
    numbers.push(9)?;
    Ok(Items::from_vec(numbers))
}

#[test]
fn lists_and_texts(rt: HostRuntime) -> Result<(), Fail> {
    let numbers = numbers(rt.alloc())?;
    assert!(rt; numbers.len() == 2);
    assert!(rt; numbers.as_slice() == [7, 9].as_slice());
    assert!(rt; numbers.into_vec().as_slice() == [7, 9].as_slice());
    let text = Text::copy(rt.alloc(), "é")?;
    assert!(rt; text.as_str() == "é");
    assert!(rt; text_of(text.as_str().as_bytes()) == "é");
    Ok(())
}

#[test]
fn nodes_and_steps(rt: HostRuntime) -> Result<(), Fail> {
    let shape = Shape {
        items: 3,
        fluids: 1,
        recipes: 2,
        sources: 0,
        machines: 1,
        techs: 1,
    };
    assert!(rt; shape.len() == 11);
    assert!(rt; shape.kind_of(NodeId(1)) == (Kind::Special, 1));
    assert!(rt; shape.kind_of(NodeId(6)) == (Kind::Fluid, 0));
    assert!(rt; shape.kind_of(NodeId(9)) == (Kind::Machine, 0));
    assert!(rt; shape.node_of(Kind::Tech, 0) == NodeId(10));
    let mut steps = Steps::new(Counted);
    steps.tick();
    assert!(rt; steps.taken() == 1);
    Ok(())
}
