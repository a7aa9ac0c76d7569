//! Bars and permits of nodes, in all worlds.
ghost use Rattle.std.specs.Prelude.{◌≡◌, ◌<◌, None, length, IfSome};
ghost use Rattle.reach_ranks.specs.Rounds.{world, world_with, IsWhole};
ghost use Rattle.milestone_masks.specs.Worlds.{AreWorlds};

use crate::graphs::Numbers;
use graph_store::{Graph, Rows};
use milestone_masks::Worlds;
use plan_base::{NoMemory, NodeId, Steps};
use reach_ranks::{Marks, WorldMarks, ranks_afresh};
use std::alloc::Global;

/// Marks the counter of the bench.
#[derive(Drop)]
pub struct Bench;

/// The worlds of a graph with these marks; no node is a milestone.
pub fn worlds_of(alloc: Global, graph: &Graph, marks: Marks<'_>) -> Option<Worlds>
    requires { IsWhole (world_with graph.now marks None) }
    ensures { IfSome result (λ worlds. AreWorlds graph.now marks.entry.barred.now marks.entry.granted.now worlds) }
{
    let _count = <Graph as Rows<Bench>>::len(graph);
    let mut steps = Steps::new(Bench);
    let in_base = WorldMarks {
        barred: marks.barred,
        granted: marks.granted,
        extra: None,
    };
    let base = ranks_afresh(alloc, graph, in_base, &mut steps).ok()?;
    Worlds::make(alloc, base).ok()
}

/// Bars a node or permits it again, and repairs all worlds.
pub fn toggle(
    worlds: &mut Worlds,
    graph: &Graph,
    barred: &mut [bool],
    granted: &[bool],
    node: NodeId,
    steps: &mut Steps<Bench>,
)
    requires marks { IsWhole (world graph.now barred.old granted.now None) }
    requires worlds { AreWorlds graph.now barred.old granted.now worlds.old }
    requires node { node.0 < length graph.now }
    ensures marks { IsWhole (world graph.now barred.new granted.now None) }
    ensures worlds { AreWorlds graph.now barred.new granted.now worlds.new }
{
    barred[node.0 as usize] = !barred[node.0 as usize];
    worlds.repair_all(graph, Marks { barred, granted }, &[node], steps);
}

/// Bars nodes and permits each again, with repair of all worlds each time.
fn bar_and_permit(
    worlds: &mut Worlds,
    graph: &Graph,
    barred: &mut [bool],
    granted: &[bool],
    numbers: &mut Numbers,
    count: u32,
    pairs: u32,
    steps: &mut Steps<Bench>,
)
    requires marks { IsWhole (world graph.now barred.old granted.now None) }
    requires worlds { AreWorlds graph.now barred.old granted.now worlds.old }
    requires count { count ≡ length graph.now }
    ensures worlds { AreWorlds graph.now barred.new granted.now worlds.new }
{
    if count == 0 {
        return;
    }
    for _ in 0..pairs {
        let node = NodeId(numbers.below(count));
        toggle(worlds, graph, barred, granted, node, steps);
        toggle(worlds, graph, barred, granted, node, steps);
    }
}

/// Adds worlds for nodes, of which some may be the same.
fn add_worlds(
    alloc: Global,
    worlds: &mut Worlds,
    graph: &Graph,
    barred: &[bool],
    granted: &[bool],
    numbers: &mut Numbers,
    count: u32,
    wanted: u32,
    steps: &mut Steps<Bench>,
)
    requires marks { IsWhole (world graph.now barred.now granted.now None) }
    requires worlds { AreWorlds graph.now barred.now granted.now worlds.old }
    requires count { count ≡ length graph.now }
    ensures worlds { AreWorlds graph.now barred.now granted.now worlds.new }
{
    if count == 0 {
        return;
    }
    let marks = Marks { barred, granted };
    for _ in 0..wanted {
        let node = NodeId(numbers.below(count));
        let _answer = worlds.add_world(alloc, graph, marks, node, 0, steps);
    }
}

/// The ranks of the base world and of each other world, computed anew.
fn all_anew(
    alloc: Global,
    worlds: &Worlds,
    graph: &Graph,
    barred: &[bool],
    granted: &[bool],
    steps: &mut Steps<Bench>,
) -> Result<(), NoMemory>
    requires marks { IsWhole (world graph.now barred.now granted.now None) }
{
    let in_base = WorldMarks {
        barred,
        granted,
        extra: None,
    };
    let _base = ranks_afresh(alloc, graph, in_base, steps)?;
    for k in 0..worlds.count() {
        let in_world = WorldMarks {
            barred,
            granted,
            extra: Some(worlds.milestone(k)),
        };
        let _ranks = ranks_afresh(alloc, graph, in_world, steps)?;
    }
    Ok(())
}

/// Bars nodes and permits each again, with all ranks computed anew each time.
fn bar_and_permit_anew(
    alloc: Global,
    worlds: &Worlds,
    graph: &Graph,
    barred: &mut [bool],
    granted: &[bool],
    numbers: &mut Numbers,
    count: u32,
    pairs: u32,
    steps: &mut Steps<Bench>,
) -> Result<(), NoMemory>
    requires marks { IsWhole (world graph.now barred.old granted.now None) }
    requires count { count ≡ length graph.now }
{
    if count == 0 {
        return Ok(());
    }
    for _ in 0..pairs {
        let node = numbers.below(count) as usize;
        barred[node] = !barred[node];
        all_anew(alloc, worlds, graph, barred, granted, steps)?;
        barred[node] = !barred[node];
        all_anew(alloc, worlds, graph, barred, granted, steps)?;
    }
    Ok(())
}

/// How many worlds there are, and the steps of bars and permits, by repair or anew.
fn pairs_over(
    alloc: Global,
    graph: &Graph,
    barred: &mut [bool],
    granted: &[bool],
    numbers: &mut Numbers,
    wanted: u32,
    pairs: u32,
    repairs: bool,
) -> Option<(u32, u64)>
    requires { IsWhole (world graph.now barred.old granted.now None) }
{
    let count = <Graph as Rows<Bench>>::len(graph);
    let mut worlds = worlds_of(alloc, graph, Marks { barred, granted })?;
    let mut steps = Steps::new(Bench);
    add_worlds(
        alloc,
        &mut worlds,
        graph,
        barred,
        granted,
        numbers,
        count,
        wanted,
        &mut steps,
    );
    let mut taken = Steps::new(Bench);
    if repairs {
        bar_and_permit(
            &mut worlds,
            graph,
            barred,
            granted,
            numbers,
            count,
            pairs,
            &mut taken,
        );
    } else {
        bar_and_permit_anew(
            alloc, &worlds, graph, barred, granted, numbers, count, pairs, &mut taken,
        )
        .ok()?;
    }
    Some((worlds.count(), taken.taken()))
}

/// The same over a graph without marks.
pub fn steps_of_pairs(
    alloc: Global,
    graph: &Graph,
    numbers: &mut Numbers,
    wanted: u32,
    pairs: u32,
    repairs: bool,
) -> Option<(u32, u64)> {
    let count = <Graph as Rows<Bench>>::len(graph);
    let granted = vec![in alloc; false; count as usize].ok()?;
    let mut barred = vec![in alloc; false; count as usize].ok()?;
    pairs_over(
        alloc,
        graph,
        &mut barred,
        &granted,
        numbers,
        wanted,
        pairs,
        repairs,
    )
}

/// The steps of barring the first node and permitting it again, in the base world.
fn bars_over(
    alloc: Global,
    graph: &Graph,
    barred: &mut [bool],
    granted: &[bool],
    pairs: u32,
) -> Option<u64>
    requires { IsWhole (world graph.now barred.old granted.now None) }
{
    let count = <Graph as Rows<Bench>>::len(graph);
    let mut worlds = worlds_of(alloc, graph, Marks { barred, granted })?;
    if count == 0 {
        return None;
    }
    let mut taken = Steps::new(Bench);
    for _ in 0..pairs {
        toggle(&mut worlds, graph, barred, granted, NodeId(0), &mut taken);
        toggle(&mut worlds, graph, barred, granted, NodeId(0), &mut taken);
    }
    Some(taken.taken())
}

/// The same over a graph without marks.
pub fn steps_of_bars(alloc: Global, graph: &Graph, pairs: u32) -> Option<u64> {
    let count = <Graph as Rows<Bench>>::len(graph);
    let granted = vec![in alloc; false; count as usize].ok()?;
    let mut barred = vec![in alloc; false; count as usize].ok()?;
    bars_over(alloc, graph, &mut barred, &granted, pairs)
}
