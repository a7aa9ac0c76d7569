//! Small graphs in words, with what their worlds answer.
//!
//! A line has three parts with `|` between: the rows of the nodes with `;` between, each with `,` between its groups; the
//! nodes that are granted; and the commands with `,` between, each with its node.
ghost use Rattle.std.specs.Prelude.{◌≡◌, ◌<◌, None, length};
ghost use Rattle.reach_ranks.specs.Rounds.{world, world_with, IsWhole};
ghost use Rattle.milestone_masks.specs.Worlds.{AreWorlds};
ghost use Rattle.rank_bench.specs.Dropped.{StaysWorlds};

use crate::graphs::{graph_of, no_memory};
use crate::words::{nodes_in, rows_in, word_and_node};
use crate::worlds::{Bench, toggle, worlds_of};
use graph_store::{Graph, Group, Rows};
use milestone_masks::{MilestoneFault, Worlds};
use plan_base::{NodeId, Steps};
use reach_ranks::Marks;
use std::alloc::{AllocError, Global};
use std::io;

/// Sets the marks of nodes.
fn mark(marks: &mut [bool], nodes: &[NodeId])
    ensures { length marks.new ≡ length marks.old }
{
    for node in nodes {
        let i = node.0 as usize;
        if i < marks.len() {
            marks[i] = true;
        }
    }
}

/// The ranks of the base world.
fn ranks(alloc: Global, worlds: &Worlds, count: u32) -> Result<Vec<NodeId>, AllocError>
    requires { count ≡ length worlds.now.base }
{
    let mut ranks = Vec::new(alloc);
    for node in 0..count {
        ranks.push(NodeId(worlds.rank(NodeId(node))))?;
    }
    Ok(ranks)
}

/// The milestones in their order.
fn milestones(alloc: Global, worlds: &Worlds) -> Result<Vec<NodeId>, AllocError> {
    let mut nodes = Vec::new(alloc);
    for place in 0..worlds.count() {
        nodes.push(worlds.milestone(place))?;
    }
    Ok(nodes)
}

/// The places of the milestones without which the node isn't reached.
fn places(alloc: Global, worlds: &Worlds, node: NodeId) -> Result<Vec<NodeId>, AllocError>
    requires { node.0 < length worlds.now.base }
{
    let mut places = Vec::new(alloc);
    for place in 0..worlds.count() {
        if worlds.in_mask(node, place) {
            places.push(NodeId(place))?;
        }
    }
    Ok(places)
}

/// Prints numbers behind what they answer.
fn print_nodes(rt: &impl Print, words: &str, node: NodeId, nodes: Vec<NodeId>) -> io::Result<()> {
    rt.print(words)?;
    print!(rt; " {}:", node.0)?;
    for node in &nodes {
        print!(rt; " {}", node.0)?;
    }
    println!(rt;)
}

/// Prints what a node lacks.
fn print_groups(rt: &(impl Print + AllocGlobal), node: NodeId, groups: &[Group]) -> io::Result<()> {
    println!(rt; "missing {}: {} groups", node.0, groups.len())?;
    for group in groups {
        let kind = if group.all { "all" } else { "any" };
        let members = group.members.as_slice().to_vec(rt.alloc())?;
        print_nodes(rt, kind, node, members)?;
    }
    Ok(())
}

/// What a question about a node is answered.
fn answer(
    alloc: Global,
    worlds: &Worlds,
    graph: &Graph,
    granted: &[bool],
    word: &str,
    node: NodeId,
    steps: &mut Steps<Bench>,
) -> Option<Vec<NodeId>>
    requires ranks { length worlds.now.base ≡ length graph.now }
    requires granted { length granted.now ≡ length graph.now }
    requires node { node.0 < length graph.now }
{
    match word {
        "mask" => worlds.mask(alloc, node).ok(),
        "why" => worlds.why(alloc, graph, granted, node, steps).ok(),
        "places" => places(alloc, worlds, node).ok(),
        "milestones" => milestones(alloc, worlds).ok(),
        "ranks" => {
            let count = <Graph as Rows<Bench>>::len(graph);
            ranks(alloc, worlds, count).ok()
        }
        _ => None,
    }
}

/// Prints what a question about a node is answered.
fn print_answer(
    rt: &(impl Print + AllocGlobal),
    worlds: &Worlds,
    graph: &Graph,
    granted: &[bool],
    word: &str,
    node: NodeId,
    steps: &mut Steps<Bench>,
) -> io::Result<()>
    requires ranks { length worlds.now.base ≡ length graph.now }
    requires granted { length granted.now ≡ length graph.now }
    requires node { node.0 < length graph.now }
{
    let alloc = rt.alloc();
    if word == "missing" {
        let Ok(groups) = worlds.missing(alloc, graph, node, steps) else {
            return Err(no_memory());
        };
        return print_groups(rt, node, &groups);
    }
    match answer(alloc, worlds, graph, granted, word, node, steps) {
        Some(nodes) => print_nodes(rt, word, node, nodes),
        None => println!(rt; "no answer"),
    }
}

/// How it ended to make a node a milestone.
fn ending(answer: Result<(), MilestoneFault>) -> &'static str {
    match answer {
        Ok(()) => "is added",
        Err(MilestoneFault::NoMemory) => "wants memory",
        Err(MilestoneFault::Full) => "is too many",
        Err(MilestoneFault::Already) => "is one already",
        Err(MilestoneFault::NotOne) => "is none",
    }
}

/// Makes a node the first milestone, and tells how that ended.
fn put_first(
    alloc: Global,
    worlds: &mut Worlds,
    graph: &Graph,
    marks: Marks<'_>,
    node: NodeId,
    steps: &mut Steps<Bench>,
) -> &'static str
    requires marks { IsWhole (world_with graph.now marks None) }
    requires worlds { AreWorlds graph.now marks.barred.now marks.granted.now worlds.old }
    requires node { node.0 < length graph.now }
    ensures worlds { AreWorlds graph.now marks.entry.barred.now marks.entry.granted.now worlds.new }
{
    let answer = worlds.add_world(alloc, graph, marks, node, 0, steps);
    ending(answer)
}

/// Makes a node no milestone any more, and tells the place where it stood.
fn take_out(worlds: &mut Worlds, node: NodeId) -> Option<u32>
    ensures worlds { StaysWorlds worlds.old worlds.new }
{
    match worlds.drop_world(node) {
        Ok(place) => Some(place),
        Err(_) => None,
    }
}

/// Prints where a milestone stood.
fn print_place(rt: &impl Print, node: NodeId, place: Option<u32>) -> io::Result<()> {
    match place {
        Some(place) => println!(rt; "drop {}: from place {place}", node.0),
        None => println!(rt; "drop {}: is none", node.0),
    }
}

/// Carries out a command and prints what it is answered.
pub(crate) fn command(
    rt: &(impl Print + AllocGlobal),
    worlds: &mut Worlds,
    graph: &Graph,
    barred: &mut [bool],
    granted: &[bool],
    word: &str,
    node: NodeId,
    steps: &mut Steps<Bench>,
) -> io::Result<()>
    requires marks { IsWhole (world graph.now barred.old granted.now None) }
    requires worlds { AreWorlds graph.now barred.old granted.now worlds.old }
    requires node { node.0 < length graph.now }
    ensures marks { IsWhole (world graph.now barred.new granted.now None) }
    ensures worlds { AreWorlds graph.now barred.new granted.now worlds.new }
{
    match word {
        "turn" => {
            toggle(worlds, graph, barred, granted, node, steps);
            println!(rt; "turn {}", node.0)
        }
        "milestone" => {
            let marks = Marks { barred, granted };
            let end = put_first(rt.alloc(), worlds, graph, marks, node, steps);
            println!(rt; "milestone {}: {end}", node.0)
        }
        "drop" => {
            let place = take_out(worlds, node);
            print_place(rt, node, place)
        }
        _ => print_answer(rt, worlds, graph, granted, word, node, steps),
    }
}

/// Carries out the commands.
fn carry_out(
    rt: &(impl Print + AllocGlobal),
    worlds: &mut Worlds,
    graph: &Graph,
    barred: &mut [bool],
    granted: &[bool],
    commands: &str,
    steps: &mut Steps<Bench>,
) -> io::Result<()>
    requires marks { IsWhole (world graph.now barred.old granted.now None) }
    requires worlds { AreWorlds graph.now barred.old granted.now worlds.old }
{
    let count = <Graph as Rows<Bench>>::len(graph);
    for words in commands.split(',') {
        if let Some((word, node)) = word_and_node(words) {
            if node.0 < count {
                command(rt, worlds, graph, barred, granted, word, node, steps)?;
            }
        }
    }
    Ok(())
}

/// Carries out the commands over the worlds of a graph with these marks.
fn over_marks(
    rt: &(impl Print + AllocGlobal),
    graph: &Graph,
    barred: &mut [bool],
    granted: &[bool],
    commands: &str,
) -> io::Result<()>
    requires { IsWhole (world graph.now barred.old granted.now None) }
{
    let Some(mut worlds) = worlds_of(rt.alloc(), graph, Marks { barred, granted }) else {
        return Err(no_memory());
    };
    let mut steps = Steps::new(Bench);
    carry_out(
        rt,
        &mut worlds,
        graph,
        barred,
        granted,
        commands,
        &mut steps,
    )
}

/// Carries out the commands over a graph of which the nodes are granted.
fn over_graph(
    rt: &(impl Print + AllocGlobal),
    graph: &Graph,
    nodes: &[NodeId],
    commands: &str,
) -> io::Result<()> {
    let alloc = rt.alloc();
    let count = <Graph as Rows<Bench>>::len(graph) as usize;
    let mut granted = vec![in alloc; false; count]?;
    let mut barred = vec![in alloc; false; count]?;
    mark(&mut granted, nodes);
    over_marks(rt, graph, &mut barred, &granted, commands)
}

/// Carries out a line.
pub fn carry_out_line(rt: &(impl Print + AllocGlobal), line: &str) -> io::Result<()> {
    let alloc = rt.alloc();
    let mut parts = line.split('|');
    let words = parts.next().unwrap_or("");
    let nodes = nodes_in(alloc, parts.next().unwrap_or(""))?;
    let commands = parts.next().unwrap_or("");
    let Some(graph) = graph_of(alloc, rows_in(alloc, words)?) else {
        return Err(no_memory());
    };
    over_graph(rt, &graph, &nodes, commands)
}
