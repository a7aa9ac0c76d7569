//! Makes a graph from a seed and counts the steps of ranks and repairs over it.
//!
//! Words: `graph|rounds|afresh COUNT SIZE`, or `repair|anew COUNT SIZE WORLDS PAIRS`; or `wide COUNT 0 WORLDS PAIRS` for
//! a graph whose last node needs any one of all others but the first, on which each of these stands. With the word
//! `lines` each line of the standard input is such words, or a case of `cases`.
#![tactic(auto)]

mod cases;
mod graphs;
mod words;
mod worlds;

use cases::carry_out_line;
use graph_store::{Graph, Rows};
use graphs::{Numbers, graph_of, no_memory, rows, wide_rows};
use plan_base::Steps;
use reach_ranks::{WorldMarks, ranks_afresh, ranks_by_rounds};
use std::alloc::{AllocError, Global};
use std::env;
use std::io::{self, BufRead, BufReader};
use worlds::{Bench, steps_of_bars, steps_of_pairs};

/// How many nodes have a rank, and a number made of all ranks in turn.
fn digest(ranks: &[u32]) -> (u32, u64) {
    let mut reached = 0u32;
    let mut sum = 0u64;
    for rank in ranks {
        if *rank > 0 {
            reached = reached.saturating_add(1);
        }
        sum = sum.wrapping_mul(31).wrapping_add(u64::from(*rank));
    }
    (reached, sum)
}

/// The number that a word is, or the default.
fn number(words: &[String], at: usize, default: u32) -> u32 {
    match words.get(at) {
        Some(word) => word.parse().unwrap_or(default),
        None => default,
    }
}

/// The steps of one call over an unmarked graph, and the digest of its ranks.
fn ranks_of(alloc: Global, graph: &Graph, afresh: bool) -> Option<(u64, u32, u64)> {
    let nodes = <Graph as Rows<Bench>>::len(graph);
    let none = vec![in alloc; false; nodes as usize].ok()?;
    let marks = WorldMarks {
        barred: &none,
        granted: &none,
        extra: None,
    };
    let mut steps = Steps::new(Bench);
    let ranks = if afresh {
        ranks_afresh(alloc, graph, marks, &mut steps).ok()?
    } else {
        ranks_by_rounds(alloc, graph, marks, &mut steps).ok()?
    };
    let (reached, sum) = digest(ranks.as_slice());
    Some((steps.taken(), reached, sum))
}

/// Prints the steps of one call over an unmarked graph.
fn print_ranks(rt: &(impl Print + AllocGlobal), graph: &Graph, mode: &str) -> io::Result<()> {
    let Some((steps, reached, sum)) = ranks_of(rt.alloc(), graph, mode != "rounds") else {
        return Err(no_memory());
    };
    println!(rt; "{mode}: {steps} steps, {reached} reached, digest {sum}")
}

/// Prints the steps of bars of the first node.
fn print_bars(rt: &(impl Print + AllocGlobal), graph: &Graph, pairs: u32) -> io::Result<()> {
    let Some(steps) = steps_of_bars(rt.alloc(), graph, pairs) else {
        return Err(no_memory());
    };
    println!(rt; "wide: {pairs} pairs, {steps} steps")
}

/// Prints the steps of bars of many nodes in many worlds.
fn print_pairs(
    rt: &(impl Print + AllocGlobal),
    graph: &Graph,
    numbers: &mut Numbers,
    mode: &str,
    wanted: u32,
    pairs: u32,
) -> io::Result<()> {
    let repairs = mode == "repair";
    let Some((kept, steps)) = steps_of_pairs(rt.alloc(), graph, numbers, wanted, pairs, repairs)
    else {
        return Err(no_memory());
    };
    println!(rt; "{mode}: {kept} worlds, {pairs} pairs, {steps} steps")
}

/// Prints what the words ask for of a graph.
fn print_mode(
    rt: &(impl Print + AllocGlobal),
    graph: &Graph,
    numbers: &mut Numbers,
    mode: &str,
    words: &[String],
) -> io::Result<()> {
    match mode {
        "rounds" | "afresh" => print_ranks(rt, graph, mode),
        "wide" => {
            print_ranks(rt, graph, mode)?;
            print_bars(rt, graph, number(words, 4, 4))
        }
        "repair" | "anew" => {
            let wanted = number(words, 3, 4);
            let pairs = number(words, 4, 4);
            print_pairs(rt, graph, numbers, mode, wanted, pairs)
        }
        _ => Ok(()),
    }
}

/// Makes the graph of the words, and prints what they ask for.
fn measure(rt: &(impl Print + AllocGlobal), mode: &str, words: &[String]) -> io::Result<()> {
    let alloc = rt.alloc();
    let count = number(words, 1, 100);
    let size = number(words, 2, 4);
    let mut numbers = Numbers::of_seed(7);
    let rows = if mode == "wide" {
        wide_rows(alloc, count)?
    } else {
        rows(alloc, &mut numbers, count, size)?
    };
    let Some(graph) = graph_of(alloc, rows) else {
        return Err(no_memory());
    };
    print_mode(rt, &graph, &mut numbers, mode, words)
}

/// The words of a line.
fn words_in(alloc: Global, line: &str) -> Result<Vec<String>, AllocError> {
    let mut words = Vec::new(alloc);
    for word in line.split(' ') {
        words.push(word.to_owned(alloc)?)?;
    }
    Ok(words)
}

/// Carries out a line of the standard input: a case where it has a `|`, else the words of a run.
fn carry_out_any(rt: &(impl Print + AllocGlobal), line: &str) -> io::Result<()> {
    if line.contains('|') {
        return carry_out_line(rt, line);
    }
    let words = words_in(rt.alloc(), line)?;
    match words.first() {
        Some(mode) => measure(rt, mode.as_str(), &words),
        None => Ok(()),
    }
}

/// Carries out the lines of the standard input.
fn carry_out_input(rt: &(impl Print + Input + AllocGlobal)) -> io::Result<()> {
    let alloc = rt.alloc();
    for line in BufReader::new(alloc, rt.reader())?.lines(alloc) {
        let line = line?;
        carry_out_any(rt, line.as_str())?;
    }
    Ok(())
}

fn main(rt: HostRuntime) -> io::Result<()> {
    let mut words = Vec::new(rt.alloc());
    for word in env::args(&rt)? {
        words.push(word)?;
    }
    let Some((_program, words)) = words.split_first() else {
        return Ok(());
    };
    let mode = match words.first() {
        Some(word) => word.as_str(),
        None => "graph",
    };
    if mode == "lines" {
        return carry_out_input(&rt);
    }
    measure(&rt, mode, words)
}
