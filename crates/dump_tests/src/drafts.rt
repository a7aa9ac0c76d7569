//! A small dump before its names are looked up, and the faults of some that are refused.
use crate::faults::is_dump_fault;
use crate::trees::wanted;
use craft_reader::DumpFault;
use dump_reader::{Draft, read_draft};
use json_text::{JsonFault, SpanTree, Wanted, read_spans};
use plan_base::NoMemory;
use std::alloc::Global;
use std::test::Fail;

const SECTIONS: &str = "item ammo recipe assembling-machine character";

const FIELDS: &str =
    "fuel_value ingredients result energy_required crafting_speed crafting_categories energy_usage energy_source type place_result";

const DUMP: &str =
    r#"{"assembling-machine":{"asm":{"crafting_speed":0.75,"crafting_categories":["crafting"],"energy_usage":"75kW","energy_source":{"type":"electric"}}},"character":{"character":{"crafting_categories":["crafting"]}},"item":{"plate":{},"gear":{},"asm":{"place_result":"asm"}},"recipe":{"gear":{"energy_required":0.5,"ingredients":[["plate",2]],"result":"gear"}}}"#;

// A code, a section, a name, a field, and the dump that has this fault.
const FAULTS: &str = r#"G1|recipe|r|ingredients|{"recipe":{"r":{"result":"x"}}}
G6|ammo|a||{"item":{"a":{}},"ammo":{"a":{}}}
G5|item|a|fuel_value|{"item":{"a":{"fuel_value":"4 MJ"}}}
G2|recipe|r|energy_required|{"recipe":{"r":{"ingredients":[],"result":"x","energy_required":inf}}}
G2||||[1]"#;

// Hidden from the proofs, which need not know the texts.
fn kept_fields() -> &'static str {
    FIELDS
}

fn small_dump() -> &'static str {
    DUMP
}

fn faults() -> &'static str {
    FAULTS
}

fn kept(alloc: Global) -> Result<Wanted, NoMemory> {
    wanted(alloc, SECTIONS, kept_fields())
}

fn is_small(draft: &Draft) -> bool {
    draft.items.len() == 3
        && draft.recipes.len() == 1
        && draft.machines.len() == 1
        && draft.crafting.len() == 1
        && draft.categories.len() == 1
        && draft.nodes == 8
}

fn is_read_small(read: &Result<Draft, DumpFault>) -> bool {
    match read {
        Ok(draft) => is_small(draft),
        Err(_) => false,
    }
}

fn is_tree_small(alloc: Global, tree: &Result<SpanTree<'_>, JsonFault>) -> bool {
    match tree {
        Ok(tree) => {
            let read = read_draft(alloc, tree);
            is_read_small(&read)
        }
        Err(_) => false,
    }
}

fn is_dump_small(alloc: Global, dump: &str) -> Result<bool, NoMemory> {
    let kept = kept(alloc)?;
    let tree = read_spans(alloc, dump.as_bytes(), &kept);
    Ok(is_tree_small(alloc, &tree))
}

#[test]
fn a_small_dump_is_read(rt: HostRuntime) -> Result<(), Fail> {
    assert!(rt; is_dump_small(rt.alloc(), small_dump())?);
    Ok(())
}

fn is_refused(read: &Result<Draft, DumpFault>, fault_words: &[&str]) -> bool {
    match read {
        Ok(_) => false,
        Err(fault) => is_dump_fault(fault, fault_words),
    }
}

fn is_tree_refused(
    alloc: Global,
    tree: &Result<SpanTree<'_>, JsonFault>,
    fault_words: &[&str],
) -> bool {
    match tree {
        Ok(tree) => {
            let read = read_draft(alloc, tree);
            is_refused(&read, fault_words)
        }
        Err(_) => false,
    }
}

fn is_dump_refused(alloc: Global, words: &[&str], kept: &Wanted) -> bool {
    match words {
        [fault_words @ .., dump] => {
            let tree = read_spans(alloc, dump.as_bytes(), kept);
            is_tree_refused(alloc, &tree, fault_words)
        }
        _ => false,
    }
}

fn is_row_so(alloc: Global, row: &str, kept: &Wanted) -> Result<bool, NoMemory> {
    let words: Vec<&str> = row.split('|').collect(alloc)?;
    Ok(is_dump_refused(alloc, words.as_slice(), kept))
}

#[test]
fn faults_have_their_places(rt: HostRuntime) -> Result<(), Fail> {
    let kept = kept(rt.alloc())?;
    for row in faults().lines() {
        if !is_row_so(rt.alloc(), row, &kept)? {
            panic!(rt; "{row}");
        }
    }
    Ok(())
}
