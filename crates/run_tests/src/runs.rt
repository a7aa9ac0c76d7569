//! Runs, and what each ends with and writes. The expected texts of reports are of another planner, which shares no code with this
//! one.
use crate::endings::{ends_so, fails_so};
use crate::memory::WORDS;
use crate::texts::{DUMP, EDITS, EDITS_REPORT, REPORT, SCRIPT, TABLES, TABLES_REPORT};
use std::alloc::Global;
use std::test::Fail;

#[test]
fn ranks_are_reported(rt: HostRuntime) -> Result<(), Fail> {
    assert!(rt; ends_so(rt.alloc(), DUMP, SCRIPT, 0, REPORT));
    Ok(())
}

#[test]
fn edits_are_reported(rt: HostRuntime) -> Result<(), Fail> {
    assert!(rt; ends_so(rt.alloc(), DUMP, EDITS, 1, EDITS_REPORT));
    Ok(())
}

#[test]
fn an_empty_script_is_done(rt: HostRuntime) -> Result<(), Fail> {
    assert!(rt; ends_so(rt.alloc(), "[]", "", 0, ""));
    Ok(())
}

#[test]
fn an_unknown_name_is_refused(rt: HostRuntime) -> Result<(), Fail> {
    let script = "reach item:x:y\nreach item:ore";
    let written = "1 refused X1 item:x:y\n2 reach item:ore rank 3\n";
    assert!(rt; ends_so(rt.alloc(), DUMP, script, 1, written));
    Ok(())
}

#[test]
fn tables_are_solved(rt: HostRuntime) -> Result<(), Fail> {
    assert!(rt; ends_so(rt.alloc(), DUMP, TABLES, 1, TABLES_REPORT));
    Ok(())
}

// Each row has a dump and what is written for it.
const BAD_DUMPS: [(&str, &str); 11] = [
    ("[ 1", "bad dump G8 J1 at 3\n"),
    ("{\"item\":{\"a\":1,\"a\":2}}", "bad dump G8 J3 at 17\n"),
    ("5", "bad dump G2 \"\" \"\" \"\"\n"),
    (
        "{\"recipe\":{\"r\":{\"result\":\"x\"}}}",
        "bad dump G1 recipe r ingredients\n",
    ),
    (
        "{\"recipe\":{\"a b\":{\"ingredients\":1,\"result\":\"x\"}}}",
        "bad dump G2 recipe \"a b\" ingredients\n",
    ),
    (
        "{\"recipe\":{\"\":{\"ingredients\":[],\"result\":\"x\"}}}",
        "bad dump G3 recipe \"\" result\n",
    ),
    (
        "{\"recipe\":{\"r\":{\"energy_required\":1e30,\"ingredients\":[],\"result\":\"x\"}}}",
        "bad dump G4 recipe r energy_required\n",
    ),
    (
        "{\"item\":{\"q\\\"\\\\\\n\\t\\r\":{\"fuel_value\":\"x\",\"fuel_category\":\"c\"}}}",
        "bad dump G5 item \"q\\\"\\\\\\n\\t\\r\" fuel_value\n",
    ),
    (
        "{\"item\":{\"a\":{}},\"tool\":{\"a\":{}}}",
        "bad dump G6 tool a \"\"\n",
    ),
    (
        "{\"furnace\":{\"f\":{\"crafting_speed\":0,\"crafting_categories\":[\"s\"],\"energy_usage\":\"90kW\",\"energy_source\":{\"type\":\"electric\"}}}}",
        "bad dump G7 furnace f crafting_speed\n",
    ),
    (
        "{\"recipe\":{\"#\":{\"ingredients\":1,\"result\":\"x\"}}}",
        "bad dump G2 recipe \"#\" ingredients\n",
    ),
];

fn are_bad_dumps(alloc: Global) -> bool {
    for (dump, written) in BAD_DUMPS {
        if !ends_so(alloc, dump, "", 3, written) {
            return false;
        }
    }
    true
}

#[test]
fn bad_dumps_are_told(rt: HostRuntime) -> Result<(), Fail> {
    assert!(rt; are_bad_dumps(rt.alloc()));
    Ok(())
}

// The script is not begun.
#[test]
fn a_bad_dump_is_told_before_a_missing_script(rt: HostRuntime) -> Result<(), Fail> {
    let files = [("d", b"[ 1".as_slice())];
    assert!(rt; fails_so(rt.alloc(), &WORDS, &files, 0, 0, 3, "bad dump G8 J1 at 3\n"));
    Ok(())
}

#[test]
fn a_missing_script_is_a_fault_of_reading(rt: HostRuntime) -> Result<(), Fail> {
    let files = [("d", DUMP.as_bytes())];
    assert!(rt; fails_so(rt.alloc(), &WORDS, &files, 0, 0, 4, ""));
    Ok(())
}

// The calls are: the dump is begun, read, and read at its end; the same of the script.
#[test]
fn calls_that_fail_are_faults_of_reading(rt: HostRuntime) -> Result<(), Fail> {
    let files = [("d", DUMP.as_bytes()), ("s", SCRIPT.as_bytes())];
    assert!(rt; fails_so(rt.alloc(), &WORDS, &files, 1, 0, 4, ""));
    assert!(rt; fails_so(rt.alloc(), &WORDS, &files, 3, 0, 4, ""));
    assert!(rt; fails_so(rt.alloc(), &WORDS, &files, 6, 0, 4, ""));
    assert!(rt; fails_so(rt.alloc(), &WORDS, &files, 7, 0, 0, REPORT));
    Ok(())
}

// Each reply is written before the next line is answered.
#[test]
fn writing_that_fails_leaves_the_replies_before(rt: HostRuntime) -> Result<(), Fail> {
    let files = [("d", DUMP.as_bytes()), ("s", SCRIPT.as_bytes())];
    assert!(rt; fails_so(rt.alloc(), &WORDS, &files, 0, 1, 5, ""));
    assert!(rt;
        fails_so(
            rt.alloc(),
            &WORDS,
            &files,
            0,
            2,
            5,
            "1 reach source:ore rank 2\n"
        )
    );
    Ok(())
}

fn lines(alloc: Global, count: usize) -> Option<Vec<u8>> {
    match vec![in alloc; b'\n'; count] {
        Ok(lines) => Some(lines),
        Err(_) => None,
    }
}

fn ends_so_of_lines(alloc: Global, count: usize, exit: u8, written: &str) -> bool {
    match lines(alloc, count) {
        Some(script) => {
            let files = [("d", DUMP.as_bytes()), ("s", script.as_slice())];
            fails_so(alloc, &WORDS, &files, 0, 0, exit, written)
        }
        None => false,
    }
}

#[test]
fn scripts_may_be_too_long(rt: HostRuntime) -> Result<(), Fail> {
    let alloc = rt.alloc();
    assert!(rt; ends_so_of_lines(alloc, 100_000, 0, ""));
    assert!(rt; ends_so_of_lines(alloc, 100_001, 7, "too long script lines\n"));
    assert!(rt; ends_so_of_lines(alloc, 16_777_216, 7, "too long script lines\n"));
    assert!(rt; ends_so_of_lines(alloc, 16_777_217, 7, "too long script bytes\n"));
    Ok(())
}
