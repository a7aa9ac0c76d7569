//! Lines of the script beside what another reader says of them.
use crate::line_rows::lines;
use crate::shown_commands::shown;
use plan_base::NoMemory;
use script_reader::read_line;
use std::alloc::Global;
use std::test::Fail;

fn said(out: &mut String, alloc: Global, line: &[u8]) -> Result<(), NoMemory> {
    let read = read_line(alloc, line);
    shown(out, alloc, &read)
}

fn says(alloc: Global, line: &[u8], wanted: &str) -> Result<bool, NoMemory> {
    let mut out = String::new(alloc);
    said(&mut out, alloc, line)?;
    Ok(out.as_str() == wanted)
}

#[test]
fn lines_say_what_another_reader_says(rt: HostRuntime) -> Result<(), Fail> {
    for row in lines().lines() {
        let Some((line, wanted)) = row.split_once(" => ") else {
            panic!(rt; "a line and what it says");
        };
        if !says(rt.alloc(), line.as_bytes(), wanted)? {
            panic!(rt; "{row}");
        }
    }
    Ok(())
}

// Bytes that are not in UTF-8, in a comment too.
#[test]
fn other_bytes_are_refused(rt: HostRuntime) -> Result<(), Fail> {
    assert!(rt; says(rt.alloc(), b"# \xff", "Q4")?);
    assert!(rt; says(rt.alloc(), b"reech \xc3(", "Q4")?);
    Ok(())
}
