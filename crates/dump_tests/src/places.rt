//! Lines and columns.
use program_runs::place_in;
use std::test::Fail;

// Whether the line, the column and the end are so behind so many bytes of a text.
fn stands(text: &str, at: usize, line: usize, column: usize, at_end: bool) -> bool {
    let bytes = text.as_bytes();
    if bytes.len() > 100 {
        return false;
    }
    let place = place_in(bytes, at);
    place.line == line && place.column == column && place.at_end == at_end
}

#[test]
fn the_first_line_counts_from_1(rt: HostRuntime) -> Result<(), Fail> {
    assert!(rt; stands("{\"a\"}", 0, 1, 1, false));
    assert!(rt; stands("{\"a\"}", 4, 1, 5, false));
    assert!(rt; stands("{\"a\"}", 5, 1, 6, true));
    assert!(rt; stands("", 0, 1, 1, true));
    Ok(())
}

#[test]
fn a_newline_ends_its_line(rt: HostRuntime) -> Result<(), Fail> {
    assert!(rt; stands("{\n\n  x", 1, 1, 2, false));
    assert!(rt; stands("{\n\n  x", 2, 2, 1, false));
    assert!(rt; stands("{\n\n  x", 3, 3, 1, false));
    assert!(rt; stands("{\n\n  x", 5, 3, 3, false));
    assert!(rt; stands("{\n\n  x", 6, 3, 4, true));
    assert!(rt; stands("{\n", 2, 2, 1, true));
    Ok(())
}

#[test]
fn columns_are_of_bytes(rt: HostRuntime) -> Result<(), Fail> {
    assert!(rt; stands("a\r\nb", 2, 1, 3, false));
    assert!(rt; stands("a\r\nb", 3, 2, 1, false));
    assert!(rt; stands("é!", 2, 1, 3, false));
    Ok(())
}

#[test]
fn a_place_behind_the_end_is_at_the_end(rt: HostRuntime) -> Result<(), Fail> {
    assert!(rt; stands("a\nb", 9, 2, 2, true));
    Ok(())
}
