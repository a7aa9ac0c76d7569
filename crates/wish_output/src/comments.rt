//! Comments that no longer hold behind the lines that give a table more rows.
use plan_base::NoMemory;
use plan_io::split_line;
use plan_report::printed_word;
use std::alloc::Global;
use std::str::from_utf8;
use wish_checks::noted_good;

// The lines of a script, and those that come behind them, which give more rows to a table.
#[derive(Clone, Copy)]
struct Grown<'a> {
    old: &'a [u8],
    new: &'a [u8],
    /// The table's name as it is printed.
    table: &'a str,
}

// What stands behind the words that import a good into a table, or no longer.
fn behind_import<'a>(line: &'a str, table: &str, good: &str) -> Option<&'a str> {
    line.strip_prefix("import ")?
        .strip_prefix(table)?
        .strip_prefix(" ")?
        .strip_prefix(good)?
        .strip_prefix(" ")
}

fn is_import(line: &[u8], table: &str, good: &str) -> bool {
    match from_utf8(line) {
        Ok(line) => behind_import(line, table, good).is_some(),
        Err(_) => false,
    }
}

// Whether some of these lines says how a good comes into a table from now on.
fn has_import(lines: &[u8], table: &str, good: &str) -> bool {
    let mut rest = lines;
    // Each line takes a byte at least.
    for _ in 0..lines.len() {
        if rest.is_empty() {
            break;
        }
        let (line, more) = split_line(rest);
        if is_import(line, table, good) {
            return true;
        }
        rest = more;
    }
    false
}

// Whether a line is the comment on an import of which the new lines say something else.
fn is_stale(grown: &Grown<'_>, line: &[u8]) -> bool {
    let Ok(line) = from_utf8(line) else {
        return false;
    };
    match noted_good(line, grown.table) {
        Some(good) => has_import(grown.new, grown.table, good),
        None => false,
    }
}

// All other lines, each with its end.
fn kept_lines(alloc: Global, grown: &Grown<'_>) -> Result<Vec<u8>, NoMemory> {
    let mut kept = Vec::new(alloc);
    let mut rest = grown.old;
    for _ in 0..grown.old.len() {
        if rest.is_empty() {
            break;
        }
        let (line, more) = split_line(rest);
        let (whole, _) = rest.split_at(rest.len() - more.len());
        if !is_stale(grown, line) {
            kept.extend_from_slice(whole)?;
        }
        rest = more;
    }
    kept.extend_from_slice(grown.new)?;
    Ok(kept)
}

/// A script, whose lines behind so many bytes give more rows to a table, without the comments that no longer hold: those that say that a good
/// comes into it at an estimate where the new lines say something else. Every other line is as it was.
///
/// # Errors
///
/// `NoMemory` where memory could not be had.
pub fn without_stale(
    alloc: Global,
    script: &[u8],
    before: usize,
    table: &str,
) -> Result<Vec<u8>, NoMemory> {
    let (old, new) = script.split_at(before.min(script.len()));
    let table = printed_word(alloc, table)?;
    let grown = Grown {
        old,
        new,
        table: table.as_str(),
    };
    kept_lines(alloc, &grown)
}
