//! The lines in force, as they are told.
use crate::answers::{Done, push_count, push_text};
use crate::forced::{Forced, ForcedLine};
use plan_base::NoMemory;

fn open_word(is_open: bool) -> &'static str {
    if is_open {
        " batch open"
    } else {
        " batch closed"
    }
}

fn quiet_word(is_quiet: bool) -> &'static str {
    if is_quiet { " quiet on" } else { " quiet off" }
}

fn push_head(out: &mut String, forced: &Forced) -> Done {
    push_text(out, "? state done")?;
    push_count(out, forced.done.len() as u64)?;
    push_text(out, " undone")?;
    push_count(out, forced.undone.len() as u64)?;
    push_text(out, open_word(forced.batch.is_some()))?;
    push_text(out, quiet_word(forced.quiet))?;
    push_text(out, "\n")
}

fn push_line(out: &mut String, line: &ForcedLine) -> Done {
    let number = line.number;
    write!(out, " {number} ")?;
    push_text(out, line.text.as_str())?;
    push_text(out, "\n")
}

// The lines of an entry.
fn push_entry(out: &mut String, head: &str, entry: u64, lines: &[ForcedLine]) -> Done {
    for line in lines {
        push_text(out, head)?;
        push_count(out, entry)?;
        push_line(out, line)?;
    }
    Ok(())
}

fn push_done(out: &mut String, done: &[Vec<ForcedLine>]) -> Done {
    let mut entry: u64 = 0;
    for lines in done {
        entry = entry.saturating_add(1);
        push_entry(out, " ", entry, lines.as_slice())?;
    }
    Ok(())
}

fn push_held(out: &mut String, lines: &[ForcedLine]) -> Done {
    for line in lines {
        push_text(out, "  held")?;
        push_line(out, line)?;
    }
    Ok(())
}

// The entries that are undone, the next to be done again first.
fn push_undone(out: &mut String, first: u64, undone: &[Vec<ForcedLine>]) -> Done {
    let mut entry = first;
    for lines in undone.iter().rev() {
        entry = entry.saturating_add(1);
        push_entry(out, "  undone", entry, lines.as_slice())?;
    }
    Ok(())
}

/// Writes the lines in force, those that an open batch holds, and those that were undone.
pub fn push_state(out: &mut String, forced: &Forced) -> Result<(), NoMemory> {
    push_head(out, forced)?;
    push_done(out, forced.done.as_slice())?;
    if let Some(held) = &forced.batch {
        push_held(out, held.as_slice())?;
    }
    push_undone(out, forced.done.len() as u64, forced.undone.as_slice())
}
