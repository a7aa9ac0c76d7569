// Starts of lines that are read ahead of the lines.
use crate::LineStarts;
use plan_base::NodeId;

/// About the room that a line takes behind its start.
const BEHIND_START: usize = 24;

// About the room that a line with this start takes. It reads the end of the start, so that it comes from memory.
fn room_of_line(start: &str) -> usize {
    let quotes = usize::from(start.as_bytes().last() == Some(&b'"'));
    start.len().saturating_add(BEHIND_START + quotes)
}

/// About the room that the lines of these nodes take, where their starts are at hand.
///
/// None of these reads of memory waits for another, so that the starts come from there together.
pub fn room_of_lines(starts: Option<&LineStarts>, nodes: &[(NodeId, u32, bool)]) -> usize {
    let Some(starts) = starts else {
        return 0;
    };
    let mut room = 0usize;
    for (node, _, _) in nodes {
        if let Some(start) = starts.get(*node) {
            room = room.saturating_add(room_of_line(start));
        }
    }
    room
}
