//! The pieces in which a report is put: each reply by itself, and of it at most so many bytes a call.

// Whether a reply ends at this place: its lines behind the first are indented.
fn ends_reply(bytes: &[u8], place: usize) -> bool {
    let behind = place.saturating_add(1);
    bytes.get(place).copied() == Some(b'\n') && bytes.get(behind).copied() != Some(b' ')
}

// How long the first reply is, or what is left of it.
fn reply_len(rest: &[u8]) -> usize {
    for place in 0..rest.len() {
        if ends_reply(rest, place) {
            return place.saturating_add(1);
        }
    }
    rest.len()
}

// How long the next piece is. A most of 0 is no bound.
fn piece_len(rest: &[u8], most: u32) -> usize {
    let reply = reply_len(rest);
    if most == 0 {
        reply
    } else {
        reply.min(most as usize)
    }
}

/// What is left of a report behind its next piece. A most of 0 is no bound.
pub fn behind_piece(rest: &[u8], most: u32) -> &[u8] {
    let len = piece_len(rest, most);
    rest.get(len..).unwrap_or(&[])
}

/// Whether these bytes are the front of a report that this rest follows.
pub fn is_front(written: &[u8], rest: &[u8], report: &[u8]) -> bool {
    report.strip_prefix(written) == Some(rest)
}
