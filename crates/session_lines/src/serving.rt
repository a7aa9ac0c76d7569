//! A session as it is served: lines come in, and each is answered before the next.
ghost use Rattle.std.specs.Prelude.{◌<◌, IfSome, length};
ghost use Rattle.std.specs.Io.{ReadsAtMost};

use crate::session::{BYTES, Session, SessionEnd, answer};
use crate::wishes::Wishes;
use plan_base::Steps;
use plan_io::{Sink, trim_return, write_all};
use planner_core::Planner;
use std::alloc::{AllocError, Global};
use std::io::Read;

// Input is read by pieces of this many bytes.
const PIECE: usize = 65_536;

// An answer with the mark of its end, in one piece, so that a reader is woken once.
fn marked(alloc: Global, answer: &str) -> Result<Vec<u8>, AllocError> {
    let mut bytes = Vec::with_capacity(alloc, answer.len().saturating_add(2))?;
    bytes.extend_from_slice(answer.as_bytes())?;
    bytes.extend_from_slice(b".\n")?;
    Ok(bytes)
}

fn write_marked<K: Sink>(alloc: Global, answer: &str, out: &mut K) -> Result<(), SessionEnd> {
    let Ok(bytes) = marked(alloc, answer) else {
        return Err(SessionEnd::NoMemory);
    };
    match write_all(out, bytes.as_slice()) {
        Ok(()) => Ok(()),
        Err(_) => Err(SessionEnd::WriteFault),
    }
}

// Answers a line, and writes the answer.
fn take_line<W: Wishes, K: Sink, L>(
    alloc: Global,
    planner: &mut Planner,
    session: &mut Session<W>,
    line: &[u8],
    bytes: usize,
    out: &mut K,
    steps: &mut Steps<L>,
) -> Result<(), SessionEnd> {
    let text = answer(alloc, planner, session, trim_return(line), bytes, steps)?;
    write_marked(alloc, text.as_str(), out)
}

// Puts more bytes behind those of a line that hasn't ended.
fn put_bytes(line: &mut Vec<u8>, more: &[u8]) -> Result<(), SessionEnd> {
    if line.len() > BYTES || more.len() > BYTES - line.len() {
        return Err(SessionEnd::TooManyBytes);
    }
    match line.extend_from_slice(more) {
        Ok(()) => Ok(()),
        Err(_) => Err(SessionEnd::NoMemory),
    }
}

// The place of the first newline.
fn newline_in(bytes: &[u8]) -> Option<usize>
    ensures { IfSome result (λ place. place < length bytes.now) }
{
    bytes.iter().position(|byte| *byte == b'\n')
}

// Takes the rest of a line that ends with a newline.
fn take_ended<W: Wishes, K: Sink, L>(
    alloc: Global,
    planner: &mut Planner,
    session: &mut Session<W>,
    line: &mut Vec<u8>,
    rest: &[u8],
    out: &mut K,
    steps: &mut Steps<L>,
) -> Result<(), SessionEnd> {
    put_bytes(line, rest)?;
    let bytes = line.len().saturating_add(1);
    take_line(alloc, planner, session, line.as_slice(), bytes, out, steps)?;
    line.clear();
    Ok(())
}

// Takes a piece of the input: the lines that end in it, and the front of the next.
fn take_piece<W: Wishes, K: Sink, L>(
    alloc: Global,
    planner: &mut Planner,
    session: &mut Session<W>,
    line: &mut Vec<u8>,
    piece: &[u8],
    out: &mut K,
    steps: &mut Steps<L>,
) -> Result<(), SessionEnd> {
    let mut rest = piece;
    // Each line that ends takes a byte at least.
    for turn in 0..piece.len() {
        let _turn = turn;
        let Some(place) = newline_in(rest) else {
            break;
        };
        let (front, behind) = rest.split_at(place);
        take_ended(alloc, planner, session, line, front, out, steps)?;
        rest = &behind[1..];
    }
    put_bytes(line, rest)
}

// Takes a last line that no newline ends.
fn take_last<W: Wishes, K: Sink, L>(
    alloc: Global,
    planner: &mut Planner,
    session: &mut Session<W>,
    line: &[u8],
    out: &mut K,
    steps: &mut Steps<L>,
) -> Result<(), SessionEnd> {
    if line.is_empty() {
        return Ok(());
    }
    take_line(alloc, planner, session, line, line.len(), out, steps)
}

// How it ends when the input has ended.
fn ended<W: Wishes>(session: &Session<W>, last: Result<(), SessionEnd>) -> SessionEnd {
    match last {
        Ok(()) => session.end(),
        Err(end) => end,
    }
}

// Reads a piece of the input.
fn read_piece<I: Read>(input: &mut I, buffer: &mut [u8]) -> Result<usize, SessionEnd>
    ensures { ReadsAtMost result buffer.new }
{
    match input.read(buffer) {
        Ok(count) => Ok(count),
        Err(_) => Err(SessionEnd::ReadFault),
    }
}

// Reads the input piece by piece, and answers its lines.
fn serve_by<W: Wishes, I: Read, K: Sink, L>(
    alloc: Global,
    planner: &mut Planner,
    session: &mut Session<W>,
    input: &mut I,
    buffer: &mut [u8],
    line: &mut Vec<u8>,
    out: &mut K,
    steps: &mut Steps<L>,
) -> Result<(), SessionEnd> {
    for turn in 0..u64::MAX {
        let _turn = turn;
        let count = read_piece(input, buffer)?;
        if count == 0 {
            return Ok(());
        }
        take_piece(alloc, planner, session, line, &buffer[..count], out, steps)?;
    }
    Ok(())
}

fn room(alloc: Global) -> Result<Vec<u8>, AllocError> {
    vec![in alloc; 0u8; PIECE]
}

/// Answers the lines of an input one after another, and writes each answer before the next line is answered.
pub fn serve<W: Wishes, I: Read, K: Sink, L>(
    alloc: Global,
    planner: &mut Planner,
    session: &mut Session<W>,
    input: &mut I,
    out: &mut K,
    steps: &mut Steps<L>,
) -> SessionEnd {
    let Ok(mut buffer) = room(alloc) else {
        return SessionEnd::NoMemory;
    };
    let mut line = Vec::new(alloc);
    match serve_by(
        alloc,
        planner,
        session,
        input,
        buffer.as_mut_slice(),
        &mut line,
        out,
        steps,
    ) {
        Ok(()) => {
            let last = take_last(alloc, planner, session, line.as_slice(), out, steps);
            ended(session, last)
        }
        Err(end) => end,
    }
}
