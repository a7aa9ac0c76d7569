//! Files that are read beside a run.
use catalog_text::{ShownFields, read_shown};
use plan_base::NoMemory;
use run_inputs::DUMP_LIMIT;
use std::alloc::Global;
use std::fs;
use std::fs::File;
use std::io::Read;
use std::rt::Files;

// Files are read by pieces of this many bytes.
const PIECE: usize = 65_536;

// Puts what is read behind other bytes. Answers how many came.
fn read_piece<F: Read>(file: &mut F, buffer: &mut [u8], bytes: &mut Vec<u8>) -> Option<usize> {
    match file.read(buffer) {
        Ok(count) => match bytes.extend_from_slice(&buffer[..count]) {
            Ok(()) => Some(count),
            Err(_) => None,
        },
        Err(_) => None,
    }
}

// Reads a file to its end, or until it has passed the limit.
fn read_to_end<F: Read>(alloc: Global, file: &mut F, limit: usize) -> Option<Vec<u8>> {
    let mut buffer = vec![in alloc; 0u8; PIECE].ok()?;
    let mut bytes = Vec::new(alloc);
    for _ in 0..u64::MAX {
        if bytes.len() > limit {
            return None;
        }
        if read_piece(file, buffer.as_mut_slice(), &mut bytes)? == 0 {
            return Some(bytes);
        }
    }
    None
}

/// The bytes of a file that is kept and has at most so many. None of what isn't kept, as a pipe, and where it can't be read.
pub fn whole_file<R: Files>(rt: &R, alloc: Global, name: &str, limit: usize) -> Option<Vec<u8>> {
    let found = fs::metadata(rt, name).ok()?;
    if !found.is_file() || found.len() > limit as u64 {
        return None;
    }
    let mut file = File::open(rt, name).ok()?;
    read_to_end(alloc, &mut file, limit)
}

/// What is shown of the things of a dump; nothing where it can't be read again, as of a pipe.
///
/// # Errors
///
/// `NoMemory` where memory could not be had.
pub fn shown_in<R: Files>(rt: &R, alloc: Global, dump: &str) -> Result<ShownFields, NoMemory> {
    match whole_file(rt, alloc, dump, DUMP_LIMIT) {
        Some(bytes) => read_shown(alloc, bytes.as_slice()),
        None => Ok(ShownFields::new(alloc)),
    }
}
