// Reading a file to its end, or until it has passed its limit.
ghost use Rattle.std.specs.Prelude.{◌≡◌, ◌≢◌, ◌+◌, ◌^◌, ◌<◌, ◌≤◌, ◌++◌, ℕ, List, IfOk, IsErrOf, MatchResult, length, vec_len};
ghost use Rattle.std.specs.Io.KnownBytes.{Consumes, IsAtEnd};
ghost use Rattle.run_inputs.specs.Early.{EndsReading};
ghost use Rattle.run_inputs.specs.Inputs.{IsInput};
ghost use Rattle.run_inputs.specs.Begun.{BeginsOne};
ghost use Rattle.run_inputs.specs.Keeping.{KeepsSlots, KeepsStore};
ghost use Rattle.run_inputs.specs.Reading.{IsAll, IsReading, IsContent};
ghost use Rattle.run_inputs.specs.declared.input.ReadError.TheVariants.{Failed as ReadFailed, NoMemory as ReadNoMemory};

use crate::status::{Long, Status};
use plan_io::{Failed, Store};
use std::alloc::{AllocError, Global};

/// What was read of a file.
#[derive(Drop)]
pub enum Reading {
    Whole(Vec<u8>),
    TooLong,
}

#[derive(Clone, Copy, Debug, PartialEq, Eq)]
pub enum ReadError {
    Failed,
    NoMemory,
}

impl From<Failed> for ReadError {
    ghost from_gives = { λ _ e. e ≡ ReadFailed };

    fn from(_: Failed) -> Self {
        ReadError::Failed
    }
}

impl From<AllocError> for ReadError {
    ghost from_gives = { λ _ e. e ≡ ReadNoMemory };

    fn from(_: AllocError) -> Self {
        ReadError::NoMemory
    }
}

// Files are read by pieces of this many bytes.
const PIECE: usize = 65_536;

// Reads some bytes, and appends them to those that were read before.
fn read_piece<S: Store>(
    store: &mut S,
    slot: u32,
    most: usize,
    buffer: &mut [u8],
    bytes: &mut Vec<u8>,
) -> Result<usize, ReadError>
    requires open { slot < (S.begun store.old).slots }
    requires room { 0 < most }
    requires buffer { 0 < length buffer.old }
    ensures count { IfOk result (λ count. count ≤ most) }
    ensures len { IfOk result (λ count. vec_len bytes.new ≡ vec_len bytes.old + count) }
    ensures bytes { IfOk result (λ count. (piece : List ℕ) × (bytes.new.items ≡ bytes.old.items ++ piece)
        × Consumes (S.left store.old slot) (S.left store.new slot) piece) }
    ensures end { IfOk result (λ count. count ≡ 0 → IsAtEnd (S.left store.new slot)) }
    ensures begun { S.begun store.new ≡ S.begun store.old }
    ensures others { (k : ℕ) → k ≢ slot → S.left store.new k ≡ S.left store.old k }
    ensures store { KeepsStore (S.shelf store.old) (S.shelf store.new) (S.faults store.old) (S.faults store.new) (IsErrOf result ReadError.Failed) }
{
    let room = most.min(buffer.len());
    let count = store.read(slot, &mut buffer[..room])?;
    bytes.extend_from_slice(&buffer[..count])?;
    Ok(count)
}

// Reads what a slot has left by pieces of the buffer, to its end or until that has passed the limit.
fn read_pieces<S: Store>(
    alloc: Global,
    store: &mut S,
    slot: u32,
    limit: usize,
    buffer: &mut [u8],
) -> Result<Reading, ReadError>
    requires open { slot < (S.begun store.old).slots }
    requires limit { limit < 2 ^ 32 }
    requires buffer { 0 < length buffer.old }
    ensures reading { IfOk result (IsReading (IsAll (S.left store.old slot)) limit) }
    ensures begun { S.begun store.new ≡ S.begun store.old }
    ensures others { (k : ℕ) → k ≢ slot → S.left store.new k ≡ S.left store.old k }
    ensures store { KeepsStore (S.shelf store.old) (S.shelf store.new) (S.faults store.old) (S.faults store.new) (IsErrOf result ReadError.Failed) }
{
    let mut bytes = Vec::new(alloc);
    while bytes.len() <= limit {
        let most = limit - bytes.len() + 1;
        let count = read_piece(store, slot, most, buffer, &mut bytes)?;
        if count == 0 {
            return Ok(Reading::Whole(bytes));
        }
    }
    Ok(Reading::TooLong)
}

// Room for one piece.
fn piece_buffer(alloc: Global) -> Result<Vec<u8>, AllocError>
    ensures { IfOk result (λ buffer. 0 < vec_len buffer) }
{
    vec![in alloc; 0u8; PIECE]
}

// Reads what a slot has left, to its end or until that has passed the limit.
fn read_rest<S: Store>(
    alloc: Global,
    store: &mut S,
    slot: u32,
    limit: usize,
) -> Result<Reading, ReadError>
    requires open { slot < (S.begun store.old).slots }
    requires limit { limit < 2 ^ 32 }
    ensures reading { IfOk result (IsReading (IsAll (S.left store.old slot)) limit) }
    ensures begun { S.begun store.new ≡ S.begun store.old }
    ensures others { (k : ℕ) → k ≢ slot → S.left store.new k ≡ S.left store.old k }
    ensures store { KeepsStore (S.shelf store.old) (S.shelf store.new) (S.faults store.old) (S.faults store.new) (IsErrOf result ReadError.Failed) }
{
    let mut buffer = match piece_buffer(alloc) {
        Ok(buffer) => buffer,
        Err(_) => return Err(ReadError::NoMemory),
    };
    read_pieces(alloc, store, slot, limit, buffer.as_mut_slice())
}

// Reads the file of that name to its end, or until it has passed the limit.
fn read_file<S: Store>(
    alloc: Global,
    store: &mut S,
    name: &str,
    limit: usize,
) -> Result<Reading, ReadError>
    requires calls { (S.begun store.old).calls < 4 }
    requires limit { limit < 2 ^ 32 }
    ensures reading { IfOk result (IsReading (IsContent (S.shelf store.old) name.now) limit) }
    ensures begins { BeginsOne (S.shelf store.old) name.now (S.begun store.old) (S.begun store.new) }
    ensures slots { KeepsSlots (S.left store.old) (S.left store.new) (S.begun store.old).slots }
    ensures store { KeepsStore (S.shelf store.old) (S.shelf store.new) (S.faults store.old) (S.faults store.new) (IsErrOf result ReadError.Failed) }
{
    let slot = store.begin(name)?;
    read_rest(alloc, store, slot, limit)
}

/// The bytes of the file of that name.
///
/// # Errors
///
/// `TooLong` with the `long` given where they pass the limit, `ReadFault` where a call of the store failed, or `NoMemory`.
pub fn read_input<S: Store>(
    alloc: Global,
    store: &mut S,
    name: &str,
    limit: usize,
    long: Long,
) -> Result<Vec<u8>, Status>
    requires calls { (S.begun store.old).calls < 4 }
    requires limit { limit < 2 ^ 32 }
    ensures input { MatchResult result (λ bytes. IsInput (S.shelf store.old) name.now limit bytes.items) (EndsReading (S.shelf store.old) name.now limit long) }
    ensures begins { BeginsOne (S.shelf store.old) name.now (S.begun store.old) (S.begun store.new) }
    ensures slots { KeepsSlots (S.left store.old) (S.left store.new) (S.begun store.old).slots }
    ensures store { KeepsStore (S.shelf store.old) (S.shelf store.new) (S.faults store.old) (S.faults store.new) (IsErrOf result Status.ReadFault) }
{
    match read_file(alloc, store, name, limit) {
        Ok(Reading::Whole(bytes)) => Ok(bytes),
        Ok(Reading::TooLong) => Err(Status::TooLong(long)),
        Err(ReadError::Failed) => Err(Status::ReadFault),
        Err(ReadError::NoMemory) => Err(Status::NoMemory),
    }
}
