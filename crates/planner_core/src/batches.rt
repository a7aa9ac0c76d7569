//! What a batch holds, and the replies to what is done and held.
ghost use Rattle.std.specs.Prelude.{◌≡◌, ◌<◌, ◌≤◌, ◌∷◌, ◌++◌, [], Err, false, true, IfOk, OnErr, OnOk, length, nat_lt, vec_capacity, vec_len};
ghost use Rattle.std.specs.List.{list_all};
ghost use Rattle.state_changes.specs.Actions.{can_be_held};
ghost use Rattle.planner_core.specs.Replies.{done_reply, held_reply, refused_as};
ghost use Rattle.planner_core.specs.Lines.{changes_of, line_at};

use crate::refusals::refused_as;
use plan_base::NoMemory;
use plan_lines::{Change, RefusalCode, Reply};
use state_changes::put;
use std::alloc::Global;

/// The most changes that a batch holds.
pub const BATCH_LIMIT: usize = 1_024;

/// A list of one change.
pub fn one(alloc: Global, change: Change) -> Result<Vec<Change>, NoMemory>
    ensures { IfOk result (λ edits. edits.items ≡ change ∷ []) }
{
    let mut edits = Vec::new(alloc);
    edits.reserve(1)?;
    put(&mut edits, change);
    Ok(edits)
}

/// The reply to what is done.
pub fn done_reply(quiet: bool) -> Reply
    ensures { result ≡ done_reply quiet }
{
    if quiet { Reply::Nothing } else { Reply::Ok }
}

// The reply to a change that is held.
fn held_reply(quiet: bool) -> Reply
    ensures { result ≡ held_reply quiet }
{
    if quiet { Reply::Nothing } else { Reply::Held }
}

/// The line of a held change, where there is one.
pub fn line_at(held: &[(u32, Change)], place: u32) -> Option<u32>
    ensures { result ≡ line_at held.now place }
{
    match held.get(place as usize) {
        Some(change) => Some(change.0),
        None => None,
    }
}

/// Copies of the changes that are held.
pub fn copies(alloc: Global, held: &[(u32, Change)]) -> Result<Vec<Change>, NoMemory>
    ensures { IfOk result (λ edits. edits.items ≡ changes_of held.now) }
{
    let mut edits = Vec::new(alloc);
    for change in held {
        edits.reserve(1)?;
        let copy = change.1.copy(alloc)?;
        put(&mut edits, copy);
    }
    Ok(edits)
}

// Why a change isn't held.
#[derive(Clone, Copy)]
enum HoldFault {
    Full,
    NoMemory,
}

// Room for one more change in a batch.
fn room_in(held: &mut Vec<(u32, Change)>) -> Result<(), HoldFault>
    ensures same { held.new.items ≡ held.old.items }
    ensures room { OnOk result ((nat_lt (length held.old.items) 1_024 ≡ true) × (vec_len held.new < vec_capacity held.new)) }
    ensures full { result ≡ Err HoldFault.Full → nat_lt (length held.old.items) 1_024 ≡ false }
{
    if held.len() >= BATCH_LIMIT {
        return Err(HoldFault::Full);
    }
    if held.reserve(1).is_err() {
        return Err(HoldFault::NoMemory);
    }
    Ok(())
}

// The answer where there is no room.
fn no_room(fault: HoldFault) -> Result<Reply, NoMemory>
    ensures { IfOk result (λ answer. (fault ≡ HoldFault.Full) × (answer ≡ refused_as RefusalCode.H5)) }
{
    match fault {
        HoldFault::Full => Ok(refused_as(RefusalCode::H5)),
        HoldFault::NoMemory => Err(NoMemory),
    }
}

/// One more change for a batch, where there is room.
pub fn hold_in(
    held: &mut Vec<(u32, Change)>,
    line: u32,
    change: Change,
    quiet: bool,
) -> Result<Reply, NoMemory>
    requires held { list_all can_be_held (changes_of held.old.items) ≡ true }
    requires few { length (changes_of held.old.items) ≤ 1_024 }
    requires holdable { can_be_held change ≡ true }
    ensures full { nat_lt (length held.old.items) 1_024 ≡ false → IfOk result (λ answer. (held.new.items ≡ held.old.items) × (answer ≡ refused_as RefusalCode.H5)) }
    ensures room { nat_lt (length held.old.items) 1_024 ≡ true → IfOk result (λ answer. (held.new.items ≡ held.old.items ++ (line, change) ∷ []) × (answer ≡ held_reply quiet)) }
    ensures held { list_all can_be_held (changes_of held.new.items) ≡ true }
    ensures few { length (changes_of held.new.items) ≤ 1_024 }
    ensures err { OnErr result (held.new.items ≡ held.old.items) }
{
    match room_in(held) {
        Ok(()) => {
            put(held, (line, change));
            Ok(held_reply(quiet))
        }
        Err(fault) => no_room(fault),
    }
}
