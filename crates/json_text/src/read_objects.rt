//! The members of an object that is kept.
ghost use Rattle.std.specs.Prelude.{◌≡◌, ◌≢◌, ℕ, ◌<◌, ◌≤◌, List, [], length, IfOk, IfErr};
ghost use Rattle.json_text.specs.Kept.{object, is_kept};
ghost use Rattle.json_text.specs.Lending.{IsLentFrom, AllStandIn, member_parts};
ghost use Rattle.json_text.specs.Marking.{HasMarks};
ghost use Rattle.json_text.specs.Machine.{Frame, from, fault, NoSpaceAt, value, first_key, finish, kept_object, object_of};
ghost use Rattle.json_text.specs.Seen.{wishes};
ghost use Rattle.json_text.specs.SpanSeen.{span_seen, members_seen};
ghost use Rattle.json_text.specs.declared.fault.JsonCode.TheVariants.{NoMemory};

use crate::class::{Class, class_of};
use crate::fault::{JsonFault, no_memory, not_json};
use crate::kept_faults::{full_object, repeated, too_many};
use crate::keys::{add_late, has_key, is_wanted};
use crate::read::{MAX_KEPT, read_value};
use crate::scan::{colon_end, skip_space};
use crate::skip::passed_end;
use crate::span::{SpanMember, SpanNode, SpanTree};
use crate::strings::key_end;
use crate::text::string_text;
use crate::tree::Wanted;
use std::alloc::Global;
use std::collections::HashSet;

/// The members of an object, from behind its bracket.
#[cycle(read)]
pub fn read_object<'a>(
    alloc: Global,
    bytes: &'a [u8],
    at: usize,
    depth: u32,
    kept: u32,
    wanted: &Wanted,
    marks: &[u8],
) -> Result<(Vec<SpanMember<'a>>, usize, u32), JsonFault>
    requires marks { HasMarks wanted.now.fields.items marks.now }
    requires within { at ≤ length bytes.now }
    requires depth { depth < 200 }
    ensures within { IfOk result (λ r. (at < r.1) × (r.1 ≤ length bytes.now)) }
    ensures lent { IfOk result (λ r. AllStandIn bytes.now (member_parts r.0.items)) }
    ensures ok { IfOk result (λ r. (p : ℕ) (fs : List Frame) → length fs ≡ depth
        → from (wishes wanted.now) bytes.now at (first_key kept (kept_object p [] []) fs)
        ≡ from (wishes wanted.now) bytes.now r.1 (finish (object p (object_of (members_seen r.0.items))) r.2 fs)) }
    ensures fault { IfErr result (λ f. f.code ≢ NoMemory → (p : ℕ) (fs : List Frame) → length fs ≡ depth
        → from (wishes wanted.now) bytes.now at (first_key kept (kept_object p [] []) fs) ≡ fault f.code f.at) }
{
    let mut found = Vec::new(alloc);
    let mut place = skip_space(bytes, at);
    if place == bytes.len() {
        return Err(not_json(place));
    }
    if let Class::CloseObject = class_of(bytes[place]) {
        return Ok((found, place + 1, kept));
    }
    if kept >= MAX_KEPT {
        return Err(full_object(bytes, place));
    }
    let mut late = HashSet::new(alloc);
    let mut count = kept + 1;
    'members: loop {
        let (quote, plain) = match key_end(bytes, place) {
            Ok(found) => found,
            Err(fault) => return Err(fault),
        };
        let key = match string_text(alloc, bytes, place, quote, plain) {
            Ok(key) => key,
            Err(fault) => return Err(fault),
        };
        if has_key(found.as_slice(), &late, key.as_bytes()) {
            return Err(repeated(quote));
        }
        let start = match colon_end(bytes, quote + 1) {
            Ok(start) => start,
            Err(fault) => return Err(fault),
        };
        let (value, end, now) = match member_value(
            alloc,
            bytes,
            start,
            depth + 1,
            count,
            wanted,
            marks,
            key.as_bytes(),
        ) {
            Ok(read) => read,
            Err(fault) => return Err(fault),
        };
        match add_late(alloc, &mut late, found.as_slice(), &key) {
            Ok(_) => {}
            Err(fault) => return Err(fault),
        }
        if let Err(_) = found.push(SpanMember { key, value }) {
            return Err(no_memory());
        }
        let next = skip_space(bytes, end);
        if next == bytes.len() {
            return Err(not_json(next));
        }
        match class_of(bytes[next]) {
            Class::Comma => {
                if now >= MAX_KEPT {
                    return Err(too_many(next));
                }
                count = now + 1;
                place = skip_space(bytes, next + 1);
            }
            Class::CloseObject => return Ok((found, next + 1, now)),
            _ => return Err(not_json(next)),
        }
    }
}

/// The value of a member, kept or skipped as its key wants it.
#[cycle(read)]
fn member_value<'a>(
    alloc: Global,
    bytes: &'a [u8],
    at: usize,
    depth: u32,
    kept: u32,
    wanted: &Wanted,
    marks: &[u8],
    key: &[u8],
) -> Result<(SpanTree<'a>, usize, u32), JsonFault>
    requires marks { HasMarks wanted.now.fields.items marks.now }
    requires within { at ≤ length bytes.now }
    requires no_space { NoSpaceAt bytes.now at }
    requires depth { depth ≤ 200 }
    ensures within { IfOk result (λ r. (at < r.1) × (r.1 ≤ length bytes.now)) }
    ensures place { IfOk result (λ r. r.0.at ≡ at) }
    ensures lent { IfOk result (λ r. IsLentFrom bytes.now r.0) }
    ensures ok { IfOk result (λ r. (fs : List Frame) → length fs ≡ depth
        → from (wishes wanted.now) bytes.now at (value (is_kept (wishes wanted.now) depth key.now) kept fs)
        ≡ from (wishes wanted.now) bytes.now r.1 (finish (span_seen r.0) r.2 fs)) }
    ensures fault { IfErr result (λ f. f.code ≢ NoMemory → (fs : List Frame) → length fs ≡ depth
        → from (wishes wanted.now) bytes.now at (value (is_kept (wishes wanted.now) depth key.now) kept fs) ≡ fault f.code f.at) }
{
    if is_wanted(wanted, marks, depth, key) {
        return read_value(alloc, bytes, at, depth, kept, wanted, marks);
    }
    let end = passed_end(bytes, at, depth)?;
    Ok((
        SpanTree {
            at,
            node: SpanNode::Skipped,
        },
        end,
        kept,
    ))
}
