//! Where strings of JSON end, and whether they stand for themselves.
ghost use Rattle.std.specs.Prelude.{◌≡◌, ℕ, ◌+◌, ◌<◌, ◌≤◌, List, [], ◌==◌, ◌&&◌, not, length, slice_index, slice_range, IfOk, IfErr, true, false};
ghost use Rattle.std.specs.List.{list_all};
ghost use Rattle.json_text.specs.Kept.{Wishes};
ghost use Rattle.json_text.specs.Cutting.{StringCut, IsLexCode};
ghost use Rattle.json_text.specs.Lending.{IsUnmarked, HasEscape};
ghost use Rattle.json_text.specs.Lexing.{is_plain as plain_byte, LexRuns, lex_end, lexed};
ghost use Rattle.json_text.specs.Wide.{begins_wide as wide_byte, is_tail as tail_byte, IsWideAt};
ghost use Rattle.json_text.specs.Machine.{Frame, Purpose, for_key, key, in_string, string_end as end_of_string, from, fault, NoSpaceAt};
ghost use Rattle.json_text.specs.declared.lex.Lex.TheVariants.{Between};

use crate::class::{Class, class_of};
use crate::fault::{JsonFault, not_json};
use crate::lex::{Lex, LexGo, lex_next};
use crate::scan::LANES;
use std::simd::prelude::*;

/// Whether a byte stands for itself in a string, as a character of its own.
fn is_plain(byte: u8) -> bool
    ensures { result ≡ plain_byte byte }
{
    32 <= byte && byte < 128 && byte != b'"' && byte != b'\\'
}

/// How many of the bytes from a place on stand for themselves before one that doesn't, or before `LANES` are seen.
#[inline(always)]
fn plain_lanes(bytes: &[u8], at: usize) -> usize
    requires { at + 16 ≤ length bytes.now }
    ensures within { result ≤ 16 }
    ensures plain { list_all plain_byte (slice_range bytes.now at (at + result)) ≡ true }
{
    let lanes = u8x16::from_slice(&bytes[at..]);
    let marked = lanes.simd_lt(u8x16::splat(b' '))
        | u8x16::splat(127).simd_lt(lanes)
        | lanes.simd_eq(u8x16::splat(b'"'))
        | lanes.simd_eq(u8x16::splat(b'\\'));
    let mask = marked.to_bitmask();
    if mask == 0 {
        LANES
    } else {
        mask.trailing_zeros() as usize
    }
}

/// A place up to which each byte stands for itself, by one look at some bytes together.
#[inline(always)]
pub fn front_end(bytes: &[u8], at: usize) -> usize
    requires { at ≤ length bytes.now }
    ensures behind { at ≤ result }
    ensures within { result ≤ length bytes.now }
    ensures plain { list_all plain_byte (slice_range bytes.now at result) ≡ true }
{
    if bytes.len() - at < LANES {
        return at;
    }
    at + plain_lanes(bytes, at)
}

/// A place up to which each byte stands for itself.
fn plain_end(bytes: &[u8], at: usize) -> usize
    requires { at ≤ length bytes.now }
    ensures behind { at ≤ result }
    ensures within { result ≤ length bytes.now }
    ensures plain { list_all plain_byte (slice_range bytes.now at result) ≡ true }
{
    let mut i = at;
    'lanes: while bytes.len() - i >= LANES {
        let more = plain_lanes(bytes, i);
        i += more;
        if more < LANES {
            return i;
        }
    }
    while i < bytes.len() && is_plain(bytes[i]) {
        i += 1;
    }
    i
}

/// Whether a byte begins a character of three bytes whose second may be any that goes on.
fn begins_wide(byte: u8) -> bool
    ensures { result ≡ wide_byte byte }
{
    (225 <= byte && byte <= 236) || byte == 238 || byte == 239
}

/// Whether a byte goes on a character.
fn is_tail(byte: u8) -> bool
    ensures { result ≡ tail_byte byte }
{
    128 <= byte && byte <= 191
}

/// Whether such a character of three bytes stands at a place.
#[inline(always)]
fn is_wide(bytes: &[u8], at: usize) -> bool
    requires { at ≤ length bytes.now }
    ensures { result ≡ true → IsWideAt bytes.now at }
{
    if bytes.len() - at < 3 {
        return false;
    }
    if !begins_wide(bytes[at]) {
        return false;
    }
    if !is_tail(bytes[at + 1]) {
        return false;
    }
    is_tail(bytes[at + 2])
}

/// The place behind a character of a string, which begins at a place.
fn char_end(bytes: &[u8], at: usize) -> Result<usize, JsonFault>
    requires within { at < length bytes.now }
    requires no_quote { slice_index bytes.now at ≡ 34 → ⊥ }
    ensures within { IfOk result (λ end. (at < end) × (end ≤ length bytes.now)) }
    ensures runs { IfOk result (λ end. LexRuns Between (slice_range bytes.now at end)) }
    ensures whole { IfOk result (λ end. lex_end Between (slice_range bytes.now at end) ≡ Between) }
    ensures unmarked { IfOk result (λ end. (slice_index bytes.now at ≡ 92 → ⊥) → IsUnmarked (slice_range bytes.now at end)) }
    ensures cut { IfErr result (λ f. (at ≤ f.at) × (f.at ≤ length bytes.now) × LexRuns Between (slice_range bytes.now at f.at)) }
    ensures code { IfErr result (λ f. IsLexCode f.code) }
    ensures fault { IfErr result (λ f. (w : Wishes) (q : Purpose) (s : List ℕ) (n : ℕ) (fs : List Frame)
        → from w bytes.now at (in_string q s Between n fs) ≡ fault f.code f.at) }
{
    if is_wide(bytes, at) {
        return Ok(at + 3);
    }
    let mut i = at;
    let mut lex = Lex::Between;
    'bytes: while i < bytes.len() {
        match lex_next(lex, bytes[i]) {
            LexGo::Goes(next) => {
                if let Lex::Between = next {
                    return Ok(i + 1);
                }
                lex = next;
                i += 1;
            }
            LexGo::Ends => unreachable!(),
            LexGo::Bad(code) => return Err(JsonFault { code, at: i }),
        }
    }
    Err(not_json(i))
}

/// Whether a string still has no escape behind a character that begins with a byte.
fn stays_plain(plain: bool, byte: u8) -> bool
    ensures { result ≡ (plain && not (byte == 92)) }
{
    plain && byte != b'\\'
}

/// The place of the quote that ends a string, which begins at `start`, and whether it has no escape. The bytes before `at`
/// stand for themselves.
#[inline(never)]
pub fn string_rest(bytes: &[u8], start: usize, at: usize) -> Result<(usize, bool), JsonFault>
    requires behind { start ≤ at }
    requires within { at ≤ length bytes.now }
    requires plain { list_all plain_byte (slice_range bytes.now start at) ≡ true }
    ensures within { IfOk result (λ r. (start ≤ r.0) × (r.0 < length bytes.now)) }
    ensures runs { IfOk result (λ r. LexRuns Between (slice_range bytes.now start r.0)) }
    ensures whole { IfOk result (λ r. lex_end Between (slice_range bytes.now start r.0) ≡ Between) }
    ensures quote { IfOk result (λ r. slice_index bytes.now r.0 ≡ 34) }
    ensures plain { IfOk result (λ r. r.1 ≡ true → IsUnmarked (slice_range bytes.now start r.0)) }
    ensures escape { IfOk result (λ r. r.1 ≡ false → HasEscape bytes.now start r.0) }
    ensures cut { IfErr result (λ f. (start ≤ f.at) × (f.at ≤ length bytes.now) × LexRuns Between (slice_range bytes.now start f.at)) }
    ensures code { IfErr result (λ f. IsLexCode f.code) }
    ensures text { IfOk result (λ r. (w : Wishes) (q : Purpose) (n : ℕ) (fs : List Frame)
        → from w bytes.now start (in_string q [] Between n fs)
        ≡ from w bytes.now (r.0 + 1) (end_of_string r.0 q (lexed Between (slice_range bytes.now start r.0)) n fs)) }
    ensures fault { IfErr result (λ f. (w : Wishes) (q : Purpose) (n : ℕ) (fs : List Frame)
        → from w bytes.now start (in_string q [] Between n fs) ≡ fault f.code f.at) }
{
    let mut i = at;
    let mut plain = true;
    'chars: loop {
        let place = plain_end(bytes, i);
        if place == bytes.len() {
            return Err(not_json(place));
        }
        let byte = bytes[place];
        if byte == b'"' {
            return Ok((place, plain));
        }
        match char_end(bytes, place) {
            Ok(end) => {
                plain = stays_plain(plain, byte);
                i = end;
            }
            Err(fault) => return Err(fault),
        }
    }
}

/// Whether a quote stands at a place.
#[inline(always)]
pub fn has_quote(bytes: &[u8], at: usize) -> bool
    requires { at ≤ length bytes.now }
    ensures { result ≡ true → (at < length bytes.now) × (slice_index bytes.now at ≡ 34) }
{
    if at == bytes.len() {
        return false;
    }
    bytes[at] == b'"'
}

/// The place of the quote that ends a string, which begins at a place, and whether it has no escape. Most end among the
/// bytes that are looked at together, with none.
#[inline(always)]
pub fn string_end(bytes: &[u8], at: usize) -> Result<(usize, bool), JsonFault>
    requires { at ≤ length bytes.now }
    ensures within { IfOk result (λ r. (at ≤ r.0) × (r.0 < length bytes.now)) }
    ensures runs { IfOk result (λ r. LexRuns Between (slice_range bytes.now at r.0)) }
    ensures whole { IfOk result (λ r. lex_end Between (slice_range bytes.now at r.0) ≡ Between) }
    ensures quote { IfOk result (λ r. slice_index bytes.now r.0 ≡ 34) }
    ensures plain { IfOk result (λ r. r.1 ≡ true → IsUnmarked (slice_range bytes.now at r.0)) }
    ensures escape { IfOk result (λ r. r.1 ≡ false → HasEscape bytes.now at r.0) }
    ensures cut { IfErr result (λ f. (at ≤ f.at) × (f.at ≤ length bytes.now) × LexRuns Between (slice_range bytes.now at f.at)) }
    ensures code { IfErr result (λ f. IsLexCode f.code) }
    ensures text { IfOk result (λ r. (w : Wishes) (q : Purpose) (n : ℕ) (fs : List Frame)
        → from w bytes.now at (in_string q [] Between n fs)
        ≡ from w bytes.now (r.0 + 1) (end_of_string r.0 q (lexed Between (slice_range bytes.now at r.0)) n fs)) }
    ensures fault { IfErr result (λ f. (w : Wishes) (q : Purpose) (n : ℕ) (fs : List Frame)
        → from w bytes.now at (in_string q [] Between n fs) ≡ fault f.code f.at) }
{
    let place = front_end(bytes, at);
    if has_quote(bytes, place) {
        return Ok((place, true));
    }
    string_rest(bytes, at, place)
}

/// A key that begins at a place: the place of the quote that ends it, and whether it has no escape.
pub fn key_end(bytes: &[u8], at: usize) -> Result<(usize, bool), JsonFault>
    requires within { at ≤ length bytes.now }
    requires no_space { NoSpaceAt bytes.now at }
    ensures within { IfOk result (λ r. (at < r.0) × (r.0 < length bytes.now)) }
    ensures runs { IfOk result (λ r. LexRuns Between (slice_range bytes.now (at + 1) r.0)) }
    ensures whole { IfOk result (λ r. lex_end Between (slice_range bytes.now (at + 1) r.0) ≡ Between) }
    ensures opens { IfOk result (λ r. slice_index bytes.now at ≡ 34) }
    ensures quote { IfOk result (λ r. slice_index bytes.now r.0 ≡ 34) }
    ensures plain { IfOk result (λ r. r.1 ≡ true → IsUnmarked (slice_range bytes.now (at + 1) r.0)) }
    ensures escape { IfOk result (λ r. r.1 ≡ false → HasEscape bytes.now (at + 1) r.0) }
    ensures cut { IfErr result (λ e. StringCut bytes.now at e.at) }
    ensures code { IfErr result (λ f. IsLexCode f.code) }
    ensures key { IfOk result (λ r. (w : Wishes) (n : ℕ) (f : Frame) (fs : List Frame)
        → from w bytes.now at (key n f fs)
        ≡ from w bytes.now (r.0 + 1) (end_of_string r.0 (for_key f) (lexed Between (slice_range bytes.now (at + 1) r.0)) n fs)) }
    ensures fault { IfErr result (λ e. (w : Wishes) (n : ℕ) (f : Frame) (fs : List Frame)
        → from w bytes.now at (key n f fs) ≡ fault e.code e.at) }
{
    if at == bytes.len() {
        return Err(not_json(at));
    }
    match class_of(bytes[at]) {
        Class::Quote => string_end(bytes, at + 1),
        _ => Err(not_json(at)),
    }
}
