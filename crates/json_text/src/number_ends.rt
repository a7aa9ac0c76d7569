//! Where numbers of JSON end.
ghost use Rattle.std.specs.Prelude.{◌≡◌, ℕ, None, ◌+◌, ◌<◌, ◌≤◌, List, length, slice_index, slice_range, IfOk, IfErr, Bool, true};
ghost use Rattle.std.specs.List.{list_all};
ghost use Rattle.json_text.specs.Kept.{Wishes, number};
ghost use Rattle.json_text.specs.Text.{IsNumber};
ghost use Rattle.json_text.specs.Cutting.{Phases, NumberTo, NumberStops, NumberCut, IsLexCode};
ghost use Rattle.json_text.specs.Lexing.{is_digit as digit_byte, is_whole as phase_is_whole, number_next as next_phase};
ghost use Rattle.json_text.specs.Machine.{Frame, in_number, finish, if_kept, from, fault};
ghost use Rattle.json_text.specs.declared.number.Phase.TheVariants.{Minus, Fraction};

use crate::fault::{JsonFault, not_json};
use crate::number::{Phase, is_whole, number_next};
use crate::scan::LANES;
use std::simd::prelude::*;

/// The place behind a numeral that begins at `start`, of which the part before `at` is read.
#[inline(never)]
fn number_rest(bytes: &[u8], start: usize, at: usize, phase: Phase) -> Result<usize, JsonFault>
    requires behind { start < at }
    requires within { at ≤ length bytes.now }
    requires no_minus { phase ≡ Minus → ⊥ }
    requires read { NumberTo phase (slice_range bytes.now start at) }
    ensures within { IfOk result (λ end. (start < end) × (end ≤ length bytes.now)) }
    ensures numeral { IfOk result (λ end. IsNumber (slice_range bytes.now start end)) }
    ensures stops { IfOk result (λ end. NumberStops bytes.now start end) }
    ensures cut { IfErr result (λ f. (start < f.at) × (f.at ≤ length bytes.now) × NumberCut bytes.now start f.at) }
    ensures code { IfErr result (λ f. IsLexCode f.code) }
    ensures number { IfOk result (λ end. (w : Wishes) (keep : Bool) (n : ℕ) (fs : List Frame)
        → from w bytes.now at (in_number keep start (slice_range bytes.now start at) phase n fs)
        ≡ from w bytes.now end (finish (if_kept keep start (number start (slice_range bytes.now start end))) n fs)) }
    ensures fault { IfErr result (λ f. (w : Wishes) (keep : Bool) (n : ℕ) (fs : List Frame)
        → from w bytes.now at (in_number keep start (slice_range bytes.now start at) phase n fs) ≡ fault f.code f.at) }
{
    let mut i = at;
    let mut now = phase;
    while i < bytes.len() {
        match number_next(now, bytes[i]) {
            Some(next) => {
                now = next;
                i += 1;
            }
            None => {
                if is_whole(now) {
                    return Ok(i);
                }
                return Err(not_json(i));
            }
        }
    }
    if is_whole(now) {
        Ok(i)
    } else {
        Err(not_json(i))
    }
}

/// Whether a byte is a digit.
fn is_digit(byte: u8) -> bool
    ensures { result ≡ digit_byte byte }
{
    b'0' <= byte && byte <= b'9'
}

/// How many of the bytes from a place on are digits before one that isn't, or before `LANES` are seen.
#[inline(always)]
fn digit_lanes(bytes: &[u8], at: usize) -> usize
    requires { at + 16 ≤ length bytes.now }
    ensures within { result ≤ 16 }
    ensures digits { list_all digit_byte (slice_range bytes.now at (at + result)) ≡ true }
{
    let lanes = u8x16::from_slice(&bytes[at..]);
    let marked = lanes.simd_lt(u8x16::splat(b'0')) | u8x16::splat(b'9').simd_lt(lanes);
    let mask = marked.to_bitmask();
    if mask == 0 {
        LANES
    } else {
        mask.trailing_zeros() as usize
    }
}

/// A place up to which each byte is a digit, by one look at some bytes together.
#[inline(always)]
fn digits_end(bytes: &[u8], at: usize) -> usize
    requires { at ≤ length bytes.now }
    ensures behind { at ≤ result }
    ensures within { result ≤ length bytes.now }
    ensures digits { list_all digit_byte (slice_range bytes.now at result) ≡ true }
{
    if bytes.len() - at < LANES {
        return at;
    }
    at + digit_lanes(bytes, at)
}

/// A place behind further digits of a numeral's whole part, in that phase.
#[inline(always)]
fn whole_end(bytes: &[u8], at: usize, phase: Phase) -> usize
    requires { at ≤ length bytes.now }
    ensures behind { at ≤ result }
    ensures within { result ≤ length bytes.now }
    ensures phases { Phases phase (slice_range bytes.now at result) phase }
{
    match phase {
        Phase::Whole => digits_end(bytes, at),
        _ => at,
    }
}

/// Whether a numeral goes on with a point and a digit.
#[inline(always)]
fn has_point(bytes: &[u8], at: usize, phase: Phase) -> bool
    requires { at ≤ length bytes.now }
    ensures { result ≡ true → (at + 2 ≤ length bytes.now) × Phases phase (slice_range bytes.now at (at + 2)) Fraction }
{
    if bytes.len() - at < 2 {
        return false;
    }
    match number_next(phase, bytes[at]) {
        Some(Phase::Dot) => is_digit(bytes[at + 1]),
        _ => false,
    }
}

/// A place to which a numeral goes on with digits and a point, and its phase there.
#[inline(always)]
fn digits_further(bytes: &[u8], at: usize, phase: Phase) -> (usize, Phase)
    requires { at ≤ length bytes.now }
    ensures behind { at ≤ result.0 }
    ensures within { result.0 ≤ length bytes.now }
    ensures phases { Phases phase (slice_range bytes.now at result.0) result.1 }
{
    let whole = whole_end(bytes, at, phase);
    if has_point(bytes, whole, phase) {
        return (digits_end(bytes, whole + 2), Phase::Fraction);
    }
    (whole, phase)
}

/// Whether a numeral ends before the byte at a place.
#[inline(always)]
fn stops_before(bytes: &[u8], at: usize, phase: Phase) -> bool
    requires { at ≤ length bytes.now }
    ensures { result ≡ true → (at < length bytes.now) × (next_phase phase (slice_index bytes.now at) ≡ None)
        × (phase_is_whole phase ≡ true) }
{
    if at == bytes.len() {
        return false;
    }
    match number_next(phase, bytes[at]) {
        Some(_) => false,
        None => is_whole(phase),
    }
}

/// The place behind a numeral that begins at `start`, of which the part before `at` is read. Most have a few digits, and a
/// few behind a point.
#[inline(always)]
pub fn number_end(bytes: &[u8], start: usize, at: usize, phase: Phase) -> Result<usize, JsonFault>
    requires behind { start < at }
    requires within { at ≤ length bytes.now }
    requires no_minus { phase ≡ Minus → ⊥ }
    requires read { NumberTo phase (slice_range bytes.now start at) }
    ensures within { IfOk result (λ end. (start < end) × (end ≤ length bytes.now)) }
    ensures numeral { IfOk result (λ end. IsNumber (slice_range bytes.now start end)) }
    ensures stops { IfOk result (λ end. NumberStops bytes.now start end) }
    ensures cut { IfErr result (λ f. (start < f.at) × (f.at ≤ length bytes.now) × NumberCut bytes.now start f.at) }
    ensures code { IfErr result (λ f. IsLexCode f.code) }
    ensures number { IfOk result (λ end. (w : Wishes) (keep : Bool) (n : ℕ) (fs : List Frame)
        → from w bytes.now at (in_number keep start (slice_range bytes.now start at) phase n fs)
        ≡ from w bytes.now end (finish (if_kept keep start (number start (slice_range bytes.now start end))) n fs)) }
    ensures fault { IfErr result (λ f. (w : Wishes) (keep : Bool) (n : ℕ) (fs : List Frame)
        → from w bytes.now at (in_number keep start (slice_range bytes.now start at) phase n fs) ≡ fault f.code f.at) }
{
    let (place, reached) = digits_further(bytes, at, phase);
    if stops_before(bytes, place, reached) {
        return Ok(place);
    }
    number_rest(bytes, start, place, reached)
}
