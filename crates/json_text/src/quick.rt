//! The ends of values that are passed over, by one number each: the place itself stands for a value that has a fault.
ghost use Rattle.std.specs.Prelude.{◌≡◌, ◌+◌, ◌<◌, ◌≤◌, length, slice_index};
ghost use Rattle.std.specs.Prelude.{slice_range, true};
ghost use Rattle.std.specs.List.{list_all};
ghost use Rattle.json_text.specs.Lexing.{is_plain as plain_byte};
ghost use Rattle.json_text.specs.Machine.{class, NoSpaceAt, IsScalarAt};
ghost use Rattle.json_text.specs.Passing.{EndsString, EndsKey, IsPassed};
ghost use Rattle.json_text.specs.declared.class.Class.TheVariants.{Quote as quote_class, OpenList as list_class, OpenObject as object_class};

use crate::class::{Class, class_of};
use crate::literals::scalar_end;
use crate::scan::{colon_end, skip_space};
use crate::skip::MAX_OPEN;
use crate::strings::{front_end, has_quote, string_rest};

/// The place of the quote that ends a string, which begins at `start`, or the length. The bytes before `at` stand for
/// themselves.
#[inline(never)]
fn later_quote(bytes: &[u8], start: usize, at: usize) -> usize
    requires behind { start ≤ at }
    requires within { at ≤ length bytes.now }
    requires plain { list_all plain_byte (slice_range bytes.now start at) ≡ true }
    ensures within { result ≤ length bytes.now }
    ensures found { result < length bytes.now → EndsString bytes.now start result }
{
    match string_rest(bytes, start, at) {
        Ok((quote, _)) => quote,
        Err(_) => bytes.len(),
    }
}

/// The place of the quote that ends a string, which begins at a place, or the length where there is none.
#[inline(always)]
fn quick_quote(bytes: &[u8], at: usize) -> usize
    requires { at ≤ length bytes.now }
    ensures within { result ≤ length bytes.now }
    ensures found { result < length bytes.now → EndsString bytes.now at result }
{
    let place = front_end(bytes, at);
    if has_quote(bytes, place) {
        return place;
    }
    later_quote(bytes, at, place)
}

/// The place of the quote that ends the key that begins at a place, or the length where there is none.
#[inline(always)]
fn quick_key(bytes: &[u8], at: usize) -> usize
    requires { at ≤ length bytes.now }
    ensures within { result ≤ length bytes.now }
    ensures found { result < length bytes.now → EndsKey bytes.now at result }
{
    if at == bytes.len() {
        return at;
    }
    match class_of(bytes[at]) {
        Class::Quote => quick_quote(bytes, at + 1),
        _ => bytes.len(),
    }
}

/// The place behind the string that begins at a place.
#[inline(always)]
fn quick_string(bytes: &[u8], at: usize, depth: u32) -> usize
    requires within { at < length bytes.now }
    requires opens { class (slice_index bytes.now at) ≡ quote_class }
    requires depth { depth ≤ 200 }
    ensures behind { at ≤ result }
    ensures within { result ≤ length bytes.now }
    ensures passed { at < result → IsPassed bytes.now at depth result }
{
    let quote = quick_quote(bytes, at + 1);
    if quote == bytes.len() {
        return at;
    }
    quote + 1
}

/// The place behind the number or the word that begins at a place.
#[inline(never)]
fn quick_scalar(bytes: &[u8], at: usize, depth: u32) -> usize
    requires within { at < length bytes.now }
    requires scalar { IsScalarAt bytes.now at }
    requires depth { depth ≤ 200 }
    ensures behind { at ≤ result }
    ensures within { result ≤ length bytes.now }
    ensures passed { at < result → IsPassed bytes.now at depth result }
{
    match scalar_end(bytes, at) {
        Ok((_, end)) => end,
        Err(_) => at,
    }
}

/// The place behind a value that isn't kept, with that many containers open round it.
#[cycle(quick)]
#[inline(always)]
pub fn quick_end(bytes: &[u8], at: usize, depth: u32) -> usize
    requires within { at ≤ length bytes.now }
    requires no_space { NoSpaceAt bytes.now at }
    requires depth { depth ≤ 200 }
    ensures behind { at ≤ result }
    ensures within { result ≤ length bytes.now }
    ensures passed { at < result → IsPassed bytes.now at depth result }
{
    if at == bytes.len() {
        return at;
    }
    match class_of(bytes[at]) {
        Class::Quote => quick_string(bytes, at, depth),
        Class::OpenList => quick_list(bytes, at, depth),
        Class::OpenObject => quick_object(bytes, at, depth),
        _ => quick_scalar(bytes, at, depth),
    }
}

/// The place behind the list that begins at a place.
#[cycle(quick)]
fn quick_list(bytes: &[u8], at: usize, depth: u32) -> usize
    requires within { at < length bytes.now }
    requires opens { class (slice_index bytes.now at) ≡ list_class }
    requires depth { depth ≤ 200 }
    ensures behind { at ≤ result }
    ensures within { result ≤ length bytes.now }
    ensures passed { at < result → IsPassed bytes.now at depth result }
{
    if depth == MAX_OPEN {
        return at;
    }
    let mut place = skip_space(bytes, at + 1);
    if place == bytes.len() {
        return at;
    }
    if let Class::CloseList = class_of(bytes[place]) {
        return place + 1;
    }
    'elements: loop {
        let end = quick_end(bytes, place, depth + 1);
        if end == place {
            return at;
        }
        let next = skip_space(bytes, end);
        if next == bytes.len() {
            return at;
        }
        match class_of(bytes[next]) {
            Class::Comma => place = skip_space(bytes, next + 1),
            Class::CloseList => return next + 1,
            _ => return at,
        }
    }
}

/// The place behind the object that begins at a place.
#[cycle(quick)]
fn quick_object(bytes: &[u8], at: usize, depth: u32) -> usize
    requires within { at < length bytes.now }
    requires opens { class (slice_index bytes.now at) ≡ object_class }
    requires depth { depth ≤ 200 }
    ensures behind { at ≤ result }
    ensures within { result ≤ length bytes.now }
    ensures passed { at < result → IsPassed bytes.now at depth result }
{
    if depth == MAX_OPEN {
        return at;
    }
    let mut place = skip_space(bytes, at + 1);
    if place == bytes.len() {
        return at;
    }
    if let Class::CloseObject = class_of(bytes[place]) {
        return place + 1;
    }
    'members: loop {
        let quote = quick_key(bytes, place);
        if quote == bytes.len() {
            return at;
        }
        let start = match colon_end(bytes, quote + 1) {
            Ok(start) => start,
            Err(_) => return at,
        };
        let end = quick_end(bytes, start, depth + 1);
        if end == start {
            return at;
        }
        let next = skip_space(bytes, end);
        if next == bytes.len() {
            return at;
        }
        match class_of(bytes[next]) {
            Class::Comma => place = skip_space(bytes, next + 1),
            Class::CloseObject => return next + 1,
            _ => return at,
        }
    }
}
