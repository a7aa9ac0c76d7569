// What is said of a dump that is refused.
ghost use Rattle.std.specs.Prelude.{◌≡◌, IfOk, option_copied, option_map, string_bytes};
ghost use Rattle.program_runs.specs.Faults.{fault_text, begins_with, front_text, field_text, field_words, json_text, json_text_at, json_words, kind_text, known_place, part, words_at};

use crate::place::{Place, place_in};
use craft_reader::{DumpCode, DumpFault};
use json_text::{JsonCode, JsonFault};
use plan_report::printed_word;
use run_inputs::DUMP_LIMIT;
use std::alloc::{AllocError, Global};

fn json_words(code: JsonCode) -> &'static str
    ensures { result.now ≡ json_words code }
{
    match code {
        JsonCode::NotJson => "no JSON goes on like this",
        JsonCode::TooDeep => "more than 200 lists and objects stand in one another",
        JsonCode::Repeated => "its object has this key already",
        JsonCode::NotUtf8 => "this is no UTF-8",
        JsonCode::TooMany => "there are more than 16,777,216 values",
        JsonCode::NoMemory => "no memory is left",
    }
}

fn words_at(place: Place, code: JsonCode) -> &'static str
    ensures { result.now ≡ words_at place code }
{
    if place.at_end {
        "the file ends here, and its JSON does not"
    } else {
        json_words(code)
    }
}

// The place behind so many bytes of the dump, where it can be told.
fn known_place(dump: Option<&[u8]>, at: usize) -> Option<Place>
    ensures { result ≡ known_place (option_copied dump.entry) at }
{
    let bytes = dump?;
    if at <= bytes.len() && bytes.len() <= DUMP_LIMIT {
        Some(place_in(bytes, at))
    } else {
        None
    }
}

// A fault of JSON at its place.
fn text_at(alloc: Global, place: Place, fault: JsonFault) -> Result<String, AllocError>
    ensures { IfOk result (λ text. string_bytes text ≡ json_text_at (Some place) fault) }
{
    let line = place.line;
    let column = place.column;
    let what = words_at(place, fault.code);
    format!(in alloc; "line {line}, column {column}: {what}")
}

// A fault of JSON by the number of bytes before it.
fn text_after(alloc: Global, fault: JsonFault) -> Result<String, AllocError>
    ensures { IfOk result (λ text. string_bytes text ≡ json_text_at None fault) }
{
    let at = fault.at;
    let what = json_words(fault.code);
    format!(in alloc; "after {at} bytes: {what}")
}

// The text of a place, or of no place.
fn placed_text(alloc: Global, fault: JsonFault, place: Option<Place>) -> Result<String, AllocError>
    ensures { IfOk result (λ text. string_bytes text ≡ json_text_at place fault) }
{
    match place {
        Some(place) => text_at(alloc, place, fault),
        None => text_after(alloc, fault),
    }
}

fn begins_with(bytes: &[u8], front: &[u8]) -> bool
    ensures { result ≡ begins_with bytes.now front.now }
{
    bytes.starts_with(front)
}

// What the first bytes of a dump tell, that are no JSON.
fn front_text(dump: Option<&[u8]>) -> Option<&'static str>
    ensures { option_map (λ text. text.now) result ≡ front_text (option_copied dump.entry) }
{
    let bytes = dump?;
    if begins_with(bytes, &[0x1f, 0x8b]) {
        Some("the file is packed by gzip, and has to be unpacked first")
    } else if begins_with(bytes, b"PK\x03\x04") {
        Some("the file is packed by zip, and has to be unpacked first")
    } else if begins_with(bytes, b"\xfd7zXZ") {
        Some("the file is packed by xz, and has to be unpacked first")
    } else if begins_with(bytes, &[0x28, 0xb5, 0x2f, 0xfd]) {
        Some("the file is packed by zstd, and has to be unpacked first")
    } else if begins_with(bytes, &[0xef, 0xbb, 0xbf]) {
        Some("the file begins with a byte order mark")
    } else if begins_with(bytes, &[0xff, 0xfe]) || begins_with(bytes, &[0xfe, 0xff]) {
        Some("the file is UTF-16, and has to be UTF-8")
    } else {
        None
    }
}

fn json_text(alloc: Global, fault: JsonFault, dump: Option<&[u8]>) -> Result<String, AllocError>
    ensures { IfOk result (λ text. string_bytes text ≡ json_text fault (option_copied dump.entry)) }
{
    match front_text(dump) {
        Some(text) => String::from_str(alloc, text),
        None => placed_text(alloc, fault, known_place(dump, fault.at)),
    }
}

fn field_words(code: DumpCode) -> &'static str
    ensures { result.now ≡ field_words code }
{
    match code {
        DumpCode::Missing => "this is required and is not there",
        DumpCode::WrongKind => "the value is of the wrong kind",
        DumpCode::UnknownName => "the name stands for nothing in this dump",
        DumpCode::Number => "the number is too large",
        DumpCode::Energy => "the text is no energy or power",
        DumpCode::Twice => "the name is there already",
        DumpCode::Limit => "the number is out of its range, or there are too many",
        DumpCode::Json(json) => json_words(json.code),
        DumpCode::NoMemory => "no memory is left",
    }
}

// A name and a colon, or nothing where the name is empty.
fn part(alloc: Global, name: &str) -> Result<String, AllocError>
    ensures { IfOk result (λ text. string_bytes text ≡ part name.now) }
{
    if name.is_empty() {
        return Ok(String::new(alloc));
    }
    let word = printed_word(alloc, name)?;
    format!(in alloc; "{word}: ")
}

// A fault of a prototype, or of the dump as a whole.
fn field_text(alloc: Global, fault: &DumpFault) -> Result<String, AllocError>
    ensures { IfOk result (λ text. string_bytes text ≡ field_text fault.now) }
{
    let section = part(alloc, fault.section.as_str())?;
    let name = part(alloc, fault.name.as_str())?;
    let field = part(alloc, fault.field.as_str())?;
    let what = field_words(fault.code);
    format!(in alloc; "{section}{name}{field}{what}")
}

// A value of the wrong kind. Where it is of no section, the dump itself is no object.
fn kind_text(alloc: Global, fault: &DumpFault) -> Result<String, AllocError>
    ensures { IfOk result (λ text. string_bytes text ≡ kind_text fault.now) }
{
    if fault.section.as_str().is_empty() {
        String::from_str(alloc, "no section of Factorio 1.1 found")
    } else {
        field_text(alloc, fault)
    }
}

/// Where a dump is at fault, and how.
#[tactic(auto, unfolding(crate::specs::Faults::fault_text))]
pub fn fault_text(
    alloc: Global,
    fault: &DumpFault,
    dump: Option<&[u8]>,
) -> Result<String, AllocError>
    ensures { IfOk result (λ text. string_bytes text ≡ fault_text fault.now (option_copied dump.entry)) }
{
    match fault.code {
        DumpCode::Json(json) => json_text(alloc, json, dump),
        DumpCode::WrongKind => kind_text(alloc, fault),
        _ => field_text(alloc, fault),
    }
}
