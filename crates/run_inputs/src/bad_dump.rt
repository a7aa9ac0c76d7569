// What is written for a dump that is refused.
ghost use Rattle.std.specs.Prelude.{◌≡◌, IfOk, string_bytes};
ghost use Rattle.run_inputs.specs.BadDump.{code_name, fault_line, field_line, json_line, json_name};

use craft_reader::{DumpCode, DumpFault};
use json_text::{JsonCode, JsonFault};
use plan_report::printed_word;
use std::alloc::{AllocError, Global};

fn json_name(code: JsonCode) -> &'static str
    ensures { result.now ≡ json_name code }
{
    match code {
        JsonCode::NotJson => "J1",
        JsonCode::TooDeep => "J2",
        JsonCode::Repeated => "J3",
        JsonCode::NotUtf8 => "J4",
        JsonCode::TooMany => "J5",
        JsonCode::NoMemory => "",
    }
}

fn code_name(code: DumpCode) -> &'static str
    ensures { result.now ≡ code_name code }
{
    match code {
        DumpCode::Missing => "G1",
        DumpCode::WrongKind => "G2",
        DumpCode::UnknownName => "G3",
        DumpCode::Number => "G4",
        DumpCode::Energy => "G5",
        DumpCode::Twice => "G6",
        DumpCode::Limit => "G7",
        DumpCode::Json(_) => "G8",
        DumpCode::NoMemory => "",
    }
}

// A fault of JSON and its place.
fn json_line(alloc: Global, fault: JsonFault) -> Result<String, AllocError>
    ensures { IfOk result (λ line. string_bytes line ≡ json_line fault) }
{
    let code = json_name(fault.code);
    let at = fault.at;
    format!(in alloc; "bad dump G8 {code} at {at}\n")
}

// A fault of a prototype and its place, or of the dump as a whole.
fn field_line(alloc: Global, fault: &DumpFault) -> Result<String, AllocError>
    ensures { IfOk result (λ line. string_bytes line ≡ field_line fault.now) }
{
    let code = code_name(fault.code);
    let section = printed_word(alloc, fault.section.as_str())?;
    let name = printed_word(alloc, fault.name.as_str())?;
    let field = printed_word(alloc, fault.field.as_str())?;
    format!(in alloc; "bad dump {code} {section} {name} {field}\n")
}

/// The line that tells a fault and its place.
pub fn fault_line(alloc: Global, fault: &DumpFault) -> Result<String, AllocError>
    ensures { IfOk result (λ line. string_bytes line ≡ fault_line fault.now) }
{
    match fault.code {
        DumpCode::Json(json) => json_line(alloc, json),
        _ => field_line(alloc, fault),
    }
}
