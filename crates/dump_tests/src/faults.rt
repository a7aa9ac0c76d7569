//! Faults as the texts of tests write them.
use craft_reader::{DumpCode, DumpFault};
use prototype_fields::{FieldCode, FieldFault};
use std::alloc::Global;

fn field_code(code: FieldCode) -> &'static str {
    match code {
        FieldCode::Missing => "G1",
        FieldCode::WrongKind => "G2",
        FieldCode::UnknownName => "G3",
        FieldCode::Number => "G4",
        FieldCode::Energy => "G5",
        FieldCode::Twice => "G6",
        FieldCode::Limit => "G7",
        FieldCode::NoMemory => "no memory",
    }
}

fn is_field_at(code: FieldCode, path: &str, expected: &str) -> bool {
    match expected.split_once(' ') {
        Some((word, place)) => field_code(code) == word && path == place,
        None => false,
    }
}

/// Whether a fault of a field is the one that a text writes: its code and the path of the field.
pub fn is_field_fault(alloc: Global, fault: &FieldFault, expected: &str) -> bool {
    match fault.path(alloc) {
        Ok(path) => is_field_at(fault.code, path.as_str(), expected),
        Err(_) => false,
    }
}

/// The code of a fault of a dump.
pub fn dump_code(code: DumpCode) -> &'static str {
    match code {
        DumpCode::Missing => "G1",
        DumpCode::WrongKind => "G2",
        DumpCode::UnknownName => "G3",
        DumpCode::Number => "G4",
        DumpCode::Energy => "G5",
        DumpCode::Twice => "G6",
        DumpCode::Limit => "G7",
        DumpCode::Json(_) => "G8",
        DumpCode::NoMemory => "no memory",
    }
}

fn is_place(fault: &DumpFault, section: &str, name: &str, field: &str) -> bool {
    fault.section.as_str() == section
        && fault.name.as_str() == name
        && fault.field.as_str() == field
}

/// Whether a fault of a dump is the one that four words write: its code, section, name and field.
pub fn is_dump_fault(fault: &DumpFault, words: &[&str]) -> bool {
    match words {
        [code, section, name, field] => {
            dump_code(fault.code) == *code && is_place(fault, section, name, field)
        }
        _ => false,
    }
}
