//! What is wrong with a dump, and where.
ghost use Rattle.std.specs.Prelude.{◌≡◌, ◌≢◌, [], IfOk};
ghost use Rattle.craft_reader.specs.Faults.{IsBare, code_of, fault_in};

use json_text::JsonFault;
use plan_base::{NoMemory, Text};
use prototype_fields::{FieldCode, FieldFault};
use std::alloc::Global;

/// What is wrong with a dump.
#[derive(Clone, Copy, Debug, PartialEq, Eq)]
pub enum DumpCode {
    /// A field is required, and absent or null.
    Missing,
    /// A value is of another kind.
    WrongKind,
    /// A name stands for nothing.
    UnknownName,
    /// A numeral is too large.
    Number,
    /// A text is no energy or power.
    Energy,
    /// A name is there already.
    Twice,
    /// A number is out of its range, or there is too much of something.
    Limit,
    /// The text is no JSON.
    Json(JsonFault),
    /// Memory could not be had.
    NoMemory,
}

/// What is wrong with a dump, and where: the section and the name of the prototype, and the path of its field.
#[derive(Debug, Drop)]
pub struct DumpFault {
    pub code: DumpCode,
    pub section: Text,
    pub name: Text,
    pub field: Text,
}

// The code of a fault of a field.
fn code_of(code: FieldCode) -> DumpCode
    ensures { result ≡ code_of code }
{
    match code {
        FieldCode::Missing => DumpCode::Missing,
        FieldCode::WrongKind => DumpCode::WrongKind,
        FieldCode::UnknownName => DumpCode::UnknownName,
        FieldCode::Number => DumpCode::Number,
        FieldCode::Energy => DumpCode::Energy,
        FieldCode::Twice => DumpCode::Twice,
        FieldCode::Limit => DumpCode::Limit,
        FieldCode::NoMemory => DumpCode::NoMemory,
    }
}

impl DumpFault {
    /// A code alone.
    pub fn of_code(alloc: Global, code: DumpCode) -> DumpFault
        ensures { result ≡ record { code = code; section = []; name = []; field = [] } }
    {
        DumpFault {
            code,
            section: Text::from_string(String::new(alloc)),
            name: Text::from_string(String::new(alloc)),
            field: Text::from_string(String::new(alloc)),
        }
    }

    // A fault of a prototype.
    #[tactic(auto, unfolding(crate::specs::Faults::fault_in))]
    fn placed(
        alloc: Global,
        section: &str,
        name: &str,
        fault: FieldFault,
    ) -> Result<DumpFault, NoMemory>
        ensures { IfOk result (λ placed. placed ≡ fault_in section.now name.now fault) }
    {
        Ok(DumpFault {
            code: code_of(fault.code),
            section: Text::copy(alloc, section)?,
            name: Text::copy(alloc, name)?,
            field: fault.path(alloc)?,
        })
    }

    /// A fault of a prototype of a section. Where memory could not be had, that alone is the fault.
    pub fn of_field(alloc: Global, section: &str, name: &str, fault: FieldFault) -> DumpFault
        ensures fault { result.code ≢ DumpCode.NoMemory → result ≡ fault_in section.now name.now fault }
        ensures bare { IsBare result }
    {
        match DumpFault::placed(alloc, section, name, fault) {
            Ok(placed) => placed.settled(alloc),
            Err(NoMemory) => DumpFault::of_code(alloc, DumpCode::NoMemory),
        }
    }

    /// The fault as a call answers it: of want of memory nothing else is said.
    pub fn settled(self, alloc: Global) -> DumpFault
        ensures code { result.code ≡ self.code }
        ensures same { self.code ≢ DumpCode.NoMemory → result ≡ self }
        ensures bare { IsBare result }
    {
        match self.code {
            DumpCode::NoMemory => DumpFault::of_code(alloc, DumpCode::NoMemory),
            _ => self,
        }
    }
}
