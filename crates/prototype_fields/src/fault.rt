//! What may be wrong with a field.
ghost use Rattle.std.specs.Prelude.{◌≡◌, IfOk};
ghost use Rattle.prototype_fields.specs.declared.fault.FieldCode.TheVariants.{NoMemory as OutOfMemory};
ghost use Rattle.prototype_fields.specs.Names.{fault_path};
ghost use Rattle.prototype_fields.specs.Values.{element_fault};

use crate::{Key, Within};
use plan_base::{NoMemory, Text};
use std::alloc::{AllocError, AllocFailed, Global};

/// What is wrong with a field.
#[derive(Clone, Copy, Debug, PartialEq, Eq)]
pub enum FieldCode {
    /// It is required, and absent or null.
    Missing,
    /// The value is of another kind.
    WrongKind,
    /// It names what isn't there.
    UnknownName,
    /// The numeral is too large.
    Number,
    /// The text is no energy or power.
    Energy,
    /// The name is there already.
    Twice,
    /// The number is out of its range, or the list is too long.
    Limit,
    /// Memory could not be had.
    NoMemory,
}

/// What is wrong with a field, and which field it is.
#[derive(Clone, Copy, Debug, PartialEq, Eq)]
pub struct FieldFault {
    pub code: FieldCode,
    pub within: Within,
    /// None where the object itself is meant.
    pub key: Option<Key>,
}

impl FieldFault {
    /// Memory could not be had.
    pub fn no_memory() -> FieldFault
        ensures { result.code ≡ FieldCode.NoMemory }
    {
        FieldFault {
            code: FieldCode::NoMemory,
            within: Within::Prototype,
            key: None,
        }
    }

    /// A fault of an object or of an element of a list.
    pub fn of_element(code: FieldCode, within: Within) -> FieldFault
        ensures { result ≡ element_fault code within }
    {
        FieldFault {
            code,
            within,
            key: None,
        }
    }

    /// The path of keys to what is wrong, joined by dots.
    ///
    /// # Errors
    ///
    /// `NoMemory` where memory could not be had.
    #[tactic(auto, unfolding(crate::specs::Names::path_of))]
    pub fn path(&self, alloc: Global) -> Result<Text, NoMemory>
        ensures { IfOk result (λ text. text ≡ fault_path self.now) }
    {
        let within = self.within.text();
        let Some(key) = self.key else {
            return Text::copy(alloc, within);
        };
        let key = key.text();
        if within.is_empty() {
            return Text::copy(alloc, key);
        }
        let path = format!(in alloc; "{within}.{key}")?;
        Ok(Text::from_string(path))
    }
}

impl From<NoMemory> for FieldFault {
    ghost from_gives = { λ _ fault. fault.code ≡ OutOfMemory };

    fn from(_: NoMemory) -> FieldFault {
        FieldFault::no_memory()
    }
}

impl From<AllocError> for FieldFault {
    ghost from_gives = { λ _ fault. fault.code ≡ OutOfMemory };

    fn from(_: AllocError) -> FieldFault {
        FieldFault::no_memory()
    }
}

impl<T: Drop> From<AllocFailed<T>> for FieldFault {
    ghost from_gives = { λ _ fault. fault.code ≡ OutOfMemory };

    fn from(_: AllocFailed<T>) -> FieldFault {
        FieldFault::no_memory()
    }
}
