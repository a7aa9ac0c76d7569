//! Names that a prototype gives.
ghost use Rattle.std.specs.Prelude.{◌≡◌, IfOk, option_map};
ghost use Rattle.prototype_fields.specs.Seen.{object_seen};
ghost use Rattle.prototype_fields.specs.Values.{Gives, name};

use plan_base::{NoMemory, Text};
use prototype_fields::{FieldFault, Fields, Key};
use std::alloc::Global;

// A name of its own, where one is given.
fn owned_name(alloc: Global, name: Option<&str>) -> Result<Option<Text>, NoMemory>
    ensures { IfOk result (λ text. text ≡ option_map (λ name. name.now) name.entry) }
{
    match name {
        Some(name) => Ok(Some(Text::copy(alloc, name)?)),
        None => Ok(None),
    }
}

/// The name that a field gives, where there is one.
///
/// # Errors
///
/// A fault where the field is no text, or where memory is wanting.
pub fn read_name(
    alloc: Global,
    fields: &Fields<'_, '_>,
    key: Key,
) -> Result<Option<Text>, FieldFault>
    ensures { Gives (name (object_seen fields.now) key) result }
{
    let name = fields.name(key)?;
    Ok(owned_name(alloc, name)?)
}
