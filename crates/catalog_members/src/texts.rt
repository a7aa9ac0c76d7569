//! The text of an object.
ghost use Rattle.std.specs.Prelude.{IfOk, string_bytes};
ghost use Rattle.serde_json.specs.Data.{object};
ghost use Rattle.serde_json.specs.View.{members_view};
ghost use Rattle.catalog_members.specs.Texts.{IsTextOf};

use crate::members::Members;
use plan_base::NoMemory;
use serde_json::Value;
use std::alloc::Global;

/// The text of an object: compact, its members in the order of their keys. It reads back as the object.
///
/// # Errors
///
/// `NoMemory` where memory could not be had.
pub fn text_of(alloc: Global, members: Members) -> Result<String, NoMemory>
    ensures { IfOk result (λ text. IsTextOf (object (members_view members.entries)) (string_bytes text)) }
{
    let value = Value::Object(members);
    Ok(value.to_string(alloc)?)
}
