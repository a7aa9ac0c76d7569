//! Faults of what is to be kept: too many values, a key that comes again, and what no first element or key begins with.
ghost use Rattle.std.specs.Prelude.{◌≡◌, ℕ, ◌+◌, ◌<◌, List, length, true};
ghost use Rattle.json_text.specs.Kept.{Wishes};
ghost use Rattle.json_text.specs.Machine.{Frame, from, fault, IsInList, IsInObject, first_element, first_key, is_full};
ghost use Rattle.json_text.specs.declared.fault.JsonCode.TheVariants.{TooMany as too_many_code, Repeated as repeated_code};

use crate::class::{Class, class_of};
use crate::fault::{JsonCode, JsonFault, not_json, too_deep};
use crate::skip::MAX_OPEN;

/// One kept value more than there may be, with the byte at a place.
pub fn too_many(at: usize) -> JsonFault
    ensures code { result.code ≡ too_many_code }
    ensures at { result.at ≡ at }
{
    JsonFault {
        code: JsonCode::TooMany,
        at,
    }
}

/// The quote at a place ends a key that the object already has.
pub fn repeated(at: usize) -> JsonFault
    ensures code { result.code ≡ repeated_code }
    ensures at { result.at ≡ at }
{
    JsonFault {
        code: JsonCode::Repeated,
        at,
    }
}

/// Why no first element can begin at a place, where no further value can be kept and that many containers are open.
pub fn full_list(bytes: &[u8], at: usize, depth: u32) -> JsonFault
    requires within { at < length bytes.now }
    requires inside { IsInList bytes.now at }
    ensures { (w : Wishes) (n : ℕ) (f : Frame) (fs : List Frame) → length fs + 1 ≡ depth → is_full f n ≡ true
        → from w bytes.now at (first_element n f fs) ≡ fault result.code result.at }
{
    match class_of(bytes[at]) {
        Class::OpenList | Class::OpenObject => {
            if depth < MAX_OPEN {
                too_many(at)
            } else {
                too_deep(at)
            }
        }
        Class::Quote | Class::Zero | Class::Digit | Class::Minus | Class::Letter => too_many(at),
        _ => not_json(at),
    }
}

/// Why no first key can begin at a place, where no further value can be kept.
pub fn full_object(bytes: &[u8], at: usize) -> JsonFault
    requires within { at < length bytes.now }
    requires inside { IsInObject bytes.now at }
    ensures { (w : Wishes) (n : ℕ) (f : Frame) (fs : List Frame) → is_full f n ≡ true
        → from w bytes.now at (first_key n f fs) ≡ fault result.code result.at }
{
    match class_of(bytes[at]) {
        Class::Quote => too_many(at),
        _ => not_json(at),
    }
}
