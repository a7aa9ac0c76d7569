//! The fields of an object of a prototype.
ghost use Rattle.std.specs.Prelude.{◌≡◌, option_map};
ghost use Rattle.json_text.specs.SpanSeen.{members_seen, span_seen, spans_seen};
ghost use Rattle.prototype_fields.specs.Objects.{field, pair_members, value_at};
ghost use Rattle.prototype_fields.specs.Seen.{listed_members, object_seen};
ghost use Rattle.prototype_fields.specs.Values.{amount, fault_at, flag_or, name, name_or, object_element, required_name, seen_as, text, text_in, unless_empty};

use crate::trees::{as_flag, as_object, as_text, unless_null, value_at};
use crate::{FieldCode, FieldFault, Key, Within};
use json_text::{SpanMember, SpanTree};

/// The most elements that a short list has.
pub const LIST_LIMIT: usize = 1_024;

// Where fields are read of.
#[derive(Clone, Copy)]
pub(crate) enum Members<'t, 'b> {
    Object(&'t [SpanMember<'b>]),
    // A list that stands for an object.
    Pair(&'t [SpanTree<'b>]),
}

/// The fields of an object of a prototype, and the path of that object.
#[derive(Clone, Copy)]
pub struct Fields<'t, 'b> {
    within: Within,
    members: Members<'t, 'b>,
}

// The value of a list that stands for an object.
fn in_pair<'t, 'b>(key: &str, elements: &'t [SpanTree<'b>]) -> Option<&'t SpanTree<'b>>
    ensures { option_map (λ value. span_seen value.now) result ≡ value_at key.now (pair_members (spans_seen elements.now)) }
{
    match elements {
        [] => None,
        [name] => if key == "name" { Some(name) } else { None },
        [name, amount, ..] => {
            if key == "name" {
                Some(name)
            } else if key == "amount" {
                Some(amount)
            } else {
                None
            }
        }
    }
}

impl<'t, 'b> Members<'t, 'b> {
    // The value under a key.
    fn value_at(&self, key: &str) -> Option<&'t SpanTree<'b>>
        ensures { option_map (λ value. span_seen value.now) result ≡ value_at key.now (listed_members self.now) }
    {
        match *self {
            Members::Object(members) => value_at(key, members),
            Members::Pair(elements) => in_pair(key, elements),
        }
    }
}

impl<'t, 'b> Fields<'t, 'b> {
    /// The fields of an object with these members.
    #[tactic(auto, unfolding(crate::specs::Seen::object_seen))]
    pub fn of_members(within: Within, members: &'t [SpanMember<'b>]) -> Fields<'t, 'b>
        ensures { object_seen result ≡ record { within = within; members = members_seen members.now } }
    {
        let members = Members::Object(members);
        Fields { within, members }
    }

    /// The fields of the object that a list of a name, or of a name and an amount, stands for.
    #[tactic(auto, unfolding(crate::specs::Seen::object_seen))]
    pub fn of_pair(within: Within, elements: &'t [SpanTree<'b>]) -> Fields<'t, 'b>
        ensures { object_seen result ≡ record { within = within; members = pair_members (spans_seen elements.now) } }
    {
        let members = Members::Pair(elements);
        Fields { within, members }
    }

    /// The fields of a prototype, or of an element of a list, which is an object.
    ///
    /// # Errors
    ///
    /// `WrongKind` where it is none.
    #[tactic(auto, unfolding(crate::specs::Values::object_element))]
    pub fn of_element(
        within: Within,
        element: &'t SpanTree<'b>,
    ) -> Result<Fields<'t, 'b>, FieldFault>
        ensures { seen_as object_seen result ≡ object_element within (span_seen element.now) }
    {
        match as_object(element) {
            Some(members) => Ok(Fields::of_members(within, members)),
            None => Err(FieldFault::of_element(FieldCode::WrongKind, within)),
        }
    }

    /// The path of the object.
    #[tactic(auto, unfolding(crate::specs::Seen::object_seen))]
    pub fn within(&self) -> Within
        ensures { result ≡ (object_seen self.now).within }
    {
        self.within
    }

    /// A field: the value under its key, unless that is null.
    #[tactic(auto, unfolding(crate::specs::Objects::field, crate::specs::Seen::object_seen))]
    pub fn field(&self, key: Key) -> Option<&'t SpanTree<'b>>
        ensures { option_map (λ value. span_seen value.now) result ≡ field (object_seen self.now) key }
    {
        match self.members.value_at(key.text()) {
            Some(value) => unless_null(value),
            None => None,
        }
    }

    /// A fault of a field.
    #[tactic(auto, unfolding(crate::specs::Seen::object_seen))]
    pub fn fault(&self, code: FieldCode, key: Key) -> FieldFault
        ensures { result ≡ fault_at code (object_seen self.now) key }
    {
        FieldFault {
            code,
            within: self.within,
            key: Some(key),
        }
    }

    // A text.
    #[tactic(auto, unfolding(crate::specs::Values::text_in))]
    pub(crate) fn text_in(&self, key: Key, value: &'t SpanTree<'b>) -> Result<&'t str, FieldFault>
        ensures { seen_as (λ text. text.now) result ≡ text_in (object_seen self.now) key (span_seen value.now) }
    {
        match as_text(value) {
            Some(text) => Ok(text),
            None => Err(self.fault(FieldCode::WrongKind, key)),
        }
    }

    /// A text, which may be absent.
    #[tactic(auto, unfolding(crate::specs::Values::text))]
    pub fn text(&self, key: Key) -> Result<Option<&'t str>, FieldFault>
        ensures { seen_as (option_map (λ text. text.now)) result ≡ text (object_seen self.now) key }
    {
        match self.field(key) {
            Some(value) => Ok(Some(self.text_in(key, value)?)),
            None => Ok(None),
        }
    }

    /// A name, which may be absent or empty.
    #[tactic(auto, unfolding(crate::specs::Values::name))]
    pub fn name(&self, key: Key) -> Result<Option<&'t str>, FieldFault>
        ensures { seen_as (option_map (λ text. text.now)) result ≡ name (object_seen self.now) key }
    {
        match self.text(key)? {
            Some(text) => Ok(unless_empty(text)),
            None => Ok(None),
        }
    }

    /// A name that is required.
    #[tactic(auto, unfolding(crate::specs::Values::required_name))]
    pub fn required_name(&self, key: Key) -> Result<&'t str, FieldFault>
        ensures { seen_as (λ text. text.now) result ≡ required_name (object_seen self.now) key }
    {
        match self.name(key)? {
            Some(name) => Ok(name),
            None => Err(self.fault(FieldCode::Missing, key)),
        }
    }

    /// A name with a default.
    #[tactic(auto, unfolding(crate::specs::Values::name_or))]
    pub fn name_or(&self, key: Key, default: &'static str) -> Result<&'t str, FieldFault>
        ensures { seen_as (λ text. text.now) result ≡ name_or (object_seen self.now) key default.now }
    {
        match self.name(key)? {
            Some(name) => Ok(name),
            None => Ok(default),
        }
    }

    /// A truth value with a default.
    #[tactic(auto, unfolding(crate::specs::Values::flag_or))]
    pub fn flag_or(&self, key: Key, default: bool) -> Result<bool, FieldFault>
        ensures { result ≡ flag_or (object_seen self.now) key default }
    {
        let Some(value) = self.field(key) else {
            return Ok(default);
        };
        match as_flag(value) {
            Some(flag) => Ok(flag),
            None => Err(self.fault(FieldCode::WrongKind, key)),
        }
    }
}

// A text, unless it is empty.
pub(crate) fn unless_empty(text: &str) -> Option<&str>
    ensures { option_map (λ text. text.now) result ≡ unless_empty text.now }
{
    if text.is_empty() { None } else { Some(text) }
}
