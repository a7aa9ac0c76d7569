//! Objects and lists within a prototype, by their fields.
ghost use Rattle.std.specs.Prelude.{◌≡◌, option_map};
ghost use Rattle.json_text.specs.SpanSeen.{span_seen, spans_seen};
ghost use Rattle.prototype_fields.specs.Seen.{object_seen};
ghost use Rattle.prototype_fields.specs.Values.{list, list_or_empty, object_at, object_in, object_or_empty, required_list, required_object, required_short_list, seen_as, short_list, short_list_or_empty};

use crate::fields::{Fields, LIST_LIMIT};
use crate::trees::{as_list, as_object, no_elements, no_members};
use crate::{FieldCode, FieldFault, Key, Within};
use json_text::{SpanMember, SpanTree};

impl<'t, 'b> Fields<'t, 'b> {
    // An object.
    #[tactic(auto, unfolding(crate::specs::Values::object_in))]
    fn object_in(
        &self,
        key: Key,
        within: Within,
        value: &'t SpanTree<'b>,
    ) -> Result<Fields<'t, 'b>, FieldFault>
        ensures { seen_as object_seen result ≡ object_in within (object_seen self.now) key (span_seen value.now) }
    {
        match as_object(value) {
            Some(members) => Ok(Fields::of_members(within, members)),
            None => Err(self.fault(FieldCode::WrongKind, key)),
        }
    }

    /// An object, which may be absent, and the path that it has.
    #[tactic(auto, unfolding(crate::specs::Values::object_at))]
    pub fn object(&self, key: Key, within: Within) -> Result<Option<Fields<'t, 'b>>, FieldFault>
        ensures { seen_as (option_map object_seen) result ≡ object_at (object_seen self.now) key within }
    {
        match self.field(key) {
            Some(value) => Ok(Some(self.object_in(key, within, value)?)),
            None => Ok(None),
        }
    }

    /// An object that is required.
    #[tactic(auto, unfolding(crate::specs::Values::required_object))]
    pub fn required_object(&self, key: Key, within: Within) -> Result<Fields<'t, 'b>, FieldFault>
        ensures { seen_as object_seen result ≡ required_object (object_seen self.now) key within }
    {
        match self.object(key, within)? {
            Some(fields) => Ok(fields),
            None => Err(self.fault(FieldCode::Missing, key)),
        }
    }

    /// An object, which is empty where it is absent.
    #[tactic(auto, unfolding(crate::specs::Values::object_or_empty))]
    pub fn object_or_empty(&self, key: Key, within: Within) -> Result<Fields<'t, 'b>, FieldFault>
        ensures { seen_as object_seen result ≡ object_or_empty (object_seen self.now) key within }
    {
        match self.object(key, within)? {
            Some(fields) => Ok(fields),
            None => {
                let none: &'t [SpanMember<'b>] = no_members();
                Ok(Fields::of_members(within, none))
            }
        }
    }

    /// A list, which may be absent.
    #[tactic(auto, unfolding(crate::specs::Values::list))]
    pub fn list(&self, key: Key) -> Result<Option<&'t [SpanTree<'b>]>, FieldFault>
        ensures { seen_as (option_map (λ elements. spans_seen elements.now)) result ≡ list (object_seen self.now) key }
    {
        let Some(value) = self.field(key) else {
            return Ok(None);
        };
        match as_list(value) {
            Some(elements) => Ok(Some(elements)),
            None => Err(self.fault(FieldCode::WrongKind, key)),
        }
    }

    /// A list that is required.
    #[tactic(auto, unfolding(crate::specs::Values::required_list))]
    pub fn required_list(&self, key: Key) -> Result<&'t [SpanTree<'b>], FieldFault>
        ensures { seen_as (λ elements. spans_seen elements.now) result ≡ required_list (object_seen self.now) key }
    {
        match self.list(key)? {
            Some(elements) => Ok(elements),
            None => Err(self.fault(FieldCode::Missing, key)),
        }
    }

    /// A list, which is empty where it is absent.
    #[tactic(auto, unfolding(crate::specs::Values::list_or_empty))]
    pub fn list_or_empty(&self, key: Key) -> Result<&'t [SpanTree<'b>], FieldFault>
        ensures { seen_as (λ elements. spans_seen elements.now) result ≡ list_or_empty (object_seen self.now) key }
    {
        match self.list(key)? {
            Some(elements) => Ok(elements),
            None => {
                let none: &'t [SpanTree<'b>] = no_elements();
                Ok(none)
            }
        }
    }

    /// A list of at most 1,024 elements, which may be absent.
    #[tactic(auto, unfolding(crate::specs::Values::short_list))]
    pub fn short_list(&self, key: Key) -> Result<Option<&'t [SpanTree<'b>]>, FieldFault>
        ensures { seen_as (option_map (λ elements. spans_seen elements.now)) result ≡ short_list (object_seen self.now) key }
    {
        let Some(elements) = self.list(key)? else {
            return Ok(None);
        };
        if elements.len() <= LIST_LIMIT {
            Ok(Some(elements))
        } else {
            Err(self.fault(FieldCode::Limit, key))
        }
    }

    /// A list of at most 1,024 elements that is required.
    #[tactic(auto, unfolding(crate::specs::Values::required_short_list))]
    pub fn required_short_list(&self, key: Key) -> Result<&'t [SpanTree<'b>], FieldFault>
        ensures { seen_as (λ elements. spans_seen elements.now) result ≡ required_short_list (object_seen self.now) key }
    {
        match self.short_list(key)? {
            Some(elements) => Ok(elements),
            None => Err(self.fault(FieldCode::Missing, key)),
        }
    }

    /// A list of at most 1,024 elements, which is empty where it is absent.
    #[tactic(auto, unfolding(crate::specs::Values::short_list_or_empty))]
    pub fn short_list_or_empty(&self, key: Key) -> Result<&'t [SpanTree<'b>], FieldFault>
        ensures { seen_as (λ elements. spans_seen elements.now) result ≡ short_list_or_empty (object_seen self.now) key }
    {
        match self.short_list(key)? {
            Some(elements) => Ok(elements),
            None => {
                let none: &'t [SpanTree<'b>] = no_elements();
                Ok(none)
            }
        }
    }
}
