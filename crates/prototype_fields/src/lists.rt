//! Names and categories, alone and in lists.
ghost use Rattle.std.specs.Prelude.{◌≡◌, option_map};
ghost use Rattle.json_text.specs.SpanSeen.{span_seen, spans_seen};
ghost use Rattle.prototype_fields.specs.Seen.{object_seen};
ghost use Rattle.prototype_fields.specs.Values.{Extends, Gives, categories, category, category_in, name_in, names_in, optional_category, seen_as, with_names};

use crate::fields::unless_empty;
use crate::{FieldCode, FieldFault, Fields, Key};
use json_text::SpanTree;
use name_table::{NameFault, Names};
use plan_base::{Items, Text};
use std::alloc::Global;

impl<'t, 'b> Fields<'t, 'b> {
    // A name, which may be empty.
    #[tactic(auto, unfolding(crate::specs::Values::name_in))]
    fn name_in(&self, key: Key, value: &'t SpanTree<'b>) -> Result<Option<&'t str>, FieldFault>
        ensures { seen_as (option_map (λ text. text.now)) result ≡ name_in (object_seen self.now) key (span_seen value.now) }
    {
        Ok(unless_empty(self.text_in(key, value)?))
    }

    /// The names among the elements of a list, each of which is a text.
    pub fn names_in(
        &self,
        alloc: Global,
        key: Key,
        elements: &'t [SpanTree<'b>],
    ) -> Result<Items<Text>, FieldFault>
        ensures { Gives (names_in (object_seen self.now) key (spans_seen elements.now)) result }
    {
        let mut names = Vec::new(alloc);
        for element in elements {
            if let Some(name) = self.name_in(key, element)? {
                names.push(Text::copy(alloc, name)?)?;
            }
        }
        Ok(Items::from_vec(names))
    }

    /// The number of a category, whose name is put among the names where it is new.
    #[tactic(auto, unfolding(crate::specs::Values::category))]
    pub fn category(&self, key: Key, name: &str, names: &mut Names) -> Result<u32, FieldFault>
        ensures gives { Gives (category (object_seen self.now) key name.now names.old) (with_names names.new result) }
        ensures names { Extends names.old names.new }
    {
        match names.intern(name) {
            Ok(number) => Ok(number),
            Err(NameFault::Full) => Err(self.fault(FieldCode::Limit, key)),
            Err(NameFault::NoMemory) => Err(FieldFault::no_memory()),
        }
    }

    /// The category of a name, where one is given.
    pub fn optional_category(
        &self,
        key: Key,
        name: Option<&str>,
        names: &mut Names,
    ) -> Result<Option<u32>, FieldFault>
        ensures gives { Gives (optional_category (object_seen self.now) key (option_map (λ text. text.now) name.entry) names.old) (with_names names.new result) }
        ensures names { Extends names.old names.new }
    {
        match name {
            Some(name) => Ok(Some(self.category(key, name, names)?)),
            None => Ok(None),
        }
    }

    // The category that a text names, which may be empty.
    #[tactic(auto, unfolding(crate::specs::Values::category_in))]
    fn category_in(
        &self,
        key: Key,
        value: &'t SpanTree<'b>,
        names: &mut Names,
    ) -> Result<Option<u32>, FieldFault>
        ensures gives { Gives (category_in (object_seen self.now) key (span_seen value.now) names.old) (with_names names.new result) }
        ensures names { Extends names.old names.new }
    {
        let name = self.name_in(key, value)?;
        self.optional_category(key, name, names)
    }

    /// The categories that the elements of a list name, each of which is a text.
    pub fn categories(
        &self,
        alloc: Global,
        key: Key,
        elements: &'t [SpanTree<'b>],
        names: &mut Names,
    ) -> Result<Items<u32>, FieldFault>
        ensures gives { Gives (categories (object_seen self.now) key (spans_seen elements.now) names.old) (with_names names.new result) }
        ensures names { Extends names.old names.new }
    {
        let mut numbers = Vec::new(alloc);
        for element in elements {
            if let Some(number) = self.category_in(key, element, names)? {
                numbers.push(number)?;
            }
        }
        Ok(Items::from_vec(numbers))
    }
}
