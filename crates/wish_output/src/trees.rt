//! What stands in the tree of a dump.
ghost use Rattle.std.specs.Prelude.{◌≡◌, option_map};
ghost use Rattle.json_text.specs.SpanSeen.{span_seen};
ghost use Rattle.wish_output.specs.Belts.{field_at, field_in, member_at, number_in, placed, speed_in, speed_of};

use fractions::Ratio;
use json_text::SpanTree;
use prototype_fields::{as_number, as_object, as_text, numeral, value_at};

// The value under a key of an object.
fn member_at<'t, 'b>(key: &str, value: &'t SpanTree<'b>) -> Option<&'t SpanTree<'b>>
    ensures { option_map (λ value. span_seen value.now) result ≡ member_at key.now (span_seen value.now) }
{
    match as_object(value) {
        Some(members) => value_at(key, members),
        None => None,
    }
}

// A field of one of some prototypes.
fn field_in<'t, 'b>(name: &str, key: &str, prototypes: &'t SpanTree<'b>) -> Option<&'t SpanTree<'b>>
    ensures { option_map (λ value. span_seen value.now) result ≡ field_in name.now key.now (span_seen prototypes.now) }
{
    match member_at(name, prototypes) {
        Some(prototype) => member_at(key, prototype),
        None => None,
    }
}

// A field of a prototype of a section.
fn field_at<'t, 'b>(
    section: &str,
    name: &str,
    key: &str,
    dump: &'t SpanTree<'b>,
) -> Option<&'t SpanTree<'b>>
    ensures { option_map (λ value. span_seen value.now) result ≡ field_at section.now name.now key.now (span_seen dump.now) }
{
    match member_at(section, dump) {
        Some(prototypes) => field_in(name, key, prototypes),
        None => None,
    }
}

// The name of what an item places.
fn placed<'t, 'b>(item: &str, dump: &'t SpanTree<'b>) -> Option<&'t str>
    ensures { option_map (λ name. name.now) result ≡ placed item.now (span_seen dump.now) }
{
    match field_at("item", item, "place_result", dump) {
        Some(name) => as_text(name),
        None => None,
    }
}

// The number that a value writes.
fn number_in(value: &SpanTree<'_>) -> Option<Ratio>
    ensures { result ≡ number_in (span_seen value.now) }
{
    let Some(digits) = as_number(value) else {
        return None;
    };
    match numeral(digits) {
        Ok(number) => Some(number),
        Err(_) => None,
    }
}

// The speed of a belt, in tiles a tick.
fn speed_of(belt: &str, dump: &SpanTree<'_>) -> Option<Ratio>
    ensures { result ≡ speed_of (span_seen dump.now) belt.now }
{
    match field_at("transport-belt", belt, "speed", dump) {
        Some(speed) => number_in(speed),
        None => None,
    }
}

/// The speed of the belt that an item places, in tiles a tick.
pub fn speed_in(item: &str, dump: &SpanTree<'_>) -> Option<Ratio>
    ensures { result ≡ speed_in item.now (span_seen dump.now) }
{
    match placed(item, dump) {
        Some(belt) => speed_of(belt, dump),
        None => None,
    }
}
