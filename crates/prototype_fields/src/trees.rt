//! What is read of a tree of JSON.
ghost use Rattle.std.specs.Prelude.{◌≡◌, [], option_map};
ghost use Rattle.json_text.specs.SpanSeen.{members_seen, span_seen, spans_seen};
ghost use Rattle.prototype_fields.specs.Objects.{as_bytes, as_flag, as_list, as_number, as_object, as_text, flag_of, if_utf8, unless_null, value_at};

use json_text::{SpanMember, SpanNode, SpanTree};
use std::str::from_utf8;

/// No elements.
pub fn no_elements<'t, 'b>() -> &'t [SpanTree<'b>]
    ensures { result.now ≡ [] }
{
    &[]
}

// No members.
pub(crate) fn no_members<'t, 'b>() -> &'t [SpanMember<'b>]
    ensures { result.now ≡ [] }
{
    &[]
}

/// The members of an object. An empty list stands for an empty object.
pub fn as_object<'t, 'b>(tree: &'t SpanTree<'b>) -> Option<&'t [SpanMember<'b>]>
    ensures { option_map (λ members. members_seen members.now) result ≡ as_object (span_seen tree.now) }
{
    let none: &'t [SpanMember<'b>] = no_members();
    match &tree.node {
        SpanNode::Object(members) => Some(members.as_slice()),
        SpanNode::List(elements) => {
            if elements.is_empty() {
                Some(none)
            } else {
                None
            }
        }
        _ => None,
    }
}

/// The elements of a list. An empty object stands for an empty list.
pub fn as_list<'t, 'b>(tree: &'t SpanTree<'b>) -> Option<&'t [SpanTree<'b>]>
    ensures { option_map (λ elements. spans_seen elements.now) result ≡ as_list (span_seen tree.now) }
{
    let none: &'t [SpanTree<'b>] = no_elements();
    match &tree.node {
        SpanNode::List(elements) => Some(elements.as_slice()),
        SpanNode::Object(members) => { if members.is_empty() { Some(none) } else { None } }
        _ => None,
    }
}

/// The bytes of a string.
pub fn as_bytes<'t, 'b>(tree: &'t SpanTree<'b>) -> Option<&'t [u8]>
    ensures { option_map (λ bytes. bytes.now) result ≡ as_bytes (span_seen tree.now) }
{
    match &tree.node {
        SpanNode::Str(text) => Some(text.as_bytes()),
        _ => None,
    }
}

/// The text that bytes are, where they are UTF-8.
pub fn if_utf8(bytes: &[u8]) -> Option<&str>
    ensures { option_map (λ text. text.now) result ≡ if_utf8 bytes.now }
{
    match from_utf8(bytes) {
        Ok(text) => Some(text),
        Err(_) => None,
    }
}

/// The text of a string, where it is UTF-8.
pub fn as_text<'t, 'b>(tree: &'t SpanTree<'b>) -> Option<&'t str>
    ensures { option_map (λ text. text.now) result ≡ as_text (span_seen tree.now) }
{
    match &tree.node {
        SpanNode::Str(text) => if_utf8(text.as_bytes()),
        _ => None,
    }
}

// A truth value that is written as a text.
fn flag_of(bytes: &[u8]) -> Option<bool>
    ensures { result ≡ flag_of bytes.now }
{
    if bytes == b"true".as_slice() {
        Some(true)
    } else if bytes == b"false".as_slice() {
        Some(false)
    } else {
        None
    }
}

/// A truth value, which may be written as a text.
pub fn as_flag(tree: &SpanTree<'_>) -> Option<bool>
    ensures { result ≡ as_flag (span_seen tree.now) }
{
    match &tree.node {
        SpanNode::Flag(flag) => Some(*flag),
        SpanNode::Str(text) => flag_of(text.as_bytes()),
        _ => None,
    }
}

/// The spelling of a number.
pub fn as_number<'b>(tree: &SpanTree<'b>) -> Option<&'b [u8]>
    ensures { option_map (λ digits. digits.now) result ≡ as_number (span_seen tree.now) }
{
    match &tree.node {
        SpanNode::Number(digits) => Some(digits),
        _ => None,
    }
}

/// The value, unless it is null.
pub fn unless_null<'t, 'b>(tree: &'t SpanTree<'b>) -> Option<&'t SpanTree<'b>>
    ensures { option_map (λ value. span_seen value.now) result ≡ unless_null (span_seen tree.now) }
{
    match &tree.node {
        SpanNode::Null => None,
        _ => Some(tree),
    }
}

/// The value under a key.
pub fn value_at<'t, 'b>(key: &str, members: &'t [SpanMember<'b>]) -> Option<&'t SpanTree<'b>>
    ensures { option_map (λ value. span_seen value.now) result ≡ value_at key.now (members_seen members.now) }
{
    for member in members {
        if key.as_bytes() == member.key.as_bytes() {
            return Some(&member.value);
        }
    }
    None
}
