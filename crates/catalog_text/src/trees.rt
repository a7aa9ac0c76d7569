//! Looking into trees of JSON. What isn't of the kind that is asked for isn't there.
use fractions::{Ratio, read_numeral};
use json_text::{JsonNode, Tree};
use plan_base::Text;

/// The members of an object; none where it is something else.
pub fn members_of(tree: &Tree) -> &[(Text, Tree)] {
    match &tree.node {
        JsonNode::Object(members) => members.as_slice(),
        _ => &[],
    }
}

/// The value of a key, where there is one.
pub fn value_at<'a>(tree: &'a Tree, key: &str) -> Option<&'a Tree> {
    for member in members_of(tree) {
        if member.0.as_str() == key {
            return Some(&member.1);
        }
    }
    None
}

/// A text.
pub fn text_in(tree: &Tree) -> Option<&str> {
    match &tree.node {
        JsonNode::Str(text) => Some(text.as_str()),
        _ => None,
    }
}

/// The text of a key.
pub fn text_at<'a>(tree: &'a Tree, key: &str) -> Option<&'a str> {
    match value_at(tree, key) {
        Some(value) => text_in(value),
        None => None,
    }
}

/// The number of a key.
pub fn number_at(tree: &Tree, key: &str) -> Option<Ratio> {
    match value_at(tree, key) {
        Some(value) => number_in(value),
        None => None,
    }
}

fn number_in(tree: &Tree) -> Option<Ratio> {
    match &tree.node {
        JsonNode::Number(digits) => read_numeral(digits.as_str().as_bytes()).ok(),
        _ => None,
    }
}

/// Whether a value is true.
fn is_true(tree: &Tree) -> bool {
    match &tree.node {
        JsonNode::Flag(flag) => *flag,
        JsonNode::Str(text) => text.as_str() == "true",
        _ => false,
    }
}

/// Whether the value of a key is true.
pub fn is_true_at(tree: &Tree, key: &str) -> bool {
    match value_at(tree, key) {
        Some(value) => is_true(value),
        None => false,
    }
}

fn is_word(tree: &Tree, word: &str) -> bool {
    match text_in(tree) {
        Some(text) => text == word,
        None => false,
    }
}

fn items_of(tree: &Tree) -> &[Tree] {
    match &tree.node {
        JsonNode::List(items) => items.as_slice(),
        _ => &[],
    }
}

/// Whether the list of a key has a word.
pub fn has_word_at(tree: &Tree, key: &str, word: &str) -> bool {
    match value_at(tree, key) {
        Some(list) => items_of(list).iter().any(|item| is_word(item, word)),
        None => false,
    }
}
