//! Trees of small texts.
use json_text::{SpanNode, SpanTree, Wanted};
use plan_base::{NoMemory, Text};
use std::alloc::Global;

fn texts(alloc: Global, words: &str) -> Result<Vec<Text>, NoMemory> {
    let mut texts = Vec::new(alloc);
    for word in words.split(' ') {
        texts.push(Text::copy(alloc, word)?)?;
    }
    Ok(texts)
}

/// The sections and fields that are kept, each list as words with a space between.
pub fn wanted(alloc: Global, sections: &str, fields: &str) -> Result<Wanted, NoMemory> {
    let sections = texts(alloc, sections)?;
    let fields = texts(alloc, fields)?;
    Ok(Wanted { sections, fields })
}

// The value of the first member of an object.
fn first_value<'t, 'b>(tree: &'t SpanTree<'b>) -> Option<&'t SpanTree<'b>> {
    match &tree.node {
        SpanNode::Object(members) => match members.first() {
            Some(member) => Some(&member.value),
            None => None,
        },
        _ => None,
    }
}

/// The first prototype of the first section.
pub fn first_prototype<'t, 'b>(tree: &'t SpanTree<'b>) -> Option<&'t SpanTree<'b>> {
    match first_value(tree) {
        Some(section) => first_value(section),
        None => None,
    }
}
