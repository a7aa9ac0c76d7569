//! Trees that are read, and texts that are refused at their ends.
use crate::made::wanted;
use json_text::{
    JsonCode, JsonFault, JsonNode, SpanMember, SpanNode, SpanText, SpanTree, Tree, read_spans,
    read_tree,
};
use plan_base::NoMemory;
use std::alloc::Global;
use std::test::Fail;

// A small dump.
const DUMP: &str =
    "{\"assembling-machine\":{\"asm\":{\"crafting_speed\":0.75,\"crafting_categories\":[\"crafting\"], \"energy_usage\":\"75kW\",\"energy_source\":{\"type\":\"electric\"}}}, \"character\":{\"character\":{\"crafting_categories\":[\"crafting\"]}}, \"item\":{\"plate\":{},\"gear\":{},\"asm\":{\"place_result\":\"asm\"}}, \"recipe\":{\"gear\":{\"energy_required\":0.5,\"ingredients\":[[\"plate\",2]],\"result\":\"gear\"}}}";

// Hidden from the proofs, which need not know it.
fn dump() -> &'static str {
    DUMP
}

fn is_fault_at(read: &Result<SpanTree, JsonFault>, code: JsonCode, at: usize) -> bool {
    match read {
        Ok(_) => false,
        Err(fault) => fault.code == code && fault.at == at,
    }
}

fn is_refused(alloc: Global, text: &[u8], code: JsonCode, at: usize) -> Result<bool, NoMemory> {
    let wanted = wanted(alloc)?;
    let read = read_spans(alloc, text, &wanted);
    Ok(is_fault_at(&read, code, at))
}

fn is_front_refused(alloc: Global, text: &str, length: usize) -> Result<bool, NoMemory> {
    let bytes = text.as_bytes();
    if length > bytes.len() {
        return Ok(false);
    }
    is_refused(alloc, &bytes[..length], JsonCode::NotJson, length)
}

// A whole small dump is read, and each of its proper fronts is refused at its end.
#[test]
fn fronts_are_refused(rt: HostRuntime) -> Result<(), Fail> {
    for length in 0..dump().len() {
        if !is_front_refused(rt.alloc(), dump(), length)? {
            panic!(rt; "{length}");
        }
    }
    Ok(())
}

fn is_read(alloc: Global, text: &str) -> Result<bool, NoMemory> {
    let wanted = wanted(alloc)?;
    let read = read_spans(alloc, text.as_bytes(), &wanted);
    Ok(read.is_ok())
}

#[test]
fn a_dump_is_read(rt: HostRuntime) -> Result<(), Fail> {
    assert!(rt; is_read(rt.alloc(), dump())?);
    Ok(())
}

fn are_brackets_refused(
    alloc: Global,
    count: usize,
    code: JsonCode,
    at: usize,
) -> Result<bool, NoMemory> {
    let text = vec![in alloc; b'['; count]?;
    is_refused(alloc, &text, code, at)
}

#[test]
fn nesting_has_a_bound(rt: HostRuntime) -> Result<(), Fail> {
    assert!(rt; are_brackets_refused(rt.alloc(), 200, JsonCode::NotJson, 200)?);
    assert!(rt; are_brackets_refused(rt.alloc(), 201, JsonCode::TooDeep, 200)?);
    Ok(())
}

fn is_object(node: &SpanNode) -> bool {
    matches!(node, SpanNode::Object(_))
}

fn is_kept(member: &SpanMember) -> bool {
    matches!(&member.key, SpanText::Lent(b"item"))
        && member.value.at == 10
        && is_object(&member.value.node)
}

fn is_skipped(member: &SpanMember) -> bool {
    member.value.at == 29 && matches!(&member.value.node, SpanNode::Skipped)
}

fn is_made(member: &SpanMember) -> bool {
    matches!(&member.key, SpanText::Made(_)) && member.key.as_bytes() == b"\n".as_slice()
}

fn are_lent(members: &[SpanMember]) -> bool {
    match members {
        [first, second, third] => is_kept(first) && is_skipped(second) && is_made(third),
        _ => false,
    }
}

fn is_lent(tree: &SpanTree) -> bool {
    match &tree.node {
        SpanNode::Object(members) => tree.at == 1 && are_lent(members.as_slice()),
        _ => false,
    }
}

fn is_read_lent(read: &Result<SpanTree, JsonFault>) -> bool {
    match read {
        Ok(tree) => is_lent(tree),
        Err(_) => false,
    }
}

fn lends_texts(alloc: Global, text: &str) -> Result<bool, NoMemory> {
    let wanted = wanted(alloc)?;
    let read = read_spans(alloc, text.as_bytes(), &wanted);
    Ok(is_read_lent(&read))
}

#[test]
fn texts_are_lent(rt: HostRuntime) -> Result<(), Fail> {
    let text = " {\"item\": {\"a\":[ -1.5 ]},\"b\":[1, 2],\"\\n\":\"x\"}";
    assert!(rt; lends_texts(rt.alloc(), text)?);
    Ok(())
}

fn is_number(node: &JsonNode, digits: &str) -> bool {
    match node {
        JsonNode::Number(text) => text.as_str() == digits,
        _ => false,
    }
}

fn is_string(node: &JsonNode, string: &str) -> bool {
    match node {
        JsonNode::Str(text) => text.as_str() == string,
        _ => false,
    }
}

fn are_words(first: &JsonNode, second: &JsonNode, third: &JsonNode) -> bool {
    matches!(first, JsonNode::Flag(true))
        && matches!(second, JsonNode::Null)
        && matches!(third, JsonNode::Word)
}

fn is_last(tree: &Tree) -> bool {
    tree.at == 37 && matches!(&tree.node, JsonNode::Object(_))
}

fn are_owned(elements: &[Tree]) -> bool {
    match elements {
        [flag, null, word, number, face, last] => {
            are_words(&flag.node, &null.node, &word.node)
                && is_number(&number.node, "-0.5e3")
                && is_string(&face.node, "\u{1f600}")
                && is_last(last)
        }
        _ => false,
    }
}

fn is_read_owned(read: &Result<Tree, JsonFault>) -> bool {
    match read {
        Ok(tree) => match &tree.node {
            JsonNode::List(elements) => are_owned(elements.as_slice()),
            _ => false,
        },
        Err(_) => false,
    }
}

fn owns_texts(alloc: Global, text: &str) -> Result<bool, NoMemory> {
    let wanted = wanted(alloc)?;
    let read = read_tree(alloc, text.as_bytes(), &wanted);
    Ok(is_read_owned(&read))
}

#[test]
fn texts_are_owned(rt: HostRuntime) -> Result<(), Fail> {
    let text = "[true,null,inf,-0.5e3,\"\\ud83d\\ude00\",{\"f\":[],\"g\":0}]";
    assert!(rt; owns_texts(rt.alloc(), text)?);
    Ok(())
}

fn add_member(alloc: Global, text: &mut String, key: usize) -> Result<(), NoMemory> {
    let member = format!(in alloc; "\"k{key}\":0,")?;
    Ok(text.push_str(member.as_str())?)
}

// An object of 41 members, of which the last repeats a key.
fn repeated(alloc: Global, key: &str) -> Result<String, NoMemory> {
    let mut text = String::from_str(alloc, "{")?;
    for key in 0..40usize {
        add_member(alloc, &mut text, key)?;
    }
    text.push_str("\"")?;
    text.push_str(key)?;
    text.push_str("\":0}")?;
    Ok(text)
}

fn is_repeated(alloc: Global, key: &str, quote: usize) -> Result<bool, NoMemory> {
    let text = repeated(alloc, key)?;
    is_refused(alloc, text.as_bytes(), JsonCode::Repeated, quote)
}

// The last key repeats that of an early member, or of a late one.
#[test]
fn many_keys_are_compared(rt: HostRuntime) -> Result<(), Fail> {
    assert!(rt; is_repeated(rt.alloc(), "k0", 314)?);
    assert!(rt; is_repeated(rt.alloc(), "k3", 314)?);
    assert!(rt; is_repeated(rt.alloc(), "k39", 315)?);
    Ok(())
}
