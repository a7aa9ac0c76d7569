ghost use Rattle.std.specs.Prelude.{◌≡◌, ◌≢◌, ◌≤◌, length, drop, IfOk, IfErr, true};
ghost use Rattle.std.specs.Str.{IsUtf8, is_utf8};
ghost use Rattle.json_text.specs.Accepted.{IsAccepted, IsBare, IsFault};
ghost use Rattle.json_text.specs.Machine.{list_of, object_of};
ghost use Rattle.json_text.specs.Seen.{seen, all_seen, members_seen, wishes};
ghost use Rattle.json_text.specs.SpanSeen.{span_seen, spans_seen, members_seen as lent_members_seen, text_seen};
ghost use Rattle.json_text.specs.Textual.{IsTextual, AreTextual, MembersAreTextual};
ghost use Rattle.json_text.specs.declared.fault.JsonCode.TheVariants.{NoMemory};

use crate::fault::{JsonFault, no_memory, settled};
use crate::read::read_spans;
use crate::span::{SpanMember, SpanNode, SpanText, SpanTree};
use crate::text::text_of;
use crate::tree::{JsonNode, Tree, Wanted};
use plan_base::Text;
use std::alloc::Global;

fn owned_text(alloc: Global, text: &SpanText) -> Result<Text, JsonFault>
    requires { is_utf8 (text_seen text.now) ≡ true }
    ensures ok { IfOk result (λ copy. copy ≡ text_seen text.now) }
    ensures memory { IfErr result (λ f. f.code ≡ NoMemory) }
{
    text_of(alloc, text.as_bytes())
}

/// A tree that owns its texts.
#[cycle(own)]
fn owned_tree(alloc: Global, tree: &SpanTree) -> Result<Tree, JsonFault>
    requires { IsTextual (span_seen tree.now) }
    ensures ok { IfOk result (λ copy. seen copy ≡ span_seen tree.now) }
    ensures memory { IfErr result (λ f. f.code ≡ NoMemory) }
{
    let at = tree.at;
    match &tree.node {
        SpanNode::Null => Ok(Tree {
            at,
            node: JsonNode::Null,
        }),
        SpanNode::Flag(flag) => Ok(Tree {
            at,
            node: JsonNode::Flag(*flag),
        }),
        SpanNode::Word => Ok(Tree {
            at,
            node: JsonNode::Word,
        }),
        SpanNode::Number(digits) => Ok(Tree {
            at,
            node: JsonNode::Number(text_of(alloc, digits)?),
        }),
        SpanNode::Str(text) => Ok(Tree {
            at,
            node: JsonNode::Str(owned_text(alloc, text)?),
        }),
        SpanNode::List(elements) => Ok(Tree {
            at,
            node: JsonNode::List(owned_elements(alloc, elements.as_slice())?),
        }),
        SpanNode::Object(members) => Ok(Tree {
            at,
            node: JsonNode::Object(owned_members(alloc, members.as_slice())?),
        }),
        SpanNode::Skipped => Ok(Tree {
            at,
            node: JsonNode::Skipped,
        }),
    }
}

#[cycle(own)]
fn owned_elements(alloc: Global, elements: &[SpanTree]) -> Result<Vec<Tree>, JsonFault>
    requires { AreTextual (list_of (spans_seen elements.now)) }
    ensures ok { IfOk result (λ copies. all_seen copies.items ≡ spans_seen elements.now) }
    ensures memory { IfErr result (λ f. f.code ≡ NoMemory) }
{
    let mut copies = Vec::new(alloc);
    let mut i = 0;
    'elements: while i < elements.len() {
        match owned_tree(alloc, &elements[i]) {
            Ok(copy) => {
                if let Err(_) = copies.push(copy) {
                    return Err(no_memory());
                }
            }
            Err(fault) => return Err(fault),
        }
        i += 1;
    }
    Ok(copies)
}

#[cycle(own)]
fn owned_members(alloc: Global, members: &[SpanMember]) -> Result<Vec<(Text, Tree)>, JsonFault>
    requires { MembersAreTextual (object_of (lent_members_seen members.now)) }
    ensures ok { IfOk result (λ copies. members_seen copies.items ≡ lent_members_seen members.now) }
    ensures memory { IfErr result (λ f. f.code ≡ NoMemory) }
{
    let mut copies = Vec::new(alloc);
    let mut i = 0;
    'members: while i < members.len() {
        let member = &members[i];
        let key = match owned_text(alloc, &member.key) {
            Ok(key) => key,
            Err(fault) => return Err(fault),
        };
        match owned_tree(alloc, &member.value) {
            Ok(copy) => {
                if let Err(_) = copies.push((key, copy)) {
                    return Err(no_memory());
                }
            }
            Err(fault) => return Err(fault),
        }
        i += 1;
    }
    Ok(copies)
}

/// The tree that is kept of a text.
///
/// # Errors
///
/// The first fault of a text that isn't accepted, and want of memory.
pub fn read_tree(alloc: Global, bytes: &[u8], wanted: &Wanted) -> Result<Tree, JsonFault>
    // It is the tree of the text.
    ensures tree { IfOk result (λ tree. IsAccepted (wishes wanted.now) bytes.now (seen tree)) }
    // Else it is the first fault of the text.
    ensures fault { IfErr result (λ f. f.code ≢ NoMemory → IsFault (wishes wanted.now) bytes.now f.code f.at) }
    // Want of memory has no place.
    ensures bare { IfErr result IsBare }
{
    let tree = read_spans(alloc, bytes, wanted)?;
    match owned_tree(alloc, &tree) {
        Ok(tree) => Ok(tree),
        Err(fault) => Err(settled(fault)),
    }
}
