//! Refusals.
ghost use Rattle.std.specs.Prelude.{◌≡◌, IfOk, OnOk, string_bytes};
ghost use Rattle.game_types.specs.Sound.{IsSound};
ghost use Rattle.plan_report.specs.Codes.{effect_word};
ghost use Rattle.serde_json.specs.Data.{item, no_items, number, string, unsigned};
ghost use Rattle.serde_json.specs.View.{items_view, members_view, view};
ghost use Rattle.catalog_members.specs.Members.{id_text};
ghost use Rattle.report_json.specs.Replies.{detail_items, named_id, with_at, with_code, with_refused};

use crate::codes::code_word;
use crate::values::{push, put_kind, put_list, put_whole};
use catalog_members::{Members, id_text, put_text};
use game_types::{EffectKind, Game};
use plan_base::{Kind, NoMemory, NodeId};
use plan_lines::{Detail, RefusalCode};
use plan_report::kind_word;
use serde_json::Value;
use std::alloc::Global;

/// Puts that a line is refused, with its code.
#[tactic(auto, unfolding(crate::specs::Replies::with_code))]
pub fn put_code(members: &mut Members, alloc: Global, code: RefusalCode) -> Result<(), NoMemory>
    ensures { OnOk result (members_view members.new.entries ≡ with_code code (members_view members.old.entries)) }
{
    put_kind(members, alloc, "refused")?;
    put_text(members, alloc, "code", code_word(code))
}

fn effect_word(kind: EffectKind) -> &'static str
    ensures { result.now ≡ effect_word kind }
{
    match kind {
        EffectKind::Speed => "speed",
        EffectKind::Productivity => "productivity",
        EffectKind::Consumption => "consumption",
        EffectKind::Pollution => "pollution",
    }
}

fn text_value(alloc: Global, text: &str) -> Result<Value, NoMemory>
    ensures { IfOk result (λ value. view value ≡ string text.now) }
{
    Ok(Value::try_from_str(alloc, text)?)
}

fn named_id(alloc: Global, kind: Option<Kind>, name: &str) -> Result<String, NoMemory>
    ensures { IfOk result (λ text. string_bytes text ≡ named_id kind name.now) }
{
    match kind {
        Some(kind) => {
            let kind = kind_word(kind);
            Ok(format!(in alloc; "{kind}:{name}")?)
        }
        None => Ok(String::from_str(alloc, name)?),
    }
}

fn step_value(step: u8) -> Value
    ensures { view result ≡ number (unsigned step) }
{
    Value::from(step)
}

// A list of one value.
fn one(alloc: Global, value: Value) -> Result<Vec<Value>, NoMemory>
    ensures { IfOk result (λ list. items_view list.items ≡ item (view value) no_items) }
{
    let mut list = Vec::new(alloc);
    push(&mut list, value)?;
    Ok(list)
}

// A list of two values.
fn two(alloc: Global, first: Value, second: Value) -> Result<Vec<Value>, NoMemory>
    ensures { IfOk result (λ list. items_view list.items ≡ item (view first) (item (view second) no_items)) }
{
    let mut list = Vec::new(alloc);
    push(&mut list, first)?;
    push(&mut list, second)?;
    Ok(list)
}

fn word_items(alloc: Global, kind: Option<Kind>, name: &str) -> Result<Vec<Value>, NoMemory>
    ensures { IfOk result (λ list. items_view list.items ≡ item (string (named_id kind name.now)) no_items) }
{
    let text = named_id(alloc, kind, name)?;
    one(alloc, Value::String(text))
}

fn node_items(alloc: Global, game: &Game, node: NodeId) -> Result<Vec<Value>, NoMemory>
    requires { IsSound game.now }
    ensures { IfOk result (λ list. items_view list.items ≡ item (string (id_text game.now node)) no_items) }
{
    let text = id_text(alloc, game, node)?;
    one(alloc, Value::String(text))
}

fn effect_items(
    alloc: Global,
    game: &Game,
    node: NodeId,
    kind: EffectKind,
) -> Result<Vec<Value>, NoMemory>
    requires { IsSound game.now }
    ensures { IfOk result (λ list. items_view list.items ≡ item (string (id_text game.now node)) (item (string (effect_word kind)) no_items)) }
{
    let text = id_text(alloc, game, node)?;
    let effect = text_value(alloc, effect_word(kind))?;
    two(alloc, Value::String(text), effect)
}

fn row_items(alloc: Global, label: &str, step: u8) -> Result<Vec<Value>, NoMemory>
    ensures { IfOk result (λ list. items_view list.items ≡ item (string label.now) (item (number (unsigned step)) no_items)) }
{
    let label = text_value(alloc, label)?;
    two(alloc, label, step_value(step))
}

// What a refusal names.
fn detail_items(alloc: Global, game: &Game, detail: &Detail) -> Result<Vec<Value>, NoMemory>
    requires { IsSound game.now }
    ensures { IfOk result (λ list. items_view list.items ≡ detail_items game.now detail.now) }
{
    match detail {
        Detail::Bare => Ok(Vec::new(alloc)),
        Detail::Word { kind, name } => word_items(alloc, *kind, name.as_str()),
        Detail::Node(node) => node_items(alloc, game, *node),
        Detail::Effect { node, kind } => effect_items(alloc, game, *node, *kind),
        Detail::Row { label, step } => row_items(alloc, label.as_str(), *step),
    }
}

#[tactic(auto, unfolding(crate::specs::Replies::with_at))]
fn put_at(members: &mut Members, alloc: Global, at: Option<u32>) -> Result<(), NoMemory>
    ensures { OnOk result (members_view members.new.entries ≡ with_at at (members_view members.old.entries)) }
{
    match at {
        Some(line) => put_whole(members, alloc, "at", u64::from(line)),
        None => Ok(()),
    }
}

/// Puts that a line is refused: the code, what it names, and the line of a batch where one is named.
#[tactic(auto, unfolding(crate::specs::Replies::with_refused))]
pub fn put_refused(
    members: &mut Members,
    alloc: Global,
    game: &Game,
    code: RefusalCode,
    detail: &Detail,
    at: Option<u32>,
) -> Result<(), NoMemory>
    requires { IsSound game.now }
    ensures { OnOk result (members_view members.new.entries ≡ with_refused game.now code detail.now at (members_view members.old.entries)) }
{
    put_code(members, alloc, code)?;
    let words = detail_items(alloc, game, detail)?;
    put_list(members, alloc, "words", words)?;
    put_at(members, alloc, at)
}
