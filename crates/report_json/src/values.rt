//! Single members of an object.
ghost use Rattle.std.specs.Prelude.{◌≡◌, ◌+◌, ◌-◌, ◌++◌, ◌∷◌, [], IfOk, OnOk, string_bytes};
ghost use Rattle.game_types.specs.Sound.{IsSound};
ghost use Rattle.plan_report.specs.Nodes.{name_at};
ghost use Rattle.plan_base.specs.declared.shape.Kind.{Kind};
ghost use Rattle.serde_json.specs.Data.{null, object, put as with_member};
ghost use Rattle.serde_json.specs.View.{items_view, members_view, view};
ghost use Rattle.report_json.specs.Values.{good_id, with_flag, with_good, with_kind, with_list, with_node, with_whole};

use catalog_members::{Members, id_text, put_id, put_text};
use game_types::Game;
use plan_base::{GoodId, Kind, NoMemory, NodeId};
use plan_report::kind_word;
use serde_json::Value;
use std::alloc::Global;

// Puts a member.
fn put(members: &mut Members, alloc: Global, key: &str, value: Value) -> Result<(), NoMemory>
    ensures { OnOk result (members_view members.new.entries ≡ with_member key.now (view value) (members_view members.old.entries)) }
{
    Ok(serde_json::put(members, alloc, key, value)?)
}

/// Puts a value behind others.
pub fn push(list: &mut Vec<Value>, value: Value) -> Result<(), NoMemory>
    ensures { OnOk result (list.new.items ≡ list.old.items ++ value ∷ []) }
{
    Ok(serde_json::push(list, value)?)
}

/// An object of members.
pub fn value_of(members: Members) -> Value
    ensures { view result ≡ object (members_view members.entries) }
{
    Value::Object(members)
}

/// Puts that there is no value.
pub fn put_null(members: &mut Members, alloc: Global, key: &str) -> Result<(), NoMemory>
    ensures { OnOk result (members_view members.new.entries ≡ with_member key.now null (members_view members.old.entries)) }
{
    put(members, alloc, key, Value::Null)
}

/// Puts which kind of reply it is.
#[tactic(auto, unfolding(crate::specs::Values::with_kind))]
pub fn put_kind(members: &mut Members, alloc: Global, word: &str) -> Result<(), NoMemory>
    ensures { OnOk result (members_view members.new.entries ≡ with_kind word.now (members_view members.old.entries)) }
{
    put_text(members, alloc, "kind", word)
}

/// Puts a whole number.
#[tactic(auto, unfolding(crate::specs::Values::with_whole))]
pub fn put_whole(
    members: &mut Members,
    alloc: Global,
    key: &str,
    number: u64,
) -> Result<(), NoMemory>
    ensures { OnOk result (members_view members.new.entries ≡ with_whole key.now number (members_view members.old.entries)) }
{
    put(members, alloc, key, Value::from(number))
}

/// Puts whether something is so.
#[tactic(auto, unfolding(crate::specs::Values::with_flag))]
pub fn put_flag(
    members: &mut Members,
    alloc: Global,
    key: &str,
    is_so: bool,
) -> Result<(), NoMemory>
    ensures { OnOk result (members_view members.new.entries ≡ with_flag key.now is_so (members_view members.old.entries)) }
{
    put(members, alloc, key, Value::Bool(is_so))
}

/// Puts a list.
#[tactic(auto, unfolding(crate::specs::Values::with_list))]
pub fn put_list(
    members: &mut Members,
    alloc: Global,
    key: &str,
    items: Vec<Value>,
) -> Result<(), NoMemory>
    ensures { OnOk result (members_view members.new.entries ≡ with_list key.now (items_view items.items) (members_view members.old.entries)) }
{
    put(members, alloc, key, Value::Array(items))
}

/// Puts a node by its name.
#[tactic(auto, unfolding(crate::specs::Values::with_node))]
pub fn put_node(
    members: &mut Members,
    alloc: Global,
    game: &Game,
    node: NodeId,
) -> Result<(), NoMemory>
    requires { IsSound game.now }
    ensures { OnOk result (members_view members.new.entries ≡ with_node game.now node (members_view members.old.entries)) }
{
    put_id(members, alloc, "node", game, node)
}

// The name of a technology, empty past the last.
fn tech_name(game: &Game, index: u32) -> &str
    requires { IsSound game.now }
    ensures { result.now ≡ name_at game.now Kind.Tech index }
{
    if index < game.tech_names.len() {
        game.tech_names.name_of(index)
    } else {
        ""
    }
}

/// A good of a table as `KIND:NAME`, without quotes: an item, a fluid, electric power or a technology.
///
/// # Errors
///
/// `NoMemory` where memory could not be had.
#[tactic(auto, unfolding(crate::specs::Values::good_id))]
pub fn good_id(alloc: Global, game: &Game, good: GoodId) -> Result<String, NoMemory>
    requires { IsSound game.now }
    ensures { IfOk result (λ text. string_bytes text ≡ good_id game.now good) }
{
    let shape = game.shape();
    let power = shape.items + shape.fluids;
    if good.0 < power {
        id_text(alloc, game, NodeId(3 + good.0))
    } else if good.0 == power {
        let kind = kind_word(Kind::Special);
        Ok(format!(in alloc; "{kind}:electricity")?)
    } else {
        let kind = kind_word(Kind::Tech);
        let name = tech_name(game, good.0 - (power + 1));
        Ok(format!(in alloc; "{kind}:{name}")?)
    }
}

/// Puts a good by its name.
///
/// # Errors
///
/// `NoMemory` where memory could not be had.
#[tactic(auto, unfolding(crate::specs::Values::with_good))]
pub fn put_good(
    members: &mut Members,
    alloc: Global,
    key: &str,
    game: &Game,
    good: GoodId,
) -> Result<(), NoMemory>
    requires { IsSound game.now }
    ensures { OnOk result (members_view members.new.entries ≡ with_good key.now game.now good (members_view members.old.entries)) }
{
    let text = good_id(alloc, game, good)?;
    put_text(members, alloc, key, text.as_str())
}
