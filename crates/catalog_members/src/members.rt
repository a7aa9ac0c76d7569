//! Single members.
ghost use Rattle.std.specs.Prelude.{◌≡◌, OnOk, IfOk};
ghost use Rattle.fractions.specs.Print.{printed};
ghost use Rattle.game_types.specs.Sound.{IsSound};
ghost use Rattle.serde_json.specs.Data.{object, put as with_member, string};
ghost use Rattle.serde_json.specs.View.{members_view, view};
ghost use Rattle.catalog_members.specs.Members.{id_text, with_amount, with_amount_where, with_count, with_id, with_id_where, with_number, with_object, with_text, with_true};

use crate::ids::id_text;
use fractions::Ratio;
use game_types::Game;
use plan_base::{NoMemory, NodeId};
use serde_json::{Map, Value};
use std::alloc::Global;

/// The members of an object.
pub type Members = Map<String, Value>;

// Puts a member into an object.
pub(crate) fn put(
    members: &mut Members,
    alloc: Global,
    key: &str,
    value: Value,
) -> Result<(), NoMemory>
    ensures { OnOk result (members_view members.new.entries ≡ with_member key.now (view value) (members_view members.old.entries)) }
{
    Ok(serde_json::put(members, alloc, key, value)?)
}

fn text_value(alloc: Global, text: &str) -> Result<Value, NoMemory>
    ensures { IfOk result (λ value. view value ≡ string text.now) }
{
    Ok(Value::try_from_str(alloc, text)?)
}

/// Puts a text.
#[tactic(auto, unfolding(crate::specs::Members::with_text))]
pub fn put_text(members: &mut Members, alloc: Global, key: &str, text: &str) -> Result<(), NoMemory>
    ensures { OnOk result (members_view members.new.entries ≡ with_text key.now text.now (members_view members.old.entries)) }
{
    let value = text_value(alloc, text)?;
    put(members, alloc, key, value)
}

/// Puts a whole number.
#[tactic(auto, unfolding(crate::specs::Members::with_number))]
pub fn put_number(
    members: &mut Members,
    alloc: Global,
    key: &str,
    number: u32,
) -> Result<(), NoMemory>
    ensures { OnOk result (members_view members.new.entries ≡ with_number key.now number (members_view members.old.entries)) }
{
    put(members, alloc, key, Value::from(number))
}

/// Puts a whole number where it isn't 0.
#[tactic(auto, unfolding(crate::specs::Members::with_count))]
pub fn put_count(
    members: &mut Members,
    alloc: Global,
    key: &str,
    number: u32,
) -> Result<(), NoMemory>
    ensures { OnOk result (members_view members.new.entries ≡ with_count key.now number (members_view members.old.entries)) }
{
    if number == 0 {
        Ok(())
    } else {
        put_number(members, alloc, key, number)
    }
}

/// Puts what is so, and nothing where it isn't.
#[tactic(auto, unfolding(crate::specs::Members::with_true))]
pub fn put_true(
    members: &mut Members,
    alloc: Global,
    key: &str,
    is_so: bool,
) -> Result<(), NoMemory>
    ensures { OnOk result (members_view members.new.entries ≡ with_true key.now is_so (members_view members.old.entries)) }
{
    if is_so {
        put(members, alloc, key, Value::Bool(true))
    } else {
        Ok(())
    }
}

/// Puts a fraction, as its text.
#[tactic(auto, unfolding(crate::specs::Members::with_amount))]
pub fn put_amount(
    members: &mut Members,
    alloc: Global,
    key: &str,
    amount: &Ratio,
) -> Result<(), NoMemory>
    ensures { OnOk result (members_view members.new.entries ≡ with_amount key.now amount.now (members_view members.old.entries)) }
{
    let text = amount.print(alloc)?;
    put_text(members, alloc, key, text.as_str())
}

/// Puts a fraction where there is one.
#[tactic(auto, unfolding(crate::specs::Members::with_amount_where))]
pub fn put_amount_where(
    members: &mut Members,
    alloc: Global,
    key: &str,
    amount: &Option<Ratio>,
) -> Result<(), NoMemory>
    ensures { OnOk result (members_view members.new.entries ≡ with_amount_where key.now amount.now (members_view members.old.entries)) }
{
    match amount {
        Some(amount) => put_amount(members, alloc, key, amount),
        None => Ok(()),
    }
}

/// Puts a thing by its name.
#[tactic(auto, unfolding(crate::specs::Members::with_id))]
pub fn put_id(
    members: &mut Members,
    alloc: Global,
    key: &str,
    game: &Game,
    node: NodeId,
) -> Result<(), NoMemory>
    requires { IsSound game.now }
    ensures { OnOk result (members_view members.new.entries ≡ with_id key.now game.now node (members_view members.old.entries)) }
{
    let text = id_text(alloc, game, node)?;
    put(members, alloc, key, Value::String(text))
}

/// Puts a thing by its name where there is one.
#[tactic(auto, unfolding(crate::specs::Members::with_id_where))]
pub fn put_id_where(
    members: &mut Members,
    alloc: Global,
    key: &str,
    game: &Game,
    node: Option<NodeId>,
) -> Result<(), NoMemory>
    requires { IsSound game.now }
    ensures { OnOk result (members_view members.new.entries ≡ with_id_where key.now game.now node (members_view members.old.entries)) }
{
    match node {
        Some(node) => put_id(members, alloc, key, game, node),
        None => Ok(()),
    }
}

/// Puts an object.
#[tactic(auto, unfolding(crate::specs::Members::with_object))]
pub fn put_object(
    members: &mut Members,
    alloc: Global,
    key: &str,
    inner: Members,
) -> Result<(), NoMemory>
    ensures { OnOk result (members_view members.new.entries ≡ with_object key.now (members_view inner.entries) (members_view members.old.entries)) }
{
    put(members, alloc, key, Value::Object(inner))
}
