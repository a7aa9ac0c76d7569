//! The imports and the surpluses of a plan.
ghost use Rattle.std.specs.Prelude.{◌≡◌, ◌++◌, ◌∷◌, [], IfOk, OnOk, map};
ghost use Rattle.std.specs.List.{flat_map, zip};
ghost use Rattle.game_types.specs.Sound.{IsSound};
ghost use Rattle.serde_json.specs.View.{members_view, view};
ghost use Rattle.report_json.specs.Replies.{stream_value, streams_of, with_stream, with_streams};

use crate::numbers::put_number;
use crate::values::{push, put_good, put_kind, put_list, value_of};
use catalog_members::Members;
use fractions::Ratio;
use game_types::Game;
use linear_table::Column;
use plan_base::{GoodId, NoMemory};
use serde_json::{Map, Value};
use std::alloc::Global;

#[tactic(auto, unfolding(crate::specs::Replies::with_stream))]
fn put_stream(
    members: &mut Members,
    alloc: Global,
    game: &Game,
    kind: &str,
    good: GoodId,
    rate: &Ratio,
) -> Result<(), NoMemory>
    requires { IsSound game.now }
    ensures { OnOk result (members_view members.new.entries ≡ with_stream game.now kind.now good rate.now (members_view members.old.entries)) }
{
    put_kind(members, alloc, kind)?;
    put_good(members, alloc, "good", game, good)?;
    put_number(members, alloc, "rate", rate)
}

fn stream_value(
    alloc: Global,
    game: &Game,
    kind: &str,
    good: GoodId,
    rate: &Ratio,
) -> Result<Value, NoMemory>
    requires { IsSound game.now }
    ensures { IfOk result (λ value. view value ≡ stream_value game.now kind.now good rate.now) }
{
    let mut members = Map::new(alloc);
    put_stream(&mut members, alloc, game, kind, good, rate)?;
    Ok(value_of(members))
}

// Puts an import or a surplus behind others.
fn push_stream(
    list: &mut Vec<Value>,
    alloc: Global,
    game: &Game,
    kind: &str,
    good: GoodId,
    rate: &Ratio,
) -> Result<(), NoMemory>
    requires { IsSound game.now }
    ensures { OnOk result (map view list.new.items ≡ map view list.old.items ++ stream_value game.now kind.now good rate.now ∷ []) }
{
    let value = stream_value(alloc, game, kind, good, rate)?;
    push(list, value)
}

// Puts a column behind others where it is an import or a surplus. A row stands elsewhere, and there is no single good.
fn push_column(
    list: &mut Vec<Value>,
    alloc: Global,
    game: &Game,
    column: &Column,
    rate: &Ratio,
) -> Result<(), NoMemory>
    requires { IsSound game.now }
    ensures { OnOk result (map view list.new.items ≡ map view list.old.items ++ streams_of game.now (column.now, rate.now)) }
{
    match column {
        Column::Import(good) => push_stream(list, alloc, game, "import", *good, rate),
        Column::Surplus(good) => push_stream(list, alloc, game, "surplus", *good, rate),
        Column::Line(_) => Ok(()),
        Column::Unit(_) => Ok(()),
    }
}

fn stream_values(
    alloc: Global,
    game: &Game,
    columns: &[Column],
    rates: &[Ratio],
) -> Result<Vec<Value>, NoMemory>
    requires { IsSound game.now }
    ensures { IfOk result (λ list. map view list.items ≡ flat_map (streams_of game.now) (zip columns.now rates.now)) }
{
    let mut list = Vec::new(alloc);
    for (column, rate) in columns.iter().zip(rates) {
        push_column(&mut list, alloc, game, column, rate)?;
    }
    Ok(list)
}

/// Puts the imports and the surpluses of a plan.
#[tactic(auto, unfolding(crate::specs::Replies::with_streams))]
pub fn put_streams(
    members: &mut Members,
    alloc: Global,
    game: &Game,
    columns: &[Column],
    rates: &[Ratio],
) -> Result<(), NoMemory>
    requires { IsSound game.now }
    ensures { OnOk result (members_view members.new.entries ≡ with_streams game.now columns.now rates.now (members_view members.old.entries)) }
{
    let list = stream_values(alloc, game, columns, rates)?;
    put_list(members, alloc, "streams", list)
}
