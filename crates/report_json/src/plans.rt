//! What the solver says of a table.
ghost use Rattle.std.specs.Prelude.{◌≡◌, IfOk, OnOk, map};
ghost use Rattle.std.specs.List.{zip};
ghost use Rattle.game_types.specs.Sound.{IsSound};
ghost use Rattle.serde_json.specs.Data.{no_members};
ghost use Rattle.serde_json.specs.View.{members_view, view};
ghost use Rattle.report_json.specs.Replies.{price_value, with_answer, with_infeasible, with_plan, with_prices, with_solved, with_uses};

use crate::numbers::put_number;
use crate::plan_rows::{put_rows, put_uses};
use crate::streams::put_streams;
use crate::trails::{put_out_of_budget, put_too_wide};
use crate::values::{push, put_good, put_kind, put_list, value_of};
use catalog_members::{Members, put_object, put_text};
use fractions::Ratio;
use game_types::Game;
use linear_table::{Column, Plan, SolveAnswer};
use plan_base::{GoodId, NoMemory, Text};
use plan_lines::Figures;
use serde_json::{Map, Value};
use std::alloc::Global;

// ---- prices

fn price_value(alloc: Global, game: &Game, good: GoodId, price: &Ratio) -> Result<Value, NoMemory>
    requires { IsSound game.now }
    ensures { IfOk result (λ value. view value ≡ price_value game.now (good, price.now)) }
{
    let mut members = Map::new(alloc);
    put_good(&mut members, alloc, "good", game, good)?;
    put_number(&mut members, alloc, "price", price)?;
    Ok(value_of(members))
}

#[tactic(auto, using(crate::proofs::Listing::one_given))]
fn price_values(
    alloc: Global,
    game: &Game,
    goods: &[GoodId],
    prices: &[Ratio],
) -> Result<Vec<Value>, NoMemory>
    requires { IsSound game.now }
    ensures { IfOk result (λ list. map view list.items ≡ map (price_value game.now) (zip goods.now prices.now)) }
{
    let mut list = Vec::new(alloc);
    for (good, price) in goods.iter().zip(prices) {
        push(&mut list, price_value(alloc, game, *good, price)?)?;
    }
    Ok(list)
}

#[tactic(auto, unfolding(crate::specs::Replies::with_prices))]
fn put_prices(
    members: &mut Members,
    alloc: Global,
    game: &Game,
    goods: &[GoodId],
    prices: &[Ratio],
) -> Result<(), NoMemory>
    requires { IsSound game.now }
    ensures { OnOk result (members_view members.new.entries ≡ with_prices game.now goods.now prices.now (members_view members.old.entries)) }
{
    let list = price_values(alloc, game, goods, prices)?;
    put_list(members, alloc, "prices", list)
}

// ---- a plan

fn total_members(alloc: Global, total: &Figures) -> Result<Members, NoMemory>
    ensures { IfOk result (λ inner. members_view inner.entries ≡ with_uses total.now no_members) }
{
    let mut members = Map::new(alloc);
    put_uses(&mut members, alloc, total)?;
    Ok(members)
}

#[tactic(auto, unfolding(crate::specs::Replies::with_plan))]
fn put_plan(
    members: &mut Members,
    alloc: Global,
    game: &Game,
    labels: &[Text],
    goods: &[GoodId],
    columns: &[Column],
    rows: &[Figures],
    total: &Figures,
    plan: &Plan,
) -> Result<(), NoMemory>
    requires { IsSound game.now }
    ensures { OnOk result (members_view members.new.entries ≡ with_plan game.now labels.now goods.now columns.now rows.now total.now plan.now (members_view members.old.entries)) }
{
    let rates = plan.rates.as_slice();
    let prices = plan.prices.as_slice();
    put_kind(members, alloc, "plan")?;
    put_number(members, alloc, "cost", &plan.cost)?;
    put_rows(members, alloc, labels, rates, rows)?;
    put_streams(members, alloc, game, columns, rates)?;
    put_prices(members, alloc, game, goods, prices)?;
    let total = total_members(alloc, total)?;
    put_object(members, alloc, "total", total)
}

#[tactic(auto, unfolding(crate::specs::Replies::with_infeasible))]
fn put_infeasible(
    members: &mut Members,
    alloc: Global,
    game: &Game,
    goods: &[GoodId],
    prices: &[Ratio],
) -> Result<(), NoMemory>
    requires { IsSound game.now }
    ensures { OnOk result (members_view members.new.entries ≡ with_infeasible game.now goods.now prices.now (members_view members.old.entries)) }
{
    put_kind(members, alloc, "infeasible")?;
    put_prices(members, alloc, game, goods, prices)
}

// ---- every answer

#[tactic(auto, unfolding(crate::specs::Replies::with_answer))]
fn put_answer(
    members: &mut Members,
    alloc: Global,
    game: &Game,
    labels: &[Text],
    goods: &[GoodId],
    columns: &[Column],
    rows: &[Figures],
    total: &Figures,
    answer: &SolveAnswer,
) -> Result<(), NoMemory>
    requires { IsSound game.now }
    ensures { OnOk result (members_view members.new.entries ≡ with_answer game.now labels.now goods.now columns.now rows.now total.now answer.now (members_view members.old.entries)) }
{
    match answer {
        SolveAnswer::Planned(plan) => put_plan(
            members, alloc, game, labels, goods, columns, rows, total, plan,
        ),
        SolveAnswer::Infeasible(prices) => {
            put_infeasible(members, alloc, game, goods, prices.as_slice())
        }
        SolveAnswer::TooWide { trail, next, place } => put_too_wide(
            members,
            alloc,
            game,
            labels,
            trail.as_slice(),
            *next,
            *place,
        ),
        SolveAnswer::OutOfBudget { trail } => {
            put_out_of_budget(members, alloc, game, labels, trail.as_slice())
        }
    }
}

/// Puts what the solver says of a table.
#[tactic(auto, unfolding(crate::specs::Replies::with_solved))]
pub fn put_solved(
    members: &mut Members,
    alloc: Global,
    game: &Game,
    table: &str,
    labels: &[Text],
    goods: &[GoodId],
    columns: &[Column],
    rows: &[Figures],
    total: &Figures,
    answer: &SolveAnswer,
) -> Result<(), NoMemory>
    requires { IsSound game.now }
    ensures { OnOk result (members_view members.new.entries ≡ with_solved game.now table.now labels.now goods.now columns.now rows.now total.now answer.now (members_view members.old.entries)) }
{
    put_answer(
        members, alloc, game, labels, goods, columns, rows, total, answer,
    )?;
    put_text(members, alloc, "table", table)
}
