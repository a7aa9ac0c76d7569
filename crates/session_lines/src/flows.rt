//! The flows of a plan, what is wanted of it, and the beacons to build for it.
ghost use Rattle.std.specs.Prelude.{◌<◌, IfSome, length};
ghost use Rattle.game_types.specs.Sound.{IsSound};
ghost use Rattle.planner_tables.specs.Effects.{AreSoundTables, IsSoundOn};

use crate::answers::{
    Done, push_good, push_number, push_outcome, push_reply, push_text, push_word,
};
use crate::builds::push_builds;
use crate::planned::{Planned, linear_form, row_of};
use fractions::Ratio;
use game_types::Game;
use linear_table::{Linear, LinearColumn, Plan, SolveAnswer};
use page_parts::{Amount, Flow, column_flows};
use plan_base::GoodId;
use plan_lines::{Figures, Reply};
use planner_core::Planner;
use production_table::Table;
use std::alloc::Global;

// An amount without its sign.
fn magnitude(amount: &Amount) -> Option<Ratio> {
    match amount {
        Amount::Exact(amount) => {
            if amount.is_neg() {
                Some(amount.neg())
            } else {
                Some(*amount)
            }
        }
        Amount::Wide => None,
    }
}

fn flow_word(gives: bool) -> &'static str {
    if gives { "  gives" } else { "  takes" }
}

// The good at a place among those of a table.
fn push_good_at(alloc: Global, out: &mut String, game: &Game, goods: &[GoodId], place: u32) -> Done
    requires { IsSound game.now }
{
    match goods.get(place as usize) {
        Some(good) => push_good(alloc, out, game, *good),
        None => Ok(()),
    }
}

fn push_flow(
    alloc: Global,
    out: &mut String,
    game: &Game,
    goods: &[GoodId],
    label: &str,
    flow: &Flow,
) -> Done
    requires { IsSound game.now }
{
    push_text(out, flow_word(flow.gives))?;
    push_word(alloc, out, label)?;
    push_good_at(alloc, out, game, goods, flow.good)?;
    push_outcome(alloc, out, &magnitude(&flow.amount))?;
    push_text(out, "\n")
}

// The flows of a row that go in, or those that come out.
fn push_side(
    alloc: Global,
    out: &mut String,
    game: &Game,
    goods: &[GoodId],
    label: &str,
    flows: &[Flow],
    gives: bool,
) -> Done
    requires { IsSound game.now }
{
    for flow in flows {
        if flow.gives == gives {
            push_flow(alloc, out, game, goods, label, flow)?;
        }
    }
    Ok(())
}

fn push_row_flows(
    alloc: Global,
    out: &mut String,
    planned: &Planned<'_>,
    label: &str,
    column: &LinearColumn,
    rate: &Ratio,
) -> Done
    requires { IsSound planned.now.game.now }
{
    let goods = planned.linear.goods.as_slice();
    let flows = column_flows(alloc, column.parts.as_slice(), rate)?;
    push_side(
        alloc,
        out,
        planned.game,
        goods,
        label,
        flows.as_slice(),
        false,
    )?;
    push_side(
        alloc,
        out,
        planned.game,
        goods,
        label,
        flows.as_slice(),
        true,
    )
}

// What flows through a row that is at work.
fn push_column(
    alloc: Global,
    out: &mut String,
    planned: &Planned<'_>,
    column: &LinearColumn,
    rate: &Ratio,
) -> Done
    requires { IsSound planned.now.game.now }
{
    match row_of(planned, column) {
        Some((row, _)) => push_row_flows(alloc, out, planned, row.label.as_str(), column, rate),
        None => Ok(()),
    }
}

fn push_flows(alloc: Global, out: &mut String, planned: &Planned<'_>) -> Done
    requires { IsSound planned.now.game.now }
{
    let columns = planned.linear.columns.as_slice();
    let rates = planned.plan.rates.as_slice();
    for (column, rate) in columns.iter().zip(rates) {
        if !rate.is_zero() {
            push_column(alloc, out, planned, column, rate)?;
        }
    }
    Ok(())
}

fn push_want(alloc: Global, out: &mut String, game: &Game, good: GoodId, rate: &Ratio) -> Done
    requires { IsSound game.now }
{
    if rate.is_zero() {
        return Ok(());
    }
    push_text(out, "  wanted")?;
    push_good(alloc, out, game, good)?;
    push_number(alloc, out, rate)?;
    push_text(out, "\n")
}

fn push_wants(alloc: Global, out: &mut String, game: &Game, linear: &Linear) -> Done
    requires { IsSound game.now }
{
    for (good, rate) in linear.goods.as_slice().iter().zip(linear.wants.as_slice()) {
        push_want(alloc, out, game, *good, rate)?;
    }
    Ok(())
}

fn push_planned(alloc: Global, out: &mut String, planned: &Planned<'_>) -> Done
    requires { IsSound planned.now.game.now }
{
    push_flows(alloc, out, planned)?;
    push_wants(alloc, out, planned.game, planned.linear)?;
    push_builds(alloc, out, planned)
}

// The flows of a plan of a table.
fn push_plan(
    alloc: Global,
    out: &mut String,
    game: &Game,
    table: &Table,
    plan: &Plan,
    rows: &[Figures],
) -> Done
    requires sound { IsSound game.now }
    requires table { IsSoundOn game.now table.now }
{
    match linear_form(alloc, game, table)? {
        Some(linear) => {
            let planned = Planned {
                game,
                table,
                linear: &linear,
                plan,
                rows,
            };
            push_planned(alloc, out, &planned)
        }
        None => Ok(()),
    }
}

// The place of the table of a name.
fn place_of(tables: &[Table], name: &str) -> Option<usize>
    ensures { IfSome result (λ place. place < length tables.now) }
{
    tables.iter().position(|table| table.name.as_str() == name)
}

fn push_plan_among(
    alloc: Global,
    out: &mut String,
    game: &Game,
    tables: &[Table],
    name: &str,
    plan: &Plan,
    rows: &[Figures],
) -> Done
    requires sound { IsSound game.now }
    requires tables { AreSoundTables game.now tables.now }
{
    match place_of(tables, name) {
        Some(place) => push_plan(alloc, out, game, &tables[place], plan, rows),
        None => Ok(()),
    }
}

fn push_plan_of(
    alloc: Global,
    out: &mut String,
    planner: &Planner,
    name: &str,
    plan: &Plan,
    rows: &[Figures],
) -> Done {
    let game = planner.game();
    let tables = planner.tables();
    push_plan_among(alloc, out, game, tables, name, plan, rows)
}

/// Writes the reply to a `solve`, and behind it, where that is a plan, its flows, its wants and the beacons to build.
pub fn push_flow_answer(alloc: Global, out: &mut String, planner: &Planner, reply: &Reply) -> Done {
    push_reply(alloc, out, reply, planner.game())?;
    match reply {
        Reply::Solved {
            table,
            rows,
            answer: SolveAnswer::Planned(plan),
            ..
        } => push_plan_of(alloc, out, planner, table.as_str(), plan, rows.as_slice()),
        _ => Ok(()),
    }
}
