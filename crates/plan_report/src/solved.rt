//! The text of what the solver says of a table.
ghost use Rattle.std.specs.Prelude.{◌≡◌, IfOk, string_bytes};
ghost use Rattle.game_types.specs.Sound.{IsSound};
ghost use Rattle.plan_report.specs.Layout.{further_text, reply_text};
ghost use Rattle.plan_report.specs.Plans.{infeasible_lines, out_of_budget_lines, plan_further_lines, plan_lines, solved_lines, too_wide_lines};

use crate::plans::{
    exchange_lines, exchange_words, place_line, price_lines, row_lines, stream_lines, total_line,
};
use crate::printed_word;
use fractions::Ratio;
use game_types::Game;
use linear_table::{Column, Exchange, Place, Plan, SolveAnswer};
use plan_base::{GoodId, NoMemory, Text};
use plan_lines::Figures;
use std::alloc::Global;

// The further lines of a plan.
fn plan_further(
    alloc: Global,
    game: &Game,
    labels: &[Text],
    goods: &[GoodId],
    columns: &[Column],
    rows: &[Figures],
    total: &Figures,
    rates: &[Ratio],
    prices: &[Ratio],
) -> Result<String, NoMemory>
    requires { IsSound game.now }
    ensures { IfOk result (λ text. string_bytes text ≡ further_text (plan_further_lines game.now labels.now goods.now columns.now rows.now total.now rates.now prices.now)) }
{
    let rows = row_lines(alloc, labels, rates, rows)?;
    let streams = stream_lines(alloc, game, columns, rates)?;
    let prices = price_lines(alloc, game, goods, prices)?;
    let total = total_line(alloc, total)?;
    Ok(format!(in alloc; "{rows}{streams}{prices}{total}")?)
}

fn plan_text(
    alloc: Global,
    line: u32,
    game: &Game,
    table: &str,
    labels: &[Text],
    goods: &[GoodId],
    columns: &[Column],
    rows: &[Figures],
    total: &Figures,
    plan: &Plan,
) -> Result<String, NoMemory>
    requires { IsSound game.now }
    ensures { IfOk result (λ text. string_bytes text ≡ reply_text line (plan_lines game.now table.now labels.now goods.now columns.now rows.now total.now plan.now)) }
{
    let rates = plan.rates.as_slice();
    let prices = plan.prices.as_slice();
    let table = printed_word(alloc, table)?;
    let cost = plan.cost.print(alloc)?;
    let further = plan_further(
        alloc, game, labels, goods, columns, rows, total, rates, prices,
    )?;
    Ok(format!(in alloc; "{line} plan {table} cost {}\n{further}", cost.as_str())?)
}

fn infeasible_text(
    alloc: Global,
    line: u32,
    game: &Game,
    table: &str,
    goods: &[GoodId],
    prices: &[Ratio],
) -> Result<String, NoMemory>
    requires { IsSound game.now }
    ensures { IfOk result (λ text. string_bytes text ≡ reply_text line (infeasible_lines game.now table.now goods.now prices.now)) }
{
    let table = printed_word(alloc, table)?;
    let prices = price_lines(alloc, game, goods, prices)?;
    Ok(format!(in alloc; "{line} infeasible {table}\n{prices}")?)
}

fn too_wide_text(
    alloc: Global,
    line: u32,
    game: &Game,
    table: &str,
    labels: &[Text],
    trail: &[Exchange],
    next: Exchange,
    place: Place,
) -> Result<String, NoMemory>
    requires { IsSound game.now }
    ensures { IfOk result (λ text. string_bytes text ≡ reply_text line (too_wide_lines game.now table.now labels.now trail.now next place)) }
{
    let table = printed_word(alloc, table)?;
    let trail = exchange_lines(alloc, game, labels, trail)?;
    let next = exchange_words(alloc, game, labels, next)?;
    let place = place_line(alloc, game, labels, place)?;
    Ok(format!(in alloc; "{line} refused V1 {table}\n{trail}  next{next}{place}")?)
}

fn out_of_budget_text(
    alloc: Global,
    line: u32,
    game: &Game,
    table: &str,
    labels: &[Text],
    trail: &[Exchange],
) -> Result<String, NoMemory>
    requires { IsSound game.now }
    ensures { IfOk result (λ text. string_bytes text ≡ reply_text line (out_of_budget_lines game.now table.now labels.now trail.now)) }
{
    let table = printed_word(alloc, table)?;
    let trail = exchange_lines(alloc, game, labels, trail)?;
    Ok(format!(in alloc; "{line} refused V2 {table}\n{trail}")?)
}

/// What the solver says of a table, as it is told.
pub fn solved_text(
    alloc: Global,
    line: u32,
    game: &Game,
    table: &str,
    labels: &[Text],
    goods: &[GoodId],
    columns: &[Column],
    rows: &[Figures],
    total: &Figures,
    answer: &SolveAnswer,
) -> Result<String, NoMemory>
    requires { IsSound game.now }
    ensures { IfOk result (λ text. string_bytes text ≡ reply_text line (solved_lines game.now table.now labels.now goods.now columns.now rows.now total.now answer.now)) }
{
    match answer {
        SolveAnswer::Planned(plan) => plan_text(
            alloc, line, game, table, labels, goods, columns, rows, total, plan,
        ),
        SolveAnswer::Infeasible(prices) => {
            infeasible_text(alloc, line, game, table, goods, prices.as_slice())
        }
        SolveAnswer::TooWide { trail, next, place } => too_wide_text(
            alloc,
            line,
            game,
            table,
            labels,
            trail.as_slice(),
            *next,
            *place,
        ),
        SolveAnswer::OutOfBudget { trail } => {
            out_of_budget_text(alloc, line, game, table, labels, trail.as_slice())
        }
    }
}
