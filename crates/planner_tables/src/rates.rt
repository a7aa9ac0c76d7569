//! What is answered about the rates of a row.
ghost use Rattle.std.specs.Prelude.{◌≡◌, IfOk, find, option_map};
ghost use Rattle.plan_base.specs.Outcomes.{Gives};
ghost use Rattle.game_types.specs.Sound.{IsSound};
ghost use Rattle.production_table.specs.Tables.{is_label};
ghost use Rattle.table_rows.specs.Columns.{figures_of};
ghost use Rattle.table_rows.specs.Setups.{IsFitting};
ghost use Rattle.planner_tables.specs.Effects.{AreSoundTables, IsSoundOn};
ghost use Rattle.planner_tables.specs.Questions.{rate_outcome, rate_reply, rates_outcome, rates_reply, row_rates_outcome};

use crate::changes::table_named;
use crate::faults::no_name;
use crate::{TableRefusal, refused};
use fractions::Ratio;
use game_types::{Effects, Game, Rates};
use plan_base::{Denied, NoMemory, Text};
use plan_lines::Reply;
use production_table::{Table, TableRow};
use std::alloc::Global;
use table_rows::row_rates;

// The row with a label.
fn find_row<'a>(rows: &'a [TableRow], label: &str) -> Option<&'a TableRow>
    ensures { option_map (λ row. row.now) result ≡ find (is_label label.now) rows.now }
{
    rows.iter().find(|row| row.label.as_str() == label)
}

// The reply that tells the rates of a row.
fn rates_reply(
    alloc: Global,
    table: &Table,
    row: &TableRow,
    rates: &(Effects, Rates, Ratio),
) -> Result<Reply, NoMemory>
    ensures { IfOk result (λ reply. reply ≡ rates_reply table.now row.now rates.now) }
{
    let name = Text::copy(alloc, table.name.as_str())?;
    let label = Text::copy(alloc, row.label.as_str())?;
    Ok(Reply::Rate {
        table: name,
        label,
        effects: rates.0,
        rates: rates.1,
        beacons: rates.2,
    })
}

// The rates of a row, or that a step of them is too wide.
fn rates_of(
    alloc: Global,
    game: &Game,
    table: &Table,
    row: &TableRow,
) -> Result<Reply, Denied<TableRefusal>>
    requires sound { IsSound game.now }
    requires fits { IsFitting game.now row.now.setup }
    ensures { Gives (rates_outcome table.now row.now (figures_of game.now row.now.setup)) result }
{
    match row_rates(game, &row.setup) {
        Ok(rates) => {
            let reply = rates_reply(alloc, table, row, &rates)?;
            Ok(reply)
        }
        Err(wide) => {
            let label = Text::copy(alloc, row.label.as_str())?;
            Err(Denied::Refused(TableRefusal::Wide {
                label,
                step: wide.step,
            }))
        }
    }
}

// The rates of the row with a label.
fn row_rates_of(
    alloc: Global,
    game: &Game,
    table: &Table,
    label: &Text,
) -> Result<Reply, Denied<TableRefusal>>
    requires sound { IsSound game.now }
    requires table { IsSoundOn game.now table.now }
    ensures { Gives (row_rates_outcome game.now table.now label.now) result }
{
    match find_row(table.rows.as_slice(), label.as_str()) {
        Some(row) => rates_of(alloc, game, table, row),
        None => Err(no_name(alloc, label)),
    }
}

// The rates of a row of a table.
#[tactic(auto, unfolding(crate::specs::Questions::rate_outcome))]
fn rates_named(
    alloc: Global,
    game: &Game,
    tables: &[Table],
    table: &Text,
    label: &Text,
) -> Result<Reply, Denied<TableRefusal>>
    requires sound { IsSound game.now }
    requires tables { AreSoundTables game.now tables.now }
    ensures { Gives (rate_outcome game.now tables.now table.now label.now) result }
{
    let place = table_named(alloc, tables, table)?;
    row_rates_of(alloc, game, &tables[place], label)
}

/// The rates of a row, for one craft a second, or why there are none.
///
/// # Errors
///
/// `NoMemory` where memory could not be had.
pub fn rate_reply(
    alloc: Global,
    game: &Game,
    tables: &[Table],
    table: &Text,
    label: &Text,
) -> Result<Reply, NoMemory>
    requires sound { IsSound game.now }
    requires tables { AreSoundTables game.now tables.now }
    ensures { IfOk result (λ reply. reply ≡ rate_reply game.now tables.now table.now label.now) }
{
    match rates_named(alloc, game, tables, table, label) {
        Ok(reply) => Ok(reply),
        Err(Denied::Refused(refusal)) => Ok(refused(game, refusal, None)),
        Err(Denied::NoMemory) => Err(NoMemory),
    }
}
