//! The text of a table with its plan.
ghost use Rattle.std.specs.Prelude.{◌≡◌, ◌++◌, [], IfOk, OnOk, map};
ghost use Rattle.std.specs.List.{flat_map, zip};
ghost use Rattle.csv.specs.Records.{fields_of};
ghost use Rattle.game_types.specs.Sound.{IsSound};
ghost use Rattle.plan_records.specs.Records.{flow_record, head_text, price_of, price_record, row_of, row_record, streams_of, total_record, want_of};
ghost use Rattle.plan_records.specs.Texts.{plan_text, record_text, records_text};

use crate::records::{flow_record, price_record, row_record, total_record};
use csv::{Error, StringRecord, WriterBuilder};
use fractions::Ratio;
use game_types::Game;
use linear_table::{Column, Plan};
use plan_base::{GoodId, NoMemory};
use plan_lines::Figures;
use production_table::{Table, TableRow};
use std::alloc::Global;

/// What the solver says of a table with a plan: its goods, its columns, and the figures of each row and of all rows.
#[derive(Clone, Copy)]
pub struct Solved<'a> {
    pub goods: &'a [GoodId],
    pub columns: &'a [Column],
    pub rows: &'a [Figures],
    pub total: &'a Figures,
    pub plan: &'a Plan,
}

const HEAD: &str =
    "section,name,activity,machine,fuel,modules,beacons,rate,rate_decimal,machines,machines_decimal,whole_machines,power,power_decimal,drain,drain_decimal,beacon_power,beacon_power_decimal,pollution,pollution_decimal,price,price_decimal\n";

// The bytes of a record as a writer writes them.
fn written(alloc: Global, fields: &StringRecord) -> Result<Vec<u8>, Error>
    ensures { IfOk result (λ text. text.items ≡ record_text (fields_of fields.now)) }
{
    let mut writer = WriterBuilder::new().from_writer(Vec::new(alloc));
    writer.write_byte_record(fields.as_byte_record())?;
    match writer.into_inner() {
        Ok(text) => Ok(text),
        Err(e) => Err(e.into_error()),
    }
}

/// The text of a record: its fields with commas between, in quotes where they need them, and the newline.
///
/// # Errors
///
/// `NoMemory` where memory could not be had. A writer to memory fails by nothing else.
pub fn record_text(alloc: Global, fields: &StringRecord) -> Result<Vec<u8>, NoMemory>
    ensures { IfOk result (λ text. text.items ≡ record_text (fields_of fields.now)) }
{
    match written(alloc, fields) {
        Ok(text) => Ok(text),
        Err(_) => Err(NoMemory),
    }
}

fn row_text(
    alloc: Global,
    game: &Game,
    row: &TableRow,
    rate: &Ratio,
    figures: &Figures,
) -> Result<Vec<u8>, NoMemory>
    requires { IsSound game.now }
    ensures { IfOk result (λ text. text.items ≡ record_text (row_record game.now row.now rate.now figures.now)) }
{
    let fields = row_record(alloc, game, row, rate, figures)?;
    record_text(alloc, &fields)
}

fn price_text(alloc: Global, game: &Game, good: GoodId, price: &Ratio) -> Result<Vec<u8>, NoMemory>
    requires { IsSound game.now }
    ensures { IfOk result (λ text. text.items ≡ record_text (price_record game.now good price.now)) }
{
    let fields = price_record(alloc, game, good, price)?;
    record_text(alloc, &fields)
}

fn rows_text(
    alloc: Global,
    game: &Game,
    table: &[TableRow],
    rates: &[Ratio],
    rows: &[Figures],
) -> Result<Vec<u8>, NoMemory>
    requires { IsSound game.now }
    ensures { IfOk result (λ text. text.items ≡ records_text (map (row_of game.now) (zip table.now (zip rates.now rows.now)))) }
{
    let mut text = Vec::new(alloc);
    for (row, (rate, figures)) in table.iter().zip(rates.iter().zip(rows)) {
        let line = row_text(alloc, game, row, rate, figures)?;
        text.extend_from_slice(line.as_slice())?;
    }
    Ok(text)
}

fn flow_text(
    alloc: Global,
    game: &Game,
    section: &str,
    good: GoodId,
    rate: &Ratio,
) -> Result<Vec<u8>, NoMemory>
    requires { IsSound game.now }
    ensures { IfOk result (λ text. text.items ≡ record_text (flow_record game.now section.now good rate.now)) }
{
    let fields = flow_record(alloc, game, section, good, rate)?;
    record_text(alloc, &fields)
}

#[tactic(auto, using(plan_report::proofs::Texts::text_first, plan_report::proofs::Texts::text_more, plan_report::proofs::Texts::text_end))]
fn wants_text(alloc: Global, game: &Game, wants: &[(GoodId, Ratio)]) -> Result<Vec<u8>, NoMemory>
    requires { IsSound game.now }
    ensures { IfOk result (λ text. text.items ≡ records_text (map (want_of game.now) wants.now)) }
{
    let mut text = Vec::new(alloc);
    for want in wants {
        let line = flow_text(alloc, game, "want", want.0, &want.1)?;
        text.extend_from_slice(line.as_slice())?;
    }
    Ok(text)
}

// The record of an import or a surplus. A row has its own elsewhere, and a single good has none.
fn stream_text(
    alloc: Global,
    game: &Game,
    column: &Column,
    rate: &Ratio,
) -> Result<Vec<u8>, NoMemory>
    requires { IsSound game.now }
    ensures { IfOk result (λ text. text.items ≡ records_text (streams_of game.now (column.now, rate.now))) }
{
    match column {
        Column::Import(good) => flow_text(alloc, game, "import", *good, rate),
        Column::Surplus(good) => flow_text(alloc, game, "surplus", *good, rate),
        Column::Line(_) => Ok(Vec::new(alloc)),
        Column::Unit(_) => Ok(Vec::new(alloc)),
    }
}

fn streams_text(
    alloc: Global,
    game: &Game,
    columns: &[Column],
    rates: &[Ratio],
) -> Result<Vec<u8>, NoMemory>
    requires { IsSound game.now }
    ensures { IfOk result (λ text. text.items ≡ flat_map records_text (map (streams_of game.now) (zip columns.now rates.now))) }
{
    let mut text = Vec::new(alloc);
    for (column, rate) in columns.iter().zip(rates) {
        let line = stream_text(alloc, game, column, rate)?;
        text.extend_from_slice(line.as_slice())?;
    }
    Ok(text)
}

fn prices_text(
    alloc: Global,
    game: &Game,
    goods: &[GoodId],
    prices: &[Ratio],
) -> Result<Vec<u8>, NoMemory>
    requires { IsSound game.now }
    ensures { IfOk result (λ text. text.items ≡ records_text (map (price_of game.now) (zip goods.now prices.now))) }
{
    let mut text = Vec::new(alloc);
    for (good, price) in goods.iter().zip(prices) {
        let line = price_text(alloc, game, *good, price)?;
        text.extend_from_slice(line.as_slice())?;
    }
    Ok(text)
}

fn total_text(
    alloc: Global,
    table: &str,
    total: &Figures,
    cost: &Ratio,
) -> Result<Vec<u8>, NoMemory>
    ensures { IfOk result (λ text. text.items ≡ record_text (total_record table.now total.now cost.now)) }
{
    let fields = total_record(alloc, table, total, cost)?;
    record_text(alloc, &fields)
}

// Texts one behind another, behind the names of the fields.
fn all_texts(
    alloc: Global,
    rows: &[u8],
    wants: &[u8],
    streams: &[u8],
    prices: &[u8],
    total: &[u8],
) -> Result<Vec<u8>, NoMemory>
    ensures { IfOk result (λ text. text.items ≡ head_text ++ (rows.now ++ (wants.now ++ (streams.now ++ (prices.now ++ total.now))))) }
{
    let mut text = Vec::new(alloc);
    text.extend_from_slice(HEAD.as_bytes())?;
    text.extend_from_slice(rows)?;
    text.extend_from_slice(wants)?;
    text.extend_from_slice(streams)?;
    text.extend_from_slice(prices)?;
    text.extend_from_slice(total)?;
    Ok(text)
}

/// A table with its plan: the names of the fields, then the rows, what is wanted, imports and surpluses, the prices of goods, and the table
/// as a whole.
///
/// # Errors
///
/// `NoMemory` where memory could not be had.
#[tactic(auto, unfolding(crate::specs::Texts::plan_text))]
pub fn plan_text(
    alloc: Global,
    game: &Game,
    table: &Table,
    solved: &Solved<'_>,
) -> Result<Vec<u8>, NoMemory>
    requires { IsSound game.now }
    ensures { IfOk result (λ text. text.items ≡ plan_text game.now table.now solved.now.goods.now solved.now.columns.now solved.now.rows.now solved.now.total.now solved.now.plan.now) }
{
    let rates = solved.plan.rates.as_slice();
    let rows = rows_text(alloc, game, table.rows.as_slice(), rates, solved.rows)?;
    let wants = wants_text(alloc, game, table.wants.as_slice())?;
    let streams = streams_text(alloc, game, solved.columns, rates)?;
    let prices = prices_text(alloc, game, solved.goods, solved.plan.prices.as_slice())?;
    let total = total_text(alloc, table.name.as_str(), solved.total, &solved.plan.cost)?;
    all_texts(
        alloc,
        rows.as_slice(),
        wants.as_slice(),
        streams.as_slice(),
        prices.as_slice(),
        total.as_slice(),
    )
}
