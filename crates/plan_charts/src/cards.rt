//! A plan as cards, each with what flows into it and out of it.
ghost use Rattle.game_types.specs.Sound.{IsSound};

use fractions::Ratio;
use game_types::Game;
use linear_table::{Column, Linear, LinearColumn, Plan};
use page_parts::{Amount, Done, Flow, column_flows, machine_name};
use page_rows::{Thing, good_thing, thing_name};
use plan_base::{NoMemory, Text};
use plan_lines::Figures;
use production_table::Table;
use std::alloc::Global;

/// A plan of a table, with the table as it stood.
#[derive(Drop)]
pub struct Shown<'a> {
    pub game: &'a Game,
    pub table: &'a Table,
    pub linear: &'a Linear,
    pub plan: &'a Plan,
    pub rows: &'a [Figures],
    pub total: &'a Figures,
}

/// What a card stands for.
#[derive(Clone, Copy, Debug, PartialEq, Eq)]
pub enum CardKind {
    /// A row at work.
    Row,
    /// A good that comes in.
    Import,
    /// A good that goes out.
    Surplus,
    /// A good that is wanted.
    Want,
}

/// A card of a chart.
#[derive(Drop)]
pub struct Card {
    pub kind: CardKind,
    /// The number of its row, where it is one.
    pub row: Option<u32>,
    pub title: Text,
    pub about: Text,
    pub flows: Vec<Flow>,
}

/// A good of a chart.
#[derive(Drop)]
pub struct ChartGood {
    pub thing: Thing,
    pub name: Text,
}

/// A plan as a chart.
#[derive(Drop)]
pub struct Chart {
    pub cards: Vec<Card>,
    pub goods: Vec<ChartGood>,
}

// How many machines of which kind a row has.
fn machines(alloc: Global, shown: &Shown<'_>, row: usize) -> Result<Text, NoMemory>
    requires { IsSound shown.now.game.now }
{
    let mut text = String::new(alloc);
    push_machines(alloc, &mut text, shown, row)?;
    Ok(Text::from_string(text))
}

fn machine_of<'a>(shown: &Shown<'a>, row: usize) -> &'a str
    requires { IsSound shown.now.game.now }
{
    match shown.table.rows.as_slice().get(row) {
        Some(row) => machine_name(shown.game, row.setup.machine),
        None => "",
    }
}

fn push_machines(alloc: Global, text: &mut String, shown: &Shown<'_>, row: usize) -> Done
    requires { IsSound shown.now.game.now }
{
    push_machine_count(alloc, text, shown.rows.get(row))?;
    text.push_str(machine_of(shown, row))?;
    Ok(())
}

// How many there are, but of a row without machines of its own.
fn push_count(alloc: Global, text: &mut String, count: &Ratio) -> Done {
    if count.is_zero() {
        return Ok(());
    }
    let count = count.print(alloc)?;
    text.push_str(count.as_str())?;
    text.push_str(" × ")?;
    Ok(())
}

fn push_machine_count(alloc: Global, text: &mut String, figures: Option<&Figures>) -> Done {
    if let Some(figures) = figures {
        if let Some(count) = &figures.count {
            return push_count(alloc, text, count);
        }
    }
    text.push_str("wide × ")?;
    Ok(())
}

fn label<'a>(shown: &Shown<'a>, row: usize) -> &'a str {
    match shown.table.rows.as_slice().get(row) {
        Some(row) => row.label.as_str(),
        None => "",
    }
}

fn kind_of(column: Column) -> CardKind {
    match column {
        Column::Line(_) => CardKind::Row,
        Column::Surplus(_) => CardKind::Surplus,
        _ => CardKind::Import,
    }
}

fn row_of(column: Column) -> Option<u32> {
    match column {
        Column::Line(row) => Some(row),
        _ => None,
    }
}

fn title_of<'a>(shown: &Shown<'a>, column: Column) -> &'a str {
    match column {
        Column::Line(row) => label(shown, row as usize),
        Column::Import(_) => "import",
        Column::Surplus(_) => "surplus",
        Column::Unit(_) => "",
    }
}

fn about_of(alloc: Global, shown: &Shown<'_>, column: Column) -> Result<Text, NoMemory>
    requires { IsSound shown.now.game.now }
{
    match column {
        Column::Line(row) => machines(alloc, shown, row as usize),
        _ => Text::copy(alloc, ""),
    }
}

// What goes in stands above what comes out.
fn sorted_flows(
    alloc: Global,
    parts: &[(u32, Ratio)],
    rate: &Ratio,
) -> Result<Vec<Flow>, NoMemory> {
    let mut flows = column_flows(alloc, parts, rate)?;
    flows.sort_by_key(|flow| flow.gives)?;
    Ok(flows)
}

// The card of a column at a rate.
fn card_of(
    alloc: Global,
    shown: &Shown<'_>,
    column: &LinearColumn,
    rate: &Ratio,
) -> Result<Card, NoMemory>
    requires { IsSound shown.now.game.now }
{
    let title = Text::copy(alloc, title_of(shown, column.column))?;
    let about = about_of(alloc, shown, column.column)?;
    let flows = sorted_flows(alloc, column.parts.as_slice(), rate)?;
    Ok(Card {
        kind: kind_of(column.column),
        row: row_of(column.column),
        title,
        about,
        flows,
    })
}

fn want_flows(alloc: Global, good: u32, rate: &Ratio) -> Result<Vec<Flow>, NoMemory> {
    let mut flows = Vec::new(alloc);
    flows.push(Flow {
        good,
        gives: false,
        amount: Amount::Exact(rate.neg()),
    })?;
    Ok(flows)
}

// The card of a wanted good.
fn want_card(alloc: Global, good: u32, rate: &Ratio) -> Result<Card, NoMemory> {
    let title = Text::copy(alloc, "wanted")?;
    let about = Text::copy(alloc, "")?;
    let flows = want_flows(alloc, good, rate)?;
    Ok(Card {
        kind: CardKind::Want,
        row: None,
        title,
        about,
        flows,
    })
}

fn add_card(cards: &mut Vec<Card>, made: Result<Card, NoMemory>) -> Done {
    let card = made?;
    cards.push(card)?;
    Ok(())
}

fn add_column(
    alloc: Global,
    shown: &Shown<'_>,
    column: &LinearColumn,
    rate: &Ratio,
    cards: &mut Vec<Card>,
) -> Done
    requires { IsSound shown.now.game.now }
{
    if rate.is_zero() {
        return Ok(());
    }
    add_card(cards, card_of(alloc, shown, column, rate))
}

// A card for each column that is used.
fn add_columns(alloc: Global, shown: &Shown<'_>, cards: &mut Vec<Card>) -> Done
    requires { IsSound shown.now.game.now }
{
    for (column, rate) in shown
        .linear
        .columns
        .as_slice()
        .iter()
        .zip(shown.plan.rates.as_slice())
    {
        add_column(alloc, shown, column, rate, cards)?;
    }
    Ok(())
}

// A card for each good that is wanted.
fn add_wants(alloc: Global, wants: &[Ratio], cards: &mut Vec<Card>) -> Done {
    let mut good: u32 = 0;
    for rate in wants {
        if !rate.is_zero() {
            add_card(cards, want_card(alloc, good, rate))?;
        }
        good = good.saturating_add(1);
    }
    Ok(())
}

fn add_good(alloc: Global, thing: Thing, name: &str, goods: &mut Vec<ChartGood>) -> Done {
    let name = Text::copy(alloc, name)?;
    goods.push(ChartGood { thing, name })?;
    Ok(())
}

fn add_goods(alloc: Global, shown: &Shown<'_>, goods: &mut Vec<ChartGood>) -> Done
    requires { IsSound shown.now.game.now }
{
    for good in shown.linear.goods.as_slice() {
        let thing = good_thing(shown.game, *good);
        add_good(alloc, thing, thing_name(shown.game, thing), goods)?;
    }
    Ok(())
}

impl Chart {
    /// A chart of nothing.
    pub fn new(alloc: Global) -> Chart {
        Chart {
            cards: Vec::new(alloc),
            goods: Vec::new(alloc),
        }
    }

    /// The cards and the goods of a plan come in.
    pub fn show(&mut self, alloc: Global, shown: &Shown<'_>) -> Done
        requires { IsSound shown.now.game.now }
    {
        add_columns(alloc, shown, &mut self.cards)?;
        add_wants(alloc, shown.linear.wants.as_slice(), &mut self.cards)?;
        add_goods(alloc, shown, &mut self.goods)
    }
}

/// The chart of a plan: a card for each column that is used and for each good that is wanted.
pub fn chart_of(alloc: Global, shown: &Shown<'_>) -> Result<Chart, NoMemory>
    requires { IsSound shown.now.game.now }
{
    let mut chart = Chart::new(alloc);
    chart.show(alloc, shown)?;
    Ok(chart)
}
