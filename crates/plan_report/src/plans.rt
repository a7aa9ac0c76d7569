// The further lines of what the solver says of a table.
ghost use Rattle.std.specs.Prelude.{◌≡◌, ◌∷◌, ◌++◌, [], IfOk, OnOk, codes, map, slice_index_or, string_bytes};
ghost use Rattle.std.specs.List.{flat_map, zip};
ghost use Rattle.fractions.specs.Print.{printed};
ghost use Rattle.game_types.specs.Sound.{IsSound};
ghost use Rattle.plan_report.specs.Nodes.{good_word};
ghost use Rattle.plan_report.specs.Layout.{further_line, further_text, line_then};
ghost use Rattle.plan_report.specs.Plans.{column_kind, column_name, exchange_line, figure_word, place_line, price_line, price_lines, row_line, stream_lines, total_line, use_words};

use crate::nodes::push_good_word;
use crate::words::push_printed_word;
use crate::{good_word, printed_word};
use fractions::Ratio;
use game_types::Game;
use linear_table::{Column, Exchange, Place};
use plan_base::{GoodId, NoMemory, Text};
use plan_lines::Figures;
use std::alloc::Global;

// Puts a number behind a text.
fn push_number(alloc: Global, text: &mut String, number: &Ratio) -> Result<(), NoMemory>
    ensures { OnOk result (string_bytes text.new ≡ string_bytes text.old ++ printed number.now) }
{
    let number = number.print(alloc)?;
    text.push_str(number.as_str())?;
    Ok(())
}

// Puts a figure, or that it is past the limits of fractions, behind a text.
fn push_figure_word(alloc: Global, text: &mut String, figure: Option<Ratio>) -> Result<(), NoMemory>
    ensures { OnOk result (string_bytes text.new ≡ string_bytes text.old ++ figure_word figure) }
{
    match figure {
        Some(figure) => push_number(alloc, text, &figure),
        None => {
            text.push_str("wide")?;
            Ok(())
        }
    }
}

// Puts a word and a figure behind a text.
fn push_figure(
    alloc: Global,
    text: &mut String,
    word: &str,
    figure: Option<Ratio>,
) -> Result<(), NoMemory>
    ensures { OnOk result (string_bytes text.new ≡ string_bytes text.old ++ (word.now ++ figure_word figure)) }
{
    text.push_str(word)?;
    push_figure_word(alloc, text, figure)
}

// Puts the end of a line behind a text: power, drain, beacons and pollution.
fn push_use_words(alloc: Global, text: &mut String, figures: &Figures) -> Result<(), NoMemory>
    ensures { OnOk result (string_bytes text.new ≡ string_bytes text.old ++ line_then (use_words figures.now) []) }
{
    push_figure(alloc, text, " power ", figures.power)?;
    push_figure(alloc, text, " drain ", figures.drain)?;
    push_figure(alloc, text, " beacons ", figures.beacons)?;
    push_figure(alloc, text, " pollution ", figures.pollution)?;
    text.push_str("\n")?;
    Ok(())
}

// Puts a row of a plan at its rate behind a text.
fn push_row_line(
    alloc: Global,
    text: &mut String,
    label: &str,
    rate: &Ratio,
    figures: &Figures,
) -> Result<(), NoMemory>
    ensures { OnOk result (string_bytes text.new ≡ string_bytes text.old ++ further_line (row_line (label.now, (rate.now, figures.now)))) }
{
    text.push_str("  row ")?;
    push_printed_word(alloc, text, label)?;
    push_figure(alloc, text, " rate ", Some(*rate))?;
    push_figure(alloc, text, " machines ", figures.machines)?;
    push_figure(alloc, text, " count ", figures.count)?;
    push_use_words(alloc, text, figures)
}

/// A line for each row of a plan.
pub fn row_lines(
    alloc: Global,
    labels: &[Text],
    rates: &[Ratio],
    rows: &[Figures],
) -> Result<String, NoMemory>
    ensures { IfOk result (λ text. string_bytes text ≡ further_text (map row_line (zip labels.now (zip rates.now rows.now)))) }
{
    let mut text = String::new(alloc);
    for (label, (rate, figures)) in labels.iter().zip(rates.iter().zip(rows)) {
        push_row_line(alloc, &mut text, label.as_str(), rate, figures)?;
    }
    Ok(text)
}

// Puts a good and a number behind a text and a word.
fn push_good_line(
    alloc: Global,
    text: &mut String,
    game: &Game,
    word: &str,
    good: GoodId,
    number: &Ratio,
) -> Result<(), NoMemory>
    requires { IsSound game.now }
    ensures { OnOk result (string_bytes text.new ≡ string_bytes text.old ++ further_line (word.now ∷ good_word game.now good ∷ printed number.now ∷ [])) }
{
    text.push_str("  ")?;
    text.push_str(word)?;
    text.push_str(" ")?;
    push_good_word(alloc, text, game, good)?;
    text.push_str(" ")?;
    push_number(alloc, text, number)?;
    text.push_str("\n")?;
    Ok(())
}

// Puts the line of an import or a surplus at its rate behind a text. A row has its line elsewhere, and a single good has none.
fn push_stream_line(
    alloc: Global,
    text: &mut String,
    game: &Game,
    column: &Column,
    rate: &Ratio,
) -> Result<(), NoMemory>
    requires { IsSound game.now }
    ensures { OnOk result (string_bytes text.new ≡ string_bytes text.old ++ further_text (stream_lines game.now (column.now, rate.now))) }
{
    match column {
        Column::Import(good) => push_good_line(alloc, text, game, "import", *good, rate),
        Column::Surplus(good) => push_good_line(alloc, text, game, "surplus", *good, rate),
        Column::Line(_) => Ok(()),
        Column::Unit(_) => Ok(()),
    }
}

/// A line for each import and each surplus of a plan.
pub fn stream_lines(
    alloc: Global,
    game: &Game,
    columns: &[Column],
    rates: &[Ratio],
) -> Result<String, NoMemory>
    requires { IsSound game.now }
    ensures { IfOk result (λ text. string_bytes text ≡ flat_map further_text (map (stream_lines game.now) (zip columns.now rates.now))) }
{
    let mut text = String::new(alloc);
    for (column, rate) in columns.iter().zip(rates) {
        push_stream_line(alloc, &mut text, game, column, rate)?;
    }
    Ok(text)
}

/// A line for each good and its price.
pub fn price_lines(
    alloc: Global,
    game: &Game,
    goods: &[GoodId],
    prices: &[Ratio],
) -> Result<String, NoMemory>
    requires { IsSound game.now }
    ensures { IfOk result (λ text. string_bytes text ≡ further_text (price_lines game.now goods.now prices.now)) }
{
    let mut text = String::new(alloc);
    for (good, price) in goods.iter().zip(prices) {
        push_good_line(alloc, &mut text, game, "price", *good, price)?;
    }
    Ok(text)
}

/// The line of the totals.
pub fn total_line(alloc: Global, total: &Figures) -> Result<String, NoMemory>
    ensures { IfOk result (λ text. string_bytes text ≡ further_line (total_line total.now)) }
{
    let mut text = String::from_str(alloc, "  total")?;
    push_use_words(alloc, &mut text, total)?;
    Ok(text)
}

fn column_kind(column: Column) -> &'static str
    ensures { result.now ≡ column_kind column }
{
    match column {
        Column::Line(_) => "row",
        Column::Import(_) => "import",
        Column::Surplus(_) => "surplus",
        Column::Unit(_) => "unit",
    }
}

// The label of a row, empty past the last.
fn label_at(labels: &[Text], row: u32) -> &str
    ensures { result.now ≡ slice_index_or labels.now row [] }
{
    match labels.get(row as usize) {
        Some(label) => label.as_str(),
        None => "",
    }
}

// The name of a column: the label of its row, or its good.
fn column_name(
    alloc: Global,
    game: &Game,
    labels: &[Text],
    column: Column,
) -> Result<String, NoMemory>
    requires { IsSound game.now }
    ensures { IfOk result (λ text. string_bytes text ≡ column_name game.now labels.now column) }
{
    match column {
        Column::Line(row) => Ok(printed_word(alloc, label_at(labels, row))?),
        Column::Import(good) => Ok(good_word(alloc, game, good)?),
        Column::Surplus(good) => Ok(good_word(alloc, game, good)?),
        Column::Unit(good) => Ok(good_word(alloc, game, good)?),
    }
}

/// The words of an exchange, each behind a space, and the end of their line.
pub fn exchange_words(
    alloc: Global,
    game: &Game,
    labels: &[Text],
    exchange: Exchange,
) -> Result<String, NoMemory>
    requires { IsSound game.now }
    ensures { IfOk result (λ text. string_bytes text ≡ line_then (exchange_line game.now labels.now exchange) []) }
{
    let enter = column_name(alloc, game, labels, exchange.enter)?;
    let leave = column_name(alloc, game, labels, exchange.leave)?;
    let enter_kind = column_kind(exchange.enter);
    let leave_kind = column_kind(exchange.leave);
    Ok(format!(in alloc; " enter {enter_kind} {enter} leave {leave_kind} {leave}\n")?)
}

/// A line for each exchange.
pub fn exchange_lines(
    alloc: Global,
    game: &Game,
    labels: &[Text],
    trail: &[Exchange],
) -> Result<String, NoMemory>
    requires { IsSound game.now }
    ensures { IfOk result (λ text. string_bytes text ≡ further_text (map (exchange_line game.now labels.now) trail.now)) }
{
    let mut text = String::new(alloc);
    for exchange in trail {
        let words = exchange_words(alloc, game, labels, *exchange)?;
        write!(text, " {words}")?;
    }
    Ok(text)
}

/// The line of the number that is past the limits.
pub fn place_line(
    alloc: Global,
    game: &Game,
    labels: &[Text],
    place: Place,
) -> Result<String, NoMemory>
    requires { IsSound game.now }
    ensures { IfOk result (λ text. string_bytes text ≡ further_line (place_line game.now labels.now place)) }
{
    match place {
        Place::Entry { column, row } => {
            let name = column_name(alloc, game, labels, column)?;
            let kind = column_kind(column);
            Ok(format!(in alloc; "  entry {kind} {name} {row}\n")?)
        }
        Place::Value { row } => Ok(format!(in alloc; "  value {row}\n")?),
        Place::Reduced { column } => {
            let name = column_name(alloc, game, labels, column)?;
            let kind = column_kind(column);
            Ok(format!(in alloc; "  reduced {kind} {name}\n")?)
        }
        Place::Total => Ok(String::from_str(alloc, "  total\n")?),
    }
}
