//! The goods of a plan: what is made and wanted of each, what comes in and goes out, how many belts that takes, and its price.
ghost use Rattle.game_types.specs.Sound.{IsSound};

use fractions::Ratio;
use game_types::Game;
use linear_table::{Column, LinearColumn};
use page_parts::Done;
use page_rows::{Piece, Thing, amount_cell, figure_cell, good_thing, number_cell, put, thing_text};
use plan_base::{GoodId, Kind, NoMemory};
use plan_charts::Shown;
use std::alloc::Global;

// How many items a second the plain game's first belt carries.
const BELT: i64 = 15;

// The rate at which a good comes in or goes out, 0 where it doesn't.
fn stream(shown: &Shown<'_>, wanted: Column) -> Ratio {
    for (column, rate) in shown
        .linear
        .columns
        .as_slice()
        .iter()
        .zip(shown.plan.rates.as_slice())
    {
        if column.column == wanted {
            return *rate;
        }
    }
    Ratio::zero()
}

// What a column adds to the good at a place, 0 where it takes of it.
fn given(column: &LinearColumn, rate: &Ratio, place: usize) -> Option<Ratio> {
    for (good, part) in column.parts.as_slice() {
        if *good as usize == place && part.is_positive() {
            return part.mul(rate).ok();
        }
    }
    Some(Ratio::zero())
}

// All that is given of the good at a place, by rows and from outside.
fn all_given(shown: &Shown<'_>, place: usize) -> Option<Ratio> {
    let mut sum = Ratio::zero();
    for (column, rate) in shown
        .linear
        .columns
        .as_slice()
        .iter()
        .zip(shown.plan.rates.as_slice())
    {
        let more = given(column, rate, place)?;
        sum = sum.add(&more).ok()?;
    }
    Some(sum)
}

// How many belts of items that fills.
fn belts(thing: Thing, amount: &Option<Ratio>) -> Option<Ratio> {
    if thing.kind != Kind::Item {
        return Some(Ratio::zero());
    }
    match amount {
        Some(amount) => amount.mul(&Ratio::part(1, BELT)).ok(),
        None => None,
    }
}

fn push_thing(alloc: Global, out: &mut String, game: &Game, thing: Thing) -> Done {
    let text = thing_text(alloc, game, thing)?;
    put(
        alloc,
        out,
        &[
            Piece::Text("<tr data-f><th>"),
            Piece::Text(text.as_str()),
            Piece::Text("</th>"),
        ],
    )
}

// A cell with how much flows, or with nothing for 0.
fn amount_text(
    alloc: Global,
    label: &str,
    thing: Thing,
    amount: &Option<Ratio>,
) -> Result<String, NoMemory> {
    match amount {
        Some(amount) => {
            if amount.is_zero() {
                return Ok(String::from_str(alloc, "<td></td>")?);
            }
            amount_cell(alloc, label, thing.kind == Kind::Special, amount)
        }
        None => figure_cell(alloc, label, amount),
    }
}

fn push_amount(
    alloc: Global,
    out: &mut String,
    label: &str,
    thing: Thing,
    amount: &Option<Ratio>,
) -> Done {
    let text = amount_text(alloc, label, thing, amount)?;
    put(alloc, out, &[Piece::Text(text.as_str())])
}

// A cell with a number, or with nothing for 0.
fn belts_text(alloc: Global, count: &Option<Ratio>) -> Result<String, NoMemory> {
    match count {
        Some(number) => {
            if number.is_zero() {
                return Ok(String::from_str(alloc, "<td></td>")?);
            }
            number_cell(alloc, "belts", number)
        }
        None => figure_cell(alloc, "belts", count),
    }
}

// The last cells of a good.
fn push_price(alloc: Global, out: &mut String, price: &Ratio) -> Done {
    let price = number_cell(alloc, "price", price)?;
    put(
        alloc,
        out,
        &[Piece::Text(price.as_str()), Piece::Text("</tr>\n")],
    )
}

fn push_belts(alloc: Global, out: &mut String, count: &Option<Ratio>) -> Done {
    let count = belts_text(alloc, count)?;
    put(alloc, out, &[Piece::Text(count.as_str())])
}

fn push_streams(
    alloc: Global,
    out: &mut String,
    shown: &Shown<'_>,
    place: usize,
    good: GoodId,
    want: &Ratio,
) -> Done
    requires { IsSound shown.now.game.now }
{
    let thing = good_thing(shown.game, good);
    let all = all_given(shown, place);
    let import = Some(stream(shown, Column::Import(good)));
    let surplus = Some(stream(shown, Column::Surplus(good)));
    push_thing(alloc, out, shown.game, thing)?;
    push_amount(alloc, out, "in all", thing, &all)?;
    push_amount(alloc, out, "wanted", thing, &Some(*want))?;
    push_amount(alloc, out, "import", thing, &import)?;
    push_amount(alloc, out, "surplus", thing, &surplus)?;
    push_belts(alloc, out, &belts(thing, &all))
}

/// A line for each good of a plan.
pub fn push_goods(alloc: Global, out: &mut String, shown: &Shown<'_>) -> Done
    requires { IsSound shown.now.game.now }
{
    let mut place = 0usize;
    for (good, (want, price)) in shown.linear.goods.as_slice().iter().zip(
        shown
            .linear
            .wants
            .as_slice()
            .iter()
            .zip(shown.plan.prices.as_slice()),
    ) {
        push_streams(alloc, out, shown, place, *good, want)?;
        push_price(alloc, out, price)?;
        place = place.saturating_add(1);
    }
    Ok(())
}

/// A line for each good with its price alone.
pub fn push_prices(
    alloc: Global,
    out: &mut String,
    game: &Game,
    goods: &[GoodId],
    prices: &[Ratio],
) -> Done
    requires { IsSound game.now }
{
    for (good, price) in goods.iter().zip(prices) {
        push_thing(alloc, out, game, good_thing(game, *good))?;
        push_price(alloc, out, price)?;
    }
    Ok(())
}
