//! Tables as they are read, line by line.

use anyhow::{Result, bail};
use fractions::Ratio;
use linear_table::{Column, LinearColumn};
use plan_base::{GoodId, Items};
use std::alloc::Global;

// A number `n` or `n/d`.
fn read_number(word: &str) -> Option<Ratio> {
    match word.split_once('/') {
        None => match word.parse::<i64>() {
            Ok(number) => Some(Ratio::whole(number)),
            Err(_) => None,
        },
        Some((top, bottom)) => match (top.parse::<i64>(), bottom.parse::<i64>()) {
            (Ok(top), Ok(bottom)) if bottom > 0 => Some(Ratio::part(top, bottom)),
            _ => None,
        },
    }
}

// The numbers that words are.
pub(crate) fn read_numbers(alloc: Global, words: &[&str]) -> Result<Vec<Ratio>> {
    let mut numbers = Vec::new(alloc);
    for word in words {
        numbers.push(number_of(word)?)?;
    }
    Ok(numbers)
}

// The number that a word is.
fn number_of(word: &str) -> Result<Ratio> {
    let Some(number) = read_number(word) else {
        bail!("{word} is no number");
    };
    Ok(number)
}

// The place that a word is.
pub(crate) fn place_of(word: &str) -> Result<u32> {
    let Ok(place) = word.parse::<u32>() else {
        bail!("{word} is no place");
    };
    Ok(place)
}

// The parts of a column: places and numbers in turn.
fn read_parts(alloc: Global, words: &[&str]) -> Result<Vec<(u32, Ratio)>> {
    let mut parts = Vec::new(alloc);
    let mut rest = words;
    while let [place, number, others @ ..] = rest {
        parts.push((place_of(place)?, number_of(number)?))?;
        rest = others;
    }
    Ok(parts)
}

// A column with one part.
fn one_part(alloc: Global, column: Column, words: &[&str], amount: Ratio) -> Result<LinearColumn> {
    let [price, place] = words else {
        bail!("a price and a place are wanted");
    };
    let parts = vec![in alloc; (place_of(place)?, amount)]?;
    Ok(LinearColumn {
        column,
        price: number_of(price)?,
        parts: Items::from_vec(parts),
    })
}

// The column of a line.
pub(crate) fn read_column(
    alloc: Global,
    kind: &str,
    line: u32,
    words: &[&str],
) -> Result<LinearColumn> {
    if kind == "row" {
        let [price, parts @ ..] = words else {
            bail!("a price is wanted");
        };
        return Ok(LinearColumn {
            column: Column::Line(line),
            price: number_of(price)?,
            parts: Items::from_vec(read_parts(alloc, parts)?),
        });
    }
    let [_, place] = words else {
        bail!("a price and a place are wanted");
    };
    let good = GoodId(place_of(place)?);
    if kind == "import" {
        one_part(alloc, Column::Import(good), words, Ratio::one())
    } else if kind == "surplus" {
        one_part(alloc, Column::Surplus(good), words, Ratio::one().neg())
    } else {
        bail!("{kind} is no line of a table")
    }
}

// The goods 0, 1 and so on.
pub(crate) fn first_goods(alloc: Global, count: u32) -> Result<Vec<GoodId>> {
    let mut goods = Vec::new(alloc);
    for good in 0..count {
        goods.push(GoodId(good))?;
    }
    Ok(goods)
}
