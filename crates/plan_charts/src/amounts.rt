//! How much flows, in few letters, in the units between which a page switches.
use crate::widths::width_of;
use fractions::Ratio;
use page_parts::{Amount, rounded};
use page_rows::{product, short_text};
use plan_base::NoMemory;
use std::alloc::Global;

/// An amount in each unit of its kind, and how wide the widest is.
#[derive(Drop)]
pub struct AmountTexts {
    pub text: String,
    pub width: u32,
}

/// A number without its sign.
pub fn size_of(number: &Ratio) -> Ratio {
    if number.is_neg() {
        number.neg()
    } else {
        *number
    }
}

fn figure(alloc: Global, number: &Option<Ratio>) -> Result<String, NoMemory> {
    match number {
        Some(number) => short_text(alloc, number),
        None => Ok(String::from_str(alloc, "wide")?),
    }
}

// A power in a unit of so many watts.
fn power_in(alloc: Global, watts: &Ratio, part: &Ratio, unit: &str) -> Result<String, NoMemory> {
    let number = figure(alloc, &product(watts, part))?;
    Ok(format!(in alloc; "{number} {unit}")?)
}

fn best_power(alloc: Global, watts: &Ratio) -> Result<String, NoMemory> {
    let whole = rounded(watts).whole;
    if whole < 1_000 {
        power_in(alloc, watts, &Ratio::one(), "W")
    } else if whole < 1_000_000 {
        power_in(alloc, watts, &Ratio::part(1, 1_000), "kW")
    } else if whole < 1_000_000_000 {
        power_in(alloc, watts, &Ratio::part(1, 1_000_000), "MW")
    } else {
        power_in(alloc, watts, &Ratio::part(1, 1_000_000_000), "GW")
    }
}

fn power_texts(alloc: Global, watts: &Ratio) -> Result<AmountTexts, NoMemory> {
    let best = best_power(alloc, watts)?;
    let kilo = power_in(alloc, watts, &Ratio::part(1, 1_000), "kW")?;
    let mega = power_in(alloc, watts, &Ratio::part(1, 1_000_000), "MW")?;
    let width = width_of(best.as_str())
        .max(width_of(kilo.as_str()))
        .max(width_of(mega.as_str()));
    let text = format!(in alloc;
        "<tspan class=\"p\">{best}</tspan><tspan class=\"k\">{kilo}</tspan><tspan class=\"w\">{mega}</tspan>"
    )?;
    Ok(AmountTexts { text, width })
}

fn rate_texts(alloc: Global, rate: &Ratio) -> Result<AmountTexts, NoMemory> {
    let second = short_text(alloc, rate)?;
    let minute = figure(alloc, &product(rate, &Ratio::whole(60)))?;
    let width = width_of(second.as_str()).max(width_of(minute.as_str()));
    let text = format!(in alloc;
        "<tspan class=\"s\">{second}</tspan><tspan class=\"m\">{minute}</tspan>"
    )?;
    Ok(AmountTexts { text, width })
}

fn wide_texts(alloc: Global) -> Result<AmountTexts, NoMemory> {
    let text = String::from_str(alloc, "wide")?;
    let width = width_of("wide");
    Ok(AmountTexts { text, width })
}

fn size_texts(alloc: Global, electric: bool, size: &Ratio) -> Result<AmountTexts, NoMemory> {
    if electric {
        power_texts(alloc, size)
    } else {
        rate_texts(alloc, size)
    }
}

/// An amount without its sign: electric power in watts, anything else at its rate.
pub fn amount_texts(
    alloc: Global,
    electric: bool,
    amount: &Amount,
) -> Result<AmountTexts, NoMemory> {
    match amount {
        Amount::Exact(number) => size_texts(alloc, electric, &size_of(number)),
        Amount::Wide => wide_texts(alloc),
    }
}
