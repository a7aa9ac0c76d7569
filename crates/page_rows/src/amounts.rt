//! Rates and powers in the units between which a page switches.
ghost use Rattle.std.specs.Prelude.{◌≡◌, ◌++◌, ◌∷◌, IfOk, string_bytes};
ghost use Rattle.fractions.specs.Fraction.{Fraction};
ghost use Rattle.page_rows.specs.Numbers.{product};
ghost use Rattle.page_rows.specs.Amounts.{best_power, figure_text, per_minute, power_as, power_by, power_figure, power_in, power_text, rate_text, thousandth, millionth, billionth};

use crate::numbers::{exact_text, folded, is_whole, number_text, product, short_text, whole_part};
use fractions::Ratio;
use plan_base::NoMemory;
use std::alloc::Global;

/// A figure, or that it is past the limits of fractions.
///
/// # Errors
///
/// `NoMemory` where memory could not be had.
pub fn figure_text(alloc: Global, figure: &Option<Ratio>) -> Result<String, NoMemory>
    ensures { IfOk result (λ text. string_bytes text ≡ figure_text figure.now) }
{
    match figure {
        Some(number) => number_text(alloc, number),
        None => Ok(String::from_str(alloc, "wide")?),
    }
}

// Sixty times a rate.
fn per_minute(rate: &Ratio) -> Option<Ratio>
    ensures { result ≡ per_minute rate.now }
{
    product(rate, &Ratio::whole(60))
}

/// A rate per second, and beside it per minute: the page shows one of them.
///
/// # Errors
///
/// `NoMemory` where memory could not be had.
#[tactic(auto, unfolding(crate::specs::Amounts::rate_text))]
pub fn rate_text(alloc: Global, rate: &Ratio) -> Result<String, NoMemory>
    ensures { IfOk result (λ text. string_bytes text ≡ rate_text rate.now) }
{
    let second = number_text(alloc, rate)?;
    let minute = per_minute(rate);
    let minute = figure_text(alloc, &minute)?;
    Ok(format!(in alloc; "<span class=\"s\">{second}</span><span class=\"m\">{minute}</span>")?)
}

// A number of a unit, with the watts folded behind a decimal.
#[tactic(auto, unfolding(crate::specs::Amounts::power_as))]
fn power_as(alloc: Global, watts: &Ratio, shown: &Ratio, unit: &str) -> Result<String, NoMemory>
    ensures { IfOk result (λ text. string_bytes text ≡ power_as watts.now shown.now unit.now) }
{
    let short = short_text(alloc, shown)?;
    let short = format!(in alloc; "{short} {unit}")?;
    if is_whole(shown) {
        return Ok(short);
    }
    let exact = exact_text(alloc, watts)?;
    let exact = format!(in alloc; "{exact} W")?;
    folded(alloc, short.as_str(), exact.as_str())
}

// A power in a unit, or in watts where it can't be told in it.
fn power_by(
    alloc: Global,
    watts: &Ratio,
    shown: &Option<Ratio>,
    unit: &str,
) -> Result<String, NoMemory>
    ensures { IfOk result (λ text. string_bytes text ≡ power_by watts.now unit.now shown.now) }
{
    match shown {
        Some(shown) => power_as(alloc, watts, shown, unit),
        None => power_as(alloc, watts, watts, "W"),
    }
}

// A power in a unit, of which one watt is such a part.
fn power_in(alloc: Global, watts: &Ratio, part: &Ratio, unit: &str) -> Result<String, NoMemory>
    ensures { IfOk result (λ text. string_bytes text ≡ power_in watts.now part.now unit.now) }
{
    let shown = product(watts, part);
    power_by(alloc, watts, &shown, unit)
}

fn thousandth() -> Ratio
    ensures { result ≡ thousandth }
{
    Ratio::part(1, 1_000)
}

fn millionth() -> Ratio
    ensures { result ≡ millionth }
{
    Ratio::part(1, 1_000_000)
}

fn billionth() -> Ratio
    ensures { result ≡ billionth }
{
    Ratio::part(1, 1_000_000_000)
}

// A power in the unit that fits it best.
#[tactic(auto, unfolding(crate::specs::Amounts::best_power))]
fn best_power(alloc: Global, watts: &Ratio) -> Result<String, NoMemory>
    ensures { IfOk result (λ text. string_bytes text ≡ best_power watts.now) }
{
    let whole = whole_part(watts);
    if whole < 1_000 {
        power_as(alloc, watts, watts, "W")
    } else if whole < 1_000_000 {
        power_in(alloc, watts, &thousandth(), "kW")
    } else if whole < 1_000_000_000 {
        power_in(alloc, watts, &millionth(), "MW")
    } else {
        power_in(alloc, watts, &billionth(), "GW")
    }
}

/// A power in the unit that fits it best, in kilowatts and in megawatts: the page shows one of them.
///
/// # Errors
///
/// `NoMemory` where memory could not be had.
#[tactic(auto, unfolding(crate::specs::Amounts::power_text))]
pub fn power_text(alloc: Global, watts: &Ratio) -> Result<String, NoMemory>
    ensures { IfOk result (λ text. string_bytes text ≡ power_text watts.now) }
{
    let best = best_power(alloc, watts)?;
    let kilo = power_in(alloc, watts, &thousandth(), "kW")?;
    let mega = power_in(alloc, watts, &millionth(), "MW")?;
    Ok(format!(in alloc;
        "<span class=\"p\">{best}</span><span class=\"k\">{kilo}</span><span class=\"w\">{mega}</span>"
    )?)
}

/// A power, or that it is past the limits of fractions.
///
/// # Errors
///
/// `NoMemory` where memory could not be had.
pub fn power_figure(alloc: Global, figure: &Option<Ratio>) -> Result<String, NoMemory>
    ensures { IfOk result (λ text. string_bytes text ≡ power_figure figure.now) }
{
    match figure {
        Some(watts) => power_text(alloc, watts),
        None => Ok(String::from_str(alloc, "wide")?),
    }
}
