//! Cells with numbers: beside what is shown each holds its number exactly, by which the page sorts.
ghost use Rattle.std.specs.Prelude.{◌≡◌, ◌++◌, IfOk, string_bytes};
ghost use Rattle.fractions.specs.Print.{printed};
ghost use Rattle.page_rows.specs.Cells.{amount_cell, amount_text, cell, figure_cell, number_cell, power_cell, printed_figure, rate_cell};

use crate::amounts::{figure_text, power_figure, power_text, rate_text};
use crate::numbers::number_text;
use fractions::Ratio;
use plan_base::NoMemory;
use std::alloc::Global;

// A cell with its label, what it is sorted by, and its text.
#[tactic(auto, unfolding(crate::specs::Cells::cell))]
pub(crate) fn cell(alloc: Global, label: &str, key: &str, text: &str) -> Result<String, NoMemory>
    ensures { IfOk result (λ made. string_bytes made ≡ cell label.now key.now text.now) }
{
    Ok(format!(in alloc; "<td data-l=\"{label}\" data-v=\"{key}\">{text}</td>")?)
}

// A fraction as it is printed.
fn printed(alloc: Global, number: &Ratio) -> Result<String, NoMemory>
    ensures { IfOk result (λ text. string_bytes text ≡ printed number.now) }
{
    let text = number.print(alloc)?;
    Ok(String::from_str(alloc, text.as_str())?)
}

// A figure as it is printed, nothing where it is past the limits of fractions.
fn printed_figure(alloc: Global, figure: &Option<Ratio>) -> Result<String, NoMemory>
    ensures { IfOk result (λ text. string_bytes text ≡ printed_figure figure.now) }
{
    match figure {
        Some(number) => printed(alloc, number),
        None => Ok(String::new(alloc)),
    }
}

/// A cell with a number.
///
/// # Errors
///
/// `NoMemory` where memory could not be had.
pub fn number_cell(alloc: Global, label: &str, number: &Ratio) -> Result<String, NoMemory>
    ensures { IfOk result (λ text. string_bytes text ≡ number_cell label.now number.now) }
{
    let key = printed(alloc, number)?;
    let text = number_text(alloc, number)?;
    cell(alloc, label, key.as_str(), text.as_str())
}

/// A cell with a figure.
///
/// # Errors
///
/// `NoMemory` where memory could not be had.
pub fn figure_cell(alloc: Global, label: &str, figure: &Option<Ratio>) -> Result<String, NoMemory>
    ensures { IfOk result (λ text. string_bytes text ≡ figure_cell label.now figure.now) }
{
    let key = printed_figure(alloc, figure)?;
    let text = figure_text(alloc, figure)?;
    cell(alloc, label, key.as_str(), text.as_str())
}

/// A cell with a power, or with what is told of one past the limits.
///
/// # Errors
///
/// `NoMemory` where memory could not be had.
pub fn power_cell(alloc: Global, label: &str, figure: &Option<Ratio>) -> Result<String, NoMemory>
    ensures { IfOk result (λ text. string_bytes text ≡ power_cell label.now figure.now) }
{
    let key = printed_figure(alloc, figure)?;
    let text = power_figure(alloc, figure)?;
    cell(alloc, label, key.as_str(), text.as_str())
}

/// A cell with a rate.
///
/// # Errors
///
/// `NoMemory` where memory could not be had.
pub fn rate_cell(alloc: Global, label: &str, rate: &Ratio) -> Result<String, NoMemory>
    ensures { IfOk result (λ text. string_bytes text ≡ rate_cell label.now rate.now) }
{
    let key = printed(alloc, rate)?;
    let text = rate_text(alloc, rate)?;
    cell(alloc, label, key.as_str(), text.as_str())
}

// Electric power in watts, anything else at its rate.
fn amount_text(alloc: Global, electric: bool, rate: &Ratio) -> Result<String, NoMemory>
    ensures { IfOk result (λ text. string_bytes text ≡ amount_text electric rate.now) }
{
    if electric {
        power_text(alloc, rate)
    } else {
        rate_text(alloc, rate)
    }
}

/// A cell with how much is done or flows: electric power in watts, anything else at its rate.
///
/// # Errors
///
/// `NoMemory` where memory could not be had.
pub fn amount_cell(
    alloc: Global,
    label: &str,
    electric: bool,
    rate: &Ratio,
) -> Result<String, NoMemory>
    ensures { IfOk result (λ text. string_bytes text ≡ amount_cell label.now electric rate.now) }
{
    let key = printed(alloc, rate)?;
    let text = amount_text(alloc, electric, rate)?;
    cell(alloc, label, key.as_str(), text.as_str())
}
