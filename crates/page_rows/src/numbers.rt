//! Numbers as they stand on a page: whole ones as they are, others as decimals with the fraction folded behind.
ghost use Rattle.std.specs.Prelude.{◌≡◌, ◌==◌, ◌/◌, IfOk, string_bytes};
ghost use Rattle.fractions.specs.Print.{printed};
ghost use Rattle.page_rows.specs.Numbers.{folded, near_text, number_text, product, short_text, thousandths_of};

use fractions::Ratio;
use page_parts::{decimal, rounded};
use plan_base::NoMemory;
use std::alloc::Global;

/// A fraction as a decimal of three places, halves away from 0.
///
/// # Errors
///
/// `NoMemory` where memory could not be had.
pub fn near_text(alloc: Global, number: &Ratio) -> Result<String, NoMemory>
    ensures { IfOk result (λ text. string_bytes text ≡ near_text number.now) }
{
    let text = decimal(alloc, number)?;
    Ok(text)
}

// The whole part of a magnitude that is rounded to thousandths.
pub(crate) fn whole_part(number: &Ratio) -> u128
    ensures { result ≡ thousandths_of number.now / 1000 }
{
    rounded(number).whole
}

/// Whether a fraction is a whole number.
pub fn is_whole(number: &Ratio) -> bool
    ensures { result ≡ (number.now.den == 1) }
{
    number.denominator().unsigned_abs() == 1
}

// A fraction as it is printed.
pub(crate) fn exact_text(alloc: Global, number: &Ratio) -> Result<String, NoMemory>
    ensures { IfOk result (λ text. string_bytes text ≡ printed number.now) }
{
    let text = number.print(alloc)?;
    Ok(String::from_str(alloc, text.as_str())?)
}

/// A whole number as it is, any other as a decimal.
///
/// # Errors
///
/// `NoMemory` where memory could not be had.
#[tactic(auto, unfolding(crate::specs::Numbers::short_text))]
pub fn short_text(alloc: Global, number: &Ratio) -> Result<String, NoMemory>
    ensures { IfOk result (λ text. string_bytes text ≡ short_text number.now) }
{
    if is_whole(number) {
        exact_text(alloc, number)
    } else {
        near_text(alloc, number)
    }
}

// A text with a longer one folded behind it.
pub(crate) fn folded(alloc: Global, shown: &str, behind: &str) -> Result<String, NoMemory>
    ensures { IfOk result (λ text. string_bytes text ≡ folded shown.now behind.now) }
{
    Ok(format!(in alloc;
        "<details class=\"f\"><summary>{shown}</summary><i>{behind}</i></details>"
    )?)
}

fn folded_number(alloc: Global, number: &Ratio) -> Result<String, NoMemory>
    ensures { IfOk result (λ text. string_bytes text ≡ folded (near_text number.now) (printed number.now)) }
{
    let near = near_text(alloc, number)?;
    let exact = exact_text(alloc, number)?;
    folded(alloc, near.as_str(), exact.as_str())
}

/// A whole number as it is, any other as a decimal with the fraction folded behind it.
///
/// # Errors
///
/// `NoMemory` where memory could not be had.
#[tactic(auto, unfolding(crate::specs::Numbers::number_text))]
pub fn number_text(alloc: Global, number: &Ratio) -> Result<String, NoMemory>
    ensures { IfOk result (λ text. string_bytes text ≡ number_text number.now) }
{
    if is_whole(number) {
        exact_text(alloc, number)
    } else {
        folded_number(alloc, number)
    }
}

/// The product of two fractions, where it is within their limits.
pub fn product(left: &Ratio, right: &Ratio) -> Option<Ratio>
    ensures { result ≡ product left.now right.now }
{
    match left.mul(right) {
        Ok(value) => Some(value),
        Err(_) => None,
    }
}
