//! Rates as words.
ghost use Rattle.std.specs.Prelude.{IfOk, Ok};
ghost use Rattle.std.specs.Bool.{OnTrue};
ghost use Rattle.fractions.specs.Print.{printed};
ghost use Rattle.fractions.specs.Reading.{ReadsRatio};

use crate::faults::{Wanted, WordFault};
use fractions::{Ratio, Wide, read_ratio};
use plan_base::NoMemory;
use std::alloc::Global;

/// Whether a script takes a fraction as it is printed, and as no other.
///
/// # Errors
///
/// `NoMemory` where memory could not be had.
pub fn is_writable(alloc: Global, number: &Ratio) -> Result<bool, NoMemory>
    ensures { IfOk result (λ yes. OnTrue yes (ReadsRatio (printed number.now) (Ok number.now))) }
{
    let text = number.print(alloc)?;
    match read_ratio(text.as_str().as_bytes()) {
        Ok(read) => Ok(read == *number),
        Err(_) => Ok(false),
    }
}

// A rate without its unit of time, and the seconds of that. Seconds are meant where none is named.
fn timed(word: &str) -> (&str, i64) {
    if let Some(number) = word.strip_suffix("/min") {
        (number, 60)
    } else if let Some(number) = word.strip_suffix("/h") {
        (number, 3_600)
    } else if let Some(number) = word.strip_suffix("/s") {
        (number, 1)
    } else {
        (word, 1)
    }
}

// A number without its last letter, and what that multiplies it by.
fn scaled(word: &str) -> (&str, i64) {
    if let Some(number) = word.strip_suffix("k") {
        (number, 1_000)
    } else if let Some(number) = word.strip_suffix("M") {
        (number, 1_000_000)
    } else if let Some(number) = word.strip_suffix("G") {
        (number, 1_000_000_000)
    } else {
        (word, 1)
    }
}

// So many times a number in so many seconds, as a number for one second.
fn per_second(number: &Ratio, times: i64, seconds: i64) -> Result<Ratio, Wide> {
    let time = Ratio::whole(seconds);
    if time.is_zero() {
        return Err(Wide);
    }
    number.mul(&Ratio::whole(times))?.div(&time)
}

// The units a second that a word tells, where it tells any.
fn rate_in(word: &str) -> Option<Ratio> {
    let (amount, seconds) = timed(word);
    let (digits, times) = scaled(amount);
    let number = read_ratio(digits.as_bytes()).ok()?;
    let rate = per_second(&number, times, seconds).ok()?;
    if rate.is_positive() { Some(rate) } else { None }
}

/// The units a second that a word tells: a number or a fraction above 0; with `k`, `M` or `G` a thousand, a million or a thousand
/// million times as many; and with `/min` or `/h` so many a minute or an hour.
///
/// # Errors
///
/// `Bad` where it tells none, or a script would not take the number as it is printed, or `NoMemory`.
pub fn read_rate<'a>(alloc: Global, word: &'a str) -> Result<Ratio, WordFault<'a>> {
    let Some(rate) = rate_in(word) else {
        return Err(WordFault::Bad(word, Wanted::Rate));
    };
    if is_writable(alloc, &rate)? {
        Ok(rate)
    } else {
        Err(WordFault::Bad(word, Wanted::Rate))
    }
}
