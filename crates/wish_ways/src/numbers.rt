//! Fractions as floating numbers, and floating numbers as short fractions.
use fractions::Ratio;
use std::num::{nearest_u64_to_f64, saturating_f64_to_u64};

/// More than any estimate.
pub const NONE: f64 = 1.0e100;

// 2^64.
const WORD: f64 = 18446744073709551616.0;

// A word of 64 bits.
fn float_of_word(word: u128) -> f64 {
    match u64::try_from(word) {
        Ok(word) => nearest_u64_to_f64(word),
        Err(_) => WORD,
    }
}

fn float_of_natural(number: u128) -> f64 {
    let high = number / 18_446_744_073_709_551_616;
    let low = number % 18_446_744_073_709_551_616;
    float_of_word(high) * WORD + float_of_word(low)
}

/// A fraction, nearly.
pub fn float_of(ratio: &Ratio) -> f64 {
    let top = float_of_natural(ratio.numerator().unsigned_abs());
    let bottom = float_of_natural(ratio.denominator().unsigned_abs());
    if ratio.is_neg() {
        -(top / bottom)
    } else {
        top / bottom
    }
}

fn ten_to(places: u32) -> i64 {
    match places {
        0 => 1,
        1 => 10,
        2 => 100,
        3 => 1_000,
        4 => 10_000,
        5 => 100_000,
        6 => 1_000_000,
        7 => 10_000_000,
        8 => 100_000_000,
        _ => 1_000_000_000,
    }
}

// A number between a millionth and 10^12.
fn bounded(number: f64) -> f64 {
    if number < 1.0e-6 {
        1.0e-6
    } else if number > 1.0e12 {
        1.0e12
    } else {
        number
    }
}

// So many thousandths of a thousand, of which there are three digits, times or over a power of ten.
fn digits_of(scaled: f64) -> i64 {
    let digits = saturating_f64_to_u64(scaled + 0.5);
    match i64::try_from(digits) {
        Ok(digits) if digits > 0 => digits,
        _ => 1,
    }
}

/// A number rounded to three digits, no less than a millionth and no more than 10^12.
pub fn rounded(number: f64) -> Ratio {
    let mut scaled = bounded(number);
    let mut up: u32 = 0;
    let mut down: u32 = 0;
    for _ in 0..20 {
        if scaled < 100.0 {
            scaled = scaled * 10.0;
            up = up.saturating_add(1);
        } else if scaled >= 1000.0 {
            scaled = scaled / 10.0;
            down = down.saturating_add(1);
        }
    }
    quotient(digits_of(scaled).saturating_mul(ten_to(down)), ten_to(up))
}

fn quotient(top: i64, bottom: i64) -> Ratio {
    if bottom > 0 {
        Ratio::part(top, bottom)
    } else {
        Ratio::one()
    }
}
