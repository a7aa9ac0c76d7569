//! Fractions read back from the texts that print them.
ghost use Rattle.std.specs.Prelude.{◌≡◌, ℕ, ◌<◌, ◌^◌, pos, IfSome, Some, false, true};
ghost use Rattle.std.specs.Option.{SomeIff};
ghost use Rattle.std.specs.Str.Parse.{AllDigits, digits_value};
ghost use Rattle.fractions.specs.Fraction.{Fraction, frac};
ghost use Rattle.fractions.specs.Limits.{IsNarrow};
ghost use Rattle.fractions.specs.Numeral.{signed};
ghost use Rattle.fractions.specs.Plain.{IsPlainQuotient, IsPlainWhole};
ghost use Rattle.fractions.specs.Print.{printed};
ghost use Rattle.fractions.specs.Quotient.{quotient_value};
ghost use Rattle.fractions.specs.Stored.{IsStored};

use crate::ratio::Ratio;
use crate::split::{Written, WrittenQuotient, numeral_parts, quotient_parts};
use crate::whole::greatest_common_divisor;

// The greatest number that fits a part.
const MOST: u128 = (1 << 127) - 1;

// The number that digits write, where it fits a part.
fn narrow_value(digits: &[u8]) -> Option<u128>
    requires { AllDigits 10 digits.now }
    ensures { SomeIff result (digits_value 10 digits.now < 2 ^ 127) (digits_value 10 digits.now) }
{
    let mut value: u128 = 0;
    for digit in digits {
        if value > MOST / 10 {
            return None;
        }
        value = value * 10 + (*digit - b'0') as u128;
        if value > MOST {
            return None;
        }
    }
    Some(value)
}

// The fraction of a magnitude in lowest terms, with its sign.
fn with_sign(negative: bool, top: u128, bottom: u128) -> Ratio
    requires { IsStored (pos top) bottom }
    ensures { result ≡ signed negative (frac (pos top) bottom) }
{
    let size = Ratio::stored(top as i128, bottom);
    if negative { size.neg() } else { size }
}

// The value of a quotient that a fraction prints.
fn plain_quotient(written: &WrittenQuotient) -> Option<Ratio>
    requires top { AllDigits 10 written.now.top }
    requires bottom { AllDigits 10 written.now.bottom }
    requires nonzero { 0 < digits_value 10 written.now.bottom }
    ensures { SomeIff result (IsPlainQuotient written.now) (quotient_value written.now) }
{
    let Some(top) = narrow_value(written.top) else {
        return None;
    };
    let Some(bottom) = narrow_value(written.bottom) else {
        return None;
    };
    if bottom == 1 {
        return None;
    }
    if greatest_common_divisor(top, bottom) != 1 {
        return None;
    }
    Some(with_sign(written.negative, top, bottom))
}

// The value of a whole numeral that a fraction prints.
fn plain_whole(written: &Written) -> Option<Ratio>
    requires { AllDigits 10 written.now.whole }
    ensures { SomeIff result (IsPlainWhole written.now) (signed written.now.negative (frac (pos (digits_value 10 written.now.whole)) 1)) }
{
    if !written.part.is_empty() {
        return None;
    }
    if !written.power.is_empty() {
        return None;
    }
    let Some(top) = narrow_value(written.whole) else {
        return None;
    };
    if written.negative && top == 0 {
        return None;
    }
    Some(with_sign(written.negative, top, 1))
}

/// The fraction that prints a text: of each fraction the one text that `Ratio::print` writes, and of no other text
/// anything.
pub fn read_printed(text: &[u8]) -> Option<Ratio>
    ensures found { IfSome result (λ x. (text.now ≡ printed x) × IsNarrow x) }
    ensures every { (x : Fraction) → IsNarrow x → text.now ≡ printed x → result ≡ Some x }
{
    match quotient_parts(text) {
        Some(written) => plain_quotient(&written),
        None => match numeral_parts(text) {
            Some(written) => plain_whole(&written),
            None => None,
        },
    }
}
