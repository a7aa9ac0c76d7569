//! How a numeral is taken apart.
ghost use Rattle.std.specs.Prelude.{◌≡◌, ℕ, ◌<◌, ◌≤◌, length, slice_index, Some, None, MatchOption};
ghost use Rattle.std.specs.Int.{IsInRange};
ghost use Rattle.std.specs.Str.Parse.{AllDigits, starts_with_minus};
ghost use Rattle.fractions.specs.Digits.{front_digits, behind_digits};
ghost use Rattle.fractions.specs.Split.{behind_minus, behind_sign, at_least_one, is_whole, part_of, signed_digits, power_of, numeral_of, is_denominator, quotient_of};

use std::marker::Model;

/// The parts of a numeral, lent by its text.
#[derive(Drop)]
pub struct Written<'a> {
    pub negative: bool,
    pub whole: &'a [u8],
    pub part: &'a [u8],
    pub power_negative: bool,
    pub power: &'a [u8],
}

impl<'a> Model for Written<'a> {
    ghost use Rattle.fractions.specs.Numeral.{Numeral};

    ghost Value = { Numeral };

    ghost view = { λ w. record { negative = w.negative; whole = w.whole.now; part = w.part.now; power_negative = w.power_negative; power = w.power.now } };
}

// Where the run of digits at the front ends.
fn digits_end(text: &[u8]) -> usize
    ensures within { result ≤ length text.now }
    ensures digits { (k : ℕ) → k < result → IsInRange 48 57 (slice_index text.now k) }
    ensures ends { result < length text.now → ¬ IsInRange 48 57 (slice_index text.now result) }
{
    let mut end = 0;
    while end < text.len() && text[end].is_ascii_digit() {
        end += 1;
    }
    end
}

/// The digits at the front of a text, and the rest.
pub fn split_digits(text: &[u8]) -> (&[u8], &[u8])
    ensures front { result.0.now ≡ front_digits text.now }
    ensures behind { result.1.now ≡ behind_digits text.now }
{
    text.split_at(digits_end(text))
}

/// Whether a text begins with `-`, and what stands behind that.
pub fn split_minus(text: &[u8]) -> (bool, &[u8])
    ensures minus { result.0 ≡ starts_with_minus text.now }
    ensures behind { result.1.now ≡ behind_minus text.now }
{
    match text {
        [b'-', rest @ ..] => (true, rest),
        _ => (false, text),
    }
}

// The same, where a text may begin with `+` too.
fn split_sign(text: &[u8]) -> (bool, &[u8])
    ensures minus { result.0 ≡ starts_with_minus text.now }
    ensures behind { result.1.now ≡ behind_sign text.now }
{
    match text {
        [b'-', rest @ ..] => (true, rest),
        [b'+', rest @ ..] => (false, rest),
        _ => (false, text),
    }
}

/// Whether digits are a whole part: some, with no leading zero.
pub fn is_whole_part(digits: &[u8]) -> bool
    ensures { result ≡ is_whole digits.now }
{
    match digits {
        [] => false,
        [_] => true,
        [first, ..] => *first != b'0',
    }
}

// One digit or more at the front of a text, and the rest.
fn split_some_digits(text: &[u8]) -> Option<(&[u8], &[u8])>
    ensures { MatchOption result (at_least_one (front_digits text.now) (behind_digits text.now) ≡ None) (λ p. at_least_one (front_digits text.now) (behind_digits text.now) ≡ Some (p.0.now, p.1.now)) }
{
    let (digits, rest) = split_digits(text);
    if digits.is_empty() {
        None
    } else {
        Some((digits, rest))
    }
}

// The digits behind a point, if the text begins with one, and the rest.
fn split_part(text: &[u8]) -> Option<(&[u8], &[u8])>
    ensures { MatchOption result (part_of text.now ≡ None) (λ p. part_of text.now ≡ Some (p.0.now, p.1.now)) }
{
    match text {
        [b'.', rest @ ..] => split_some_digits(rest),
        _ => Some((&text[..0], text)),
    }
}

// A sign, if there is one, and digits to the end of the text.
fn signed_digits(text: &[u8]) -> Option<(bool, &[u8])>
    ensures { MatchOption result (signed_digits text.now ≡ None) (λ p. signed_digits text.now ≡ Some (p.0, p.1.now)) }
{
    let (negative, unsigned) = split_sign(text);
    let (digits, rest) = split_digits(unsigned);
    if digits.is_empty() || !rest.is_empty() {
        None
    } else {
        Some((negative, digits))
    }
}

// The sign and the digits of an exponent that takes up the whole text; no digits where the text is empty.
fn power(text: &[u8]) -> Option<(bool, &[u8])>
    ensures { MatchOption result (power_of text.now ≡ None) (λ p. power_of text.now ≡ Some (p.0, p.1.now)) }
{
    match text {
        [] => Some((false, text)),
        [b'e' | b'E', rest @ ..] => signed_digits(rest),
        _ => None,
    }
}

/// The parts of the numeral that a text writes.
pub fn numeral_parts(text: &[u8]) -> Option<Written<'_>>
    ensures { result ≡ numeral_of text.now }
{
    let (negative, unsigned) = split_minus(text);
    let (whole, behind_whole) = split_digits(unsigned);
    if !is_whole_part(whole) {
        return None;
    }
    let Some((part, behind_part)) = split_part(behind_whole) else {
        return None;
    };
    let Some((power_negative, power)) = power(behind_part) else {
        return None;
    };
    Some(Written {
        negative,
        whole,
        part,
        power_negative,
        power,
    })
}

/// The parts of a quotient, lent by its text.
#[derive(Drop)]
pub struct WrittenQuotient<'a> {
    pub negative: bool,
    pub top: &'a [u8],
    pub bottom: &'a [u8],
}

impl<'a> Model for WrittenQuotient<'a> {
    ghost use Rattle.fractions.specs.Quotient.{Quotient};

    ghost Value = { Quotient };

    ghost view = { λ w. record { negative = w.negative; top = w.top.now; bottom = w.bottom.now } };
}

// Whether a text is a whole part other than 0.
fn is_denominator(text: &[u8]) -> bool
    ensures { result ≡ is_denominator text.now }
{
    match text {
        [] => false,
        [b'0', ..] => false,
        _ => split_digits(text).1.is_empty(),
    }
}

/// The parts of the quotient that a text writes.
pub fn quotient_parts(text: &[u8]) -> Option<WrittenQuotient<'_>>
    ensures { result ≡ quotient_of text.now }
{
    let (negative, unsigned) = split_minus(text);
    let (top, rest) = split_digits(unsigned);
    match rest {
        [b'/', bottom @ ..] => {
            if is_whole_part(top) && is_denominator(bottom) {
                Some(WrittenQuotient {
                    negative,
                    top,
                    bottom,
                })
            } else {
                None
            }
        }
        _ => None,
    }
}
