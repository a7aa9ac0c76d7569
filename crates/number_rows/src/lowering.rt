//! Numbers of two rows that are combined, and divided by what all of these have in common.

ghost use Rattle.std.specs.Prelude.{◌≡◌, ℕ, ◌+◌, ◌*◌, ◌<◌, ◌≤◌, ◌^◌, pos, ◌*ℤ◌, length, IfSome, unsigned_abs};
ghost use Rattle.std.specs.Int.{◌∣◌};
ghost use Rattle.std.proofs.Common.{take};
ghost use Rattle.number_rows.specs.Places.{HoldsBut, FailsAt};
ghost use Rattle.number_rows.specs.Tops.{top_at, AreWithinBelow, IsLowered};
ghost use Rattle.number_rows.specs.Lowered.{IsLoweredBelow, IsRaised};

use crate::dividing::{exact_quotient, likely_inverse, small_quotient};
use crate::sharing::{Part, Shared};
use crate::tops::{cover, long_combined, product_keeps_within};

/// Quotients by a divisor: how great their magnitudes are at most.
#[derive(Clone, Copy)]
pub struct Lowered {
    pub divisor: u64,
    pub bound: u64,
}

// The same, with what dividing by the divisor takes: the number of zeros that it ends in, and the inverse of its part beside
// them.
#[derive(Clone, Copy)]
struct Over {
    divisor: u64,
    bound: u64,
    shift: u32,
    inverse: u64,
}

impl Over {
    // Quotients by a divisor, no greater than a bound.
    fn new(divisor: u64, bound: u64) -> Over
        ensures divisor { result.divisor ≡ divisor }
        ensures bound { result.bound ≡ bound }
    {
        let shift = divisor.trailing_zeros() % 64;
        Over {
            divisor,
            bound,
            shift,
            inverse: likely_inverse(divisor >> shift),
        }
    }

    // The same with one quotient more.
    fn with(self, quotient: i64) -> Over
        requires bound { self.bound < 2 ^ 62 }
        requires quotient { unsigned_abs quotient < 2 ^ 62 }
        ensures divisor { result.divisor ≡ self.divisor }
        ensures grows { self.bound ≤ result.bound }
        ensures fits { unsigned_abs quotient ≤ result.bound }
        ensures small { result.bound < 2 ^ 62 }
    {
        Over {
            divisor: self.divisor,
            bound: cover(self.bound, quotient.unsigned_abs()),
            shift: self.shift,
            inverse: self.inverse,
        }
    }
}

/// Writes the places at which one of two rows isn't 0, in rising order, and says how many there are.
pub fn write_places(places: &mut [usize], tops: &[i64], others: &[i64]) -> usize
    requires room { length places.old ≡ length tops.now }
    requires lengths { length tops.now ≡ length others.now }
    requires tops { (k : ℕ) → k < length tops.now → unsigned_abs (top_at tops.now k) < 2 ^ 62 }
    requires others { (k : ℕ) → k < length others.now → unsigned_abs (top_at others.now k) < 2 ^ 62 }
    ensures length_is { length places.new ≡ length places.old }
    ensures inside { result ≤ length places.old }
    ensures places { HoldsBut (λ k. (top_at tops.now k ≡ pos 0) × (top_at others.now k ≡ pos 0)) 0 (take result places.new) (length tops.now) }
    ensures only { FailsAt (λ k. (top_at tops.now k ≡ pos 0) × (top_at others.now k ≡ pos 0)) (take result places.new) }
{
    let mut count = 0;
    for k in 0..tops.len() {
        places[count] = k;
        count += one_of(tops[k], others[k]);
    }
    count
}

// 1 where one of two numbers isn't 0.
fn one_of(top: i64, other: i64) -> usize
    ensures most { result ≤ 1 }
    ensures none { result ≡ 0 → (top ≡ pos 0) × (other ≡ pos 0) }
    ensures some { 0 < result → ¬ ((top ≡ pos 0) × (other ≡ pos 0)) }
{
    if top != 0 || other != 0 { 1 } else { 0 }
}

// Makes all numbers 0.
fn clear(tops: &mut [i64])
    ensures length_is { length tops.new ≡ length tops.old }
    ensures zero { (k : ℕ) → top_at tops.new k ≡ pos 0 }
{
    for k in 0..tops.len() {
        tops[k] = 0;
    }
}

// Makes of the first quotients by a divisor those by its part beside a factor. The others stay.
fn raise_first(quotients: &mut [i64], count: usize, factor: u64)
    requires count { count ≤ length quotients.old }
    requires factor { factor < 2 ^ 62 }
    requires below { (k : ℕ) → k < count → unsigned_abs (top_at quotients.old k) < 2 ^ 62 }
    requires small { (k : ℕ) → k < count → unsigned_abs (top_at quotients.old k) * factor < 2 ^ 62 }
    ensures length_is { length quotients.new ≡ length quotients.old }
    ensures numbers { (k : ℕ) → k < count → top_at quotients.new k ≡ top_at quotients.old k *ℤ pos factor }
    ensures rest { (k : ℕ) → count ≤ k → top_at quotients.new k ≡ top_at quotients.old k }
{
    for k in 0..count {
        quotients[k] = quotients[k] * factor as i64;
    }
}

// Lowers a divisor by which a number leaves a rest to what both have in common, and raises the quotients before a place. What
// they have in common is guessed.
fn lower(quotients: &mut [i64], number: i128, k: usize, over: Over) -> Option<Over>
    requires inside { k ≤ length quotients.old }
    requires positive { 0 < over.divisor }
    requires small_divisor { over.divisor < 2 ^ 62 }
    requires bound { over.bound < 2 ^ 62 }
    requires within { AreWithinBelow quotients.old over.bound k }
    ensures length_is { length quotients.new ≡ length quotients.old }
    ensures raised { IfSome result (λ next. IsRaised over.divisor over.bound quotients.old k next.divisor next.bound quotients.new) }
{
    let part = Part::likely(number, over.divisor, over.shift % 64, over.inverse);
    if !part.is_of(over.divisor) || !product_keeps_within(over.bound, part.beside) {
        return None;
    }
    raise_first(quotients, k, part.beside);
    Some(Over {
        divisor: part.divisor,
        bound: over.bound * part.beside,
        shift: part.shift,
        inverse: part.inverse,
    })
}

// Writes one quotient more. Where the divisor leaves a rest, it and the quotients before are changed so that it doesn't.
fn put_quotient(
    quotients: &mut [i64],
    tops: &[i64],
    scale: i64,
    others: &[i64],
    factor: i64,
    k: usize,
    over: Over,
) -> Option<Over>
    requires quotients { length quotients.old ≡ length tops.now }
    requires lengths { length tops.now ≡ length others.now }
    requires tops { (k : ℕ) → k < length tops.now → unsigned_abs (top_at tops.now k) < 2 ^ 62 }
    requires others { (k : ℕ) → k < length others.now → unsigned_abs (top_at others.now k) < 2 ^ 62 }
    requires scale { unsigned_abs scale < 2 ^ 62 }
    requires factor { unsigned_abs factor < 2 ^ 62 }
    requires inside { k < length tops.now }
    requires below { IsLoweredBelow tops.now scale others.now factor over.divisor over.bound quotients.old k }
    ensures length_is { length quotients.new ≡ length tops.now }
    ensures divides { IfSome result (λ next. next.divisor ∣ over.divisor) }
    ensures below { IfSome result (λ next. IsLoweredBelow tops.now scale others.now factor next.divisor next.bound quotients.new (k + 1)) }
{
    let number = long_combined(tops[k], scale, others[k], factor);
    if let Some(quotient) = small_quotient(number, over.divisor, over.shift, over.inverse) {
        quotients[k] = quotient;
        return Some(over.with(quotient));
    }
    let Some(lowered) = lower(quotients, number, k, over) else {
        return None;
    };
    let Some(quotient) = exact_quotient(
        number,
        lowered.divisor,
        lowered.shift % 64,
        lowered.inverse,
    ) else {
        return None;
    };
    quotients[k] = quotient;
    Some(lowered.with(quotient))
}

/// Writes what `combine` makes of each number, divided by what all of these and a denominator have in common, where all are
/// below the limit then. Both rows are 0 but at the places. The first divisor is the denominator's part beside what it shares
/// with `common`, which is mostly not far from the one.
pub fn combine_lowered(
    quotients: &mut [i64],
    tops: &[i64],
    scale: i64,
    others: &[i64],
    factor: i64,
    bottom: u64,
    common: u64,
    places: &[usize],
) -> Option<Lowered>
    requires quotients { length quotients.old ≡ length tops.now }
    requires lengths { length tops.now ≡ length others.now }
    requires tops { (k : ℕ) → k < length tops.now → unsigned_abs (top_at tops.now k) < 2 ^ 62 }
    requires others { (k : ℕ) → k < length others.now → unsigned_abs (top_at others.now k) < 2 ^ 62 }
    requires scale { unsigned_abs scale < 2 ^ 62 }
    requires factor { unsigned_abs factor < 2 ^ 62 }
    requires positive { 0 < bottom }
    requires small { bottom < 2 ^ 62 }
    requires common { common < 2 ^ 62 }
    requires places { HoldsBut (λ k. (top_at tops.now k ≡ pos 0) × (top_at others.now k ≡ pos 0)) 0 places.now (length tops.now) }
    ensures length_is { length quotients.new ≡ length tops.now }
    ensures lowered { IfSome result (λ r. IsLowered tops.now scale others.now factor bottom r.divisor r.bound quotients.new) }
{
    let shared = Shared::likely(common as i64, bottom);
    if !shared.is_of(common as i64, bottom) {
        return None;
    }
    clear(quotients);
    let mut over = Over::new(shared.scale, 0);
    let mut from = 0;
    let mut rest = places;
    while let [place, later @ ..] = rest {
        let k = *place;
        let Some(next) = put_quotient(quotients, tops, scale, others, factor, k, over) else {
            return None;
        };
        over = next;
        from = k + 1;
        rest = later;
    }
    Some(Lowered {
        divisor: over.divisor,
        bound: over.bound,
    })
}
