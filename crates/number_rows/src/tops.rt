//! Whole numbers of 64 bits that stand over one denominator.

ghost use Rattle.std.specs.Prelude.{◌≡◌, ℕ, ◌<◌, ◌≤◌, ◌+◌, ◌*◌, ◌^◌, ℤ, pos, ◌*ℤ◌, ◌-ℤ◌, neg_ℤ, unsigned_abs, length, IfSome};
ghost use Rattle.std.specs.Bool.{OnTrue};
ghost use Rattle.number_rows.specs.Places.{HoldsBut};
ghost use Rattle.number_rows.specs.Tops.{top_at, AreWithin, IsCombined, IsScaled, IsTurned};

/// Magnitudes and denominators stay below this.
pub const LIMIT: u64 = 1 << 62;

/// A number that is no less than two, and has as many bits as the greater of them. It takes one step, and no branch.
pub fn cover(a: u64, b: u64) -> u64
    ensures first { a ≤ result }
    ensures second { b ≤ result }
    ensures small { a < 2 ^ 62 → b < 2 ^ 62 → result < 2 ^ 62 }
{
    a | b
}

// Turns the sign of each number.
fn negate_all(tops: &mut [i64])
    requires { (k : ℕ) → k < length tops.old → unsigned_abs (top_at tops.old k) < 2 ^ 62 }
    ensures length_is { length tops.new ≡ length tops.old }
    ensures numbers { (k : ℕ) → k < length tops.old → top_at tops.new k ≡ neg_ℤ (top_at tops.old k) }
{
    for k in 0..tops.len() {
        tops[k] = -tops[k];
    }
}

/// Turns the sign of each number, where that is called for.
pub fn turn_all(tops: &mut [i64], turned: bool)
    requires { (k : ℕ) → k < length tops.old → unsigned_abs (top_at tops.old k) < 2 ^ 62 }
    ensures { IsTurned tops.old turned tops.new }
{
    if turned {
        negate_all(tops);
    }
}

// One number times a scale, less another times a factor.
fn combined(top: i64, scale: i64, other: i64, factor: i64) -> i64
    requires { unsigned_abs top * unsigned_abs scale + unsigned_abs other * unsigned_abs factor < 2 ^ 62 }
    ensures value { result ≡ top *ℤ scale -ℤ other *ℤ factor }
    ensures small { unsigned_abs result < 2 ^ 62 }
{
    top * scale - other * factor
}

// How great what `combine` makes of numbers is at most, of which two bounds are known.
fn combined_bound(bound: u64, scale: u64, other_bound: u64, factor: u64) -> u64
    requires { bound * scale + other_bound * factor < 2 ^ 62 }
    ensures value { result ≡ bound * scale + other_bound * factor }
    ensures small { result < 2 ^ 62 }
{
    bound * scale + other_bound * factor
}

// One number times a scale.
fn scaled(top: i64, scale: i64) -> i64
    requires { unsigned_abs top * unsigned_abs scale < 2 ^ 62 }
    ensures value { result ≡ top *ℤ scale }
    ensures small { unsigned_abs result < 2 ^ 62 }
{
    top * scale
}

// Makes of each number that number times the scale.
fn scale_each(tops: &mut [i64], scale: i64)
    requires tops { (k : ℕ) → k < length tops.old → unsigned_abs (top_at tops.old k) < 2 ^ 62 }
    requires fits { (k : ℕ) → k < length tops.old → unsigned_abs (top_at tops.old k) * unsigned_abs scale < 2 ^ 62 }
    ensures { IsScaled tops.old scale tops.new }
{
    for k in 0..tops.len() {
        let top = scaled(tops[k], scale);
        tops[k] = top;
    }
}

// The same, where the scale isn't 1.
fn scale_by(tops: &mut [i64], scale: i64)
    requires tops { (k : ℕ) → k < length tops.old → unsigned_abs (top_at tops.old k) < 2 ^ 62 }
    requires fits { (k : ℕ) → k < length tops.old → unsigned_abs (top_at tops.old k) * unsigned_abs scale < 2 ^ 62 }
    ensures { IsScaled tops.old scale tops.new }
{
    if scale != 1 {
        scale_each(tops, scale);
    }
}

// Makes of each number that number times the scale, less the other row's times the factor, where the scale is 1: only the
// numbers at the places change, at which the other row isn't 0. All before `from` are done.
fn combine_at(tops: &mut [i64], scale: i64, others: &[i64], factor: i64, places: &[usize])
    requires lengths { length tops.old ≡ length others.now }
    requires tops { (k : ℕ) → k < length tops.old → unsigned_abs (top_at tops.old k) < 2 ^ 62 }
    requires others { (k : ℕ) → k < length others.now → unsigned_abs (top_at others.now k) < 2 ^ 62 }
    requires fits { (k : ℕ) → k < length tops.old → unsigned_abs (top_at tops.old k) * unsigned_abs scale + unsigned_abs (top_at others.now k) * unsigned_abs factor < 2 ^ 62 }
    requires one { scale ≡ pos 1 }
    requires places { HoldsBut (λ k. top_at others.now k ≡ pos 0) 0 places.now (length others.now) }
    ensures { IsCombined tops.old scale others.now factor tops.new }
{
    let mut from = 0;
    let mut rest = places;
    while let [place, later @ ..] = rest {
        let k = *place;
        let top = combined(tops[k], scale, others[k], factor);
        tops[k] = top;
        from = k + 1;
        rest = later;
    }
}

// The same for any scale.
fn combine_by(tops: &mut [i64], scale: i64, others: &[i64], factor: i64, places: &[usize])
    requires lengths { length tops.old ≡ length others.now }
    requires tops { (k : ℕ) → k < length tops.old → unsigned_abs (top_at tops.old k) < 2 ^ 62 }
    requires others { (k : ℕ) → k < length others.now → unsigned_abs (top_at others.now k) < 2 ^ 62 }
    requires fits { (k : ℕ) → k < length tops.old → unsigned_abs (top_at tops.old k) * unsigned_abs scale + unsigned_abs (top_at others.now k) * unsigned_abs factor < 2 ^ 62 }
    requires places { HoldsBut (λ k. top_at others.now k ≡ pos 0) 0 places.now (length others.now) }
    ensures { IsCombined tops.old scale others.now factor tops.new }
{
    scale_by(tops, scale);
    combine_at(tops, 1, others, factor, places);
}

/// Makes of each number that number times the scale, less the other row's times the factor. The other row isn't 0 at the
/// places. Says how great their magnitudes are at most, as the bounds tell it.
pub fn combine(
    tops: &mut [i64],
    scale: i64,
    others: &[i64],
    factor: i64,
    places: &[usize],
    bound: u64,
    other_bound: u64,
) -> u64
    requires lengths { length tops.old ≡ length others.now }
    requires within { AreWithin tops.old bound }
    requires others_within { AreWithin others.now other_bound }
    requires bound_small { bound < 2 ^ 62 }
    requires other_bound_small { other_bound < 2 ^ 62 }
    requires fits { bound * unsigned_abs scale + other_bound * unsigned_abs factor < 2 ^ 62 }
    requires places { HoldsBut (λ k. top_at others.now k ≡ pos 0) 0 places.now (length others.now) }
    ensures combined { IsCombined tops.old scale others.now factor tops.new }
    ensures within { AreWithin tops.new result }
    ensures small { result < 2 ^ 62 }
{
    let most = combined_bound(
        bound,
        scale.unsigned_abs(),
        other_bound,
        factor.unsigned_abs(),
    );
    combine_by(tops, scale, others, factor, places);
    most
}

/// A bound of the magnitudes, which has as many bits as the greatest of them.
pub fn covering_bound(tops: &[i64]) -> u64
    requires { (k : ℕ) → k < length tops.now → unsigned_abs (top_at tops.now k) < 2 ^ 62 }
    ensures within { AreWithin tops.now result }
    ensures small { result < 2 ^ 62 }
{
    let mut most = 0;
    for k in 0..tops.len() {
        most = cover(most, tops[k].unsigned_abs());
    }
    most
}

/// The product of two numbers.
pub fn long_product(a: i64, b: i64) -> i128
    requires first { unsigned_abs a < 2 ^ 62 }
    requires second { unsigned_abs b < 2 ^ 62 }
    ensures value { result ≡ a *ℤ b }
    ensures small { unsigned_abs result < 2 ^ 124 }
{
    a as i128 * b as i128
}

/// Whether the products of a bound and a scale, of another and a factor, and of a denominator and the scale keep within
/// the limit, the first two together.
pub fn keeps_within(bound: u64, scale: u64, other_bound: u64, factor: u64, bottom: u64) -> bool
    requires bound { bound < 2 ^ 62 }
    requires scale { scale < 2 ^ 62 }
    requires other_bound { other_bound < 2 ^ 62 }
    requires factor { factor < 2 ^ 62 }
    requires bottom { bottom < 2 ^ 62 }
    ensures { OnTrue result ((bound * scale + other_bound * factor < 2 ^ 62) × (bottom * scale < 2 ^ 62)) }
{
    let first = bound as u128 * scale as u128;
    let second = other_bound as u128 * factor as u128;
    let bottom = bottom as u128 * scale as u128;
    first + second < LIMIT as u128 && bottom < LIMIT as u128
}

/// A bound of numbers that keeps such products within the limit: the one that is known, or one of as many bits as the greatest
/// magnitude has, which is looked for where the known one isn't tight, and where the other products leave room.
pub fn fitting_bound(
    tops: &[i64],
    bound: u64,
    tight: bool,
    scale: u64,
    other_bound: u64,
    factor: u64,
    bottom: u64,
) -> Option<u64>
    requires within { AreWithin tops.now bound }
    requires bound { bound < 2 ^ 62 }
    requires scale { scale < 2 ^ 62 }
    requires other_bound { other_bound < 2 ^ 62 }
    requires factor { factor < 2 ^ 62 }
    requires bottom { bottom < 2 ^ 62 }
    ensures { IfSome result (λ b. AreWithin tops.now b × (b < 2 ^ 62) × (b * scale + other_bound * factor < 2 ^ 62) × (bottom * scale < 2 ^ 62)) }
{
    if keeps_within(bound, scale, other_bound, factor, bottom) {
        return Some(bound);
    }
    if tight || !keeps_within(0, scale, other_bound, factor, bottom) {
        return None;
    }
    let covering = covering_bound(tops);
    if keeps_within(covering, scale, other_bound, factor, bottom) {
        return Some(covering);
    }
    None
}

/// One number times a scale, less another times a factor, of any numbers below the limit.
pub fn long_combined(top: i64, scale: i64, other: i64, factor: i64) -> i128
    requires top { unsigned_abs top < 2 ^ 62 }
    requires scale { unsigned_abs scale < 2 ^ 62 }
    requires other { unsigned_abs other < 2 ^ 62 }
    requires factor { unsigned_abs factor < 2 ^ 62 }
    ensures value { result ≡ top *ℤ scale -ℤ other *ℤ factor }
    ensures small { unsigned_abs result < 2 ^ 125 }
{
    let first = long_product(top, scale);
    let second = long_product(other, factor);
    first - second
}

/// Whether the product of two numbers is below the limit.
pub fn product_keeps_within(first: u64, second: u64) -> bool
    ensures { OnTrue result (first * second < 2 ^ 62) }
{
    (first as u128 * second as u128) < LIMIT as u128
}
