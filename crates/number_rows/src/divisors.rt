//! What whole numbers have in common.

ghost use Rattle.std.specs.Prelude.{◌≡◌, ◌<◌, ◌%◌};
ghost use Rattle.std.specs.Int.{◌∣◌};
ghost use Rattle.fractions.specs.Gcd.{gcd};

/// The greatest common divisor.
pub fn common_divisor(first: u64, second: u64) -> u64
    ensures exact { result ≡ gcd first second }
    ensures positive { 0 < second → 0 < result }
    ensures first { result ∣ first }
    ensures second { result ∣ second }
{
    let mut a = first;
    let mut b = second;
    while b > 1 {
        let rest = a % b;
        a = b;
        b = rest;
    }
    if b == 0 { a } else { 1 }
}

/// The greatest common divisor of two numbers other than 0, found by shifts and subtractions, whose steps have no branch that
/// depends on the numbers. To the caller it is a guess.
pub fn likely_divisor(first: u64, second: u64) -> u64 {
    let shift = (first | second).trailing_zeros() % 64;
    let mut a = first >> (first.trailing_zeros() % 64);
    let mut b = second >> (second.trailing_zeros() % 64);
    for _step in 0..128 {
        if a == b {
            return a << shift;
        }
        if b == 1 {
            return 1 << shift;
        }
        let zeros = b.wrapping_sub(a).trailing_zeros() % 64;
        let rest = if a < b { b - a } else { a - b };
        b = if a < b { a } else { b };
        a = rest >> zeros;
    }
    0
}

/// What two numbers have in common: the greatest common divisor, which is mostly the second number, else guessed and then
/// tried.
pub fn common_factor(first: u64, second: u64) -> u64
    ensures positive { 0 < second → 0 < result }
    ensures first { result ∣ first }
    ensures second { result ∣ second }
{
    if first == 0 {
        return second;
    }
    if second > 0 && first % second == 0 {
        return second;
    }
    let guess = likely_divisor(first, second);
    if guess > 0 && first % guess == 0 && second % guess == 0 {
        guess
    } else {
        common_divisor(first, second)
    }
}
