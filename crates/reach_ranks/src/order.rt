//! One more than a rank, and the earlier and the later of two, where 0 is no rank and after all others.
ghost use Rattle.std.specs.Prelude.{◌≡◌, ℕ, ◌+◌, ◌-◌, ◌^◌, ◌<◌, ◌&&◌, ◌||◌};
ghost use Rattle.reach_ranks.specs.Ranks.{is_one_to};
ghost use Rattle.reach_ranks.specs.Given.{lesser};

/// One more than the rank, and none where there is none or it doesn't fit.
pub fn next_rank(rank: u32) -> u32
    ensures { (k : ℕ) → k < 2 ^ 32 - 1 → is_one_to (k + 1) result ≡ is_one_to k rank }
{
    if rank == 0 || rank == u32::MAX {
        0
    } else {
        rank + 1
    }
}

/// The later of two ranks, where none is after all others.
pub fn later(a: u32, b: u32) -> u32
    ensures { (k : ℕ) → is_one_to k result ≡ (is_one_to k a && is_one_to k b) }
{
    if a == 0 || b == 0 { 0 } else { a.max(b) }
}

/// The earlier of two ranks, where none is after all others.
pub fn earlier(a: u32, b: u32) -> u32
    ensures value { result ≡ lesser a b }
    ensures tests { (k : ℕ) → is_one_to k result ≡ (is_one_to k a || is_one_to k b) }
{
    if a == 0 {
        b
    } else if b == 0 {
        a
    } else {
        a.min(b)
    }
}
