//! What things are chosen by.
ghost use Rattle.std.specs.Prelude.{◌≡◌};
ghost use Rattle.std.specs.Ordering.{is_lt, ordering_then};
ghost use Rattle.fractions.specs.Compare.{compared};
ghost use Rattle.wish_setups.specs.Choice.{better, comes_before, rank_cmp};

use fractions::Ratio;
use std::cmp::Ordering;

/// What a machine or a fuel is chosen by. One that is less at the first of these that differs comes before another.
#[derive(Clone, Copy)]
pub struct Rank {
    pub place: usize,
    /// Whether a generator wastes heat.
    pub wastes: bool,
    pub heat: Ratio,
    /// How many machines one craft a second takes.
    pub machines: Ratio,
    /// Whether fuel is burnt.
    pub burns: bool,
}

#[tactic(auto, using(fractions::specs::Compare::compared_is))]
fn compare(one: &Ratio, other: &Ratio) -> Ordering
    ensures { result ≡ compared one.now other.now }
{
    one.cmp(other)
}

fn is_less(order: Ordering) -> bool
    ensures { result ≡ is_lt order }
{
    match order {
        Ordering::Less => true,
        Ordering::Equal => false,
        Ordering::Greater => false,
    }
}

/// Whether a fraction is below another.
pub fn is_below(one: &Ratio, other: &Ratio) -> bool
    ensures { result ≡ is_lt (compared one.now other.now) }
{
    is_less(compare(one, other))
}

// The first of two comparisons, or where that finds no difference the second.
fn or_by(first: Ordering, second: Ordering) -> Ordering
    ensures { result ≡ ordering_then first second }
{
    match first {
        Ordering::Less => Ordering::Less,
        Ordering::Equal => second,
        Ordering::Greater => Ordering::Greater,
    }
}

fn rank_cmp(one: &Rank, other: &Rank) -> Ordering
    ensures { result ≡ rank_cmp one.now other.now }
{
    let burns = one.burns.cmp(&other.burns);
    let machines = or_by(compare(&one.machines, &other.machines), burns);
    let heat = or_by(compare(&one.heat, &other.heat), machines);
    let wastes = or_by(one.wastes.cmp(&other.wastes), heat);
    or_by(one.place.cmp(&other.place), wastes)
}

// Whether a rank comes before another.
fn comes_before(one: &Rank, other: &Rank) -> bool
    ensures { result ≡ comes_before one.now other.now }
{
    is_less(rank_cmp(one, other))
}

/// The better of the best so far, with its number, and what has a next number, where that has a rank.
pub fn better(
    best: Option<(usize, Rank)>,
    number: usize,
    rank: Option<Rank>,
) -> Option<(usize, Rank)>
    ensures { result ≡ better best number rank }
{
    let Some(rank) = rank else {
        return best;
    };
    let Some(held) = best else {
        return Some((number, rank));
    };
    if comes_before(&rank, &held.1) {
        Some((number, rank))
    } else {
        Some(held)
    }
}
