//! The ways to goods, with what they take and give, nearly.
use crate::numbers::NONE;
use game_types::Activity;
use plan_base::{GoodId, NoMemory};
use std::alloc::Global;

/// A range of places in a list.
#[derive(Clone, Copy)]
pub struct Span {
    from: usize,
    to: usize,
}

impl Span {
    pub fn new(from: usize, to: usize) -> Span {
        Span { from, to }
    }
}

/// The places of a list that a span names.
pub fn part<T>(items: &[T], span: Span) -> &[T] {
    if span.from <= span.to && span.to <= items.len() {
        &items[span.from..span.to]
    } else {
        &[]
    }
}

/// So much of one of some goods.
#[derive(Clone, Copy)]
pub struct Take {
    pub fits: Span,
    pub amount: f64,
}

/// So much of a good.
#[derive(Clone, Copy)]
pub struct Give {
    pub good: GoodId,
    pub amount: f64,
}

/// A way to goods.
#[derive(Clone, Copy)]
pub struct Way {
    pub activity: Activity,
    /// The fluid that something takes in that makes electricity.
    pub at: Option<GoodId>,
    /// What one craft costs beside what it takes.
    own: f64,
    takes: Span,
    gives: Span,
}

/// All ways.
#[derive(Drop)]
pub struct Network {
    ways: Vec<Way>,
    takes: Vec<Take>,
    gives: Vec<Give>,
    fits: Vec<GoodId>,
}

/// What a unit of a good costs, `NONE` where that isn't known.
pub fn cost_at(costs: &[f64], good: GoodId) -> f64 {
    match costs.get(good.0 as usize) {
        Some(cost) => *cost,
        None => NONE,
    }
}

// What the cheapest of some goods costs.
fn least_cost(costs: &[f64], goods: &[GoodId]) -> f64 {
    let mut least = NONE;
    for good in goods {
        let cost = cost_at(costs, *good);
        if cost < least {
            least = cost;
        }
    }
    least
}

fn has_good(goods: &[GoodId], good: GoodId) -> bool {
    goods.iter().any(|other| other.0 == good.0)
}

impl Network {
    pub fn new(alloc: Global) -> Network {
        Network {
            ways: Vec::new(alloc),
            takes: Vec::new(alloc),
            gives: Vec::new(alloc),
            fits: Vec::new(alloc),
        }
    }

    pub fn ways(&self) -> &[Way] {
        self.ways.as_slice()
    }

    pub fn takes_of(&self, way: &Way) -> &[Take] {
        part(self.takes.as_slice(), way.takes)
    }

    pub fn gives_of(&self, way: &Way) -> &[Give] {
        part(self.gives.as_slice(), way.gives)
    }

    pub fn fits_of(&self, take: &Take) -> &[GoodId] {
        part(self.fits.as_slice(), take.fits)
    }

    /// The places at which the next parts come.
    pub fn next_take(&self) -> usize {
        self.takes.len()
    }

    pub fn next_give(&self) -> usize {
        self.gives.len()
    }

    pub fn next_fit(&self) -> usize {
        self.fits.len()
    }

    pub fn push_fit(&mut self, good: GoodId) -> Result<(), NoMemory> {
        self.fits.push(good)?;
        Ok(())
    }

    /// So much is taken of one of the fits from a place on.
    pub fn push_take(&mut self, from: usize, amount: f64) -> Result<(), NoMemory> {
        let fits = Span::new(from, self.fits.len());
        self.takes.push(Take { fits, amount })?;
        Ok(())
    }

    pub fn push_give(&mut self, good: GoodId, amount: f64) -> Result<(), NoMemory> {
        self.gives.push(Give { good, amount })?;
        Ok(())
    }

    /// A way comes in with the takes and gives from some places on.
    pub fn push_way(
        &mut self,
        activity: Activity,
        at: Option<GoodId>,
        own: f64,
        takes: usize,
        gives: usize,
    ) -> Result<(), NoMemory> {
        let takes = Span::new(takes, self.takes.len());
        let gives = Span::new(gives, self.gives.len());
        self.ways.push(Way {
            activity,
            at,
            own,
            takes,
            gives,
        })?;
        Ok(())
    }

    // What one craft of a way takes of a good itself.
    fn taken_of(&self, way: &Way, good: GoodId) -> f64 {
        let mut taken = 0.0;
        for take in self.takes_of(way) {
            if has_good(self.fits_of(take), good) {
                taken = taken + take.amount;
            }
        }
        taken
    }

    // What one craft of a way costs, what it takes of a good itself aside.
    fn spent_beside(&self, costs: &[f64], way: &Way, good: GoodId) -> f64 {
        let mut spent = way.own;
        for take in self.takes_of(way) {
            let fits = self.fits_of(take);
            if !has_good(fits, good) {
                let cost = least_cost(costs, fits);
                if cost >= NONE {
                    return NONE;
                }
                spent = spent + cost * take.amount;
            }
        }
        spent
    }

    /// What a unit of a good costs that one craft of a way gives so much of: what the way takes over what it gives more than it takes.
    pub fn unit_cost(&self, costs: &[f64], way: &Way, give: &Give) -> f64 {
        let net = give.amount - self.taken_of(way, give.good);
        if net > 1.0e-12 {
            let spent = self.spent_beside(costs, way, give.good);
            if spent < NONE { spent / net } else { NONE }
        } else {
            NONE
        }
    }
}
