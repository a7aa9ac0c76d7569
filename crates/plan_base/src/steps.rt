ghost use Rattle.std.specs.Prelude.{◌≡◌, ℕ, ◌+◌, ◌^◌, ◌≤◌, ◌-◌, min};

use std::marker::Model;

/// A counter of steps, seen as the number of steps taken.
///
/// `L` is a marker of the caller. Only who has a value of `L` can start a counter, so that code which is generic in
/// `L` counts all its steps on the counter that it was given.
#[derive(Drop)]
pub struct Steps<L> {
    count: u64,
    by: L,
}

impl<L> Model for Steps<L> {
    ghost Value = { ℕ };

    ghost view = { λ s. s.count };
}

impl<L> Steps<L> {
    /// A counter on which no step was taken yet.
    pub fn new(by: L) -> Steps<L>
        ensures { result ≡ 0 }
    {
        Steps { count: 0, by }
    }

    /// Takes one step. A counter at its last value, 2^64 - 1, stays there.
    pub fn tick(&mut self)
        ensures one { self.new ≡ min (self.old + 1) (2 ^ 64 - 1) }
        ensures later { self.old ≤ self.new }
    {
        self.count = self.count.saturating_add(1);
    }

    /// How many steps were taken.
    pub fn taken(&self) -> u64
        ensures { result ≡ self.now }
    {
        self.count
    }
}
