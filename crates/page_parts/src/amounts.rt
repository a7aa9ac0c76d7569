//! How much of a good flows.
use fractions::Ratio;

/// An amount within the limits of fractions, or that it isn't.
#[derive(Clone, Copy)]
pub enum Amount {
    Exact(Ratio),
    Wide,
}

/// What a column adds to a good at its rate.
#[derive(Clone, Copy)]
pub struct Flow {
    /// The place of the good among those of the table.
    pub good: u32,
    /// Whether the good comes out of the column; else it goes in.
    pub gives: bool,
    /// How much per second, below 0 where it goes in.
    pub amount: Amount,
}
