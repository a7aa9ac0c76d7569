//! What the words ask for.
use fractions::Ratio;

/// A good that is wished for, as it is named, and the units a second; a belt full of it where no rate is named.
#[derive(Clone, Copy)]
pub struct AskedWish<'a> {
    pub good: &'a str,
    pub rate: Option<Ratio>,
}

/// Beacons round each machine.
#[derive(Clone, Copy)]
pub struct AskedBeacon<'a> {
    pub machine: &'a str,
    pub count: u32,
    pub share: u32,
    pub item: &'a str,
}

/// A good that is taken as it is, at a price of one unit, which is not below 0.
#[derive(Clone, Copy)]
pub struct AskedImport<'a> {
    pub good: &'a str,
    pub price: Ratio,
}

/// How each machine is set up.
#[derive(Drop)]
pub struct AskedSetup<'a> {
    /// The modules, of which the first that may go there fills a machine.
    pub modules: Vec<&'a str>,
    pub beacon: Option<AskedBeacon<'a>>,
    pub fuel: Option<&'a str>,
}

/// What a plan is to take least of.
#[derive(Clone, Copy, Debug, PartialEq, Eq)]
pub enum Least {
    /// What comes from outside, at its prices.
    Cost,
    Power,
    Pollution,
    Machines,
}

/// Which recipes are rows.
#[derive(Drop)]
pub struct AskedChoice<'a> {
    /// The recipes that are no rows.
    pub without: Vec<&'a str>,
    /// The recipes besides which no others make what they give.
    pub only: Vec<&'a str>,
    /// The most rows.
    pub rows: u32,
    pub cheapest: Least,
}

/// More rows for a table that stands: those that make a good.
#[derive(Clone, Copy)]
pub struct AskedMore<'a> {
    pub good: &'a str,
    pub table: &'a str,
}

/// What the words ask for.
#[derive(Drop)]
pub struct WishRequest<'a> {
    pub table: &'a str,
    pub wishes: Vec<AskedWish<'a>>,
    /// The belt of which a good without a rate fills one.
    pub belt: Option<&'a str>,
    pub more: Option<AskedMore<'a>>,
    /// The machines to take before faster ones.
    pub by: Vec<&'a str>,
    pub setup: AskedSetup<'a>,
    pub imports: Vec<AskedImport<'a>>,
    pub choice: AskedChoice<'a>,
    pub dig: bool,
    pub power: bool,
}
