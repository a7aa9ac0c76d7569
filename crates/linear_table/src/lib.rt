//! The linear form of a production table, plans of it, and exchanges of columns.
//!
//! A good is known by its place in the list of goods, and a column by its place in the list of columns. The meaning of
//! these types is in `specs/`: `Plans` (plans, their cost, prices), `System` (bases and their entries), `Rule` and
//! `Trail` (the pivot rule), `Wide` (entries past the limits), `Answer` (what the solver's answers say).
#![tactic(auto)]

ghost use Rattle.std.specs.Prelude.{◌≡◌, ◌<◌, ◌+◌, length, Some, slice_get};
ghost use Rattle.linear_table.specs.Parts.{part_at};

mod form;

use fractions::Ratio;
use plan_base::{GoodId, Items};

/// The name of a column.
#[derive(Clone, Copy, Debug, PartialEq, Eq)]
pub enum Column {
    /// The row of the table with this number.
    Line(u32),
    /// What brings a good into the table.
    Import(GoodId),
    /// What takes a good out of the table.
    Surplus(GoodId),
    /// One of a good and nothing else: no column of the table, but one that bases begin with.
    Unit(GoodId),
}

/// A column of a table: what one unit of it costs, and what it adds to the goods, by their places.
#[derive(Drop)]
pub struct LinearColumn {
    /// Its name.
    pub column: Column,
    /// What one unit of it costs.
    pub price: Ratio,
    /// What one unit of it adds to each good, by the good's place; nothing where a place isn't listed.
    pub parts: Items<(u32, Ratio)>,
}

/// The linear form of a table.
#[derive(Drop)]
pub struct Linear {
    /// The goods of the table.
    pub goods: Items<GoodId>,
    /// Its columns: rows, imports and surpluses, in this order.
    pub columns: Items<LinearColumn>,
    /// What is wanted of each good per second, one number per good.
    pub wants: Items<Ratio>,
}

// The part at a good's place, 0 where there is none.
fn part_of(parts: &[(u32, Ratio)], good: usize) -> Ratio
    ensures { result ≡ part_at parts.now good }
{
    let mut rest = parts;
    while let [(place, amount), others @ ..] = rest {
        if *place as usize == good {
            return *amount;
        }
        rest = others;
    }
    Ratio::zero()
}

impl Linear {
    ghost use Rattle.std.specs.Prelude.{◌≡◌, ◌<◌, ◌+◌, length, Some, slice_get};
    ghost use Rattle.linear_table.specs.Plans.{good_count, column_count, column_part, column_price, want_at};
    ghost use Rattle.linear_table.specs.Basis.{table_name, name_at};

    /// The good at a place.
    pub fn good(&self, place: usize) -> GoodId
        requires { place < good_count self.now }
        ensures { slice_get self.now.goods place ≡ Some result }
    {
        let goods = self.goods.as_slice();
        goods[place]
    }

    /// The name of the column with this number.
    pub fn name(&self, column: usize) -> Column
        requires { column < column_count self.now }
        ensures { table_name (slice_get self.now.columns column) ≡ Some result }
    {
        let columns = self.columns.as_slice();
        columns[column].column
    }

    /// What one unit of a column adds to a good.
    pub fn part(&self, column: usize, good: usize) -> Ratio
        requires { column < column_count self.now }
        ensures { result ≡ column_part self.now column good }
    {
        let columns = self.columns.as_slice();
        part_of(columns[column].parts.as_slice(), good)
    }

    /// What one unit of a column costs.
    pub fn price(&self, column: usize) -> Ratio
        requires { column < column_count self.now }
        ensures { result ≡ column_price self.now column }
    {
        let columns = self.columns.as_slice();
        columns[column].price
    }

    /// What is wanted of a good.
    pub fn want(&self, good: usize) -> Ratio
        requires { good < length self.now.wants }
        ensures { result ≡ want_at self.now good }
    {
        let wants = self.wants.as_slice();
        wants[good]
    }

    /// The name at a place among all columns: the unit columns in the order of goods, then the table's in theirs.
    pub fn name_of_place(&self, place: usize) -> Column
        requires { place < good_count self.now + column_count self.now }
        ensures { name_at self.now place ≡ Some result }
    {
        let goods = self.goods.len();
        if place < goods {
            Column::Unit(self.good(place))
        } else {
            self.name(place - goods)
        }
    }
}

/// A plan of a table with prices that show that no plan costs less.
#[derive(Drop)]
pub struct Plan {
    /// How often per second each column is taken.
    pub rates: Items<Ratio>,
    /// What that costs.
    pub cost: Ratio,
    /// A price per good.
    pub prices: Items<Ratio>,
}

/// One column into a basis, and one out of it.
#[derive(Clone, Copy, Debug, PartialEq, Eq)]
pub struct Exchange {
    /// The column that comes in.
    pub enter: Column,
    /// The column in whose place it stands from then on.
    pub leave: Column,
}

/// An entry of a basis. `row` counts the basis's columns.
#[derive(Clone, Copy, Debug, PartialEq, Eq)]
pub enum Place {
    /// The coefficient of a basic column in the combination that a column is.
    Entry { column: Column, row: u32 },
    /// The coefficient of a basic column in the combination that the wants are.
    Value { row: u32 },
    /// A column's price less that of the combination which it is.
    Reduced { column: Column },
    /// The cost of the basic values.
    Total,
}

/// What the solver answers.
#[derive(Drop)]
pub enum SolveAnswer {
    /// A plan that no other undercuts.
    Planned(Plan),
    /// Prices, one per good, which show that there is no plan.
    Infeasible(Items<Ratio>),
    /// An exchange forms a number past the limits of fractions.
    TooWide {
        /// The exchanges before it.
        trail: Items<Exchange>,
        /// That exchange.
        next: Exchange,
        /// Where the number would stand.
        place: Place,
    },
    /// The budget is used up.
    OutOfBudget {
        /// As many exchanges as the budget.
        trail: Items<Exchange>,
    },
}
