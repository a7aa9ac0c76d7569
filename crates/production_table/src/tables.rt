//! Tables and their rows.
use fractions::Ratio;
use game_types::Setup;
use plan_base::{GoodId, Items, Text};

/// The most rows, wants, imports, surpluses and goods that a table has, of each.
pub const LIMIT: usize = 512;

/// A row of a table.
#[derive(Drop)]
pub struct TableRow {
    pub label: Text,
    pub setup: Setup,
    /// What one craft a second costs.
    pub price: Ratio,
}

/// A production table.
#[derive(Drop)]
pub struct Table {
    pub name: Text,
    pub rows: Items<TableRow>,
    /// What is wanted of goods, in units a second, in the order of goods.
    pub wants: Items<(GoodId, Ratio)>,
    /// The goods that may come in, with the prices of one unit, in the order of goods.
    pub imports: Items<(GoodId, Ratio)>,
    /// The goods that may go out, with the prices of one unit, in the order of goods.
    pub surpluses: Items<(GoodId, Ratio)>,
    /// Whether it balances its electric power.
    pub power: bool,
}
