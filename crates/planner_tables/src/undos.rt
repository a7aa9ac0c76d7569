//! What undoes a change of tables.
ghost use Rattle.std.specs.Prelude.{◌≡◌, IfOk, List};
ghost use Rattle.production_table.specs.declared.tables.Table.{Table as TableOf};
ghost use Rattle.production_table.specs.declared.tables.TableRow.{TableRow as RowOf};
ghost use Rattle.planner_tables.specs.Undoing.{part_restored, spliced, tables_restored, with_numbers, with_power, with_price_at, with_row_price, with_rows};
ghost use Rattle.plan_base.specs.Places.{with_at};

use crate::splices::{Splice, copied_insertion, copied_removal, exchange_element};
use fractions::Ratio;
use plan_base::{GoodId, Items, NoMemory};
use production_table::{Table, TableRow};
use std::alloc::Global;
use std::mem;

/// The lists of a table that give numbers to goods.
#[derive(Clone, Copy, Debug, PartialEq, Eq)]
pub enum Numbers {
    Wants,
    Imports,
    Surpluses,
}

/// A part of a table that stood in the place of another.
#[derive(Drop)]
pub enum TablePart {
    /// A row that goes, or comes in.
    Rows(Splice<TableRow>),
    /// All numbers of one of the lists.
    Goods {
        list: Numbers,
        numbers: Items<(GoodId, Ratio)>,
    },
    /// The price of the row at a place.
    Price {
        row: usize,
        price: Ratio,
    },
    /// Whether the table balances its electric power.
    Power(bool),
}

/// What undoes a change of tables.
#[derive(Drop)]
pub enum TableUndo {
    /// A table that goes, or comes in.
    Tables(Splice<Table>),
    /// A part of the table at a place.
    Part { table: usize, part: TablePart },
}

fn exchange_rows(alloc: Global, table: &mut Table, part: Splice<TableRow>) -> Splice<TableRow>
    ensures after { table.new ≡ with_rows part table.old }
    ensures back { with_rows result table.new ≡ table.old }
{
    let mut rows = mem::replace(&mut table.rows, Items::from_vec(Vec::new(alloc))).into_vec();
    let old = exchange_element(&mut rows, part);
    table.rows = Items::from_vec(rows);
    old
}

fn exchange_numbers(
    table: &mut Table,
    list: Numbers,
    numbers: Items<(GoodId, Ratio)>,
) -> Items<(GoodId, Ratio)>
    ensures after { table.new ≡ with_numbers list numbers table.old }
    ensures back { with_numbers list result table.new ≡ table.old }
{
    match list {
        Numbers::Wants => mem::replace(&mut table.wants, numbers),
        Numbers::Imports => mem::replace(&mut table.imports, numbers),
        Numbers::Surpluses => mem::replace(&mut table.surpluses, numbers),
    }
}

fn exchange_row_price(row: &mut TableRow, price: Ratio) -> Ratio
    ensures after { row.new ≡ with_row_price price row.old }
    ensures back { with_row_price result row.new ≡ row.old }
{
    mem::replace(&mut row.price, price)
}

fn exchange_price_in(rows: &mut [TableRow], place: usize, price: Ratio) -> Ratio
    ensures after { rows.new ≡ with_at (with_row_price price) place rows.old }
    ensures back { with_at (with_row_price result) place rows.new ≡ rows.old }
{
    if place < rows.len() {
        exchange_row_price(&mut rows[place], price)
    } else {
        price
    }
}

fn exchange_price(alloc: Global, table: &mut Table, row: usize, price: Ratio) -> Ratio
    ensures after { table.new ≡ with_price_at row price table.old }
    ensures back { with_price_at row result table.new ≡ table.old }
{
    let mut rows = mem::replace(&mut table.rows, Items::from_vec(Vec::new(alloc))).into_vec();
    let old = exchange_price_in(rows.as_mut_slice(), row, price);
    table.rows = Items::from_vec(rows);
    old
}

fn exchange_power(table: &mut Table, on: bool) -> bool
    ensures after { table.new ≡ with_power on table.old }
    ensures back { with_power result table.new ≡ table.old }
{
    mem::replace(&mut table.power, on)
}

fn exchange_part(alloc: Global, table: &mut Table, part: TablePart) -> TablePart
    ensures after { table.new ≡ part_restored part table.old }
    ensures back { part_restored result table.new ≡ table.old }
{
    match part {
        TablePart::Rows(splice) => TablePart::Rows(exchange_rows(alloc, table, splice)),
        TablePart::Goods { list, numbers } => TablePart::Goods {
            list,
            numbers: exchange_numbers(table, list, numbers),
        },
        TablePart::Price { row, price } => TablePart::Price {
            row,
            price: exchange_price(alloc, table, row, price),
        },
        TablePart::Power(on) => TablePart::Power(exchange_power(table, on)),
    }
}

fn exchange_part_at(alloc: Global, tables: &mut [Table], place: usize, part: TablePart) -> TablePart
    ensures after { tables.new ≡ with_at (part_restored part) place tables.old }
    ensures back { with_at (part_restored result) place tables.new ≡ tables.old }
{
    if place < tables.len() {
        exchange_part(alloc, &mut tables[place], part)
    } else {
        part
    }
}

/// Puts a part of the tables in its place, and answers what undoes that. It takes no memory. Where the place is of nothing,
/// nothing changes.
pub fn exchange_tables(alloc: Global, tables: &mut Vec<Table>, undo: TableUndo) -> TableUndo
    ensures after { tables.new.items ≡ tables_restored undo tables.old.items }
    ensures back { tables_restored result tables.new.items ≡ tables.old.items }
{
    match undo {
        TableUndo::Tables(splice) => TableUndo::Tables(exchange_element(tables, splice)),
        TableUndo::Part { table, part } => TableUndo::Part {
            table,
            part: exchange_part_at(alloc, tables.as_mut_slice(), table, part),
        },
    }
}

/// An equal list of its own.
pub(crate) fn copied(
    alloc: Global,
    numbers: &Items<(GoodId, Ratio)>,
) -> Result<Items<(GoodId, Ratio)>, NoMemory>
    ensures { IfOk result (λ copy. copy ≡ numbers.now) }
{
    let copy = Vec::from_slice(alloc, numbers.as_slice())?;
    Ok(Items::from_vec(copy))
}

fn copied_row(alloc: Global, splice: &Splice<TableRow>) -> Result<Splice<TableRow>, NoMemory>
    ensures { IfOk result (λ copy. (rows : List RowOf) → spliced copy rows ≡ spliced splice.now rows) }
{
    match splice {
        Splice::Remove { place, room } => copied_removal(alloc, *place, room),
        Splice::Insert { place, item, room } => {
            let row = item.copy(alloc)?;
            copied_insertion(alloc, *place, row, room)
        }
    }
}

fn copied_table(alloc: Global, splice: &Splice<Table>) -> Result<Splice<Table>, NoMemory>
    ensures { IfOk result (λ copy. (tables : List TableOf) → spliced copy tables ≡ spliced splice.now tables) }
{
    match splice {
        Splice::Remove { place, room } => copied_removal(alloc, *place, room),
        Splice::Insert { place, item, room } => {
            let table = item.copy(alloc)?;
            copied_insertion(alloc, *place, table, room)
        }
    }
}

fn copied_part(alloc: Global, part: &TablePart) -> Result<TablePart, NoMemory>
    ensures { IfOk result (λ copy. (table : TableOf) → part_restored copy table ≡ part_restored part.now table) }
{
    match part {
        TablePart::Rows(splice) => {
            let copy = copied_row(alloc, splice)?;
            Ok(TablePart::Rows(copy))
        }
        TablePart::Goods { list, numbers } => {
            let numbers = copied(alloc, numbers)?;
            Ok(TablePart::Goods {
                list: *list,
                numbers,
            })
        }
        TablePart::Price { row, price } => Ok(TablePart::Price {
            row: *row,
            price: *price,
        }),
        TablePart::Power(on) => Ok(TablePart::Power(*on)),
    }
}

impl TableUndo {
    /// What undoes the same.
    ///
    /// # Errors
    ///
    /// `NoMemory` where memory could not be had.
    pub fn copy(&self, alloc: Global) -> Result<TableUndo, NoMemory>
        ensures { IfOk result (λ copy. (tables : List TableOf) → tables_restored copy tables ≡ tables_restored self.now tables) }
    {
        match self {
            TableUndo::Tables(splice) => {
                let copy = copied_table(alloc, splice)?;
                Ok(TableUndo::Tables(copy))
            }
            TableUndo::Part { table, part } => {
                let part = copied_part(alloc, part)?;
                Ok(TableUndo::Part {
                    table: *table,
                    part,
                })
            }
        }
    }
}
