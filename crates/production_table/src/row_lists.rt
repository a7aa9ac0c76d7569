//! Rows of tables: copied, looked for, checked and put in.

ghost use Rattle.std.specs.Prelude.{◌≡◌, ◌<◌, ◌≤◌, Some, IfOk, OnOk, OnErr, length, slice_get, slice_set};
ghost use Rattle.std.specs.List.{insert, list_any};
ghost use Rattle.production_table.specs.declared.tables.TableRow.{TableRow};
ghost use Rattle.game_types.specs.Sound.{IsSound, IsSoundSetup};
ghost use Rattle.production_table.specs.Changes.{new_row, row_fits};
ghost use Rattle.production_table.specs.Tables.{is_label};

use crate::numbers::guard;
use crate::{LIMIT, Table, TableFault, TableRow};
use fractions::Ratio;
use game_types::{Game, Setup};
use plan_base::{GoodId, Items, NoMemory, Text};
use std::alloc::Global;
use std::mem;
use table_rows::check_setup;

// The row at a place has another price. Answers the old one.
pub(crate) fn set_price_at(rows: &mut Vec<TableRow>, place: usize, price: &Ratio) -> Ratio
    requires { place < length rows.old.items }
    ensures { (row : TableRow) → slice_get rows.old.items place ≡ Some row → (result ≡ row.price) × (rows.new.items ≡ slice_set rows.old.items place (record row { price = price.now })) }
{
    let row = &mut rows[place];
    mem::replace(&mut row.price, *price)
}

// A list of the same numbers.
pub(crate) fn copied(
    alloc: Global,
    pairs: &Items<(GoodId, Ratio)>,
) -> Result<Items<(GoodId, Ratio)>, NoMemory>
    ensures { IfOk result (λ copy. copy ≡ pairs.now) }
{
    let copy = Vec::from_slice(alloc, pairs.as_slice())?;
    Ok(Items::from_vec(copy))
}

// A list of the same rows.
pub(crate) fn copied_rows(alloc: Global, rows: &[TableRow]) -> Result<Items<TableRow>, NoMemory>
    ensures { IfOk result (λ copy. copy ≡ rows.now) }
{
    let mut copy = Vec::with_capacity(alloc, rows.len())?;
    for row in rows {
        let row = row.copy(alloc)?;
        copy.push(row)?;
    }
    Ok(Items::from_vec(copy))
}

// Whether a row has this label.
fn is_used(rows: &[TableRow], label: &str) -> bool
    ensures { result ≡ list_any (is_label label.now) rows.now }
{
    rows.iter().any(|row| row.label.as_str() == label)
}

// Whether a row of this label and set-up can come in.
pub(crate) fn check_row(
    table: &Table,
    game: &Game,
    label: &str,
    setup: &Setup,
) -> Result<(), TableFault>
    requires game { IsSound game.now }
    requires setup { IsSoundSetup game.now setup.now }
    ensures { result ≡ row_fits game.now label.now setup.now table.now }
{
    guard(is_used(table.rows.as_slice(), label), TableFault::LabelUsed)?;
    guard(table.rows.len() >= LIMIT, TableFault::Full)?;
    match check_setup(game, setup) {
        Ok(()) => Ok(()),
        Err(fault) => Err(TableFault::Setup(fault)),
    }
}

// A row as it comes in.
pub(crate) fn new_row(alloc: Global, label: &str, setup: Setup) -> Result<TableRow, NoMemory>
    ensures { IfOk result (λ row. row ≡ new_row label.now setup) }
{
    let label = Text::copy(alloc, label)?;
    Ok(TableRow {
        label,
        setup,
        price: Ratio::zero(),
    })
}

// A row at a place.
fn insert_at(rows: &mut Vec<TableRow>, place: usize, row: TableRow) -> Result<(), NoMemory>
    requires { place ≤ length rows.old.items }
    ensures ok { OnOk result (rows.new.items ≡ insert rows.old.items place row) }
    ensures err { OnErr result (rows.new.items ≡ rows.old.items) }
{
    rows.reserve(1)?;
    rows.insert(place, row)?;
    Ok(())
}

// A row at a place of a table's.
pub(crate) fn insert_row(
    alloc: Global,
    rows: &mut Items<TableRow>,
    place: usize,
    row: TableRow,
) -> Result<(), NoMemory>
    requires { place ≤ length rows.old }
    ensures ok { OnOk result (rows.new ≡ insert rows.old place row) }
    ensures err { OnErr result (rows.new ≡ rows.old) }
{
    let no_rows = Items::from_vec(Vec::new(alloc));
    let mut list = mem::replace(rows, no_rows).into_vec();
    let done = insert_at(&mut list, place, row);
    *rows = Items::from_vec(list);
    done
}
