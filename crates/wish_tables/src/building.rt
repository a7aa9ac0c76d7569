//! The table of the rows that a walk found.
ghost use Rattle.game_types.specs.Sound.{IsSound};
ghost use Rattle.production_table.specs.Tables.{IsSoundTable};

use crate::faults::told;
use crate::outside::{
    add_extra_imports, add_extra_surpluses, add_import, add_imports, add_surpluses,
};
use crate::pricing::{plus, row_price};
use fractions::Ratio;
use game_types::{Game, Setup};
use plan_base::{GoodId, NoMemory};
use production_table::{LIMIT, Table};
use std::alloc::Global;
use wish_checks::push_label;
use wish_estimates::{Found, Ground, Walk};
use wish_setups::{WishFault, is_fitting};

/// What goes out or comes in beside what the rows call for, and how many watts are wanted beside the wish.
#[derive(Drop)]
pub struct Extra {
    pub surpluses: Vec<GoodId>,
    pub imports: Vec<GoodId>,
    pub reserve: Ratio,
}

impl Extra {
    pub fn none(alloc: Global) -> Extra {
        Extra {
            surpluses: Vec::new(alloc),
            imports: Vec::new(alloc),
            reserve: Ratio::zero(),
        }
    }
}

// The label and a number behind it.
fn renumber(label: &str, number: usize, free: &mut String) -> Result<(), NoMemory> {
    free.clear();
    free.push_str(label)?;
    write!(free, "-{number}")?;
    Ok(())
}

// Numbers a label of a row until it is one that the table doesn't have.
fn make_free(table: &Table, label: &str, free: &mut String) -> Result<(), NoMemory> {
    for number in 2..=LIMIT + 1 {
        if table.find_row(free.as_str()).is_none() {
            break;
        }
        renumber(label, number, free)?;
    }
    Ok(())
}

// A label of a row that the table doesn't have.
fn free_label(alloc: Global, table: &Table, label: &str) -> Result<String, NoMemory> {
    let mut free = String::from_str(alloc, label)?;
    make_free(table, label, &mut free)?;
    Ok(free)
}

fn row_label(alloc: Global, game: &Game, table: &Table, setup: &Setup) -> Result<String, NoMemory>
    requires { IsSound game.now }
{
    let mut label = String::new(alloc);
    push_label(game, setup, &mut label)?;
    free_label(alloc, table, label.as_str())
}

// A set-up comes in, where it can stand in a table. Answers whether it does.
fn add_setup(
    alloc: Global,
    game: &Game,
    table: &mut Table,
    label: &str,
    setup: &Setup,
) -> Result<bool, WishFault>
    requires game { IsSound game.now }
    requires table { IsSoundTable table.old }
    ensures { IsSoundTable table.new }
{
    let setup = setup.copy(alloc)?;
    if !is_fitting(game, &setup) {
        return Ok(false);
    }
    told(table.add_row(alloc, game, label, setup))?;
    Ok(true)
}

// A row comes in with its label and its price.
fn add_row(
    alloc: Global,
    ground: &Ground<'_>,
    table: &mut Table,
    row: &Found,
) -> Result<(), WishFault>
    requires game { IsSound ground.now.game.now }
    requires table { IsSoundTable table.old }
    ensures { IsSoundTable table.new }
{
    let label = row_label(alloc, ground.game, table, &row.setup)?;
    if !add_setup(alloc, ground.game, table, label.as_str(), &row.setup)? {
        return Ok(());
    }
    let price = row_price(ground.game, ground.wish, &row.setup, row.column.as_slice());
    if price.is_zero() {
        return Ok(());
    }
    match table.set_price(alloc, label.as_str(), &price) {
        Ok(_) => Ok(()),
        Err(_) => Err(WishFault::Full),
    }
}

// A row comes in with what it takes and gives.
fn add_whole_row(
    alloc: Global,
    ground: &Ground<'_>,
    walk: &Walk,
    table: &mut Table,
    row: &Found,
) -> Result<(), WishFault>
    requires game { IsSound ground.now.game.now }
    requires table { IsSoundTable table.old }
    ensures { IsSoundTable table.new }
{
    add_row(alloc, ground, table, row)?;
    add_surpluses(alloc, walk, table, row.column.as_slice())?;
    add_imports(alloc, ground, walk, table, row.column.as_slice())
}

// The rows come in, in an order of their places.
fn add_rows(
    alloc: Global,
    ground: &Ground<'_>,
    walk: &Walk,
    order: &[usize],
    table: &mut Table,
) -> Result<(), WishFault>
    requires game { IsSound ground.now.game.now }
    requires table { IsSoundTable table.old }
    ensures { IsSoundTable table.new }
{
    for place in order {
        if let Some(row) = walk.rows.as_slice().get(*place) {
            add_whole_row(alloc, ground, walk, table, row)?;
        }
    }
    Ok(())
}

/// A table with the rows of a walk, in an order of their places, with what comes in and goes out; and the same beside what is there already.
///
/// # Errors
///
/// `Full` where there is too much of something, or `NoMemory`.
pub fn add_walk(
    alloc: Global,
    ground: &Ground<'_>,
    walk: &Walk,
    order: &[usize],
    extra: &Extra,
    table: &mut Table,
) -> Result<(), WishFault>
    requires game { IsSound ground.now.game.now }
    requires table { IsSoundTable table.old }
    ensures { IsSoundTable table.new }
{
    add_rows(alloc, ground, walk, order, table)?;
    add_extra_surpluses(alloc, extra.surpluses.as_slice(), table)?;
    add_extra_imports(alloc, ground, extra.imports.as_slice(), table)
}

// What is wanted of a good: the wish, and of electricity the reserve beside it.
fn wanted(game: &Game, good: GoodId, rate: Ratio, reserve: &Ratio) -> Ratio
    requires { IsSound game.now }
{
    if good.0 == game.electricity().0 {
        plus(rate, reserve)
    } else {
        rate
    }
}

/// The wants of a wish come in, and what is wished and comes from outside.
///
/// # Errors
///
/// `Full` where there is too much of something, or `NoMemory`.
pub fn add_wants(
    alloc: Global,
    ground: &Ground<'_>,
    walk: &Walk,
    reserve: &Ratio,
    table: &mut Table,
) -> Result<(), WishFault>
    requires game { IsSound ground.now.game.now }
    requires table { IsSoundTable table.old }
    ensures { IsSoundTable table.new }
{
    told(table.set_want(alloc, ground.game.electricity(), reserve))?;
    for (good, rate) in ground.wish.wants.as_slice() {
        let rate = wanted(ground.game, *good, *rate, reserve);
        told(table.set_want(alloc, *good, &rate))?;
        add_import(alloc, ground, walk, table, *good)?;
    }
    Ok(())
}
