//! What comes into a table from outside, and what may go out of it.
ghost use Rattle.production_table.specs.Tables.{IsSoundTable};

use crate::faults::told;
use fractions::Ratio;
use plan_base::GoodId;
use production_table::Table;
use std::alloc::Global;
use wish_estimates::{Ground, Walk, source_price};
use wish_setups::{WishFault, is_good_marked, price_in};

// The price at which a good comes in, where it does.
fn import_price(ground: &Ground<'_>, walk: &Walk, good: GoodId) -> Option<Ratio> {
    if let Some(price) = price_in(ground.wish.imports.as_slice(), good) {
        return Some(price);
    }
    if is_good_marked(walk.raw.as_slice(), good) {
        Some(source_price(ground.game, ground.wish, good))
    } else if is_good_marked(walk.rim.as_slice(), good) {
        Some(ground.estimates.price(good))
    } else {
        None
    }
}

/// What is taken as it is comes in.
pub fn add_import(
    alloc: Global,
    ground: &Ground<'_>,
    walk: &Walk,
    table: &mut Table,
    good: GoodId,
) -> Result<(), WishFault>
    requires { IsSoundTable table.old }
    ensures { IsSoundTable table.new }
{
    match import_price(ground, walk, good) {
        Some(price) => told(table.set_import(alloc, good, Some(price))),
        None => Ok(()),
    }
}

/// What a column takes of goods that come from outside comes in.
pub fn add_imports(
    alloc: Global,
    ground: &Ground<'_>,
    walk: &Walk,
    table: &mut Table,
    column: &[(GoodId, Ratio)],
) -> Result<(), WishFault>
    requires { IsSoundTable table.old }
    ensures { IsSoundTable table.new }
{
    for part in column {
        if part.1.is_neg() {
            add_import(alloc, ground, walk, table, part.0)?;
        }
    }
    Ok(())
}

// How many goods a row gives.
fn given_count(column: &[(GoodId, Ratio)]) -> usize {
    column.iter().filter(|part| part.1.is_positive()).count()
}

// A good may go out at no price.
fn add_surplus(alloc: Global, table: &mut Table, good: GoodId) -> Result<(), WishFault>
    requires { IsSoundTable table.old }
    ensures { IsSoundTable table.new }
{
    if price_in(table.surpluses.as_slice(), good).is_some() {
        return Ok(());
    }
    told(table.set_surplus(alloc, good, Some(Ratio::zero())))
}

/// What a row gives beside another good may go out, but for what is wished.
pub fn add_surpluses(
    alloc: Global,
    walk: &Walk,
    table: &mut Table,
    column: &[(GoodId, Ratio)],
) -> Result<(), WishFault>
    requires { IsSoundTable table.old }
    ensures { IsSoundTable table.new }
{
    if given_count(column) < 2 {
        return Ok(());
    }
    for part in column {
        if part.1.is_positive() && !walk.is_wanted(part.0) {
            add_surplus(alloc, table, part.0)?;
        }
    }
    Ok(())
}

/// More goods may go out at no price.
pub fn add_extra_surpluses(
    alloc: Global,
    goods: &[GoodId],
    table: &mut Table,
) -> Result<(), WishFault>
    requires table { IsSoundTable table.old }
    ensures { IsSoundTable table.new }
{
    for good in goods {
        add_surplus(alloc, table, *good)?;
    }
    Ok(())
}

/// More goods come in, each at its estimate.
pub fn add_extra_imports(
    alloc: Global,
    ground: &Ground<'_>,
    goods: &[GoodId],
    table: &mut Table,
) -> Result<(), WishFault>
    requires table { IsSoundTable table.old }
    ensures { IsSoundTable table.new }
{
    for good in goods {
        let price = ground.estimates.price(*good);
        told(table.set_import(alloc, *good, Some(price)))?;
    }
    Ok(())
}
