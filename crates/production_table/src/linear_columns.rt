//! The columns of a table in its linear form.

ghost use Rattle.std.specs.Prelude.{◌≡◌, ◌<◌, ◌≤◌, ◌++◌, ◌∷◌, [], IfOk, OnOk, length};
ghost use Rattle.production_table.specs.Linear.{import_column, parts_at, place_in, row_column, surplus_column};
ghost use Rattle.production_table.specs.Tables.{GoodsRise};

use crate::TableRow;
use crate::table_places::{place_in, small_place_in};
use fractions::{Ratio, is_zero};
use linear_table::{Column, Linear, LinearColumn};
use plan_base::{GoodId, Items, NoMemory};
use std::alloc::Global;

#[tactic(auto, unfolding(crate::specs::Linear::parts_at))]
// A part where the sum isn't 0.
fn add_part(
    parts: &mut Vec<(u32, Ratio)>,
    goods: &[GoodId],
    pair: &(GoodId, Ratio),
) -> Result<(), NoMemory>
    requires few { length goods.now ≤ 512 }
    requires rises { GoodsRise 0 goods.now }
    ensures { OnOk result (parts.new.items ≡ parts.old.items ++ parts_at goods.now (pair.now ∷ [])) }
{
    if is_zero(&pair.1) {
        return Ok(());
    }
    parts.push((small_place_in(goods, pair.0), pair.1))?;
    Ok(())
}

// The parts of a row's column.
fn parts_of(
    alloc: Global,
    goods: &[GoodId],
    column: &[(GoodId, Ratio)],
) -> Result<Items<(u32, Ratio)>, NoMemory>
    requires few { length goods.now ≤ 512 }
    requires rises { GoodsRise 0 goods.now }
    ensures { IfOk result (λ parts. parts ≡ parts_at goods.now column.now) }
{
    let mut parts = Vec::new(alloc);
    for pair in column {
        add_part(&mut parts, goods, pair)?;
    }
    Ok(Items::from_vec(parts))
}

// The column of a row in a linear form.
pub(crate) fn row_column(
    alloc: Global,
    goods: &[GoodId],
    number: u32,
    row: &TableRow,
    column: &[(GoodId, Ratio)],
) -> Result<LinearColumn, NoMemory>
    requires few { length goods.now ≤ 512 }
    requires rises { GoodsRise 0 goods.now }
    ensures { IfOk result (λ made. made ≡ row_column goods.now number row.now column.now) }
{
    Ok(LinearColumn {
        column: Column::Line(number),
        price: row.price,
        parts: parts_of(alloc, goods, column)?,
    })
}

// One part at a good's place.
fn one_part(
    alloc: Global,
    goods: &[GoodId],
    good: GoodId,
    amount: Ratio,
) -> Result<Items<(u32, Ratio)>, NoMemory>
    requires few { length goods.now ≤ 512 }
    requires rises { GoodsRise 0 goods.now }
    ensures { IfOk result (λ parts. parts ≡ (place_in goods.now good.0, amount) ∷ []) }
{
    let mut parts = Vec::new(alloc);
    parts.push((small_place_in(goods, good), amount))?;
    Ok(Items::from_vec(parts))
}

// The column of what comes in.
pub(crate) fn import_column(
    alloc: Global,
    goods: &[GoodId],
    pair: &(GoodId, Ratio),
) -> Result<LinearColumn, NoMemory>
    requires few { length goods.now ≤ 512 }
    requires rises { GoodsRise 0 goods.now }
    ensures { IfOk result (λ made. made ≡ import_column goods.now pair.now) }
{
    Ok(LinearColumn {
        column: Column::Import(pair.0),
        price: pair.1,
        parts: one_part(alloc, goods, pair.0, Ratio::one())?,
    })
}

// The column of what goes out.
pub(crate) fn surplus_column(
    alloc: Global,
    goods: &[GoodId],
    pair: &(GoodId, Ratio),
) -> Result<LinearColumn, NoMemory>
    requires few { length goods.now ≤ 512 }
    requires rises { GoodsRise 0 goods.now }
    ensures { IfOk result (λ made. made ≡ surplus_column goods.now pair.now) }
{
    Ok(LinearColumn {
        column: Column::Surplus(pair.0),
        price: pair.1,
        parts: one_part(alloc, goods, pair.0, Ratio::one().neg())?,
    })
}
