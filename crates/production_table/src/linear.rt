//! The linear form of a table.
ghost use Rattle.std.specs.Prelude.{◌≡◌, ◌<◌, ◌≤◌, ◌++◌, All, IfOk, Ok, OnOk, length, map};
ghost use Rattle.plan_base.specs.Outcomes.{Gives, seen_as};
ghost use Rattle.game_types.specs.Goods.{good_count};
ghost use Rattle.game_types.specs.Sound.{IsSound};
ghost use Rattle.linear_table.specs.Plans.{IsWellFormed};
ghost use Rattle.production_table.specs.Linear.{columns_of, HasFigures, import_column, linear_of, linear_with, of_row, row_column, row_columns, surplus_column, want_of};
ghost use Rattle.production_table.specs.Tables.{GoodsRise, IsOfGame, IsSoundTable};
ghost use Rattle.table_rows.specs.Columns.{column_of, figures_of};
ghost use Rattle.table_rows.specs.Setups.{IsFitting};

use crate::linear_columns::{import_column, row_column, surplus_column};
use crate::numbers::number_of;
use crate::table_places::goods_of;
use crate::{LIMIT, Table, TableFault, TableRow};
use fractions::Ratio;
use game_types::{Effects, Game, Rates};
use linear_table::{Linear, LinearColumn};
use plan_base::{Denied, GoodId, Items, NoMemory, Text};
use std::alloc::Global;
use table_rows::{RowColumn, RowFault, row_of};

/// The linear form of a table, and for each of its rows, in order, what `row_rates` gives of its set-up: the effects on the
/// machine, what one craft a second takes, and the power of the beacons of each machine.
#[derive(Drop)]
pub struct LinearAndFigures {
    pub linear: Linear,
    pub figures: Items<(Effects, Rates, Ratio)>,
}

// The columns of rows, and their figures.
#[derive(Drop)]
struct ColumnsAndFigures {
    columns: Items<Items<(GoodId, Ratio)>>,
    figures: Items<(Effects, Rates, Ratio)>,
}

// The column of a row, and its figures.
fn column_of_row(
    alloc: Global,
    game: &Game,
    power: bool,
    row: &TableRow,
) -> Result<RowColumn, Denied<TableFault>>
    requires sound { IsSound game.now }
    requires setup { IsFitting game.now row.now.setup }
    ensures column { Gives (of_row row.now (column_of game.now power row.now.setup)) (seen_as (λ made. made.column.items) result) }
    ensures figures { IfOk result (λ made. figures_of game.now row.now.setup ≡ Ok made.figures) }
{
    match row_of(alloc, game, power, &row.setup) {
        Ok(made) => Ok(made),
        Err(RowFault::Wide(wide)) => {
            let label = Text::copy(alloc, row.label.as_str())?;
            Err(Denied::Refused(TableFault::Wide {
                label,
                step: wide.step,
            }))
        }
        Err(RowFault::NoMemory) => Err(Denied::NoMemory),
    }
}

// The columns of rows, and their figures.
fn columns_of(
    alloc: Global,
    game: &Game,
    power: bool,
    rows: &[TableRow],
) -> Result<ColumnsAndFigures, Denied<TableFault>>
    requires sound { IsSound game.now }
    requires setups { All (λ row. IsFitting game.now row.setup) rows.now }
    ensures columns { Gives (columns_of game.now power rows.now) (seen_as (λ made. made.columns) result) }
    ensures figures { IfOk result (λ made. HasFigures game.now rows.now made.figures) }
{
    let mut columns = Vec::new(alloc);
    let mut figures = Vec::new(alloc);
    for row in rows {
        let made = column_of_row(alloc, game, power, row)?;
        figures.push(made.figures)?;
        columns.push(Items::from_vec(made.column))?;
    }
    Ok(ColumnsAndFigures {
        columns: Items::from_vec(columns),
        figures: Items::from_vec(figures),
    })
}

#[tactic(auto, unfolding(crate::specs::Linear::want_of))]
// What is wanted of a good.
fn want_of(wants: &[(GoodId, Ratio)], good: GoodId) -> Ratio
    ensures { result ≡ want_of wants.now good }
{
    match number_of(wants, good) {
        Some(rate) => rate,
        None => Ratio::zero(),
    }
}

// The columns of rows.
fn add_rows(
    alloc: Global,
    made: &mut Vec<LinearColumn>,
    goods: &[GoodId],
    rows: &[TableRow],
    columns: &[Items<(GoodId, Ratio)>],
) -> Result<(), NoMemory>
    requires goods { length goods.now ≤ 512 }
    requires rises { GoodsRise 0 goods.now }
    requires rows { length rows.now ≤ 512 }
    requires columns { length columns.now ≡ length rows.now }
    ensures { OnOk result (made.new.items ≡ made.old.items ++ row_columns goods.now 0 rows.now columns.now) }
{
    for number in 0..rows.len() {
        let row = &rows[number];
        let column = &columns[number];
        let one = row_column(alloc, goods, number as u32, row, column.as_slice())?;
        made.push(one)?;
    }
    Ok(())
}

// The columns of what comes in.
fn add_imports(
    alloc: Global,
    made: &mut Vec<LinearColumn>,
    goods: &[GoodId],
    pairs: &[(GoodId, Ratio)],
) -> Result<(), NoMemory>
    requires few { length goods.now ≤ 512 }
    requires rises { GoodsRise 0 goods.now }
    ensures { OnOk result (made.new.items ≡ made.old.items ++ map (import_column goods.now) pairs.now) }
{
    for pair in pairs {
        let one = import_column(alloc, goods, pair)?;
        made.push(one)?;
    }
    Ok(())
}

// The columns of what goes out.
fn add_surpluses(
    alloc: Global,
    made: &mut Vec<LinearColumn>,
    goods: &[GoodId],
    pairs: &[(GoodId, Ratio)],
) -> Result<(), NoMemory>
    requires few { length goods.now ≤ 512 }
    requires rises { GoodsRise 0 goods.now }
    ensures { OnOk result (made.new.items ≡ made.old.items ++ map (surplus_column goods.now) pairs.now) }
{
    for pair in pairs {
        let one = surplus_column(alloc, goods, pair)?;
        made.push(one)?;
    }
    Ok(())
}

// What is wanted of each good.
fn wants_of(
    alloc: Global,
    goods: &[GoodId],
    wants: &[(GoodId, Ratio)],
) -> Result<Items<Ratio>, NoMemory>
    ensures { IfOk result (λ rates. rates ≡ map (want_of wants.now) goods.now) }
{
    let mut rates = Vec::new(alloc);
    for good in goods {
        rates.push(want_of(wants, *good))?;
    }
    Ok(Items::from_vec(rates))
}

// A linear form of these goods and columns.
fn linear_with(
    alloc: Global,
    table: &Table,
    goods: Vec<GoodId>,
    columns: &[Items<(GoodId, Ratio)>],
) -> Result<Linear, NoMemory>
    requires goods { length goods.items ≤ 512 }
    requires rises { GoodsRise 0 goods.items }
    requires rows { length table.now.rows ≤ 512 }
    requires columns { length columns.now ≡ length table.now.rows }
    ensures { IfOk result (λ linear. linear ≡ linear_with table.now goods.items columns.now) }
{
    let mut made = Vec::new(alloc);
    add_rows(
        alloc,
        &mut made,
        goods.as_slice(),
        table.rows.as_slice(),
        columns,
    )?;
    add_imports(alloc, &mut made, goods.as_slice(), table.imports.as_slice())?;
    add_surpluses(
        alloc,
        &mut made,
        goods.as_slice(),
        table.surpluses.as_slice(),
    )?;
    let wants = wants_of(alloc, goods.as_slice(), table.wants.as_slice())?;
    Ok(Linear {
        goods: Items::from_vec(goods),
        columns: Items::from_vec(made),
        wants,
    })
}

impl Table {
    /// The linear form of the table: the goods that it mentions, a column for each row, import and surplus, and what is
    /// wanted.
    ///
    /// # Errors
    ///
    /// The first of these, exactly, unless memory could not be had: `Wide` (K4) for the first row that has a step past the
    /// limits of fractions, with the first such step; `Full` (P3) where there are more than 512 goods.
    pub fn to_linear(&self, alloc: Global, game: &Game) -> Result<Linear, Denied<TableFault>>
        requires sound { IsSound game.now }
        requires table { IsSoundTable self.now }
        requires rows { All (λ row. IsFitting game.now row.setup) self.now.rows }
        ensures linear { Gives (linear_of game.now self.now) result }
        ensures formed { IfOk result IsWellFormed }
        ensures goods { IsOfGame game.now self.now → IfOk result (λ linear. All (λ good. good.0 < good_count game.now) linear.goods) }
    {
        match self.to_linear_with_figures(alloc, game) {
            Ok(made) => Ok(made.linear),
            Err(fault) => Err(fault),
        }
    }

    /// The linear form of the table, with the figures of its rows: the rates of each row are worked out once for both.
    ///
    /// # Errors
    ///
    /// As `to_linear`.
    pub fn to_linear_with_figures(
        &self,
        alloc: Global,
        game: &Game,
    ) -> Result<LinearAndFigures, Denied<TableFault>>
        requires sound { IsSound game.now }
        requires table { IsSoundTable self.now }
        requires rows { All (λ row. IsFitting game.now row.setup) self.now.rows }
        ensures linear { Gives (linear_of game.now self.now) (seen_as (λ made. made.linear) result) }
        ensures formed { IfOk result (λ made. IsWellFormed made.linear) }
        ensures goods { IsOfGame game.now self.now → IfOk result (λ made. All (λ good. good.0 < good_count game.now) made.linear.goods) }
        ensures figures { IfOk result (λ made. HasFigures game.now self.now.rows made.figures) }
    {
        let rows = columns_of(alloc, game, self.power, self.rows.as_slice())?;
        let goods = goods_of(alloc, self, rows.columns.as_slice())?;
        if goods.len() > LIMIT {
            return Err(Denied::Refused(TableFault::Full));
        }
        let linear = linear_with(alloc, self, goods, rows.columns.as_slice())?;
        Ok(LinearAndFigures {
            linear,
            figures: rows.figures,
        })
    }
}
