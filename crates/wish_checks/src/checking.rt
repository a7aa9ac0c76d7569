//! Whether a table meets a wish.
ghost use Rattle.std.specs.Prelude.{◌≡◌, ◌||◌, ◌&&◌, ◌<◌, All, IfOk, map, not};
ghost use Rattle.std.specs.Bool.{OnFalse, OnTrue};
ghost use Rattle.std.specs.List.{list_all};
ghost use Rattle.game_types.specs.Sound.{IsSound};
ghost use Rattle.production_table.specs.Tables.{IsSoundTable};
ghost use Rattle.table_rows.specs.Setups.{IsFitting};
ghost use Rattle.wish_checks.specs.Answers.{IsMet, are_fitting, brings, is_activity_reached, is_row_reached, is_wish_supplied, keeps_form, keeps_table, priced_column};

use crate::keeping::{keeps_form, keeps_table};
use crate::solving::{are_fitting, is_solvable};
use crate::supplies::{brings, is_given};
use fractions::Ratio;
use game_types::{Activity, Game};
use plan_base::{GoodId, Items, Kind, NoMemory};
use production_table::{Table, TableRow};
use std::alloc::Global;
use table_rows::{RowFault, column_of};
use wish_setups::{Met, Wish, is_marked, is_mined, is_reached};

// A row's price, and what one craft a second of it adds to each good.
pub type Priced = (Ratio, Items<(GoodId, Ratio)>);

fn is_activity_reached(game: &Game, reached: &[bool], activity: Activity) -> bool
    requires { IsSound game.now }
    ensures { result ≡ is_activity_reached game.now reached.now activity }
{
    match activity {
        Activity::Craft(recipe) => is_reached(game, reached, Kind::Recipe, recipe.0),
        Activity::Mine(source) => is_reached(game, reached, Kind::Source, source.0),
        Activity::Pump(good) => is_marked(reached, 3 + good.0 as usize),
        Activity::Generate => is_marked(reached, 1),
        Activity::Boil(good) => is_marked(reached, 3 + good.0 as usize),
        Activity::Research(tech) => is_reached(game, reached, Kind::Tech, tech.0),
    }
}

fn is_row_reached(game: &Game, reached: &[bool], row: &TableRow) -> bool
    requires { IsSound game.now }
    ensures { result ≡ is_row_reached game.now reached.now row.now }
{
    is_reached(game, reached, Kind::Machine, row.setup.machine.0)
        && is_activity_reached(game, reached, row.setup.activity)
}

pub fn are_reached(game: &Game, reached: &[bool], rows: &[TableRow]) -> bool
    requires { IsSound game.now }
    ensures { result ≡ list_all (is_row_reached game.now reached.now) rows.now }
{
    rows.iter().all(|row| is_row_reached(game, reached, row))
}

// A row's price and its column, an empty one where that is too wide.
fn priced_column(
    alloc: Global,
    game: &Game,
    power: bool,
    row: &TableRow,
) -> Result<Priced, NoMemory>
    requires sound { IsSound game.now }
    requires fits { IsFitting game.now row.now.setup }
    ensures { IfOk result (λ column. column ≡ priced_column game.now power row.now) }
{
    match column_of(alloc, game, power, &row.setup) {
        Ok(column) => Ok((row.price, Items::from_vec(column))),
        Err(RowFault::Wide(_)) => Ok((row.price, Items::from_vec(Vec::new(alloc)))),
        Err(RowFault::NoMemory) => Err(NoMemory),
    }
}

pub fn priced_columns(
    alloc: Global,
    game: &Game,
    power: bool,
    rows: &[TableRow],
) -> Result<Items<Priced>, NoMemory>
    requires sound { IsSound game.now }
    requires fits { All (λ row. IsFitting game.now row.setup) rows.now }
    ensures { IfOk result (λ columns. columns ≡ map (priced_column game.now power) rows.now) }
{
    let mut columns = Vec::new(alloc);
    for row in rows {
        let column = priced_column(alloc, game, power, row)?;
        columns.push(column)?;
    }
    Ok(Items::from_vec(columns))
}

// Whether a row gives a wished good, or an import of it was asked for, or it is imported and a source gives it.
fn is_wish_supplied(
    game: &Game,
    reached: &[bool],
    wish: &Wish,
    table: &Table,
    columns: &[Priced],
    want: &(GoodId, Ratio),
) -> bool
    requires { IsSound game.now }
    ensures { result ≡ is_wish_supplied game.now reached.now wish.now table.now columns.now want.now }
{
    is_given(columns, want.0)
        || brings(want.0, wish.imports.as_slice())
        || (is_mined(game, reached, want.0) && brings(want.0, table.imports.as_slice()))
}

pub fn are_supplied(
    game: &Game,
    reached: &[bool],
    wish: &Wish,
    table: &Table,
    columns: &[Priced],
) -> bool
    requires { IsSound game.now }
    ensures { result ≡ list_all (is_wish_supplied game.now reached.now wish.now table.now columns.now) wish.now.wants }
{
    wish.wants.as_slice().iter().all(|want| is_wish_supplied(
        game, reached, wish, table, columns, want,
    ))
}

// Whether each row of a table can stand in it.
pub fn fits(game: &Game, table: &Table) -> bool
    requires { IsSound game.now }
    ensures same { result ≡ are_fitting game.now table.now.rows }
    ensures fitting { OnTrue result (All (λ row. IsFitting game.now row.setup) table.now.rows) }
{
    are_fitting(game, table.rows.as_slice())
}

/// Whether a table meets a wish.
///
/// # Errors
///
/// `NoMemory` where memory could not be had.
#[tactic(auto, using(crate::proofs::MetLemmas::met_where, crate::proofs::MetLemmas::not_fitting, crate::proofs::MetLemmas::of_other_form, crate::proofs::MetLemmas::of_other_parts, crate::proofs::MetLemmas::without_plan))]
pub fn is_met(
    alloc: Global,
    game: &Game,
    reached: &[bool],
    name: &str,
    wish: &Wish,
    met: &Met,
) -> Result<bool, NoMemory>
    requires sound { IsSound game.now }
    requires table { IsSoundTable met.now.table }
    ensures yes { IfOk result (λ yes. OnTrue yes (IsMet game.now reached.now name.now wish.now met.now)) }
    ensures not { IfOk result (λ yes. OnFalse yes (¬ IsMet game.now reached.now name.now wish.now met.now)) }
{
    if !fits(game, &met.table) {
        return Ok(false);
    }
    if !keeps_form(name, wish, &met.table) {
        return Ok(false);
    }
    if !keeps_table(alloc, game, reached, wish, met)? {
        return Ok(false);
    }
    is_solvable(alloc, game, &met.table)
}
