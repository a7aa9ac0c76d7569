//! A plan of a table, with the table and its linear form.
ghost use Rattle.game_types.specs.Sound.{IsSound};
ghost use Rattle.planner_tables.specs.Effects.{IsSoundOn};

use game_types::Game;
use linear_table::{Column, Linear, LinearColumn, Plan};
use plan_base::{Denied, NoMemory};
use plan_lines::Figures;
use production_table::{Table, TableRow};
use std::alloc::Global;

/// A plan of a table, with the table and its linear form.
#[derive(Clone, Copy)]
pub struct Planned<'a> {
    pub game: &'a Game,
    pub table: &'a Table,
    pub linear: &'a Linear,
    pub plan: &'a Plan,
    pub rows: &'a [Figures],
}

/// The row that a column is.
pub fn row_of<'a>(planned: &Planned<'a>, column: &LinearColumn) -> Option<(&'a TableRow, usize)> {
    match column.column {
        Column::Line(number) => {
            let place = number as usize;
            match planned.table.rows.as_slice().get(place) {
                Some(row) => Some((row, place)),
                None => None,
            }
        }
        _ => None,
    }
}

/// The linear form of a table, where it has one.
pub fn linear_form(alloc: Global, game: &Game, table: &Table) -> Result<Option<Linear>, NoMemory>
    requires sound { IsSound game.now }
    requires table { IsSoundOn game.now table.now }
{
    match table.to_linear(alloc, game) {
        Ok(linear) => Ok(Some(linear)),
        Err(Denied::Refused(_)) => Ok(None),
        Err(Denied::NoMemory) => Err(NoMemory),
    }
}
