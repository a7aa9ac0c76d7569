//! The tables of a planner, by name and with their linear forms.
ghost use Rattle.std.specs.Prelude.{◌<◌, IfSome, length};
ghost use Rattle.game_types.specs.Sound.{IsSound};
ghost use Rattle.planner_tables.specs.Effects.{IsSoundOn};

use game_types::Game;
use linear_table::Linear;
use plan_base::{Denied, NoMemory};
use production_table::Table;
use std::alloc::Global;

/// The place of the table of a name.
pub fn place_of(tables: &[Table], name: &str) -> Option<usize>
    ensures { IfSome result (λ place. place < length tables.now) }
{
    tables.iter().position(|table| table.name.as_str() == name)
}

/// The linear form of a table, where it has one.
///
/// # Errors
///
/// `NoMemory` where memory could not be had.
pub fn linear_form(alloc: Global, game: &Game, table: &Table) -> Result<Option<Linear>, NoMemory>
    requires sound { IsSound game.now }
    requires table { IsSoundOn game.now table.now }
{
    match table.to_linear(alloc, game) {
        Ok(linear) => Ok(Some(linear)),
        Err(Denied::Refused(_)) => Ok(None),
        Err(Denied::NoMemory) => Err(NoMemory),
    }
}

/// A table with its linear form, where it has one.
pub fn with_form<'a>(
    table: &'a Table,
    linear: &'a Option<Linear>,
) -> Option<(&'a Table, &'a Linear)> {
    match linear {
        Some(linear) => Some((table, linear)),
        None => None,
    }
}
