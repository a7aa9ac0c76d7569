//! Whether the table that stands in a planner meets a wish.
ghost use Rattle.std.specs.Prelude.{OnOk};
ghost use Rattle.planner_tables.specs.Effects.{AreSoundTables};
ghost use Rattle.production_table.specs.Tables.{IsSoundTable};
ghost use Rattle.game_types.specs.Sound.{IsSound};
ghost use Rattle.wish_answers.specs.Meeting.{HasMet, TableMeets, TablesMeet};

use crate::failures::Failure;
use game_types::Game;
use planner_core::Planner;
use production_table::Table;
use std::alloc::Global;
use wish_checks::is_met;
use wish_setups::{Met, Wish};

// Whether a table meets a wish with the rim of what was found for it, in which it then stands.
fn check_table(
    alloc: Global,
    game: &Game,
    reached: &[bool],
    table: &Table,
    name: &str,
    wish: &Wish,
    met: &mut Met,
) -> Result<(), Failure>
    requires sound { IsSound game.now }
    requires table { IsSoundTable table.now }
    ensures { OnOk result (TableMeets game.now reached.now name.now wish.now table.now) }
{
    met.table = table.copy(alloc)?;
    if is_met(alloc, game, reached, name, wish, met)? {
        Ok(())
    } else {
        Err(Failure::Unmet)
    }
}

// Whether one of some tables, of this name, meets a wish.
fn check_tables(
    alloc: Global,
    game: &Game,
    reached: &[bool],
    tables: &[Table],
    name: &str,
    wish: &Wish,
    met: &mut Met,
) -> Result<(), Failure>
    requires sound { IsSound game.now }
    requires tables { AreSoundTables game.now tables.now }
    ensures { OnOk result (TablesMeet game.now reached.now name.now wish.now tables.now) }
{
    for table in tables {
        if table.name.as_str() == name {
            return check_table(alloc, game, reached, table, name, wish, met);
        }
    }
    Err(Failure::Unmet)
}

/// Whether the table of this name that stands in a planner meets a wish with the rim of what was found for it.
///
/// # Errors
///
/// `Unmet` where it doesn't, or `NoMemory`.
pub fn check_standing(
    alloc: Global,
    planner: &Planner,
    reached: &[bool],
    name: &str,
    wish: &Wish,
    met: &mut Met,
) -> Result<(), Failure>
    ensures { OnOk result (HasMet planner.now reached.now name.now wish.now) }
{
    check_tables(
        alloc,
        planner.game(),
        reached,
        planner.tables(),
        name,
        wish,
        met,
    )
}
