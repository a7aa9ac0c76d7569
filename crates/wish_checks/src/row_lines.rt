//! The lines that make the rows of a table.
ghost use Rattle.game_types.specs.Sound.{IsSound};

use crate::words::{
    Done, push, push_activity, push_count, push_good, push_machine, push_number, push_word,
};
use game_types::{BeaconGroup, Game, Setup};
use plan_base::GoodId;
use production_table::TableRow;
use std::alloc::Global;

fn push_module(
    alloc: Global,
    game: &Game,
    word: &str,
    module: (GoodId, u32),
    text: &mut String,
) -> Done
    requires { IsSound game.now }
{
    push(text, &[" ", word, " "])?;
    push_good(alloc, game, module.0, text)?;
    push_count(text, module.1)
}

fn push_modules(
    alloc: Global,
    game: &Game,
    word: &str,
    modules: &[(GoodId, u32)],
    text: &mut String,
) -> Done
    requires { IsSound game.now }
{
    for module in modules {
        push_module(alloc, game, word, *module, text)?;
    }
    Ok(())
}

fn push_group(alloc: Global, game: &Game, group: &BeaconGroup, text: &mut String) -> Done
    requires { IsSound game.now }
{
    push(text, &[" beacon "])?;
    push_machine(alloc, game, group.beacon, text)?;
    push_count(text, group.count)?;
    push_count(text, group.share)?;
    push_modules(alloc, game, "in", group.modules.as_slice(), text)
}

fn push_beacons(alloc: Global, game: &Game, groups: &[BeaconGroup], text: &mut String) -> Done
    requires { IsSound game.now }
{
    for group in groups {
        push_group(alloc, game, group, text)?;
    }
    Ok(())
}

fn push_fuel(alloc: Global, game: &Game, fuel: Option<GoodId>, text: &mut String) -> Done
    requires { IsSound game.now }
{
    let Some(fuel) = fuel else {
        return Ok(());
    };
    push(text, &[" fuel "])?;
    push_good(alloc, game, fuel, text)
}

fn push_fluids(alloc: Global, game: &Game, fluids: &[GoodId], text: &mut String) -> Done
    requires { IsSound game.now }
{
    for fluid in fluids {
        push(text, &[" at "])?;
        push_good(alloc, game, *fluid, text)?;
    }
    Ok(())
}

// The words of a row behind its machine.
fn push_parts(alloc: Global, game: &Game, setup: &Setup, text: &mut String) -> Done
    requires { IsSound game.now }
{
    push_fuel(alloc, game, setup.fuel, text)?;
    push_modules(alloc, game, "module", setup.modules.as_slice(), text)?;
    push_beacons(alloc, game, setup.beacons.as_slice(), text)?;
    push_fluids(alloc, game, setup.at.as_slice(), text)
}

fn push_price(alloc: Global, table: &str, row: &TableRow, text: &mut String) -> Done {
    if row.price.is_zero() {
        return Ok(());
    }
    push(text, &["price ", table, " "])?;
    push_word(alloc, row.label.as_str(), text)?;
    push(text, &[" "])?;
    push_number(alloc, &row.price, text)?;
    push(text, &["\n"])
}

fn push_row(alloc: Global, game: &Game, table: &str, row: &TableRow, text: &mut String) -> Done
    requires { IsSound game.now }
{
    push(text, &["row ", table, " "])?;
    push_word(alloc, row.label.as_str(), text)?;
    push(text, &[" "])?;
    push_activity(alloc, game, row.setup.activity, text)?;
    push(text, &[" by "])?;
    push_machine(alloc, game, row.setup.machine, text)?;
    push_parts(alloc, game, &row.setup, text)?;
    push(text, &["\n"])?;
    push_price(alloc, table, row, text)
}

/// Writes the lines of rows, each with that of its price where it has one.
pub fn push_rows(
    alloc: Global,
    game: &Game,
    table: &str,
    rows: &[TableRow],
    text: &mut String,
) -> Done
    requires { IsSound game.now }
{
    for row in rows {
        push_row(alloc, game, table, row, text)?;
    }
    Ok(())
}
