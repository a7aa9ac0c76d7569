//! Changes of tables.
ghost use Rattle.std.specs.Prelude.{◌≡◌, ◌<◌, ◌≤◌, ◌++◌, ◌∷◌, [], true, Ok, Err, IfOk, IfErr, OnErr, length, position, vec_len, vec_capacity};
ghost use Rattle.std.specs.List.{list_any};
ghost use Rattle.plan_base.specs.Outcomes.{Gives, IsRefused};
ghost use Rattle.game_types.specs.Sound.{IsSound};
ghost use Rattle.planner_tables.specs.Effects.{AreSoundTables, is_name, is_of_tables, table_named, tables_effect};
ghost use Rattle.planner_tables.specs.Steps.{MakesTables, StepFits, is_step, step_named, step_table};
ghost use Rattle.planner_tables.specs.Undoing.{tables_restored};

use crate::faults::no_name;
use crate::splices::exchange_element;
use crate::steps::{Step, take_step};
use crate::{Splice, TableRefusal, TableUndo};
use fractions::Ratio;
use game_types::Game;
use plan_base::{Denied, Text};
use plan_lines::Change;
use production_table::Table;
use std::alloc::Global;
use table_rows::{good_named, setup_named};

// The place of the first table of a name.
fn find_table(tables: &[Table], name: &str) -> Option<usize>
    ensures { result ≡ position (is_name name.now) tables.now }
{
    tables.iter().position(|table| table.name.as_str() == name)
}

/// The place of the table of a name.
#[tactic(auto, unfolding(crate::specs::Effects::table_named))]
pub(crate) fn table_named(
    alloc: Global,
    tables: &[Table],
    name: &Text,
) -> Result<usize, Denied<TableRefusal>>
    ensures place { Gives (table_named tables.now name.now) result }
    ensures within { IfOk result (λ place. place < length tables.now) }
{
    match find_table(tables, name.as_str()) {
        Some(place) => Ok(place),
        None => Err(no_name(alloc, name)),
    }
}

fn copied_price(price: &Option<Ratio>) -> Option<Ratio>
    ensures { result ≡ price.now }
{
    match price {
        Some(price) => Some(*price),
        None => None,
    }
}

#[tactic(auto, unfolding(crate::specs::Steps::step_named))]
// The step that a change asks for.
fn step_named(alloc: Global, game: &Game, change: &Change) -> Result<Step, Denied<TableRefusal>>
    requires game { IsSound game.now }
    requires step { is_step change.now ≡ true }
    ensures step { Gives (step_named game.now change.now) result }
    ensures fits { IfOk result (StepFits game.now) }
{
    match change {
        Change::Row {
            label,
            activity,
            machine,
            parts,
            ..
        } => {
            let label = Text::copy(alloc, label.as_str())?;
            let setup = setup_named(alloc, game, activity, machine, parts.as_slice())?;
            Ok(Step::Row { label, setup })
        }
        Change::Unrow { label, .. } => {
            let label = Text::copy(alloc, label.as_str())?;
            Ok(Step::Unrow { label })
        }
        Change::Price { label, price, .. } => {
            let label = Text::copy(alloc, label.as_str())?;
            Ok(Step::Price {
                label,
                price: *price,
            })
        }
        Change::Want { good, amount, .. } => {
            let named = good_named(alloc, game, good)?;
            let object = good.copy(alloc)?;
            Ok(Step::Want {
                object,
                good: named,
                amount: *amount,
            })
        }
        Change::Import { good, price, .. } => {
            let named = good_named(alloc, game, good)?;
            let object = good.copy(alloc)?;
            Ok(Step::Import {
                object,
                good: named,
                price: copied_price(price),
            })
        }
        Change::Surplus { good, price, .. } => {
            let named = good_named(alloc, game, good)?;
            let object = good.copy(alloc)?;
            Ok(Step::Surplus {
                object,
                good: named,
                price: copied_price(price),
            })
        }
        Change::Power { on, .. } => Ok(Step::Power(*on)),
        _ => Ok(Step::Power(false)),
    }
}

// A change of the table of a name.
fn change_table(
    alloc: Global,
    game: &Game,
    tables: &mut Vec<Table>,
    name: &Text,
    change: &Change,
) -> Result<TableUndo, Denied<TableRefusal>>
    requires game { IsSound game.now }
    requires sound { AreSoundTables game.now tables.old.items }
    requires step { is_step change.now ≡ true }
    requires name { step_table change.now ≡ name.now }
    ensures ok { IfOk result (λ undo. MakesTables game.now (tables_effect game.now tables.old.items change.now) undo tables.old.items tables.new.items) }
    ensures fault { IfErr result (IsRefused (tables_effect game.now tables.old.items change.now)) }
    ensures err { OnErr result (tables.new.items ≡ tables.old.items) }
{
    let place = table_named(alloc, tables.as_slice(), name)?;
    let step = step_named(alloc, game, change)?;
    let part = take_step(alloc, game, &mut tables[place], step)?;
    Ok(TableUndo::Part { table: place, part })
}

fn has_table(tables: &[Table], name: &Text) -> bool
    ensures { result ≡ list_any (is_name name.now) tables.now }
{
    tables
        .iter()
        .any(|table| name.as_str() == table.name.as_str())
}

// Puts a table into the room that was reserved for it.
fn put(tables: &mut Vec<Table>, table: Table)
    requires { vec_len tables.old < vec_capacity tables.old }
    ensures { tables.new.items ≡ tables.old.items ++ table ∷ [] }
{
    match tables.push(table) {
        Ok(()) => {}
        Err(_) => unreachable!(),
    }
}

// A new table comes in at the end.
fn add_table(
    alloc: Global,
    game: &Game,
    tables: &mut Vec<Table>,
    name: &Text,
) -> Result<TableUndo, Denied<TableRefusal>>
    requires sound { AreSoundTables game.now tables.old.items }
    ensures ok { IfOk result (λ undo. MakesTables game.now (tables_effect game.now tables.old.items (Change.Table name.now)) undo tables.old.items tables.new.items) }
    ensures fault { IfErr result (IsRefused (tables_effect game.now tables.old.items (Change.Table name.now))) }
    ensures err { OnErr result (tables.new.items ≡ tables.old.items) }
{
    let _game = game;
    if has_table(tables.as_slice(), name) {
        return Err(Denied::Refused(TableRefusal::NameUsed));
    }
    let place = tables.len();
    if place >= 64 {
        return Err(Denied::Refused(TableRefusal::Full));
    }
    let Ok(room) = Vec::with_capacity(alloc, place) else {
        return Err(Denied::NoMemory);
    };
    let Ok(table) = Table::make(alloc, name.as_str()) else {
        return Err(Denied::NoMemory);
    };
    if tables.reserve(1).is_err() {
        return Err(Denied::NoMemory);
    }
    put(tables, table);
    Ok(TableUndo::Tables(Splice::Remove { place, room }))
}

// The table of a name goes.
fn drop_table(
    alloc: Global,
    game: &Game,
    tables: &mut Vec<Table>,
    name: &Text,
) -> Result<TableUndo, Denied<TableRefusal>>
    requires sound { AreSoundTables game.now tables.old.items }
    ensures ok { IfOk result (λ undo. MakesTables game.now (tables_effect game.now tables.old.items (Change.Untable name.now)) undo tables.old.items tables.new.items) }
    ensures fault { IfErr result (IsRefused (tables_effect game.now tables.old.items (Change.Untable name.now))) }
    ensures err { OnErr result (tables.new.items ≡ tables.old.items) }
{
    let _game = game;
    let place = table_named(alloc, tables.as_slice(), name)?;
    let Ok(room) = Vec::with_capacity(alloc, tables.len()) else {
        return Err(Denied::NoMemory);
    };
    let back = exchange_element(tables, Splice::Remove { place, room });
    Ok(TableUndo::Tables(back))
}

// Makes a change, by its kind.
fn make_change(
    alloc: Global,
    game: &Game,
    tables: &mut Vec<Table>,
    change: &Change,
) -> Result<TableUndo, Denied<TableRefusal>>
    requires sound { IsSound game.now }
    requires tables { AreSoundTables game.now tables.old.items }
    requires change { is_of_tables change.now ≡ true }
    ensures ok { IfOk result (λ undo. MakesTables game.now (tables_effect game.now tables.old.items change.now) undo tables.old.items tables.new.items) }
    ensures fault { IfErr result (IsRefused (tables_effect game.now tables.old.items change.now)) }
    ensures err { OnErr result (tables.new.items ≡ tables.old.items) }
{
    match change {
        Change::Table(name) => add_table(alloc, game, tables, name),
        Change::Untable(name) => drop_table(alloc, game, tables, name),
        Change::Row { table, .. } => change_table(alloc, game, tables, table, change),
        Change::Unrow { table, .. } => change_table(alloc, game, tables, table, change),
        Change::Price { table, .. } => change_table(alloc, game, tables, table, change),
        Change::Want { table, .. } => change_table(alloc, game, tables, table, change),
        Change::Import { table, .. } => change_table(alloc, game, tables, table, change),
        Change::Surplus { table, .. } => change_table(alloc, game, tables, table, change),
        Change::Power { table, .. } => change_table(alloc, game, tables, table, change),
        _ => unreachable!(),
    }
}

/// Makes a change of tables, and answers what undoes it, which wants no memory.
///
/// # Errors
///
/// The first refusal of the change, exactly, unless memory could not be had. The tables are then as before.
pub fn change_tables(
    alloc: Global,
    game: &Game,
    tables: &mut Vec<Table>,
    change: &Change,
) -> Result<TableUndo, Denied<TableRefusal>>
    requires sound { IsSound game.now }
    requires tables { AreSoundTables game.now tables.old.items }
    requires change { is_of_tables change.now ≡ true }
    ensures ok { IfOk result (λ undo. tables_effect game.now tables.old.items change.now ≡ Ok tables.new.items) }
    ensures back { IfOk result (λ undo. tables_restored undo tables.new.items ≡ tables.old.items) }
    ensures fault { IfErr result (IsRefused (tables_effect game.now tables.old.items change.now)) }
    ensures err { OnErr result (tables.new.items ≡ tables.old.items) }
    ensures sound { AreSoundTables game.now tables.new.items }
{
    let undo = make_change(alloc, game, tables, change)?;
    Ok(undo)
}
