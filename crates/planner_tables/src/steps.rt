//! Changes of one table.
//!
//! Some functions here and in `changes` have a game of which their clauses alone speak: its tables fit it before and behind. Their
//! bodies read it by `let _game = game;`.
ghost use Rattle.std.specs.Prelude.{◌≡◌, ◌<◌, Ok, IfOk, IfErr, OnErr};
ghost use Rattle.plan_base.specs.Outcomes.{IsRefused};
ghost use Rattle.game_types.specs.Goods.{good_count};
ghost use Rattle.game_types.specs.Sound.{IsSound, IsSoundSetup};
ghost use Rattle.production_table.specs.Changes.{with_balance, with_import, with_price, with_row, with_surplus, with_want, without_row};
ghost use Rattle.planner_tables.specs.Effects.{IsSoundOn, table_after};
ghost use Rattle.planner_tables.specs.Steps.{MakesTable, StepFits, step_effect};

use crate::faults::{good_fault, no_name, row_fault, row_refusal};
use crate::undos::copied;
use crate::{Numbers, Splice, TablePart, TableRefusal};
use fractions::Ratio;
use game_types::{Game, Setup};
use plan_base::{Denied, GoodId, Text};
use plan_lines::Object;
use production_table::Table;
use std::alloc::Global;

/// A change of one table, with things in place of their names.
#[derive(Drop)]
pub(crate) enum Step {
    Row {
        label: Text,
        setup: Setup,
    },
    Unrow {
        label: Text,
    },
    Price {
        label: Text,
        price: Ratio,
    },
    Want {
        object: Object,
        good: GoodId,
        amount: Ratio,
    },
    Import {
        object: Object,
        good: GoodId,
        price: Option<Ratio>,
    },
    Surplus {
        object: Object,
        good: GoodId,
        price: Option<Ratio>,
    },
    Power(bool),
}

// A row comes in at the end.
fn add_row(
    alloc: Global,
    game: &Game,
    table: &mut Table,
    label: &Text,
    setup: Setup,
) -> Result<TablePart, Denied<TableRefusal>>
    requires game { IsSound game.now }
    requires setup { IsSoundSetup game.now setup }
    requires table { IsSoundOn game.now table.old }
    ensures ok { IfOk result (λ part. MakesTable game.now (table_after (TableRefusal.NoName label.now) (with_row game.now label.now setup table.old)) part table.old table.new) }
    ensures fault { IfErr result (IsRefused (table_after (TableRefusal.NoName label.now) (with_row game.now label.now setup table.old))) }
    ensures err { OnErr result (table.new ≡ table.old) }
{
    let place = table.rows.len();
    let Ok(room) = Vec::with_capacity(alloc, place) else {
        return Err(Denied::NoMemory);
    };
    match table.add_row(alloc, game, label.as_str(), setup) {
        Ok(()) => Ok(TablePart::Rows(Splice::Remove { place, room })),
        Err(fault) => Err(row_fault(alloc, label, fault)),
    }
}

// The row with a label goes.
fn drop_row(
    alloc: Global,
    game: &Game,
    table: &mut Table,
    label: &Text,
) -> Result<TablePart, Denied<TableRefusal>>
    requires table { IsSoundOn game.now table.old }
    ensures ok { IfOk result (λ part. MakesTable game.now (table_after (TableRefusal.NoName label.now) (without_row label.now table.old)) part table.old table.new) }
    ensures fault { IfErr result (IsRefused (table_after (TableRefusal.NoName label.now) (without_row label.now table.old))) }
    ensures err { OnErr result (table.new ≡ table.old) }
{
    let _game = game;
    let Ok(room) = Vec::with_capacity(alloc, table.rows.len()) else {
        return Err(Denied::NoMemory);
    };
    match table.drop_row(alloc, label.as_str()) {
        Ok((place, row)) => Ok(TablePart::Rows(Splice::Insert {
            place: place as usize,
            item: row,
            room,
        })),
        Err(fault) => Err(row_refusal(alloc, label, fault)),
    }
}

// The row with a label has another price.
fn set_price(
    alloc: Global,
    game: &Game,
    table: &mut Table,
    label: &Text,
    price: &Ratio,
) -> Result<TablePart, Denied<TableRefusal>>
    requires table { IsSoundOn game.now table.old }
    ensures ok { IfOk result (λ part. MakesTable game.now (table_after (TableRefusal.NoName label.now) (with_price label.now price.now table.old)) part table.old table.new) }
    ensures fault { IfErr result (IsRefused (table_after (TableRefusal.NoName label.now) (with_price label.now price.now table.old))) }
    ensures err { OnErr result (table.new ≡ table.old) }
{
    let _game = game;
    let Some(row) = table.find_row(label.as_str()) else {
        return Err(no_name(alloc, label));
    };
    match table.set_price(alloc, label.as_str(), price) {
        Ok(price) => Ok(TablePart::Price { row, price }),
        Err(fault) => Err(row_refusal(alloc, label, fault)),
    }
}

// Another rate of a good is wanted.
fn set_want(
    alloc: Global,
    game: &Game,
    table: &mut Table,
    object: &Object,
    good: GoodId,
    rate: &Ratio,
) -> Result<TablePart, Denied<TableRefusal>>
    requires table { IsSoundOn game.now table.old }
    requires good { good.0 < good_count game.now }
    ensures ok { IfOk result (λ part. MakesTable game.now (table_after (TableRefusal.NoPrice object.now) (with_want good rate.now table.old)) part table.old table.new) }
    ensures fault { IfErr result (IsRefused (table_after (TableRefusal.NoPrice object.now) (with_want good rate.now table.old))) }
    ensures err { OnErr result (table.new ≡ table.old) }
{
    let _game = game;
    let Ok(numbers) = copied(alloc, &table.wants) else {
        return Err(Denied::NoMemory);
    };
    match table.set_want(alloc, good, rate) {
        Ok(_) => Ok(TablePart::Goods {
            list: Numbers::Wants,
            numbers,
        }),
        Err(fault) => Err(good_fault(alloc, object, fault)),
    }
}

// A good may come in at another price, or not.
fn set_import(
    alloc: Global,
    game: &Game,
    table: &mut Table,
    object: &Object,
    good: GoodId,
    price: Option<Ratio>,
) -> Result<TablePart, Denied<TableRefusal>>
    requires table { IsSoundOn game.now table.old }
    requires good { good.0 < good_count game.now }
    ensures ok { IfOk result (λ part. MakesTable game.now (table_after (TableRefusal.NoPrice object.now) (with_import good price table.old)) part table.old table.new) }
    ensures fault { IfErr result (IsRefused (table_after (TableRefusal.NoPrice object.now) (with_import good price table.old))) }
    ensures err { OnErr result (table.new ≡ table.old) }
{
    let _game = game;
    let Ok(numbers) = copied(alloc, &table.imports) else {
        return Err(Denied::NoMemory);
    };
    match table.set_import(alloc, good, price) {
        Ok(_) => Ok(TablePart::Goods {
            list: Numbers::Imports,
            numbers,
        }),
        Err(fault) => Err(good_fault(alloc, object, fault)),
    }
}

// A good may go out at another price, or not.
fn set_surplus(
    alloc: Global,
    game: &Game,
    table: &mut Table,
    object: &Object,
    good: GoodId,
    price: Option<Ratio>,
) -> Result<TablePart, Denied<TableRefusal>>
    requires table { IsSoundOn game.now table.old }
    requires good { good.0 < good_count game.now }
    ensures ok { IfOk result (λ part. MakesTable game.now (table_after (TableRefusal.NoPrice object.now) (with_surplus good price table.old)) part table.old table.new) }
    ensures fault { IfErr result (IsRefused (table_after (TableRefusal.NoPrice object.now) (with_surplus good price table.old))) }
    ensures err { OnErr result (table.new ≡ table.old) }
{
    let _game = game;
    let Ok(numbers) = copied(alloc, &table.surpluses) else {
        return Err(Denied::NoMemory);
    };
    match table.set_surplus(alloc, good, price) {
        Ok(_) => Ok(TablePart::Goods {
            list: Numbers::Surpluses,
            numbers,
        }),
        Err(fault) => Err(good_fault(alloc, object, fault)),
    }
}

// The table balances its electric power, or doesn't.
fn set_power(game: &Game, table: &mut Table, on: bool) -> TablePart
    requires table { IsSoundOn game.now table.old }
    ensures { MakesTable game.now (Ok (with_balance on table.old).1) result table.old table.new }
{
    let _game = game;
    TablePart::Power(table.set_power(on))
}

/// Makes a step, and answers the part that leads back.
pub(crate) fn take_step(
    alloc: Global,
    game: &Game,
    table: &mut Table,
    step: Step,
) -> Result<TablePart, Denied<TableRefusal>>
    requires game { IsSound game.now }
    requires table { IsSoundOn game.now table.old }
    requires step { StepFits game.now step }
    ensures ok { IfOk result (λ part. MakesTable game.now (step_effect game.now step table.old) part table.old table.new) }
    ensures fault { IfErr result (IsRefused (step_effect game.now step table.old)) }
    ensures err { OnErr result (table.new ≡ table.old) }
{
    match step {
        Step::Row { label, setup } => add_row(alloc, game, table, &label, setup),
        Step::Unrow { label } => drop_row(alloc, game, table, &label),
        Step::Price { label, price } => set_price(alloc, game, table, &label, &price),
        Step::Want {
            object,
            good,
            amount,
        } => set_want(alloc, game, table, &object, good, &amount),
        Step::Import {
            object,
            good,
            price,
        } => set_import(alloc, game, table, &object, good, price),
        Step::Surplus {
            object,
            good,
            price,
        } => set_surplus(alloc, game, table, &object, good, price),
        Step::Power(on) => Ok(set_power(game, table, on)),
    }
}
