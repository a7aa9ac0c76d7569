//! The table of a wish: tables are tried until one has a plan.
ghost use Rattle.std.specs.Prelude.{IfOk};
ghost use Rattle.game_types.specs.Sound.{IsSound};
ghost use Rattle.production_table.specs.Tables.{IsSoundTable};
ghost use Rattle.wish_checks.specs.Answers.{IsMet};
ghost use Rattle.wish_tables.specs.Ends.{HasSoundTable, TriedSoundTable};

use crate::orders::{ORDERS, ordered};
use crate::trying::{TableEnd, Trial, try_order};
use crate::walks::walk_of;
use game_types::Game;
use plan_base::{Denied, GoodId, NoMemory};
use production_table::{LIMIT, Table};
use std::alloc::Global;
use wish_checks::is_met;
use wish_estimates::{Estimates, Ground, Walk, why_unmade};
use wish_setups::{Met, State, Wish, WishFault, mined_goods, price_in, reached_fuels};

// How the tables of a size ended.
#[derive(Drop)]
enum Tried {
    Met(Met),
    // None has a plan, and why.
    Failed(WishFault),
}

// The orders of a walk's rows are tried until one is settled.
fn try_orders(alloc: Global, trial: &Trial<'_>, walk: &Walk) -> Result<TableEnd, WishFault>
    requires game { IsSound trial.now.ground.game.now }
    requires start { IsSoundTable trial.now.start.now }
    ensures { IfOk result HasSoundTable }
{
    for order in 0..ORDERS {
        let places = ordered(alloc, walk, order)?;
        match try_order(alloc, trial, walk, places.as_slice())? {
            TableEnd::Unsolved => {}
            outcome => return Ok(outcome),
        }
    }
    Ok(TableEnd::Unsolved)
}

// How a walk's tables end: met, or without a plan, or unsolved.
fn tried_by(outcome: TableEnd) -> Tried
    requires { HasSoundTable outcome }
    ensures { TriedSoundTable result }
{
    match outcome {
        TableEnd::Met(met) => Tried::Met(met),
        TableEnd::NoPlan(goods) => Tried::Failed(WishFault::NoPlan(goods)),
        TableEnd::Unsolved => Tried::Failed(WishFault::Unsolved),
    }
}

// Tables of at most so many rows are tried.
fn try_size(
    alloc: Global,
    trial: &Trial<'_>,
    most: usize,
    further: bool,
) -> Result<Tried, WishFault>
    requires game { IsSound trial.now.ground.game.now }
    requires start { IsSoundTable trial.now.start.now }
    ensures { IfOk result TriedSoundTable }
{
    let walk = walk_of(alloc, trial, most, further)?;
    match try_orders(alloc, trial, &walk) {
        Ok(outcome) => Ok(tried_by(outcome)),
        Err(WishFault::NoMemory) => Err(WishFault::NoMemory),
        Err(fault) => Ok(Tried::Failed(fault)),
    }
}

// Tables are tried with further ways and without, and then with half the rows, and so on.
fn try_sizes(alloc: Global, trial: &Trial<'_>) -> Result<Met, WishFault>
    requires game { IsSound trial.now.ground.game.now }
    requires start { IsSoundTable trial.now.start.now }
    ensures { IfOk result (λ met. IsSoundTable met.table) }
{
    let mut last = WishFault::Unsolved;
    let mut most = (trial.ground.wish.rows as usize).min(LIMIT);
    for _ in 0..10 {
        match try_size(alloc, trial, most, true)? {
            Tried::Met(met) => return Ok(met),
            Tried::Failed(fault) => last = fault,
        }
        match try_size(alloc, trial, most, false)? {
            Tried::Met(met) => return Ok(met),
            Tried::Failed(fault) => last = fault,
        }
        most = most / 2;
        if most == 0 {
            break;
        }
    }
    Err(last)
}

// Each wished good can be made.
fn check_made(alloc: Global, ground: &Ground<'_>) -> Result<(), WishFault>
    requires { IsSound ground.now.game.now }
{
    for (good, _) in ground.wish.wants.as_slice() {
        if !ground.estimates.is_known(*good) {
            let unmade = why_unmade(
                alloc,
                ground.game,
                ground.state,
                ground.wish,
                ground.estimates,
                *good,
            )?;
            return Err(WishFault::Unmade(unmade));
        }
    }
    Ok(())
}

fn push_known(
    estimates: &Estimates,
    fuels: &[GoodId],
    known: &mut Vec<GoodId>,
) -> Result<(), NoMemory> {
    for fuel in fuels {
        if estimates.is_known(*fuel) {
            known.push(*fuel)?;
        }
    }
    Ok(())
}

// What is tried for a wish, all of it lent for as long.
#[derive(Clone, Copy)]
struct Case<'a> {
    game: &'a Game,
    reached: &'a [bool],
    wish: &'a Wish,
    start: &'a Table,
    wants: bool,
}

// Tries tables over the estimates of a wish.
fn try_from<'a>(
    alloc: Global,
    case: &'a Case<'a>,
    mined: &'a [bool],
    fuels: &'a [GoodId],
    estimates: &'a Estimates,
) -> Result<Met, WishFault>
    requires game { IsSound case.now.game.now }
    requires start { IsSoundTable case.now.start.now }
    ensures { IfOk result (λ met. IsSoundTable met.table) }
{
    let state = State {
        reached: case.reached,
        mined,
        fuels,
    };
    let ground = Ground {
        game: case.game,
        state,
        wish: case.wish,
        estimates,
    };
    check_made(alloc, &ground)?;
    let trial = Trial {
        ground,
        start: case.start,
        wants: case.wants,
    };
    try_sizes(alloc, &trial)
}

// The estimates of a wish.
fn estimates_of(
    alloc: Global,
    case: &Case<'_>,
    mined: &[bool],
    fuels: &[GoodId],
) -> Result<Estimates, NoMemory>
    requires { IsSound case.now.game.now }
{
    let state = State {
        reached: case.reached,
        mined,
        fuels,
    };
    Estimates::of(alloc, case.game, state, case.wish)
}

fn meet(alloc: Global, case: &Case<'_>) -> Result<Met, WishFault>
    requires game { IsSound case.now.game.now }
    requires start { IsSoundTable case.now.start.now }
    ensures { IfOk result (λ met. IsSoundTable met.table) }
{
    let mined = mined_goods(alloc, case.game, case.reached)?;
    let fuels = reached_fuels(alloc, case.game, case.reached)?;
    let estimates = estimates_of(alloc, case, mined.as_slice(), fuels.as_slice())?;
    let mut known = Vec::new(alloc);
    push_known(&estimates, fuels.as_slice(), &mut known)?;
    try_from(alloc, case, mined.as_slice(), known.as_slice(), &estimates)
}

/// The table of a name for a wish.
///
/// # Errors
///
/// Why there is none.
pub fn wish_table(
    alloc: Global,
    game: &Game,
    reached: &[bool],
    name: &str,
    wish: &Wish,
) -> Result<Met, WishFault>
    requires { IsSound game.now }
    ensures { IfOk result (IsMet game.now reached.now name.now wish.now) }
{
    let mut start = Table::make(alloc, name)?;
    start.set_power(wish.power);
    let case = Case {
        game,
        reached,
        wish,
        start: &start,
        wants: true,
    };
    let met = meet(alloc, &case)?;
    if is_met(alloc, game, reached, name, wish, &met)? {
        Ok(met)
    } else {
        Err(WishFault::Unsolved)
    }
}

// An import of a good ends, where there is one.
fn end_import(alloc: Global, table: &mut Table, good: GoodId) -> Result<(), WishFault>
    requires { IsSoundTable table.old }
    ensures { IsSoundTable table.new }
{
    if price_in(table.imports.as_slice(), good).is_none() {
        return Ok(());
    }
    match table.set_import(alloc, good, None) {
        Ok(_) => Ok(()),
        Err(Denied::Refused(_)) => Err(WishFault::Full),
        Err(Denied::NoMemory) => Err(WishFault::NoMemory),
    }
}

/// A table that stands, with more rows: those that give the first good of the wish, whose import ends.
///
/// # Errors
///
/// Why there is none.
pub fn more_rows(
    alloc: Global,
    game: &Game,
    reached: &[bool],
    table: &Table,
    wish: &Wish,
) -> Result<Met, WishFault>
    requires game { IsSound game.now }
    requires table { IsSoundTable table.now }
{
    let mut start = table.copy(alloc)?;
    for (good, _) in wish.wants.as_slice() {
        end_import(alloc, &mut start, *good)?;
    }
    let case = Case {
        game,
        reached,
        wish,
        start: &start,
        wants: false,
    };
    meet(alloc, &case)
}
