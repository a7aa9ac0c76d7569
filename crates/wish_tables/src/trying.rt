//! A table that is tried for a wish: it is made, solved, and mended where it has no plan.
ghost use Rattle.std.specs.Prelude.{IfOk, IfSome};
ghost use Rattle.wish_tables.specs.Ends.{HasSoundTable};
ghost use Rattle.game_types.specs.Sound.{IsSound};
ghost use Rattle.production_table.specs.Tables.{IsSoundTable};

use crate::building::{Extra, add_walk, add_wants};
use crate::power::draw_of;
use crate::pricing::is_above;
use fractions::Ratio;
use linear_table::{Linear, Plan, SolveAnswer};
use plan_base::{GoodId, Items, NoMemory};
use production_table::Table;
use std::alloc::Global;
use wish_checks::{Solved, solve_table};
use wish_estimates::{Ground, Walk};
use wish_setups::{Met, WishFault, is_good_marked, price_in};

/// The most times that a table gets more that comes in or goes out, or a larger reserve of power.
const MENDS: u32 = 24;

/// What is tried over a ground: more rows in a table, and whether what the wish wants is wanted of it.
#[derive(Clone, Copy)]
pub struct Trial<'a> {
    pub ground: Ground<'a>,
    pub start: &'a Table,
    pub wants: bool,
}

/// How a table that was tried ended.
#[derive(Drop)]
pub enum TableEnd {
    Met(Met),
    /// There is no plan; imports of these goods may help.
    NoPlan(Items<(GoodId, Ratio)>),
    /// The solver meets its limits.
    Unsolved,
}

// The table of a walk's rows in an order.
fn tried_table(
    alloc: Global,
    trial: &Trial<'_>,
    walk: &Walk,
    order: &[usize],
    extra: &Extra,
) -> Result<Table, WishFault>
    requires game { IsSound trial.now.ground.game.now }
    requires start { IsSoundTable trial.now.start.now }
    ensures { IfOk result IsSoundTable }
{
    let mut table = trial.start.copy(alloc)?;
    add_walk(alloc, &trial.ground, walk, order, extra, &mut table)?;
    if trial.wants {
        add_wants(alloc, &trial.ground, walk, &extra.reserve, &mut table)?;
    }
    Ok(table)
}

// Whether the good with a price that shows that there is no plan can go out, where it can't yet.
fn may_go(table: &Table, good: GoodId, price: &Ratio) -> bool {
    price.is_neg() && price_in(table.surpluses.as_slice(), good).is_none()
}

// Whether the good with a price that shows that there is no plan can come in, where it can't yet.
fn may_come(trial: &Trial<'_>, walk: &Walk, table: &Table, good: GoodId, price: &Ratio) -> bool
    requires { IsSound trial.now.ground.game.now }
{
    price.is_positive()
        && price_in(table.imports.as_slice(), good).is_none()
        && !walk.is_wanted(good)
        && good.0 < trial.ground.game.electricity().0
        && trial.ground.estimates.is_known(good)
}

fn push_going(
    table: &Table,
    goods: &[GoodId],
    prices: &[Ratio],
    extra: &mut Extra,
) -> Result<bool, NoMemory> {
    let mut any = false;
    for (good, price) in goods.iter().zip(prices.iter()) {
        if may_go(table, *good, price) {
            extra.surpluses.push(*good)?;
            any = true;
        }
    }
    Ok(any)
}

fn push_coming(
    trial: &Trial<'_>,
    walk: &Walk,
    table: &Table,
    goods: &[GoodId],
    prices: &[Ratio],
    extra: &mut Extra,
) -> Result<bool, NoMemory>
    requires { IsSound trial.now.ground.game.now }
{
    let mut any = false;
    for (good, price) in goods.iter().zip(prices.iter()) {
        if may_come(trial, walk, table, *good, price) {
            extra.imports.push(*good)?;
            any = true;
        }
    }
    Ok(any)
}

// What the prices that show that there is no plan call for: goods that may go out, else goods that may come in. Answers whether there
// is any.
fn mend(
    trial: &Trial<'_>,
    walk: &Walk,
    table: &Table,
    linear: &Linear,
    prices: &[Ratio],
    extra: &mut Extra,
) -> Result<bool, NoMemory>
    requires { IsSound trial.now.ground.game.now }
{
    let goods = linear.goods.as_slice();
    if push_going(table, goods, prices, extra)? {
        return Ok(true);
    }
    push_coming(trial, walk, table, goods, prices, extra)
}

// The goods that prices speak of, with their estimates.
fn offered(
    alloc: Global,
    trial: &Trial<'_>,
    linear: &Linear,
    prices: &[Ratio],
) -> Result<Items<(GoodId, Ratio)>, NoMemory> {
    let mut offers = Vec::new(alloc);
    for (good, price) in linear.goods.as_slice().iter().zip(prices.iter()) {
        if price.is_positive() {
            offers.push((*good, trial.ground.estimates.price(*good)))?;
        }
    }
    Ok(Items::from_vec(offers))
}

// Whether a good is at the rim of a table.
fn is_rim(walk: &Walk, extra: &Extra, good: GoodId) -> bool {
    is_good_marked(walk.rim.as_slice(), good) || extra.imports.iter().any(|other| other.0 == good.0)
}

// The imports of a table that are at its rim.
fn rim_of(
    alloc: Global,
    trial: &Trial<'_>,
    walk: &Walk,
    extra: &Extra,
    table: &Table,
) -> Result<Items<(GoodId, Ratio)>, NoMemory> {
    let mut rim = Vec::new(alloc);
    for (good, price) in table.imports.as_slice() {
        let asked = price_in(trial.ground.wish.imports.as_slice(), *good).is_some();
        if is_rim(walk, extra, *good) && !asked {
            rim.push((*good, *price))?;
        }
    }
    Ok(Items::from_vec(rim))
}

// What meets the wish, where the reserve covers what whole machines draw. Else that is raised.
fn met_by(
    alloc: Global,
    trial: &Trial<'_>,
    walk: &Walk,
    table: Table,
    plan: &Plan,
    extra: &mut Extra,
) -> Result<Option<Met>, NoMemory>
    requires game { IsSound trial.now.ground.game.now }
    requires table { IsSoundTable table }
    ensures { IfOk result (λ found. IfSome found (λ met. IsSoundTable met.table)) }
{
    if !trial.start.power {
        let rim = rim_of(alloc, trial, walk, extra, &table)?;
        return Ok(Some(Met {
            table,
            rim,
            draw: None,
            reserve: Ratio::zero(),
        }));
    }
    let draw = draw_of(trial.ground.game, &table, plan.rates.as_slice());
    if trial.wants && is_above(&draw.beyond, &extra.reserve) {
        extra.reserve = draw.beyond.ceil();
        return Ok(None);
    }
    let rim = rim_of(alloc, trial, walk, extra, &table)?;
    Ok(Some(Met {
        table,
        rim,
        draw: Some(draw.whole.ceil()),
        reserve: extra.reserve,
    }))
}

// What comes of one table.
fn step(
    alloc: Global,
    trial: &Trial<'_>,
    walk: &Walk,
    order: &[usize],
    extra: &mut Extra,
) -> Result<Option<TableEnd>, WishFault>
    requires game { IsSound trial.now.ground.game.now }
    requires start { IsSoundTable trial.now.start.now }
    ensures { IfOk result (λ found. IfSome found HasSoundTable) }
{
    let table = tried_table(alloc, trial, walk, order, extra)?;
    let Some(Solved { linear, answer }) = solve_table(alloc, trial.ground.game, &table)? else {
        return Ok(Some(TableEnd::Unsolved));
    };
    match answer {
        SolveAnswer::Planned(plan) => match met_by(alloc, trial, walk, table, &plan, extra)? {
            Some(met) => Ok(Some(TableEnd::Met(met))),
            None => Ok(None),
        },
        SolveAnswer::Infeasible(prices) => {
            if mend(trial, walk, &table, &linear, prices.as_slice(), extra)? {
                return Ok(None);
            }
            let offers = offered(alloc, trial, &linear, prices.as_slice())?;
            Ok(Some(TableEnd::NoPlan(offers)))
        }
        _ => Ok(Some(TableEnd::Unsolved)),
    }
}

/// Tries a walk's rows in an order.
///
/// # Errors
///
/// `Full` where there is too much of something, or `NoMemory`.
pub fn try_order(
    alloc: Global,
    trial: &Trial<'_>,
    walk: &Walk,
    order: &[usize],
) -> Result<TableEnd, WishFault>
    requires game { IsSound trial.now.ground.game.now }
    requires start { IsSoundTable trial.now.start.now }
    ensures { IfOk result HasSoundTable }
{
    let mut extra = Extra::none(alloc);
    for _ in 0..MENDS {
        if let Some(outcome) = step(alloc, trial, walk, order, &mut extra)? {
            return Ok(outcome);
        }
    }
    Ok(TableEnd::Unsolved)
}
