//! The walk from what is wished, which passes what the table that stands has.
ghost use Rattle.game_types.specs.Sound.{IsSound};

use crate::trying::Trial;
use fractions::Ratio;
use plan_base::{GoodId, NoMemory};
use production_table::TableRow;
use std::alloc::Global;
use wish_estimates::{Ground, Walk, walk_further, walk_on};
use wish_setups::column_in;

// A good that the table that stands has isn't looked for.
fn mark_had(walk: &mut Walk, pairs: &[(GoodId, Ratio)]) {
    for (good, amount) in pairs {
        if !amount.is_neg() {
            walk.has(*good);
        }
    }
}

fn mark_row(
    alloc: Global,
    ground: &Ground<'_>,
    walk: &mut Walk,
    power: bool,
    row: &TableRow,
) -> Result<(), NoMemory>
    requires { IsSound ground.now.game.now }
{
    if let Some(column) = column_in(alloc, ground.game, power, &row.setup)? {
        mark_had(walk, column.as_slice());
    }
    Ok(())
}

// What the table that stands gives or brings isn't looked for.
fn mark_start(alloc: Global, trial: &Trial<'_>, walk: &mut Walk) -> Result<(), NoMemory>
    requires { IsSound trial.now.ground.game.now }
{
    mark_had(walk, trial.start.imports.as_slice());
    for row in trial.start.rows.as_slice() {
        mark_row(alloc, &trial.ground, walk, trial.start.power, row)?;
    }
    Ok(())
}

/// A walk of so many rows, with further ways or without.
pub fn walk_of(
    alloc: Global,
    trial: &Trial<'_>,
    most: usize,
    further: bool,
) -> Result<Walk, NoMemory>
    requires { IsSound trial.now.ground.game.now }
{
    let mut walk = Walk::new(alloc, &trial.ground, most)?;
    mark_start(alloc, trial, &mut walk)?;
    for (good, _) in trial.ground.wish.wants.as_slice() {
        walk.want(*good)?;
    }
    walk_on(alloc, &trial.ground, &mut walk)?;
    if further {
        walk_further(alloc, &trial.ground, &mut walk)?;
    }
    Ok(walk)
}
