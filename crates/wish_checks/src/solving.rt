//! What the solver says of a table.
ghost use Rattle.std.specs.Prelude.{◌≡◌, All, IfOk};
ghost use Rattle.std.specs.Bool.{OnFalse, OnTrue};
ghost use Rattle.wish_checks.specs.Answers.{HasPlan, IsSolvable, are_fitting};
ghost use Rattle.wish_setups.specs.Fitting.{fits};
ghost use Rattle.linear_table.specs.Plans.{IsWellFormed};
ghost use Rattle.game_types.specs.Sound.{IsSound};
ghost use Rattle.production_table.specs.Tables.{IsSoundTable};
ghost use Rattle.table_rows.specs.Setups.{IsFitting};

use game_types::Game;
use linear_table::{Linear, SolveAnswer};
use pivot_solver::solve;
use plan_base::{Denied, NoMemory};
use production_table::{Table, TableRow};
use std::alloc::Global;
use wish_setups::is_fitting;

/// The most exchanges of columns, as many as a script's `solve` makes where it names no number.
pub const BUDGET: u32 = 20_000;

// Whether a row can stand in a table.
fn is_row_fitting(game: &Game, row: &TableRow) -> bool
    requires { IsSound game.now }
    ensures { result ≡ fits game.now row.now.setup }
{
    is_fitting(game, &row.setup)
}

fn all_fit(game: &Game, rows: &[TableRow]) -> bool
    requires { IsSound game.now }
    ensures { result ≡ are_fitting game.now rows.now }
{
    rows.iter().all(|row| is_row_fitting(game, row))
}

/// Whether each row can stand in a table.
pub fn are_fitting(game: &Game, rows: &[TableRow]) -> bool
    requires { IsSound game.now }
    ensures same { result ≡ are_fitting game.now rows.now }
    ensures fitting { OnTrue result (All (λ row. IsFitting game.now row.setup) rows.now) }
{
    all_fit(game, rows)
}

/// The linear form of a table, and what the solver says of it.
#[derive(Drop)]
pub struct Solved {
    pub linear: Linear,
    pub answer: SolveAnswer,
}

/// What the solver says of a table. None where it has no linear form.
///
/// # Errors
///
/// `NoMemory` where memory could not be had.
pub fn solve_table(alloc: Global, game: &Game, table: &Table) -> Result<Option<Solved>, NoMemory>
    requires sound { IsSound game.now }
    requires table { IsSoundTable table.now }
{
    if !are_fitting(game, table.rows.as_slice()) {
        return Ok(None);
    }
    let linear = match table.to_linear(alloc, game) {
        Ok(linear) => linear,
        Err(Denied::Refused(_)) => return Ok(None),
        Err(Denied::NoMemory) => return Err(NoMemory),
    };
    let answer = solve(alloc, &linear, BUDGET)?;
    Ok(Some(Solved { linear, answer }))
}

// Whether the solver answers a plan of a linear form.
#[tactic(auto, using(crate::proofs::SolverLemmas::planned, crate::proofs::SolverLemmas::infeasible, crate::proofs::SolverLemmas::too_wide, crate::proofs::SolverLemmas::out_of_budget))]
fn has_plan(alloc: Global, linear: &Linear) -> Result<bool, NoMemory>
    requires { IsWellFormed linear.now }
    ensures yes { IfOk result (λ yes. OnTrue yes (HasPlan linear.now)) }
    ensures not { IfOk result (λ yes. OnFalse yes (¬ HasPlan linear.now)) }
{
    match solve(alloc, linear, BUDGET)? {
        SolveAnswer::Planned(_) => Ok(true),
        SolveAnswer::Infeasible(_) => Ok(false),
        SolveAnswer::TooWide { .. } => Ok(false),
        SolveAnswer::OutOfBudget { .. } => Ok(false),
    }
}

/// Whether a table has a plan that the solver answers.
///
/// # Errors
///
/// `NoMemory` where memory could not be had.
#[tactic(auto, using(crate::proofs::SolverLemmas::solvable, crate::proofs::SolverLemmas::unsolvable, crate::proofs::SolverLemmas::formless))]
pub fn is_solvable(alloc: Global, game: &Game, table: &Table) -> Result<bool, NoMemory>
    requires sound { IsSound game.now }
    requires table { IsSoundTable table.now }
    requires rows { All (λ row. IsFitting game.now row.setup) table.now.rows }
    ensures yes { IfOk result (λ yes. OnTrue yes (IsSolvable game.now table.now)) }
    ensures not { IfOk result (λ yes. OnFalse yes (¬ IsSolvable game.now table.now)) }
{
    match table.to_linear(alloc, game) {
        Ok(linear) => has_plan(alloc, &linear),
        Err(Denied::Refused(_)) => Ok(false),
        Err(Denied::NoMemory) => Err(NoMemory),
    }
}
