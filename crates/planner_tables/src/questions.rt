//! What the solver says of tables.
ghost use Rattle.std.specs.Prelude.{◌≡◌, map, IfOk, Ok};
ghost use Rattle.plan_base.specs.Outcomes.{Gives, seen_as};
ghost use Rattle.game_types.specs.Sound.{IsSound};
ghost use Rattle.linear_table.specs.Plans.{IsWellFormed};
ghost use Rattle.production_table.specs.Linear.{HasFigures};
ghost use Rattle.production_table.specs.Tables.{labels_of};
ghost use Rattle.planner_tables.specs.Effects.{AreSoundTables, IsSoundOn};
ghost use Rattle.planner_tables.specs.Figures.{answer_figures};
ghost use Rattle.planner_tables.specs.Questions.{column_names, IsSolvedWhere, IsSolvedWith, IsSolveReply, linear_named, linear_outcome, solved_with};

use crate::changes::table_named;
use crate::faults::row_fault;
use crate::figures::{answer_figures, summed};
use crate::{TableRefusal, refused};
use fractions::Ratio;
use game_types::{Effects, Game, Rates};
use linear_table::{Column, Linear, LinearColumn, SolveAnswer};
use pivot_solver::solve;
use plan_base::{Denied, Items, NoMemory, Text};
use plan_lines::{Figures, Reply};
use production_table::{LinearAndFigures, Table, TableRow};
use std::alloc::Global;

// The labels of some rows.
#[tactic(auto, using(crate::proofs::QuestionLemmas::labels_next, crate::proofs::QuestionLemmas::labels_end))]
fn labels_of(alloc: Global, rows: &[TableRow]) -> Result<Items<Text>, NoMemory>
    ensures { IfOk result (λ labels. labels ≡ labels_of rows.now) }
{
    let mut labels = Vec::new(alloc);
    for row in rows {
        let label = Text::copy(alloc, row.label.as_str())?;
        labels.push(label)?;
    }
    Ok(Items::from_vec(labels))
}

// The names of some columns.
#[tactic(auto, using(crate::proofs::QuestionLemmas::names_next, crate::proofs::QuestionLemmas::names_end))]
fn column_names(alloc: Global, columns: &[LinearColumn]) -> Result<Items<Column>, NoMemory>
    ensures { IfOk result (λ names. names ≡ column_names columns.now) }
{
    let mut names = Vec::new(alloc);
    for column in columns {
        names.push(column.column)?;
    }
    Ok(Items::from_vec(names))
}

// What a reply tells of a table beside what the solver says.
struct Told {
    name: Text,
    labels: Items<Text>,
    columns: Items<Column>,
    rows: Items<Figures>,
}

// The names and the figures of a table that the solver answered.
fn told_of(
    alloc: Global,
    table: &Table,
    linear: &Linear,
    figures: &[(Effects, Rates, Ratio)],
    answer: &SolveAnswer,
) -> Result<Told, NoMemory>
    ensures names { IfOk result (λ told. (told.name ≡ table.now.name) × (told.labels ≡ labels_of table.now.rows) × (told.columns ≡ column_names linear.now.columns)) }
    ensures rows { IfOk result (λ told. told.rows ≡ answer_figures (map Ok figures.now) answer.now) }
{
    let name = Text::copy(alloc, table.name.as_str())?;
    let labels = labels_of(alloc, table.rows.as_slice())?;
    let columns = column_names(alloc, linear.columns.as_slice())?;
    let rows = answer_figures(alloc, figures, answer)?;
    Ok(Told {
        name,
        labels,
        columns,
        rows,
    })
}

// The reply that tells what the solver says of a table.
fn solved(
    alloc: Global,
    table: &Table,
    linear: Linear,
    figures: &[(Effects, Rates, Ratio)],
    answer: SolveAnswer,
) -> Result<Reply, NoMemory>
    ensures { IfOk result (λ reply. reply ≡ solved_with table.now linear (map Ok figures.now) answer) }
{
    let Told {
        name,
        labels,
        columns,
        rows,
    } = told_of(alloc, table, &linear, figures, &answer)?;
    Ok(Reply::Solved {
        table: name,
        labels,
        goods: linear.goods,
        columns,
        total: summed(rows.as_slice()),
        rows,
        answer,
    })
}

// What the solver says of a table's linear form, with the figures of its rows.
fn solved_within(
    alloc: Global,
    table: &Table,
    linear: Linear,
    figures: &[(Effects, Rates, Ratio)],
    budget: u32,
) -> Result<Reply, NoMemory>
    requires formed { IsWellFormed linear }
    ensures { IfOk result (IsSolvedWith table.now linear (map Ok figures.now) budget) }
{
    let answer = solve(alloc, &linear, budget)?;
    let reply = solved(alloc, table, linear, figures, answer)?;
    Ok(reply)
}

// The linear form of a table, or why it has none.
fn linear_of(alloc: Global, game: &Game, table: &Table) -> Result<Linear, Denied<TableRefusal>>
    requires sound { IsSound game.now }
    requires table { IsSoundOn game.now table.now }
    ensures linear { Gives (linear_outcome game.now table.now) result }
    ensures formed { IfOk result IsWellFormed }
{
    match table.to_linear(alloc, game) {
        Ok(linear) => Ok(linear),
        Err(fault) => Err(row_fault(alloc, &table.name, fault)),
    }
}

/// The linear form of the table of a name, or why it has none.
///
/// # Errors
///
/// The first refusal, or `NoMemory` where memory could not be had.
pub fn linear_named(
    alloc: Global,
    game: &Game,
    tables: &[Table],
    table: &Text,
) -> Result<Linear, Denied<TableRefusal>>
    requires sound { IsSound game.now }
    requires tables { AreSoundTables game.now tables.now }
    ensures linear { Gives (linear_named game.now tables.now table.now) result }
    ensures formed { IfOk result IsWellFormed }
{
    let place = table_named(alloc, tables, table)?;
    linear_of(alloc, game, &tables[place])
}

// The linear form of a table with the figures of its rows, or why it has none.
fn linear_with_figures(
    alloc: Global,
    game: &Game,
    table: &Table,
) -> Result<LinearAndFigures, Denied<TableRefusal>>
    requires sound { IsSound game.now }
    requires table { IsSoundOn game.now table.now }
    ensures linear { Gives (linear_outcome game.now table.now) (seen_as (λ made. made.linear) result) }
    ensures formed { IfOk result (λ made. IsWellFormed made.linear) }
    ensures figures { IfOk result (λ made. HasFigures game.now table.now.rows made.figures) }
{
    match table.to_linear_with_figures(alloc, game) {
        Ok(made) => Ok(made),
        Err(fault) => Err(row_fault(alloc, &table.name, fault)),
    }
}

// What the solver says of a table, or why it is not asked.
fn solve_table(alloc: Global, game: &Game, table: &Table, budget: u32) -> Result<Reply, NoMemory>
    requires sound { IsSound game.now }
    requires table { IsSoundOn game.now table.now }
    ensures { IfOk result (IsSolvedWhere game.now table.now budget (linear_outcome game.now table.now)) }
{
    match linear_with_figures(alloc, game, table) {
        Ok(LinearAndFigures { linear, figures }) => {
            let reply = solved_within(alloc, table, linear, figures.as_slice(), budget)?;
            Ok(reply)
        }
        Err(Denied::Refused(refusal)) => Ok(refused(game, refusal, None)),
        Err(Denied::NoMemory) => Err(NoMemory),
    }
}

/// What the solver says of a table, with at most `budget` exchanges, or why it is not asked.
///
/// # Errors
///
/// `NoMemory` where memory could not be had.
#[tactic(auto, using(crate::proofs::QuestionLemmas::solve_refused, crate::proofs::QuestionLemmas::solve_asked))]
pub fn solve_reply(
    alloc: Global,
    game: &Game,
    tables: &[Table],
    table: &Text,
    budget: u32,
) -> Result<Reply, NoMemory>
    requires sound { IsSound game.now }
    requires tables { AreSoundTables game.now tables.now }
    ensures { IfOk result (IsSolveReply game.now tables.now table.now budget) }
{
    match table_named(alloc, tables, table) {
        Ok(place) => {
            let reply = solve_table(alloc, game, &tables[place], budget)?;
            Ok(reply)
        }
        Err(Denied::Refused(refusal)) => Ok(refused(game, refusal, None)),
        Err(Denied::NoMemory) => Err(NoMemory),
    }
}
