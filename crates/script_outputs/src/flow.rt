//! The graph of a table's plan behind the last line of a script.
ghost use Rattle.game_types.specs.Sound.{IsSound};
ghost use Rattle.planner_tables.specs.Effects.{AreSoundTables, IsSoundOn};

use crate::fault::OutputFault;
use crate::lines::carry_out;
use crate::output::Output;
use crate::solving::{fault_of_answer, fault_of_code, solved};
use crate::tables::{linear_form, place_of};
use game_types::Game;
use linear_table::{Plan, SolveAnswer};
use plan_base::{NoMemory, Steps};
use plan_charts::{Shown, chart_of, dot_text};
use plan_lines::{Figures, Reply};
use planner_core::Planner;
use production_table::Table;
use program_runs::Work;
use std::alloc::Global;

// What is told of a table that was solved.
#[derive(Clone, Copy)]
struct SolvedTable<'a> {
    name: &'a str,
    rows: &'a [Figures],
    total: &'a Figures,
}

// The graph of a plan.
fn graph_of_plan(alloc: Global, name: &str, shown: &Shown<'_>) -> Result<String, NoMemory>
    requires { IsSound shown.now.game.now }
{
    let chart = chart_of(alloc, shown)?;
    dot_text(alloc, name, &chart)
}

// The graph of a plan of a table, which has a linear form.
fn graph_of_table(
    alloc: Global,
    game: &Game,
    table: &Table,
    plan: &Plan,
    solved: &SolvedTable<'_>,
) -> Result<String, OutputFault>
    requires sound { IsSound game.now }
    requires table { IsSoundOn game.now table.now }
{
    match linear_form(alloc, game, table)? {
        Some(linear) => {
            let shown = Shown {
                game,
                table,
                linear: &linear,
                plan,
                rows: solved.rows,
                total: solved.total,
            };
            Ok(graph_of_plan(alloc, solved.name, &shown)?)
        }
        None => Err(OutputFault::Unsolved),
    }
}

// The graph of a plan, where there is a table of its name.
fn graph_among(
    alloc: Global,
    game: &Game,
    tables: &[Table],
    plan: &Plan,
    solved: &SolvedTable<'_>,
) -> Result<String, OutputFault>
    requires sound { IsSound game.now }
    requires tables { AreSoundTables game.now tables.now }
{
    match place_of(tables, solved.name) {
        Some(place) => graph_of_table(alloc, game, &tables[place], plan, solved),
        None => Err(OutputFault::NoTable),
    }
}

// The graph of a plan of a planner's table.
fn graph_in(
    alloc: Global,
    planner: &Planner,
    plan: &Plan,
    solved: &SolvedTable<'_>,
) -> Result<String, OutputFault> {
    let game = planner.game();
    let tables = planner.tables();
    graph_among(alloc, game, tables, plan, solved)
}

// The graph of an answer that is a plan.
fn graph_of_answer(
    alloc: Global,
    planner: &Planner,
    answer: &SolveAnswer,
    solved: &SolvedTable<'_>,
) -> Result<String, OutputFault> {
    match answer {
        SolveAnswer::Planned(plan) => graph_in(alloc, planner, plan, solved),
        _ => Err(fault_of_answer(answer)),
    }
}

// The graph of a reply that is a plan.
fn graph_of(alloc: Global, planner: &Planner, reply: &Reply) -> Result<String, OutputFault> {
    match reply {
        Reply::Solved {
            table,
            rows,
            total,
            answer,
            ..
        } => graph_of_answer(
            alloc,
            planner,
            answer,
            &SolvedTable {
                name: table.as_str(),
                rows: rows.as_slice(),
                total,
            },
        ),
        Reply::Refused { code, .. } => Err(fault_of_code(*code)),
        _ => Err(OutputFault::Unsolved),
    }
}

// The graph of the plan of a table behind the last line of a script.
fn flow_of<L>(
    alloc: Global,
    planner: &mut Planner,
    script: &[u8],
    name: &str,
    steps: &mut Steps<L>,
) -> Result<String, OutputFault> {
    let _refused = carry_out(alloc, planner, script, steps)?;
    let reply = solved(alloc, planner, name, steps)?;
    graph_of(alloc, planner, &reply)
}

/// The graph of the plan of the table of this name behind a script.
#[derive(Drop)]
pub struct TableGraph<'a> {
    pub table: &'a str,
}

impl<R> Work<R> for TableGraph<'_> {
    type Made = Result<Output, OutputFault>;

    fn make<L>(
        &self,
        _rt: &R,
        alloc: Global,
        planner: &mut Planner,
        script: Vec<u8>,
        steps: &mut Steps<L>,
    ) -> Result<Output, OutputFault> {
        let text = flow_of(alloc, planner, script.as_slice(), self.table, steps)?.into_bytes();
        Ok(Output {
            text,
            refused: false,
        })
    }
}
