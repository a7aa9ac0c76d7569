//! The plan of a table behind the last line of a script, as comma-separated values.
ghost use Rattle.game_types.specs.Sound.{IsSound};

use crate::fault::OutputFault;
use crate::lines::carry_out;
use crate::output::Output;
use crate::solving::{fault_of_answer, fault_of_code, solved};
use crate::tables::place_of;
use game_types::Game;
use linear_table::{Column, SolveAnswer};
use plan_base::{GoodId, Steps};
use plan_lines::{Figures, Reply};
use plan_records::{Solved, plan_text};
use planner_core::Planner;
use production_table::Table;
use program_runs::Work;
use std::alloc::Global;

// The text of a plan, where there is a table of its name.
fn text_among(
    alloc: Global,
    game: &Game,
    tables: &[Table],
    name: &str,
    solved: &Solved<'_>,
) -> Result<Vec<u8>, OutputFault>
    requires { IsSound game.now }
{
    match place_of(tables, name) {
        Some(place) => Ok(plan_text(alloc, game, &tables[place], solved)?),
        None => Err(OutputFault::NoTable),
    }
}

// The text of an answer that is a plan.
fn text_of_answer(
    alloc: Global,
    planner: &Planner,
    name: &str,
    goods: &[GoodId],
    columns: &[Column],
    rows: &[Figures],
    total: &Figures,
    answer: &SolveAnswer,
) -> Result<Vec<u8>, OutputFault> {
    match answer {
        SolveAnswer::Planned(plan) => text_among(
            alloc,
            planner.game(),
            planner.tables(),
            name,
            &Solved {
                goods,
                columns,
                rows,
                total,
                plan,
            },
        ),
        _ => Err(fault_of_answer(answer)),
    }
}

// The text of a reply that is a plan.
fn text_of(alloc: Global, planner: &Planner, reply: &Reply) -> Result<Vec<u8>, OutputFault> {
    match reply {
        Reply::Solved {
            table,
            labels: _,
            goods,
            columns,
            rows,
            total,
            answer,
        } => text_of_answer(
            alloc,
            planner,
            table.as_str(),
            goods.as_slice(),
            columns.as_slice(),
            rows.as_slice(),
            total,
            answer,
        ),
        Reply::Refused { code, .. } => Err(fault_of_code(*code)),
        _ => Err(OutputFault::Unsolved),
    }
}

// The plan of a table behind the last line of a script.
fn plan_behind<L>(
    alloc: Global,
    planner: &mut Planner,
    script: &[u8],
    name: &str,
    steps: &mut Steps<L>,
) -> Result<Vec<u8>, OutputFault> {
    let _refused = carry_out(alloc, planner, script, steps)?;
    let reply = solved(alloc, planner, name, steps)?;
    text_of(alloc, planner, &reply)
}

/// The plan of the table of this name behind a script.
#[derive(Drop)]
pub struct TablePlan<'a> {
    pub table: &'a str,
}

impl<R> Work<R> for TablePlan<'_> {
    type Made = Result<Output, OutputFault>;

    fn make<L>(
        &self,
        _rt: &R,
        alloc: Global,
        planner: &mut Planner,
        script: Vec<u8>,
        steps: &mut Steps<L>,
    ) -> Result<Output, OutputFault> {
        let text = plan_behind(alloc, planner, script.as_slice(), self.table, steps)?;
        Ok(Output {
            text,
            refused: false,
        })
    }
}
