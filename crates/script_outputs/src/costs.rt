//! What a unit of each reached good takes behind the last line of a script, as an estimate.
ghost use Rattle.game_types.specs.Sound.{IsSound};

use crate::estimates::costs_of;
use crate::fault::OutputFault;
use crate::lines::carry_out;
use crate::output::Output;
use crate::texts::{csv_text, json_text};
use game_types::Game;
use plan_base::{NoMemory, Steps};
use planner_core::Planner;
use program_runs::Work;
use std::alloc::Global;

/// How costs are written.
#[derive(Clone, Copy)]
pub enum Form {
    Csv,
    Json,
}

fn text_for(alloc: Global, game: &Game, reached: &[bool], form: Form) -> Result<Vec<u8>, NoMemory>
    requires { IsSound game.now }
{
    let costs = costs_of(alloc, game, reached)?;
    match form {
        Form::Csv => csv_text(alloc, game, costs.as_slice()),
        Form::Json => json_text(alloc, game, costs.as_slice()),
    }
}

// The costs in the state of a planner in which no batch is open.
fn text_in(alloc: Global, planner: &Planner, form: Form) -> Result<Vec<u8>, NoMemory> {
    match planner.reached()? {
        Some(reached) => text_for(alloc, planner.game(), reached.as_slice(), form),
        None => Ok(Vec::new(alloc)),
    }
}

// The costs behind a script.
fn output_behind<L>(
    alloc: Global,
    planner: &mut Planner,
    script: &[u8],
    form: Form,
    steps: &mut Steps<L>,
) -> Result<Output, OutputFault> {
    let refused = carry_out(alloc, planner, script, steps)?;
    let text = text_in(alloc, planner, form)?;
    Ok(Output { text, refused })
}

/// The costs behind a script.
#[derive(Drop)]
pub struct CostText {
    pub form: Form,
}

impl<R> Work<R> for CostText {
    type Made = Result<Output, OutputFault>;

    fn make<L>(
        &self,
        _rt: &R,
        alloc: Global,
        planner: &mut Planner,
        script: Vec<u8>,
        steps: &mut Steps<L>,
    ) -> Result<Output, OutputFault> {
        output_behind(alloc, planner, script.as_slice(), self.form, steps)
    }
}
