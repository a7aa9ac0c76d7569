//! The game of a dump behind the last line of a script, as one object of JSON.

use crate::fault::OutputFault;
use crate::lines::carry_out;
use crate::output::Output;
use catalog_text::{ShownFields, catalog_text};
use plan_base::{NoMemory, Steps};
use planner_core::Planner;
use program_runs::{Work, shown_in};
use std::alloc::Global;
use std::rt::Files;

// The catalog in the state of a planner in which no batch is open.
fn text_in<L>(
    alloc: Global,
    planner: &mut Planner,
    shown: &ShownFields,
    steps: &mut Steps<L>,
) -> Result<String, NoMemory> {
    match catalog_text(alloc, planner, shown, steps)? {
        Some(text) => Ok(text),
        None => Ok(String::new(alloc)),
    }
}

// The catalog behind a script.
fn output_behind<L>(
    alloc: Global,
    planner: &mut Planner,
    script: &[u8],
    shown: &ShownFields,
    steps: &mut Steps<L>,
) -> Result<Output, OutputFault> {
    let refused = carry_out(alloc, planner, script, steps)?;
    let text = text_in(alloc, planner, shown, steps)?.into_bytes();
    Ok(Output { text, refused })
}

/// The catalog of the game of a dump behind a script.
#[derive(Drop)]
pub struct CatalogText<'a> {
    pub dump: &'a str,
}

impl<R: Files> Work<R> for CatalogText<'_> {
    type Made = Result<Output, OutputFault>;

    fn make<L>(
        &self,
        rt: &R,
        alloc: Global,
        planner: &mut Planner,
        script: Vec<u8>,
        steps: &mut Steps<L>,
    ) -> Result<Output, OutputFault> {
        let shown = shown_in(rt, alloc, self.dump)?;
        output_behind(alloc, planner, script.as_slice(), &shown, steps)
    }
}
