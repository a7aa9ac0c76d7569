//! Samples: a dump of any size and a script for it, drawn from a number.
#![tactic(auto)]

mod draws;
mod recipes;
mod script;

ghost use Rattle.std.specs.Prelude.{◌≡◌, ◌<◌, ◌≤◌, IfOk};
ghost use Rattle.sample_maker.specs.Texts.{sample_dump, sample_script};

use crate::draws::Draws;
use plan_base::{NoMemory, Text};
use std::alloc::Global;

/// A dump and a script for it.
#[derive(Drop, Debug)]
pub struct Sample {
    /// The dump, a text of JSON with no white space.
    pub dump: Text,
    /// The script, each of its lines ended by a newline.
    pub script: Text,
}

/// The sample of a number and a size, which is how many items and pairs of recipes the dump has.
///
/// # Errors
///
/// `NoMemory` where memory could not be had.
pub fn make_sample(alloc: Global, number: u32, size: u32) -> Result<Sample, NoMemory>
    requires some { 0 < size }
    requires few { size ≤ 20000 }
    ensures dump { IfOk result (λ sample. sample.dump ≡ sample_dump number size) }
    ensures script { IfOk result (λ sample. sample.script ≡ sample_script number size) }
{
    let mut draws = Draws::from_number(number);
    let dump = recipes::dump_text(alloc, &mut draws, size)?;
    let script = script::script_text(alloc, &mut draws, size)?;
    Ok(Sample {
        dump: Text::from_string(dump),
        script: Text::from_string(script),
    })
}
