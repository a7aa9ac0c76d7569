//! The replies to the lines of a script, as JSON Lines.
ghost use Rattle.std.specs.Prelude.{◌≡◌, IfOk, string_bytes};
ghost use Rattle.script_outputs.specs.Told.{IsToldAs, TellsLine};

use crate::fault::OutputFault;
use crate::lines::{LineWork, over_lines};
use crate::output::Output;
use plan_base::{NoMemory, Steps};
use plan_lines::Reply;
use planner_core::Planner;
use program_runs::Work;
use report_json::line_text;
use script_runner::{is_refusal, reading_of, reply_to};
use std::alloc::Global;
use std::io;
use std::io::Write;
use std::str::from_utf8;

// The text of the reply to a line. There is none where nothing is replied.
fn reply_text(
    alloc: Global,
    planner: &Planner,
    number: u32,
    line: &[u8],
    reply: &Reply,
) -> Result<String, NoMemory>
    ensures { IfOk result (λ text. IsToldAs planner.now number reply.now (string_bytes text)) }
{
    match reply {
        Reply::Nothing => Ok(String::new(alloc)),
        _ => line_text(alloc, planner.game(), number, from_utf8(line).ok(), reply),
    }
}

// Answers a line: the text of its reply, and whether it is a refusal.
fn answered<L>(
    alloc: Global,
    planner: &mut Planner,
    number: u32,
    line: &[u8],
    steps: &mut Steps<L>,
) -> Result<(String, bool), NoMemory>
    ensures { IfOk result (λ told. TellsLine number line.now planner.old planner.new (string_bytes told.0) told.1) }
{
    let reading = reading_of(alloc, line)?;
    let reply = reply_to(planner, number, reading, steps)?;
    let text = reply_text(alloc, planner, number, line, &reply)?;
    Ok((text, is_refusal(&reply)))
}

// Writes a text to standard output.
fn write_out<R: Print>(rt: &R, text: &str) -> Result<(), OutputFault> {
    let mut out = io::writer(rt);
    match out.write_all(text.as_bytes()) {
        Ok(()) => Ok(()),
        Err(_) => Err(OutputFault::Unwritten),
    }
}

// Each line is answered, and its reply written before the next.
#[derive(Drop)]
struct ReplyWriter<'a, R> {
    rt: &'a R,
}

impl<'a, R: Print> LineWork for ReplyWriter<'a, R> {
    fn take_line<L>(
        &mut self,
        alloc: Global,
        planner: &mut Planner,
        number: u32,
        line: &[u8],
        steps: &mut Steps<L>,
    ) -> Result<bool, OutputFault> {
        let (text, refused) = answered(alloc, planner, number, line, steps)?;
        write_out(self.rt, text.as_str())?;
        Ok(refused)
    }
}

/// The replies to a script, which are written while it is carried out.
#[derive(Drop)]
pub struct ReplyLines;

impl<R: Print> Work<R> for ReplyLines {
    type Made = Result<Output, OutputFault>;

    fn make<L>(
        &self,
        rt: &R,
        alloc: Global,
        planner: &mut Planner,
        script: Vec<u8>,
        steps: &mut Steps<L>,
    ) -> Result<Output, OutputFault> {
        let mut writer = ReplyWriter { rt };
        let refused = over_lines(alloc, planner, script.as_slice(), &mut writer, steps)?;
        Ok(Output {
            text: Vec::new(alloc),
            refused,
        })
    }
}
