//! What a line says as it is shown: its command, or its fault.
use crate::shown_changes::copied;
use crate::shown_words::{alone, begin, begin_text, begin_word, kind, labelled};
use plan_base::{NoMemory, Text};
use plan_lines::Command;
use script_reader::ScriptFault;
use std::alloc::Global;

fn solve(out: &mut String, alloc: Global, table: &Text, budget: u32) -> Result<(), NoMemory> {
    begin_text(out, "solve", table)?;
    out.push_str("|")?;
    let text = format!(in alloc; "{budget}")?;
    Ok(out.push_str(text.as_str())?)
}

fn command(out: &mut String, alloc: Global, command: &Command) -> Result<(), NoMemory> {
    match command {
        Command::Reach(node) => begin(out, "reach", node),
        Command::Why(node) => begin(out, "why", node),
        Command::Missing(node) => begin(out, "missing", node),
        Command::Mask(node) => begin(out, "mask", node),
        Command::List(listed) => begin_word(out, "list", kind(*listed)),
        Command::Milestones => alone(out, "milestones"),
        Command::Summary => alone(out, "summary"),
        Command::Rate { table, label } => labelled(out, "rate", table, label),
        Command::Solve { table, budget } => solve(out, alloc, table, *budget),
        Command::Quiet(on) => begin_word(out, "quiet", if *on { "on" } else { "off" }),
        Command::Undo => alone(out, "undo"),
        Command::Redo => alone(out, "redo"),
        Command::Batch => alone(out, "batch"),
        Command::End => alone(out, "end"),
        Command::Cancel => alone(out, "cancel"),
        Command::Change(edit) => copied(out, alloc, edit),
    }
}

fn fault(out: &mut String, fault: &ScriptFault) -> Result<(), NoMemory> {
    alone(
        out,
        match fault {
            ScriptFault::UnknownCommand => "Q1",
            ScriptFault::WrongWords => "Q2",
            ScriptFault::BadNumber => "Q3",
            ScriptFault::BadQuoting => "Q4",
            ScriptFault::BadObject => "Q5",
            ScriptFault::NoMemory => "no memory",
        },
    )
}

/// Shows what a line says.
pub fn shown(
    out: &mut String,
    alloc: Global,
    read: &Result<Option<Command>, ScriptFault>,
) -> Result<(), NoMemory> {
    match read {
        Ok(Some(read)) => command(out, alloc, read),
        Ok(None) => alone(out, "none"),
        Err(read) => fault(out, read),
    }
}
