//! The program: it reads a dump and a script, and answers each line of the script, or writes what else its words ask for. What went wrong is said on
//! standard error.
#![tactic(auto)]

mod hints;
mod lines;
mod room;
mod running;
mod telling;
mod words;

use crate::running::run_end;
use crate::words::program;
use clap::{ArgMatches, Command, Error};
use plan_base::{NoMemory, Text};
use plan_io::HostSink;
use program_runs::{End, end_by_words, ended, program_words};
use run_inputs::{Status, tell};
use std::alloc::Global;
use std::io::{Input, IsTerminal};
use std::process::ExitCode;
use std::rt::{Env, Files};
use std::time::Clock;

fn is_run(command: &str) -> bool {
    matches!(command, "run" | "prove" | "check" | "sample")
}

// Whether a run is to tell what is wrong with words: those of its commands, and those of which one is no UTF-8, so that there are none.
fn are_of_run(words: &[Text]) -> bool {
    match words {
        [] => true,
        [_, command, ..] => is_run(command.as_str()),
        _ => false,
    }
}

// The end of a command that the launcher carries out.
fn launched(alloc: Global, command: &str) -> End {
    match format!(in alloc; "{command} is started by the launcher") {
        Ok(said) => End::saying(alloc, said.as_str(), 2),
        Err(_) => End::by(alloc, &Status::NoMemory),
    }
}

// The end of a command that is no run.
fn output_end<R: Files + Print + Input>(
    rt: &R,
    alloc: Global,
    command: &str,
    matches: &ArgMatches<'_>,
) -> End {
    match command {
        "table" => wish_output::run_matched(rt, alloc, matches),
        "session" => session_output::run_matched(rt, alloc, matches),
        _ => match script_outputs::run_matched(rt, alloc, command, matches) {
            Some(end) => end,
            None => launched(alloc, command),
        },
    }
}

// The end of the command that matched words ask for.
fn matched_end<R: Files + Print + Eprint + Input + Clock>(
    rt: &R,
    alloc: Global,
    words: &[Text],
    matches: &ArgMatches<'_>,
    is_shown: bool,
) -> End {
    match matches.subcommand() {
        Some((command, matches)) if !is_run(command) => output_end(rt, alloc, command, matches),
        _ => run_end(rt, alloc, words, is_shown),
    }
}

// The end by words that name no command: a run's line for wrong words is written, and it is said what is wrong with them.
fn unknown_end<R: Print + Eprint>(rt: &R, alloc: Global, error: &Error) -> End {
    match tell(alloc, Status::BadWords, &mut HostSink::make(rt)) {
        Status::BadWords => end_by_words(rt, alloc, error),
        status => End::by(alloc, &status),
    }
}

// The end by words that match no command, or ask for help or the version. What is wrong with those of a run, the run tells.
fn unmatched_end<R: Files + Print + Eprint + Clock>(
    rt: &R,
    alloc: Global,
    words: &[Text],
    error: &Error,
    names_command: bool,
    is_shown: bool,
) -> End {
    if error.use_stderr() && are_of_run(words) {
        run_end(rt, alloc, words, is_shown)
    } else if error.use_stderr() && !names_command {
        unknown_end(rt, alloc, error)
    } else {
        end_by_words(rt, alloc, error)
    }
}

// Whether the first word behind the program's name is that of a command.
fn names_command(program: &Command<'_>, words: &[Text]) -> bool {
    match words {
        [_, command, ..] => program.find_subcommand(command.as_str()).is_some(),
        _ => false,
    }
}

// The end of what the program's words ask for.
fn asked_end<R: Files + Env + Print + Eprint + Input + Clock + AllocGlobal>(
    rt: &R,
    alloc: Global,
    is_shown: bool,
) -> Result<End, NoMemory> {
    let words = program_words(rt, alloc)?;
    let program = program(alloc)?;
    let names_command = names_command(&program, words.as_slice());
    match program.try_get_matches_from(words.as_slice()) {
        Ok(matches) => Ok(matched_end(rt, alloc, words.as_slice(), &matches, is_shown)),
        Err(error) => Ok(unmatched_end(
            rt,
            alloc,
            words.as_slice(),
            &error,
            names_command,
            is_shown,
        )),
    }
}

fn main(rt: HostRuntime) -> ExitCode {
    let alloc = rt.alloc();
    // A terminal that has the report itself shows how far the run is.
    let is_shown = rt.stderr().is_terminal() && !rt.stdout().is_terminal();
    match asked_end(&rt, alloc, is_shown) {
        Ok(end) => ended(&rt, &end),
        Err(NoMemory) => ended(&rt, &End::by(alloc, &Status::NoMemory)),
    }
}
