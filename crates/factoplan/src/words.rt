//! The words of the program, as clap reads them.
use clap::{Arg, Command};
use command_words::{PROGRAM, command, dump_word, flag, option, with_files, word};
use program_runs::VERSION;
use script_outputs::with_outputs;
use session_output::session_command;
use std::alloc::{AllocError, Global};
use wish_output::table_command;

const NOTES: &str = "\
DUMP is the file data-raw-dump.json that factorio --dump-data writes (docs/GETTING-THE-DUMP.md).
SCRIPT has a command a line (docs/LANGUAGE.md). Either may be /dev/stdin. Answers go to standard
output; what went wrong is said in a line on standard error.

Exit status of all commands:
  0       all is answered
  1       some line is refused, or some table not proved
  2       wrong words, or no program to run
  3       the dump is refused
  4       reading failed
  5       writing failed
  6       no memory
  7       a file is too long
  others  factoplan help COMMAND";

const CHECK_NOTES: &str = "Exit status, beside those of all commands:
  1  some line was refused, or some table that is solved is not proved
  9  the certificate is no JSON, or the JSON is no certificate

more: docs/CERTIFICATES.md";

const WORKBENCH_NOTES: &str = "Exit status, beside those of all commands:
  4  the dump, the folder or a program can't be read

more: docs/WORKBENCH.md";

const CHECK_MOD_NOTES: &str = "Exit status, beside those of all commands:
  1  some thing is not reached
  3  factoplan could not answer: its own words stand above

more: docs/MODDERS.md";

fn run<'a>(alloc: Global) -> Result<Command<'a>, AllocError> {
    let command = command(
        alloc,
        "run",
        "Answers each line of the file SCRIPT about the game of the file DUMP",
        "more: docs/LANGUAGE.md",
    )?;
    with_files(alloc, command)
}

fn prove<'a>(alloc: Global) -> Result<Command<'a>, AllocError> {
    let command = command(
        alloc,
        "prove",
        "Writes the certificate of what is solved in the script",
        "more: docs/CERTIFICATES.md",
    )?;
    with_files(alloc, command)
}

fn check<'a>(alloc: Global) -> Result<Command<'a>, AllocError> {
    let command = command(
        alloc,
        "check",
        "Checks a certificate of the script, without a solver",
        CHECK_NOTES,
    )?;
    let cert = option(
        alloc,
        "cert",
        "FILE",
        "the certificate, which factoplan prove wrote",
    );
    with_files(alloc, command)?.arg(cert.required(true))
}

fn sample<'a>(alloc: Global) -> Result<Command<'a>, AllocError> {
    let command = command(
        alloc,
        "sample",
        "As run, of a game and a script that are made of the two numbers",
        "",
    )?;
    command
        .arg(word(alloc, "NUMBER", "which game and which script"))?
        .arg(word(alloc, "SIZE", "how large they are"))
}

fn workbench<'a>(alloc: Global) -> Result<Command<'a>, AllocError> {
    let command = command(
        alloc,
        "workbench",
        "Plans by clicking, in the browser",
        WORKBENCH_NOTES,
    )?;
    command
        .arg(dump_word(alloc))?
        .arg(Arg::new(alloc, "SCRIPTS").help(
            "a script, new or old, or a folder of them; factory.txt where left out",
        ))?
        .arg(option(
            alloc,
            "script-output",
            "DIR",
            "the game's folder script-output, with its pictures and names",
        ))?
        .arg(flag(alloc, "no-browser", "only prints the address"))?
        .arg(option(
            alloc,
            "port",
            "NUMBER",
            "a port of 127.0.0.1; a free one where none is named",
        ))?
        .arg(option(
            alloc,
            "seconds",
            "NUMBER",
            "the most for an answer of a program, 20 where none are named",
        ))
}

// What is judged of a game with a mod, and against what.
fn with_judging<'a>(alloc: Global, command: Command<'a>) -> Result<Command<'a>, AllocError> {
    command
        .arg(option(
            alloc,
            "allow",
            "FILE",
            "things that need not be reached, one a line",
        ))?
        .arg(option(
            alloc,
            "write-allow",
            "FILE",
            "writes those that are not reached",
        ))?
        .arg(option(alloc, "against", "OLD", "compares with another dump"))?
        .arg(flag(alloc, "junit", "the result as JUnit XML"))?
        .arg(flag(alloc, "json", "the result as JSON"))?
        .arg(option(
            alloc,
            "prelude",
            "FILE",
            "lines of a script that come first",
        ))
}

fn check_mod<'a>(alloc: Global) -> Result<Command<'a>, AllocError> {
    let command = command(
        alloc,
        "check-mod",
        "Says what can't be reached in a game with a mod, and what stands in the way",
        CHECK_MOD_NOTES,
    )?;
    with_judging(alloc, command.arg(dump_word(alloc))?)?
        .arg(option(alloc, "kinds", "KIND,KIND", "the kinds that are judged"))?
        .arg(flag(alloc, "hidden", "judges hidden things too"))?
        .arg(flag(
            alloc,
            "no-plain",
            "judges also what nobody reaches in the game without mods",
        ))?
        .arg(option(
            alloc,
            "script",
            "FILE",
            "writes the first script that is asked into FILE",
        ))?
        .arg(option(
            alloc,
            "program",
            "COMMAND",
            "asks COMMAND run DUMP SCRIPT in place of factoplan",
        ))
}

/// The program with all its commands. Those of a run serve its help alone, since the run itself reads its words, and so do those that the launcher
/// carries out.
///
/// # Errors
///
/// `AllocError` where memory could not be had.
pub fn program<'a>(alloc: Global) -> Result<Command<'a>, AllocError> {
    let command = command(
        alloc,
        PROGRAM,
        "A production planner for Factorio 1.1 with exact numbers",
        NOTES,
    )?;
    let command = command
        .bin_name(PROGRAM)?
        .version(VERSION)
        .propagate_version(true)
        .subcommand_required(true)
        .arg_required_else_help(true);
    let command = command
        .subcommand(run(alloc)?)?
        .subcommand(prove(alloc)?)?
        .subcommand(check(alloc)?)?
        .subcommand(sample(alloc)?)?
        .subcommand(table_command(alloc)?)?;
    with_outputs(alloc, command)?
        .subcommand(session_command(alloc)?)?
        .subcommand(workbench(alloc)?)?
        .subcommand(check_mod(alloc)?)
}
