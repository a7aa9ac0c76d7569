//! The run that prints the lines for a wish.
use crate::belts::belt_of;
use crate::comments::without_stale;
use crate::next::command_for;
use crate::saying::{end_by_failure, end_by_fault};
use catalog_text::hidden_recipes;
use clap::ArgMatches;
use fractions::Ratio;
use plan_base::{NoMemory, Steps};
use planner_core::Planner;
use program_runs::{
    End, Names, Work, asked_files, end_by, end_of_run, shown_in, with_loaded, written,
};
use run_inputs::{Long, SCRIPT_LIMIT, Status};
use std::alloc::Global;
use std::rt::Files;
use wish_answers::{Failure, Given, whole_script};
use wish_words::{WishRequest, read_asked};

// Why there are no lines, and what is said of it.
#[derive(Drop)]
struct Unmade {
    failure: Failure,
    said: String,
}

// The end for want of memory.
fn no_memory(alloc: Global) -> Unmade {
    Unmade {
        failure: Failure::NoMemory,
        said: String::new(alloc),
    }
}

// A script with the lines of a wish behind so many bytes. Where they give a table more rows, comments that no longer hold are left out.
fn with_true_comments(
    alloc: Global,
    script: Vec<u8>,
    before: usize,
    asked: &WishRequest<'_>,
) -> Result<Vec<u8>, Unmade> {
    let Some(more) = asked.more else {
        return Ok(script);
    };
    match without_stale(alloc, script.as_slice(), before, more.table) {
        Ok(script) => Ok(script),
        Err(NoMemory) => Err(no_memory(alloc)),
    }
}

// Marks for each recipe whether the dump hides it.
fn hidden_in<R: Files>(
    rt: &R,
    alloc: Global,
    planner: &Planner,
    dump: &str,
) -> Result<Vec<bool>, NoMemory> {
    let shown = shown_in(rt, alloc, dump)?;
    hidden_recipes(alloc, planner.game(), &shown)
}

// The script with the lines of the wish behind its own. The words of a command stand in the comments before those that ask for more rows.
fn script_for<L>(
    alloc: Global,
    planner: &mut Planner,
    mut script: Vec<u8>,
    asked: &WishRequest<'_>,
    given: &Given<'_>,
    command: &str,
    steps: &mut Steps<L>,
) -> Result<Vec<u8>, Unmade> {
    let before = script.len();
    let mut said = String::new(alloc);
    match whole_script(
        alloc,
        planner,
        &mut script,
        asked,
        given,
        command,
        &mut said,
        steps,
    ) {
        Ok(()) => with_true_comments(alloc, script, before, asked),
        Err(failure) => Err(Unmade { failure, said }),
    }
}

// The lines for a wish over a dump, with the items a second on the belt that its words name, and the words of a command for more rows.
#[derive(Drop)]
struct WishLines<'a, 'w> {
    dump: &'a str,
    command: &'a str,
    asked: &'a WishRequest<'w>,
    belt: Option<Ratio>,
}

impl<R: Files> Work<R> for WishLines<'_, '_> {
    type Made = Result<Vec<u8>, Unmade>;

    fn make<L>(
        &self,
        rt: &R,
        alloc: Global,
        planner: &mut Planner,
        script: Vec<u8>,
        steps: &mut Steps<L>,
    ) -> Result<Vec<u8>, Unmade> {
        let Ok(hidden) = hidden_in(rt, alloc, planner, self.dump) else {
            return Err(no_memory(alloc));
        };
        let given = Given {
            belt: self.belt,
            hidden: hidden.as_slice(),
        };
        script_for(
            alloc,
            planner,
            script,
            self.asked,
            &given,
            self.command,
            steps,
        )
    }
}

// Writes a script that was made.
fn written_script<R: Files + Print>(
    rt: &R,
    alloc: Global,
    made: Result<Vec<u8>, Unmade>,
    names: Names<'_>,
) -> End {
    match made {
        Ok(script) if script.len() > SCRIPT_LIMIT => {
            end_by(rt, alloc, &Status::TooLong(Long::ScriptBytes), names)
        }
        Ok(script) => written(rt, alloc, script.as_slice(), 0),
        Err(Unmade { failure, said }) => end_by_failure(rt, alloc, failure, said.as_str(), names),
    }
}

// The run that words ask for, with the items a second on the belt that they name.
fn wish_run<R: Files + Print>(
    rt: &R,
    alloc: Global,
    names: Names<'_>,
    asked: &WishRequest<'_>,
    belt: Option<Ratio>,
) -> End {
    let Ok(command) = command_for(alloc, names.dump) else {
        return End::by(alloc, &Status::NoMemory);
    };
    let work = WishLines {
        dump: names.dump,
        command: command.as_str(),
        asked,
        belt,
    };
    match with_loaded(rt, alloc, names, &work) {
        Ok(made) => written_script(rt, alloc, made, names),
        Err(end) => end_of_run(rt, alloc, end, names),
    }
}

fn asked_run<R: Files + Print>(
    rt: &R,
    alloc: Global,
    names: Names<'_>,
    asked: &WishRequest<'_>,
) -> End {
    match belt_of(rt, alloc, names.dump, asked.belt) {
        Ok(belt) => wish_run(rt, alloc, names, asked, belt),
        Err(end) => end,
    }
}

/// The run that the matched words of the command ask for.
pub fn run_matched<R: Files + Print>(rt: &R, alloc: Global, matches: &ArgMatches<'_>) -> End {
    match read_asked(alloc, matches) {
        Ok(asked) => asked_run(rt, alloc, asked_files(matches), &asked),
        Err(fault) => end_by_fault(alloc, fault),
    }
}
