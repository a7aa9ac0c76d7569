//! Who hears of the lines of a run for this.
use crate::lines::tell_reply;
use crate::room::Telling;
use hint_causes::is_bare;
use plan_base::{NoMemory, Text};
use plan_io::Line;
use plan_lines::Reply;
use planner_core::Planner;
use program_runs::{dump_name, empty_hint, script_name};
use run_inputs::{PlainWords, plain_words};
use script_runner::Listener;
use std::alloc::Global;

// The names of the files of a run.
#[derive(Drop)]
struct Names {
    dump: Text,
    script: Text,
}

/// Hears of the lines of a run over files, and keeps what is to be said of them: a line for each of the first twenty that are refused or solve
/// a table without a plan, and how many more there are; or that the dump has no game.
#[derive(Drop)]
pub struct LineHints {
    alloc: Global,
    names: Option<Names>,
    telling: Telling,
    is_bare: bool,
    lacks_memory: bool,
}

// The names of the files, of words that ask for a run over files.
fn names_in(alloc: Global, words: &[Text]) -> Option<Names> {
    let PlainWords { words, .. } = plain_words(alloc, words).ok()?;
    match words.get(1)?.as_str() {
        "run" | "prove" | "check" => Some(Names {
            dump: Text::copy(alloc, dump_name(&words)?).ok()?,
            script: Text::copy(alloc, script_name(&words)?).ok()?,
        }),
        _ => None,
    }
}

impl LineHints {
    /// Hears of the lines of a run with these words. Of a run without files nothing is said.
    pub fn make(alloc: Global, words: &[Text]) -> LineHints {
        LineHints {
            alloc,
            names: names_in(alloc, words),
            telling: Telling::make(alloc),
            is_bare: false,
            lacks_memory: false,
        }
    }

    /// All that is to be said, or None where there is nothing to say, or memory could not be had.
    pub fn said(self) -> Option<Text> {
        let LineHints {
            alloc,
            names,
            telling,
            is_bare,
            lacks_memory,
        } = self;
        let names = names?;
        if lacks_memory {
            return None;
        }
        if is_bare {
            return empty_hint(alloc, Some(names.dump.as_str())).ok();
        }
        telling.end(alloc, Some(names.script.as_str())).ok()
    }
}

impl Listener for LineHints {
    fn begins(&mut self, planner: &Planner) {
        self.is_bare = is_bare(planner.game());
    }

    fn hears(&mut self, planner: &Planner, script: &[u8], line: Line<'_>, reply: &Reply) {
        let Some(names) = &self.names else {
            return;
        };
        if self.is_bare || self.lacks_memory {
            return;
        }
        let name = names.script.as_str();
        let telling = &mut self.telling;
        if let Err(NoMemory) = tell_reply(self.alloc, planner, name, script, line, reply, telling) {
            self.lacks_memory = true;
        }
    }
}
