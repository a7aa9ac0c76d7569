//! The answer to a wish.
use crate::words::push_words;
use catalog_text::{ShownFields, hidden_recipes, shown_of};
use clap::ArgMatches;
use fractions::Ratio;
use plan_base::{Kind, NoMemory, Text};
use plan_lines::RefusalCode;
use planner_core::Planner;
use session_lines::{Wished, Wishes};
use std::alloc::Global;
use wish_answers::{Failure, Found, Given, found_lines};
use wish_words::{WishRequest, WordFault, question, read_asked};

// What is said of words that ask for nothing.
fn said_of(alloc: Global, fault: WordFault<'_>) -> Result<Wished, NoMemory> {
    let mut said = String::new(alloc);
    fault.say(&mut said)?;
    Ok(Wished::Unmet(said))
}

// Items a second of the belt that the words name, where they name one.
fn belt_of(shown: &ShownFields, asked: &WishRequest<'_>) -> Option<Ratio> {
    let name = asked.belt?.strip_prefix("item:")?;
    shown_of(shown, Kind::Item, name)?.belt
}

fn lines_of(found: Found) -> String {
    let Found {
        text,
        wish: _,
        met: _,
    } = found;
    text
}

// The lines for a wish in a state that reaches these nodes.
fn wished_in(
    alloc: Global,
    planner: &Planner,
    reached: &[bool],
    asked: &WishRequest<'_>,
    given: &Given<'_>,
) -> Result<Wished, NoMemory> {
    let mut said = String::new(alloc);
    match found_lines(
        alloc,
        planner.game(),
        reached,
        planner.tables(),
        asked,
        given,
        "?wish",
        &mut said,
    ) {
        Ok(found) => Ok(Wished::Lines(lines_of(found))),
        Err(Failure::NoMemory) => Err(NoMemory),
        Err(_) => Ok(Wished::Unmet(said)),
    }
}

// The lines for a wish by what is shown of a dump.
fn wished_by(
    alloc: Global,
    planner: &Planner,
    reached: &[bool],
    asked: &WishRequest<'_>,
    shown: &ShownFields,
) -> Result<Wished, NoMemory> {
    let hidden = hidden_recipes(alloc, planner.game(), shown)?;
    let given = Given {
        belt: belt_of(shown, asked),
        hidden: hidden.as_slice(),
    };
    wished_in(alloc, planner, reached, asked, &given)
}

// The answer to what the words ask for.
fn wished(
    alloc: Global,
    planner: &Planner,
    shown: &ShownFields,
    asked: &WishRequest<'_>,
) -> Result<Wished, NoMemory> {
    match planner.reached()? {
        Some(reached) => wished_by(alloc, planner, reached.as_slice(), asked, shown),
        None => Ok(Wished::Refused(RefusalCode::H3)),
    }
}

fn matched(
    alloc: Global,
    planner: &Planner,
    shown: &ShownFields,
    matches: &ArgMatches<'_>,
) -> Result<Wished, NoMemory> {
    match read_asked(alloc, matches) {
        Ok(asked) => wished(alloc, planner, shown, &asked),
        Err(fault) => said_of(alloc, fault),
    }
}

fn answer_words(
    alloc: Global,
    planner: &Planner,
    shown: &ShownFields,
    words: &[Text],
) -> Result<Wished, NoMemory> {
    let command = question(alloc)?;
    match command.try_get_matches_from(words) {
        Ok(matches) => matched(alloc, planner, shown, &matches),
        Err(error) => Ok(Wished::Unmet(format!(in alloc; "{error}")?)),
    }
}

// The answer to the words behind the first of a question.
fn answer_line(
    alloc: Global,
    planner: &Planner,
    shown: &ShownFields,
    line: &[u8],
) -> Result<Wished, NoMemory> {
    let mut words = Vec::new(alloc);
    words.push(Text::copy(alloc, "?wish")?)?;
    if push_words(alloc, &mut words, line)? {
        answer_words(alloc, planner, shown, words.as_slice())
    } else {
        Ok(Wished::Refused(RefusalCode::Q4))
    }
}

/// Wishes for tables: their words are those of the command `table` without a dump and a script.
#[derive(Drop)]
pub struct TableWishes {}

impl Wishes for TableWishes {
    fn answer_wish(
        &self,
        alloc: Global,
        planner: &Planner,
        shown: &ShownFields,
        words: &[u8],
    ) -> Result<Wished, NoMemory> {
        answer_line(alloc, planner, shown, words)
    }
}
