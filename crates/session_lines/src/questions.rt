//! Questions, and their answers.
ghost use Rattle.std.specs.Prelude.{◌≡◌};

use crate::answers::{Done, push_refusal, push_reply, push_text};
use crate::flows::push_flow_answer;
use crate::forced::Forced;
use crate::limits::push_limits;
use crate::prices::push_why_not;
use crate::question_words::{Question, asked_by, front_word, read_as, unread, unwanted};
use crate::state::push_state;
use crate::wishes::{Wished, Wishes};
use catalog_text::{ShownFields, catalog_text};
use plan_base::{NoMemory, Steps, Text};
use plan_lines::{Command, RefusalCode, Reply};
use planner_core::{Planner, ask_rate, ask_solve};
use script_runner::reading_of;
use std::alloc::Global;

// The reply to the `solve` that a question stands for.
fn solved<L>(
    alloc: Global,
    planner: &mut Planner,
    words: &[u8],
    steps: &mut Steps<L>,
) -> Result<Reply, NoMemory>
    ensures stays { planner.new ≡ planner.old }
{
    match read_as(alloc, b"solve", words)? {
        Ok(Some(Command::Solve { table, budget })) => ask_solve(planner, table, budget, steps),
        other => Ok(unread(other)),
    }
}

// The reply to the `rate` that a question stands for.
fn rated<L>(
    alloc: Global,
    planner: &mut Planner,
    words: &[u8],
    steps: &mut Steps<L>,
) -> Result<Reply, NoMemory>
    ensures stays { planner.new ≡ planner.old }
{
    match read_as(alloc, b"rate", words)? {
        Ok(Some(Command::Rate { table, label })) => ask_rate(planner, table, label, steps),
        other => Ok(unread(other)),
    }
}

fn push_flow<L>(
    alloc: Global,
    out: &mut String,
    planner: &mut Planner,
    words: &[u8],
    steps: &mut Steps<L>,
) -> Done
    ensures stays { planner.new ≡ planner.old }
{
    let reply = solved(alloc, planner, words, steps)?;
    push_flow_answer(alloc, out, planner, &reply)
}

fn push_reason<L>(
    alloc: Global,
    out: &mut String,
    planner: &mut Planner,
    words: &[u8],
    steps: &mut Steps<L>,
) -> Done
    ensures stays { planner.new ≡ planner.old }
{
    let reply = solved(alloc, planner, words, steps)?;
    push_why_not(alloc, out, planner.game(), &reply)
}

fn push_rate<L>(
    alloc: Global,
    out: &mut String,
    planner: &mut Planner,
    words: &[u8],
    steps: &mut Steps<L>,
) -> Done
    ensures stays { planner.new ≡ planner.old }
{
    let reply = rated(alloc, planner, words, steps)?;
    push_limits(alloc, out, planner.game(), &reply)
}

// The catalog, which no words ask for and no open batch hinders.
fn push_catalog<L>(
    alloc: Global,
    out: &mut String,
    planner: &mut Planner,
    shown: &ShownFields,
    words: &[u8],
    steps: &mut Steps<L>,
) -> Done
    ensures stays { planner.new ≡ planner.old }
{
    if let Some(refused) = unwanted(alloc, words)? {
        return push_reply(alloc, out, &refused, planner.game());
    }
    match catalog_text(alloc, planner, shown, steps)? {
        Some(text) => push_text(out, text.as_str()),
        None => push_refusal(alloc, out, RefusalCode::H3, planner.game()),
    }
}

fn push_forced(
    alloc: Global,
    out: &mut String,
    planner: &Planner,
    forced: &Forced,
    words: &[u8],
) -> Done {
    match unwanted(alloc, words)? {
        Some(refused) => push_reply(alloc, out, &refused, planner.game()),
        None => push_state(out, forced),
    }
}

// Why a wish isn't met, line by line.
fn push_unmet(out: &mut String, said: &str) -> Done {
    push_text(out, "? wish refused\n")?;
    for line in said.lines() {
        push_text(out, "  ")?;
        push_text(out, line)?;
        push_text(out, "\n")?;
    }
    Ok(())
}

fn push_wished(alloc: Global, out: &mut String, planner: &Planner, wished: &Wished) -> Done {
    match wished {
        Wished::Lines(lines) => push_text(out, lines.as_str()),
        Wished::Refused(code) => push_refusal(alloc, out, *code, planner.game()),
        Wished::Unmet(said) => push_unmet(out, said.as_str()),
    }
}

// The lines that make a table for a wish.
fn push_wish<W: Wishes>(
    alloc: Global,
    out: &mut String,
    planner: &Planner,
    shown: &ShownFields,
    wishes: &W,
    words: &[u8],
) -> Done {
    let wished = wishes.answer_wish(alloc, planner, shown, words)?;
    push_wished(alloc, out, planner, &wished)
}

// The answer to what is asked.
fn push_asked<W: Wishes, L>(
    alloc: Global,
    out: &mut String,
    planner: &mut Planner,
    forced: &Forced,
    shown: &ShownFields,
    wishes: &W,
    asked: Question,
    words: &[u8],
    steps: &mut Steps<L>,
) -> Done
    ensures stays { planner.new ≡ planner.old }
{
    match asked {
        Question::Catalog => push_catalog(alloc, out, planner, shown, words, steps),
        Question::State => push_forced(alloc, out, planner, forced, words),
        Question::Flow => push_flow(alloc, out, planner, words, steps),
        Question::WhyNot => push_reason(alloc, out, planner, words, steps),
        Question::Limits => push_rate(alloc, out, planner, words, steps),
        Question::Wish => push_wish(alloc, out, planner, shown, wishes, words),
    }
}

// The refusal of a question that there isn't. It is no command of a script either.
fn push_unknown(alloc: Global, out: &mut String, planner: &Planner, line: &[u8]) -> Done {
    let refused = unread(reading_of(alloc, line)?);
    push_reply(alloc, out, &refused, planner.game())
}

// The answer to a question.
fn push_question<W: Wishes, L>(
    alloc: Global,
    out: &mut String,
    planner: &mut Planner,
    forced: &Forced,
    shown: &ShownFields,
    wishes: &W,
    line: &[u8],
    steps: &mut Steps<L>,
) -> Done
    ensures stays { planner.new ≡ planner.old }
{
    let (word, words) = front_word(line);
    match asked_by(word) {
        Some(asked) => push_asked(
            alloc, out, planner, forced, shown, wishes, asked, words, steps,
        ),
        None => push_unknown(alloc, out, planner, line),
    }
}

/// Answers a question, which leaves the planner as it was.
///
/// # Errors
///
/// `NoMemory` where memory could not be had.
pub fn answer_question<W: Wishes, L>(
    alloc: Global,
    planner: &mut Planner,
    forced: &Forced,
    shown: &ShownFields,
    wishes: &W,
    line: &[u8],
    steps: &mut Steps<L>,
) -> Result<Text, NoMemory>
    ensures stays { planner.new ≡ planner.old }
{
    let mut out = String::new(alloc);
    push_question(alloc, &mut out, planner, forced, shown, wishes, line, steps)?;
    Ok(Text::from_string(out))
}
