//! Answers to questions, put together line by line.
ghost use Rattle.game_types.specs.Sound.{IsSound};

use fractions::Ratio;
use game_types::Game;
use plan_base::{GoodId, NoMemory};
use plan_lines::{Detail, RefusalCode, Reply};
use plan_report::{good_word, print_reply, printed_word};
use std::alloc::Global;

/// What is written to a text in memory, or that none could be had.
pub type Done = Result<(), NoMemory>;

// A reply without its number.
fn behind_number(text: &str) -> &str {
    match text.split_once(' ') {
        Some((_, rest)) => rest,
        None => "",
    }
}

/// Writes a reply with `?` in place of its number.
pub fn push_reply(alloc: Global, out: &mut String, reply: &Reply, game: &Game) -> Done
    requires { IsSound game.now }
{
    let text = print_reply(alloc, 0, reply, game)?;
    out.push_str("? ")?;
    out.push_str(behind_number(text.as_str()))?;
    Ok(())
}

/// A refusal without details.
pub fn refusal(code: RefusalCode) -> Reply {
    Reply::Refused {
        code,
        detail: Detail::Bare,
        at: None,
    }
}

/// Writes a refusal without details.
pub fn push_refusal(alloc: Global, out: &mut String, code: RefusalCode, game: &Game) -> Done
    requires { IsSound game.now }
{
    let reply = refusal(code);
    push_reply(alloc, out, &reply, game)
}

/// Writes a text.
pub fn push_text(out: &mut String, text: &str) -> Done {
    out.push_str(text)?;
    Ok(())
}

/// Writes a word behind a space.
pub fn push_word(alloc: Global, out: &mut String, word: &str) -> Done {
    let word = printed_word(alloc, word)?;
    out.push_str(" ")?;
    out.push_str(word.as_str())?;
    Ok(())
}

/// Writes a good of a table behind a space.
pub fn push_good(alloc: Global, out: &mut String, game: &Game, good: GoodId) -> Done
    requires { IsSound game.now }
{
    let word = good_word(alloc, game, good)?;
    out.push_str(" ")?;
    out.push_str(word.as_str())?;
    Ok(())
}

/// Writes a number behind a space.
pub fn push_number(alloc: Global, out: &mut String, number: &Ratio) -> Done {
    let text = number.print(alloc)?;
    out.push_str(" ")?;
    out.push_str(text.as_str())?;
    Ok(())
}

/// Writes a number behind a space, or that it is past the limits.
pub fn push_outcome(alloc: Global, out: &mut String, number: &Option<Ratio>) -> Done {
    match number {
        Some(number) => push_number(alloc, out, number),
        None => push_text(out, " wide"),
    }
}

/// Writes a whole number behind a space.
pub fn push_count(out: &mut String, count: u64) -> Done {
    write!(out, " {count}")?;
    Ok(())
}
