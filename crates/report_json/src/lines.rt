//! A line of a script with its reply, as a line of JSON Lines.
ghost use Rattle.std.specs.Prelude.{◌≡◌, IfOk, OnOk, string_bytes};
ghost use Rattle.std.specs.Option.{option_copied, option_map};
ghost use Rattle.game_types.specs.Sound.{IsSound};
ghost use Rattle.serde_json.specs.Data.{no_members, object};
ghost use Rattle.serde_json.specs.View.{members_view};
ghost use Rattle.catalog_members.specs.Texts.{IsTextOf};
ghost use Rattle.report_json.specs.Lines.{IsJsonLine, line_value, with_line};
ghost use Rattle.report_json.specs.Replies.{with_reply};

use crate::replies::put_reply;
use crate::values::put_whole;
use catalog_members::{Members, put_object, put_text, text_of};
use game_types::Game;
use plan_base::NoMemory;
use plan_lines::Reply;
use serde_json::Map;
use std::alloc::Global;

#[tactic(auto, unfolding(crate::specs::Lines::with_line))]
fn put_line(members: &mut Members, alloc: Global, words: Option<&str>) -> Result<(), NoMemory>
    ensures { OnOk result (members_view members.new.entries ≡ with_line (option_map (λ w. w.now) words.entry) (members_view members.old.entries)) }
{
    match words {
        Some(words) => put_text(members, alloc, "command", words),
        None => Ok(()),
    }
}

fn reply_members(alloc: Global, game: &Game, reply: &Reply) -> Result<Members, NoMemory>
    requires { IsSound game.now }
    ensures { IfOk result (λ inner. members_view inner.entries ≡ with_reply game.now reply.now no_members) }
{
    let mut members = Map::new(alloc);
    put_reply(&mut members, alloc, game, reply)?;
    Ok(members)
}

#[tactic(auto, unfolding(crate::specs::Lines::line_value))]
fn object_text(
    alloc: Global,
    game: &Game,
    number: u32,
    words: Option<&str>,
    reply: &Reply,
) -> Result<String, NoMemory>
    requires { IsSound game.now }
    ensures { IfOk result (λ text. IsTextOf (line_value game.now number (option_map (λ w. w.now) words.entry) reply.now) (string_bytes text)) }
{
    let mut members = Map::new(alloc);
    put_whole(&mut members, alloc, "line", u64::from(number))?;
    put_line(&mut members, alloc, words)?;
    let inner = reply_members(alloc, game, reply)?;
    put_object(&mut members, alloc, "reply", inner)?;
    text_of(alloc, members)
}

/// A line of a script with this number and these words, where they are text, and its reply: one object of JSON, and the newline.
///
/// # Errors
///
/// `NoMemory` where memory could not be had.
pub fn line_text(
    alloc: Global,
    game: &Game,
    number: u32,
    words: Option<&str>,
    reply: &Reply,
) -> Result<String, NoMemory>
    requires { IsSound game.now }
    ensures { IfOk result (λ text. IsJsonLine (line_value game.now number (option_map (λ w. w.now) words.entry) reply.now) (string_bytes text)) }
{
    let mut text = object_text(alloc, game, number, words, reply)?;
    text.push('\n')?;
    Ok(text)
}
