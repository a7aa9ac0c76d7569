//! The text of a reply.
ghost use Rattle.std.specs.Prelude.{◌≡◌, ◌++◌, [], IfOk, IfSome, string_bytes};
ghost use Rattle.game_types.specs.Sound.{IsSound};
ghost use Rattle.plan_report.specs.Layout.{line_then};
ghost use Rattle.plan_report.specs.LineStarts.{line_starts};
ghost use Rattle.plan_report.specs.Replies.{at_words, detail_words, named_word, printed_reply};

use crate::answers::{list_text, why_text};
use crate::codes::{code_word, effect_word};
use crate::rates::rate_text;
use crate::solved::solved_text;
use crate::{
    LineStarts, mask_text, milestones_text, missing_text, node_word, object_word, printed_word,
    reach_text, summary_text,
};
use game_types::Game;
use plan_base::{Kind, NoMemory, Text};
use plan_lines::{Detail, RefusalCode, Reply};
use std::alloc::Global;

// The word at which a refusal comes.
fn named_word(alloc: Global, kind: Option<Kind>, name: &str) -> Result<String, NoMemory>
    ensures { IfOk result (λ text. string_bytes text ≡ named_word kind name.now) }
{
    match kind {
        Some(kind) => Ok(object_word(alloc, kind, name)?),
        None => Ok(printed_word(alloc, name)?),
    }
}

// The end of a line: the line of a batch, where one is named.
fn at_end(alloc: Global, at: Option<u32>) -> Result<String, NoMemory>
    ensures { IfOk result (λ text. string_bytes text ≡ line_then (at_words at) []) }
{
    match at {
        Some(line) => Ok(format!(in alloc; " at {line}\n")?),
        None => Ok(String::from_str(alloc, "\n")?),
    }
}

// The end of a line: what a refusal names, and the line of a batch.
fn detail_end(
    alloc: Global,
    game: &Game,
    detail: &Detail,
    at: Option<u32>,
) -> Result<String, NoMemory>
    requires { IsSound game.now }
    ensures { IfOk result (λ text. string_bytes text ≡ line_then (detail_words game.now detail.now ++ at_words at) []) }
{
    let at = at_end(alloc, at)?;
    match detail {
        Detail::Bare => Ok(at),
        Detail::Word { kind, name } => {
            let word = named_word(alloc, *kind, name.as_str())?;
            Ok(format!(in alloc; " {word}{at}")?)
        }
        Detail::Node(node) => {
            let word = node_word(alloc, game, *node)?;
            Ok(format!(in alloc; " {word}{at}")?)
        }
        Detail::Effect { node, kind } => {
            let word = node_word(alloc, game, *node)?;
            let effect = effect_word(*kind);
            Ok(format!(in alloc; " {word} {effect}{at}")?)
        }
        Detail::Row { label, step } => {
            let word = printed_word(alloc, label.as_str())?;
            Ok(format!(in alloc; " {word} {step}{at}")?)
        }
    }
}

fn refused_text(
    alloc: Global,
    line: u32,
    game: &Game,
    code: RefusalCode,
    detail: &Detail,
    at: Option<u32>,
) -> Result<String, NoMemory>
    requires { IsSound game.now }
    ensures { IfOk result (λ text. string_bytes text ≡ printed_reply game.now line (Reply.Refused code detail.now at)) }
{
    let code = code_word(code);
    let detail = detail_end(alloc, game, detail, at)?;
    Ok(format!(in alloc; "{line} refused {code}{detail}")?)
}

// The text of a reply, whole. The lines of nodes are written from the starts where they are given.
fn reply_string(
    alloc: Global,
    line: u32,
    reply: &Reply,
    game: &Game,
    starts: Option<&LineStarts>,
) -> Result<String, NoMemory>
    requires game { IsSound game.now }
    requires starts { IfSome starts (λ starts. starts.now ≡ line_starts game.now) }
    ensures { IfOk result (λ text. string_bytes text ≡ printed_reply game.now line reply.now) }
{
    match reply {
        Reply::Ok => Ok(format!(in alloc; "{line} ok\n")?),
        Reply::Nothing => Ok(String::new(alloc)),
        Reply::Held => Ok(format!(in alloc; "{line} held\n")?),
        Reply::Reach { node, rank } => reach_text(alloc, line, game, *node, *rank),
        Reply::List { kind, nodes } => {
            list_text(alloc, line, game, starts, *kind, nodes.as_slice())
        }
        Reply::Why { node, nodes } => {
            why_text(alloc, line, game, starts, *node, nodes.as_slice())
        }
        Reply::Missing {
            node,
            reached,
            forbidden,
            groups,
        } => missing_text(
            alloc,
            line,
            game,
            *node,
            *reached,
            *forbidden,
            groups.as_slice(),
        ),
        Reply::Mask {
            node,
            reached,
            milestones,
        } => mask_text(alloc, line, game, *node, *reached, milestones.as_slice()),
        Reply::Milestones(nodes) => milestones_text(alloc, line, game, nodes.as_slice()),
        Reply::Summary {
            reached,
            nodes,
            milestones,
            bits,
            tables,
            done,
            undone,
        } => summary_text(
            alloc,
            line,
            *reached,
            *nodes,
            *milestones,
            *bits,
            *tables,
            *done,
            *undone,
        ),
        Reply::Rate {
            table,
            label,
            effects,
            rates,
            beacons,
        } => rate_text(
            alloc,
            line,
            table.as_str(),
            label.as_str(),
            effects,
            rates,
            beacons,
        ),
        Reply::Solved {
            table,
            labels,
            goods,
            columns,
            rows,
            total,
            answer,
        } => solved_text(
            alloc,
            line,
            game,
            table.as_str(),
            labels.as_slice(),
            goods.as_slice(),
            columns.as_slice(),
            rows.as_slice(),
            total,
            answer,
        ),
        Reply::Refused { code, detail, at } => {
            refused_text(alloc, line, game, *code, detail, *at)
        }
    }
}

/// The text of the reply to the line with this number.
///
/// # Errors
///
/// `NoMemory` where memory could not be had.
pub fn print_reply(alloc: Global, line: u32, reply: &Reply, game: &Game) -> Result<Text, NoMemory>
    requires { IsSound game.now }
    ensures { IfOk result (λ text. text ≡ printed_reply game.now line reply.now) }
{
    let text = reply_string(alloc, line, reply, game, None)?;
    Ok(Text::from_string(text))
}

/// The text of the reply to the line with this number, for which the starts of the lines of the game's nodes are at hand. It is that of
/// `print_reply`, and a reply of many lines is written in a fraction of the time.
///
/// # Errors
///
/// `NoMemory` where memory could not be had.
pub fn print_reply_by(
    alloc: Global,
    line: u32,
    reply: &Reply,
    game: &Game,
    starts: &LineStarts,
) -> Result<Text, NoMemory>
    requires game { IsSound game.now }
    requires starts { starts.now ≡ line_starts game.now }
    ensures { IfOk result (λ text. text ≡ printed_reply game.now line reply.now) }
{
    let text = reply_string(alloc, line, reply, game, Some(starts))?;
    Ok(Text::from_string(text))
}
