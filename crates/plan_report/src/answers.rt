//! The replies to questions about nodes, and the summary.
ghost use Rattle.std.specs.Prelude.{◌≡◌, ◌∷◌, [], IfOk, IfSome, string_bytes};
ghost use Rattle.game_types.specs.Sound.{IsSound};
ghost use Rattle.plan_report.specs.Layout.{line_then, reply_text};
ghost use Rattle.plan_report.specs.LineStarts.{line_starts};
ghost use Rattle.plan_report.specs.Questions.{history_words, list_lines, mask_line, masks_words, milestones_lines, missing_lines, reach_line, summary_line, why_lines};

use crate::LineStarts;
use crate::nodes::node_word;
use crate::questions::{forbidden_line, push_group_lines, push_mask_end, push_node_lines};
use crate::ranked::{push_ranked_lines, push_why_lines};
use crate::words::kind_word;
use game_types::Game;
use plan_base::{Items, Kind, NoMemory, NodeId};
use std::alloc::Global;

/// The reply that says at which rank a node is reached, 0 where it is not.
///
/// # Errors
///
/// `NoMemory` where memory could not be had.
pub fn reach_text(
    alloc: Global,
    line: u32,
    game: &Game,
    node: NodeId,
    rank: u32,
) -> Result<String, NoMemory>
    requires { IsSound game.now }
    ensures { IfOk result (λ text. string_bytes text ≡ reply_text line (reach_line game.now node rank ∷ [])) }
{
    let node = node_word(alloc, game, node)?;
    if rank == 0 {
        Ok(format!(in alloc; "{line} reach {node} no\n")?)
    } else {
        Ok(format!(in alloc; "{line} reach {node} rank {rank}\n")?)
    }
}

/// The reply that lists the reached nodes of a kind, each with its rank.
///
/// # Errors
///
/// `NoMemory` where memory could not be had.
pub fn list_text(
    alloc: Global,
    line: u32,
    game: &Game,
    starts: Option<&LineStarts>,
    kind: Kind,
    nodes: &[(NodeId, u32)],
) -> Result<String, NoMemory>
    requires game { IsSound game.now }
    requires starts { IfSome starts (λ starts. starts.now ≡ line_starts game.now) }
    ensures { IfOk result (λ text. string_bytes text ≡ reply_text line (list_lines game.now kind nodes.now)) }
{
    let kind = kind_word(kind);
    let count = nodes.len();
    let mut text = format!(in alloc; "{line} list {kind} {count}\n")?;
    push_ranked_lines(alloc, &mut text, game, starts, nodes)?;
    Ok(text)
}

/// The reply that lists the nodes which support one; there are none where it is not reached.
///
/// # Errors
///
/// `NoMemory` where memory could not be had.
pub fn why_text(
    alloc: Global,
    line: u32,
    game: &Game,
    starts: Option<&LineStarts>,
    node: NodeId,
    nodes: &[(NodeId, u32, bool)],
) -> Result<String, NoMemory>
    requires game { IsSound game.now }
    requires starts { IfSome starts (λ starts. starts.now ≡ line_starts game.now) }
    ensures { IfOk result (λ text. string_bytes text ≡ reply_text line (why_lines game.now node nodes.now)) }
{
    let node = node_word(alloc, game, node)?;
    if nodes.is_empty() {
        return Ok(format!(in alloc; "{line} why {node} no\n")?);
    }
    let mut text = format!(in alloc; "{line} why {node}\n")?;
    push_why_lines(alloc, &mut text, game, starts, nodes)?;
    Ok(text)
}

/// The reply that lists the groups of a node which are not satisfied.
///
/// # Errors
///
/// `NoMemory` where memory could not be had.
pub fn missing_text(
    alloc: Global,
    line: u32,
    game: &Game,
    node: NodeId,
    reached: bool,
    forbidden: bool,
    groups: &[(bool, Items<NodeId>)],
) -> Result<String, NoMemory>
    requires { IsSound game.now }
    ensures { IfOk result (λ text. string_bytes text ≡ reply_text line (missing_lines game.now node reached forbidden groups.now)) }
{
    let node = node_word(alloc, game, node)?;
    if reached {
        return Ok(format!(in alloc; "{line} missing {node} none\n")?);
    }
    let forbidden = forbidden_line(forbidden);
    let mut text = format!(in alloc; "{line} missing {node}\n{forbidden}")?;
    push_group_lines(alloc, &mut text, game, groups)?;
    Ok(text)
}

/// The reply that names the milestones without which a node is not reached.
///
/// # Errors
///
/// `NoMemory` where memory could not be had.
pub fn mask_text(
    alloc: Global,
    line: u32,
    game: &Game,
    node: NodeId,
    reached: bool,
    milestones: &[NodeId],
) -> Result<String, NoMemory>
    requires { IsSound game.now }
    ensures { IfOk result (λ text. string_bytes text ≡ reply_text line (mask_line game.now node reached milestones.now ∷ [])) }
{
    let node = node_word(alloc, game, node)?;
    let mut text = format!(in alloc; "{line} mask {node}")?;
    push_mask_end(alloc, &mut text, game, reached, milestones)?;
    Ok(text)
}

/// The reply that lists all milestones.
///
/// # Errors
///
/// `NoMemory` where memory could not be had.
pub fn milestones_text(
    alloc: Global,
    line: u32,
    game: &Game,
    nodes: &[NodeId],
) -> Result<String, NoMemory>
    requires { IsSound game.now }
    ensures { IfOk result (λ text. string_bytes text ≡ reply_text line (milestones_lines game.now nodes.now)) }
{
    let count = nodes.len();
    let mut text = format!(in alloc; "{line} milestones {count}\n")?;
    push_node_lines(alloc, &mut text, game, nodes)?;
    Ok(text)
}

// The end of a line: how many tables there are, and how many entries are done and undone.
fn history_end(alloc: Global, tables: u32, done: u64, undone: u64) -> Result<String, NoMemory>
    ensures { IfOk result (λ text. string_bytes text ≡ line_then (history_words tables done undone) []) }
{
    Ok(format!(in alloc; " tables {tables} done {done} undone {undone}\n")?)
}

// The end of a line: how many milestones there are, and how many lie in the masks.
fn masks_end(
    alloc: Global,
    milestones: u32,
    bits: u64,
    tables: u32,
    done: u64,
    undone: u64,
) -> Result<String, NoMemory>
    ensures { IfOk result (λ text. string_bytes text ≡ line_then (masks_words milestones bits tables done undone) []) }
{
    let history = history_end(alloc, tables, done, undone)?;
    Ok(format!(in alloc; " milestones {milestones} bits {bits}{history}")?)
}

/// The reply that says how much there is of each thing.
///
/// # Errors
///
/// `NoMemory` where memory could not be had.
pub fn summary_text(
    alloc: Global,
    line: u32,
    reached: u32,
    nodes: u32,
    milestones: u32,
    bits: u64,
    tables: u32,
    done: u64,
    undone: u64,
) -> Result<String, NoMemory>
    ensures { IfOk result (λ text. string_bytes text ≡ reply_text line (summary_line reached nodes milestones bits tables done undone ∷ [])) }
{
    let masks = masks_end(alloc, milestones, bits, tables, done, undone)?;
    Ok(format!(in alloc; "{line} summary reached {reached} of {nodes}{masks}")?)
}
