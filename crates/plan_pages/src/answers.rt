//! The answers to questions about nodes, rows or the whole.
ghost use Rattle.game_types.specs.Sound.{IsSound};

use crate::entries::{
    Site, push_entry, push_line, push_plain, push_summary, push_table, push_table_end,
};
use game_types::Game;
use page_parts::Done;
use page_rows::{Piece, Thing, put, thing_text};
use plan_base::{Items, Kind, NoMemory, NodeId};
use plan_lines::Reply;
use plan_report::print_reply;

// The thing of a node. A node past the last counts as a technology without a name.
fn node_thing(game: &Game, node: NodeId) -> Thing
    requires { IsSound game.now }
{
    let shape = game.shape();
    if node.0 < shape.len() {
        let (kind, index) = shape.kind_of(node);
        Thing { kind, index }
    } else {
        Thing {
            kind: Kind::Tech,
            index: u32::MAX,
        }
    }
}

fn node_text(at: &Site<'_>, node: NodeId) -> Result<String, NoMemory>
    requires { IsSound at.now.game.now }
{
    thing_text(at.alloc, at.game, node_thing(at.game, node))
}

// A line of a table: a node, and the round in which it is reached.
fn push_ranked(at: &Site<'_>, out: &mut String, node: NodeId, rank: u32) -> Done
    requires { IsSound at.now.game.now }
{
    let text = node_text(at, node)?;
    put(
        at.alloc,
        out,
        &[
            Piece::Text("<tr data-f><th>"),
            Piece::Text(text.as_str()),
            Piece::Text("</th><td data-l=\"round\" data-v=\""),
            Piece::Count(rank as u64),
            Piece::Text("\">"),
            Piece::Count(rank as u64),
            Piece::Text("</td>"),
        ],
    )
}

fn push_item(at: &Site<'_>, out: &mut String, node: NodeId, front: &str, behind: &str) -> Done
    requires { IsSound at.now.game.now }
{
    let text = node_text(at, node)?;
    push_plain(at, out, front)?;
    push_plain(at, out, text.as_str())?;
    push_plain(at, out, behind)
}

// Nodes, each between two texts.
fn push_nodes(at: &Site<'_>, out: &mut String, nodes: &[NodeId], front: &str, behind: &str) -> Done
    requires { IsSound at.now.game.now }
{
    for node in nodes {
        push_item(at, out, *node, front, behind)?;
    }
    Ok(())
}

fn push_reach(at: &Site<'_>, out: &mut String, rank: u32) -> Done {
    if rank == 0 {
        return push_line(at, out, "is not reached");
    }
    push_entry(
        at,
        out,
        &[
            Piece::Text("is reached in round "),
            Piece::Count(rank as u64),
        ],
    )
}

// The heads of tables of nodes.
const RANKED: &str = "<th>name</th><th>round</th>";

const GRANTED: &str = "<th>name</th><th>round</th><th>granted</th>";

const NAMED: &str = "<th>name</th>";

fn push_reason(at: &Site<'_>, out: &mut String, node: NodeId, rank: u32, granted: bool) -> Done
    requires { IsSound at.now.game.now }
{
    push_ranked(at, out, node, rank)?;
    let mark = if granted { "granted" } else { "" };
    put(
        at.alloc,
        out,
        &[
            Piece::Text("<td>"),
            Piece::Text(mark),
            Piece::Text("</td></tr>\n"),
        ],
    )
}

fn push_reasons(at: &Site<'_>, out: &mut String, nodes: &[(NodeId, u32, bool)]) -> Done
    requires { IsSound at.now.game.now }
{
    for (node, rank, granted) in nodes {
        push_reason(at, out, *node, *rank, *granted)?;
    }
    Ok(())
}

fn push_why(at: &Site<'_>, out: &mut String, nodes: &[(NodeId, u32, bool)]) -> Done
    requires { IsSound at.now.game.now }
{
    if nodes.is_empty() {
        return push_line(at, out, "is not reached");
    }
    push_table(at, out, nodes.len(), GRANTED)?;
    push_reasons(at, out, nodes)?;
    push_table_end(at, out)
}

fn push_listed(at: &Site<'_>, out: &mut String, node: NodeId, rank: u32) -> Done
    requires { IsSound at.now.game.now }
{
    push_ranked(at, out, node, rank)?;
    push_plain(at, out, "</tr>\n")
}

fn push_all_listed(at: &Site<'_>, out: &mut String, nodes: &[(NodeId, u32)]) -> Done
    requires { IsSound at.now.game.now }
{
    for (node, rank) in nodes {
        push_listed(at, out, *node, *rank)?;
    }
    Ok(())
}

fn push_list(at: &Site<'_>, out: &mut String, nodes: &[(NodeId, u32)]) -> Done
    requires { IsSound at.now.game.now }
{
    push_table(at, out, nodes.len(), RANKED)?;
    push_all_listed(at, out, nodes)?;
    push_table_end(at, out)
}

fn group_word(all: bool) -> &'static str {
    if all { "all of" } else { "any of" }
}

fn push_group(at: &Site<'_>, out: &mut String, all: bool, members: &[NodeId]) -> Done
    requires { IsSound at.now.game.now }
{
    put(
        at.alloc,
        out,
        &[
            Piece::Text("<li data-f>"),
            Piece::Text(group_word(all)),
            Piece::Text("<ul>\n"),
        ],
    )?;
    push_nodes(at, out, members, "<li data-f>", "</li>\n")?;
    push_plain(at, out, "</ul></li>\n")
}

fn push_groups(at: &Site<'_>, out: &mut String, groups: &[(bool, Items<NodeId>)]) -> Done
    requires { IsSound at.now.game.now }
{
    for (all, members) in groups {
        push_group(at, out, *all, members.as_slice())?;
    }
    Ok(())
}

fn push_missing(
    at: &Site<'_>,
    out: &mut String,
    forbidden: bool,
    groups: &[(bool, Items<NodeId>)],
) -> Done
    requires { IsSound at.now.game.now }
{
    if forbidden && groups.is_empty() {
        return push_line(at, out, "is forbidden");
    }
    push_summary(at, out, groups.len())?;
    let head = if forbidden {
        "<ol>\n<li data-f>forbidden</li>\n"
    } else {
        "<ol>\n"
    };
    push_plain(at, out, head)?;
    push_groups(at, out, groups)?;
    push_plain(at, out, "</ol></details>\n")
}

fn push_lacks(
    at: &Site<'_>,
    out: &mut String,
    reached: bool,
    forbidden: bool,
    groups: &[(bool, Items<NodeId>)],
) -> Done
    requires { IsSound at.now.game.now }
{
    if reached {
        return push_line(at, out, "is reached: nothing is missing");
    }
    push_missing(at, out, forbidden, groups)
}

fn push_mask(at: &Site<'_>, out: &mut String, reached: bool, nodes: &[NodeId]) -> Done
    requires { IsSound at.now.game.now }
{
    if reached {
        return push_milestones(at, out, nodes);
    }
    push_line(at, out, "is not reached")
}

fn push_milestones(at: &Site<'_>, out: &mut String, nodes: &[NodeId]) -> Done
    requires { IsSound at.now.game.now }
{
    if nodes.is_empty() {
        return push_line(at, out, "no milestone");
    }
    push_table(at, out, nodes.len(), NAMED)?;
    push_nodes(at, out, nodes, "<tr data-f><th>", "</th></tr>\n")?;
    push_table_end(at, out)
}

// A printed reply without the number of its line.
fn behind_number(text: &str) -> &str {
    match text.split_once(' ') {
        Some((_, words)) => words,
        None => text,
    }
}

// A reply as it is printed elsewhere.
fn push_printed(at: &Site<'_>, out: &mut String, reply: &Reply) -> Done
    requires { IsSound at.now.game.now }
{
    let text = print_reply(at.alloc, at.line, reply, at.game)?;
    push_line(at, out, behind_number(text.as_str()))
}

/// The answer to a question about nodes, rows or the whole.
pub fn push_answer(at: &Site<'_>, out: &mut String, reply: &Reply) -> Done
    requires { IsSound at.now.game.now }
{
    match reply {
        Reply::Reach { rank, .. } => push_reach(at, out, *rank),
        Reply::List { nodes, .. } => push_list(at, out, nodes.as_slice()),
        Reply::Why { nodes, .. } => push_why(at, out, nodes.as_slice()),
        Reply::Missing {
            reached,
            forbidden,
            groups,
            ..
        } => push_lacks(at, out, *reached, *forbidden, groups.as_slice()),
        Reply::Mask {
            reached,
            milestones,
            ..
        } => push_mask(at, out, *reached, milestones.as_slice()),
        Reply::Milestones(nodes) => push_milestones(at, out, nodes.as_slice()),
        _ => push_printed(at, out, reply),
    }
}
