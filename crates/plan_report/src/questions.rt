// The further lines of the replies to questions about nodes.
ghost use Rattle.std.specs.Prelude.{◌≡◌, ◌∷◌, ◌++◌, [], true, OnOk, codes, map, string_bytes, if◌then◌else◌};
ghost use Rattle.game_types.specs.Sound.{IsSound};
ghost use Rattle.plan_report.specs.Layout.{further_line, further_text, line_then, spaced};
ghost use Rattle.plan_report.specs.Nodes.{node_word};
ghost use Rattle.plan_report.specs.Questions.{forbidden_lines, group_line, mask_words};

use crate::nodes::{push_line_start, push_node_word};
use game_types::Game;
use plan_base::{Items, NoMemory, NodeId};
use std::alloc::Global;

// Puts a space and a node behind a text.
fn push_spaced_node(
    alloc: Global,
    text: &mut String,
    game: &Game,
    node: NodeId,
) -> Result<(), NoMemory>
    requires { IsSound game.now }
    ensures { OnOk result (string_bytes text.new ≡ string_bytes text.old ++ 32 ∷ node_word game.now node) }
{
    text.push_str(" ")?;
    push_node_word(alloc, text, game, node)?;
    Ok(())
}

// Puts nodes behind a text, each behind a space.
fn push_nodes(
    alloc: Global,
    text: &mut String,
    game: &Game,
    nodes: &[NodeId],
) -> Result<(), NoMemory>
    requires { IsSound game.now }
    ensures { OnOk result (string_bytes text.new ≡ string_bytes text.old ++ spaced (map (node_word game.now) nodes.now)) }
{
    for node in nodes {
        push_spaced_node(alloc, text, game, *node)?;
    }
    Ok(())
}

// Puts the end of a line behind a text: nodes, each behind a space.
fn push_nodes_end(
    alloc: Global,
    text: &mut String,
    game: &Game,
    nodes: &[NodeId],
) -> Result<(), NoMemory>
    requires { IsSound game.now }
    ensures { OnOk result (string_bytes text.new ≡ string_bytes text.old ++ line_then (map (node_word game.now) nodes.now) []) }
{
    push_nodes(alloc, text, game, nodes)?;
    text.push_str("\n")?;
    Ok(())
}

// Puts the line of a node behind a text.
fn push_node_line(
    alloc: Global,
    text: &mut String,
    game: &Game,
    node: NodeId,
) -> Result<(), NoMemory>
    requires { IsSound game.now }
    ensures { OnOk result (string_bytes text.new ≡ string_bytes text.old ++ further_line (node_word game.now node ∷ [])) }
{
    push_line_start(alloc, text, game, node)?;
    text.push_str("\n")?;
    Ok(())
}

/// Puts a line for each node behind a text.
pub fn push_node_lines(
    alloc: Global,
    text: &mut String,
    game: &Game,
    nodes: &[NodeId],
) -> Result<(), NoMemory>
    requires { IsSound game.now }
    ensures { OnOk result (string_bytes text.new ≡ string_bytes text.old ++ further_text (map (λ node. node_word game.now node ∷ []) nodes.now)) }
{
    for node in nodes {
        push_node_line(alloc, text, game, *node)?;
    }
    Ok(())
}

fn group_word(all: bool) -> &'static str
    ensures { result.now ≡ (if all then codes "  all" else codes "  any") }
{
    if all { "  all" } else { "  any" }
}

// Puts the line of a group of nodes, of which all are needed or any, behind a text.
fn push_group_line(
    alloc: Global,
    text: &mut String,
    game: &Game,
    all: bool,
    members: &[NodeId],
) -> Result<(), NoMemory>
    requires { IsSound game.now }
    ensures { OnOk result (string_bytes text.new ≡ string_bytes text.old ++ further_line (group_line game.now (all, members.now))) }
{
    text.push_str(group_word(all))?;
    push_nodes_end(alloc, text, game, members)
}

/// Puts a line for each group behind a text.
pub fn push_group_lines(
    alloc: Global,
    text: &mut String,
    game: &Game,
    groups: &[(bool, Items<NodeId>)],
) -> Result<(), NoMemory>
    requires { IsSound game.now }
    ensures { OnOk result (string_bytes text.new ≡ string_bytes text.old ++ further_text (map (group_line game.now) groups.now)) }
{
    for (all, members) in groups {
        push_group_line(alloc, text, game, *all, members.as_slice())?;
    }
    Ok(())
}

/// The line which says that a node is barred, where it is.
pub fn forbidden_line(forbidden: bool) -> &'static str
    ensures { result.now ≡ further_text (forbidden_lines forbidden) }
{
    if forbidden { "  forbidden\n" } else { "" }
}

/// Puts the end of a line behind a text: the milestones without which a node is not reached, each behind a space.
pub fn push_mask_end(
    alloc: Global,
    text: &mut String,
    game: &Game,
    reached: bool,
    milestones: &[NodeId],
) -> Result<(), NoMemory>
    requires { IsSound game.now }
    ensures { OnOk result (string_bytes text.new ≡ string_bytes text.old ++ line_then (mask_words game.now reached milestones.now) []) }
{
    if !reached {
        text.push_str(" unreached\n")?;
        Ok(())
    } else if milestones.is_empty() {
        text.push_str(" none\n")?;
        Ok(())
    } else {
        push_nodes_end(alloc, text, game, milestones)
    }
}
