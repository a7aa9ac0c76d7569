//! The replies to questions about nodes, and the summary.
ghost use Rattle.std.specs.Prelude.{◌≡◌, IfOk, OnOk, map};
ghost use Rattle.game_types.specs.Sound.{IsSound};
ghost use Rattle.serde_json.specs.View.{items_view, members_view, view};
ghost use Rattle.report_json.specs.Replies.{group_value, ranked_value, support_value, with_history, with_listed, with_mask, with_milestones, with_missing, with_ranked, with_reach, with_summary, with_why};

use crate::lists::put_nodes;
use crate::values::{push, put_flag, put_kind, put_list, put_node, put_whole, value_of};
use catalog_members::{Members, put_text};
use game_types::Game;
use plan_base::{Items, Kind, NoMemory, NodeId};
use plan_report::kind_word;
use serde_json::{Map, Value};
use std::alloc::Global;

#[tactic(auto, unfolding(crate::specs::Replies::with_ranked))]
fn put_ranked(
    members: &mut Members,
    alloc: Global,
    game: &Game,
    node: NodeId,
    rank: u32,
) -> Result<(), NoMemory>
    requires { IsSound game.now }
    ensures { OnOk result (members_view members.new.entries ≡ with_ranked game.now node rank (members_view members.old.entries)) }
{
    put_node(members, alloc, game, node)?;
    put_whole(members, alloc, "rank", u64::from(rank))
}

/// Puts at which rank a node is reached, 0 where it isn't.
#[tactic(auto, unfolding(crate::specs::Replies::with_reach))]
pub fn put_reach(
    members: &mut Members,
    alloc: Global,
    game: &Game,
    node: NodeId,
    rank: u32,
) -> Result<(), NoMemory>
    requires { IsSound game.now }
    ensures { OnOk result (members_view members.new.entries ≡ with_reach game.now node rank (members_view members.old.entries)) }
{
    put_kind(members, alloc, "reach")?;
    put_ranked(members, alloc, game, node, rank)
}

fn ranked_value(alloc: Global, game: &Game, pair: &(NodeId, u32)) -> Result<Value, NoMemory>
    requires { IsSound game.now }
    ensures { IfOk result (λ value. view value ≡ ranked_value game.now pair.now) }
{
    let mut members = Map::new(alloc);
    put_ranked(&mut members, alloc, game, pair.0, pair.1)?;
    Ok(value_of(members))
}

#[tactic(auto, using(crate::proofs::Listing::none_told, crate::proofs::Listing::one_told, crate::proofs::Listing::all_told))]
fn ranked_values(
    alloc: Global,
    game: &Game,
    nodes: &[(NodeId, u32)],
) -> Result<Vec<Value>, NoMemory>
    requires { IsSound game.now }
    ensures { IfOk result (λ list. map view list.items ≡ map (ranked_value game.now) nodes.now) }
{
    let mut list = Vec::new(alloc);
    for pair in nodes {
        push(&mut list, ranked_value(alloc, game, pair)?)?;
    }
    Ok(list)
}

/// Puts the reached nodes of a kind, each with its rank.
#[tactic(auto, unfolding(crate::specs::Replies::with_listed))]
pub fn put_listed(
    members: &mut Members,
    alloc: Global,
    game: &Game,
    kind: Kind,
    nodes: &[(NodeId, u32)],
) -> Result<(), NoMemory>
    requires { IsSound game.now }
    ensures { OnOk result (members_view members.new.entries ≡ with_listed game.now kind nodes.now (members_view members.old.entries)) }
{
    put_kind(members, alloc, "list")?;
    put_text(members, alloc, "of", kind_word(kind))?;
    let list = ranked_values(alloc, game, nodes)?;
    put_list(members, alloc, "nodes", list)
}

fn support_value(
    alloc: Global,
    game: &Game,
    support: &(NodeId, u32, bool),
) -> Result<Value, NoMemory>
    requires { IsSound game.now }
    ensures { IfOk result (λ value. view value ≡ support_value game.now support.now) }
{
    let mut members = Map::new(alloc);
    put_ranked(&mut members, alloc, game, support.0, support.1)?;
    put_flag(&mut members, alloc, "granted", support.2)?;
    Ok(value_of(members))
}

#[tactic(auto, using(crate::proofs::Listing::none_told, crate::proofs::Listing::one_told, crate::proofs::Listing::all_told))]
fn support_values(
    alloc: Global,
    game: &Game,
    nodes: &[(NodeId, u32, bool)],
) -> Result<Vec<Value>, NoMemory>
    requires { IsSound game.now }
    ensures { IfOk result (λ list. map view list.items ≡ map (support_value game.now) nodes.now) }
{
    let mut list = Vec::new(alloc);
    for support in nodes {
        push(&mut list, support_value(alloc, game, support)?)?;
    }
    Ok(list)
}

/// Puts the nodes that support one, none where it isn't reached.
#[tactic(auto, unfolding(crate::specs::Replies::with_why))]
pub fn put_why(
    members: &mut Members,
    alloc: Global,
    game: &Game,
    node: NodeId,
    nodes: &[(NodeId, u32, bool)],
) -> Result<(), NoMemory>
    requires { IsSound game.now }
    ensures { OnOk result (members_view members.new.entries ≡ with_why game.now node nodes.now (members_view members.old.entries)) }
{
    put_kind(members, alloc, "why")?;
    put_node(members, alloc, game, node)?;
    let list = support_values(alloc, game, nodes)?;
    put_list(members, alloc, "by", list)
}

fn group_value(alloc: Global, game: &Game, group: &(bool, Items<NodeId>)) -> Result<Value, NoMemory>
    requires { IsSound game.now }
    ensures { IfOk result (λ value. view value ≡ group_value game.now group.now) }
{
    let mut members = Map::new(alloc);
    put_flag(&mut members, alloc, "all", group.0)?;
    put_nodes(&mut members, alloc, "nodes", game, group.1.as_slice())?;
    Ok(value_of(members))
}

#[tactic(auto, using(crate::proofs::Listing::none_told, crate::proofs::Listing::one_told, crate::proofs::Listing::all_told))]
fn group_values(
    alloc: Global,
    game: &Game,
    groups: &[(bool, Items<NodeId>)],
) -> Result<Vec<Value>, NoMemory>
    requires { IsSound game.now }
    ensures { IfOk result (λ list. map view list.items ≡ map (group_value game.now) groups.now) }
{
    let mut list = Vec::new(alloc);
    for group in groups {
        push(&mut list, group_value(alloc, game, group)?)?;
    }
    Ok(list)
}

/// Puts the groups of a node that are not satisfied.
#[tactic(auto, unfolding(crate::specs::Replies::with_missing))]
pub fn put_missing(
    members: &mut Members,
    alloc: Global,
    game: &Game,
    node: NodeId,
    reached: bool,
    forbidden: bool,
    groups: &[(bool, Items<NodeId>)],
) -> Result<(), NoMemory>
    requires { IsSound game.now }
    ensures { OnOk result (members_view members.new.entries ≡ with_missing game.now node reached forbidden groups.now (members_view members.old.entries)) }
{
    put_kind(members, alloc, "missing")?;
    put_node(members, alloc, game, node)?;
    put_flag(members, alloc, "reached", reached)?;
    put_flag(members, alloc, "forbidden", forbidden)?;
    let list = group_values(alloc, game, groups)?;
    put_list(members, alloc, "groups", list)
}

/// Puts the milestones without which a node is not reached.
#[tactic(auto, unfolding(crate::specs::Replies::with_mask))]
pub fn put_mask(
    members: &mut Members,
    alloc: Global,
    game: &Game,
    node: NodeId,
    reached: bool,
    milestones: &[NodeId],
) -> Result<(), NoMemory>
    requires { IsSound game.now }
    ensures { OnOk result (members_view members.new.entries ≡ with_mask game.now node reached milestones.now (members_view members.old.entries)) }
{
    put_kind(members, alloc, "mask")?;
    put_node(members, alloc, game, node)?;
    put_flag(members, alloc, "reached", reached)?;
    put_nodes(members, alloc, "milestones", game, milestones)
}

/// Puts all milestones.
#[tactic(auto, unfolding(crate::specs::Replies::with_milestones))]
pub fn put_milestones(
    members: &mut Members,
    alloc: Global,
    game: &Game,
    nodes: &[NodeId],
) -> Result<(), NoMemory>
    requires { IsSound game.now }
    ensures { OnOk result (members_view members.new.entries ≡ with_milestones game.now nodes.now (members_view members.old.entries)) }
{
    put_kind(members, alloc, "milestones")?;
    put_nodes(members, alloc, "milestones", game, nodes)
}

#[tactic(auto, unfolding(crate::specs::Replies::with_history))]
fn put_history(
    members: &mut Members,
    alloc: Global,
    tables: u32,
    done: u64,
    undone: u64,
) -> Result<(), NoMemory>
    ensures { OnOk result (members_view members.new.entries ≡ with_history tables done undone (members_view members.old.entries)) }
{
    put_whole(members, alloc, "tables", u64::from(tables))?;
    put_whole(members, alloc, "done", done)?;
    put_whole(members, alloc, "undone", undone)
}

/// Puts how much there is of each thing.
#[tactic(auto, unfolding(crate::specs::Replies::with_summary))]
pub fn put_summary(
    members: &mut Members,
    alloc: Global,
    reached: u32,
    nodes: u32,
    milestones: u32,
    bits: u64,
    tables: u32,
    done: u64,
    undone: u64,
) -> Result<(), NoMemory>
    ensures { OnOk result (members_view members.new.entries ≡ with_summary reached nodes milestones bits tables done undone (members_view members.old.entries)) }
{
    put_kind(members, alloc, "summary")?;
    put_whole(members, alloc, "reached", u64::from(reached))?;
    put_whole(members, alloc, "nodes", u64::from(nodes))?;
    put_whole(members, alloc, "milestones", u64::from(milestones))?;
    put_whole(members, alloc, "bits", bits)?;
    put_history(members, alloc, tables, done, undone)
}
