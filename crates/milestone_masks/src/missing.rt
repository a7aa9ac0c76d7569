//! What an unreached node lacks.
ghost use Rattle.std.specs.Prelude.{◌≡◌, ◌<◌, not, All, Some, filter, length, map, IfOk};
ghost use Rattle.std.specs.List.{list_all, list_any};
ghost use Rattle.graph_store.specs.Rows.{HasMembersBelow};
ghost use Rattle.reach_ranks.specs.Rounds.{is_satisfied};
ghost use Rattle.milestone_masks.specs.Worlds.{missing_in, ranked};

use graph_store::{Group, Row};
use plan_base::{Items, NodeId};
use reach_ranks::Ranks;
use std::alloc::{AllocError, Global};

/// Whether the node has a rank.
fn is_ranked(ranks: &Ranks, node: NodeId) -> bool
    requires { node.0 < length ranks.now }
    ensures { result ≡ ranked ranks.now node.0 }
{
    0 < ranks.rank(node)
}

/// Whether all the members have a rank.
fn are_all_ranked(ranks: &Ranks, members: &[NodeId]) -> bool
    requires { All (λ m. m.0 < length ranks.now) members.now }
    ensures { result ≡ list_all (λ m. ranked ranks.now m.0) members.now }
{
    members.iter().all(|m| is_ranked(ranks, *m))
}

/// Whether one of the members has a rank.
fn is_any_ranked(ranks: &Ranks, members: &[NodeId]) -> bool
    requires { All (λ m. m.0 < length ranks.now) members.now }
    ensures { result ≡ list_any (λ m. ranked ranks.now m.0) members.now }
{
    members.iter().any(|m| is_ranked(ranks, *m))
}

/// Whether the nodes that have a rank satisfy the group.
fn is_group_satisfied(ranks: &Ranks, group: &Group) -> bool
    requires { All (λ m. m.0 < length ranks.now) group.now.members }
    ensures { result ≡ is_satisfied (ranked ranks.now) group.now }
{
    if group.all {
        are_all_ranked(ranks, group.members.as_slice())
    } else {
        is_any_ranked(ranks, group.members.as_slice())
    }
}

/// The members that have no rank.
fn unranked(alloc: Global, ranks: &Ranks, members: &[NodeId]) -> Result<Vec<NodeId>, AllocError>
    requires { All (λ m. m.0 < length ranks.now) members.now }
    ensures { IfOk result (λ nodes. nodes.items ≡ filter (λ m. not (ranked ranks.now m.0)) members.now) }
{
    let mut nodes = Vec::new(alloc);
    for m in members {
        if !is_ranked(ranks, *m) {
            nodes.push(*m)?;
        }
    }
    Ok(nodes)
}

/// The groups that the nodes with a rank don't satisfy, each with its members that have none.
fn missing_groups(alloc: Global, ranks: &Ranks, groups: &[Group]) -> Result<Vec<Group>, AllocError>
    requires { All (λ group. All (λ m. m.0 < length ranks.now) group.members) groups.now }
    ensures { IfOk result (λ missing. missing.items ≡ map (λ g. record { all = g.all; members = filter (λ m. not (ranked ranks.now m.0)) g.members }) (filter (λ g. not (is_satisfied (ranked ranks.now) g)) groups.now)) }
{
    let mut missing = Vec::new(alloc);
    for group in groups {
        if !is_group_satisfied(ranks, group) {
            let members = unranked(alloc, ranks, group.members.as_slice())?;
            missing.push(Group {
                all: group.all,
                members: Items::from_vec(members),
            })?;
        }
    }
    Ok(missing)
}

/// Of the row's groups those that aren't satisfied, each with its members that have no rank.
pub fn missing_of(alloc: Global, ranks: &Ranks, row: &Row) -> Result<Vec<Group>, AllocError>
    requires { HasMembersBelow (length ranks.now) row.now }
    ensures { IfOk result (λ missing. missing.items ≡ missing_in (ranked ranks.now) (Some row.now)) }
{
    missing_groups(alloc, ranks, row.groups.as_slice())
}
