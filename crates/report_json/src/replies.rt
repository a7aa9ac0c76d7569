//! The object of every reply.
ghost use Rattle.std.specs.Prelude.{◌≡◌, OnOk};
ghost use Rattle.game_types.specs.Sound.{IsSound};
ghost use Rattle.serde_json.specs.View.{members_view};
ghost use Rattle.report_json.specs.Replies.{with_reply};

use crate::plans::put_solved;
use crate::questions::{
    put_listed, put_mask, put_milestones, put_missing, put_reach, put_summary, put_why,
};
use crate::rates::put_rate;
use crate::refusals::put_refused;
use crate::values::put_kind;
use catalog_members::Members;
use game_types::Game;
use plan_base::NoMemory;
use plan_lines::Reply;
use std::alloc::Global;

/// Puts all members of a reply.
#[tactic(auto, unfolding(crate::specs::Replies::with_reply))]
pub fn put_reply(
    members: &mut Members,
    alloc: Global,
    game: &Game,
    reply: &Reply,
) -> Result<(), NoMemory>
    requires { IsSound game.now }
    ensures { OnOk result (members_view members.new.entries ≡ with_reply game.now reply.now (members_view members.old.entries)) }
{
    match reply {
        Reply::Ok => put_kind(members, alloc, "ok"),
        Reply::Nothing => put_kind(members, alloc, "nothing"),
        Reply::Held => put_kind(members, alloc, "held"),
        Reply::Reach { node, rank } => put_reach(members, alloc, game, *node, *rank),
        Reply::List { kind, nodes } => put_listed(members, alloc, game, *kind, nodes.as_slice()),
        Reply::Why { node, nodes } => put_why(members, alloc, game, *node, nodes.as_slice()),
        Reply::Missing {
            node,
            reached,
            forbidden,
            groups,
        } => put_missing(
            members,
            alloc,
            game,
            *node,
            *reached,
            *forbidden,
            groups.as_slice(),
        ),
        Reply::Mask {
            node,
            reached,
            milestones,
        } => put_mask(members, alloc, game, *node, *reached, milestones.as_slice()),
        Reply::Milestones(nodes) => put_milestones(members, alloc, game, nodes.as_slice()),
        Reply::Summary {
            reached,
            nodes,
            milestones,
            bits,
            tables,
            done,
            undone,
        } => put_summary(
            members,
            alloc,
            *reached,
            *nodes,
            *milestones,
            *bits,
            *tables,
            *done,
            *undone,
        ),
        Reply::Rate {
            table,
            label,
            effects,
            rates,
            beacons,
        } => put_rate(
            members,
            alloc,
            table.as_str(),
            label.as_str(),
            effects,
            rates,
            beacons,
        ),
        Reply::Solved {
            table,
            labels,
            goods,
            columns,
            rows,
            total,
            answer,
        } => put_solved(
            members,
            alloc,
            game,
            table.as_str(),
            labels.as_slice(),
            goods.as_slice(),
            columns.as_slice(),
            rows.as_slice(),
            total,
            answer,
        ),
        Reply::Refused { code, detail, at } => {
            put_refused(members, alloc, game, *code, detail, *at)
        }
    }
}
