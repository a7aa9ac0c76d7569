//! The marks under which nodes are reached.
ghost use Rattle.std.specs.Prelude.{◌≡◌, ◌<◌, ◌||◌, false, length, slice_index_or};
ghost use Rattle.reach_ranks.specs.Rounds.{is_node};

use plan_base::NodeId;

/// Which nodes are barred and which are granted.
#[derive(Clone, Copy)]
pub struct Marks<'a> {
    pub barred: &'a [bool],
    pub granted: &'a [bool],
}

/// Which nodes are barred and which are granted in one world, and the node that is barred in it as well.
#[derive(Clone, Copy)]
pub struct WorldMarks<'a> {
    pub barred: &'a [bool],
    pub granted: &'a [bool],
    pub extra: Option<NodeId>,
}

/// Whether this is the node.
pub fn is_node(extra: Option<NodeId>, node: NodeId) -> bool
    ensures { result ≡ is_node extra node.0 }
{
    match extra {
        Some(other) => other.0 == node.0,
        None => false,
    }
}

/// Whether the node is barred, by its mark or as the extra one.
pub fn is_barred(marks: WorldMarks<'_>, node: NodeId) -> bool
    requires { node.0 < length marks.barred.now }
    ensures { result ≡ (slice_index_or marks.entry.barred.now node.0 false || is_node marks.entry.extra node.0) }
{
    marks.barred[node.0 as usize] | is_node(marks.extra, node)
}
