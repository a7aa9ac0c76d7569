//! Lists of nodes, and the groups that they are the members of.
ghost use Rattle.std.specs.Prelude.{◌≡◌, ◌+◌, ◌++◌, ◌^◌, ◌<◌, ◌∷◌, [], IfOk};
ghost use Rattle.std.specs.List.{cons_option};
ghost use Rattle.depend_rows.specs.Members.{all_of, any_of, character_where, good_node, row_with};

use graph_store::{Group, Row};
use plan_base::{GoodId, Items, NoMemory, NodeId};
use std::alloc::Global;

/// The character, where it does something itself, and then machines.
pub fn with_character(
    alloc: Global,
    does: bool,
    machines: Vec<NodeId>,
) -> Result<Vec<NodeId>, NoMemory>
    ensures { IfOk result (λ nodes. nodes.items ≡ character_where does ++ machines.items) }
{
    if !does {
        return Ok(machines);
    }
    let mut nodes = Vec::new(alloc);
    nodes.push(NodeId::character())?;
    nodes.extend_from_slice(machines.as_slice())?;
    Ok(nodes)
}

/// All of these are needed.
pub fn all_of(members: Vec<NodeId>) -> Group
    ensures { result ≡ all_of members.items }
{
    Group {
        all: true,
        members: Items::from_vec(members),
    }
}

/// Any one of these is enough.
pub fn any_of(members: Vec<NodeId>) -> Group
    ensures { result ≡ any_of members.items }
{
    Group {
        all: false,
        members: Items::from_vec(members),
    }
}

/// One node is needed.
pub fn all_of_node(alloc: Global, node: NodeId) -> Result<Group, NoMemory>
    ensures { IfOk result (λ group. group ≡ all_of (node ∷ [])) }
{
    let mut members = Vec::new(alloc);
    members.push(node)?;
    Ok(all_of(members))
}

/// One good is needed.
pub fn all_of_good(alloc: Global, good: GoodId) -> Result<Group, NoMemory>
    requires { 3 + good.0 < 2 ^ 32 }
    ensures { IfOk result (λ group. group ≡ all_of (good_node good ∷ [])) }
{
    all_of_node(alloc, NodeId(3 + good.0))
}

/// A row of these groups.
pub fn row_with(groups: Vec<Group>) -> Row
    ensures { result ≡ row_with groups.items }
{
    Row {
        groups: Items::from_vec(groups),
    }
}

/// Puts one more at the end, where it is there.
pub fn put_found<T: Drop>(list: &mut Vec<T>, found: Option<T>) -> Result<(), NoMemory>
    ensures { IfOk result (λ done. list.new.items ≡ list.old.items ++ cons_option found []) }
{
    if let Some(value) = found {
        list.push(value)?;
    }
    Ok(())
}
