//! Graphs and nodes by the words of a line.

ghost use Rattle.std.specs.Prelude.{◌<◌, None};

use graph_store::{Group, Row};
use plan_base::{Items, NodeId};
use std::alloc::{AllocError, Global};

/// The numbers among words.
pub(crate) fn nodes_in(alloc: Global, words: &str) -> Result<Vec<NodeId>, AllocError> {
    let mut nodes = Vec::new(alloc);
    for word in words.split(' ') {
        if let Ok(node) = word.parse() {
            nodes.push(NodeId(node))?;
        }
    }
    Ok(nodes)
}

/// The group that words tell: `all` or `any`, and the members.
fn group_in(alloc: Global, words: &str) -> Result<Group, AllocError> {
    let members = Items::from_vec(nodes_in(alloc, words)?);
    let all = words.contains("all");
    Ok(Group { all, members })
}

/// The row that words tell: its groups with commas between.
fn row_in(alloc: Global, words: &str) -> Result<Row, AllocError> {
    let mut groups = Vec::new(alloc);
    for part in words.split(',') {
        if part.len() > 1 {
            groups.push(group_in(alloc, part)?)?;
        }
    }
    Ok(Row {
        groups: Items::from_vec(groups),
    })
}

/// The rows that words tell, with semicolons between.
pub(crate) fn rows_in(alloc: Global, words: &str) -> Result<Vec<Row>, AllocError> {
    let mut rows = Vec::new(alloc);
    for part in words.split(';') {
        rows.push(row_in(alloc, part)?)?;
    }
    Ok(rows)
}

/// The word of a command and its node.
pub(crate) fn word_and_node(words: &str) -> Option<(&str, NodeId)> {
    let (word, node) = words.trim().split_once(' ')?;
    match node.parse() {
        Ok(node) => Some((word, NodeId(node))),
        Err(_) => None,
    }
}
