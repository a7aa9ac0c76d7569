// The starts of the lines of nodes, kept as texts.
ghost use Rattle.std.specs.Prelude.{◌≡◌, ◌≤◌, IfNone, IfOk, IfSome, Some, length, slice_get};
ghost use Rattle.game_types.specs.Sound.{IsSound};
ghost use Rattle.plan_report.specs.LineStarts.{line_starts};

use crate::nodes::push_line_start;
use game_types::Game;
use plan_base::{NoMemory, NodeId};
use std::alloc::Global;
use std::marker::Model;

/// The start of the line of each node of a game, by number: two blanks, and the word of the node as it is printed.
///
/// The names of a game lie anywhere in memory, and whether a name stands between quotes is found byte by byte. These texts are made once, one
/// after another, so that the lines of many nodes are written in a fraction of the time.
#[derive(Drop)]
pub struct LineStarts {
    starts: Vec<String>,
}

impl Model for LineStarts {
    ghost use Rattle.std.specs.Prelude.{List, ℕ, map, string_bytes};

    ghost Value = { List (List ℕ) };

    ghost view = { λ s. map string_bytes s.starts.items };
}

impl LineStarts {
    /// The starts of the lines of all nodes of a game.
    ///
    /// # Errors
    ///
    /// `NoMemory` where memory could not be had.
    pub fn make(alloc: Global, game: &Game) -> Result<LineStarts, NoMemory>
        requires { IsSound game.now }
        ensures { IfOk result (λ starts. starts ≡ line_starts game.now) }
    {
        let count = game.shape().len();
        let mut starts = Vec::with_capacity(alloc, count as usize)?;
        let mut line = String::new(alloc);
        for number in 0..count {
            line.clear();
            push_line_start(alloc, &mut line, game, NodeId(number))?;
            starts.push(String::from_str(alloc, &line)?)?;
        }
        Ok(LineStarts { starts })
    }

    /// The start of the line of a node; none past the last.
    pub fn get(&self, node: NodeId) -> Option<&str>
        ensures start { IfSome result (λ start. slice_get self.now node.0 ≡ Some start.now) }
        ensures end { IfNone result (length self.now ≤ node.0) }
    {
        match self.starts.get(node.0 as usize) {
            Some(start) => Some(start.as_str()),
            None => None,
        }
    }
}
