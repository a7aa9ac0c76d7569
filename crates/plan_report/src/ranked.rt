// The lines of nodes with their ranks.
ghost use Rattle.std.specs.Prelude.{◌≡◌, ◌++◌, IfOk, IfSome, OnOk, codes, map, string_bytes};
ghost use Rattle.game_types.specs.Sound.{IsSound};
ghost use Rattle.plan_report.specs.Layout.{further_line, further_text};
ghost use Rattle.plan_report.specs.LineStarts.{line_start, line_starts};
ghost use Rattle.plan_report.specs.Questions.{ranked_line, why_line};
ghost use Rattle.plan_report.specs.RankWords.{rank_words, AreRankWords};

use crate::LineStarts;
use crate::ahead::room_of_lines;
use crate::nodes::push_line_start;
use game_types::Game;
use plan_base::{NoMemory, NodeId};
use std::alloc::{AllocError, Global};

/// How many lines are written together, so that their starts are on their way from memory at the same time.
const BLOCK: usize = 256;

/// About the room that a line takes.
const LINE: usize = 40;

// The words that say a rank, and the end of their line. Nodes mostly come in the order of their ranks, and so many lines say the same.
#[derive(Drop)]
struct RankWords {
    rank: u32,
    text: String,
}

// Puts the words of a rank and the end of their line behind a text.
fn push_rank(text: &mut String, rank: u32, end: &str) -> Result<(), AllocError>
    ensures { OnOk result (string_bytes text.new ≡ string_bytes text.old ++ rank_words rank end.now) }
{
    write!(text, " rank {rank}{end}")
}

impl RankWords {
    // The words of this rank.
    fn new(alloc: Global, rank: u32) -> Result<RankWords, NoMemory>
        ensures { IfOk result (AreRankWords rank) }
    {
        let mut text = String::new(alloc);
        push_rank(&mut text, rank, "\n")?;
        Ok(RankWords { rank, text })
    }

    // Makes them those of another rank, where they aren't that yet.
    fn turn_to(&mut self, rank: u32) -> Result<(), NoMemory>
        requires { AreRankWords self.old.rank self.old }
        ensures { OnOk result (AreRankWords rank self.new) }
    {
        if self.rank != rank {
            self.text.clear();
            push_rank(&mut self.text, rank, "\n")?;
            self.rank = rank;
        }
        Ok(())
    }
}

// Puts the start of the line of a node behind a text, from the starts where it is one of them.
#[tactic(auto, using(crate::proofs::LineLemmas::start_at))]
fn push_start(
    alloc: Global,
    text: &mut String,
    game: &Game,
    starts: Option<&LineStarts>,
    node: NodeId,
) -> Result<(), AllocError>
    requires game { IsSound game.now }
    requires starts { IfSome starts (λ starts. starts.now ≡ line_starts game.now) }
    ensures { OnOk result (string_bytes text.new ≡ string_bytes text.old ++ line_start game.now node.0) }
{
    if let Some(starts) = starts {
        if let Some(start) = starts.get(node) {
            return text.push_str(start);
        }
    }
    push_line_start(alloc, text, game, node)
}

#[tactic(auto, using(crate::proofs::LineLemmas::ranked_behind, crate::proofs::LineLemmas::granted_behind))]
// Puts the line of a node behind a text. The words are those of the last line before it that wasn't granted, and become those of this.
fn push_line(
    alloc: Global,
    text: &mut String,
    game: &Game,
    starts: Option<&LineStarts>,
    words: &mut RankWords,
    node: NodeId,
    rank: u32,
    granted: bool,
) -> Result<(), NoMemory>
    requires game { IsSound game.now }
    requires starts { IfSome starts (λ starts. starts.now ≡ line_starts game.now) }
    requires words { AreRankWords words.old.rank words.old }
    ensures line { OnOk result (string_bytes text.new ≡ string_bytes text.old ++ further_line (why_line game.now (node, rank, granted))) }
    ensures words { OnOk result (AreRankWords words.new.rank words.new) }
{
    push_start(alloc, text, game, starts, node)?;
    if granted {
        push_rank(text, rank, " granted\n")?;
    } else {
        words.turn_to(rank)?;
        text.push_str(&words.text)?;
    }
    Ok(())
}

/// Puts a line for each node with its rank behind a text.
pub fn push_ranked_lines(
    alloc: Global,
    text: &mut String,
    game: &Game,
    starts: Option<&LineStarts>,
    nodes: &[(NodeId, u32)],
) -> Result<(), NoMemory>
    requires game { IsSound game.now }
    requires starts { IfSome starts (λ starts. starts.now ≡ line_starts game.now) }
    ensures { OnOk result (string_bytes text.new ≡ string_bytes text.old ++ further_text (map (ranked_line game.now) nodes.now)) }
{
    let mut words = RankWords::new(alloc, 0)?;
    for (node, rank) in nodes {
        push_line(alloc, text, game, starts, &mut words, *node, *rank, false)?;
    }
    Ok(())
}

// Puts a line for each node of a block behind a text.
fn push_why_block(
    alloc: Global,
    text: &mut String,
    game: &Game,
    starts: Option<&LineStarts>,
    words: &mut RankWords,
    nodes: &[(NodeId, u32, bool)],
) -> Result<(), NoMemory>
    requires game { IsSound game.now }
    requires starts { IfSome starts (λ starts. starts.now ≡ line_starts game.now) }
    requires words { AreRankWords words.old.rank words.old }
    ensures lines { OnOk result (string_bytes text.new ≡ string_bytes text.old ++ further_text (map (why_line game.now) nodes.now)) }
    ensures words { OnOk result (AreRankWords words.new.rank words.new) }
{
    for (node, rank, granted) in nodes {
        push_line(alloc, text, game, starts, words, *node, *rank, *granted)?;
    }
    Ok(())
}

/// Puts a line for each node that supports another behind a text.
pub fn push_why_lines(
    alloc: Global,
    text: &mut String,
    game: &Game,
    starts: Option<&LineStarts>,
    nodes: &[(NodeId, u32, bool)],
) -> Result<(), NoMemory>
    requires game { IsSound game.now }
    requires starts { IfSome starts (λ starts. starts.now ≡ line_starts game.now) }
    ensures { OnOk result (string_bytes text.new ≡ string_bytes text.old ++ further_text (map (why_line game.now) nodes.now)) }
{
    text.reserve(nodes.len().saturating_mul(LINE))?;
    let mut words = RankWords::new(alloc, 0)?;
    let mut rest = nodes;
    while !rest.is_empty() {
        let (block, behind) = rest.split_at(rest.len().min(BLOCK));
        text.reserve(room_of_lines(starts, block))?;
        push_why_block(alloc, text, game, starts, &mut words, block)?;
        rest = behind;
    }
    Ok(())
}
