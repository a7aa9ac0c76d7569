//! Entries of the page, each under the words of its line of the script: one line, or what can be folded.
use game_types::Game;
use page_parts::Done;
use page_rows::{Piece, put};
use std::alloc::Global;

/// A line of the script, and the game that its names are of.
#[derive(Drop)]
pub struct Site<'a> {
    pub alloc: Global,
    pub game: &'a Game,
    pub line: u32,
    pub words: &'a str,
}

/// A text of this program.
pub fn push_plain(at: &Site<'_>, out: &mut String, text: &str) -> Done {
    put(at.alloc, out, &[Piece::Text(text)])
}

/// The head of an entry that can be folded.
pub fn push_summary(at: &Site<'_>, out: &mut String, count: usize) -> Done {
    put(
        at.alloc,
        out,
        &[
            Piece::Text("<details data-f><summary><code>"),
            Piece::Name(at.words),
            Piece::Text("</code> <b>"),
            Piece::Count(count as u64),
            Piece::Text("</b> <small>line "),
            Piece::Count(at.line as u64),
            Piece::Text("</small></summary>"),
        ],
    )
}

/// The head of an entry that can be folded, and of a table of nodes in it.
pub fn push_table(at: &Site<'_>, out: &mut String, count: usize, heads: &str) -> Done {
    push_summary(at, out, count)?;
    put(
        at.alloc,
        out,
        &[
            Piece::Text("<div class=\"wide\"><table class=\"list\"><thead><tr>"),
            Piece::Text(heads),
            Piece::Text("</tr></thead><tbody>\n"),
        ],
    )
}

/// The end of a table of nodes, and of its entry.
pub fn push_table_end(at: &Site<'_>, out: &mut String) -> Done {
    push_plain(at, out, "</tbody></table></div></details>\n")
}

/// An entry of one line.
pub fn push_entry(at: &Site<'_>, out: &mut String, answer: &[Piece<'_>]) -> Done {
    put(
        at.alloc,
        out,
        &[
            Piece::Text("<p data-f><code>"),
            Piece::Name(at.words),
            Piece::Text("</code> <span>"),
        ],
    )?;
    put(at.alloc, out, answer)?;
    put(
        at.alloc,
        out,
        &[
            Piece::Text("</span> <small>line "),
            Piece::Count(at.line as u64),
            Piece::Text("</small></p>\n"),
        ],
    )
}

/// An entry of one line, whose answer is a text of others.
pub fn push_line(at: &Site<'_>, out: &mut String, answer: &str) -> Done {
    push_entry(at, out, &[Piece::Name(answer)])
}
