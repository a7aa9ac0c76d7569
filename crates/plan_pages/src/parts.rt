//! The parts of a page in the making, each with how many entries it has.
use page_parts::Done;
use page_rows::{Piece, put};
use std::alloc::Global;

/// A part of the page in the making, and how many entries it has.
#[derive(Drop)]
pub struct Part {
    pub text: String,
    pub count: u32,
}

impl Part {
    /// A part with no entry.
    pub fn new(alloc: Global) -> Part {
        Part {
            text: String::new(alloc),
            count: 0,
        }
    }

    /// The text, to which one more entry is written.
    pub fn next(&mut self) -> &mut String {
        self.count = self.count.saturating_add(1);
        &mut self.text
    }
}

/// A part of the page that can be folded, where there is something in it.
pub fn push_part<'a>(alloc: Global, out: &mut String, name: &'a str, part: &'a Part) -> Done {
    if part.count == 0 {
        return Ok(());
    }
    put(
        alloc,
        out,
        &[
            Piece::Text("<details open class=\"part\"><summary><h2>"),
            Piece::Text(name),
            Piece::Text("</h2> <span>"),
            Piece::Count(part.count as u64),
            Piece::Text("</span></summary>\n"),
            Piece::Text(part.text.as_str()),
            Piece::Text("</details>\n"),
        ],
    )
}
