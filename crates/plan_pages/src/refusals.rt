//! Refusals, each with its meaning.
ghost use Rattle.game_types.specs.Sound.{IsSound};

use crate::entries::{Site, push_plain};
use crate::meanings::meaning;
use page_parts::Done;
use page_rows::{Piece, put};
use plan_base::NoMemory;
use plan_lines::{RefusalCode, Reply};
use plan_report::print_reply;
use std::alloc::Global;

// The letters of a code.
fn code_text(alloc: Global, code: RefusalCode) -> Result<String, NoMemory> {
    Ok(format!(in alloc; "{code:?}")?)
}

// The head of a refusal, with its meaning.
fn push_cause(at: &Site<'_>, out: &mut String, code: RefusalCode) -> Done {
    put(
        at.alloc,
        out,
        &[
            Piece::Text("<details data-f><summary><code>"),
            Piece::Name(at.words),
            Piece::Text("</code> <b class=\"bad\">"),
        ],
    )?;
    let letters = code_text(at.alloc, code)?;
    push_plain(at, out, letters.as_str())?;
    push_plain(at, out, ": ")?;
    push_plain(at, out, meaning(code))?;
    put(
        at.alloc,
        out,
        &[
            Piece::Text("</b> <small>line "),
            Piece::Count(at.line as u64),
            Piece::Text("</small></summary><pre>"),
        ],
    )
}

fn push_quoted(alloc: Global, out: &mut String, text: &str) -> Done {
    put(
        alloc,
        out,
        &[Piece::Name(text), Piece::Text("</pre></details>\n")],
    )
}

/// A refusal with its meaning, and the reply as it is printed elsewhere.
pub fn push_refusal(at: &Site<'_>, out: &mut String, code: RefusalCode, reply: &Reply) -> Done
    requires { IsSound at.now.game.now }
{
    push_cause(at, out, code)?;
    let text = print_reply(at.alloc, at.line, reply, at.game)?;
    push_quoted(at.alloc, out, text.as_str())
}
