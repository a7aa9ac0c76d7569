//! The page of a script.
ghost use Rattle.game_types.specs.Sound.{IsSound};

use crate::answers::push_answer;
use crate::entries::Site;
use crate::parts::{Part, push_part};
use crate::pictures::{PageThing, note_plan, push_picture};
use crate::plans::{push_infeasible, push_plan};
use crate::refusals::push_refusal;
use crate::style::{HEAD, SCRIPT, STYLE, TOOLS};
use game_types::Game;
use linear_table::{Linear, SolveAnswer};
use page_parts::{Done, cut};
use page_rows::{Piece, Thing, put};
use plan_base::NoMemory;
use plan_charts::Shown;
use plan_lines::{RefusalCode, Reply};
use production_table::Table;
use std::alloc::Global;
use std::mem;

// The most letters of a line that are shown.
const WORDS: usize = 200;

/// A page in the making.
#[derive(Drop)]
pub struct Page {
    contents: String,
    plans: Part,
    answers: Part,
    refusals: Part,
    /// The things of its plans, each once.
    things: Vec<PageThing>,
    pictures: String,
}

impl Page {
    pub fn new(alloc: Global) -> Page {
        Page {
            contents: String::new(alloc),
            plans: Part::new(alloc),
            answers: Part::new(alloc),
            refusals: Part::new(alloc),
            things: Vec::new(alloc),
            pictures: String::new(alloc),
        }
    }

    /// Takes the things of the plans that came on it since this was called last, each once.
    pub fn take_things(&mut self, alloc: Global) -> Vec<PageThing> {
        mem::replace(&mut self.things, Vec::new(alloc))
    }

    /// The picture of a thing comes in: these bytes, of a PNG.
    ///
    /// # Errors
    ///
    /// `NoMemory` where memory could not be had.
    pub fn add_picture(
        &mut self,
        alloc: Global,
        thing: Thing,
        bytes: &[u8],
    ) -> Result<(), NoMemory> {
        push_picture(alloc, &mut self.pictures, thing, bytes)
    }

    // One more line of the contents.
    fn add_link(&mut self, at: &Site<'_>, table: &str) -> Done {
        put(
            at.alloc,
            &mut self.contents,
            &[
                Piece::Text("<a href=\"#line"),
                Piece::Count(at.line as u64),
                Piece::Text("\">"),
                Piece::Name(table),
                Piece::Text("</a> <small>line "),
                Piece::Count(at.line as u64),
                Piece::Text("</small>\n"),
            ],
        )
    }

    // What the solver says of a table that stood so.
    fn add_solved(
        &mut self,
        at: &Site<'_>,
        solved: Option<(&Table, &Linear)>,
        reply: &Reply,
    ) -> Done
        requires { IsSound at.now.game.now }
    {
        let Reply::Solved {
            table: name,
            goods,
            rows,
            total,
            answer,
            ..
        } = reply
        else {
            return Ok(());
        };
        match answer {
            SolveAnswer::Planned(plan) => {
                let Some((table, linear)) = solved else {
                    return Ok(());
                };
                self.add_link(at, name.as_str())?;
                let shown = Shown {
                    game: at.game,
                    table,
                    linear,
                    plan,
                    rows: rows.as_slice(),
                    total,
                };
                note_plan(at.alloc, &mut self.things, &shown)?;
                push_plan(at.alloc, self.plans.next(), at.line, &shown)
            }
            SolveAnswer::Infeasible(prices) => {
                self.add_link(at, name.as_str())?;
                push_infeasible(
                    at,
                    self.plans.next(),
                    name.as_str(),
                    goods.as_slice(),
                    prices.as_slice(),
                )
            }
            SolveAnswer::TooWide { .. } => {
                push_refusal(at, self.refusals.next(), RefusalCode::V1, reply)
            }
            SolveAnswer::OutOfBudget { .. } => {
                push_refusal(at, self.refusals.next(), RefusalCode::V2, reply)
            }
        }
    }

    /// One line of the script, its reply, and where it is a plan the table that it is of, with its linear form.
    ///
    /// # Errors
    ///
    /// `NoMemory` where memory could not be had.
    pub fn add(
        &mut self,
        alloc: Global,
        line: u32,
        words: &str,
        game: &Game,
        solved: Option<(&Table, &Linear)>,
        reply: &Reply,
    ) -> Result<(), NoMemory>
        requires { IsSound game.now }
    {
        let words = cut(alloc, words, WORDS)?;
        let at = Site {
            alloc,
            game,
            line,
            words: words.as_str(),
        };
        self.add_reply(&at, solved, reply)
    }

    fn add_reply(&mut self, at: &Site<'_>, solved: Option<(&Table, &Linear)>, reply: &Reply) -> Done
        requires { IsSound at.now.game.now }
    {
        match reply {
            Reply::Ok => Ok(()),
            Reply::Nothing => Ok(()),
            Reply::Held => Ok(()),
            Reply::Solved { .. } => self.add_solved(at, solved, reply),
            Reply::Refused { code, .. } => push_refusal(at, self.refusals.next(), *code, reply),
            _ => push_answer(at, self.answers.next(), reply),
        }
    }

    /// The page as one HTML text.
    ///
    /// # Errors
    ///
    /// `NoMemory` where memory could not be had.
    pub fn text(&self, alloc: Global) -> Result<String, NoMemory> {
        let mut out = String::new(alloc);
        self.push_whole(alloc, &mut out)?;
        Ok(out)
    }

    fn push_whole(&self, alloc: Global, out: &mut String) -> Done {
        self.push_front(alloc, out)?;
        self.push_pictures(alloc, out)?;
        put(
            alloc,
            out,
            &[
                Piece::Text("<main>\n"),
                Piece::Text(self.plans.text.as_str()),
            ],
        )?;
        push_part(alloc, out, "answers", &self.answers)?;
        push_part(alloc, out, "refusals", &self.refusals)?;
        put(
            alloc,
            out,
            &[
                Piece::Text("</main>\n<script>"),
                Piece::Text(SCRIPT),
                Piece::Text("</script>\n</body>\n</html>\n"),
            ],
        )
    }

    // Where there are pictures, things have a place for theirs.
    fn body_mark(&self) -> &'static str {
        if self.pictures.is_empty() {
            ""
        } else {
            " class=\"icons\""
        }
    }

    fn push_pictures(&self, alloc: Global, out: &mut String) -> Done {
        if self.pictures.is_empty() {
            return Ok(());
        }
        put(
            alloc,
            out,
            &[
                Piece::Text("<svg class=\"hold\" aria-hidden=\"true\">\n"),
                Piece::Text(self.pictures.as_str()),
                Piece::Text("</svg>\n"),
            ],
        )
    }

    // The head of the page, and the contents where there is a plan.
    fn push_front(&self, alloc: Global, out: &mut String) -> Done {
        put(
            alloc,
            out,
            &[
                Piece::Text(HEAD),
                Piece::Text("<style>"),
                Piece::Text(STYLE),
                Piece::Text("</style></head>\n<body"),
            ],
        )?;
        push_plain(alloc, out, self.body_mark())?;
        put(
            alloc,
            out,
            &[
                Piece::Text(">\n<header><h1>Plans</h1><p>plans "),
                Piece::Count(self.plans.count as u64),
                Piece::Text(" · answers "),
                Piece::Count(self.answers.count as u64),
                Piece::Text(" · refusals "),
                Piece::Count(self.refusals.count as u64),
                Piece::Text("</p>"),
                Piece::Text(TOOLS),
            ],
        )?;
        if self.plans.count == 0 {
            return Ok(());
        }
        put(
            alloc,
            out,
            &[
                Piece::Text("<nav>\n"),
                Piece::Text(self.contents.as_str()),
                Piece::Text("</nav>\n"),
            ],
        )
    }
}

fn push_plain(alloc: Global, out: &mut String, text: &str) -> Done {
    put(alloc, out, &[Piece::Text(text)])
}
