//! A plan as tables and a drawing.
ghost use Rattle.game_types.specs.Sound.{IsSound};

use crate::builds::{Builds, push_builds};
use crate::entries::Site;
use crate::goods::{push_goods, push_prices};
use fractions::Ratio;
use page_parts::Done;
use page_rows::{Piece, is_whole, put, rows_text, total_text};
use plan_base::GoodId;
use plan_charts::{Chart, Shown, push_drawing};
use std::alloc::Global;

// What stands before and behind the lines of each table.
const ROWS: &str =
    "<h3>rows</h3>\n<div class=\"wide\"><table class=\"rows\"><thead><tr><th>row</th><th>does</th><th>by</th><th>crafts<span class=\"s\">/s</span><span class=\"m\">/min</span></th><th>machines</th><th>to build</th><th>power</th><th>drain</th><th>beacons</th><th>pollution/min</th></tr></thead><tbody>\n";

const ROWS_TOTAL: &str = "</tbody><tfoot>";

const ROWS_END: &str = "</tfoot></table></div>\n";

const BUILDS: &str =
    "<h3>to build</h3>\n<div class=\"wide\"><table class=\"builds\"><thead><tr><th>machine or module</th><th>to build</th></tr></thead><tbody>\n";

const GOODS: &str =
    "<h3>goods</h3>\n<div class=\"wide\"><table class=\"goods\"><thead><tr><th>good</th><th>in all<span class=\"s\">/s</span><span class=\"m\">/min</span></th><th>wanted</th><th>import</th><th>surplus</th><th title=\"belts that carry 15 items a second\">belts of 15/s</th><th>price</th></tr></thead><tbody>\n";

const TABLE_END: &str = "</tbody></table></div>\n";

// What is written below the head of a table that has no plan.
const NO_PLAN: &str =
    "</small></summary>\n<p>By these prices no row gains, and what is wanted is worth something: so there is no plan.</p>\n<div class=\"wide\"><table class=\"goods\"><thead><tr><th>good</th><th>price</th></tr></thead><tbody>\n";

fn push_plain(alloc: Global, out: &mut String, text: &str) -> Done {
    put(alloc, out, &[Piece::Text(text)])
}

// A line for each row, and what they take together.
fn push_rows(alloc: Global, out: &mut String, line: u32, shown: &Shown<'_>) -> Done
    requires { IsSound shown.now.game.now }
{
    let rows = rows_text(
        alloc,
        shown.game,
        line,
        shown.table.rows.as_slice(),
        shown.plan.rates.as_slice(),
        shown.rows,
    )?;
    push_plain(alloc, out, ROWS)?;
    push_plain(alloc, out, rows.as_str())?;
    push_plain(alloc, out, ROWS_TOTAL)?;
    let total = total_text(alloc, shown.total)?;
    push_plain(alloc, out, total.as_str())?;
    push_plain(alloc, out, ROWS_END)
}

// What is to be built.
fn push_all_builds(alloc: Global, out: &mut String, shown: &Shown<'_>) -> Done
    requires { IsSound shown.now.game.now }
{
    let mut builds = Builds::new(alloc);
    builds.add_rows(shown.game, shown.table.rows.as_slice(), shown.rows)?;
    push_plain(alloc, out, BUILDS)?;
    push_builds(alloc, out, shown.game, &builds)?;
    push_plain(alloc, out, TABLE_END)
}

fn push_all_goods(alloc: Global, out: &mut String, shown: &Shown<'_>) -> Done
    requires { IsSound shown.now.game.now }
{
    push_plain(alloc, out, GOODS)?;
    push_goods(alloc, out, shown)?;
    push_plain(alloc, out, TABLE_END)
}

fn push_picture(alloc: Global, out: &mut String, line: u32, shown: &Shown<'_>) -> Done
    requires { IsSound shown.now.game.now }
{
    let mut chart = Chart::new(alloc);
    chart.show(alloc, shown)?;
    push_drawing(alloc, out, line, shown.table.name.as_str(), &chart)
}

// A number beside a word: where it isn't whole a decimal, with the fraction as its title.
fn push_cost(alloc: Global, out: &mut String, cost: &Ratio) -> Done {
    let shown = if is_whole(cost) {
        Piece::Exact(cost)
    } else {
        Piece::Near(cost)
    };
    put(
        alloc,
        out,
        &[
            Piece::Text("<span title=\""),
            Piece::Exact(cost),
            Piece::Text("\">costs "),
            shown,
            Piece::Text("</span>"),
        ],
    )
}

// The head of a plan.
fn push_plan_head(alloc: Global, out: &mut String, line: u32, shown: &Shown<'_>) -> Done {
    put(
        alloc,
        out,
        &[
            Piece::Text("<details open class=\"plan\" id=\"line"),
            Piece::Count(line as u64),
            Piece::Text("\"><summary><h2>"),
            Piece::Name(shown.table.name.as_str()),
            Piece::Text("</h2> "),
        ],
    )?;
    push_cost(alloc, out, &shown.plan.cost)?;
    put(
        alloc,
        out,
        &[
            Piece::Text(" <small>line "),
            Piece::Count(line as u64),
            Piece::Text("</small></summary>\n<div class=\"chart\" tabindex=\"0\">"),
        ],
    )
}

/// A plan: its drawing, its rows, what is to be built, and its goods with their prices.
pub fn push_plan(alloc: Global, out: &mut String, line: u32, shown: &Shown<'_>) -> Done
    requires { IsSound shown.now.game.now }
{
    push_plan_head(alloc, out, line, shown)?;
    push_picture(alloc, out, line, shown)?;
    push_plain(alloc, out, "</div>\n")?;
    push_rows(alloc, out, line, shown)?;
    push_all_builds(alloc, out, shown)?;
    push_all_goods(alloc, out, shown)?;
    push_plain(alloc, out, "</details>\n")
}

// The head of a table that has no plan.
fn push_failed(at: &Site<'_>, out: &mut String, table: &str) -> Done {
    put(
        at.alloc,
        out,
        &[
            Piece::Text("<details class=\"plan\" id=\"line"),
            Piece::Count(at.line as u64),
            Piece::Text("\"><summary><h2>"),
            Piece::Name(table),
            Piece::Text("</h2> <span class=\"bad\">no plan</span> <small>line "),
            Piece::Count(at.line as u64),
            Piece::Text(NO_PLAN),
        ],
    )
}

/// That a table has no plan, and the prices that show it.
pub fn push_infeasible(
    at: &Site<'_>,
    out: &mut String,
    table: &str,
    goods: &[GoodId],
    prices: &[Ratio],
) -> Done
    requires { IsSound at.now.game.now }
{
    push_failed(at, out, table)?;
    push_prices(at.alloc, out, at.game, goods, prices)?;
    push_plain(at.alloc, out, "</tbody></table></div></details>\n")
}
