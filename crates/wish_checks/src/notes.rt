//! The comments in the lines of a table.
ghost use Rattle.game_types.specs.Sound.{IsSound};

use crate::names::good_text;
use crate::words::push;
use fractions::Ratio;
use game_types::Game;
use plan_base::{GoodId, NoMemory};
use std::alloc::Global;

/// What is told beside the lines of a table.
#[derive(Clone, Copy)]
pub struct Notes<'a> {
    /// The goods that could be made and are imported at an estimate of what one unit takes, with that price.
    pub rim: &'a [(GoodId, Ratio)],
    /// The watts that whole machines and their beacons draw by the plan, where the table makes its electric power.
    pub draw: Option<Ratio>,
    /// The words of the program that go before those that ask for more rows.
    pub command: &'a str,
}

// What stands between the good and the words of the program in the comment on an import.
const ESTIMATED: &str = " comes in at an estimate of what one takes; its rows: ";

// What stands before the good and before the table behind those words.
const ROWS_FOR: &str = " --rows-for ";

const INTO: &str = " --into ";

// Whether a good is imported at the price of its estimate.
fn is_estimated(rim: &[(GoodId, Ratio)], good: GoodId, price: &Ratio) -> bool {
    rim.iter()
        .any(|pair| pair.0.0 == good.0 && pair.1 == *price)
}

/// Writes the comment before the line that imports a good into a table, whose name is given as it is printed: that its price is an
/// estimate, where it is one, and how rows for it are had.
pub fn push_import_note(
    alloc: Global,
    game: &Game,
    table: &str,
    import: &(GoodId, Ratio),
    notes: &Notes<'_>,
    text: &mut String,
) -> Result<(), NoMemory>
    requires { IsSound game.now }
{
    if !is_estimated(notes.rim, import.0, &import.1) {
        return Ok(());
    }
    let good = good_text(alloc, game, import.0)?;
    push(text, &["# ", good.as_str(), ESTIMATED, notes.command])?;
    push(text, &[ROWS_FOR, good.as_str(), INTO, table, "\n"])
}

/// The good, as it is printed, of which a line of a script is the comment that it comes into a table, whose name is given as it is printed, at an
/// estimate.
pub fn noted_good<'a>(line: &'a str, table: &str) -> Option<&'a str> {
    let (good, behind) = line.strip_prefix("# ")?.split_once(ESTIMATED)?;
    let before = behind.strip_suffix(table)?.strip_suffix(INTO)?;
    if before.strip_suffix(good)?.ends_with(ROWS_FOR) {
        Some(good)
    } else {
        None
    }
}

/// Writes the comment that tells what whole machines draw, where the table makes its electric power.
pub fn push_draw_note(alloc: Global, notes: &Notes<'_>, text: &mut String) -> Result<(), NoMemory> {
    let Some(draw) = notes.draw else {
        return Ok(());
    };
    let watts = draw.ceil().print(alloc)?;
    push(
        text,
        &[
            "# whole machines draw ",
            watts.as_str(),
            " watts by the plan\n",
        ],
    )
}
