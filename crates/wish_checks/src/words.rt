//! The words that lines are put together from.
ghost use Rattle.game_types.specs.Sound.{IsSound};

use crate::names::{activity_text, good_text, machine_text};
use fractions::Ratio;
use game_types::{Activity, Game};
use plan_base::{EntityId, GoodId, NoMemory};
use plan_report::printed_word;
use std::alloc::Global;

/// What is written to a text in memory, or that none could be had.
pub type Done = Result<(), NoMemory>;

/// Writes words behind one another.
pub fn push(text: &mut String, words: &[&str]) -> Done {
    for word in words {
        text.push_str(word)?;
    }
    Ok(())
}

/// Writes a whole number behind a space.
pub fn push_count(text: &mut String, count: u32) -> Done {
    write!(text, " {count}")?;
    Ok(())
}

/// Writes a good.
pub fn push_good(alloc: Global, game: &Game, good: GoodId, text: &mut String) -> Done
    requires { IsSound game.now }
{
    let good = good_text(alloc, game, good)?;
    push(text, &[good.as_str()])
}

/// Writes a machine.
pub fn push_machine(alloc: Global, game: &Game, machine: EntityId, text: &mut String) -> Done {
    let machine = machine_text(alloc, game, machine)?;
    push(text, &[machine.as_str()])
}

/// Writes what a row does.
pub fn push_activity(alloc: Global, game: &Game, activity: Activity, text: &mut String) -> Done
    requires { IsSound game.now }
{
    let activity = activity_text(alloc, game, activity)?;
    push(text, &[activity.as_str()])
}

/// Writes a word, quoted where it must be.
pub fn push_word(alloc: Global, word: &str, text: &mut String) -> Done {
    let word = printed_word(alloc, word)?;
    push(text, &[word.as_str()])
}

/// Writes a number.
pub fn push_number(alloc: Global, number: &Ratio, text: &mut String) -> Done {
    let number = number.print(alloc)?;
    push(text, &[number.as_str()])
}
