//! Names of a game that are like a word which names nothing.
ghost use Rattle.game_types.specs.Sound.{IsSound};

use game_types::Game;
use line_causes::nearest;
use plan_base::{Kind, NoMemory, Text};
use std::alloc::Global;
use wish_checks::names_of;

/// A name that is like a word, with its kind, and how many edits lead from the word to it.
#[derive(Drop)]
pub struct Like {
    pub kind: Kind,
    pub name: Text,
    pub edits: usize,
}

// The name of a kind that is nearest to a word, where one is near.
fn nearest_of(alloc: Global, game: &Game, kind: Kind, word: &str) -> Result<Option<Like>, NoMemory>
    requires { IsSound game.now }
{
    let names = names_of(alloc, game, kind)?;
    let Some(like) = nearest(alloc, word, names.as_slice())? else {
        return Ok(None);
    };
    match names.as_slice().get(like.place) {
        Some(name) if like.is_near(word) => Ok(Some(Like {
            kind,
            name: Text::copy(alloc, name.as_str())?,
            edits: like.edits,
        })),
        _ => Ok(None),
    }
}

// The nearer of two names, the first where both are as near.
fn nearer(best: Option<Like>, other: Option<Like>) -> Option<Like> {
    match (best, other) {
        (Some(best), Some(other)) => {
            if other.edits < best.edits {
                Some(other)
            } else {
                Some(best)
            }
        }
        (Some(best), None) => Some(best),
        (None, other) => other,
    }
}

/// The name of one of these kinds that is nearest to a name, where one is near.
///
/// # Errors
///
/// `NoMemory` where memory could not be had.
pub fn nearest_object(
    alloc: Global,
    game: &Game,
    kinds: &[Kind],
    name: &str,
) -> Result<Option<Like>, NoMemory>
    requires { IsSound game.now }
{
    let mut best = None;
    for kind in kinds {
        let other = nearest_of(alloc, game, *kind, name)?;
        best = nearer(best, other);
    }
    Ok(best)
}
