//! A game with its marks.
ghost use Rattle.std.specs.Prelude.{◌≡◌, IfOk, false, replicate};
ghost use Rattle.plan_base.specs.Shape.{node_count};
ghost use Rattle.game_types.specs.Nodes.{shape_of};
ghost use Rattle.game_types.specs.Sound.{IsSound};
ghost use Rattle.data_edit.specs.Books.{IsSoundBook};

use game_types::Game;
use plan_base::{Items, NoMemory};
use std::alloc::Global;

/// A game, and which of its nodes are barred and which are granted. Both lists are as long as the list of nodes.
#[derive(Drop)]
pub struct Book {
    pub game: Game,
    pub barred: Items<bool>,
    pub granted: Items<bool>,
}

// Marks of which none is set: of the nodes that are barred, and of those that are granted.
fn no_marks(alloc: Global, game: &Game) -> Result<(Items<bool>, Items<bool>), NoMemory>
    requires { IsSound game.now }
    ensures { IfOk result (λ marks. marks ≡ (replicate (node_count (shape_of game.now)) false, replicate (node_count (shape_of game.now)) false)) }
{
    let count = game.shape().len() as usize;
    let barred = vec![in alloc; false; count]?;
    let granted = vec![in alloc; false; count]?;
    Ok((Items::from_vec(barred), Items::from_vec(granted)))
}

impl Book {
    /// The book of a game, with no marks.
    ///
    /// # Errors
    ///
    /// `NoMemory` where memory could not be had.
    pub fn make(alloc: Global, game: Game) -> Result<Book, NoMemory>
        requires { IsSound game }
        ensures sound { IfOk result IsSoundBook }
        ensures book { IfOk result (λ book. book ≡ record { game = game; barred = replicate (node_count (shape_of game)) false; granted = replicate (node_count (shape_of game)) false }) }
    {
        let (barred, granted) = no_marks(alloc, &game)?;
        Ok(Book {
            game,
            barred,
            granted,
        })
    }
}
