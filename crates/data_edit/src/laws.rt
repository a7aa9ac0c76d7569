//! What the effect of an edit is.
ghost use Rattle.std.specs.Prelude.{◌≡◌, Ok};
ghost use Rattle.data_edit.specs.CarriedOut.{Accepts, RefusesNoChange, carried_out};
ghost use Rattle.data_edit.specs.Edits.{effect, restored};
ghost use Rattle.data_edit.specs.Names.{KeepsGame, KeepsNames};

use crate::{Book, Edit, Inverse};

/// An accepted edit does what it says, and the book is another than before. An edit that is refused for changing nothing
/// would leave the book as it is.
pub fn effects_are_changes()
    ensures accepted { (edit : Edit) (book : Book) → Accepts (effect edit book) (carried_out edit book) book }
    ensures no_change { (edit : Edit) (book : Book) → RefusesNoChange (effect edit book) (carried_out edit book) book }
{}

/// No edit changes which things there are and how they are named, and no part that is put back does.
pub fn edits_keep_names()
    ensures edits { (edit : Edit) (book new : Book) → effect edit book ≡ Ok new → KeepsNames book.game new.game }
    ensures parts { (part : Inverse) (book : Book) → KeepsNames book.game (restored part book).game }
{}

/// No edit changes an item, a fluid, a source, a machine, the character or of which category a recipe is, and no part that is
/// put back does.
pub fn edits_keep_the_rest()
    ensures edits { (edit : Edit) (book new : Book) → effect edit book ≡ Ok new → KeepsGame book.game new.game }
    ensures parts { (part : Inverse) (book : Book) → KeepsGame book.game (restored part book).game }
{}
