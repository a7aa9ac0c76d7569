//! Edits applied and taken back.
ghost use Rattle.std.specs.Prelude.{◌≡◌, IfOk, OnErr, OnOk};
ghost use Rattle.data_edit.specs.Books.{IsSoundBook};
ghost use Rattle.data_edit.specs.Edits.{Edits, effect, restored};

use crate::exchanges::exchange;
use crate::replacements::replacement;
use crate::{Book, Edit, EditFault, Inverse};
use plan_base::{Denied, NoMemory};
use std::alloc::Global;

/// Applies an edit, and answers what takes it back.
///
/// A set amount stands at the place of the first entry of its good, or at the end, and every other entry of that good
/// goes. A book that was sound stays so.
///
/// # Errors
///
/// The first of these that holds: `Unknown` where an id isn't below its count, `NotPositive` where an amount or a time
/// isn't positive, `NoChange` where the book would be as before, `Limit` where a list would be longer than 1,024. Or
/// `NoMemory` where memory could not be had. The book is then as before.
#[tactic(auto, unfolding(crate::specs::Edits::effect))]
pub fn apply_edit(alloc: Global, book: &mut Book, edit: &Edit) -> Result<Inverse, Denied<EditFault>>
    requires { IsSoundBook book.old }
    ensures effect { Edits (effect edit.now book.old) result book.new }
    ensures err { OnErr result (book.new ≡ book.old) }
    ensures back { IfOk result (λ inverse. restored inverse book.new ≡ book.old) }
    ensures sound { IsSoundBook book.new }
{
    let part = replacement(alloc, book, edit)?;
    Ok(exchange(alloc, book, part))
}

/// Puts the part of the book that an inverse holds back in its place: the book before the edit, where the book is as the
/// edit left it.
///
/// # Errors
///
/// `NoMemory` where memory could not be had. The book is then as before.
pub fn restore(alloc: Global, book: &mut Book, inverse: &Inverse) -> Result<(), NoMemory>
    ensures ok { OnOk result (book.new ≡ restored inverse.now book.old) }
    ensures err { OnErr result (book.new ≡ book.old) }
    ensures sound { (before : Book) → IsSoundBook before → restored inverse.now book.old ≡ before → OnOk result (IsSoundBook book.new) }
{
    let part = inverse.copy(alloc)?;
    let _ = exchange(alloc, book, part);
    Ok(())
}
