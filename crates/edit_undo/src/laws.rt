//! Laws of histories, for whatever is edited.
ghost use Rattle.std.specs.Prelude.{◌≡◌, ◌<◌, List, Ok, length};
ghost use Rattle.edit_undo.specs.Edits.{apply_edits};
ghost use Rattle.edit_undo.specs.Session.{Session, active_edits, redo_of, undo_of, with_entry};
ghost use Rattle.edit_undo.specs.Kept.{Kept, nothing, session_of, IsHistoryOf};

use crate::Editable;

/// A history in which nothing was done is that of the base itself. As each call keeps it the history of its target, the
/// state after any calls is the base with the active edits applied, and moments that have the same entries done have the
/// same state: so undo restores every part of the state before, and redo that after.
pub fn state_is_of_the_active_edits<L, D, I, E: Editable<L, Edit = D, Inverse = I>>()
    ensures first { (base : E.State) → IsHistoryOf E.effect E.takes E.leads_back (nothing {D = D} {I = I}) base base }
    ensures active { (kept : Kept D I) (base state : E.State) → IsHistoryOf E.effect E.takes E.leads_back kept base state → apply_edits E.effect base (active_edits (session_of kept)) ≡ Ok state }
    ensures same { (kept other : Kept D I) (base state changed : E.State) → IsHistoryOf E.effect E.takes E.leads_back kept base state → IsHistoryOf E.effect E.takes E.leads_back other base changed → (session_of kept).done ≡ (session_of other).done → state ≡ changed }
{}

/// Undo behind an entry leaves what was done before it. Redo behind undo leaves the whole session as it was.
pub fn undo_and_redo_lead_back<D>()
    ensures undone { (session : Session D) (entry : List D) → (undo_of (with_entry session entry)).done ≡ session.done }
    ensures redone { (session : Session D) → 0 < length session.done → redo_of (undo_of session) ≡ session }
{}
