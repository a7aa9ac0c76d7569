//! The history of edits.
ghost use Rattle.std.specs.Prelude.{◌≡◌, ◌≢◌, Err, ℕ, ◌+◌, ◌<◌, ◌≤◌, ◌↔◌, ◌⊎◌, ◌∷◌, ◌++◌, [], IfErr, IfOk, IfSome, MatchOption, OnErr, OnOk, length, vec_len, vec_capacity};
ghost use Rattle.edit_undo.specs.Edits.{apply_edits, IsEntry};
ghost use Rattle.edit_undo.specs.Session.{all_but_last, last_of, redo_of, undo_of, with_entry};
ghost use Rattle.edit_undo.specs.Kept.{nothing, session_of, IsHistoryOf};
ghost use Rattle.edit_undo.specs.Answers.{IsFaultOfEdits, IsFaultOfRedo, IsFaultOfUndo};

use crate::{Editable, EntryFault};
use plan_base::{Items, Steps};
use std::alloc::Global;
use std::marker::Model;

/// Why a history did not move.
#[derive(Debug, PartialEq, Eq, Drop)]
pub enum DoFault<F> {
    /// The edit at this place, counted from 0, is refused at its turn.
    Refused(u32, F),
    /// No entry is done.
    NothingToUndo,
    /// No entry is undone.
    NothingToRedo,
    /// Memory could not be had.
    NoMemory,
}

/// What was done, with its inverses, and what was undone.
#[derive(Drop)]
pub struct History<D, I> {
    done: Vec<(Items<D>, Items<I>)>,
    undone: Vec<Items<D>>,
}

impl<D, I> Model for History<D, I> {
    ghost use Rattle.edit_undo.specs.Kept.{Kept, kept_code};

    ghost Value = { Kept D I };

    ghost coded = { kept_code D.code I.code };

    ghost view = { λ h. record { done = h.done.items; undone = h.undone.items } };
}

// Puts an item into the room that was reserved for it.
fn put<T: Drop>(list: &mut Vec<T>, item: T)
    requires { vec_len list.old < vec_capacity list.old }
    ensures { list.new.items ≡ list.old.items ++ item ∷ [] }
{
    match list.push(item) {
        Ok(()) => {}
        Err(_) => unreachable!(),
    }
}

impl<D: Drop, I: Drop> History<D, I> {
    /// A history in which nothing was done yet.
    pub fn make(alloc: Global) -> History<D, I>
        ensures { result ≡ nothing }
    {
        History {
            done: Vec::new(alloc),
            undone: Vec::new(alloc),
        }
    }

    /// Applies the edits to the target as one new entry, which is done from then on. Nothing is left to redo.
    ///
    /// # Errors
    ///
    /// `Refused` where an edit is refused at its turn. `NoMemory` where memory could not be had. Either leaves the history
    /// and the state of the target.
    pub fn doit<L, E: Editable<L, Edit = D, Inverse = I>>(
        &mut self,
        target: &mut E,
        edits: Vec<D>,
        steps: &mut Steps<L>,
    ) -> Result<(), DoFault<E::Fault>>
        requires { IsEntry E.takes edits.items }
        ensures accepted { OnOk result (apply_edits E.effect (E.state target.old) edits.items ≡ Ok (E.state target.new)) }
        ensures session { OnOk result (session_of self.new ≡ with_entry (session_of self.old) edits.items) }
        ensures fault { IfErr result (IsFaultOfEdits (apply_edits E.effect (E.state target.old) edits.items)) }
        ensures err { OnErr result ((self.new ≡ self.old) × (E.state target.new ≡ E.state target.old)) }
        ensures history { (base : E.State) → IsHistoryOf E.effect E.takes E.leads_back self.old base (E.state target.old) → IsHistoryOf E.effect E.takes E.leads_back self.new base (E.state target.new) }
        ensures work { OnOk result (steps.new ≤ steps.old + E.work (E.state target.old) edits.items (E.state target.new)) }
        ensures no_work { IfErr result (λ fault. fault ≢ DoFault.NoMemory → steps.new ≡ steps.old) }
        ensures later { steps.old ≤ steps.new }
    {
        let Ok(()) = self.done.reserve(1) else {
            return Err(DoFault::NoMemory);
        };
        match target.apply_all(edits.as_slice(), steps) {
            Ok(inverses) => {
                put(
                    &mut self.done,
                    (Items::from_vec(edits), Items::from_vec(inverses)),
                );
                self.undone.clear();
                Ok(())
            }
            Err(EntryFault::At(place, fault)) => Err(DoFault::Refused(place, fault)),
            Err(EntryFault::NoMemory) => Err(DoFault::NoMemory),
        }
    }

    /// Takes the last entry that is done back. It is the last of those that are undone from then on.
    ///
    /// # Errors
    ///
    /// `NothingToUndo` where no entry is done. `NoMemory` where memory could not be had. Either leaves the history and the
    /// state of the target.
    pub fn undo<L, E: Editable<L, Edit = D, Inverse = I>>(
        &mut self,
        target: &mut E,
        steps: &mut Steps<L>,
    ) -> Result<(), DoFault<E::Fault>>
        requires { (base : E.State) × IsHistoryOf E.effect E.takes E.leads_back self.old base (E.state target.old) }
        ensures session { OnOk result (session_of self.new ≡ undo_of (session_of self.old)) }
        ensures fault { IfErr result (IsFaultOfUndo (session_of self.old).done) }
        ensures nothing { (session_of self.old).done ≡ [] → result ≡ Err DoFault.NothingToUndo }
        ensures err { OnErr result ((self.new ≡ self.old) × (E.state target.new ≡ E.state target.old)) }
        ensures history { (base : E.State) → IsHistoryOf E.effect E.takes E.leads_back self.old base (E.state target.old) → IsHistoryOf E.effect E.takes E.leads_back self.new base (E.state target.new) }
        ensures work { OnOk result (steps.new ≤ steps.old + E.work (E.state target.old) (last_of (session_of self.old).done) (E.state target.new)) }
        ensures no_work { IfErr result (λ fault. fault ≢ DoFault.NoMemory → steps.new ≡ steps.old) }
        ensures later { steps.old ≤ steps.new }
    {
        let Some((entry, inverses)) = self.done.pop() else {
            return Err(DoFault::NothingToUndo);
        };
        if self.undone.reserve(1).is_err() {
            put(&mut self.done, (entry, inverses));
            return Err(DoFault::NoMemory);
        }
        match target.restore_all(entry.as_slice(), inverses.as_slice(), steps) {
            Ok(()) => {
                put(&mut self.undone, entry);
                Ok(())
            }
            Err(_) => {
                put(&mut self.done, (entry, inverses));
                Err(DoFault::NoMemory)
            }
        }
    }

    /// Does the last entry that is undone again. It is the last of those that are done from then on.
    ///
    /// # Errors
    ///
    /// `NothingToRedo` where no entry is undone. `NoMemory` where memory could not be had. Either leaves the history and
    /// the state of the target.
    pub fn redo<L, E: Editable<L, Edit = D, Inverse = I>>(
        &mut self,
        target: &mut E,
        steps: &mut Steps<L>,
    ) -> Result<(), DoFault<E::Fault>>
        requires { (base : E.State) × IsHistoryOf E.effect E.takes E.leads_back self.old base (E.state target.old) }
        ensures session { OnOk result (session_of self.new ≡ redo_of (session_of self.old)) }
        ensures fault { IfErr result (IsFaultOfRedo (session_of self.old).undone) }
        ensures nothing { (session_of self.old).undone ≡ [] → result ≡ Err DoFault.NothingToRedo }
        ensures err { OnErr result ((self.new ≡ self.old) × (E.state target.new ≡ E.state target.old)) }
        ensures history { (base : E.State) → IsHistoryOf E.effect E.takes E.leads_back self.old base (E.state target.old) → IsHistoryOf E.effect E.takes E.leads_back self.new base (E.state target.new) }
        ensures work { OnOk result (steps.new ≤ steps.old + E.work (E.state target.old) (last_of (session_of self.old).undone) (E.state target.new)) }
        ensures no_work { IfErr result (λ fault. fault ≢ DoFault.NoMemory → steps.new ≡ steps.old) }
        ensures later { steps.old ≤ steps.new }
    {
        let Some(edits) = self.undone.pop() else {
            return Err(DoFault::NothingToRedo);
        };
        if self.done.reserve(1).is_err() {
            put(&mut self.undone, edits);
            return Err(DoFault::NoMemory);
        }
        match target.apply_all(edits.as_slice(), steps) {
            Ok(inverses) => {
                put(&mut self.done, (edits, Items::from_vec(inverses)));
                Ok(())
            }
            Err(EntryFault::At(_, _)) => unreachable!(),
            Err(EntryFault::NoMemory) => {
                put(&mut self.undone, edits);
                Err(DoFault::NoMemory)
            }
        }
    }

    /// How many entries are done.
    pub fn done(&self) -> u64
        ensures { result ≡ length (session_of self.now).done }
    {
        self.done.len() as u64
    }

    /// How many entries are undone.
    pub fn undone(&self) -> u64
        ensures { result ≡ length (session_of self.now).undone }
    {
        self.undone.len() as u64
    }
}
