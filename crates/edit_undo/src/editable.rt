//! What can be edited, and edited back.
ghost use Rattle.std.specs.Prelude.{◌≡◌, ◌≢◌, Bool, ℕ, ◌+◌, ◌≤◌, List, Result, IfErr, IfOk, OnErr, OnOk};
ghost use Rattle.edit_undo.specs.Edits.{apply_edits, IsEntry, IsFaultOf, Leads};

use plan_base::{NoMemory, Steps};

/// Why an entry was not applied.
#[derive(Debug, PartialEq, Eq, Drop)]
pub enum EntryFault<F> {
    /// The edit at this place, counted from 0, is refused at its turn.
    At(u32, F),
    /// Memory could not be had.
    NoMemory,
}

/// What lists of edits change, and change back.
///
/// A list of edits is an entry: all of its edits are applied, one after another, or none.
/// `L` is the marker of the counter. An implementation counts what it reads through values that it is generic in too; a value
/// of a known type could be read under any counter.
pub trait Editable<L> {
    /// One edit.
    type Edit;
    /// What is needed to take one edit back.
    type Inverse;
    /// Why an edit is refused.
    type Fault: Drop;

    /// The states. What is kept beside a state, so that it answers faster, is no part of it.
    ghost State: { Type 0 };

    /// The state that a value means, however it is kept.
    ghost state: { Self → State };

    /// What one edit does: the state after it, or why it is refused.
    ghost effect: { State → Self.Edit → Result State Self.Fault };

    /// Which lists of edits are taken as one entry.
    ghost takes: { List Self.Edit → Bool };

    /// Whether from a state these inverses of these edits lead back to the other.
    ghost leads_back: { State → List Self.Edit → List Self.Inverse → State → Type 0 };

    /// How many steps may be taken from one state to another by the edits or by their inverses.
    ghost work: { State → List Self.Edit → State → ℕ };

    /// Applies the edits in order, and answers their inverses.
    ///
    /// # Errors
    ///
    /// `At` where an edit is refused at its turn. `NoMemory` where memory could not be had. Either leaves the state.
    fn apply_all(
        &mut self,
        edits: &[Self::Edit],
        steps: &mut Steps<L>,
    ) -> Result<Vec<Self::Inverse>, EntryFault<Self::Fault>>
        requires { IsEntry takes edits.now }
        ensures ok { IfOk result (λ inverses. Leads effect takes leads_back (state self.old) edits.now inverses.items (state self.new)) }
        ensures fault { IfErr result (IsFaultOf (apply_edits effect (state self.old) edits.now)) }
        ensures err { OnErr result (state self.new ≡ state self.old) }
        ensures work { OnOk result (steps.new ≤ steps.old + work (state self.old) edits.now (state self.new)) }
        ensures no_work { IfErr result (λ fault. fault ≢ EntryFault.NoMemory → steps.new ≡ steps.old) }
        ensures later { steps.old ≤ steps.new };

    /// Takes the edits back, by the inverses that `apply_all` answered.
    ///
    /// # Errors
    ///
    /// `NoMemory` where memory could not be had. Then the state is as before.
    fn restore_all(
        &mut self,
        edits: &[Self::Edit],
        inverses: &[Self::Inverse],
        steps: &mut Steps<L>,
    ) -> Result<(), NoMemory>
        requires { (before : State) × Leads effect takes leads_back before edits.now inverses.now (state self.old) }
        ensures ok { OnOk result ((before : State) → Leads effect takes leads_back before edits.now inverses.now (state self.old) → state self.new ≡ before) }
        ensures err { OnErr result (state self.new ≡ state self.old) }
        ensures work { OnOk result (steps.new ≤ steps.old + work (state self.old) edits.now (state self.new)) }
        ensures later { steps.old ≤ steps.new };
}
