//! Laws of the trails of exchanges that the solver takes.
ghost use Rattle.std.specs.Prelude.{◌≡◌, ℕ, List};
ghost use Rattle.linear_table.specs.System.{Entries, AreEntries};
ghost use Rattle.linear_table.specs.Basis.{system_of};
ghost use Rattle.linear_table.specs.Trail.{Move, IsTrail, IsNext, IsSettled, HasValues, basis_after, first_basis};
ghost use Rattle.linear_table.specs.Answer.{last_basis};
ghost use Rattle.linear_table.specs.Plans.{IsWellFormed};
ghost use Rattle.linear_table.specs.declared.Linear.{Linear};

/// No basis of a trail has a value below 0. Where its last basis isn't settled there is a next exchange, and no other.
pub fn laws_of_trails()
    ensures values { (l : Linear) (ms : List Move) → IsWellFormed l → IsTrail (system_of l) ms → (i : ℕ) → HasValues (system_of l) (basis_after (first_basis (system_of l)) ms i) }
    ensures next { (l : Linear) (ms : List Move) (e : Entries) → IsWellFormed l → IsTrail (system_of l) ms → AreEntries (system_of l) (last_basis l ms) e → ¬ IsSettled (system_of l) (last_basis l ms) e → (m : Move) × IsNext (system_of l) (last_basis l ms) m }
    ensures alone { (l : Linear) (ms : List Move) (m k : Move) → IsWellFormed l → IsTrail (system_of l) ms → IsNext (system_of l) (last_basis l ms) m → IsNext (system_of l) (last_basis l ms) k → (m.enter ≡ k.enter) × (m.leave ≡ k.leave) }
{}
