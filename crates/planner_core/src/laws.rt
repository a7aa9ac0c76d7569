//! Laws of planners.
ghost use Rattle.std.specs.Prelude.{◌≡◌, Ok};
ghost use Rattle.edit_undo.specs.Edits.{apply_edits};
ghost use Rattle.edit_undo.specs.Kept.{session_of};
ghost use Rattle.edit_undo.specs.Session.{active_edits};
ghost use Rattle.game_types.specs.declared.games.Game.{Game};
ghost use Rattle.state_changes.specs.Effects.{effect_of};
ghost use Rattle.state_changes.specs.States.{first_state, State};
ghost use Rattle.planner_core.specs.Lines.{first_planned, IsSessionOf, Planned};

/// A planner that was just loaded grew from its game with no marks. As each step keeps what a planner grew from, its state
/// is that base with the active edits applied; and planners that grew from one base and have the same entries done have
/// the same state. So undo restores every part of the state before an entry, and redo that after it.
pub fn state_is_of_the_active_edits()
    ensures first { (game : Game) → IsSessionOf (first_state game) (first_planned game) }
    ensures active { (base : State) (p : Planned) → IsSessionOf base p → apply_edits effect_of base (active_edits (session_of p.kept)) ≡ Ok p.state }
    ensures same { (base : State) (p q : Planned) → IsSessionOf base p → IsSessionOf base q → (session_of p.kept).done ≡ (session_of q.kept).done → p.state ≡ q.state }
{}
