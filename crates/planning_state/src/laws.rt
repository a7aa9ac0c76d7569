//! Laws of planning states.
ghost use Rattle.std.specs.Prelude.{◌≡◌, true, List, Ok};
ghost use Rattle.std.specs.List.{list_all};
ghost use Rattle.edit_undo.specs.Edits.{apply_edits};
ghost use Rattle.plan_lines.specs.declared.change.Change.{Change};
ghost use Rattle.planner_tables.specs.Effects.{is_of_tables};
ghost use Rattle.state_changes.specs.States.{State};
ghost use Rattle.state_changes.specs.Effects.{effect_of};
ghost use Rattle.planning_state.specs.Work.{work_of};

/// Law: an entry of changes of the tables alone takes no step, forth or back.
pub fn tables_take_no_step()
    ensures { (before after : State) (changes : List Change) → list_all is_of_tables changes ≡ true → apply_edits effect_of before changes ≡ Ok after → (work_of before changes after ≡ 0) × (work_of after changes before ≡ 0) }
{}
