//! The law of what lines of a script are answered.
ghost use Rattle.std.specs.Prelude.{◌≡◌, ◌+◌, ◌++◌, ◌∷◌, [], ℕ, Bool, List, length};
ghost use Rattle.planner_core.specs.Lines.{Planned};
ghost use Rattle.session_lines.specs.Told.{HasAnswered, IsToldAs};

/// Law: the replies to the lines of a script so far are the report of a session of a run over those lines. So it is before the first
/// line, and so it stays with each line that is answered under the next number.
pub fn replies_are_the_report()
    ensures first { (p : Planned) → HasAnswered p [] [] p }
    ensures next { (first now after : Planned) (lines : List (List ℕ)) (replies line text : List ℕ) (refused : Bool) → HasAnswered first lines replies now
        → IsToldAs (length lines + 1) line now after text refused → HasAnswered first (lines ++ line ∷ []) (replies ++ text) after }
{}
