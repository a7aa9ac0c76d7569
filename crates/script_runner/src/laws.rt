//! Laws of sessions.
ghost use Rattle.std.specs.Prelude.{◌≡◌, ◌≢◌, ℕ, All, List, Ok};
ghost use Rattle.certificate_file.specs.declared.CertEntry.{CertEntry};
ghost use Rattle.edit_undo.specs.Edits.{apply_edits};
ghost use Rattle.edit_undo.specs.Kept.{session_of};
ghost use Rattle.edit_undo.specs.Session.{active_edits};
ghost use Rattle.state_changes.specs.Effects.{effect_of};
ghost use Rattle.state_changes.specs.States.{State};
ghost use Rattle.planner_core.specs.Lines.{IsSessionOf, IsStep, Planned};
ghost use Rattle.plan_lines.specs.declared.reply.Reply.{Reply};
ghost use Rattle.plan_lines.specs.declared.command.Command.{Command};
ghost use Rattle.script_runner.specs.Alike.{AreAlike};
ghost use Rattle.script_runner.specs.Answers.{Answered};
ghost use Rattle.script_runner.specs.Checks.{EndsCheck};
ghost use Rattle.plan_io.specs.Lines.{lines_of};
ghost use Rattle.script_runner.specs.Plans.{SolvesRightly};
ghost use Rattle.script_runner.specs.Rechecks.{AreProvedButWide, IsNeverWide, IsProof};
ghost use Rattle.script_runner.specs.Sessions.{IsSession};
ghost use Rattle.script_runner.specs.Trials.{IsTrial, Judged};
ghost use Rattle.plan_io.specs.declared.ends.ScriptEnd.{ScriptEnd};
ghost use Rattle.plan_io.specs.declared.ends.ScriptEnd.TheVariants as script_ends;

/// If the first planner of a session grew from a base, so did every planner of it, and the state of each is what the edits
/// that are active there give afresh on the base.
pub fn planners_grow_from_the_base()
    ensures grown { (base : State) (first last : Planned) (lines : List (List ℕ)) (answers : List Answered) → IsSession first lines answers last → IsSessionOf base first
        → All (λ a. IsSessionOf base a.before × IsSessionOf base a.after) answers }
    ensures afresh { (base : State) (first last : Planned) (lines : List (List ℕ)) (answers : List Answered) → IsSession first lines answers last → IsSessionOf base first
        → All (λ a. (apply_edits effect_of base (active_edits (session_of a.before.kept)) ≡ Ok a.before.state) × (apply_edits effect_of base (active_edits (session_of a.after.kept)) ≡ Ok a.after.state)) answers }
{}

/// In a session, what a `solve` line tells of a table is so. A plan balances every good exactly at what is wanted, and no plan
/// of the table's linear form costs less, which its prices show; where the table is infeasible there is no plan, which its
/// prices show too; and the two other answers come by their cause.
pub fn plans_cost_least()
    ensures { (first last : Planned) (lines : List (List ℕ)) (answers : List Answered) → IsSession first lines answers last → All SolvesRightly answers }
{}

/// A line leads planners that are alike to planners that are alike, whatever the solver answers to it and whatever nodes are told to
/// support another, and so do the lines of a session.
pub fn lines_lead_to_one_planner()
    ensures line { (base : State) (number : ℕ) (asked : Command) (p q r s : Planned) (one other : Reply) → AreAlike p q → IsSessionOf base r → IsSessionOf base s
        → IsStep number p asked r one → IsStep number q asked s other → AreAlike r s }
    ensures session { (base : State) (p q r s : Planned) (lines : List (List ℕ)) (answers others : List Answered) → AreAlike p q → IsSessionOf base p → IsSessionOf base q
        → IsSession p lines answers r → IsSession q lines others s → AreAlike r s }
{}

/// A certificate proves the script that it was told of, where no line was refused and each table was settled: checked by its entries
/// from the same planner, no line is refused, and each form is proved but those at which a checker meets a wide sum. Where none does,
/// the check is done, unless it wants memory or its writing is cut off.
pub fn certificates_prove_their_script()
    ensures lines { (first last : Planned) (script certificate : List ℕ) (entries : List CertEntry) (judged : List Judged) → IsProof first script certificate entries
        → IsTrial entries 1 first (lines_of script) judged last → AreProvedButWide judged }
    ensures ends { (first : Planned) (script certificate text : List ℕ) (entries : List CertEntry) (end : ScriptEnd) (steps : ℕ) → IsProof first script certificate entries → IsNeverWide entries first script
        → EndsCheck entries first script end text steps → end ≢ script_ends.NoMemory → end ≢ script_ends.WriteFault → end ≡ script_ends.Done }
{}
