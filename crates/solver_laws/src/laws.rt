//! That the rule ends, and from which budget on it settles a table.
ghost use Rattle.std.specs.Prelude.{◌≡◌, ◌<◌, ◌≤◌, ◌+◌, ℕ, List, length};
ghost use Rattle.linear_table.specs.Answer.{IsAnswer, IsOutOfBudgetAnswer, IsTooWideAnswer, NeverFormsWide, SettlesTable};
ghost use Rattle.linear_table.specs.Basis.{system_of};
ghost use Rattle.linear_table.specs.Count.{choose};
ghost use Rattle.linear_table.specs.Plans.{IsWellFormed, column_count, good_count};
ghost use Rattle.linear_table.specs.Trail.{IsTrail, Move};
ghost use Rattle.linear_table.specs.declared.Exchange.{Exchange};
ghost use Rattle.linear_table.specs.declared.Linear.{Linear};
ghost use Rattle.linear_table.specs.declared.SolveAnswer.{SolveAnswer};
ghost use Rattle.linear_table.specs.declared.SolveAnswer.TheVariants.{OutOfBudget};
ghost use Rattle.solver_laws.specs.Whole.{IsWhole, SettlesFrom};

/// Law: the rule ends. Each of its trails has fewer exchanges than there are ways to choose as many columns as the table has goods, of its columns and the
/// unit columns; and one trail leads to a basis that shows a plan of least cost, or that there is no plan.
pub fn the_rule_ends()
    ensures fewer { (l : Linear) (ms : List Move) → IsWellFormed l → IsTrail (system_of l) ms → length ms < choose (good_count l + column_count l) (good_count l) }
    ensures ends { (l : Linear) → IsWellFormed l → (ms : List Move) × IsWhole l ms }
    ensures alone { (l : Linear) (ms ks : List Move) → IsWellFormed l → IsWhole l ms → IsWhole l ks → ms ≡ ks }
{}

/// Law: for each table on which no exchange forms an entry wide there is a budget from which on every answer is a plan of least cost or a proof that there is
/// no plan: the number of exchanges of the rule's whole trail.
pub fn budgets_settle()
    ensures trail { (l : Linear) (ms : List Move) → IsWellFormed l → NeverFormsWide l → IsWhole l ms → SettlesFrom l (length ms) }
    ensures some { (l : Linear) → IsWellFormed l → NeverFormsWide l → (enough : ℕ) × SettlesFrom l enough }
{}

/// Law: where no exchange forms an entry wide, an answer that isn't out of budget is a plan or a proof that there is none. An answer that is out of budget
/// names exactly as many exchanges as the budget has.
pub fn answers_settle()
    ensures settled { (l : Linear) (budget : ℕ) (answer : SolveAnswer) → IsAnswer l budget answer → NeverFormsWide l → ¬ IsOutOfBudgetAnswer answer → SettlesTable answer }
    ensures out { (l : Linear) (budget : ℕ) (trail : List Exchange) → IsAnswer l budget (OutOfBudget trail) → length trail ≡ budget }
{}
