//! What holds of the edges of every plan.
ghost use Rattle.std.specs.Prelude.{List, ℕ};
ghost use Rattle.fractions.specs.Fraction.{Fraction};
ghost use Rattle.linear_table.specs.Plans.{IsPlan, IsWellFormed};
ghost use Rattle.linear_table.specs.declared.Linear.{Linear};
ghost use Rattle.plan_charts.specs.Edges.{AllExact, EdgesBalance};

/// Law: in every plan whose flows are all within the limits of fractions, what the edges out of cards bring to a good is what is
/// wanted of it and what the edges into cards take, exactly.
pub fn edges_balance()
    ensures { (l : Linear) (rates : List Fraction) → IsWellFormed l → IsPlan l rates → AllExact l rates → EdgesBalance l rates }
{}
