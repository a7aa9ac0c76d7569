//! What the best of things with ranks is.
ghost use Rattle.std.specs.Prelude.{ℕ, Option};
ghost use Rattle.wish_setups.specs.Choice.{IsBestBelow, best_below};
ghost use Rattle.wish_setups.specs.declared.ranks.Rank.{Rank};

/// What is found as the best of things with ranks is the first of those before which none comes.
#[tactic(auto, using(crate::proofs::RankLemmas::best_of_all))]
pub fn the_best_is_found()
    ensures { (ranks : ℕ → Option Rank) (count : ℕ) → IsBestBelow ranks count (best_below ranks count) }
{}
