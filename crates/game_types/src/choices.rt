//! Fluids by temperature: which goods an ingredient takes, and which of them a row of a table takes.
ghost use Rattle.std.specs.Prelude.{◌≡◌, ◌≤◌, ◌+◌, ◌↔◌, ℕ, List, Option, Some, None, true, false, option_map, length, if◌then◌else◌};
ghost use Rattle.fractions.specs.Fraction.{Fraction};
ghost use Rattle.game_types.specs.Nodes.{node_limit};
ghost use Rattle.game_types.specs.Sound.{IsSound};
ghost use Rattle.game_types.specs.Temperatures.{choice_of, coolest, coolest_fit, cooler_of, first_where, fits_alone, fluid_at, is_base, is_cooler, is_cool_enough, is_fit, is_fit_variant, is_good, is_some_fit_variant, is_warm_enough, is_within};

use crate::{Fluid, Game};
use fractions::Ratio;
use plan_base::GoodId;
use std::cmp::Ordering;

fn is_cooler(at: &Ratio, other: &Ratio) -> bool
    ensures { result ≡ is_cooler at.now other.now }
{
    match at.cmp(other) {
        Ordering::Less => true,
        Ordering::Equal => false,
        Ordering::Greater => false,
    }
}

fn is_warm_enough(low: &Option<Ratio>, at: &Ratio) -> bool
    ensures { result ≡ is_warm_enough low.now at.now }
{
    match low {
        Some(low) => !is_cooler(at, low),
        None => true,
    }
}

fn is_cool_enough(high: &Option<Ratio>, at: &Ratio) -> bool
    ensures { result ≡ is_cool_enough high.now at.now }
{
    match high {
        Some(high) => !is_cooler(high, at),
        None => true,
    }
}

/// Whether a temperature is within two bounds, each of which may be absent.
#[tactic(auto, unfolding(crate::specs::Temperatures::is_within))]
pub fn is_within(low: &Option<Ratio>, high: &Option<Ratio>, at: &Ratio) -> bool
    ensures { result ≡ is_within low.now high.now at.now }
{
    is_warm_enough(low, at) && is_cool_enough(high, at)
}

// Whether there is a good and it is this one.
fn is_good(good: &Option<GoodId>, other: GoodId) -> bool
    ensures { result ≡ is_good good.now other.0 }
{
    match good {
        Some(good) => good.0 == other.0,
        None => false,
    }
}

// Whether a fluid is a variant of a base within the bounds.
fn is_fit_variant(base: GoodId, low: &Option<Ratio>, high: &Option<Ratio>, fluid: &Fluid) -> bool
    ensures { result ≡ is_fit_variant base.0 low.now high.now fluid.now }
{
    is_good(&fluid.of, base) && is_within(low, high, &fluid.at)
}

// The cooler one of the best so far and another.
fn cooler_of(best: Option<(GoodId, Ratio)>, good: GoodId, at: &Ratio) -> Option<(GoodId, Ratio)>
    ensures { result ≡ cooler_of best good.0 at.now }
{
    match best {
        Some(best) => {
            if is_cooler(at, &best.1) {
                Some((good, *at))
            } else {
                Some(best)
            }
        }
        None => Some((good, *at)),
    }
}

// The best so far and one fluid more.
fn better(
    best: Option<(GoodId, Ratio)>,
    number: GoodId,
    base: GoodId,
    low: &Option<Ratio>,
    high: &Option<Ratio>,
    fluid: &Fluid,
) -> Option<(GoodId, Ratio)>
    ensures { result ≡ (if is_fit_variant base.0 low.now high.now fluid.now then cooler_of best number.0 fluid.now.at else best) }
{
    if is_fit_variant(base, low, high, fluid) {
        cooler_of(best, number, &fluid.at)
    } else {
        best
    }
}

#[tactic(auto, using(crate::proofs::ChoiceLemmas::coolest_next, crate::proofs::ChoiceLemmas::coolest_end))]
// The coolest variant of a base within the bounds.
fn coolest(
    fluids: &[Fluid],
    first: u32,
    base: GoodId,
    low: &Option<Ratio>,
    high: &Option<Ratio>,
) -> Option<(GoodId, Ratio)>
    requires { first + length fluids.now ≤ node_limit }
    ensures { result ≡ coolest (is_fit_variant base.0 low.now high.now) None first fluids.now }
{
    let mut best = None;
    let mut number = first;
    for fluid in fluids {
        best = better(best, GoodId(number), base, low, high, fluid);
        number += 1;
    }
    best
}

impl Game {
    /// The fluid that a good is, where it is one.
    #[tactic(auto, unfolding(crate::specs::Temperatures::fluid_at))]
    pub fn fluid(&self, good: GoodId) -> Option<&Fluid>
        ensures { option_map (λ fluid. fluid.now) result ≡ fluid_at self.now good.0 }
    {
        let place = good.0 as usize;
        let items = self.items.len();
        if place < items {
            return None;
        }
        self.fluids.as_slice().get(place - items)
    }

    /// Whether a good is a base: a fluid of which there are variants.
    #[tactic(auto, unfolding(crate::specs::Temperatures::is_base))]
    pub fn is_base(&self, good: GoodId) -> bool
        ensures { result ≡ is_base self.now good.0 }
    {
        self.fluids
            .as_slice()
            .iter()
            .any(|fluid| is_good(&fluid.of, good))
    }

    // Whether a good is a base, where the fluids are looked through for a fluid alone: an item is none.
    #[tactic(auto, using(crate::proofs::Bases::no_base))]
    fn has_variants(&self, good: GoodId) -> bool
        requires { IsSound self.now }
        ensures { result ≡ is_base self.now good.0 }
    {
        if (good.0 as usize) < self.items.len() {
            return false;
        }
        self.is_base(good)
    }

    // Whether a good that is no base takes itself.
    fn fits_alone(&self, good: GoodId, low: &Option<Ratio>, high: &Option<Ratio>) -> bool
        ensures { result ≡ fits_alone low.now high.now (fluid_at self.now good.0) }
    {
        match self.fluid(good) {
            Some(fluid) => fluid.of.is_some() || is_within(low, high, &fluid.at),
            None => true,
        }
    }

    // Whether a good is a variant of a base within the bounds.
    fn is_some_fit_variant(
        &self,
        base: GoodId,
        low: &Option<Ratio>,
        high: &Option<Ratio>,
        fit: GoodId,
    ) -> bool
        ensures { result ≡ is_some_fit_variant base.0 low.now high.now (fluid_at self.now fit.0) }
    {
        match self.fluid(fit) {
            Some(fluid) => is_fit_variant(base, low, high, fluid),
            None => false,
        }
    }

    /// Whether a good is a fit of an ingredient of a good with these bounds.
    #[tactic(auto, unfolding(crate::specs::Temperatures::is_fit))]
    pub fn is_fit(
        &self,
        good: GoodId,
        low: &Option<Ratio>,
        high: &Option<Ratio>,
        fit: GoodId,
    ) -> bool
        ensures { result ≡ is_fit self.now good.0 low.now high.now fit.0 }
    {
        if self.is_base(good) {
            self.is_some_fit_variant(good, low, high, fit)
        } else {
            fit.0 == good.0 && self.fits_alone(good, low, high)
        }
    }

    // The coolest fit.
    #[tactic(auto, unfolding(crate::specs::Temperatures::coolest_fit))]
    fn coolest_fit(&self, good: GoodId, low: &Option<Ratio>, high: &Option<Ratio>) -> Option<GoodId>
        requires { IsSound self.now }
        ensures { result ≡ coolest_fit self.now good.0 low.now high.now }
    {
        if self.has_variants(good) {
            let first = self.shape().items;
            match coolest(self.fluids.as_slice(), first, good, low, high) {
                Some((fit, _)) => Some(fit),
                None => None,
            }
        } else if self.fits_alone(good, low, high) {
            Some(good)
        } else {
            None
        }
    }
}

#[tactic(auto, using(crate::proofs::ChoiceLemmas::first_stop, crate::proofs::ChoiceLemmas::first_pass, crate::proofs::ChoiceLemmas::first_end))]
// The first of some goods that is a fit.
fn first_fit(
    game: &Game,
    at: &[GoodId],
    good: GoodId,
    low: &Option<Ratio>,
    high: &Option<Ratio>,
) -> Option<GoodId>
    ensures { result ≡ first_where (λ own. is_fit game.now good.0 low.now high.now own.0) at.now }
{
    for own in at {
        if game.is_fit(good, low, high, *own) {
            return Some(*own);
        }
    }
    None
}

/// The good that a row of a table takes where an ingredient, or what a source takes, is a good with these bounds: the first of
/// the row's own that is a fit, or else the coolest fit. None where there is no fit.
#[tactic(auto, unfolding(crate::specs::Temperatures::choice_of))]
pub fn choice_of(
    game: &Game,
    at: &[GoodId],
    good: GoodId,
    low: Option<Ratio>,
    high: Option<Ratio>,
) -> Option<GoodId>
    requires { IsSound game.now }
    ensures { result ≡ choice_of game.now at.now good.0 low high }
{
    match first_fit(game, at, good, &low, &high) {
        Some(own) => Some(own),
        None => game.coolest_fit(good, &low, &high),
    }
}

/// Law: what a row takes is a fit, and it takes nothing exactly where there is no fit.
pub fn choices_are_fits()
    ensures fit { (g : Game) (at : List GoodId) (good : ℕ) (low high : Option Fraction) (choice : GoodId) → choice_of g at good low high ≡ Some choice → is_fit g good low high choice.0 ≡ true }
    ensures none { (g : Game) (at : List GoodId) (good : ℕ) (low high : Option Fraction) → (choice_of g at good low high ≡ None) ↔ ((fit : ℕ) → is_fit g good low high fit ≡ false) }
{}
