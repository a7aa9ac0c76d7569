//! Lists of entries, each about a good or a recipe.
ghost use Rattle.std.specs.Prelude.{◌≡◌, ℕ, Bool, IfOk};
ghost use Rattle.plan_base.specs.Outcomes.{Gives};
ghost use Rattle.game_types.specs.Fitting.{names_recipe};
ghost use Rattle.data_edit.specs.Lists.{is_bound, is_fraction, is_part, is_product, is_unlock, part_key, product_key, same_lists, unlock_key, with_entry, with_unlock, without};
ghost use Rattle.data_edit.specs.Faults.{changed_list};

use crate::{EditFault, LIST_LIMIT};
use fractions::Ratio;
use game_types::{Part, Product};
use plan_base::{Denied, Items, NoMemory, RecipeId};
use std::alloc::Global;

/// An entry of a list.
pub(crate) trait Entry: Copy + Drop {
    ghost key: { Self → ℕ };

    ghost same: { Self → Self → Bool };

    /// The number of the good or recipe that the entry is about.
    fn key(&self) -> u32
        ensures { result ≡ key self.now };

    /// Whether two entries are the same in all.
    fn is(&self, other: &Self) -> bool
        ensures { result ≡ same self.now other.now };
}

// Whether two fractions are the same.
pub(crate) fn is_fraction(first: &Ratio, second: &Ratio) -> bool
    ensures { result ≡ is_fraction first.now second.now }
{
    first.numerator() == second.numerator() && first.denominator() == second.denominator()
}

fn is_bound(first: &Option<Ratio>, second: &Option<Ratio>) -> bool
    ensures { result ≡ is_bound first.now second.now }
{
    match (first, second) {
        (None, None) => true,
        (Some(first), Some(second)) => is_fraction(first, second),
        _ => false,
    }
}

impl Entry for Part {
    ghost key = { part_key };

    ghost same = { is_part };

    fn key(&self) -> u32 {
        self.good.0
    }

    #[tactic(auto, unfolding(crate::specs::Lists::is_part))]
    fn is(&self, other: &Part) -> bool {
        self.good.0 == other.good.0
            && is_fraction(&self.amount, &other.amount)
            && is_bound(&self.low, &other.low)
            && is_bound(&self.high, &other.high)
    }
}

impl Entry for Product {
    ghost key = { product_key };

    ghost same = { is_product };

    fn key(&self) -> u32 {
        self.good.0
    }

    #[tactic(auto, unfolding(crate::specs::Lists::is_product))]
    fn is(&self, other: &Product) -> bool {
        self.good.0 == other.good.0
            && is_fraction(&self.low, &other.low)
            && is_fraction(&self.high, &other.high)
            && is_fraction(&self.probability, &other.probability)
            && is_fraction(&self.catalyst, &other.catalyst)
            && is_bound(&self.temperature, &other.temperature)
    }
}

impl Entry for RecipeId {
    ghost key = { unlock_key };

    ghost same = { is_unlock };

    fn key(&self) -> u32 {
        self.0
    }

    fn is(&self, other: &RecipeId) -> bool {
        self.0 == other.0
    }
}

// Whether two lists are the same in all entries.
fn same_lists<E: Entry>(first: &[E], second: &[E]) -> bool
    ensures { result ≡ same_lists E.same first.now second.now }
{
    if first.len() != second.len() {
        return false;
    }
    for k in 0..first.len() {
        if !first[k].is(&second[k]) {
            return false;
        }
    }
    true
}

// The list in place of the old one, unless it is the same or too long.
fn changed_list<E: Entry>(old: &[E], list: Vec<E>) -> Result<Items<E>, EditFault>
    ensures { result ≡ changed_list E.same old.now list.items }
{
    if same_lists(list.as_slice(), old) {
        return Err(EditFault::NoChange);
    }
    if LIST_LIMIT < list.len() {
        return Err(EditFault::Limit);
    }
    Ok(Items::from_vec(list))
}

fn without<E: Entry>(alloc: Global, entries: &[E], key: u32) -> Result<Vec<E>, NoMemory>
    ensures { IfOk result (λ list. list.items ≡ without E.key key entries.now) }
{
    let mut list = Vec::new(alloc);
    for entry in entries {
        if entry.key() != key {
            list.push(*entry)?;
        }
    }
    Ok(list)
}

fn with_entry<E: Entry>(alloc: Global, entries: &[E], entry: E) -> Result<Vec<E>, NoMemory>
    ensures { IfOk result (λ list. list.items ≡ with_entry E.key entry entries.now) }
{
    let mut list = Vec::new(alloc);
    let mut is_put = false;
    for other in entries {
        if other.key() != entry.key() {
            list.push(*other)?;
        } else if !is_put {
            list.push(entry)?;
            is_put = true;
        }
    }
    if !is_put {
        list.push(entry)?;
    }
    Ok(list)
}

/// The list with this entry at the place of the first one of its key, or at its end, and with no other one of its key.
///
/// # Errors
///
/// `NoChange`, `Limit`, `NoMemory`.
pub(crate) fn set_entry<E: Entry>(
    alloc: Global,
    entries: &[E],
    entry: E,
) -> Result<Items<E>, Denied<EditFault>>
    ensures { Gives (changed_list E.same entries.now (with_entry E.key entry entries.now)) result }
{
    let list = with_entry(alloc, entries, entry)?;
    Ok(changed_list(entries, list)?)
}

/// The list without the entries of a key.
///
/// # Errors
///
/// `NoChange`, `Limit`, `NoMemory`.
pub(crate) fn drop_entries<E: Entry>(
    alloc: Global,
    entries: &[E],
    key: u32,
) -> Result<Items<E>, Denied<EditFault>>
    ensures { Gives (changed_list E.same entries.now (without E.key key entries.now)) result }
{
    let list = without(alloc, entries, key)?;
    Ok(changed_list(entries, list)?)
}

fn names_recipe(unlocks: &[RecipeId], recipe: RecipeId) -> bool
    ensures { result ≡ names_recipe unlocks.now recipe }
{
    unlocks.iter().any(|other| other.0 == recipe.0)
}

fn with_unlock(
    alloc: Global,
    unlocks: &[RecipeId],
    recipe: RecipeId,
) -> Result<Vec<RecipeId>, NoMemory>
    ensures { IfOk result (λ list. list.items ≡ with_unlock recipe unlocks.now) }
{
    let mut list = Vec::new(alloc);
    list.extend_from_slice(unlocks)?;
    if !names_recipe(unlocks, recipe) {
        list.push(recipe)?;
    }
    Ok(list)
}

/// The recipes with this one at their end, unless it is among them.
///
/// # Errors
///
/// `NoChange`, `Limit`, `NoMemory`.
pub(crate) fn add_unlock(
    alloc: Global,
    unlocks: &[RecipeId],
    recipe: RecipeId,
) -> Result<Items<RecipeId>, Denied<EditFault>>
    ensures { Gives (changed_list is_unlock unlocks.now (with_unlock recipe unlocks.now)) result }
{
    let list = with_unlock(alloc, unlocks, recipe)?;
    Ok(changed_list(unlocks, list)?)
}
