//! Further ways, while there is room for rows.
ghost use Rattle.game_types.specs.Sound.{IsSound};

use crate::Way;
use crate::found::Ground;
use crate::walk::{Walk, may_make, walk_on};
use fractions::Ratio;
use game_types::{Activity, Part};
use plan_base::{GoodId, NoMemory, RecipeId};
use std::alloc::Global;
use wish_setups::{is_good_marked, is_import, is_undoing, mark_good};

/// The most ways to one good that are looked at.
const MOST_WAYS: usize = 12;

// Whether the wish imports one of these.
fn takes_import(ground: &Ground<'_>, parts: &[Part]) -> bool {
    parts.iter().any(|part| is_import(ground.wish, part.good))
}

// Whether a recipe only takes back what another does, and the wish imports nothing that it takes.
fn only_undoes(ground: &Ground<'_>, recipe: RecipeId) -> bool
    requires { IsSound ground.now.game.now }
{
    match ground.game.recipes.as_slice().get(recipe.0 as usize) {
        Some(recipe) => {
            !takes_import(ground, recipe.ingredients.as_slice())
                && is_undoing(ground.game, ground.state.reached, recipe)
        }
        None => false,
    }
}

fn is_plain(ground: &Ground<'_>, way: usize) -> bool
    requires { IsSound ground.now.game.now }
{
    match ground.estimates.way(way) {
        Some(way) => match way.activity {
            Activity::Craft(recipe) => !only_undoes(ground, recipe),
            _ => true,
        },
        None => false,
    }
}

// The way to a good at a rank comes in, where it is a new one.
fn take_rank(
    alloc: Global,
    ground: &Ground<'_>,
    walk: &mut Walk,
    good: GoodId,
    rank: usize,
) -> Result<(), NoMemory>
    requires { IsSound ground.now.game.now }
{
    let ranked = ground.estimates.ranked_ways(alloc, good)?;
    let way = match ranked.as_slice().get(rank) {
        Some(pair) => pair.0,
        None => return Ok(()),
    };
    if !walk.is_used(way) && may_make(ground, walk, way, good) && is_plain(ground, way) {
        if walk.try_way(alloc, ground, way, good)? {
            walk_on(alloc, ground, walk)?;
        }
    }
    Ok(())
}

// The ways at a rank to each good that is made come in, the nearest goods first.
fn take_ranks(
    alloc: Global,
    ground: &Ground<'_>,
    walk: &mut Walk,
    rank: usize,
) -> Result<(), NoMemory>
    requires { IsSound ground.now.game.now }
{
    for place in 0..1_000_000usize {
        if walk.is_full() {
            break;
        }
        let good = match walk.goods.as_slice().get(place) {
            Some(good) => *good,
            None => break,
        };
        if walk.is_made(good) {
            take_rank(alloc, ground, walk, good, rank)?;
        }
    }
    Ok(())
}

// What a way takes that isn't needed yet, where it takes a byproduct and gives a good that is made.
fn newness(ground: &Ground<'_>, walk: &Walk, way: &Way, good: GoodId) -> Option<usize> {
    let network = ground.estimates.network();
    let mut takes_it = false;
    let mut new: usize = 0;
    for take in network.takes_of(way) {
        let taken = ground.estimates.cheapest(network.fits_of(take))?;
        if taken.0 == good.0 {
            takes_it = true;
        } else if !walk.is_needed(taken) {
            new = new.saturating_add(1);
        }
    }
    if takes_it { Some(new) } else { None }
}

// The first good that is made and that a way gives.
fn made_by(ground: &Ground<'_>, walk: &Walk, way: &Way) -> Option<GoodId> {
    for give in ground.estimates.network().gives_of(way) {
        if walk.is_made(give.good) {
            return Some(give.good);
        }
    }
    None
}

// A way that uses a byproduct up, what it makes and how much new it takes.
#[derive(Clone, Copy)]
struct Use {
    way: usize,
    made: GoodId,
    new: usize,
}

fn use_by(ground: &Ground<'_>, walk: &Walk, number: usize, way: &Way, good: GoodId) -> Option<Use> {
    let new = newness(ground, walk, way, good)?;
    let made = made_by(ground, walk, way)?;
    Some(Use {
        way: number,
        made,
        new,
    })
}

fn better_use(best: Option<Use>, other: Use) -> Option<Use> {
    match best {
        Some(best) if best.new <= other.new => Some(best),
        _ => Some(other),
    }
}

// The way that uses a byproduct up and takes least that is new.
fn best_use(ground: &Ground<'_>, walk: &Walk, good: GoodId) -> Option<Use>
    requires { IsSound ground.now.game.now }
{
    let mut best = None;
    for (number, way) in ground.estimates.network().ways().iter().enumerate() {
        if !walk.is_used(number) {
            if let Some(other) = use_by(ground, walk, number, way, good) {
                if may_make(ground, walk, number, other.made) && is_plain(ground, number) {
                    best = better_use(best, other);
                }
            }
        }
    }
    best
}

fn take_use(
    alloc: Global,
    ground: &Ground<'_>,
    walk: &mut Walk,
    good: GoodId,
) -> Result<(), NoMemory>
    requires { IsSound ground.now.game.now }
{
    if let Some(other) = best_use(ground, walk, good) {
        if walk.try_way(alloc, ground, other.way, other.made)? {
            walk_on(alloc, ground, walk)?;
        }
    }
    Ok(())
}

fn push_byproducts(
    walk: &Walk,
    column: &[(GoodId, Ratio)],
    seen: &mut [bool],
    goods: &mut Vec<GoodId>,
) -> Result<(), NoMemory> {
    for part in column {
        if part.1.is_positive() && !walk.is_needed(part.0) && !is_good_marked(seen, part.0) {
            mark_good(seen, part.0);
            goods.push(part.0)?;
        }
    }
    Ok(())
}

// The goods that rows give and nothing takes, but those that were seen before.
fn byproducts(alloc: Global, walk: &Walk, seen: &mut [bool]) -> Result<Vec<GoodId>, NoMemory> {
    let mut goods = Vec::new(alloc);
    for row in walk.rows.as_slice() {
        push_byproducts(walk, row.column.as_slice(), seen, &mut goods)?;
    }
    Ok(goods)
}

fn take_uses_of(
    alloc: Global,
    ground: &Ground<'_>,
    walk: &mut Walk,
    goods: &[GoodId],
) -> Result<(), NoMemory>
    requires { IsSound ground.now.game.now }
{
    for good in goods {
        if !walk.is_full() {
            take_use(alloc, ground, walk, *good)?;
        }
    }
    Ok(())
}

// Ways come in that use byproducts up.
fn take_uses(
    alloc: Global,
    ground: &Ground<'_>,
    walk: &mut Walk,
    seen: &mut [bool],
) -> Result<(), NoMemory>
    requires { IsSound ground.now.game.now }
{
    for _ in 0..8 {
        let goods = byproducts(alloc, walk, seen)?;
        if goods.is_empty() {
            break;
        }
        take_uses_of(alloc, ground, walk, goods.as_slice())?;
    }
    Ok(())
}

/// Ways that use byproducts up and further ways to each good come in, as long as there is room: the nearest goods first, the second way to
/// each, then the third ..
///
/// # Errors
///
/// `NoMemory` where memory could not be had.
pub fn walk_further(alloc: Global, ground: &Ground<'_>, walk: &mut Walk) -> Result<(), NoMemory>
    requires { IsSound ground.now.game.now }
{
    let mut seen = vec![in alloc; false; walk.raw.len()]?;
    take_uses(alloc, ground, walk, seen.as_mut_slice())?;
    for rank in 1..MOST_WAYS {
        if walk.is_full() {
            break;
        }
        take_ranks(alloc, ground, walk, rank)?;
        take_uses(alloc, ground, walk, seen.as_mut_slice())?;
    }
    Ok(())
}
