//! The walk from what is wished for to what it is made from.
ghost use Rattle.game_types.specs.Sound.{IsSound};

use crate::found::{Found, Ground, found_by, is_runnable, part_of};
use fractions::Ratio;
use game_types::{Activity, Game};
use plan_base::{GoodId, NoMemory};
use production_table::LIMIT;
use std::alloc::Global;
use wish_setups::{is_good_marked, is_import, is_marked, mark, mark_good};

/// What a walk finds.
#[derive(Drop)]
pub struct Walk {
    pub rows: Vec<Found>,
    /// Marks for each good whether it comes from outside: imported by the wish or given by a source.
    pub raw: Vec<bool>,
    /// Marks for each good whether it could be made and is imported.
    pub rim: Vec<bool>,
    /// The goods that are needed, in the order in which the walk meets them.
    pub goods: Vec<GoodId>,
    // The goods that are looked at before others, since power is made of them.
    first: Vec<GoodId>,
    next: usize,
    next_first: usize,
    // Marks for each good whether it is needed, whether it is wished for, and whether a table that stands has it.
    needed: Vec<bool>,
    wanted: Vec<bool>,
    had: Vec<bool>,
    // Marks for each way whether it was tried.
    used: Vec<bool>,
    power: GoodId,
    most: usize,
}

impl Walk {
    /// A walk that begins nowhere, of so many rows.
    ///
    /// # Errors
    ///
    /// `NoMemory` where memory could not be had.
    pub fn new(alloc: Global, ground: &Ground<'_>, most: usize) -> Result<Walk, NoMemory>
        requires { IsSound ground.now.game.now }
    {
        let count = ground.game.good_count() as usize;
        let ways = ground.estimates.network().ways().len();
        Ok(Walk {
            rows: Vec::new(alloc),
            raw: vec![in alloc; false; count]?,
            rim: vec![in alloc; false; count]?,
            goods: Vec::new(alloc),
            first: Vec::new(alloc),
            next: 0,
            next_first: 0,
            needed: vec![in alloc; false; count]?,
            wanted: vec![in alloc; false; count]?,
            had: vec![in alloc; false; count]?,
            used: vec![in alloc; false; ways]?,
            power: ground.game.electricity(),
            most,
        })
    }

    /// A good is wished for.
    ///
    /// # Errors
    ///
    /// `NoMemory` where memory could not be had.
    pub fn want(&mut self, good: GoodId) -> Result<(), NoMemory> {
        mark_good(self.wanted.as_mut_slice(), good);
        self.need(good, false)
    }

    /// A table that stands has a good.
    pub fn has(&mut self, good: GoodId) {
        mark_good(self.had.as_mut_slice(), good);
    }

    pub fn is_wanted(&self, good: GoodId) -> bool {
        is_good_marked(self.wanted.as_slice(), good)
    }

    pub fn is_needed(&self, good: GoodId) -> bool {
        is_good_marked(self.needed.as_slice(), good)
    }

    /// Whether a good is made by rows.
    pub fn is_made(&self, good: GoodId) -> bool {
        self.is_needed(good)
            && !is_good_marked(self.raw.as_slice(), good)
            && !is_good_marked(self.had.as_slice(), good)
    }

    pub fn is_used(&self, way: usize) -> bool {
        is_marked(self.used.as_slice(), way)
    }

    /// Whether there are as many rows as there may be.
    pub fn is_full(&self) -> bool {
        self.rows.len() >= self.most
    }

    // One more good that is needed, where it is none yet.
    fn need(&mut self, good: GoodId, is_first: bool) -> Result<(), NoMemory> {
        if self.is_needed(good) {
            return Ok(());
        }
        mark_good(self.needed.as_mut_slice(), good);
        if is_first || good.0 == self.power.0 {
            self.first.push(good)?;
        } else {
            self.goods.push(good)?;
        }
        Ok(())
    }

    // The next good that is to be looked at.
    fn pop(&mut self) -> Option<GoodId> {
        if let Some(good) = self.first.as_slice().get(self.next_first) {
            let good = *good;
            self.next_first = self.next_first.saturating_add(1);
            return Some(good);
        }
        let good = *self.goods.as_slice().get(self.next)?;
        self.next = self.next.saturating_add(1);
        Some(good)
    }

    // What a column takes is needed.
    fn need_column(&mut self, column: &[(GoodId, Ratio)], is_first: bool) -> Result<(), NoMemory> {
        for part in column {
            if part.1.is_neg() {
                self.need(part.0, is_first)?;
            }
        }
        Ok(())
    }

    // A row comes in, and what it takes is needed.
    fn add(&mut self, found: Found) -> Result<(), NoMemory> {
        let is_first = makes_power(found.setup.activity);
        self.need_column(found.column.as_slice(), is_first)?;
        self.rows.push(found)?;
        Ok(())
    }

    /// The row of a way comes in, where there is one that gives a good and takes only what can be had. Answers whether it does.
    ///
    /// # Errors
    ///
    /// `NoMemory` where memory could not be had.
    pub fn try_way(
        &mut self,
        alloc: Global,
        ground: &Ground<'_>,
        way: usize,
        good: GoodId,
    ) -> Result<bool, NoMemory>
        requires { IsSound ground.now.game.now }
    {
        mark(self.used.as_mut_slice(), way);
        let Some(found) = found_by(alloc, ground, way)? else {
            return Ok(false);
        };
        if !part_of(found.column.as_slice(), good).is_positive() || !is_runnable(ground, &found) {
            return Ok(false);
        }
        self.add(found)?;
        Ok(true)
    }

    // Whether a row of a way is there that gives a good.
    fn has_row(&self, way: usize, good: GoodId) -> bool {
        self.rows.as_slice().iter().any(|row| row.way == way
            && part_of(row.column.as_slice(), good).is_positive())
    }
}

// Whether what a row does serves to make electricity.
fn makes_power(activity: Activity) -> bool {
    matches!(activity, Activity::Generate | Activity::Boil(_))
}

// Whether a good comes from outside where it is needed.
fn is_raw(ground: &Ground<'_>, walk: &Walk, good: GoodId) -> bool {
    is_import(ground.wish, good)
        || (!ground.wish.dig && !walk.is_wanted(good) && is_good_marked(ground.state.mined, good))
}

// Whether the wish names the recipe of an activity as one that alone gives what it gives.
fn is_only(ground: &Ground<'_>, activity: Activity) -> bool {
    match activity {
        Activity::Craft(recipe) => {
            ground
                .wish
                .only
                .as_slice()
                .iter()
                .any(|only| only.0 == recipe.0)
        }
        _ => false,
    }
}

// Whether a craft or the like may make a good: a source's good only where the wish is for it, by a recipe that it names.
fn may_be_crafted(ground: &Ground<'_>, walk: &Walk, activity: Activity, good: GoodId) -> bool {
    !is_good_marked(ground.state.mined, good) || (walk.is_wanted(good) && is_only(ground, activity))
}

/// Whether a way may make a good: what is pumped is only pumped, and what a source gives is only mined, where that is asked for or it is
/// wished for.
pub fn may_make(ground: &Ground<'_>, walk: &Walk, way: usize, good: GoodId) -> bool {
    let Some(way) = ground.estimates.way(way) else {
        return false;
    };
    match way.activity {
        Activity::Pump(_) => true,
        Activity::Mine(_) => { ground.wish.dig || walk.is_wanted(good) }
        activity => {
            !ground.estimates.is_pumped(good) && may_be_crafted(ground, walk, activity, good)
        }
    }
}

// The cheapest way to a good that can be a row comes in, or is there. Answers whether one is.
fn take_cheapest(
    alloc: Global,
    ground: &Ground<'_>,
    walk: &mut Walk,
    good: GoodId,
) -> Result<bool, NoMemory>
    requires { IsSound ground.now.game.now }
{
    let ranked = ground.estimates.ranked_ways(alloc, good)?;
    for (way, _) in ranked.as_slice() {
        if walk.has_row(*way, good) {
            return Ok(true);
        }
        if !walk.is_used(*way) && may_make(ground, walk, *way, good) {
            if walk.try_way(alloc, ground, *way, good)? {
                return Ok(true);
            }
        }
    }
    Ok(false)
}

// A needed good that isn't made: it comes from outside, or is imported at its estimate.
fn leave(ground: &Ground<'_>, walk: &mut Walk, good: GoodId) {
    if is_good_marked(ground.state.mined, good) {
        mark_good(walk.raw.as_mut_slice(), good);
    } else if ground.estimates.is_known(good) && good.0 != walk.power.0 && !walk.is_wanted(good) {
        mark_good(walk.rim.as_mut_slice(), good);
    }
}

// Whether there is room for a row that makes a good.
fn has_room(walk: &Walk, good: GoodId) -> bool {
    !walk.is_full() || (walk.rows.len() < LIMIT && (good.0 == walk.power.0 || walk.is_wanted(good)))
}

// A needed good is looked at.
fn look_at(
    alloc: Global,
    ground: &Ground<'_>,
    walk: &mut Walk,
    good: GoodId,
) -> Result<(), NoMemory>
    requires { IsSound ground.now.game.now }
{
    if is_good_marked(walk.had.as_slice(), good) {
        return Ok(());
    }
    if is_raw(ground, walk, good) {
        mark_good(walk.raw.as_mut_slice(), good);
        return Ok(());
    }
    if !has_room(walk, good) || !take_cheapest(alloc, ground, walk, good)? {
        leave(ground, walk, good);
    }
    Ok(())
}

/// Goes on from the goods that are needed until each was looked at: it comes from outside, or its cheapest way comes in, or where there are
/// as many rows as there may be it is imported at its estimate.
///
/// # Errors
///
/// `NoMemory` where memory could not be had.
pub fn walk_on(alloc: Global, ground: &Ground<'_>, walk: &mut Walk) -> Result<(), NoMemory>
    requires { IsSound ground.now.game.now }
{
    for _ in 0..1_000_000 {
        match walk.pop() {
            Some(good) => look_at(alloc, ground, walk, good)?,
            None => break,
        }
    }
    Ok(())
}
