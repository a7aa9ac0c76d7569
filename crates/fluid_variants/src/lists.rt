//! The temperatures of each fluid.
ghost use Rattle.std.specs.Prelude.{◌≡◌, ◌+◌, ◌-◌, ◌<◌, ◌≤◌, [], All, IfOk, OnOk, length, slice_get, slice_index_or, slice_set};
ghost use Rattle.std.specs.List.{prefix_len};
ghost use Rattle.std.specs.List.Sorted.{IsPermutation};
ghost use Rattle.game_types.specs.Sound.{IsSound};
ghost use Rattle.game_types.specs.Temperatures.{is_cooler};
ghost use Rattle.fluid_variants.specs.Contents.{AreEmpty, ArePut, contents};
ghost use Rattle.fluid_variants.specs.Temperatures.{IsRising, temperature_lists, with_temperature};

use crate::made::{Made, all_made};
use fractions::Ratio;
use game_types::Game;
use plan_base::NoMemory;
use std::alloc::Global;
use std::cmp::Ordering;

// Whether a temperature is below another.
fn is_cooler(at: &Ratio, other: &Ratio) -> bool
    ensures { result ≡ is_cooler at.now other.now }
{
    match at.cmp(other) {
        Ordering::Less => true,
        Ordering::Equal => false,
        Ordering::Greater => false,
    }
}

/// How many of some temperatures, which rise, are below one.
pub fn cooler_count(temperatures: &[Ratio], at: &Ratio) -> usize
    requires { IsRising temperatures.now }
    ensures count { result ≡ prefix_len (λ lower. is_cooler lower at.now) temperatures.now }
    ensures within { result ≤ length temperatures.now }
{
    temperatures.partition_point(|lower| is_cooler(lower, at))
}

// The temperature at a place.
fn at_place(temperatures: &[Ratio], place: usize) -> Option<Ratio>
    ensures { result ≡ slice_get temperatures.now place }
{
    match temperatures.get(place) {
        Some(at) => Some(*at),
        None => None,
    }
}

// Puts a temperature among others, which rise, unless it is there.
fn put_temperature(list: &mut Vec<Ratio>, at: Ratio) -> Result<(), NoMemory>
    requires { IsRising list.old.items }
    ensures { IfOk result (λ done. list.new.items ≡ with_temperature at list.old.items) }
{
    let place = cooler_count(list.as_slice(), &at);
    match at_place(list.as_slice(), place) {
        Some(next) => {
            if is_cooler(&at, &next) {
                list.insert(place, at)?;
            }
        }
        None => list.push(at)?,
    }
    Ok(())
}

// One thing more is made of a fluid; the first good that is a fluid has this number.
fn put_made(lists: &mut [Vec<Ratio>], items: usize, made: &Made) -> Result<(), NoMemory>
    requires rising { All IsRising (contents lists.old) }
    requires within { items ≤ made.now.good.0 }
    requires below { made.now.good.0 < items + length lists.old }
    ensures { OnOk result (contents lists.new ≡ slice_set (contents lists.old) (made.now.good.0 - items) (with_temperature made.now.at (slice_index_or (contents lists.old) (made.now.good.0 - items) []))) }
{
    let place = made.good.0 as usize - items;
    let list = &mut lists[place];
    put_temperature(list, made.at)?;
    Ok(())
}

// All that is made of fluids.
fn put_all(lists: &mut [Vec<Ratio>], items: usize, all: &[Made]) -> Result<(), NoMemory>
    requires rising { All IsRising (contents lists.old) }
    requires there { All (λ made. (items ≤ made.good.0) × (made.good.0 < items + length lists.old)) all.now }
    ensures { OnOk result (ArePut items all.now (contents lists.old) (contents lists.new)) }
{
    for made in all {
        put_made(lists, items, made)?;
    }
    Ok(())
}

// So many empty lists.
fn empty_lists(alloc: Global, count: usize) -> Result<Vec<Vec<Ratio>>, NoMemory>
    ensures { IfOk result (λ lists. AreEmpty count (contents lists.items)) }
{
    let mut lists = Vec::new(alloc);
    for number in 0..count {
        let _place = number;
        lists.push(Vec::new(alloc))?;
    }
    Ok(lists)
}

// Puts what is made into the order of its temperatures, so that each comes behind those that its fluid has so far.
fn coolest_first(all: &mut Vec<Made>)
    ensures { IsPermutation all.old.items all.new.items }
{
    all.sort_unstable_by(|one, other| one.at.cmp(&other.at));
}

/// The temperatures of each fluid, in order.
pub fn temperature_lists(alloc: Global, game: &Game) -> Result<Vec<Vec<Ratio>>, NoMemory>
    requires { IsSound game.now }
    ensures { IfOk result (λ lists. contents lists.items ≡ temperature_lists game.now) }
{
    let mut made = all_made(alloc, game)?;
    coolest_first(&mut made);
    let mut lists = empty_lists(alloc, game.fluids.len())?;
    put_all(lists.as_mut_slice(), game.items.len(), made.as_slice())?;
    Ok(lists)
}
