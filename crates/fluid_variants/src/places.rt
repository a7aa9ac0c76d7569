//! Where the records of each fluid stand among the goods.
ghost use Rattle.std.specs.Prelude.{All, ◌≡◌, ℕ, ◌<◌, ◌≤◌, ◌++◌, IfOk, length, slice_get, slice_index_or};
ghost use Rattle.fluid_variants.specs.Contents.{contents};
ghost use Rattle.fluid_variants.specs.Temperatures.{IsRising};
ghost use Rattle.fluid_variants.specs.Places.{ArePlaces, place_or};
ghost use Rattle.fluid_variants.specs.Records.{all_records, list_at, plain_of, record_count, record_of, record_place, variant_offset};

use crate::records::put_records;
use crate::renumbering::Renumber;
use crate::{Made, cooler_count};
use fractions::Ratio;
use game_types::Fluid;
use plan_base::{GoodId, NoMemory};
use std::alloc::Global;
use std::marker::Model;

/// The goods of a game numbered anew, seen as the number of its items and the temperatures of each fluid.
#[derive(Drop)]
pub struct Places {
    items: u32,
    lists: Vec<Vec<Ratio>>,
    /// Of each fluid the first record.
    places: Vec<u32>,
    /// The good behind all records.
    last: u32,
}

impl Model for Places {
    ghost use Rattle.fluid_variants.specs.Contents.{contents};
    ghost use Rattle.fluid_variants.specs.Places.{ArePlaces, Listed};

    ghost Value = { Listed };

    ghost view = { λ p. record { items = p.items; lists = contents p.lists.items } };

    ghost invariant = { λ p. ArePlaces p.items (contents p.lists.items) p.places.items p.last };
}

/// How many records a fluid has by its temperatures.
pub fn record_count(temperatures: &[Ratio]) -> usize
    ensures { result ≡ record_count temperatures.now }
{
    match temperatures {
        [] => 1,
        [_] => 1,
        _ => 1 + temperatures.len(),
    }
}

// How far behind its first record the variant of a temperature stands.
fn variant_offset(temperatures: &[Ratio], at: &Ratio) -> usize
    requires { IsRising temperatures.now }
    ensures { result ≡ variant_offset temperatures.now at.now }
{
    match temperatures {
        [] => 0,
        [_] => 0,
        _ => 1 + cooler_count(temperatures, at),
    }
}

// How far behind its first record the variant of a temperature of a fluid stands.
#[tactic(auto, using(crate::proofs::PlaceLemmas::offset_there, crate::proofs::PlaceLemmas::offset_none))]
fn offset_in(lists: &[Vec<Ratio>], number: usize, at: &Ratio) -> usize
    requires { All IsRising (contents lists.now) }
    ensures { result ≡ variant_offset (list_at (contents lists.now) number) at.now }
{
    match lists.get(number) {
        Some(list) => variant_offset(list.as_slice(), at),
        None => 0,
    }
}

// The place of the first record of a fluid.
fn place_or(places: &[u32], last: u32, number: usize) -> u32
    ensures { result ≡ place_or last (slice_get places.now number) }
{
    match places.get(number) {
        Some(place) => *place,
        None => last,
    }
}

// The places of the first records, and the place behind all.
#[tactic(auto, using(crate::proofs::PlaceLemmas::places_none, crate::proofs::PlaceLemmas::places_more, crate::proofs::PlaceLemmas::places_all))]
fn places_of(alloc: Global, items: u32, lists: &[Vec<Ratio>]) -> Result<(Vec<u32>, u32), NoMemory>
    requires rising { All IsRising (contents lists.now) }
    requires few { record_place items (contents lists.now) (length lists.now) ≤ 131_072 }
    ensures { IfOk result (λ places. ArePlaces items (contents lists.now) places.0.items places.1) }
{
    let mut places = Vec::new(alloc);
    let mut place = items;
    for list in lists {
        places.push(place)?;
        place += record_count(list.as_slice()) as u32;
    }
    Ok((places, place))
}

impl Places {
    /// Numbers the goods of a game anew whose fluids have these temperatures.
    pub fn make(alloc: Global, items: u32, lists: Vec<Vec<Ratio>>) -> Result<Places, NoMemory>
        requires rising { All IsRising (contents lists.items) }
        requires few { record_place items (contents lists.items) (length lists.items) ≤ 131_072 }
        ensures { IfOk result (λ places. places ≡ record { items = items; lists = contents lists.items }) }
    {
        let (places, last) = places_of(alloc, items, lists.as_slice())?;
        Ok(Places {
            items,
            lists,
            places,
            last,
        })
    }

    // The plain record or the base of a good.
    #[tactic(auto, using(crate::proofs::PlaceLemmas::taken_item, crate::proofs::PlaceLemmas::taken_fluid))]
    fn plain(&self, good: GoodId) -> GoodId
        ensures { result ≡ plain_of self.now.items self.now.lists good }
    {
        if good.0 < self.items {
            return good;
        }
        let number = (good.0 - self.items) as usize;
        GoodId(place_or(self.places.as_slice(), self.last, number))
    }

    // The record of what is made.
    fn made(&self, made: &Made) -> GoodId
        ensures { result ≡ record_of self.now.items self.now.lists made.now }
    {
        let plain = self.plain(made.good);
        let number = made.good.0.saturating_sub(self.items) as usize;
        let offset = offset_in(self.lists.as_slice(), number, &made.at);
        GoodId(plain.0 + offset as u32)
    }

    /// The records of all fluids.
    pub fn records(&self, alloc: Global, fluids: &[Fluid]) -> Result<Vec<Fluid>, NoMemory>
        requires { length fluids.now ≡ length self.now.lists }
        ensures { IfOk result (λ records. records.items ≡ all_records self.now.items fluids.now self.now.lists) }
    {
        let mut records = Vec::new(alloc);
        put_all_records(
            &mut records,
            self.items,
            fluids,
            self.lists.as_slice(),
            self.places.as_slice(),
        )?;
        Ok(records)
    }
}

// The records of all fluids, behind others.
#[tactic(auto, using(crate::proofs::PlaceLemmas::records_first, crate::proofs::PlaceLemmas::records_next, crate::proofs::PlaceLemmas::records_end))]
fn put_all_records(
    records: &mut Vec<Fluid>,
    items: u32,
    fluids: &[Fluid],
    lists: &[Vec<Ratio>],
    places: &[u32],
) -> Result<(), NoMemory>
    requires fluids { length fluids.now ≡ length lists.now }
    requires long { length places.now ≡ length lists.now }
    requires places { (k : ℕ) → k < length lists.now → slice_index_or places.now k 0 ≡ record_place items (contents lists.now) k }
    ensures { IfOk result (λ done. records.new.items ≡ records.old.items ++ all_records items fluids.now (contents lists.now)) }
{
    for (number, fluid) in fluids.iter().enumerate() {
        let first = GoodId(places[number]);
        put_records(records, first, fluid, lists[number].as_slice())?;
    }
    Ok(())
}

impl Renumber for Places {
    ghost use Rattle.fluid_variants.specs.Records.{plain_of, record_of};

    ghost taken_as = { λ p good. plain_of p.items p.lists good };

    ghost given_as = { λ p m. record_of p.items p.lists m };

    fn taken(&self, good: GoodId) -> GoodId {
        self.plain(good)
    }

    fn given(&self, made: &Made) -> GoodId {
        self.made(made)
    }
}
