//! Numbers of goods: wants, and the prices of what may come in and go out, in the order of goods.
ghost use Rattle.std.specs.Prelude.{◌≡◌, OnErr, OnOk, position};
ghost use Rattle.production_table.specs.Numbers.{guard, is_pair_of, lacks, no_room, number_of, or_nothing, price_fits, put_or_take, repriced, want_fits, rewanted, with_number, without_number, ListChanges};

use crate::{LIMIT, TableFault};
use fractions::{Ratio, is_negative, is_zero};
use plan_base::{Denied, GoodId, Items, NoMemory};
use std::alloc::Global;
use std::mem;
use table_rows::{has_at, place_in};

/// The number of a good, where it has one.
pub fn number_of(pairs: &[(GoodId, Ratio)], good: GoodId) -> Option<Ratio>
    ensures { result ≡ number_of pairs.now good }
{
    for pair in pairs {
        if pair.0.0 == good.0 {
            return Some(pair.1);
        }
    }
    None
}

// A good's number is set, at its place in the order.
fn put_number(
    pairs: &mut Vec<(GoodId, Ratio)>,
    good: GoodId,
    number: &Ratio,
) -> Result<(), NoMemory>
    ensures ok { OnOk result (pairs.new.items ≡ with_number good number.now pairs.old.items) }
    ensures err { OnErr result (pairs.new.items ≡ pairs.old.items) }
{
    let place = place_in(pairs.as_slice(), good);
    if has_at(pairs.as_slice(), place, good) {
        pairs[place] = (good, *number);
        return Ok(());
    }
    pairs.insert(place, (good, *number))?;
    Ok(())
}

// The first place of a good.
fn find(pairs: &[(GoodId, Ratio)], good: GoodId) -> Option<usize>
    ensures { result ≡ position (is_pair_of good) pairs.now }
{
    pairs.iter().position(|pair| pair.0.0 == good.0)
}

// A good's number is taken away.
fn take_number(pairs: &mut Vec<(GoodId, Ratio)>, good: GoodId)
    ensures { pairs.new.items ≡ without_number good pairs.old.items }
{
    match find(pairs.as_slice(), good) {
        Some(place) => {
            let _taken = pairs.remove(place);
        }
        None => {}
    }
}

// The same among a table's numbers.
fn put(
    alloc: Global,
    pairs: &mut Items<(GoodId, Ratio)>,
    good: GoodId,
    number: &Ratio,
) -> Result<(), NoMemory>
    ensures ok { OnOk result (pairs.new ≡ with_number good number.now pairs.old) }
    ensures err { OnErr result (pairs.new ≡ pairs.old) }
{
    let none = Items::from_vec(Vec::new(alloc));
    let mut list = mem::replace(pairs, none).into_vec();
    let done = put_number(&mut list, good, number);
    *pairs = Items::from_vec(list);
    done
}

fn take(alloc: Global, pairs: &mut Items<(GoodId, Ratio)>, good: GoodId)
    ensures { pairs.new ≡ without_number good pairs.old }
{
    let none = Items::from_vec(Vec::new(alloc));
    let mut list = mem::replace(pairs, none).into_vec();
    take_number(&mut list, good);
    *pairs = Items::from_vec(list);
}

/// A fault, or none.
pub fn guard(refuses: bool, fault: TableFault) -> Result<(), TableFault>
    ensures { result ≡ guard refuses fault }
{
    if refuses { Err(fault) } else { Ok(()) }
}

// Whether a good has no number.
fn lacks(pairs: &[(GoodId, Ratio)], good: GoodId) -> bool
    ensures { result ≡ lacks pairs.now good }
{
    number_of(pairs, good).is_none()
}

// Whether a new good would be one too many.
fn has_no_room(pairs: &[(GoodId, Ratio)], good: GoodId) -> bool
    ensures { result ≡ no_room pairs.now good }
{
    lacks(pairs, good) && pairs.len() >= LIMIT
}

// A good's number is set, or taken away.
fn put_or_take(
    alloc: Global,
    pairs: &mut Items<(GoodId, Ratio)>,
    good: GoodId,
    number: Option<Ratio>,
) -> Result<(), NoMemory>
    ensures ok { OnOk result (pairs.new ≡ put_or_take good number pairs.old) }
    ensures err { OnErr result (pairs.new ≡ pairs.old) }
{
    match number {
        Some(number) => put(alloc, pairs, good, &number),
        None => {
            take(alloc, pairs, good);
            Ok(())
        }
    }
}

// Whether a price can be set, or taken away.
fn price_fits(
    pairs: &[(GoodId, Ratio)],
    good: GoodId,
    price: &Option<Ratio>,
) -> Result<(), TableFault>
    ensures { result ≡ price_fits pairs.now good price.now }
{
    match price {
        Some(price) => {
            guard(is_negative(price), TableFault::Negative)?;
            guard(has_no_room(pairs, good), TableFault::Full)
        }
        None => guard(lacks(pairs, good), TableFault::Unknown),
    }
}

// Whether a want can be set.
fn want_fits(pairs: &[(GoodId, Ratio)], good: GoodId, rate: &Ratio) -> Result<(), TableFault>
    ensures { result ≡ want_fits pairs.now good rate.now }
{
    guard(is_negative(rate), TableFault::Negative)?;
    guard(!is_zero(rate) && has_no_room(pairs, good), TableFault::Full)
}

// A rate, or none where it is 0.
fn or_nothing(rate: &Ratio) -> Option<Ratio>
    ensures { result ≡ or_nothing rate.now }
{
    if is_zero(rate) { None } else { Some(*rate) }
}

#[tactic(auto, unfolding(crate::specs::Numbers::rewanted))]
/// What is wanted of a good is set, where 0 takes it away. Answers the old want.
pub fn rewant(
    alloc: Global,
    wants: &mut Items<(GoodId, Ratio)>,
    good: GoodId,
    rate: &Ratio,
) -> Result<Option<Ratio>, Denied<TableFault>>
    ensures { ListChanges (rewanted good rate.now wants.old) result wants.old wants.new }
{
    want_fits(wants.as_slice(), good, rate)?;
    let old = number_of(wants.as_slice(), good);
    put_or_take(alloc, wants, good, or_nothing(rate))?;
    Ok(old)
}

#[tactic(auto, unfolding(crate::specs::Numbers::repriced))]
/// The price of what may come in, or go out, is set, or taken away. Answers the old price.
pub fn reprice(
    alloc: Global,
    prices: &mut Items<(GoodId, Ratio)>,
    good: GoodId,
    price: Option<Ratio>,
) -> Result<Option<Ratio>, Denied<TableFault>>
    ensures { ListChanges (repriced good price prices.old) result prices.old prices.new }
{
    price_fits(prices.as_slice(), good, &price)?;
    let old = number_of(prices.as_slice(), good);
    put_or_take(alloc, prices, good, price)?;
    Ok(old)
}
