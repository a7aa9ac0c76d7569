//! The goods of a table, and the place of each among them.

ghost use Rattle.std.specs.Prelude.{◌≡◌, ◌<◌, ◌≤◌, IfOk, OnOk, false, length, nat_lt, position, slice_get, true};
ghost use Rattle.std.specs.List.Sorted.{IsPartitionPoint};
ghost use Rattle.production_table.specs.Linear.{is_good_at, is_not_below, is_numbered, place_in, table_goods, with_columns, with_good, with_goods};
ghost use Rattle.production_table.specs.Tables.{GoodsRise};

use crate::{LIMIT, Table};
use fractions::Ratio;
use plan_base::{GoodId, Items, NoMemory};
use std::alloc::Global;

// The place of the first good that isn't below this one.
fn find(goods: &[GoodId], good: GoodId) -> Option<usize>
    ensures { result ≡ position (is_not_below good) goods.now }
{
    goods.iter().position(|other| good.0 <= other.0)
}

// One good more, where it isn't there.
fn add_good(goods: &mut Vec<GoodId>, good: GoodId) -> Result<(), NoMemory>
    ensures { OnOk result (goods.new.items ≡ with_good good goods.old.items) }
{
    match find(goods.as_slice(), good) {
        Some(place) => {
            let other = goods[place];
            if other.0 != good.0 {
                goods.insert(place, good)?;
            }
        }
        None => goods.push(good)?,
    }
    Ok(())
}

// The goods of a list more.
fn add_goods(goods: &mut Vec<GoodId>, pairs: &[(GoodId, Ratio)]) -> Result<(), NoMemory>
    ensures { OnOk result (goods.new.items ≡ with_goods goods.old.items pairs.now) }
{
    for pair in pairs {
        add_good(goods, pair.0)?;
    }
    Ok(())
}

// The goods of columns more.
fn add_columns(goods: &mut Vec<GoodId>, columns: &[Items<(GoodId, Ratio)>]) -> Result<(), NoMemory>
    ensures { OnOk result (goods.new.items ≡ with_columns goods.old.items columns.now) }
{
    for column in columns {
        add_goods(goods, column.as_slice())?;
    }
    Ok(())
}

// The goods of a table.
pub(crate) fn goods_of(
    alloc: Global,
    table: &Table,
    columns: &[Items<(GoodId, Ratio)>],
) -> Result<Vec<GoodId>, NoMemory>
    ensures { IfOk result (λ goods. goods.items ≡ table_goods table.now columns.now) }
{
    let mut goods = Vec::new(alloc);
    add_columns(&mut goods, columns)?;
    add_goods(&mut goods, table.wants.as_slice())?;
    add_goods(&mut goods, table.imports.as_slice())?;
    add_goods(&mut goods, table.surpluses.as_slice())?;
    Ok(goods)
}

// How many of the goods, which rise, come before this one.
fn count_below(goods: &[GoodId], good: GoodId) -> usize
    requires { GoodsRise 0 goods.now }
    ensures { IsPartitionPoint (λ other. nat_lt other.0 good.0 ≡ true) (λ other. nat_lt other.0 good.0 ≡ false) goods.now result }
{
    goods.partition_point(|other| other.0 < good.0)
}

// Whether a good stands at a place.
fn is_good_at(goods: &[GoodId], place: usize, good: GoodId) -> bool
    ensures { result ≡ is_good_at good.0 (slice_get goods.now place) }
{
    match goods.get(place) {
        Some(other) => other.0 == good.0,
        None => false,
    }
}

// The place of a good among goods that rise, where it is there.
fn find_good(goods: &[GoodId], good: GoodId) -> Option<usize>
    requires { GoodsRise 0 goods.now }
    ensures { result ≡ position (is_numbered good.0) goods.now }
{
    let place = count_below(goods, good);
    if is_good_at(goods, place, good) {
        Some(place)
    } else {
        None
    }
}

#[tactic(auto, unfolding(crate::specs::Linear::place_in))]
// The place of a good.
pub(crate) fn place_in(goods: &[GoodId], good: GoodId) -> usize
    requires { GoodsRise 0 goods.now }
    ensures { result ≡ place_in goods.now good.0 }
{
    match find_good(goods, good) {
        Some(place) => place,
        None => 0,
    }
}

// The place of a good among so few that its number is small.
pub(crate) fn small_place_in(goods: &[GoodId], good: GoodId) -> u32
    requires few { length goods.now ≤ 512 }
    requires rises { GoodsRise 0 goods.now }
    ensures { result ≡ place_in goods.now good.0 }
{
    let place = place_in(goods, good);
    if place < LIMIT { place as u32 } else { 0 }
}
