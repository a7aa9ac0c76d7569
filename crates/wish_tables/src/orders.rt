//! The orders in which rows are tried: whether the solver meets its limits hangs on them.
use game_types::Activity;
use plan_base::NoMemory;
use std::alloc::Global;
use wish_estimates::Walk;

/// How many orders there are.
pub const ORDERS: usize = 8;

// The place of what a row does among kinds of activities.
fn kind_of(activity: Activity) -> u64 {
    match activity {
        Activity::Research(_) => 0,
        Activity::Craft(_) => 1,
        Activity::Mine(_) => 2,
        Activity::Pump(_) => 3,
        Activity::Boil(_) => 4,
        Activity::Generate => 5,
    }
}

// A number that mixes a place's bits, as a fixed shuffle.
fn mixed(place: usize, turn: u64) -> u64 {
    let mut number = (place as u64).wrapping_mul(0x9e37_79b9_7f4a_7c15);
    number = number.wrapping_add(turn.wrapping_mul(0xbf58_476d_1ce4_e5b9));
    number = (number ^ (number >> 29)).wrapping_mul(0x94d0_49bb_1331_11eb);
    number ^ (number >> 32)
}

// The key by which the row at a place is sorted in an order.
fn key(walk: &Walk, order: usize, place: usize) -> u64 {
    let kind = match walk.rows.as_slice().get(place) {
        Some(row) => kind_of(row.setup.activity),
        None => 0,
    };
    let parts = match walk.rows.as_slice().get(place) {
        Some(row) => row.column.len() as u64,
        None => 0,
    };
    let place = place as u64;
    match order {
        0 => place,
        1 => u64::MAX - place,
        2 => 7u64
            .wrapping_sub(kind)
            .wrapping_mul(0x1_0000_0000)
            .wrapping_add(place),
        3 => parts.wrapping_mul(0x1_0000_0000).wrapping_add(place),
        4 => 1000u64
            .wrapping_sub(parts)
            .wrapping_mul(0x1_0000_0000)
            .wrapping_add(place),
        _ => mixed(place as usize, order as u64),
    }
}

/// The places of a walk's rows in an order.
///
/// # Errors
///
/// `NoMemory` where memory could not be had.
pub fn ordered(alloc: Global, walk: &Walk, order: usize) -> Result<Vec<usize>, NoMemory> {
    let mut keyed = Vec::new(alloc);
    for place in 0..walk.rows.len() {
        keyed.push((key(walk, order, place), place))?;
    }
    keyed.sort_unstable();
    places_of(alloc, keyed.as_slice())
}

fn places_of(alloc: Global, keyed: &[(u64, usize)]) -> Result<Vec<usize>, NoMemory> {
    let mut places = Vec::new(alloc);
    for pair in keyed {
        places.push(pair.1)?;
    }
    Ok(places)
}
