//! One element of a list that goes or comes in, with the room that the way back needs.
ghost use Rattle.std.specs.Prelude.{◌≡◌, IfOk, List, vec_len, ℕ};
ghost use Rattle.planner_tables.specs.Undoing.{has_room, spliced};

use plan_base::NoMemory;
use std::alloc::Global;
use std::mem;

/// One element of a list that goes, or comes in at a place. The empty list beside it has room for the list as it is then, so
/// that no memory is wanted.
#[derive(Drop)]
pub enum Splice<T> {
    Remove { place: usize, room: Vec<T> },
    Insert { place: usize, item: T, room: Vec<T> },
}

// Whether a list is empty and has room for so many.
fn has_room<T>(room: &Vec<T>, count: usize) -> bool
    ensures { result ≡ has_room room.now count }
{
    room.is_empty() && count <= room.capacity()
}

// The element at a place goes.
fn take<T: Drop>(list: &mut Vec<T>, place: usize, room: Vec<T>) -> Splice<T>
    ensures after { list.new.items ≡ spliced (Splice.Remove place room) list.old.items }
    ensures back { spliced result list.new.items ≡ list.old.items }
{
    if place < list.len() && has_room(&room, list.len() - 1) {
        let mut kept = room;
        let item = list.remove(place);
        match kept.append(list) {
            Ok(()) => {}
            Err(_) => unreachable!(),
        }
        let room = mem::replace(list, kept);
        Splice::Insert { place, item, room }
    } else {
        Splice::Remove { place, room }
    }
}

// An element comes in at a place.
fn put<T: Drop>(list: &mut Vec<T>, place: usize, item: T, room: Vec<T>) -> Splice<T>
    ensures after { list.new.items ≡ spliced (Splice.Insert place item room) list.old.items }
    ensures back { spliced result list.new.items ≡ list.old.items }
{
    if place <= list.len() && has_room(&room, list.len() + 1) {
        let mut kept = room;
        match kept.append(list) {
            Ok(()) => {}
            Err(_) => unreachable!(),
        }
        match kept.insert(place, item) {
            Ok(()) => {}
            Err(_) => unreachable!(),
        }
        let room = mem::replace(list, kept);
        Splice::Remove { place, room }
    } else {
        Splice::Insert { place, item, room }
    }
}

/// Takes an element out, or puts one in, and answers what undoes that. It takes no memory. Nothing changes where the place or
/// the room doesn't fit.
pub(crate) fn exchange_element<T: Drop>(list: &mut Vec<T>, part: Splice<T>) -> Splice<T>
    ensures after { list.new.items ≡ spliced part list.old.items }
    ensures back { spliced result list.new.items ≡ list.old.items }
{
    match part {
        Splice::Remove { place, room } => take(list, place, room),
        Splice::Insert { place, item, room } => put(list, place, item, room),
    }
}

// An empty list with as much room.
fn copied_room<T: Drop>(alloc: Global, room: &Vec<T>) -> Result<Vec<T>, NoMemory>
    requires { vec_len room.now ≡ 0 }
    ensures { IfOk result (λ copy. (count : ℕ) → has_room copy count ≡ has_room room.now count) }
{
    let copy = Vec::with_capacity(alloc, room.capacity())?;
    Ok(copy)
}

// What changes no list: a list whose second element could go has no room here.
fn no_change<T: Drop>(alloc: Global) -> Splice<T>
    ensures { (list : List T) → spliced result list ≡ list }
{
    Splice::Remove {
        place: 1,
        room: Vec::new(alloc),
    }
}

/// The element at a place that goes, with room of its own.
pub(crate) fn copied_removal<T: Drop>(
    alloc: Global,
    place: usize,
    room: &Vec<T>,
) -> Result<Splice<T>, NoMemory>
    ensures { IfOk result (λ copy. (list : List T) → spliced copy list ≡ spliced (Splice.Remove place room.now) list) }
{
    if room.is_empty() {
        let room = copied_room(alloc, room)?;
        Ok(Splice::Remove { place, room })
    } else {
        Ok(no_change(alloc))
    }
}

/// An element that comes in at a place, with room of its own.
pub(crate) fn copied_insertion<T: Drop>(
    alloc: Global,
    place: usize,
    item: T,
    room: &Vec<T>,
) -> Result<Splice<T>, NoMemory>
    ensures { IfOk result (λ copy. (list : List T) → spliced copy list ≡ spliced (Splice.Insert place item room.now) list) }
{
    if room.is_empty() {
        let room = copied_room(alloc, room)?;
        Ok(Splice::Insert { place, item, room })
    } else {
        Ok(no_change(alloc))
    }
}
