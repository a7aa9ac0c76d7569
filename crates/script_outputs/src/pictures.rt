//! The pictures of the things of a page, from a folder as `factorio --dump-icon-sprites` leaves it.
use page_rows::Thing;
use plan_base::{Kind, NoMemory};
use plan_pages::{Page, PageThing};
use program_runs::whole_file;
use std::alloc::Global;
use std::rt::Files;

// A picture has at most so many bytes.
const MOST: usize = 1 << 20;

// A PNG begins so.
const PNG: &[u8] = b"\x89PNG\r\n\x1a\n";

// The folders in which the picture of a thing may be, the first before others; none has an empty name.
fn first_folder(kind: Kind) -> &'static str {
    match kind {
        Kind::Special => "",
        Kind::Item => "item",
        Kind::Fluid => "fluid",
        Kind::Recipe => "recipe",
        Kind::Source => "entity",
        Kind::Machine => "entity",
        Kind::Tech => "technology",
    }
}

fn second_folder(kind: Kind) -> &'static str {
    match kind {
        Kind::Recipe => "item",
        Kind::Source => "item",
        Kind::Machine => "item",
        _ => "",
    }
}

fn third_folder(kind: Kind) -> &'static str {
    match kind {
        Kind::Recipe => "fluid",
        Kind::Source => "fluid",
        _ => "",
    }
}

// A name that leads to no other folder.
fn is_plain(name: &str) -> bool {
    !name.is_empty() && !name.contains('/') && !name.contains('\\') && !name.contains('\0')
}

fn is_picture(bytes: &[u8]) -> bool {
    bytes.starts_with(PNG)
}

// The picture of a name in a folder, where there is one.
fn picture_in<R: Files>(
    rt: &R,
    alloc: Global,
    within: &str,
    folder: &str,
    name: &str,
) -> Option<Vec<u8>> {
    if folder.is_empty() || !is_plain(name) {
        return None;
    }
    let path = format!(in alloc; "{within}/{folder}/{name}.png").ok()?;
    let bytes = whole_file(rt, alloc, path.as_str(), MOST)?;
    if is_picture(bytes.as_slice()) {
        Some(bytes)
    } else {
        None
    }
}

fn picture_of<R: Files>(
    rt: &R,
    alloc: Global,
    within: &str,
    kind: Kind,
    name: &str,
) -> Option<Vec<u8>> {
    if let Some(bytes) = picture_in(rt, alloc, within, first_folder(kind), name) {
        return Some(bytes);
    }
    if let Some(bytes) = picture_in(rt, alloc, within, second_folder(kind), name) {
        return Some(bytes);
    }
    picture_in(rt, alloc, within, third_folder(kind), name)
}

fn add_picture<R: Files>(
    rt: &R,
    alloc: Global,
    within: &str,
    page: &mut Page,
    shown: &PageThing,
) -> Result<(), NoMemory> {
    let thing: Thing = shown.thing;
    match picture_of(rt, alloc, within, thing.kind, shown.name.as_str()) {
        Some(bytes) => page.add_picture(alloc, thing, bytes.as_slice()),
        None => Ok(()),
    }
}

/// The pictures of the things of a page's plans come in, from a folder; of what has none there is none.
///
/// # Errors
///
/// `NoMemory` where memory could not be had.
pub fn add_pictures<R: Files>(
    rt: &R,
    alloc: Global,
    within: &str,
    page: &mut Page,
) -> Result<(), NoMemory> {
    let things = page.take_things(alloc);
    for shown in things.as_slice() {
        add_picture(rt, alloc, within, page, shown)?;
    }
    Ok(())
}
