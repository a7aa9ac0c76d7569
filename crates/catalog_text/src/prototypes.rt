//! What is shown of one prototype.
use crate::fields::Shown;
use crate::keys::{BELTS, GROUPS, SUBGROUPS};
use crate::named::Named;
use crate::trees::{has_word_at, is_true_at, members_of, number_at, text_at, value_at};
use fractions::Ratio;
use json_text::Tree;
use plan_base::{Kind, NoMemory, Text};
use std::alloc::Global;

/// The lists in which things stand, and belts.
#[derive(Drop)]
pub struct Lists {
    /// For each subgroup, the order of its group, its group, its own order and its name.
    subgroups: Named<Vec<Text>>,
    /// For each belt, how many tiles it goes a tick.
    belts: Named<Ratio>,
}

fn push_text(texts: &mut Vec<Text>, alloc: Global, text: &str) -> Result<(), NoMemory> {
    texts.push(Text::copy(alloc, text)?)?;
    Ok(())
}

// The order of a prototype; empty where it has none.
fn order_of(prototype: &Tree) -> &str {
    text_at(prototype, "order").unwrap_or("")
}

// The prototypes of a section.
fn prototypes_of<'a>(dump: &'a Tree, section: &str) -> &'a [(Text, Tree)] {
    match value_at(dump, section) {
        Some(section) => members_of(section),
        None => &[],
    }
}

// The orders of groups.
fn orders_of(alloc: Global, dump: &Tree) -> Result<Named<Text>, NoMemory> {
    let mut orders = Named::new(alloc);
    for (name, group) in prototypes_of(dump, GROUPS) {
        let order = Text::copy(alloc, order_of(group))?;
        orders.put(name.as_str(), order)?;
    }
    Ok(orders)
}

fn order_named<'a>(orders: &'a Named<Text>, name: &str) -> &'a str {
    match orders.find(name) {
        Some(order) => order.as_str(),
        None => "",
    }
}

// Where a subgroup stands.
fn place_of(
    alloc: Global,
    orders: &Named<Text>,
    name: &str,
    subgroup: &Tree,
) -> Result<Vec<Text>, NoMemory> {
    let group = text_at(subgroup, "group").unwrap_or("");
    let mut texts = Vec::new(alloc);
    push_text(&mut texts, alloc, order_named(orders, group))?;
    push_text(&mut texts, alloc, group)?;
    push_text(&mut texts, alloc, order_of(subgroup))?;
    push_text(&mut texts, alloc, name)?;
    Ok(texts)
}

fn subgroups_of(alloc: Global, dump: &Tree) -> Result<Named<Vec<Text>>, NoMemory> {
    let orders = orders_of(alloc, dump)?;
    let mut subgroups = Named::new(alloc);
    for (name, subgroup) in prototypes_of(dump, SUBGROUPS) {
        let place = place_of(alloc, &orders, name.as_str(), subgroup)?;
        subgroups.put(name.as_str(), place)?;
    }
    Ok(subgroups)
}

fn belts_of(alloc: Global, dump: &Tree) -> Result<Named<Ratio>, NoMemory> {
    let mut belts = Named::new(alloc);
    for (name, belt) in prototypes_of(dump, BELTS) {
        if let Some(speed) = number_at(belt, "speed") {
            belts.put(name.as_str(), speed)?;
        }
    }
    Ok(belts)
}

/// The lists of a dump.
pub fn lists_of(alloc: Global, dump: &Tree) -> Result<Lists, NoMemory> {
    let subgroups = subgroups_of(alloc, dump)?;
    let belts = belts_of(alloc, dump)?;
    Ok(Lists { subgroups, belts })
}

fn push_texts(texts: &mut Vec<Text>, alloc: Global, more: &[Text]) -> Result<(), NoMemory> {
    for text in more {
        push_text(texts, alloc, text.as_str())?;
    }
    Ok(())
}

fn place_named<'a>(lists: &'a Lists, subgroup: &str) -> &'a [Text] {
    match lists.subgroups.find(subgroup) {
        Some(place) => place.as_slice(),
        None => &[],
    }
}

// Where a prototype of a subgroup stands.
fn places_of(alloc: Global, lists: &Lists, prototype: &Tree) -> Result<Vec<Text>, NoMemory> {
    let mut texts = Vec::new(alloc);
    let subgroup = text_at(prototype, "subgroup").unwrap_or("");
    let place = place_named(lists, subgroup);
    if !place.is_empty() {
        push_texts(&mut texts, alloc, place)?;
        push_text(&mut texts, alloc, order_of(prototype))?;
    }
    Ok(texts)
}

// Whether the game hides a prototype.
fn is_hidden(prototype: &Tree) -> bool {
    is_true_at(prototype, "hidden")
        || has_word_at(prototype, "flags", "hidden")
        || is_hidden_within(prototype)
}

// Whether a recipe is hidden in its normal form.
fn is_hidden_within(prototype: &Tree) -> bool {
    match value_at(prototype, "normal") {
        Some(normal) => is_true_at(normal, "hidden"),
        None => false,
    }
}

// Items a second of a belt that goes so many tiles a tick: 8 stand on a tile, on both lanes, and there are 60 ticks a second.
fn carried(speed: &Ratio) -> Option<Ratio> {
    speed.mul(&Ratio::whole(480)).ok()
}

// Items a second of the belt that an item is placed as.
fn belt_of(lists: &Lists, prototype: &Tree) -> Option<Ratio> {
    let name = text_at(prototype, "place_result").unwrap_or("");
    match lists.belts.find(name) {
        Some(speed) => carried(speed),
        None => None,
    }
}

/// What is shown of a prototype of a kind.
pub fn shown_prototype(
    alloc: Global,
    lists: &Lists,
    kind: Kind,
    prototype: &Tree,
) -> Result<Shown, NoMemory> {
    let order = places_of(alloc, lists, prototype)?;
    let is_item = kind == Kind::Item;
    Ok(Shown {
        order,
        hidden: is_hidden(prototype),
        stack: if is_item {
            number_at(prototype, "stack_size")
        } else {
            None
        },
        belt: if is_item {
            belt_of(lists, prototype)
        } else {
            None
        },
    })
}
