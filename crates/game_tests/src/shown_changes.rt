//! Changes as they are shown.
use crate::shown_rows::row;
use crate::shown_words::{
    begin, begin_switch, begin_text, labelled, object, ratio, ratio_or_none, switch,
};
use fractions::Ratio;
use plan_base::{NoMemory, Text};
use plan_lines::{Change, Object};
use std::alloc::Global;

fn good_of_recipe(
    out: &mut String,
    alloc: Global,
    first: &str,
    goods: (&Object, &Object),
    amount: &Option<Ratio>,
) -> Result<(), NoMemory> {
    begin(out, first, goods.0)?;
    object(out, goods.1)?;
    ratio_or_none(out, alloc, amount)
}

fn begin_good(out: &mut String, first: &str, table: &Text, good: &Object) -> Result<(), NoMemory> {
    begin_text(out, first, table)?;
    object(out, good)
}

fn price_of_good(
    out: &mut String,
    alloc: Global,
    words: (&str, &Text),
    good: &Object,
    price: &Option<Ratio>,
) -> Result<(), NoMemory> {
    begin_good(out, words.0, words.1, good)?;
    ratio_or_none(out, alloc, price)
}

fn unlock(out: &mut String, tech: &Object, recipe: &Object, on: bool) -> Result<(), NoMemory> {
    begin(out, "unlock", tech)?;
    object(out, recipe)?;
    switch(out, on)
}

fn time(out: &mut String, alloc: Global, recipe: &Object, seconds: &Ratio) -> Result<(), NoMemory> {
    begin(out, "time", recipe)?;
    ratio(out, alloc, seconds)
}

fn price(
    out: &mut String,
    alloc: Global,
    table: &Text,
    label: &Text,
    price: &Ratio,
) -> Result<(), NoMemory> {
    labelled(out, "price", table, label)?;
    ratio(out, alloc, price)
}

fn want(
    out: &mut String,
    alloc: Global,
    table: &Text,
    good: &Object,
    amount: &Ratio,
) -> Result<(), NoMemory> {
    begin_good(out, "want", table, good)?;
    ratio(out, alloc, amount)
}

fn power(out: &mut String, table: &Text, on: bool) -> Result<(), NoMemory> {
    begin_text(out, "power", table)?;
    switch(out, on)
}

fn change(out: &mut String, alloc: Global, change: &Change) -> Result<(), NoMemory> {
    match change {
        Change::Grant(node) => begin(out, "grant", node),
        Change::Revoke(node) => begin(out, "revoke", node),
        Change::Forbid(node) => begin(out, "forbid", node),
        Change::Permit(node) => begin(out, "permit", node),
        Change::Milestone(node) => begin(out, "milestone", node),
        Change::Unmilestone(node) => begin(out, "unmilestone", node),
        Change::Ingredient {
            recipe,
            good,
            amount,
        } => good_of_recipe(out, alloc, "ingredient", (recipe, good), amount),
        Change::Product {
            recipe,
            good,
            amount,
        } => good_of_recipe(out, alloc, "product", (recipe, good), amount),
        Change::Unlock { tech, recipe, on } => unlock(out, tech, recipe, *on),
        Change::Time { recipe, seconds } => time(out, alloc, recipe, seconds),
        Change::Enabled { recipe, on } => begin_switch(out, "enabled", recipe, *on),
        Change::Table(table) => begin_text(out, "table", table),
        Change::Untable(table) => begin_text(out, "untable", table),
        Change::Row {
            table,
            label,
            activity,
            machine,
            parts,
        } => row(out, alloc, (table, label), (activity, machine), parts),
        Change::Unrow { table, label } => labelled(out, "unrow", table, label),
        Change::Price {
            table,
            label,
            price: of,
        } => price(out, alloc, table, label, of),
        Change::Want {
            table,
            good,
            amount,
        } => want(out, alloc, table, good, amount),
        Change::Import { table, good, price } => {
            price_of_good(out, alloc, ("import", table), good, price)
        }
        Change::Surplus { table, good, price } => {
            price_of_good(out, alloc, ("surplus", table), good, price)
        }
        Change::Power { table, on } => power(out, table, *on),
    }
}

/// An edit is shown by its copy.
pub fn copied(out: &mut String, alloc: Global, edit: &Change) -> Result<(), NoMemory> {
    let copy = edit.copy(alloc)?;
    change(out, alloc, &copy)
}
