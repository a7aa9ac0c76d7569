//! Equal edits of their own.
ghost use Rattle.std.specs.Prelude.{◌≡◌, IfOk};

use crate::{Change, Object, RowPart};
use fractions::Ratio;
use plan_base::{Items, NoMemory, Text};
use std::alloc::Global;

/// An equal text of its own.
pub fn copy_text(alloc: Global, text: &Text) -> Result<Text, NoMemory>
    ensures { IfOk result (λ copy. copy ≡ text.now) }
{
    Text::copy(alloc, text.as_str())
}

impl Object {
    /// An equal object of its own.
    ///
    /// # Errors
    ///
    /// `NoMemory` where memory could not be had.
    pub fn copy(&self, alloc: Global) -> Result<Object, NoMemory>
        ensures { IfOk result (λ copy. copy ≡ self.now) }
    {
        let kind = self.kind;
        let name = copy_text(alloc, &self.name)?;
        Ok(Object { kind, name })
    }
}

impl RowPart {
    /// An equal part of its own.
    ///
    /// # Errors
    ///
    /// `NoMemory` where memory could not be had.
    pub fn copy(&self, alloc: Global) -> Result<RowPart, NoMemory>
        ensures { IfOk result (λ copy. copy ≡ self.now) }
    {
        match self {
            RowPart::Fuel(item) => Ok(RowPart::Fuel(item.copy(alloc)?)),
            RowPart::Module(item, count) => Ok(RowPart::Module(item.copy(alloc)?, *count)),
            RowPart::Beacon {
                machine,
                count,
                share,
            } => {
                let machine = machine.copy(alloc)?;
                Ok(RowPart::Beacon {
                    machine,
                    count: *count,
                    share: *share,
                })
            }
            RowPart::In(item, count) => Ok(RowPart::In(item.copy(alloc)?, *count)),
            RowPart::At(fluid) => Ok(RowPart::At(fluid.copy(alloc)?)),
        }
    }
}

fn copy_parts(alloc: Global, parts: &[RowPart]) -> Result<Items<RowPart>, NoMemory>
    ensures { IfOk result (λ copy. copy ≡ parts.now) }
{
    let mut copy = Vec::new(alloc);
    for part in parts {
        let one = part.copy(alloc)?;
        copy.push(one)?;
    }
    Ok(Items::from_vec(copy))
}

fn copy_ratio(ratio: &Option<Ratio>) -> Option<Ratio>
    ensures { result ≡ ratio.now }
{
    match ratio {
        Some(value) => Some(*value),
        None => None,
    }
}

/// Equal texts of their own.
pub fn two_copies(alloc: Global, a: &Text, b: &Text) -> Result<(Text, Text), NoMemory>
    ensures { IfOk result (λ p. p ≡ (a.now, b.now)) }
{
    let a = copy_text(alloc, a)?;
    let b = copy_text(alloc, b)?;
    Ok((a, b))
}

fn two_objects(alloc: Global, a: &Object, b: &Object) -> Result<(Object, Object), NoMemory>
    ensures { IfOk result (λ p. p ≡ (a.now, b.now)) }
{
    let a = a.copy(alloc)?;
    let b = b.copy(alloc)?;
    Ok((a, b))
}

fn text_and_object(alloc: Global, a: &Text, b: &Object) -> Result<(Text, Object), NoMemory>
    ensures { IfOk result (λ p. p ≡ (a.now, b.now)) }
{
    let a = copy_text(alloc, a)?;
    let b = b.copy(alloc)?;
    Ok((a, b))
}

fn copy_row(
    alloc: Global,
    table: &Text,
    label: &Text,
    activity: &Object,
    machine: &Object,
    parts: &[RowPart],
) -> Result<Change, NoMemory>
    ensures { IfOk result (λ copy. copy ≡ Change.Row table.now label.now activity.now machine.now parts.now) }
{
    let (table, label) = two_copies(alloc, table, label)?;
    let (activity, machine) = two_objects(alloc, activity, machine)?;
    let parts = copy_parts(alloc, parts)?;
    Ok(Change::Row {
        table,
        label,
        activity,
        machine,
        parts,
    })
}

fn copy_ingredient(
    alloc: Global,
    recipe: &Object,
    good: &Object,
    amount: &Option<Ratio>,
) -> Result<Change, NoMemory>
    ensures { IfOk result (λ copy. copy ≡ Change.Ingredient recipe.now good.now amount.now) }
{
    let (recipe, good) = two_objects(alloc, recipe, good)?;
    Ok(Change::Ingredient {
        recipe,
        good,
        amount: copy_ratio(amount),
    })
}

fn copy_product(
    alloc: Global,
    recipe: &Object,
    good: &Object,
    amount: &Option<Ratio>,
) -> Result<Change, NoMemory>
    ensures { IfOk result (λ copy. copy ≡ Change.Product recipe.now good.now amount.now) }
{
    let (recipe, good) = two_objects(alloc, recipe, good)?;
    Ok(Change::Product {
        recipe,
        good,
        amount: copy_ratio(amount),
    })
}

fn copy_import(
    alloc: Global,
    table: &Text,
    good: &Object,
    price: &Option<Ratio>,
) -> Result<Change, NoMemory>
    ensures { IfOk result (λ copy. copy ≡ Change.Import table.now good.now price.now) }
{
    let (table, good) = text_and_object(alloc, table, good)?;
    Ok(Change::Import {
        table,
        good,
        price: copy_ratio(price),
    })
}

fn copy_surplus(
    alloc: Global,
    table: &Text,
    good: &Object,
    price: &Option<Ratio>,
) -> Result<Change, NoMemory>
    ensures { IfOk result (λ copy. copy ≡ Change.Surplus table.now good.now price.now) }
{
    let (table, good) = text_and_object(alloc, table, good)?;
    Ok(Change::Surplus {
        table,
        good,
        price: copy_ratio(price),
    })
}

fn copy_price(alloc: Global, table: &Text, label: &Text, price: Ratio) -> Result<Change, NoMemory>
    ensures { IfOk result (λ copy. copy ≡ Change.Price table.now label.now price) }
{
    let (table, label) = two_copies(alloc, table, label)?;
    Ok(Change::Price {
        table,
        label,
        price,
    })
}

fn copy_want(alloc: Global, table: &Text, good: &Object, amount: Ratio) -> Result<Change, NoMemory>
    ensures { IfOk result (λ copy. copy ≡ Change.Want table.now good.now amount) }
{
    let (table, good) = text_and_object(alloc, table, good)?;
    Ok(Change::Want {
        table,
        good,
        amount,
    })
}

impl Change {
    /// An equal edit of its own.
    ///
    /// # Errors
    ///
    /// `NoMemory` where memory could not be had.
    pub fn copy(&self, alloc: Global) -> Result<Change, NoMemory>
        ensures { IfOk result (λ copy. copy ≡ self.now) }
    {
        match self {
            Change::Grant(node) => Ok(Change::Grant(node.copy(alloc)?)),
            Change::Revoke(node) => Ok(Change::Revoke(node.copy(alloc)?)),
            Change::Forbid(node) => Ok(Change::Forbid(node.copy(alloc)?)),
            Change::Permit(node) => Ok(Change::Permit(node.copy(alloc)?)),
            Change::Milestone(node) => Ok(Change::Milestone(node.copy(alloc)?)),
            Change::Unmilestone(node) => Ok(Change::Unmilestone(node.copy(alloc)?)),
            Change::Ingredient {
                recipe,
                good,
                amount,
            } => copy_ingredient(alloc, recipe, good, amount),
            Change::Product {
                recipe,
                good,
                amount,
            } => copy_product(alloc, recipe, good, amount),
            Change::Unlock { tech, recipe, on } => {
                let (tech, recipe) = two_objects(alloc, tech, recipe)?;
                Ok(Change::Unlock {
                    tech,
                    recipe,
                    on: *on,
                })
            }
            Change::Time { recipe, seconds } => Ok(Change::Time {
                recipe: recipe.copy(alloc)?,
                seconds: *seconds,
            }),
            Change::Enabled { recipe, on } => Ok(Change::Enabled {
                recipe: recipe.copy(alloc)?,
                on: *on,
            }),
            Change::Table(table) => Ok(Change::Table(copy_text(alloc, table)?)),
            Change::Untable(table) => Ok(Change::Untable(copy_text(alloc, table)?)),
            Change::Row {
                table,
                label,
                activity,
                machine,
                parts,
            } => copy_row(alloc, table, label, activity, machine, parts.as_slice()),
            Change::Unrow { table, label } => {
                let (table, label) = two_copies(alloc, table, label)?;
                Ok(Change::Unrow { table, label })
            }
            Change::Price {
                table,
                label,
                price,
            } => copy_price(alloc, table, label, *price),
            Change::Want {
                table,
                good,
                amount,
            } => copy_want(alloc, table, good, *amount),
            Change::Import { table, good, price } => copy_import(alloc, table, good, price),
            Change::Surplus { table, good, price } => copy_surplus(alloc, table, good, price),
            Change::Power { table, on } => Ok(Change::Power {
                table: copy_text(alloc, table)?,
                on: *on,
            }),
        }
    }
}
