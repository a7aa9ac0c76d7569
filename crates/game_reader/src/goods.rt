//! Ingredients, products, science packs and items with ids in place of names.
ghost use Rattle.std.specs.Prelude.{◌≡◌, IfOk, option_map};
ghost use Rattle.prototype_fields.specs.Values.{Gives, each};
ghost use Rattle.game_reader.specs.Links.{linked_good, linked_item, linked_launch, linked_module, linked_pack, linked_part, linked_product, product_with};

use crate::families::Families;
use craft_reader::{GoodKind, NamedGood, RawPack, RawPart, RawProduct};
use dump_reader::{RawItem, RawModule};
use fractions::Ratio;
use game_types::{Item, Module, Part, Product};
use plan_base::{GoodId, Items, NoMemory};
use prototype_fields::{FieldFault, Key, Within};
use std::alloc::Global;

// The good that a name stands for.
#[tactic(auto, unfolding(crate::specs::Links::linked_good))]
fn link_good(names: &Families, good: &NamedGood) -> Result<GoodId, FieldFault>
    ensures { result ≡ linked_good names.now good.now }
{
    match good.kind {
        GoodKind::Item => names.item(good.within, good.key, good.name.as_str()),
        GoodKind::Fluid => names.fluid(good.within, good.key, good.name.as_str()),
    }
}

// An ingredient.
#[tactic(auto, unfolding(crate::specs::Links::linked_part))]
fn link_part(names: &Families, part: &RawPart) -> Result<Part, FieldFault>
    ensures { result ≡ linked_part names.now part.now }
{
    Ok(Part {
        good: link_good(names, &part.good)?,
        amount: part.amount,
        low: part.low,
        high: part.high,
    })
}

// A product of a good.
fn product_with(product: &RawProduct, good: GoodId) -> Product
    ensures { result ≡ product_with product.now good }
{
    Product {
        good,
        low: product.low,
        high: product.high,
        probability: product.probability,
        catalyst: product.catalyst,
        temperature: product.temperature,
    }
}

// A product.
#[tactic(auto, unfolding(crate::specs::Links::linked_product))]
fn link_product(names: &Families, product: &RawProduct) -> Result<Product, FieldFault>
    ensures { result ≡ linked_product names.now product.now }
{
    let good = link_good(names, &product.good)?;
    Ok(product_with(product, good))
}

// A science pack.
#[tactic(auto, unfolding(crate::specs::Links::linked_pack))]
fn link_pack(names: &Families, pack: &RawPack) -> Result<(GoodId, Ratio), FieldFault>
    ensures { result ≡ linked_pack names.now pack.now }
{
    let good = names.item(Within::UnitIngredients, Key::Name, pack.name.as_str())?;
    Ok((good, pack.amount))
}

/// Ingredients.
#[tactic(auto, using(crate::proofs::Loops::each_from_nothing))]
pub fn link_parts(
    alloc: Global,
    names: &Families,
    parts: &Items<RawPart>,
) -> Result<Items<Part>, FieldFault>
    ensures { Gives (each (linked_part names.now) parts.now) result }
{
    let mut linked = Vec::with_capacity(alloc, parts.as_slice().len())?;
    for part in parts.as_slice() {
        match link_part(names, part) {
            Ok(part) => linked.push(part)?,
            Err(fault) => return Err(fault),
        }
    }
    Ok(Items::from_vec(linked))
}

/// Products.
#[tactic(auto, using(crate::proofs::Loops::each_from_nothing))]
pub fn link_products(
    alloc: Global,
    names: &Families,
    products: &Items<RawProduct>,
) -> Result<Items<Product>, FieldFault>
    ensures { Gives (each (linked_product names.now) products.now) result }
{
    let mut linked = Vec::with_capacity(alloc, products.as_slice().len())?;
    for product in products.as_slice() {
        match link_product(names, product) {
            Ok(product) => linked.push(product)?,
            Err(fault) => return Err(fault),
        }
    }
    Ok(Items::from_vec(linked))
}

/// Science packs.
#[tactic(auto, using(crate::proofs::Loops::each_from_nothing))]
pub fn link_packs(
    alloc: Global,
    names: &Families,
    packs: &Items<RawPack>,
) -> Result<Items<(GoodId, Ratio)>, FieldFault>
    ensures { Gives (each (linked_pack names.now) packs.now) result }
{
    let mut linked = Vec::with_capacity(alloc, packs.as_slice().len())?;
    for pack in packs.as_slice() {
        match link_pack(names, pack) {
            Ok(pack) => linked.push(pack)?,
            Err(fault) => return Err(fault),
        }
    }
    Ok(Items::from_vec(linked))
}

// A module.
#[tactic(auto, unfolding(crate::specs::Links::linked_module))]
fn link_module(alloc: Global, names: &Families, found: &RawModule) -> Result<Module, NoMemory>
    ensures { IfOk result (λ linked. linked ≡ linked_module names.now found.now) }
{
    let limitation = names.known_recipes(alloc, &found.limitation)?;
    let blacklist = names.known_recipes(alloc, &found.blacklist)?;
    Ok(Module {
        bonus: found.bonus,
        limitation,
        blacklist,
    })
}

// A module, where the item is one.
fn link_optional_module(
    alloc: Global,
    names: &Families,
    found: &Option<RawModule>,
) -> Result<Option<Module>, NoMemory>
    ensures { IfOk result (λ linked. linked ≡ option_map (linked_module names.now) found.now) }
{
    match found {
        Some(found) => Ok(Some(link_module(alloc, names, found)?)),
        None => Ok(None),
    }
}

// What a launch brings back.
#[tactic(auto, unfolding(crate::specs::Links::linked_launch))]
fn link_launch(names: &Families, product: &RawProduct) -> Result<Product, FieldFault>
    ensures { result ≡ linked_launch names.now product.now }
{
    let named = &product.good;
    let good = names.item(named.within, named.key, named.name.as_str())?;
    Ok(product_with(product, good))
}

// All that it brings back.
#[tactic(auto, using(crate::proofs::Loops::each_from_nothing))]
fn link_launches(
    alloc: Global,
    names: &Families,
    products: &Items<RawProduct>,
) -> Result<Items<Product>, FieldFault>
    ensures { Gives (each (linked_launch names.now) products.now) result }
{
    let mut linked = Vec::with_capacity(alloc, products.as_slice().len())?;
    for product in products.as_slice() {
        match link_launch(names, product) {
            Ok(product) => linked.push(product)?,
            Err(fault) => return Err(fault),
        }
    }
    Ok(Items::from_vec(linked))
}

/// An item.
#[tactic(auto, unfolding(crate::specs::Links::linked_item))]
pub fn link_item(alloc: Global, names: &Families, item: &RawItem) -> Result<Item, FieldFault>
    ensures { Gives (linked_item names.now item.now) result }
{
    let burnt = names.optional_item(Within::Prototype, Key::BurntResult, &item.burnt)?;
    let launch = link_launches(alloc, names, &item.launch)?;
    let module = link_optional_module(alloc, names, &item.module)?;
    Ok(Item {
        place: names.known_machine(&item.place),
        fuel: item.fuel,
        burnt,
        module,
        launch,
    })
}
