//! What is given: products, and how much of them.
ghost use Rattle.std.specs.Prelude.{◌≡◌, IfOk, OnOk};
ghost use Rattle.game_types.specs.Sound.{IsSound};
ghost use Rattle.serde_json.specs.View.{items_view, members_view, view};
ghost use Rattle.catalog_members.specs.Members.{items_tree};
ghost use Rattle.catalog_things.specs.Parts.{free_of, product_value, with_product, with_products, with_range, with_yield};

use crate::amounts::{put_outcome, put_unless_one};
use crate::nodes::good_node;
use crate::parts::{push, value_of};
use catalog_members::{Members, put_amount, put_amount_where, put_id, put_items};
use fractions::Ratio;
use game_types::steps::subtracted;
use game_types::{Game, Product, Wide};
use machine_rates::yield_of;
use plan_base::NoMemory;
use serde_json::{Map, Value};
use std::alloc::Global;

// What productivity adds to: what a craft gives at a productivity of 1 above what it gives without.
#[tactic(auto, unfolding(crate::specs::Parts::free_of))]
fn free_of(product: &Product) -> Result<Ratio, Wide>
    ensures { result ≡ free_of product.now }
{
    let all = yield_of(product, &Ratio::one())?;
    let expected = yield_of(product, &Ratio::zero())?;
    subtracted(8, &all, &expected)
}

// Puts the least and the most that a craft gives, where they differ.
#[tactic(auto, unfolding(crate::specs::Parts::with_range))]
fn put_range(
    members: &mut Members,
    alloc: Global,
    low: &Ratio,
    high: &Ratio,
) -> Result<(), NoMemory>
    ensures { OnOk result (members_view members.new.entries ≡ with_range low.now high.now (members_view members.old.entries)) }
{
    if *low == *high {
        return Ok(());
    }
    put_amount(members, alloc, "min", low)?;
    put_amount(members, alloc, "max", high)
}

#[tactic(auto, unfolding(crate::specs::Parts::with_yield))]
fn put_yield(members: &mut Members, alloc: Global, product: &Product) -> Result<(), NoMemory>
    ensures { OnOk result (members_view members.new.entries ≡ with_yield product.now (members_view members.old.entries)) }
{
    let amount = yield_of(product, &Ratio::zero());
    put_outcome(members, alloc, "amount", amount)?;
    put_outcome(members, alloc, "free", free_of(product))
}

#[tactic(auto, unfolding(crate::specs::Parts::with_product))]
fn put_product(
    members: &mut Members,
    alloc: Global,
    game: &Game,
    product: &Product,
) -> Result<(), NoMemory>
    requires { IsSound game.now }
    ensures { OnOk result (members_view members.new.entries ≡ with_product game.now product.now (members_view members.old.entries)) }
{
    put_yield(members, alloc, product)?;
    put_id(members, alloc, "good", game, good_node(game, product.good))?;
    put_range(members, alloc, &product.low, &product.high)?;
    put_unless_one(members, alloc, "probability", &product.probability)?;
    put_amount_where(members, alloc, "temperature", &product.temperature)
}

fn product_value(alloc: Global, game: &Game, product: &Product) -> Result<Value, NoMemory>
    requires { IsSound game.now }
    ensures { IfOk result (λ value. view value ≡ product_value game.now product.now) }
{
    let mut members = Map::new(alloc);
    put_product(&mut members, alloc, game, product)?;
    Ok(value_of(members))
}

#[tactic(auto, using(catalog_members::proofs::Listing::none_written, catalog_members::proofs::Listing::one_written, catalog_members::proofs::Listing::all_written))]
fn product_values(alloc: Global, game: &Game, products: &[Product]) -> Result<Vec<Value>, NoMemory>
    requires { IsSound game.now }
    ensures { IfOk result (λ list. items_view list.items ≡ items_tree (product_value game.now) products.now) }
{
    let mut list = Vec::new(alloc);
    for product in products {
        push(&mut list, product_value(alloc, game, product)?)?;
    }
    Ok(list)
}

/// Puts products, unless there are none.
#[tactic(auto, unfolding(crate::specs::Parts::with_products))]
pub fn put_products(
    members: &mut Members,
    alloc: Global,
    key: &str,
    game: &Game,
    products: &[Product],
) -> Result<(), NoMemory>
    requires { IsSound game.now }
    ensures { OnOk result (members_view members.new.entries ≡ with_products key.now game.now products.now (members_view members.old.entries)) }
{
    let list = product_values(alloc, game, products)?;
    put_items(members, alloc, key, list)
}
