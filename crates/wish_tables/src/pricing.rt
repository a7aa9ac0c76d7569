//! What rows and imports cost.
ghost use Rattle.game_types.specs.Sound.{IsSound};

use fractions::Ratio;
use game_types::{Activity, Effects, Game, Product, Rates, Setup};
use plan_base::GoodId;
use std::cmp::Ordering;
use wish_estimates::{float_of, free_price, pump_price, rounded, source_price};
use wish_setups::{Cheapest, Wish, expected_units, figures_of};

/// The most that a part of a price is, which is printed as it is.
const LONG: i128 = 1_000_000_000;

fn is_long(price: &Ratio) -> bool {
    price.numerator() > LONG || price.denominator() > LONG
}

/// A price, rounded to three digits where it is long.
pub fn short(price: Ratio) -> Ratio {
    if is_long(&price) {
        rounded(float_of(&price))
    } else {
        price
    }
}

/// The sum, or the first where it is too wide.
pub fn plus(one: Ratio, other: &Ratio) -> Ratio {
    match one.add(other) {
        Ok(sum) => sum,
        Err(_) => one,
    }
}

/// The product, or the first where it is too wide.
pub fn times(one: Ratio, other: &Ratio) -> Ratio {
    match one.mul(other) {
        Ok(product) => product,
        Err(_) => one,
    }
}

// The price of what products give, each unit at the price of what a source gives.
fn price_of_products(game: &Game, wish: &Wish, products: &[Product]) -> Ratio {
    let mut price = Ratio::zero();
    for product in products {
        let units = expected_units(product);
        price = plus(
            price,
            &times(source_price(game, wish, product.good), &units),
        );
    }
    price
}

fn is_taken(part: &(GoodId, Ratio), power: GoodId) -> bool {
    part.0.0 != power.0 && part.1.is_neg()
}

// Whether a row takes nothing, electricity aside.
fn takes_none(column: &[(GoodId, Ratio)], power: GoodId) -> bool {
    !column.iter().any(|part| is_taken(part, power))
}

fn free_recipe(game: &Game, wish: &Wish, products: Option<&[Product]>) -> Ratio {
    match products {
        Some(products) => price_of_products(game, wish, products),
        None => free_price(wish),
    }
}

fn products_of(game: &Game, activity: Activity) -> Option<&[Product]> {
    match activity {
        Activity::Craft(recipe) => match game.recipes.as_slice().get(recipe.0 as usize) {
            Some(recipe) => Some(recipe.products.as_slice()),
            None => None,
        },
        Activity::Mine(source) => match game.sources.as_slice().get(source.0 as usize) {
            Some(source) => Some(source.products.as_slice()),
            None => None,
        },
        _ => None,
    }
}

// What one craft costs of what it brings from outside.
fn outside_price(game: &Game, wish: &Wish, setup: &Setup, column: &[(GoodId, Ratio)]) -> Ratio
    requires { IsSound game.now }
{
    match setup.activity {
        Activity::Mine(_) => free_recipe(game, wish, products_of(game, setup.activity)),
        Activity::Pump(_) => pump_price(wish),
        Activity::Craft(_) if takes_none(column, game.electricity()) => {
            free_recipe(game, wish, products_of(game, setup.activity))
        }
        Activity::Generate if takes_none(column, game.electricity()) => free_price(wish),
        _ => Ratio::zero(),
    }
}

/// The watts that a machine and its beacons draw at all times.
pub fn idle_draw(figures: &(Effects, Rates, Ratio)) -> Ratio {
    plus(figures.1.drain, &figures.2)
}

// What a craft takes of machines, power or pollution.
fn measure(wish: &Wish, figures: &(Effects, Rates, Ratio)) -> Ratio {
    match wish.cheapest {
        Cheapest::Cost => Ratio::zero(),
        Cheapest::Power => {
            plus(
                figures.1.power,
                &times(figures.1.machines, &idle_draw(figures)),
            )
        }
        Cheapest::Pollution => figures.1.pollution,
        Cheapest::Machines => figures.1.machines,
    }
}

fn no_less(price: Ratio) -> Ratio {
    if price.is_neg() { Ratio::zero() } else { price }
}

/// What one craft of a row costs: what it brings from outside, and what it takes of that of which the plan is to take least.
pub fn row_price(game: &Game, wish: &Wish, setup: &Setup, column: &[(GoodId, Ratio)]) -> Ratio
    requires { IsSound game.now }
{
    let outside = outside_price(game, wish, setup, column);
    match figures_of(game, setup) {
        Some(figures) => short(plus(outside, &no_less(measure(wish, &figures)))),
        None => short(outside),
    }
}

/// Whether a number is above another.
pub fn is_above(one: &Ratio, other: &Ratio) -> bool {
    matches!(one.cmp(other), Ordering::Greater)
}
