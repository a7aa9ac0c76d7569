//! What is reached, and what of it is taken as it is.
ghost use Rattle.std.specs.Prelude.{◌≡◌, ◌<◌, false, length, slice_get, slice_index_or};
ghost use Rattle.std.specs.List.{list_any};
ghost use Rattle.game_types.specs.Sound.{IsSound};
ghost use Rattle.wish_setups.specs.Reach.{is_expected, is_good_reached, is_mined, is_reached, is_some_of, mines, source_gives};

use fractions::is_positive;
use game_types::{Game, Product};
use plan_base::{GoodId, Kind, NoMemory};
use std::alloc::Global;

/// What is known of a game: which things are reached, by node, which goods sources give, and which reached items are fuels.
#[derive(Clone, Copy)]
pub struct State<'a> {
    pub reached: &'a [bool],
    pub mined: &'a [bool],
    pub fuels: &'a [GoodId],
}

/// Whether a mark stands at a place.
pub fn is_marked(marks: &[bool], place: usize) -> bool
    ensures { result ≡ slice_index_or marks.now place false }
{
    match marks.get(place) {
        Some(mark) => *mark,
        None => false,
    }
}

/// Marks a place, where it is there.
pub fn mark(marks: &mut [bool], place: usize) {
    if let Some(mark) = marks.get_mut(place) {
        *mark = true;
    }
}

/// Whether a good is marked.
pub fn is_good_marked(marks: &[bool], good: GoodId) -> bool
    ensures { result ≡ slice_index_or marks.now good.0 false }
{
    is_marked(marks, good.0 as usize)
}

/// Marks a good.
pub fn mark_good(marks: &mut [bool], good: GoodId) {
    mark(marks, good.0 as usize);
}

/// Whether the thing of a kind at a place is there and reached.
pub fn is_reached(game: &Game, reached: &[bool], kind: Kind, place: u32) -> bool
    requires { IsSound game.now }
    ensures { result ≡ is_reached game.now reached.now kind place }
{
    let shape = game.shape();
    if place < shape.count_of(kind) {
        is_marked(reached, shape.node_of(kind, place).0 as usize)
    } else {
        false
    }
}

/// Whether an item or a fluid is reached.
pub fn is_good_reached(game: &Game, reached: &[bool], good: GoodId) -> bool
    requires { IsSound game.now }
    ensures { result ≡ is_good_reached game.now reached.now good }
{
    let shape = game.shape();
    good.0 < shape.items + shape.fluids && is_marked(reached, 3 + good.0 as usize)
}

/// Whether some of a product can be expected.
pub fn is_expected(product: &Product) -> bool
    ensures { result ≡ is_expected product.now }
{
    is_positive(&product.probability) && (is_positive(&product.low) || is_positive(&product.high))
}

fn is_some_of(good: GoodId, product: &Product) -> bool
    ensures { result ≡ is_some_of good product.now }
{
    product.good.0 == good.0 && is_expected(product)
}

/// Whether some of a good can be expected of products.
pub fn gives(products: &[Product], good: GoodId) -> bool
    ensures { result ≡ list_any (is_some_of good) products.now }
{
    products.iter().any(|product| is_some_of(good, product))
}

// Whether the source at a place gives a good, where there is one.
fn source_gives(game: &Game, good: GoodId, place: u32) -> bool
    ensures { result ≡ source_gives good (slice_get game.now.sources place) }
{
    match game.sources.as_slice().get(place as usize) {
        Some(source) => gives(source.products.as_slice(), good),
        None => false,
    }
}

// Whether the source at a place is reached and gives a good.
fn mines(game: &Game, reached: &[bool], good: GoodId, place: u32) -> bool
    requires { IsSound game.now }
    ensures { result ≡ mines game.now reached.now good place }
{
    is_reached(game, reached, Kind::Source, place) && source_gives(game, good, place)
}

/// Whether a reached source gives a good.
pub fn is_mined(game: &Game, reached: &[bool], good: GoodId) -> bool
    requires { IsSound game.now }
    ensures { result ≡ is_mined game.now reached.now good }
{
    let mut mined = false;
    for place in 0..game.shape().sources {
        let gives = mines(game, reached, good, place);
        mined |= gives;
    }
    mined
}

fn mark_products(marks: &mut [bool], products: &[Product]) {
    for product in products {
        if is_expected(product) {
            mark_good(marks, product.good);
        }
    }
}

fn mark_mined(game: &Game, reached: &[bool], marks: &mut [bool])
    requires { IsSound game.now }
{
    for place in 0..game.shape().sources {
        if is_reached(game, reached, Kind::Source, place) {
            if let Some(source) = game.sources.as_slice().get(place as usize) {
                mark_products(marks, source.products.as_slice());
            }
        }
    }
}

/// Marks for each item and fluid whether a reached source gives it.
pub fn mined_goods(alloc: Global, game: &Game, reached: &[bool]) -> Result<Vec<bool>, NoMemory>
    requires { IsSound game.now }
{
    let shape = game.shape();
    let mut marks = vec![in alloc; false; (shape.items + shape.fluids) as usize]?;
    mark_mined(game, reached, marks.as_mut_slice());
    Ok(marks)
}

// Whether the item at a place is a fuel and reached.
fn is_reached_fuel(game: &Game, reached: &[bool], place: u32) -> bool
    requires { IsSound game.now }
{
    match game.items.as_slice().get(place as usize) {
        Some(item) => item.fuel.is_some() && is_reached(game, reached, Kind::Item, place),
        None => false,
    }
}

fn add_fuels(game: &Game, reached: &[bool], fuels: &mut Vec<GoodId>) -> Result<(), NoMemory>
    requires { IsSound game.now }
{
    for place in 0..game.shape().items {
        if is_reached_fuel(game, reached, place) {
            fuels.push(GoodId(place))?;
        }
    }
    Ok(())
}

/// The reached items that are fuels.
pub fn reached_fuels(alloc: Global, game: &Game, reached: &[bool]) -> Result<Vec<GoodId>, NoMemory>
    requires { IsSound game.now }
{
    let mut fuels = Vec::new(alloc);
    add_fuels(game, reached, &mut fuels)?;
    Ok(fuels)
}
