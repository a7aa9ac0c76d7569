//! What is mined as ways.
ghost use Rattle.game_types.specs.Sound.{IsSound};

use crate::network::Network;
use crate::numbers::float_of;
use crate::prices::source_price;
use crate::recipes::expected;
use game_types::{Activity, Game, Product, Source};
use plan_base::{Kind, NoMemory, SourceId};
use wish_setups::{State, Wish, is_reached};

fn push_products(products: &[Product], network: &mut Network) -> Result<f64, NoMemory> {
    let mut units = 0.0;
    for product in products {
        let amount = expected(product);
        if amount > 0.0 {
            network.push_give(product.good, amount)?;
            units = units + amount;
        }
    }
    Ok(units)
}

fn push_source(
    game: &Game,
    wish: &Wish,
    number: SourceId,
    source: &Source,
    network: &mut Network,
) -> Result<(), NoMemory> {
    let takes = network.next_take();
    let gives = network.next_give();
    let units = push_products(source.products.as_slice(), network)?;
    if let Some((fluid, amount)) = &source.fluid {
        let from = network.next_fit();
        network.push_fit(*fluid)?;
        network.push_take(from, float_of(amount))?;
    }
    let price = match source.products.as_slice().first() {
        Some(product) => float_of(&source_price(game, wish, product.good)),
        None => 0.0,
    };
    network.push_way(Activity::Mine(number), None, price * units, takes, gives)
}

/// The reached sources come in that drills mine.
pub fn push_sources(
    game: &Game,
    state: State<'_>,
    wish: &Wish,
    network: &mut Network,
) -> Result<(), NoMemory>
    requires { IsSound game.now }
{
    for place in 0..game.shape().sources {
        if is_reached(game, state.reached, Kind::Source, place) {
            if let Some(source) = game.sources.as_slice().get(place as usize) {
                if source.drilled {
                    push_source(game, wish, SourceId(place), source, network)?;
                }
            }
        }
    }
    Ok(())
}
