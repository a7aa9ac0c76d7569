//! What is paid for what comes from outside.
ghost use Rattle.game_types.specs.Sound.{IsSound};

use fractions::Ratio;
use game_types::Game;
use plan_base::GoodId;
use wish_setups::{Cheapest, Wish};

// What a price is multiplied by: 1 where a plan is to cost least, else little, so that what comes from outside only breaks ties.
fn scaled(wish: &Wish, price: Ratio) -> Ratio {
    match wish.cheapest {
        Cheapest::Cost => price,
        Cheapest::Power => price,
        Cheapest::Pollution | Cheapest::Machines => match price.mul(&Ratio::part(1, 1000)) {
            Ok(price) => price,
            Err(_) => Ratio::one(),
        },
    }
}

/// The price of one unit of a good that a source gives: 1 for an item and a tenth for a fluid.
pub fn source_price(game: &Game, wish: &Wish, good: GoodId) -> Ratio {
    if (good.0 as usize) < game.items.len() {
        scaled(wish, Ratio::one())
    } else {
        scaled(wish, Ratio::part(1, 10))
    }
}

/// The price of one unit of a fluid that is pumped.
pub fn pump_price(wish: &Wish) -> Ratio {
    scaled(wish, Ratio::part(1, 1000))
}

/// The price of a joule from the sun, or of what else takes nothing.
pub fn free_price(wish: &Wish) -> Ratio {
    scaled(wish, Ratio::part(1, 1_000_000))
}
