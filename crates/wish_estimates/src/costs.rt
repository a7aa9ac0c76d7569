//! What a unit of each good costs: what has a price of its own keeps it, and all else falls as long as a way gives it for less.
ghost use Rattle.game_types.specs.Sound.{IsSound};

use game_types::Game;
use plan_base::{GoodId, NoMemory};
use std::alloc::Global;
use wish_setups::{State, Wish, is_good_marked, mark_good};
use wish_ways::{Give, NONE, Network, Way, cost_at, float_of, pump_price, source_price};

// The most times that all ways are gone over.
const ROUNDS: u32 = 300;

// A fall by less than this part of an estimate is none.
const ENOUGH: f64 = 0.999;

/// Costs, and which of them don't fall: of what a source gives, what is pumped, and what the wish imports.
#[derive(Drop)]
pub struct Known {
    pub costs: Vec<f64>,
    fixed: Vec<bool>,
}

impl Known {
    fn set(&mut self, good: GoodId, cost: f64) {
        if let Some(place) = self.costs.as_mut_slice().get_mut(good.0 as usize) {
            *place = cost;
            mark_good(self.fixed.as_mut_slice(), good);
        }
    }
}

fn know_mined(game: &Game, state: State<'_>, wish: &Wish, known: &mut Known) {
    for (place, mined) in state.mined.iter().enumerate() {
        if *mined {
            let good = GoodId((place % 0x1_0000_0000) as u32);
            known.set(good, float_of(&source_price(game, wish, good)));
        }
    }
}

fn know_pumped(wish: &Wish, pumped: &[bool], known: &mut Known) {
    for (place, is_pumped) in pumped.iter().enumerate() {
        if *is_pumped {
            let good = GoodId((place % 0x1_0000_0000) as u32);
            known.set(good, float_of(&pump_price(wish)));
        }
    }
}

fn know_imports(wish: &Wish, known: &mut Known) {
    for (good, price) in wish.imports.as_slice() {
        known.set(*good, float_of(price));
    }
}

/// The costs that don't fall, and none of the others yet.
pub fn known_costs(
    alloc: Global,
    game: &Game,
    state: State<'_>,
    wish: &Wish,
    pumped: &[bool],
) -> Result<Known, NoMemory>
    requires { IsSound game.now }
{
    let count = game.good_count() as usize;
    let mut known = Known {
        costs: vec![in alloc; NONE; count]?,
        fixed: vec![in alloc; false; count]?,
    };
    know_mined(game, state, wish, &mut known);
    know_pumped(wish, pumped, &mut known);
    know_imports(wish, &mut known);
    Ok(known)
}

// A cost falls where a way gives a good for less. Answers whether it does.
fn lower(network: &Network, way: &Way, give: &Give, known: &mut Known) -> bool {
    if is_good_marked(known.fixed.as_slice(), give.good) {
        return false;
    }
    let cost = network.unit_cost(known.costs.as_slice(), way, give);
    if cost < cost_at(known.costs.as_slice(), give.good) * ENOUGH {
        if let Some(place) = known.costs.as_mut_slice().get_mut(give.good.0 as usize) {
            *place = cost;
            return true;
        }
    }
    false
}

fn lower_by(network: &Network, way: &Way, known: &mut Known) -> bool {
    let mut fell = false;
    for give in network.gives_of(way) {
        fell |= lower(network, way, give, known);
    }
    fell
}

// Goes over all ways once. Answers whether a cost fell.
fn sweep(network: &Network, known: &mut Known) -> bool {
    let mut fell = false;
    for way in network.ways() {
        fell |= lower_by(network, way, known);
    }
    fell
}

/// Goes over all ways until no cost falls.
pub fn settle(network: &Network, known: &mut Known) {
    for _ in 0..ROUNDS {
        if !sweep(network, known) {
            break;
        }
    }
}
