//! All ways of a state to its goods, for a wish.
ghost use Rattle.game_types.specs.Sound.{IsSound};

use game_types::{Fluid, Game};
use plan_base::NoMemory;
use std::alloc::Global;
use wish_setups::{State, Wish, mark_good};
use wish_ways::{
    Crafters, Marks, Network, mark_held, push_fluids, push_generators, push_recipes, push_sources,
    push_studies,
};

fn mark_base(fluid: &Fluid, bases: &mut [bool]) {
    if let Some(base) = fluid.of {
        mark_good(bases, base);
    }
}

fn mark_bases(game: &Game, bases: &mut [bool]) {
    for fluid in game.fluids.as_slice() {
        mark_base(fluid, bases);
    }
}

// The recipes come in as ways.
fn push_crafts(
    alloc: Global,
    game: &Game,
    state: State<'_>,
    wish: &Wish,
    network: &mut Network,
) -> Result<(), NoMemory>
    requires { IsSound game.now }
{
    let count = game.good_count() as usize;
    let mut bases = vec![in alloc; false; count]?;
    let mut held = vec![in alloc; false; count]?;
    mark_bases(game, bases.as_mut_slice());
    mark_held(game, wish, held.as_mut_slice());
    let marks = Marks {
        bases: bases.as_slice(),
        held: held.as_slice(),
    };
    let crafters = Crafters::of(alloc, game, state)?;
    push_recipes(game, state, wish, &crafters, marks, network)
}

// Whether electricity is made in the table.
fn needs_power(game: &Game, wish: &Wish) -> bool
    requires { IsSound game.now }
{
    let power = game.electricity();
    wish.power || wish.wants.as_slice().iter().any(|want| want.0.0 == power.0)
}

/// All ways come in. Marks what is pumped.
pub fn push_all(
    alloc: Global,
    game: &Game,
    state: State<'_>,
    wish: &Wish,
    pumped: &mut [bool],
    network: &mut Network,
) -> Result<(), NoMemory>
    requires { IsSound game.now }
{
    push_crafts(alloc, game, state, wish, network)?;
    push_sources(game, state, wish, network)?;
    push_fluids(alloc, game, state, wish, pumped, network)?;
    if needs_power(game, wish) {
        push_generators(alloc, game, state, wish, network)?;
    }
    push_studies(alloc, game, state, wish, network)
}
