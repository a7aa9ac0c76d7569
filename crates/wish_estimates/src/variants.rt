//! Which variants of a fluid there are.
ghost use Rattle.game_types.specs.Sound.{IsSound};

use crate::estimates::Estimates;
use game_types::{Fluid, Game};
use plan_base::{GoodId, Items, NoMemory};
use std::alloc::Global;
use wish_setups::{State, Wish, mined_goods, reached_fuels};

fn is_variant(fluid: &Fluid, base: GoodId) -> bool {
    match fluid.of {
        Some(of) => of.0 == base.0,
        None => false,
    }
}

fn add_variants(game: &Game, base: GoodId, variants: &mut Vec<GoodId>) -> Result<(), NoMemory>
    requires { IsSound game.now }
{
    let first = game.shape().items;
    for (place, fluid) in game.fluids.as_slice().iter().enumerate() {
        if is_variant(fluid, base) {
            variants.push(GoodId(first.saturating_add((place % 0x1_0000_0000) as u32)))?;
        }
    }
    Ok(())
}

fn add_known(
    estimates: &Estimates,
    goods: &[GoodId],
    known: &mut Vec<GoodId>,
) -> Result<(), NoMemory> {
    for good in goods {
        if estimates.is_known(*good) {
            known.push(*good)?;
        }
    }
    Ok(())
}

/// The variants of a fluid of several temperatures, in the order of goods.
///
/// # Errors
///
/// `NoMemory` where memory could not be had.
pub fn all_variants(alloc: Global, game: &Game, base: GoodId) -> Result<Items<GoodId>, NoMemory>
    requires { IsSound game.now }
{
    let mut variants = Vec::new(alloc);
    add_variants(game, base, &mut variants)?;
    Ok(Items::from_vec(variants))
}

/// The variants of a fluid of several temperatures to which there is a way, in the order of goods.
///
/// # Errors
///
/// `NoMemory` where memory could not be had.
pub fn given_variants(
    alloc: Global,
    game: &Game,
    reached: &[bool],
    base: GoodId,
) -> Result<Items<GoodId>, NoMemory>
    requires { IsSound game.now }
{
    let mined = mined_goods(alloc, game, reached)?;
    let fuels = reached_fuels(alloc, game, reached)?;
    let state = State {
        reached,
        mined: mined.as_slice(),
        fuels: fuels.as_slice(),
    };
    let estimates = Estimates::of(alloc, game, state, &Wish::nothing(alloc))?;
    let variants = all_variants(alloc, game, base)?;
    let mut given = Vec::new(alloc);
    add_known(&estimates, variants.as_slice(), &mut given)?;
    Ok(Items::from_vec(given))
}
