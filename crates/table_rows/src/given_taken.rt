//! What a row gives and takes good by good: products, ingredients, packs and fluids.
ghost use Rattle.std.specs.Prelude.{◌≡◌, ◌∷◌, [], map};
ghost use Rattle.game_types.specs.Sound.{IsSound};
ghost use Rattle.power_rows.specs.Inputs.{or_good};
ghost use Rattle.table_rows.specs.Answers.{Extends};
ghost use Rattle.table_rows.specs.Columns.{contributed, given, gives, input_taken, pack_taken, source_fluid, summed, taken, takes};

use crate::RowFault;
use crate::columns::contribute;
use fractions::Ratio;
use game_types::{Game, Part, Product, Setup, choice_of};
use machine_rates::yield_of;
use plan_base::GoodId;
use power_rows::Input;

// What a row gives of a product.
fn give_product(
    column: &mut Vec<(GoodId, Ratio)>,
    product: &Product,
    productivity: &Ratio,
) -> Result<(), RowFault>
    ensures { Extends (contributed (given productivity.now product.now) column.old.items) result column.new.items }
{
    contribute(column, product.good, yield_of(product, productivity))
}

/// What a row gives of products.
pub fn give_products(
    column: &mut Vec<(GoodId, Ratio)>,
    products: &[Product],
    productivity: &Ratio,
) -> Result<(), RowFault>
    ensures { Extends (summed column.old.items (map (given productivity.now) products.now)) result column.new.items }
{
    for product in products {
        give_product(column, product, productivity)?;
    }
    Ok(())
}

// A good's choice, or the good itself.
fn or_good(good: GoodId, choice: Option<GoodId>) -> GoodId
    ensures { result ≡ or_good good choice }
{
    match choice {
        Some(choice) => choice,
        None => good,
    }
}

// What a row takes of an ingredient, of its choice.
fn take_ingredient(
    column: &mut Vec<(GoodId, Ratio)>,
    game: &Game,
    setup: &Setup,
    part: &Part,
) -> Result<(), RowFault>
    requires sound { IsSound game.now }
    ensures { Extends (contributed (taken game.now setup.now part.now) column.old.items) result column.new.items }
{
    let choice = choice_of(game, setup.at.as_slice(), part.good, part.low, part.high);
    contribute(column, or_good(part.good, choice), Ok(part.amount.neg()))
}

/// What a row takes of ingredients.
pub fn take_ingredients(
    column: &mut Vec<(GoodId, Ratio)>,
    game: &Game,
    setup: &Setup,
    parts: &[Part],
) -> Result<(), RowFault>
    requires sound { IsSound game.now }
    ensures { Extends (summed column.old.items (map (taken game.now setup.now) parts.now)) result column.new.items }
{
    for part in parts {
        take_ingredient(column, game, setup, part)?;
    }
    Ok(())
}

// What a row takes of packs.
fn take_pack(column: &mut Vec<(GoodId, Ratio)>, pack: &(GoodId, Ratio)) -> Result<(), RowFault>
    ensures { Extends (contributed (pack_taken pack.now) column.old.items) result column.new.items }
{
    contribute(column, pack.0, Ok(pack.1.neg()))
}

/// What a row takes of packs of a technology.
pub fn take_packs(
    column: &mut Vec<(GoodId, Ratio)>,
    packs: &[(GoodId, Ratio)],
) -> Result<(), RowFault>
    ensures { Extends (summed column.old.items (map pack_taken packs.now)) result column.new.items }
{
    for pack in packs {
        take_pack(column, pack)?;
    }
    Ok(())
}

/// What a row takes of one good.
pub fn take_one(
    column: &mut Vec<(GoodId, Ratio)>,
    good: GoodId,
    amount: &Ratio,
) -> Result<(), RowFault>
    ensures { Extends (summed column.old.items (takes good amount.now ∷ [])) result column.new.items }
{
    contribute(column, good, Ok(amount.neg()))
}

/// What a row gives of one good.
pub fn give_one(
    column: &mut Vec<(GoodId, Ratio)>,
    good: GoodId,
    amount: &Ratio,
) -> Result<(), RowFault>
    ensures { Extends (summed column.old.items (gives good amount.now ∷ [])) result column.new.items }
{
    contribute(column, good, Ok(*amount))
}

#[tactic(auto, unfolding(crate::specs::Columns::summed))]
/// What a row takes of the fluid that a source needs.
pub fn take_source_fluid(
    column: &mut Vec<(GoodId, Ratio)>,
    game: &Game,
    setup: &Setup,
    fluid: &Option<(GoodId, Ratio)>,
) -> Result<(), RowFault>
    requires sound { IsSound game.now }
    ensures { Extends (summed column.old.items (source_fluid game.now setup.now fluid.now)) result column.new.items }
{
    match fluid {
        Some((good, amount)) => {
            let choice = choice_of(game, setup.at.as_slice(), *good, None, None);
            take_one(column, or_good(*good, choice), amount)
        }
        None => Ok(()),
    }
}

#[tactic(auto, unfolding(crate::specs::Columns::summed))]
/// What a row takes of the fluid that comes in.
pub fn take_input(
    column: &mut Vec<(GoodId, Ratio)>,
    amount: &Ratio,
    input: Input,
) -> Result<(), RowFault>
    ensures { Extends (summed column.old.items (input_taken amount.now input)) result column.new.items }
{
    match input {
        Input::Fluid(good) => take_one(column, good, amount),
        Input::None => Ok(()),
        Input::Missing => Ok(()),
    }
}
