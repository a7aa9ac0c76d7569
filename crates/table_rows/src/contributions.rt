//! The column of a row, and its figures.
ghost use Rattle.std.specs.Prelude.{◌≡◌, ◌<◌, ◌∷◌, ◌++◌, IfOk, IfSome, Ok, length, map};
ghost use Rattle.fractions.specs.Fraction.{one_fraction};
ghost use Rattle.game_types.specs.Sound.{IsItem, IsSound, IsSoundActivity, IsSoundSetup};
ghost use Rattle.table_rows.specs.Answers.{Extends, GivesColumn, GivesRow};
ghost use Rattle.table_rows.specs.Columns.{activity_parts, burnt_parts, column_of, contributions, drawn, drawn_where, figures_of, fuel_parts, given, gives, input_taken, pack_taken, source_fluid, summed, taken, takes};
ghost use Rattle.table_rows.specs.Setups.{IsFitting};
ghost use Rattle.research_rows.specs.Research.{tech_at};

use crate::RowFault;
use crate::columns::add_amount;
use crate::given_taken::{
    give_one, give_products, take_ingredients, take_input, take_one, take_packs, take_source_fluid,
};
use crate::rates::{RowRates, rates_of_row};
use beacon_effects::beacon_power;
use fractions::Ratio;
use game_types::{Activity, Effects, Game, Rates, Recipe, Setup, Source};
use plan_base::{GoodId, TechId};
use power_rows::{Input, draw_of, input_of};
use std::alloc::Global;

// What a row that crafts gives and takes.
fn add_craft(
    column: &mut Vec<(GoodId, Ratio)>,
    game: &Game,
    setup: &Setup,
    recipe: &Recipe,
    productivity: &Ratio,
) -> Result<(), RowFault>
    requires sound { IsSound game.now }
    ensures { Extends (summed column.old.items (map (given productivity.now) recipe.now.products ++ map (taken game.now setup.now) recipe.now.ingredients)) result column.new.items }
{
    give_products(column, recipe.products.as_slice(), productivity)?;
    take_ingredients(column, game, setup, recipe.ingredients.as_slice())
}

// What a row that mines gives and takes.
fn add_mine(
    column: &mut Vec<(GoodId, Ratio)>,
    game: &Game,
    setup: &Setup,
    source: &Source,
    productivity: &Ratio,
) -> Result<(), RowFault>
    requires sound { IsSound game.now }
    ensures { Extends (summed column.old.items (map (given productivity.now) source.now.products ++ source_fluid game.now setup.now source.now.fluid)) result column.new.items }
{
    give_products(column, source.products.as_slice(), productivity)?;
    take_source_fluid(column, game, setup, &source.fluid)
}

// What a row that heats or makes electricity gives and takes.
fn add_power(
    column: &mut Vec<(GoodId, Ratio)>,
    good: GoodId,
    amount: &Ratio,
    input: Input,
) -> Result<(), RowFault>
    ensures { Extends (summed column.old.items (gives good one_fraction ∷ input_taken amount.now input)) result column.new.items }
{
    give_one(column, good, &Ratio::one())?;
    take_input(column, amount, input)
}

// What a row that researches gives and takes.
fn add_research(
    column: &mut Vec<(GoodId, Ratio)>,
    good: GoodId,
    units: &Ratio,
    packs: &[(GoodId, Ratio)],
) -> Result<(), RowFault>
    ensures { Extends (summed column.old.items (gives good units.now ∷ map pack_taken packs.now)) result column.new.items }
{
    give_one(column, good, units)?;
    take_packs(column, packs)
}

// What a row gives and takes, its fuel aside.
fn add_activity(
    column: &mut Vec<(GoodId, Ratio)>,
    game: &Game,
    setup: &Setup,
    row: &RowRates,
    activity: Activity,
) -> Result<(), RowFault>
    requires sound { IsSound game.now }
    requires setup { IsSoundSetup game.now setup.now }
    requires activity { IsSoundActivity game.now activity }
    ensures { Extends (summed column.old.items (activity_parts game.now setup.now row.now activity)) result column.new.items }
{
    match activity {
        Activity::Craft(recipe) => add_craft(
            column,
            game,
            setup,
            game.recipe(recipe),
            &row.effects.productivity,
        ),
        Activity::Mine(source) => add_mine(
            column,
            game,
            setup,
            game.source(source),
            &row.effects.productivity,
        ),
        Activity::Pump(good) => give_one(column, good, &Ratio::one()),
        Activity::Generate => {
            add_power(
                column,
                game.electricity(),
                &row.input,
                input_of(game, setup),
            )
        }
        Activity::Boil(good) => add_power(column, good, &row.input, input_of(game, setup)),
        Activity::Research(tech) => add_research(
            column,
            game.units_good(tech),
            &row.units,
            packs_of(game, tech),
        ),
    }
}

#[tactic(auto, unfolding(research_rows::specs::Research::tech_at))]
// The packs that one unit of a technology takes.
fn packs_of(game: &Game, tech: TechId) -> &[(GoodId, Ratio)]
    requires { tech.0 < length game.now.techs }
    ensures { result.now ≡ (tech_at game.now tech).ingredients }
{
    let techs = game.techs.as_slice();
    techs[tech.0 as usize].ingredients.as_slice()
}

#[tactic(auto, unfolding(crate::specs::Columns::summed))]
// What burning fuel leaves.
fn give_burnt(
    column: &mut Vec<(GoodId, Ratio)>,
    burnt: Option<GoodId>,
    amount: &Ratio,
) -> Result<(), RowFault>
    ensures { Extends (summed column.old.items (burnt_parts burnt amount.now)) result column.new.items }
{
    match burnt {
        Some(good) => give_one(column, good, amount),
        None => Ok(()),
    }
}

// What a row takes of a fuel, and what burning it leaves.
fn add_burning(
    column: &mut Vec<(GoodId, Ratio)>,
    fuel: GoodId,
    burnt: Option<GoodId>,
    amount: &Ratio,
) -> Result<(), RowFault>
    ensures { Extends (summed column.old.items (takes fuel amount.now ∷ burnt_parts burnt amount.now)) result column.new.items }
{
    take_one(column, fuel, amount)?;
    give_burnt(column, burnt, amount)
}

#[tactic(auto, unfolding(crate::specs::Columns::summed))]
// What a row takes of its fuel.
fn add_fuel(
    column: &mut Vec<(GoodId, Ratio)>,
    game: &Game,
    fuel: Option<GoodId>,
    amount: &Ratio,
) -> Result<(), RowFault>
    requires { IfSome fuel (λ good. IsItem game.now good.0) }
    ensures { Extends (summed column.old.items (fuel_parts game.now fuel amount.now)) result column.new.items }
{
    match fuel {
        Some(fuel) => add_burning(column, fuel, game.item(fuel).burnt, amount),
        None => Ok(()),
    }
}

// What a row gives and takes.
fn add_contributions(
    column: &mut Vec<(GoodId, Ratio)>,
    game: &Game,
    setup: &Setup,
    row: &RowRates,
) -> Result<(), RowFault>
    requires sound { IsSound game.now }
    requires setup { IsSoundSetup game.now setup.now }
    ensures { Extends (summed column.old.items (contributions game.now setup.now row.now)) result column.new.items }
{
    add_activity(column, game, setup, row, setup.activity)?;
    add_fuel(column, game, setup.fuel, &row.rates.fuel)
}

#[tactic(auto, unfolding(crate::specs::Columns::drawn))]
// What a row draws.
fn add_draw(
    column: &mut Vec<(GoodId, Ratio)>,
    game: &Game,
    rates: &Rates,
    beacons: &Ratio,
) -> Result<(), RowFault>
    requires { IsSound game.now }
    ensures { Extends (drawn game.now rates.now beacons.now column.old.items) result column.new.items }
{
    let draw = draw_of(&rates.power, &rates.machines, &rates.drain, beacons)?;
    add_amount(column, 18, game.electricity(), &draw.neg())
}

// What a row draws in a table that balances its electric power.
fn add_draw_where(
    power: bool,
    column: &mut Vec<(GoodId, Ratio)>,
    game: &Game,
    rates: &Rates,
    beacons: &Ratio,
) -> Result<(), RowFault>
    requires { IsSound game.now }
    ensures { Extends (drawn_where power game.now rates.now beacons.now column.old.items) result column.new.items }
{
    if power {
        add_draw(column, game, rates, beacons)
    } else {
        Ok(())
    }
}

/// The column of a set-up, and what its row is asked for alone.
#[derive(Drop)]
pub struct RowColumn {
    /// What one craft a second adds to each good that the row mentions, in the order of goods.
    pub column: Vec<(GoodId, Ratio)>,
    /// The effects on the machine, what one craft a second takes, and the power of the beacons of each machine, in watts.
    pub figures: (Effects, Rates, Ratio),
}

#[tactic(auto, using(crate::proofs::Fitting::beacons_fit), unfolding(crate::specs::Columns::column_of, crate::specs::Columns::figures_of))]
/// The column of a set-up in a table that balances its electric power, or doesn't, with what `row_rates` gives of the set-up:
/// the rates of the row are worked out once for both.
///
/// # Errors
///
/// `Wide` with the first step of the column that is past the limits of fractions, exactly where there is one and memory could
/// be had.
pub fn row_of(alloc: Global, game: &Game, power: bool, setup: &Setup) -> Result<RowColumn, RowFault>
    requires sound { IsSound game.now }
    requires setup { IsFitting game.now setup.now }
    ensures column { GivesRow (column_of game.now power setup.now) result }
    ensures figures { IfOk result (λ row. figures_of game.now setup.now ≡ Ok row.figures) }
{
    let row = rates_of_row(game, setup)?;
    let mut column = Vec::new(alloc);
    add_contributions(&mut column, game, setup, &row)?;
    let beacons = beacon_power(game, setup)?;
    add_draw_where(power, &mut column, game, &row.rates, &beacons)?;
    Ok(RowColumn {
        column,
        figures: (row.effects, row.rates, beacons),
    })
}

/// The column of a set-up in a table that balances its electric power, or doesn't: what one craft a second adds to each good
/// that the row mentions, in the order of goods.
///
/// # Errors
///
/// `Wide` with the first step that is past the limits of fractions, exactly where there is one and memory could be had.
pub fn column_of(
    alloc: Global,
    game: &Game,
    power: bool,
    setup: &Setup,
) -> Result<Vec<(GoodId, Ratio)>, RowFault>
    requires sound { IsSound game.now }
    requires setup { IsFitting game.now setup.now }
    ensures { GivesColumn (column_of game.now power setup.now) result }
{
    match row_of(alloc, game, power, setup) {
        Ok(row) => Ok(row.column),
        Err(fault) => Err(fault),
    }
}
