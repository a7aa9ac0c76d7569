//! What one craft a second takes.
ghost use Rattle.std.specs.Prelude.{◌≡◌, IfSome, IsOk};
ghost use Rattle.fractions.specs.Fraction.{zero_fraction, ◌<ʳ◌};
ghost use Rattle.game_types.specs.Fuels.{burner_effectivity, fuel_use_of, setup_fuel};
ghost use Rattle.game_types.specs.Rates.{craft_time, machines_at, pumps_at, machines_of, use_of, power_of, fuel_for, fuel_of, recipe_emissions, fuel_emissions, pollution_of, rates_with, rates_of, yield_of};
ghost use Rattle.game_types.specs.Sound.{IsSound, IsSoundSetup, IsSoundKind, IsSoundActivity, IsSoundMachine};

use fractions::Ratio;
use game_types::steps::{added, at_least, divided, multiplied, subtracted};
use game_types::{
    Activity, Effects, Energy, Fuel, Game, Machine, MachineKind, Product, Rates, Setup, Wide,
};

// The seconds of one craft at a speed of 1.
fn craft_time(game: &Game, activity: &Activity) -> Ratio
    requires { IsSoundActivity game.now activity.now }
    ensures { result ≡ craft_time game.now activity.now }
{
    match activity {
        Activity::Craft(recipe) => game.recipe(*recipe).time,
        Activity::Mine(source) => game.source(*source).time,
        _ => Ratio::zero(),
    }
}

#[tactic(auto, unfolding(game_types::specs::Rates::machines_at))]
// Step 4: machines for one craft a second.
fn machines_at(time: &Ratio, speed: &Ratio, multiplier: &Ratio) -> Result<Ratio, Wide>
    requires speed { zero_fraction <ʳ speed.now }
    requires multiplier { zero_fraction <ʳ multiplier.now }
    ensures { result ≡ machines_at time.now speed.now multiplier.now }
{
    let at_speed = divided(4, time, speed)?;
    divided(4, &at_speed, multiplier)
}

#[tactic(auto, unfolding(game_types::specs::Rates::pumps_at))]
// Step 4 of a pump, which gives 60 times its speed a second.
fn pumps_at(speed: &Ratio) -> Result<Ratio, Wide>
    requires { zero_fraction <ʳ speed.now }
    ensures { result ≡ pumps_at speed.now }
{
    let units = multiplied(4, &Ratio::whole(60), speed)?;
    divided(4, &Ratio::one(), &units)
}

// Step 4 by the kind of the machine.
fn machines_of(
    game: &Game,
    kind: &MachineKind,
    activity: &Activity,
    multiplier: &Ratio,
) -> Result<Ratio, Wide>
    requires kind { IsSoundKind game.now kind.now }
    requires activity { IsSoundActivity game.now activity.now }
    requires multiplier { zero_fraction <ʳ multiplier.now }
    ensures { result ≡ machines_of game.now kind.now activity.now multiplier.now }
{
    match kind {
        MachineKind::Crafter { speed, .. } => {
            machines_at(&craft_time(game, activity), speed, multiplier)
        }
        MachineKind::Drill { speed, .. } => {
            machines_at(&craft_time(game, activity), speed, multiplier)
        }
        MachineKind::Pump { speed, .. } => pumps_at(speed),
        _ => Ok(Ratio::zero()),
    }
}

#[tactic(auto, unfolding(game_types::specs::Rates::use_of))]
// Step 5: the power that the machines use, in watts.
fn use_of(usage: &Ratio, consumption: &Ratio, machines: &Ratio) -> Result<Ratio, Wide>
    ensures { result ≡ use_of usage.now consumption.now machines.now }
{
    let each = multiplied(5, usage, consumption)?;
    multiplied(5, &each, machines)
}

/// What of the power that machines use is electric.
pub fn power_of(energy: &Energy, usage: &Ratio) -> Ratio
    ensures { result ≡ power_of energy.now usage.now }
{
    match energy {
        Energy::Electric => *usage,
        _ => Ratio::zero(),
    }
}

#[tactic(auto, unfolding(game_types::specs::Rates::fuel_for))]
// Step 6: the fuel that a burner takes for one craft.
fn fuel_for(usage: &Ratio, effectivity: &Ratio, value: &Ratio) -> Result<Ratio, Wide>
    requires effectivity { zero_fraction <ʳ effectivity.now }
    requires value { zero_fraction <ʳ value.now }
    ensures { result ≡ fuel_for usage.now effectivity.now value.now }
{
    let energy = divided(6, usage, effectivity)?;
    divided(6, &energy, value)
}

/// The fuel for what machines use in one craft, by the energy of the machine; 0 without a burner.
///
/// # Errors
///
/// `Wide` with step 6 exactly where a number of it is past the limits.
pub fn fuel_of(energy: &Energy, fuel: &Option<Fuel>, usage: &Ratio) -> Result<Ratio, Wide>
    requires effectivity { IfSome (burner_effectivity energy.now) (λ effectivity. zero_fraction <ʳ effectivity) }
    requires fuel { IfSome fuel.now (λ fuel. zero_fraction <ʳ fuel.value) }
    ensures { result ≡ fuel_of energy.now fuel.now usage.now }
{
    match energy {
        Energy::Burner { effectivity, .. } => match fuel {
            Some(fuel) => fuel_for(usage, effectivity, &fuel.value),
            None => Ok(Ratio::zero()),
        },
        _ => Ok(Ratio::zero()),
    }
}

// What the recipe multiplies pollution by.
fn recipe_emissions(game: &Game, activity: &Activity) -> Ratio
    requires { IsSoundActivity game.now activity.now }
    ensures { result ≡ recipe_emissions game.now activity.now }
{
    match activity {
        Activity::Craft(recipe) => game.recipe(*recipe).emissions,
        _ => Ratio::one(),
    }
}

/// What the fuel multiplies pollution by.
pub fn fuel_emissions(fuel: &Option<Fuel>) -> Ratio
    ensures { result ≡ fuel_emissions fuel.now }
{
    match fuel {
        Some(fuel) => fuel.emissions,
        None => Ratio::one(),
    }
}

#[tactic(auto, unfolding(game_types::specs::Rates::pollution_of))]
// Step 7: pollution a minute.
fn pollution_of(
    emissions: &Ratio,
    effects: &Effects,
    recipe: &Ratio,
    fuel: &Ratio,
    machines: &Ratio,
) -> Result<Ratio, Wide>
    ensures { result ≡ pollution_of emissions.now effects.now recipe.now fuel.now machines.now }
{
    let used = multiplied(7, emissions, &effects.consumption)?;
    let polluted = multiplied(7, &used, &effects.pollution)?;
    let of_recipe = multiplied(7, &polluted, recipe)?;
    let of_fuel = multiplied(7, &of_recipe, fuel)?;
    multiplied(7, &of_fuel, machines)
}

#[tactic(auto, unfolding(game_types::specs::Fuels::setup_fuel))]
/// What the item of a set-up is as a fuel.
pub fn setup_fuel(game: &Game, setup: &Setup) -> Option<Fuel>
    requires sound { IsSound game.now }
    requires setup { IsSoundSetup game.now setup.now }
    ensures { result ≡ setup_fuel game.now setup.now }
{
    match setup.fuel {
        Some(good) => game.item(good).fuel,
        None => None,
    }
}

#[tactic(auto, unfolding(game_types::specs::Rates::rates_with))]
// Steps 4 to 7 of a machine.
fn rates_with(
    game: &Game,
    machine: &Machine,
    activity: &Activity,
    fuel: &Option<Fuel>,
    effects: &Effects,
) -> Result<Rates, Wide>
    requires machine { IsSoundMachine game.now machine.now }
    requires activity { IsSoundActivity game.now activity.now }
    requires fuel { IfSome fuel.now (λ fuel. zero_fraction <ʳ fuel.value) }
    requires speed { zero_fraction <ʳ effects.now.speed }
    ensures { result ≡ rates_with game.now machine.now activity.now fuel.now effects.now }
{
    let machines = machines_of(game, &machine.kind, activity, &effects.speed)?;
    let usage = use_of(&machine.usage, &effects.consumption, &machines)?;
    let burnt = fuel_of(&machine.energy, fuel, &usage)?;
    let recipe = recipe_emissions(game, activity);
    let pollution = pollution_of(
        &machine.emissions,
        effects,
        &recipe,
        &fuel_emissions(fuel),
        &machines,
    )?;
    Ok(Rates {
        machines,
        power: power_of(&machine.energy, &usage),
        drain: machine.drain,
        fuel: burnt,
        pollution,
    })
}

#[tactic(auto, unfolding(game_types::specs::Rates::rates_of))]
/// What one craft a second takes on a set-up: machines, electric power in watts, drain of each machine in watts, items of
/// fuel, pollution a minute. The set-up must have a fuel that its machine takes, or none where it takes none; what it says
/// of a set-up that `check_machine` refuses means nothing.
///
/// # Errors
///
/// `Wide` with the first of the steps 4 to 7 that is past the limits, exactly where there is one.
pub fn rates_of(game: &Game, setup: &Setup, effects: &Effects) -> Result<Rates, Wide>
    requires sound { IsSound game.now }
    requires setup { IsSoundSetup game.now setup.now }
    requires fuel { IsOk (fuel_use_of game.now setup.now) }
    requires speed { zero_fraction <ʳ effects.now.speed }
    ensures { result ≡ rates_of game.now setup.now effects.now }
{
    let fuel = setup_fuel(game, setup);
    rates_with(
        game,
        game.machine(setup.machine),
        &setup.activity,
        &fuel,
        effects,
    )
}

#[tactic(auto, using(game_types::proofs::StepLemmas::positive_whole), unfolding(game_types::specs::Rates::yield_of))]
/// What one craft is expected to give of a product at a productivity, which doesn't add to the catalyst.
///
/// # Errors
///
/// `Wide` with step 8 exactly where a number of it is past the limits.
pub fn yield_of(product: &Product, productivity: &Ratio) -> Result<Ratio, Wide>
    ensures { result ≡ yield_of product.now productivity.now }
{
    let twice = added(8, &product.low, &product.high)?;
    let amount = divided(8, &twice, &Ratio::whole(2))?;
    let expected = multiplied(8, &product.probability, &amount)?;
    let above = subtracted(8, &amount, &product.catalyst)?;
    let free = multiplied(8, &product.probability, &at_least(&Ratio::zero(), &above))?;
    let more = multiplied(8, &free, productivity)?;
    added(8, &expected, &more)
}
