//! The records of a game with its goods numbered anew.
ghost use Rattle.std.specs.Prelude.{◌≡◌, ◌++◌, IfOk, map, option_map};
ghost use Rattle.game_types.specs.declared.machinery.MachineKind.TheVariants.{Boiler, Pump};
ghost use Rattle.fluid_variants.specs.Records.{Numbering, given_or, new_energy, new_kind, new_machine, new_part, new_product, new_recipe, new_source};
ghost use Rattle.fluid_variants.specs.Temperatures.{product_made, machine_made};

use crate::{Made, heat_of, machine_made, product_made};
use fractions::Ratio;
use game_types::{Energy, Game, Machine, MachineKind, Part, Product, Recipe, Source};
use plan_base::{GoodId, Items, NoMemory};
use std::alloc::Global;

/// What a good becomes: where it is taken, and where it is made.
pub trait Renumber {
    ghost use Rattle.plan_base.specs.declared.ids.GoodId.{GoodId};
    ghost use Rattle.fluid_variants.specs.declared.made.Made.{Made};

    /// What a good becomes where it is taken.
    ghost taken_as: { Self → GoodId → GoodId };

    /// What a good becomes where it is made at a temperature.
    ghost given_as: { Self → Made → GoodId };

    fn taken(&self, good: GoodId) -> GoodId
        ensures { result ≡ taken_as self.now good };

    fn given(&self, made: &Made) -> GoodId
        ensures { result ≡ given_as self.now made.now };
}

fn taken_optional<R: Renumber>(by: &R, good: Option<GoodId>) -> Option<GoodId>
    ensures { result ≡ option_map (R.taken_as by.now) good }
{
    match good {
        Some(good) => Some(by.taken(good)),
        None => None,
    }
}

fn given_or<R: Renumber>(by: &R, good: GoodId, made: Option<Made>) -> GoodId
    ensures { result ≡ given_or (record { taken = R.taken_as by.now; given = R.given_as by.now }) good made }
{
    match made {
        Some(made) => by.given(&made),
        None => good,
    }
}

fn new_part<R: Renumber>(by: &R, part: &Part) -> Part
    ensures { result ≡ new_part (record { taken = R.taken_as by.now; given = R.given_as by.now }) part.now }
{
    Part {
        good: by.taken(part.good),
        amount: part.amount,
        low: part.low,
        high: part.high,
    }
}

fn new_product<R: Renumber>(game: &Game, by: &R, product: &Product) -> Product
    ensures { result ≡ new_product game.now (record { taken = R.taken_as by.now; given = R.given_as by.now }) product.now }
{
    Product {
        good: given_or(by, product.good, product_made(game, product)),
        low: product.low,
        high: product.high,
        probability: product.probability,
        catalyst: product.catalyst,
        temperature: product.temperature,
    }
}

#[tactic(auto, using(plan_base::proofs::Walks::map_next, plan_base::proofs::Walks::map_end))]
fn new_parts<R: Renumber>(alloc: Global, by: &R, parts: &[Part]) -> Result<Items<Part>, NoMemory>
    ensures { IfOk result (λ new. new ≡ map (new_part (record { taken = R.taken_as by.now; given = R.given_as by.now })) parts.now) }
{
    let mut new = Vec::new(alloc);
    for part in parts {
        new.push(new_part(by, part))?;
    }
    Ok(Items::from_vec(new))
}

#[tactic(auto, using(plan_base::proofs::Walks::map_next, plan_base::proofs::Walks::map_end))]
fn new_products<R: Renumber>(
    alloc: Global,
    game: &Game,
    by: &R,
    products: &[Product],
) -> Result<Items<Product>, NoMemory>
    ensures { IfOk result (λ new. new ≡ map (new_product game.now (record { taken = R.taken_as by.now; given = R.given_as by.now })) products.now) }
{
    let mut new = Vec::new(alloc);
    for product in products {
        new.push(new_product(game, by, product))?;
    }
    Ok(Items::from_vec(new))
}

/// A recipe.
pub fn new_recipe<R: Renumber>(
    alloc: Global,
    game: &Game,
    by: &R,
    recipe: &Recipe,
) -> Result<Recipe, NoMemory>
    ensures { IfOk result (λ new. new ≡ new_recipe game.now (record { taken = R.taken_as by.now; given = R.given_as by.now }) recipe.now) }
{
    let ingredients = new_parts(alloc, by, recipe.ingredients.as_slice())?;
    let products = new_products(alloc, game, by, recipe.products.as_slice())?;
    Ok(Recipe {
        category: recipe.category,
        time: recipe.time,
        enabled: recipe.enabled,
        emissions: recipe.emissions,
        ingredients,
        products,
        launch: recipe.launch,
    })
}

fn new_fluid<R: Renumber>(by: &R, fluid: &Option<(GoodId, Ratio)>) -> Option<(GoodId, Ratio)>
    ensures { result ≡ option_map (λ fluid. (R.taken_as by.now fluid.0, fluid.1)) fluid.now }
{
    match fluid {
        Some((good, amount)) => Some((by.taken(*good), *amount)),
        None => None,
    }
}

/// What is mined.
pub fn new_source<R: Renumber>(
    alloc: Global,
    game: &Game,
    by: &R,
    source: &Source,
) -> Result<Source, NoMemory>
    ensures { IfOk result (λ new. new ≡ new_source game.now (record { taken = R.taken_as by.now; given = R.given_as by.now }) source.now) }
{
    let products = new_products(alloc, game, by, source.products.as_slice())?;
    Ok(Source {
        drilled: source.drilled,
        category: source.category,
        time: source.time,
        placed: source.placed,
        products,
        fluid: new_fluid(by, &source.fluid),
    })
}

// Where a machine takes its energy from.
fn new_energy<R: Renumber>(by: &R, energy: Energy) -> Energy
    ensures { result ≡ new_energy (record { taken = R.taken_as by.now; given = R.given_as by.now }) energy }
{
    match energy {
        Energy::Fluid {
            filter,
            effectivity,
        } => Energy::Fluid {
            filter: taken_optional(by, filter),
            effectivity,
        },
        Energy::Electric => Energy::Electric,
        Energy::Burner {
            categories,
            effectivity,
        } => Energy::Burner {
            categories,
            effectivity,
        },
        Energy::Heat => Energy::Heat,
        Energy::Void => Energy::Void,
    }
}

#[tactic(auto, unfolding(crate::specs::Temperatures::machine_made))]
// What a boiler becomes: it has the temperature to which it heats.
fn new_boiler<R: Renumber>(
    game: &Game,
    by: &R,
    input: Option<GoodId>,
    output: Option<GoodId>,
    target: &Ratio,
) -> MachineKind
    ensures { result ≡ new_kind game.now (record { taken = R.taken_as by.now; given = R.given_as by.now }) (Boiler input output target.now) }
{
    let at = heat_of(game, output, target);
    match output {
        Some(output) => MachineKind::Boiler {
            input: taken_optional(by, input),
            output: Some(by.given(&Made { good: output, at })),
            temperature: at,
        },
        None => MachineKind::Boiler {
            input: taken_optional(by, input),
            output: None,
            temperature: at,
        },
    }
}

fn new_pump<R: Renumber>(game: &Game, by: &R, fluid: GoodId, speed: Ratio) -> MachineKind
    ensures { result ≡ new_kind game.now (record { taken = R.taken_as by.now; given = R.given_as by.now }) (Pump fluid speed) }
{
    let made = machine_made(game, &MachineKind::Pump { fluid, speed });
    MachineKind::Pump {
        fluid: given_or(by, fluid, made),
        speed,
    }
}

// What a machine does.
fn new_kind<R: Renumber>(game: &Game, by: &R, kind: MachineKind) -> MachineKind
    ensures { result ≡ new_kind game.now (record { taken = R.taken_as by.now; given = R.given_as by.now }) kind }
{
    match kind {
        MachineKind::Pump { fluid, speed } => new_pump(game, by, fluid, speed),
        MachineKind::Boiler {
            input,
            output,
            temperature,
        } => new_boiler(game, by, input, output, &temperature),
        MachineKind::Generator {
            input,
            effectivity,
            per_tick,
            max_temperature,
            burns,
            output,
        } => MachineKind::Generator {
            input: taken_optional(by, input),
            effectivity,
            per_tick,
            max_temperature,
            burns,
            output,
        },
        MachineKind::Crafter {
            speed,
            categories,
            fixed,
        } => MachineKind::Crafter {
            speed,
            categories,
            fixed,
        },
        MachineKind::Drill {
            speed,
            categories,
            fluid_box,
        } => MachineKind::Drill {
            speed,
            categories,
            fluid_box,
        },
        MachineKind::BurnerGenerator { output } => MachineKind::BurnerGenerator { output },
        MachineKind::Solar { production } => MachineKind::Solar { production },
        MachineKind::Reactor => MachineKind::Reactor,
        MachineKind::Lab { inputs, speed } => MachineKind::Lab { inputs, speed },
        MachineKind::Beacon { effectivity } => MachineKind::Beacon { effectivity },
    }
}

/// A machine.
pub fn new_machine<R: Renumber>(game: &Game, by: &R, machine: Machine) -> Machine
    ensures { result ≡ new_machine game.now (record { taken = R.taken_as by.now; given = R.given_as by.now }) machine }
{
    let Machine {
        kind,
        energy,
        usage,
        drain,
        emissions,
        slots,
        allowed,
        base_productivity,
        parts,
    } = machine;
    Machine {
        kind: new_kind(game, by, kind),
        energy: new_energy(by, energy),
        usage,
        drain,
        emissions,
        slots,
        allowed,
        base_productivity,
        parts,
    }
}
