//! A game with its launches.
ghost use Rattle.std.specs.Prelude.{IsErr, ◌≡◌, ◌≢◌, ◌<◌, ◌≤◌, ◌+◌, ◌-◌, ◌++◌, Some, Ok, Err, IfErr, IfOk, length, map, slice_get};
ghost use Rattle.plan_base.specs.Shape.{node_count};
ghost use Rattle.game_types.specs.Nodes.{node_limit, shape_of};
ghost use Rattle.craft_reader.specs.Faults.{GivesDump};
ghost use Rattle.game_types.specs.Sound.{IsSound};
ghost use Rattle.rocket_launches.specs.Launches.{AddsNames, cargo_in, flight_beyond, flights, flights_of, launch_fault, launch_name, launch_recipe, silos_in, with_launches};

use crate::clashes::flight_taken;
use crate::launches::{launch_names, launch_recipes, name_at};
use crate::silos::{Flight, Silo, cargo, flights, silos};
use craft_reader::{DumpCode, DumpFault};
use game_types::{Game, NODE_LIMIT, Recipe};
use name_table::Names;
use plan_base::{GoodId, Items, NoMemory, Text};
use prototype_fields::{FieldCode, FieldFault, Key, Within};
use std::alloc::Global;
use std::mem;

/// Whether names were added.
enum Added {
    All,
    /// The name at this place is there already.
    Taken(usize),
    NoMemory,
}

// Adds names of launches up to the first that is taken.
#[tactic(auto, using(crate::proofs::NameLemmas::taken_stop, crate::proofs::NameLemmas::taken_pass, crate::proofs::NameLemmas::taken_none, crate::proofs::NameLemmas::one_more, crate::proofs::NameLemmas::all_added))]
fn add_names(names: &mut Names, new: &[Text]) -> Added
    ensures { AddsNames names.old names.new new.now result }
{
    let mut place = 0;
    for name in new {
        if names.find(name.as_str()).is_some() {
            return Added::Taken(place);
        }
        if names.intern(name.as_str()).is_err() {
            return Added::NoMemory;
        }
        place += 1;
    }
    Added::All
}

// The fault of a flight.
#[tactic(auto, unfolding(crate::specs::Launches::launch_fault))]
fn launch_fault(alloc: Global, game: &Game, code: FieldCode, flight: &Flight) -> DumpFault
    requires { flight.now.silo.machine.0 < length game.now.machine_names }
    ensures { result.code ≢ DumpCode.NoMemory → result ≡ launch_fault game.now code flight.now }
{
    let fault = FieldFault {
        code,
        within: Within::Prototype,
        key: Some(Key::RocketPartsRequired),
    };
    let name = name_at(&game.machine_names, flight.silo.machine.0);
    DumpFault::of_field(alloc, "rocket-silo", name, fault)
}

// One list behind another.
fn appended(recipes: Items<Recipe>, more: Vec<Recipe>) -> Result<Items<Recipe>, NoMemory>
    ensures { IfOk result (λ all. all ≡ recipes ++ more.items) }
{
    let mut all = recipes.into_vec();
    let mut more = more;
    all.append(&mut more)?;
    Ok(Items::from_vec(all))
}

// Puts recipes behind those of a game, which has none after an error.
fn put_recipes(alloc: Global, game: &mut Game, recipes: Vec<Recipe>) -> Result<(), NoMemory>
    ensures { IfOk result (λ done. game.new ≡ record game.old { recipes = game.old.recipes ++ recipes.items }) }
{
    let dumped = mem::replace(&mut game.recipes, Items::from_vec(Vec::new(alloc)));
    game.recipes = appended(dumped, recipes)?;
    Ok(())
}

// Puts names and recipes behind those of a game, for flights for which there are nodes. After an error the game has some of the
// names.
fn put_launches(
    alloc: Global,
    game: &mut Game,
    all: &[Flight],
    names: &[Text],
    recipes: Vec<Recipe>,
) -> Result<(), DumpFault>
    requires sound { IsSound game.old }
    requires flights { all.now ≡ flights game.old }
    requires room { node_count (shape_of game.old) + length all.now ≤ node_limit }
    requires names { names.now ≡ map (launch_name game.old) all.now }
    requires recipes { recipes.items ≡ map (launch_recipe game.old) all.now }
    ensures game { IfOk result (λ done. with_launches game.old ≡ Ok game.new) }
    ensures fault { IfErr result (λ fault. fault.code ≢ DumpCode.NoMemory → with_launches game.old ≡ Err fault) }
{
    match add_names(&mut game.recipe_names, names) {
        Added::All => match put_recipes(alloc, game, recipes) {
            Ok(()) => Ok(()),
            Err(NoMemory) => Err(DumpFault::of_code(alloc, DumpCode::NoMemory)),
        },
        Added::Taken(place) => {
            let flight = &all[place];
            Err(launch_fault(alloc, game, FieldCode::Twice, flight))
        }
        Added::NoMemory => Err(DumpFault::of_code(alloc, DumpCode::NoMemory)),
    }
}

// How many nodes there may still be.
fn room(game: &Game) -> usize
    requires { IsSound game.now }
    ensures { result ≡ node_limit - node_count (shape_of game.now) }
{
    (NODE_LIMIT - game.shape().len()) as usize
}

// The flight of a place among those of silos with cargo.
#[tactic(auto, using(crate::proofs::FlightPlaces::no_flights))]
fn flight_at(silos: &[Silo], cargo: &[GoodId], place: usize) -> Option<Flight>
    ensures { result ≡ slice_get (flights_of silos.now cargo.now) place }
{
    if cargo.is_empty() {
        return None;
    }
    match silos.get(place / cargo.len()) {
        Some(silo) => Some(Flight {
            silo: *silo,
            cargo: cargo[place % cargo.len()],
        }),
        None => None,
    }
}

// The first flight for which there is no node.
#[tactic(auto, unfolding(crate::specs::Launches::flight_beyond, crate::specs::Launches::flights))]
fn flight_beyond(game: &Game, silos: &[Silo], cargo: &[GoodId]) -> Option<Flight>
    requires sound { IsSound game.now }
    requires silos { silos.now ≡ silos_in game.now }
    requires cargo { cargo.now ≡ cargo_in game.now }
    ensures { result ≡ flight_beyond game.now }
{
    flight_at(silos, cargo, room(game))
}

/// Why a launch is refused.
#[derive(Clone, Copy)]
struct Refusal {
    code: FieldCode,
    flight: Flight,
}

// Why a game with more flights than there is room for is refused. Memory only makes it faster: a fault is told without any.
fn why_refused(
    alloc: Global,
    game: &Game,
    silos: &[Silo],
    cargo: &[GoodId],
    beyond: &Flight,
) -> Refusal
    requires sound { IsSound game.now }
    requires silos { silos.now ≡ silos_in game.now }
    requires cargo { cargo.now ≡ cargo_in game.now }
    requires beyond { flight_beyond game.now ≡ Some beyond.now }
    ensures refused { with_launches game.now ≡ Err (launch_fault game.now result.code result.flight) }
    ensures named { result.flight.silo.machine.0 < length game.now.machine_names }
{
    match flight_taken(alloc, game, silos, cargo) {
        Some(flight) => Refusal {
            code: FieldCode::Twice,
            flight,
        },
        None => Refusal {
            code: FieldCode::Limit,
            flight: *beyond,
        },
    }
}

// The fault of a game with more flights than there is room for. Want of memory can only take its text.
fn refused(
    alloc: Global,
    game: &Game,
    silos: &[Silo],
    cargo: &[GoodId],
    beyond: &Flight,
) -> DumpFault
    requires sound { IsSound game.now }
    requires silos { silos.now ≡ silos_in game.now }
    requires cargo { cargo.now ≡ cargo_in game.now }
    requires beyond { flight_beyond game.now ≡ Some beyond.now }
    ensures fault { result.code ≢ DumpCode.NoMemory → with_launches game.now ≡ Err result }
    // One of them is sure, with or without memory for its text.
    ensures sure { IsErr (with_launches game.now) }
{
    let refusal = why_refused(alloc, game, silos, cargo, beyond);
    launch_fault(alloc, game, refusal.code, &refusal.flight)
}

// Puts the launches of flights, for which there are nodes, into a game.
fn put_flights(alloc: Global, game: &mut Game, all: &[Flight]) -> Result<(), DumpFault>
    requires sound { IsSound game.old }
    requires flights { all.now ≡ flights game.old }
    requires room { node_count (shape_of game.old) + length all.now ≤ node_limit }
    ensures game { IfOk result (λ done. with_launches game.old ≡ Ok game.new) }
    ensures fault { IfErr result (λ fault. fault.code ≢ DumpCode.NoMemory → with_launches game.old ≡ Err fault) }
{
    let Ok(names) = launch_names(alloc, game, all) else {
        return Err(DumpFault::of_code(alloc, DumpCode::NoMemory));
    };
    let Ok(recipes) = launch_recipes(alloc, game, all) else {
        return Err(DumpFault::of_code(alloc, DumpCode::NoMemory));
    };
    put_launches(alloc, game, all, names.as_slice(), recipes)
}

// Puts the launches of silos with cargo into a game.
fn put_all(
    alloc: Global,
    game: &mut Game,
    silos: &[Silo],
    cargo: &[GoodId],
) -> Result<(), DumpFault>
    requires sound { IsSound game.old }
    requires silos { silos.now ≡ silos_in game.old }
    requires cargo { cargo.now ≡ cargo_in game.old }
    ensures game { IfOk result (λ done. with_launches game.old ≡ Ok game.new) }
    ensures fault { IfErr result (λ fault. fault.code ≢ DumpCode.NoMemory → with_launches game.old ≡ Err fault) }
{
    if let Some(beyond) = flight_beyond(game, silos, cargo) {
        return Err(refused(alloc, game, silos, cargo, &beyond));
    }
    match flights(alloc, silos, cargo) {
        Ok(all) => put_flights(alloc, game, all.as_slice()),
        Err(NoMemory) => Err(DumpFault::of_code(alloc, DumpCode::NoMemory)),
    }
}

// Puts its launches into a game.
fn launch(alloc: Global, game: &mut Game) -> Result<(), DumpFault>
    requires { IsSound game.old }
    ensures game { IfOk result (λ done. with_launches game.old ≡ Ok game.new) }
    ensures fault { IfErr result (λ fault. fault.code ≢ DumpCode.NoMemory → with_launches game.old ≡ Err fault) }
{
    let Ok(silos) = silos(alloc, game) else {
        return Err(DumpFault::of_code(alloc, DumpCode::NoMemory));
    };
    let Ok(cargo) = cargo(alloc, game) else {
        return Err(DumpFault::of_code(alloc, DumpCode::NoMemory));
    };
    put_all(alloc, game, silos.as_slice(), cargo.as_slice())
}

// The game with its launches.
fn launched(alloc: Global, game: Game) -> Result<Game, DumpFault>
    requires { IsSound game }
    ensures { GivesDump (with_launches game) result }
{
    let mut game = game;
    launch(alloc, &mut game)?;
    Ok(game)
}

/// The game with a recipe for each launch behind the recipes of the dump.
///
/// # Errors
///
/// The first launch whose name a recipe or an earlier launch has; else the first for which there is no node. `NoMemory` where
/// memory could not be had.
pub fn add_launches(alloc: Global, game: Game) -> Result<Game, DumpFault>
    requires { IsSound game }
    ensures gives { GivesDump (with_launches game) result }
    ensures sound { IfOk result IsSound }
    ensures fluids { IfOk result (λ new. new.fluids ≡ game.fluids) }
{
    launched(alloc, game)
}
