//! A game with its fluids by temperature.
ghost use Rattle.std.specs.Prelude.{◌≡◌, ◌≢◌, ◌<◌, [], Err, IfErr, IfOk, None, Ok, length, nat_lt, not, slice_index_or, true};
ghost use Rattle.plan_base.specs.Shape.{node_count};
ghost use Rattle.craft_reader.specs.Faults.{GivesDump};
ghost use Rattle.game_types.specs.Nodes.{node_limit, shape_of};
ghost use Rattle.game_types.specs.Sound.{ArePlain, IsSound};
ghost use Rattle.fluid_variants.specs.Contents.{contents};
ghost use Rattle.fluid_variants.specs.Temperatures.{temperature_lists};
ghost use Rattle.fluid_variants.specs.Records.{all_names};
ghost use Rattle.fluid_variants.specs.Split.{split};
ghost use Rattle.fluid_variants.specs.Variants.{first_variant_name, name_fault, too_many_variants, with_variants};

use crate::assembly::{are_few, split};
use crate::naming::{Named, all_names, first_variant_name, table_of};
use crate::temperature_lists;
use craft_reader::{DumpCode, DumpFault};
use fractions::Ratio;
use game_types::Game;
use plan_base::{NoMemory, Text};
use prototype_fields::{FieldCode, FieldFault, Key, Within};
use std::alloc::Global;

// The fault of a name that is there twice.
fn name_fault(alloc: Global, name: &str) -> DumpFault
    ensures { result.code ≢ DumpCode.NoMemory → result ≡ name_fault name.now }
{
    let fault = FieldFault {
        code: FieldCode::Twice,
        within: Within::Prototype,
        key: Some(Key::Temperature),
    };
    DumpFault::of_field(alloc, "fluid", name, fault)
}

// The fault of too many records.
fn too_many_variants(alloc: Global) -> DumpFault
    ensures { result.code ≢ DumpCode.NoMemory → result ≡ too_many_variants }
{
    match Text::copy(alloc, "variants") {
        Ok(field) => DumpFault {
            code: DumpCode::Limit,
            section: Text::from_string(String::new(alloc)),
            name: Text::from_string(String::new(alloc)),
            field,
        },
        Err(NoMemory) => DumpFault::of_code(alloc, DumpCode::NoMemory),
    }
}

// The name at a place.
fn name_at(names: &[Text], place: usize) -> &str
    requires { place < length names.now }
    ensures { result.now ≡ slice_index_or names.now place [] }
{
    names[place].as_str()
}

// Puts the records of its fluids, which have these names, into a game.
fn put_named(
    alloc: Global,
    game: &mut Game,
    lists: Vec<Vec<Ratio>>,
    names: &[Text],
) -> Result<(), DumpFault>
    requires sound { IsSound game.old }
    requires lists { contents lists.items ≡ temperature_lists game.old }
    requires free { first_variant_name game.old ≡ None }
    requires few { true ≡ not (nat_lt node_limit (node_count (shape_of (split game.old)))) }
    requires names { names.now ≡ all_names game.old.fluid_names (contents lists.items) }
    ensures game { IfOk result (λ done. with_variants game.old ≡ Ok game.new) }
    ensures fault { IfErr result (λ fault. fault.code ≢ DumpCode.NoMemory → with_variants game.old ≡ Err fault) }
{
    match table_of(alloc, names) {
        Named::All(table) => match split(alloc, game, lists, table) {
            Ok(()) => Ok(()),
            Err(NoMemory) => Err(DumpFault::of_code(alloc, DumpCode::NoMemory)),
        },
        Named::Twice(place) => {
            let name = name_at(names, place);
            Err(name_fault(alloc, name))
        }
        Named::NoMemory => Err(DumpFault::of_code(alloc, DumpCode::NoMemory)),
    }
}

// Puts the records of its fluids, none of which has the name of a variant, into a game.
fn put_records(alloc: Global, game: &mut Game, lists: Vec<Vec<Ratio>>) -> Result<(), DumpFault>
    requires sound { IsSound game.old }
    requires lists { contents lists.items ≡ temperature_lists game.old }
    requires free { first_variant_name game.old ≡ None }
    ensures game { IfOk result (λ done. with_variants game.old ≡ Ok game.new) }
    ensures fault { IfErr result (λ fault. fault.code ≢ DumpCode.NoMemory → with_variants game.old ≡ Err fault) }
{
    if !are_few(game, lists.as_slice()) {
        return Err(too_many_variants(alloc));
    }
    match all_names(alloc, &game.fluid_names, lists.as_slice()) {
        Ok(names) => put_named(alloc, game, lists, names.as_slice()),
        Err(NoMemory) => Err(DumpFault::of_code(alloc, DumpCode::NoMemory)),
    }
}

// Puts the records of its fluids into a game.
fn put_variants(alloc: Global, game: &mut Game) -> Result<(), DumpFault>
    requires { IsSound game.old }
    ensures game { IfOk result (λ done. with_variants game.old ≡ Ok game.new) }
    ensures fault { IfErr result (λ fault. fault.code ≢ DumpCode.NoMemory → with_variants game.old ≡ Err fault) }
{
    let Ok(lists) = temperature_lists(alloc, game) else {
        return Err(DumpFault::of_code(alloc, DumpCode::NoMemory));
    };
    match first_variant_name(alloc, &game.fluid_names, lists.as_slice()) {
        Ok(None) => put_records(alloc, game, lists),
        Ok(Some(place)) => {
            let name = game.fluid_names.name_of(place);
            Err(name_fault(alloc, name))
        }
        Err(NoMemory) => Err(DumpFault::of_code(alloc, DumpCode::NoMemory)),
    }
}

// The game with the records of its fluids.
fn with_variants(alloc: Global, game: Game) -> Result<Game, DumpFault>
    requires { IsSound game }
    ensures { GivesDump (with_variants game) result }
{
    let mut game = game;
    match put_variants(alloc, &mut game) {
        Ok(()) => Ok(game),
        Err(fault) => Err(fault),
    }
}

/// The game with a base and variants of each fluid that is made at several temperatures.
///
/// # Errors
///
/// The first fluid that has the name of a variant; else more nodes than there may be. `NoMemory` where memory could not be had.
pub fn split_fluids(alloc: Global, game: Game) -> Result<Game, DumpFault>
    requires sound { IsSound game }
    requires plain { ArePlain game.fluids }
    ensures gives { GivesDump (with_variants game) result }
    ensures sound { IfOk result IsSound }
{
    with_variants(alloc, game)
}
