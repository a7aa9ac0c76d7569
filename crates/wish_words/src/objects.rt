//! What a word names in a game.
ghost use Rattle.std.specs.Prelude.{◌≡◌, true, None, IfOk};
ghost use Rattle.std.specs.List.{AllZip};
ghost use Rattle.game_types.specs.Sound.{IsSound};
ghost use Rattle.game_types.specs.Temperatures.{is_fit};
ghost use Rattle.script_reader.specs.Fields.{IsObjectAt};
ghost use Rattle.script_reader.specs.declared.fields.Place.TheVariants.{OneItem, OneMachine, OneRecipe};
ghost use Rattle.wish_words.specs.Named.{IsGoodOf, IsNamedGood, IsPlaceOf};

use game_types::{Game, MachineKind};
use plan_base::{Denied, EntityId, GoodId, Items, NoMemory, RecipeId};
use plan_lines::Object;
use script_reader::{Place, ScriptFault, object_at};
use std::alloc::{AllocFailed, Global};
use table_rows::good_named;
use wish_estimates::{all_variants, given_variants};

/// Why words name no wish.
#[derive(Clone, Copy)]
pub enum NameFault<'a> {
    /// Nothing that may stand there has the name.
    Unknown(&'a str, Place),
    /// A fluid that is made at several temperatures, of which none is named, and the fluid.
    SeveralTemperatures(&'a str, GoodId),
    /// An item that is no module.
    NoModule(&'a str),
    /// A machine that is no beacon.
    NoBeacon(&'a str),
    /// A good that is named a second time.
    Twice(&'a str),
    /// A good with no rate, where no belt tells one.
    NoRate(&'a str),
    NoMemory,
}

impl<'a, T: Drop> From<AllocFailed<T>> for NameFault<'a> {
    fn from(_: AllocFailed<T>) -> NameFault<'a> {
        NameFault::NoMemory
    }
}

impl<'a> From<NoMemory> for NameFault<'a> {
    fn from(_: NoMemory) -> NameFault<'a> {
        NameFault::NoMemory
    }
}

// The object that a word writes.
#[tactic(auto, unfolding(script_reader::specs::Reading::Answers, script_reader::specs::Reading::the_one))]
fn object<'a>(alloc: Global, word: &'a str, place: Place) -> Result<Object, NameFault<'a>>
    ensures { IfOk result (λ object. IsObjectAt place word.now object) }
{
    match object_at(alloc, word, place) {
        Ok(object) => Ok(object),
        Err(ScriptFault::NoMemory) => Err(NameFault::NoMemory),
        Err(_) => Err(NameFault::Unknown(word, place)),
    }
}

// The place of the thing that a word names, among those of its kind.
fn place_named<'a>(
    alloc: Global,
    game: &Game,
    word: &'a str,
    place: Place,
) -> Result<u32, NameFault<'a>>
    requires { IsSound game.now }
    ensures { IfOk result (IsPlaceOf game.now place word.now) }
{
    let object = object(alloc, word, place)?;
    match game.place_of(object.kind, object.name.as_str()) {
        Some(index) => Ok(index),
        None => Err(NameFault::Unknown(word, place)),
    }
}

// The good of a table that a word names.
fn good_of_word<'a>(alloc: Global, game: &Game, word: &'a str) -> Result<GoodId, NameFault<'a>>
    requires { IsSound game.now }
    ensures { IfOk result (IsNamedGood game.now word.now) }
{
    let object = object(alloc, word, Place::TableGood)?;
    match good_named(alloc, game, &object) {
        Ok(good) => Ok(good),
        Err(Denied::Refused(_)) => Err(NameFault::Unknown(word, Place::TableGood)),
        Err(Denied::NoMemory) => Err(NameFault::NoMemory),
    }
}

// The good itself, or of a fluid of several temperatures the only variant that something reached gives, where there is one alone.
fn way_to(
    alloc: Global,
    game: &Game,
    reached: &[bool],
    named: GoodId,
) -> Result<Option<GoodId>, NoMemory>
    requires { IsSound game.now }
{
    if !game.is_base(named) {
        return Ok(Some(named));
    }
    let variants = given_variants(alloc, game, reached, named)?;
    match variants.as_slice() {
        [only] => Ok(Some(*only)),
        _ => Ok(None),
    }
}

// The first variant of a fluid to which there is no way at any temperature: a wish for it tells why.
fn ungiven(
    alloc: Global,
    game: &Game,
    reached: &[bool],
    named: GoodId,
) -> Result<Option<GoodId>, NoMemory>
    requires { IsSound game.now }
{
    if given_variants(alloc, game, reached, named)?.len() > 0 {
        return Ok(None);
    }
    let variants = all_variants(alloc, game, named)?;
    match variants.as_slice() {
        [first, ..] => Ok(Some(*first)),
        [] => Ok(None),
    }
}

// The good that was found for a fluid of several temperatures, or for any other good.
fn fitting<'a>(
    game: &Game,
    word: &'a str,
    named: GoodId,
    found: Option<GoodId>,
) -> Result<GoodId, NameFault<'a>>
    ensures { IfOk result (λ good. is_fit game.now named.0 None None good.0 ≡ true) }
{
    match found {
        Some(good) => {
            if game.is_fit(named, &None, &None, good) {
                Ok(good)
            } else {
                Err(NameFault::SeveralTemperatures(word, named))
            }
        }
        None => Err(NameFault::SeveralTemperatures(word, named)),
    }
}

/// The good of a table that a word names: of a fluid of several temperatures the only variant that something reached gives.
///
/// # Errors
///
/// `Unknown`, `SeveralTemperatures`, or `NoMemory`.
pub fn good<'a>(
    alloc: Global,
    game: &Game,
    reached: &[bool],
    word: &'a str,
) -> Result<GoodId, NameFault<'a>>
    requires { IsSound game.now }
    ensures { IfOk result (IsGoodOf game.now word.now) }
{
    let named = good_of_word(alloc, game, word)?;
    let found = way_to(alloc, game, reached, named)?;
    fitting(game, word, named, found)
}

/// The good of a table for which a word wishes: of a fluid that nothing gives at any temperature its first variant.
///
/// # Errors
///
/// `Unknown`, `SeveralTemperatures`, or `NoMemory`.
pub fn wished_good<'a>(
    alloc: Global,
    game: &Game,
    reached: &[bool],
    word: &'a str,
) -> Result<GoodId, NameFault<'a>>
    requires { IsSound game.now }
    ensures { IfOk result (IsGoodOf game.now word.now) }
{
    let named = good_of_word(alloc, game, word)?;
    let mut found = way_to(alloc, game, reached, named)?;
    if found.is_none() {
        found = ungiven(alloc, game, reached, named)?;
    }
    fitting(game, word, named, found)
}

fn machine<'a>(alloc: Global, game: &Game, word: &'a str) -> Result<EntityId, NameFault<'a>>
    requires { IsSound game.now }
    ensures { IfOk result (λ id. IsPlaceOf game.now OneMachine word.now id.0) }
{
    Ok(EntityId(place_named(alloc, game, word, Place::OneMachine)?))
}

/// The machines that words name.
///
/// # Errors
///
/// `Unknown` for the first that names none, or `NoMemory`.
pub fn machines<'a>(
    alloc: Global,
    game: &Game,
    words: &[&'a str],
) -> Result<Items<EntityId>, NameFault<'a>>
    requires { IsSound game.now }
    ensures { IfOk result (λ machines. AllZip (λ word id. IsPlaceOf game.now OneMachine word.now id.0) words.now machines) }
{
    let mut machines = Vec::new(alloc);
    for word in words {
        machines.push(machine(alloc, game, *word)?)?;
    }
    Ok(Items::from_vec(machines))
}

fn recipe<'a>(alloc: Global, game: &Game, word: &'a str) -> Result<RecipeId, NameFault<'a>>
    requires { IsSound game.now }
    ensures { IfOk result (λ id. IsPlaceOf game.now OneRecipe word.now id.0) }
{
    Ok(RecipeId(place_named(alloc, game, word, Place::OneRecipe)?))
}

/// The recipes that words name.
///
/// # Errors
///
/// `Unknown` for the first that names none, or `NoMemory`.
pub fn recipes<'a>(
    alloc: Global,
    game: &Game,
    words: &[&'a str],
) -> Result<Items<RecipeId>, NameFault<'a>>
    requires { IsSound game.now }
    ensures { IfOk result (λ recipes. AllZip (λ word id. IsPlaceOf game.now OneRecipe word.now id.0) words.now recipes) }
{
    let mut recipes = Vec::new(alloc);
    for word in words {
        recipes.push(recipe(alloc, game, *word)?)?;
    }
    Ok(Items::from_vec(recipes))
}

/// The item that a word names.
///
/// # Errors
///
/// `Unknown`, or `NoMemory`.
pub fn item<'a>(alloc: Global, game: &Game, word: &'a str) -> Result<GoodId, NameFault<'a>>
    requires { IsSound game.now }
    ensures { IfOk result (λ id. IsPlaceOf game.now OneItem word.now id.0) }
{
    Ok(GoodId(place_named(alloc, game, word, Place::OneItem)?))
}

fn is_module(game: &Game, item: GoodId) -> bool {
    match game.items.as_slice().get(item.0 as usize) {
        Some(item) => item.module.is_some(),
        None => false,
    }
}

/// The module that a word names.
///
/// # Errors
///
/// `Unknown`, `NoModule`, or `NoMemory`.
pub fn module<'a>(alloc: Global, game: &Game, word: &'a str) -> Result<GoodId, NameFault<'a>>
    requires { IsSound game.now }
    ensures { IfOk result (λ id. IsPlaceOf game.now OneItem word.now id.0) }
{
    let module = item(alloc, game, word)?;
    if is_module(game, module) {
        Ok(module)
    } else {
        Err(NameFault::NoModule(word))
    }
}

/// The modules that words name.
///
/// # Errors
///
/// `Unknown` or `NoModule` for the first that names none, or `NoMemory`.
pub fn modules<'a>(
    alloc: Global,
    game: &Game,
    words: &[&'a str],
) -> Result<Items<GoodId>, NameFault<'a>>
    requires { IsSound game.now }
    ensures { IfOk result (λ modules. AllZip (λ word id. IsPlaceOf game.now OneItem word.now id.0) words.now modules) }
{
    let mut modules = Vec::new(alloc);
    for word in words {
        modules.push(module(alloc, game, *word)?)?;
    }
    Ok(Items::from_vec(modules))
}

fn is_beacon(game: &Game, machine: EntityId) -> bool {
    match game.machines.as_slice().get(machine.0 as usize) {
        Some(machine) => matches!(machine.kind, MachineKind::Beacon { .. }),
        None => false,
    }
}

/// The beacon that a word names.
///
/// # Errors
///
/// `Unknown`, `NoBeacon`, or `NoMemory`.
pub fn beacon<'a>(alloc: Global, game: &Game, word: &'a str) -> Result<EntityId, NameFault<'a>>
    requires { IsSound game.now }
    ensures { IfOk result (λ id. IsPlaceOf game.now OneMachine word.now id.0) }
{
    let beacon = machine(alloc, game, word)?;
    if is_beacon(game, beacon) {
        Ok(beacon)
    } else {
        Err(NameFault::NoBeacon(word))
    }
}
