//! What the words of tables name.
ghost use Rattle.std.specs.Prelude.{◌≡◌, ◌<◌, IfOk, IfSome, length, is_some};
ghost use Rattle.plan_base.specs.Outcomes.{Gives};
ghost use Rattle.plan_base.specs.Shape.{count_of};
ghost use Rattle.game_types.specs.Goods.{good_count};
ghost use Rattle.std.specs.Bool.{OnTrue};
ghost use Rattle.game_types.specs.Lookups.{item_at};
ghost use Rattle.game_types.specs.Nodes.{shape_of};
ghost use Rattle.game_types.specs.Sound.{IsBeacon, IsFluid, IsModule, IsSound, IsSoundActivity};
ghost use Rattle.table_rows.specs.declared.refusals.TableRefusal.{TableRefusal};
ghost use Rattle.table_rows.specs.Names.{activity_at, activity_named, beacon_named, fluid_activity, fluid_named, good_at, good_named, is_activity, is_beacon, is_boiler, item_named, machine_named, module_named, place_named};

use crate::TableRefusal;
use game_types::{Activity, Game, MachineKind};
use plan_base::{Denied, EntityId, GoodId, Kind, NoMemory, RecipeId, SourceId, TechId};
use plan_lines::Object;
use std::alloc::Global;

// A word that names nothing, or nothing of the needed kind.
fn unknown(alloc: Global, object: &Object) -> Denied<TableRefusal>
    ensures { (refusal : TableRefusal) → result ≡ Denied.Refused refusal → TableRefusal.Unknown object.now ≡ refusal }
{
    match object.copy(alloc) {
        Ok(copy) => Denied::Refused(TableRefusal::Unknown(copy)),
        Err(_) => Denied::NoMemory,
    }
}

#[tactic(auto, unfolding(crate::specs::Names::place_named))]
// The place of a word's name among the names of a kind.
fn place_named(
    alloc: Global,
    game: &Game,
    kind: Kind,
    object: &Object,
) -> Result<u32, Denied<TableRefusal>>
    requires { IsSound game.now }
    ensures place { Gives (place_named game.now kind object.now) result }
    ensures within { IfOk result (λ place. place < count_of (shape_of game.now) kind) }
{
    match game.place_of(kind, object.name.as_str()) {
        Some(place) => Ok(place),
        None => Err(unknown(alloc, object)),
    }
}

#[tactic(auto, unfolding(crate::specs::Names::item_named))]
pub(crate) fn item_named(
    alloc: Global,
    game: &Game,
    object: &Object,
) -> Result<GoodId, Denied<TableRefusal>>
    requires { IsSound game.now }
    ensures good { Gives (item_named game.now object.now) result }
    ensures within { IfOk result (λ good. good.0 < length game.now.items) }
{
    let place = place_named(alloc, game, Kind::Item, object)?;
    Ok(GoodId(place))
}

#[tactic(auto, unfolding(crate::specs::Names::fluid_named))]
pub(crate) fn fluid_named(
    alloc: Global,
    game: &Game,
    object: &Object,
) -> Result<GoodId, Denied<TableRefusal>>
    requires { IsSound game.now }
    ensures good { Gives (fluid_named game.now object.now) result }
    ensures within { IfOk result (λ good. IsFluid game.now good.0) }
{
    let place = place_named(alloc, game, Kind::Fluid, object)?;
    Ok(GoodId(game.shape().items + place))
}

#[tactic(auto, unfolding(crate::specs::Names::machine_named))]
pub(crate) fn machine_named(
    alloc: Global,
    game: &Game,
    object: &Object,
) -> Result<EntityId, Denied<TableRefusal>>
    requires { IsSound game.now }
    ensures machine { Gives (machine_named game.now object.now) result }
    ensures within { IfOk result (λ machine. machine.0 < length game.now.machines) }
{
    let place = place_named(alloc, game, Kind::Machine, object)?;
    Ok(EntityId(place))
}

// Whether an item is a module.
fn is_module(game: &Game, good: GoodId) -> bool
    requires { good.0 < length game.now.items }
    ensures value { result ≡ is_some (item_at game.now good).«module» }
    ensures sound { OnTrue result (IsModule game.now good) }
{
    game.item(good).module.is_some()
}

#[tactic(auto, unfolding(crate::specs::Names::module_named))]
pub(crate) fn module_named(
    alloc: Global,
    game: &Game,
    object: &Object,
) -> Result<GoodId, Denied<TableRefusal>>
    requires { IsSound game.now }
    ensures good { Gives (module_named game.now object.now) result }
    ensures sound { IfOk result (IsModule game.now) }
{
    let good = item_named(alloc, game, object)?;
    if is_module(game, good) {
        Ok(good)
    } else {
        Err(unknown(alloc, object))
    }
}

fn is_beacon(kind: &MachineKind) -> bool
    ensures { result ≡ is_beacon kind.now }
{
    match kind {
        MachineKind::Beacon { .. } => true,
        _ => false,
    }
}

#[tactic(auto, using(crate::proofs::NameLemmas::beacon_sound), unfolding(crate::specs::Names::beacon_named))]
pub(crate) fn beacon_named(
    alloc: Global,
    game: &Game,
    object: &Object,
) -> Result<EntityId, Denied<TableRefusal>>
    requires { IsSound game.now }
    ensures beacon { Gives (beacon_named game.now object.now) result }
    ensures sound { IfOk result (IsBeacon game.now) }
{
    let machine = machine_named(alloc, game, object)?;
    if is_beacon(&game.machine(machine).kind) {
        Ok(machine)
    } else {
        Err(unknown(alloc, object))
    }
}

// The good of a table at a place among the things of a kind.
fn good_at(game: &Game, kind: Kind, place: u32) -> Option<GoodId>
    requires sound { IsSound game.now }
    requires within { place < count_of (shape_of game.now) kind }
    ensures good { result ≡ good_at game.now kind place }
    ensures within { IfSome result (λ good. good.0 < good_count game.now) }
{
    match kind {
        Kind::Item => Some(GoodId(place)),
        Kind::Fluid => Some(GoodId(game.shape().items + place)),
        Kind::Tech => Some(game.units_good(TechId(place))),
        Kind::Special => {
            if place == 1 {
                Some(game.electricity())
            } else {
                None
            }
        }
        Kind::Recipe => None,
        Kind::Source => None,
        Kind::Machine => None,
    }
}

/// The good of a table that a word names: an item, a fluid, electricity or a technology.
///
/// # Errors
///
/// `Unknown` where it names nothing, or `NoMemory`.
#[tactic(auto, unfolding(crate::specs::Names::good_named))]
pub fn good_named(
    alloc: Global,
    game: &Game,
    object: &Object,
) -> Result<GoodId, Denied<TableRefusal>>
    requires { IsSound game.now }
    ensures good { Gives (good_named game.now object.now) result }
    ensures within { IfOk result (λ good. good.0 < good_count game.now) }
{
    let place = place_named(alloc, game, object.kind, object)?;
    match good_at(game, object.kind, place) {
        Some(good) => Ok(good),
        None => Err(unknown(alloc, object)),
    }
}

fn is_activity(kind: Kind, place: u32) -> bool
    ensures { result ≡ is_activity kind place }
{
    match kind {
        Kind::Recipe => true,
        Kind::Source => true,
        Kind::Fluid => true,
        Kind::Tech => true,
        Kind::Special => place == 1,
        Kind::Item => false,
        Kind::Machine => false,
    }
}

#[tactic(auto, unfolding(crate::specs::Names::activity_named))]
pub(crate) fn activity_named(
    alloc: Global,
    game: &Game,
    object: &Object,
) -> Result<u32, Denied<TableRefusal>>
    requires { IsSound game.now }
    ensures place { Gives (activity_named game.now object.now) result }
    ensures within { IfOk result (λ place. place < count_of (shape_of game.now) object.now.kind) }
{
    let place = place_named(alloc, game, object.kind, object)?;
    if is_activity(object.kind, place) {
        Ok(place)
    } else {
        Err(unknown(alloc, object))
    }
}

pub(crate) fn is_boiler(kind: &MachineKind) -> bool
    ensures { result ≡ is_boiler kind.now }
{
    match kind {
        MachineKind::Boiler { .. } => true,
        _ => false,
    }
}

fn fluid_activity(boils: bool, good: GoodId) -> Activity
    ensures { result ≡ fluid_activity boils good }
{
    if boils {
        Activity::Boil(good)
    } else {
        Activity::Pump(good)
    }
}

// What is done with the thing at a place among those of a kind.
pub(crate) fn activity_at(game: &Game, boils: bool, kind: Kind, place: u32) -> Activity
    requires sound { IsSound game.now }
    requires within { place < count_of (shape_of game.now) kind }
    ensures activity { result ≡ activity_at game.now boils kind place }
    ensures sound { IsSoundActivity game.now result }
{
    match kind {
        Kind::Recipe => Activity::Craft(RecipeId(place)),
        Kind::Source => Activity::Mine(SourceId(place)),
        Kind::Fluid => fluid_activity(boils, GoodId(game.shape().items + place)),
        Kind::Tech => Activity::Research(TechId(place)),
        Kind::Special => Activity::Generate,
        Kind::Item => Activity::Generate,
        Kind::Machine => Activity::Generate,
    }
}
