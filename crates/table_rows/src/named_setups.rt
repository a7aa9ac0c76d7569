//! What a row does by the words of its parts.

ghost use Rattle.std.specs.Prelude.{◌≡◌, ◌<◌, ◌∷◌, ◌++◌, [], IfOk, length};
ghost use Rattle.plan_base.specs.Outcomes.{Gives};
ghost use Rattle.plan_base.specs.Shape.{count_of};
ghost use Rattle.game_types.specs.Nodes.{shape_of};
ghost use Rattle.game_types.specs.Sound.{IsSound, IsSoundSetup};
ghost use Rattle.table_rows.specs.declared.refusals.TableRefusal.{TableRefusal};
ghost use Rattle.table_rows.specs.Names.{activity_at, activity_named, bare_setup, beacon_named, fluid_named, in_last, is_boiler, item_named, machine_named, module_named, setup_named, with_part, with_parts};

use crate::TableRefusal;
use crate::names::{
    activity_at, activity_named, beacon_named, fluid_named, is_boiler, item_named, machine_named,
    module_named,
};
use game_types::{BeaconGroup, Game, Setup};
use plan_base::{Denied, EntityId, GoodId, Items, Kind, NoMemory};
use plan_lines::{Object, RowPart};
use std::alloc::Global;

// One item more at the end.
fn pushed<T: Drop>(items: Items<T>, item: T) -> Result<Items<T>, NoMemory>
    ensures { IfOk result (λ new. new ≡ items ++ item ∷ []) }
{
    let mut list = items.into_vec();
    list.push(item)?;
    Ok(Items::from_vec(list))
}

#[tactic(auto, using(crate::proofs::NameLemmas::in_last_push))]
// One module more in the last beacons.
fn pushed_in_last(
    groups: Items<BeaconGroup>,
    added: (GoodId, u32),
) -> Result<Items<BeaconGroup>, NoMemory>
    ensures { IfOk result (λ new. new ≡ in_last added groups) }
{
    let mut list = groups.into_vec();
    let Some(last) = list.pop() else {
        return Ok(Items::from_vec(list));
    };
    let modules = pushed(last.modules, added)?;
    list.push(BeaconGroup {
        beacon: last.beacon,
        count: last.count,
        share: last.share,
        modules,
    })?;
    Ok(Items::from_vec(list))
}

#[tactic(auto, unfolding(crate::specs::Names::with_part))]
fn with_fuel(
    alloc: Global,
    game: &Game,
    object: &Object,
    setup: Setup,
) -> Result<Setup, Denied<TableRefusal>>
    requires game { IsSound game.now }
    requires sound { IsSoundSetup game.now setup }
    ensures setup { Gives (with_part game.now (RowPart.Fuel object.now) setup) result }
    ensures sound { IfOk result (IsSoundSetup game.now) }
{
    let good = item_named(alloc, game, object)?;
    Ok(Setup {
        activity: setup.activity,
        machine: setup.machine,
        fuel: Some(good),
        modules: setup.modules,
        beacons: setup.beacons,
        at: setup.at,
    })
}

#[tactic(auto, using(crate::proofs::NameLemmas::module_added), unfolding(crate::specs::Names::with_part))]
fn with_module(
    alloc: Global,
    game: &Game,
    object: &Object,
    count: u32,
    setup: Setup,
) -> Result<Setup, Denied<TableRefusal>>
    requires game { IsSound game.now }
    requires sound { IsSoundSetup game.now setup }
    ensures setup { Gives (with_part game.now (RowPart.Module object.now count) setup) result }
    ensures sound { IfOk result (IsSoundSetup game.now) }
{
    let good = module_named(alloc, game, object)?;
    let modules = pushed(setup.modules, (good, count))?;
    Ok(Setup {
        activity: setup.activity,
        machine: setup.machine,
        fuel: setup.fuel,
        modules,
        beacons: setup.beacons,
        at: setup.at,
    })
}

#[tactic(auto, using(crate::proofs::NameLemmas::beacon_added), unfolding(crate::specs::Names::with_part))]
fn with_beacon(
    alloc: Global,
    game: &Game,
    object: &Object,
    count: u32,
    share: u32,
    setup: Setup,
) -> Result<Setup, Denied<TableRefusal>>
    requires game { IsSound game.now }
    requires sound { IsSoundSetup game.now setup }
    ensures setup { Gives (with_part game.now (RowPart.Beacon object.now count share) setup) result }
    ensures sound { IfOk result (IsSoundSetup game.now) }
{
    let beacon = beacon_named(alloc, game, object)?;
    let group = BeaconGroup {
        beacon,
        count,
        share,
        modules: Items::from_vec(Vec::new(alloc)),
    };
    let beacons = pushed(setup.beacons, group)?;
    Ok(Setup {
        activity: setup.activity,
        machine: setup.machine,
        fuel: setup.fuel,
        modules: setup.modules,
        beacons,
        at: setup.at,
    })
}

#[tactic(auto, using(crate::proofs::NameLemmas::in_added), unfolding(crate::specs::Names::with_part))]
fn with_module_in(
    alloc: Global,
    game: &Game,
    object: &Object,
    count: u32,
    setup: Setup,
) -> Result<Setup, Denied<TableRefusal>>
    requires game { IsSound game.now }
    requires sound { IsSoundSetup game.now setup }
    ensures setup { Gives (with_part game.now (RowPart.In object.now count) setup) result }
    ensures sound { IfOk result (IsSoundSetup game.now) }
{
    let good = module_named(alloc, game, object)?;
    let beacons = pushed_in_last(setup.beacons, (good, count))?;
    Ok(Setup {
        activity: setup.activity,
        machine: setup.machine,
        fuel: setup.fuel,
        modules: setup.modules,
        beacons,
        at: setup.at,
    })
}

#[tactic(auto, using(crate::proofs::NameLemmas::fluid_added), unfolding(crate::specs::Names::with_part))]
fn with_fluid(
    alloc: Global,
    game: &Game,
    object: &Object,
    setup: Setup,
) -> Result<Setup, Denied<TableRefusal>>
    requires game { IsSound game.now }
    requires sound { IsSoundSetup game.now setup }
    ensures setup { Gives (with_part game.now (RowPart.At object.now) setup) result }
    ensures sound { IfOk result (IsSoundSetup game.now) }
{
    let good = fluid_named(alloc, game, object)?;
    let at = pushed(setup.at, good)?;
    Ok(Setup {
        activity: setup.activity,
        machine: setup.machine,
        fuel: setup.fuel,
        modules: setup.modules,
        beacons: setup.beacons,
        at,
    })
}

// A set-up with one part more.
fn with_part(
    alloc: Global,
    game: &Game,
    part: &RowPart,
    setup: Setup,
) -> Result<Setup, Denied<TableRefusal>>
    requires game { IsSound game.now }
    requires sound { IsSoundSetup game.now setup }
    ensures setup { Gives (with_part game.now part.now setup) result }
    ensures sound { IfOk result (IsSoundSetup game.now) }
{
    match part {
        RowPart::Fuel(object) => with_fuel(alloc, game, object, setup),
        RowPart::Module(object, count) => with_module(alloc, game, object, *count, setup),
        RowPart::Beacon {
            machine,
            count,
            share,
        } => with_beacon(alloc, game, machine, *count, *share, setup),
        RowPart::In(object, count) => with_module_in(alloc, game, object, *count, setup),
        RowPart::At(object) => with_fluid(alloc, game, object, setup),
    }
}

#[tactic(auto, using(crate::proofs::NameLemmas::parts_next, crate::proofs::NameLemmas::parts_stop, crate::proofs::NameLemmas::parts_end))]
// A set-up with one part after another.
fn with_parts(
    alloc: Global,
    game: &Game,
    parts: &[RowPart],
    bare: Setup,
) -> Result<Setup, Denied<TableRefusal>>
    requires game { IsSound game.now }
    requires sound { IsSoundSetup game.now bare }
    ensures setup { Gives (with_parts game.now parts.now bare) result }
    ensures sound { IfOk result (IsSoundSetup game.now) }
{
    let mut setup = bare;
    for part in parts {
        setup = match with_part(alloc, game, part, setup) {
            Ok(next) => next,
            Err(fault) => return Err(fault),
        };
    }
    Ok(setup)
}

// What a machine does, without fuel, modules, beacons and fluids.
fn bare_setup(alloc: Global, game: &Game, kind: Kind, place: u32, machine: EntityId) -> Setup
    requires game { IsSound game.now }
    requires within { place < count_of (shape_of game.now) kind }
    requires machine { machine.0 < length game.now.machines }
    ensures setup { result ≡ bare_setup game.now kind place machine }
    ensures sound { IsSoundSetup game.now result }
{
    let boils = is_boiler(&game.machine(machine).kind);
    Setup {
        activity: activity_at(game, boils, kind, place),
        machine,
        fuel: None,
        modules: Items::from_vec(Vec::new(alloc)),
        beacons: Items::from_vec(Vec::new(alloc)),
        at: Items::from_vec(Vec::new(alloc)),
    }
}

/// The set-up of a row that its words name.
///
/// # Errors
///
/// `Unknown` with the first word that names nothing, or nothing of the needed kind. Or `NoMemory`.
#[tactic(auto, unfolding(crate::specs::Names::setup_named))]
pub fn setup_named(
    alloc: Global,
    game: &Game,
    activity: &Object,
    machine: &Object,
    parts: &[RowPart],
) -> Result<Setup, Denied<TableRefusal>>
    requires { IsSound game.now }
    ensures setup { Gives (setup_named game.now activity.now machine.now parts.now) result }
    ensures sound { IfOk result (IsSoundSetup game.now) }
{
    let place = activity_named(alloc, game, activity)?;
    let entity = machine_named(alloc, game, machine)?;
    let bare = bare_setup(alloc, game, activity.kind, place, entity);
    with_parts(alloc, game, parts, bare)
}
